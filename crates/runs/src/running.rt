ghost use Rattle.std.specs.Prelude.{◌≡◌, Ok, Err};
ghost use Rattle.rules.specs.Contents.{contents_of, Same};
ghost use Rattle.rules.specs.Heads.{dimensions_of, filling_of};
ghost use Rattle.rules.specs.Making.{fresh_head, start_outcome};
ghost use Rattle.rules.specs.Registers.{register_of};
ghost use Rattle.guarantee.specs.Promise.{Promise, PromiseFromStart};
ghost use Rattle.runs.specs.Logs.{calls_of, log_of};
ghost use Rattle.runs.specs.Starting.{started_register};

use crate::exchange::Exchange;
use choosers::chooser::Chooser;
use jobs::performing::perform;
use register::making::start;
use rules::head::{Filling, Started};
use rules::tables::Tables;
use terms::refusals::Refusal;

// Makes each call of a list in turn, on what the one before it left, and stores its answer beside it.
pub fn run<V: Copy, C: Chooser>(
    head: &mut Started,
    t: &mut Tables<'_, V>,
    chooser: &mut C,
    list: &mut [Exchange<V>],
)
    ensures same { Same V t.new t.old }
    ensures calls { calls_of list.new ≡ calls_of list.old }
    ensures promise { (d : V) → Promise d (register_of V head.old t.old) (C.Chooser.meaning chooser.old) (log_of list.new) (register_of V head.new t.new) (C.Chooser.meaning chooser.new) }
{
    for exchange in list.iter_mut() {
        exchange.answer = perform(head, t, chooser, exchange.call);
    }
}

// Starts a register and makes a list of calls on it. A refused start hands the head back, and no call is made.
pub fn start_and_run<V: Copy, C: Chooser>(
    head: Filling,
    t: &mut Tables<'_, V>,
    chooser: &mut C,
    list: &mut [Exchange<V>],
) -> Result<Started, (Filling, Refusal)>
    ensures same { Same V t.new t.old }
    ensures calls { calls_of list.new ≡ calls_of list.old }
    ensures kept { elim result [ Ok started ↦ ((start_outcome {V = V} (filling_of head) (contents_of V t.old)).answer ≡ Ok (fresh_head (dimensions_of head.sizes))) × ((d : V) → PromiseFromStart d (started_register {V = V} (filling_of head) (contents_of V t.old)) (C.Chooser.meaning chooser.old) (log_of list.new) (register_of V started t.new) (C.Chooser.meaning chooser.new)) | Err refused ↦ ((start_outcome {V = V} (filling_of head) (contents_of V t.old)).answer ≡ Err (filling_of refused.0, refused.1)) × (refused.0 ≡ head) × (contents_of V t.new ≡ contents_of V t.old) × (list.new ≡ list.old) × (chooser.new ≡ chooser.old) ] }
{
    let mut started = start(head, t)?;
    run(&mut started, t, chooser, list);
    Ok(started)
}
