ghost use Rattle.rules.specs.declared.calls.Call.TheVariants.{Write as Writing};
ghost use Rattle.rules.specs.Contents.{Same};
ghost use Rattle.admission.specs.Lent.{CallPerformed};

use admission::flags::with_written;
use admission::looking::spot;
use admission::view::View;
use choosers::chooser::Chooser;
use rules::calls::Answer;
use rules::head::Started;
use rules::tables::Tables;
use terms::numbers::{CellNumber, CrewNumber};
use terms::refusals::Refusal;

// Writes a value into the job's own copy of a cell; no other job sees it.
pub fn write<V: Copy, C: Chooser>(
    head: &mut Started,
    t: &mut Tables<'_, V>,
    chooser: &mut C,
    crew: CrewNumber,
    cell: CellNumber,
    value: V,
) -> Result<Answer<V>, Refusal>
    ensures same { Same V t.new t.old }
    ensures performed { CallPerformed V head.old t.old (C.Chooser.meaning chooser.old) (Writing crew cell value) result head.new t.new (C.Chooser.meaning chooser.new) }
{
    let (known, at) = View::new(head, t).admit_at(crew, cell)?;
    let k = spot(head.sizes, known, at);
    t.own[k] = value;
    t.flags[k] = with_written(t.flags[k]);
    Ok(Answer::Stored)
}
