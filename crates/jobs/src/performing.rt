ghost use Rattle.rules.specs.Contents.{Same};
ghost use Rattle.admission.specs.Lent.{CallPerformed};

use crate::abandoning::abandon;
use crate::committing::commit;
use crate::opening::open;
use cell_calls::reading::read;
use cell_calls::writing::write;
use choosers::chooser::Chooser;
use rules::calls::{Answer, Call};
use rules::head::Started;
use rules::tables::Tables;
use terms::refusals::Refusal;

// Makes any job call. By a rule of the register each is handed head, tables and chooser; the match is on which call it is.
pub fn perform<V: Copy, C: Chooser>(
    head: &mut Started,
    t: &mut Tables<'_, V>,
    chooser: &mut C,
    call: Call<V>,
) -> Result<Answer<V>, Refusal>
    ensures same { Same V t.new t.old }
    ensures performed { CallPerformed V head.old t.old (C.Chooser.meaning chooser.old) call result head.new t.new (C.Chooser.meaning chooser.new) }
{
    match call {
        Call::Open { crew } => open(head, t, chooser, crew),
        Call::Read { crew, cell } => read(head, t, chooser, crew, cell),
        Call::Write { crew, cell, value } => write(head, t, chooser, crew, cell, value),
        Call::Commit { crew } => commit(head, t, chooser, crew),
        Call::Abandon { crew } => abandon(head, t, chooser, crew),
    }
}
