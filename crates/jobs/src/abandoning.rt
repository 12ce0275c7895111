ghost use Rattle.rules.specs.declared.calls.Call.TheVariants.{Abandon as Abandoning};
ghost use Rattle.rules.specs.Contents.{Same};
ghost use Rattle.admission.specs.Lent.{CallPerformed};

use admission::view::View;
use choosers::chooser::Chooser;
use endings::ending::abandon_job;
use rules::calls::Answer;
use rules::head::Started;
use rules::tables::Tables;
use terms::numbers::CrewNumber;
use terms::refusals::Refusal;

// Ends the job between its bounds as they stand, and lets its values go.
pub fn abandon<V: Copy, C: Chooser>(
    head: &mut Started,
    t: &mut Tables<'_, V>,
    chooser: &mut C,
    crew: CrewNumber,
) -> Result<Answer<V>, Refusal>
    ensures same { Same V t.new t.old }
    ensures performed { CallPerformed V head.old t.old (C.Chooser.meaning chooser.old) (Abandoning crew) result head.new t.new (C.Chooser.meaning chooser.new) }
{
    let admitted = View::new(head, t).admit(crew)?;
    Ok(Answer::Ended(abandon_job(head, t, chooser, admitted)))
}
