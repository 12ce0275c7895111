ghost use Rattle.rules.specs.declared.calls.Call.TheVariants.{Commit as Committing};
ghost use Rattle.rules.specs.Contents.{Same};
ghost use Rattle.admission.specs.Lent.{CallPerformed};

use admission::view::View;
use bounds::low::commit_low;
use choosers::chooser::Chooser;
use commits::committing::commit_job;
use endings::ending::abandon_job;
use rules::calls::Answer;
use rules::head::Started;
use rules::tables::Tables;
use terms::numbers::{CrewNumber, Place};
use terms::refusals::Refusal;

// Ends the job above everything that its values must follow, and stores them; where no place is left there, the job ends
// as abandon ends it.
pub fn commit<V: Copy, C: Chooser>(
    head: &mut Started,
    t: &mut Tables<'_, V>,
    chooser: &mut C,
    crew: CrewNumber,
) -> Result<Answer<V>, Refusal>
    ensures same { Same V t.new t.old }
    ensures performed { CallPerformed V head.old t.old (C.Chooser.meaning chooser.old) (Committing crew) result head.new t.new (C.Chooser.meaning chooser.new) }
{
    let view = View::new(head, t);
    let admitted = view.admit(crew)?;
    let high = view.record_of(admitted).high.0;
    let low = commit_low(&view, admitted);
    if u128::from(high - 2) < low {
        return Err(Refusal::NoPlace(abandon_job(head, t, chooser, admitted)));
    }
    Ok(Answer::Ended(commit_job(head, t, chooser, admitted, Place(low as u64))))
}
