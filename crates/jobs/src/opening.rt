ghost use Rattle.rules.specs.declared.calls.Call.TheVariants.{Open as Opening};
ghost use Rattle.rules.specs.Contents.{Same};
ghost use Rattle.admission.specs.Lent.{CallPerformed};

use admission::view::View;
use choosers::chooser::Chooser;
use rules::calls::Answer;
use rules::head::Started;
use rules::tables::Tables;
use terms::numbers::{CrewNumber, JobNumber, Place};
use terms::records::{JobRecord, Standing};
use terms::refusals::Refusal;

// Opens a job for a crew that has none: it gets the next number, and its place will lie between the highest place given
// so far and the top.
pub fn open<V: Copy, C: Chooser>(
    head: &mut Started,
    t: &mut Tables<'_, V>,
    chooser: &mut C,
    crew: CrewNumber,
) -> Result<Answer<V>, Refusal>
    ensures same { Same V t.new t.old }
    ensures performed { CallPerformed V head.old t.old (C.Chooser.meaning chooser.old) (Opening crew) result head.new t.new (C.Chooser.meaning chooser.new) }
{
    let admitted = View::new(head, t).admit_opening(crew)?;
    let job = JobNumber((head.ended + head.active + 1) as u64);
    t.jobs[admitted.number - 1] = JobRecord {
        standing: Standing::Open,
        job,
        low: head.highest,
        high: Place(1 << 62),
    };
    head.active += 1;
    Ok(Answer::Opened(job))
}
