ghost use Rattle.std.specs.Prelude.{◌≡◌, []};
ghost use Rattle.choosers.specs.Meaning.{moved_on};
ghost use Rattle.rules.specs.Contents.{Same};
ghost use Rattle.rules.specs.Registers.{register_of};
ghost use Rattle.commits.specs.Committing.{MayCommit, CommittedAt};

use crate::lowering::lower_highs;
use crate::storing::{set_written_places, store_values};
use admission::numbered::Crew;
use admission::view::View;
use choosers::chooser::Chooser;
use endings::ending::{end_job, entry_of};
use rules::head::Started;
use rules::tables::Tables;
use terms::numbers::Place;
use terms::records::Ending;

// The place of a commit: the one that the chooser gives between the bounds. A function of its own, since an edit that does
// not ask the chooser is refused here for what the contract says.
fn commit_place<C: Chooser>(chooser: &mut C, low: Place, high: Place) -> Place
    ensures gave { result.0 ≡ C.Chooser.meaning chooser.old [] low.0 high.0 }
    ensures moved { C.Chooser.meaning chooser.new ≡ moved_on (C.Chooser.meaning chooser.old) low.0 high.0 }
{
    chooser.choose(low, high)
}

// Commits a crew's job at the place that the chooser gives between the low bound and the job's high, and answers the place.
pub fn commit_job<V: Copy, C: Chooser>(
    head: &mut Started,
    t: &mut Tables<'_, V>,
    chooser: &mut C,
    crew: Crew,
    low: Place,
) -> Place
    ensures same { Same V t.new t.old }
    ensures committed { MayCommit {V = V} (register_of V head.old t.old) crew.number low.0 → (d : V) → CommittedAt {V = V} d (register_of V head.old t.old) (C.Chooser.meaning chooser.old) crew.number result.0 (register_of V head.new t.new) (C.Chooser.meaning chooser.new) }
{
    let job = View::new(head, t).record_of(crew);
    let place = commit_place(chooser, low, job.high);
    store_values(head, t, crew);
    set_written_places(head, t, crew, place);
    lower_highs(head, t, crew, place);
    end_job(head, t, crew, entry_of(job, crew, place, Ending::Committed));
    place
}
