ghost use Rattle.std.specs.Prelude.{◌≡◌, length};
ghost use Rattle.rules.specs.Contents.{Same};
ghost use Rattle.rules.specs.Tables.{each};
ghost use Rattle.rules.specs.Registers.{register_of};
ghost use Rattle.commits.specs.Committing.{with_jobs, lowered_record};

use admission::numbered::Crew;
use admission::view::View;
use bounds::readers::is_other_reader;
use endings::closing::put_record;
use rules::head::Started;
use rules::tables::Tables;
use terms::numbers::Place;
use terms::records::JobRecord;

// Lowers to the place the high of every other open job that has read first-hand a cell that the crew's job has written.
pub fn lower_highs<V>(head: &Started, t: &mut Tables<'_, V>, crew: Crew, place: Place)
    ensures same { Same V t.new t.old }
    ensures step { length t.old.jobs.now ≡ head.now.sizes.crews → register_of V head.now t.new ≡ with_jobs {V = V} (register_of V head.now t.old) (each (lowered_record {V = V} crew.number place.0 (register_of V head.now t.old)) t.old.jobs.now) }
{
    // By number: the view of a reader holds all tables, so that no iterator may hold the records beside it.
    for i in 0..head.sizes.crews {
        let other = Crew { number: i + 1 };
        let view = View::new(head, t);
        if is_other_reader(&view, crew, other) {
            let job = view.record_of(other);
            let high = job.high.min(place);
            put_record(t.jobs, i, JobRecord { high, ..job });
        }
    }
}
