ghost use Rattle.std.specs.Prelude.{◌≡◌};
ghost use Rattle.rules.specs.Contents.{Same};
ghost use Rattle.rules.specs.JobCalls.{raised_reads};
ghost use Rattle.rules.specs.Registers.{register_of};
ghost use Rattle.endings.specs.Endings.{with_reads};

use admission::numbered::Crew;
use admission::view::View;
use rules::head::Started;
use rules::tables::Tables;
use terms::numbers::Place;

// The read place of each cell that the crew's job has read first-hand is raised to the job's place at least.
pub fn raise_reads<V>(head: &Started, t: &mut Tables<'_, V>, crew: Crew, place: Place)
    ensures same { Same V t.new t.old }
    ensures step { register_of V head.now t.new ≡ with_reads {V = V} (register_of V head.now t.old) (raised_reads {V = V} (register_of V head.now t.old) crew.number place.0) }
{
    // By number: the view of a flag holds all tables, so that no iterator may hold this one beside it.
    for i in 0..t.read.len() {
        if View::new(head, t).has_read(crew, i) {
            t.read[i] = t.read[i].max(place.0);
        }
    }
}
