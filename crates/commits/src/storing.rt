ghost use Rattle.std.specs.Prelude.{◌≡◌, ◌≤◌};
ghost use Rattle.rules.specs.Contents.{Same};
ghost use Rattle.rules.specs.Tables.{each};
ghost use Rattle.rules.specs.Registers.{register_of};
ghost use Rattle.admission.specs.Lent.{AllFit};
ghost use Rattle.commits.specs.Committing.{with_values, with_written_places, stored_value, written_place};

use admission::looking::spot;
use admission::numbered::{Cell, Crew};
use admission::view::View;
use rules::head::Started;
use rules::tables::Tables;
use terms::numbers::Place;

// Each cell that the crew's job has written takes the crew's own value.
pub fn store_values<V: Copy>(head: &Started, t: &mut Tables<'_, V>, crew: Crew)
    ensures same { Same V t.new t.old }
    ensures step { AllFit {V = V} (register_of V head.now t.old) → crew.number ≤ head.now.sizes.crews → (d : V) → register_of V head.now t.new ≡ with_values {V = V} (register_of V head.now t.old) (each (stored_value {V = V} d crew.number (register_of V head.now t.old)) t.old.values.now) }
{
    // By number: the view of a flag holds all tables, so that no iterator may hold one beside it.
    for i in 0..head.sizes.cells {
        let own = spot(head.sizes, crew, Cell { number: i + 1 });
        if View::new(head, t).has_written(crew, i) && own < t.own.len() && i < t.values.len() {
            t.values[i] = t.own[own];
        }
    }
}

// Each cell that the crew's job has written takes the job's place for its written place.
pub fn set_written_places<V>(head: &Started, t: &mut Tables<'_, V>, crew: Crew, place: Place)
    ensures same { Same V t.new t.old }
    ensures step { register_of V head.now t.new ≡ with_written_places {V = V} (register_of V head.now t.old) (each (written_place {V = V} crew.number place.0 (register_of V head.now t.old)) t.old.written.now) }
{
    // By number, for the same reason.
    for i in 0..t.written.len() {
        if View::new(head, t).has_written(crew, i) {
            t.written[i] = place.0;
        }
    }
}
