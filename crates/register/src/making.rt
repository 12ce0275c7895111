ghost use Rattle.std.specs.Prelude.{◌≡◌, Ok, Err, slice_set};
ghost use Rattle.rules.specs.Heads.{filling_of, started_of};
ghost use Rattle.rules.specs.Contents.{contents_of, Same};
ghost use Rattle.rules.specs.Making.{FillOutcome, fill_outcome, StartOutcome, start_outcome, answer_of, JustStarted};

use crate::refusing::wrong_table;
use rules::head::{Filling, Started};
use rules::tables::Tables;
use terms::numbers::Place;
use terms::records::JobRecord;
use terms::refusals::Refusal;
use values::table::ValueTable;

// Stores a value in row `i` of a table of values. A function of its own, since a table made of a field of `t` would leave
// what that field holds afterwards open in the proof.
fn store<V: Copy>(rows: &mut [V], i: usize, value: V)
    ensures { rows.new ≡ slice_set rows.old i value }
{
    ValueTable::new(rows).put(i, value);
}

// Gives the next cell its first value; past the last there is no cell.
pub fn fill<V: Copy>(head: &mut Filling, t: &mut Tables<'_, V>, value: V) -> Result<(), Refusal>
    ensures same { Same V t.new t.old }
    ensures outcome { ◌≡◌ {A = FillOutcome V} (record { answer = result; head = filling_of head.new; contents = contents_of V t.new }) (fill_outcome {V = V} (filling_of head.old) (contents_of V t.old) value) }
    ensures refused { elim result [ Ok _ ↦ Unit {0} | Err _ ↦ (filling_of head.new ≡ filling_of head.old) × (contents_of V t.new ≡ contents_of V t.old) ] }
{
    wrong_table(head.sizes, t)?;
    if head.filled == head.sizes.cells {
        return Err(Refusal::NoCell);
    }
    store(t.values, head.filled, value);
    head.filled += 1;
    Ok(())
}

// Ends the filling: every place is 0, every job record is closed, and no flag is set.
// A start before the last cell is filled is refused, and hands the head back.
pub fn start<V>(head: Filling, t: &mut Tables<'_, V>) -> Result<Started, (Filling, Refusal)>
    ensures same { Same V t.new t.old }
    ensures outcome { ◌≡◌ {A = StartOutcome V} (record { answer = answer_of result; contents = contents_of V t.new }) (start_outcome {V = V} (filling_of head) (contents_of V t.old)) }
    ensures started { elim result [ Ok s ↦ JustStarted {V = V} (started_of s) (contents_of V t.new) | Err _ ↦ Unit {0} ] }
    ensures refused { elim result [ Ok _ ↦ Unit {0} | Err e ↦ (e.0 ≡ head) × (contents_of V t.new ≡ contents_of V t.old) ] }
{
    // Not by `?`: a closure that hands the head back would take it from the lines below.
    if let Err(refusal) = wrong_table(head.sizes, t) {
        return Err((head, refusal));
    }
    if head.filled != head.sizes.cells {
        return Err((head, Refusal::NotFilled));
    }
    t.written.fill(0);
    t.read.fill(0);
    t.jobs.fill(JobRecord::closed());
    t.flags.fill(0);
    Ok(Started {
        sizes: head.sizes,
        highest: Place(0),
        ended: 0,
        active: 0,
    })
}
