ghost use Rattle.std.specs.Prelude.{◌≡◌, ◌<◌, length, slice_index_or};
ghost use Rattle.rules.specs.declared.calls.Call.TheVariants.{Read as Reading};
ghost use Rattle.rules.specs.Contents.{Same};
ghost use Rattle.admission.specs.Lent.{CallPerformed};
ghost use Rattle.cell_calls.specs.declared.reading.Shown.TheVariants.{Own, Stored};

use admission::flags::{is_written, with_read};
use admission::looking::spot;
use admission::view::View;
use choosers::chooser::Chooser;
use endings::ending::abandon_job;
use rules::calls::Answer;
use rules::head::Started;
use rules::tables::Tables;
use terms::numbers::{CellNumber, CrewNumber, Place};
use terms::records::JobRecord;
use terms::refusals::Refusal;

// The value that a read shows, by its index: one of the own values, or one of the register's.
#[derive(Clone, Copy)]
enum Shown {
    Own(usize),
    Stored(usize),
}

// The one-element part of the table that has the shown value: one look-up hands it out, by a rule of the register.
fn look_up<'b, V>(t: &'b Tables<'_, V>, shown: Shown) -> &'b [V]
    requires { elim shown [ Own k ↦ k < length t.now.own.now | Stored i ↦ i < length t.now.values.now ] }
    ensures one { length result.now ≡ 1 }
    ensures shows { (d : V) → slice_index_or result.now 0 d ≡ (elim shown [ Own k ↦ slice_index_or t.now.own.now k d | Stored i ↦ slice_index_or t.now.values.now i d ]) }
{
    match shown {
        Shown::Own(k) => &t.own[k..k + 1],
        Shown::Stored(i) => &t.values[i..i + 1],
    }
}

// The value that a read tells.
fn told<V: Copy>(t: &Tables<'_, V>, shown: Shown) -> V
    requires { elim shown [ Own k ↦ k < length t.now.own.now | Stored i ↦ i < length t.now.values.now ] }
    ensures { (d : V) → result ≡ (elim shown [ Own k ↦ slice_index_or t.now.own.now k d | Stored i ↦ slice_index_or t.now.values.now i d ]) }
{
    look_up(t, shown)[0]
}

// Tells the job's own value where it has written the cell. Else tells the cell's value: it is now read first-hand, and
// the job's place will lie above the cell's written place; where that leaves no place the read is stale and ends the job.
pub fn read<V: Copy, C: Chooser>(
    head: &mut Started,
    t: &mut Tables<'_, V>,
    chooser: &mut C,
    crew: CrewNumber,
    cell: CellNumber,
) -> Result<Answer<V>, Refusal>
    ensures same { Same V t.new t.old }
    ensures performed { CallPerformed V head.old t.old (C.Chooser.meaning chooser.old) (Reading crew cell) result head.new t.new (C.Chooser.meaning chooser.new) }
{
    let view = View::new(head, t);
    let (known, at) = view.admit_at(crew, cell)?;
    let k = spot(head.sizes, known, at);
    let i = at.number - 1;
    if is_written(t.flags[k]) {
        return Ok(Answer::Told(told(t, Shown::Own(k))));
    }
    let job = view.record_of(known);
    let low = job.low.max(Place(t.written[i]));
    if job.high.0 - 2 < low.0 {
        return Err(Refusal::Stale(abandon_job(head, t, chooser, known)));
    }
    t.jobs[known.number - 1] = JobRecord { low, ..job };
    t.flags[k] = with_read(t.flags[k]);
    Ok(Answer::Told(told(t, Shown::Stored(i))))
}
