ghost use Rattle.std.specs.Prelude.{◌≡◌};
ghost use Rattle.rules.specs.Contents.{Same};
ghost use Rattle.rules.specs.Performing.{Inserted, with_book};
ghost use Rattle.rules.specs.Registers.{register_of};
ghost use Rattle.admission.specs.Lent.{MayGoOn};
ghost use Rattle.endings.specs.Endings.{ended_at, MayEnd, AbandonedAt};

use crate::book::insert;
use crate::closing::{clear_row, count_ended, put_record};
use crate::reads::raise_reads;
use admission::looking::row;
use admission::numbered::Crew;
use admission::view::View;
use choosers::chooser::Chooser;
use rules::head::Started;
use rules::tables::Tables;
use terms::numbers::{CrewNumber, Place};
use terms::records::{Ending, Entry, JobRecord};

// The entry of a crew's job, which ended at the place.
pub fn entry_of(job: JobRecord, crew: Crew, place: Place, ending: Ending) -> Entry
    ensures names { (result.job ≡ job.job) × (result.crew.0 ≡ crew.number) }
    ensures ended { (result.place ≡ place) × (result.ending ≡ ending) }
{
    Entry {
        job: job.job,
        crew: CrewNumber(crew.number as u64),
        place,
        ending,
    }
}

// What changes a register takes head, tables and crew, as each call is handed head and tables by a rule of the register.

// What every ending of a crew's job does, with the entry that goes into the book.
pub fn end_job<V>(head: &mut Started, t: &mut Tables<'_, V>, crew: Crew, last: Entry)
    ensures same { Same V t.new t.old }
    ensures leaves { MayEnd {V = V} (register_of V head.old t.old) crew.number last.place.0 → register_of V head.new t.new ≡ with_book {V = V} (ended_at {V = V} (register_of V head.old t.old) crew.number last.place.0) t.new.book.now }
    ensures enters { MayEnd {V = V} (register_of V head.old t.old) crew.number last.place.0 → Inserted head.old.ended last t.old.book.now t.new.book.now }
{
    raise_reads(head, t, crew, last.place);
    let from = row(head.sizes, crew);
    clear_row(t.flags, from, head.sizes.cells);
    put_record(t.jobs, crew.number - 1, JobRecord::closed());
    insert(t.book, head.ended, last);
    count_ended(head, last.place);
}

// Abandons a crew's job at the place that the chooser gives between the job's bounds, and answers the place.
pub fn abandon_job<V, C: Chooser>(
    head: &mut Started,
    t: &mut Tables<'_, V>,
    chooser: &mut C,
    crew: Crew,
) -> Place
    ensures same { Same V t.new t.old }
    ensures abandoned { MayGoOn {V = V} (register_of V head.old t.old) crew.number → AbandonedAt {V = V} (register_of V head.old t.old) (C.Chooser.meaning chooser.old) crew.number result.0 (register_of V head.new t.new) (C.Chooser.meaning chooser.new) }
{
    let job = View::new(head, t).record_of(crew);
    let place = chooser.choose(job.low, job.high);
    end_job(head, t, crew, entry_of(job, crew, place, Ending::Abandoned));
    place
}
