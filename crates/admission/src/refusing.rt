ghost use Rattle.std.specs.Prelude.{◌≡◌, ◌+◌, ◌≤◌, true as yes, false as no, not, ◌||◌, [], ◌∷◌, Some, None, Ok, Err, ◌==◌, nat_lt};
ghost use Rattle.std.specs.Result.{result_err};
ghost use Rattle.terms.specs.declared.refusals.Refusal.TheVariants.{NoJob as NoJobOpen, Damaged as DamagedJob};
ghost use Rattle.rules.specs.declared.calls.Call.TheVariants.{Open as Opening};
ghost use Rattle.rules.specs.Limits.{top};
ghost use Rattle.rules.specs.Refusing.{first_refusal};
ghost use Rattle.rules.specs.Tables.{outside};
ghost use Rattle.rules.specs.Registers.{has_job, low_of, high_of};
ghost use Rattle.rules.specs.JobCalls.{damaged as isDamaged, call_tests, tests_of};
ghost use Rattle.admission.specs.Lent.{job_tests, MayOpen, MayGoOn};

use crate::looking::is_open;
use crate::numbered::{Cell, Crew};
use crate::view::View;
use register::refusing::wrong_table;
use terms::numbers::{CellNumber, CrewNumber};
use terms::refusals::Refusal;

// No place lies between the bounds, or they are over the top, or the head counts no open job.
fn unsound(low: u64, high: u64, active: usize) -> bool
    ensures { result ≡ (nat_lt high (low + 2) || (nat_lt top high || active == 0)) }
{
    high.saturating_sub(low) < 2 || 1 << 62 < high || active == 0
}

// The three that admit share their first two lines: a function for these would have a contract that is longer than they are.
impl<V> View<'_, '_, V> {
    // The crew that may open a job, or the first test that refuses the call.
    pub fn admit_opening(&self, number: CrewNumber) -> Result<Crew, Refusal>
        ensures answer { result_err result ≡ first_refusal (tests_of self.now (Opening number)) }
        ensures admitted { elim result [ Ok w ↦ (w.number ≡ number.0) × MayOpen self.now w.number | Err _ ↦ Unit {0} ] }
    {
        wrong_table(self.head.sizes, self.tables)?;
        let crew = Crew::of(number, self.head.sizes).ok_or(Refusal::NoCrew)?;
        if is_open(self.record_of(crew).standing) {
            return Err(Refusal::JobOpen);
        }
        if 1 << 62 < self.head.highest.0 + 2 {
            return Err(Refusal::PlacesSpent);
        }
        if self.head.ended + self.head.active == self.head.sizes.entries {
            return Err(Refusal::BookFull);
        }
        Ok(crew)
    }

    // The crew may go on with its job, or the first test that bars it.
    fn can_go_on(&self, crew: Crew) -> Result<(), Refusal>
        ensures answer { result_err result ≡ first_refusal ((not (has_job self.now crew.number), NoJobOpen) ∷ (isDamaged self.now crew.number, DamagedJob) ∷ []) }
        ensures going_on { elim result [ Ok _ ↦ (low_of self.now crew.number + 2 ≤ high_of self.now crew.number) × (high_of self.now crew.number ≤ top) × (1 ≤ self.now.head.active) | Err _ ↦ Unit {0} ] }
    {
        let job = self.record_of(crew);
        if !is_open(job.standing) {
            return Err(Refusal::NoJob);
        }
        if unsound(job.low.0, job.high.0, self.head.active) {
            return Err(Refusal::Damaged);
        }
        Ok(())
    }

    // The crew that may go on with its job, or the first test that refuses the call.
    pub fn admit(&self, number: CrewNumber) -> Result<Crew, Refusal>
        ensures answer { result_err result ≡ first_refusal (job_tests self.now no number.0) }
        ensures admitted { elim result [ Ok w ↦ (w.number ≡ number.0) × MayGoOn self.now w.number | Err _ ↦ Unit {0} ] }
    {
        wrong_table(self.head.sizes, self.tables)?;
        let crew = Crew::of(number, self.head.sizes).ok_or(Refusal::NoCrew)?;
        self.can_go_on(crew)?;
        Ok(crew)
    }

    // The crew that may go on with its job at the cell, and the cell, or the first test that refuses the call.
    pub fn admit_at(&self, number: CrewNumber, cell: CellNumber) -> Result<(Crew, Cell), Refusal>
        ensures answer { result_err result ≡ first_refusal (job_tests self.now (outside self.now.head.sizes.cells cell.0) number.0) }
        ensures admitted { elim result [ Ok at ↦ (at.0.number ≡ number.0) × (at.1.number ≡ cell.0) × (at.1.number ≤ self.now.head.sizes.cells) × MayGoOn self.now at.0.number | Err _ ↦ Unit {0} ] }
    {
        wrong_table(self.head.sizes, self.tables)?;
        let crew = Crew::of(number, self.head.sizes).ok_or(Refusal::NoCrew)?;
        let known = Cell::of(cell, self.head.sizes).ok_or(Refusal::NoCell)?;
        self.can_go_on(crew)?;
        Ok((crew, known))
    }
}
