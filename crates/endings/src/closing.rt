ghost use Rattle.std.specs.Prelude.{◌≡◌, ◌+◌, ◌<◌, ◌≤◌, ◌&&◌, ◌++◌, length, take, drop, replicate, if◌then◌else◌, nat_lt, slice_set};
ghost use Rattle.rules.specs.Limits.{top};
ghost use Rattle.rules.specs.Heads.{started_of};
ghost use Rattle.rules.specs.JobCalls.{ended_head};

use rules::head::Started;
use terms::numbers::Place;
use terms::records::JobRecord;
use values::table::ValueTable;

// Puts zeros for the flags of a row, which begins at `from` and has `count` flags; where the table has no such row
// it is left as it is.
pub fn clear_row(flags: &mut [u8], from: usize, count: usize)
    ensures past { length flags.old < from + count → flags.new ≡ flags.old }
    ensures cleared { from + count ≤ length flags.old → flags.new ≡ take from flags.old ++ (replicate count 0 ++ drop (from + count) flags.old) }
{
    if from <= flags.len() && count <= flags.len() - from {
        flags[from..from + count].fill(0);
    }
}

// Puts a record into the table of job records; past the table's end nothing is put. One line, as `store` of register is for
// values: a function for both would say no more than `put`.
pub fn put_record(jobs: &mut [JobRecord], i: usize, job: JobRecord)
    ensures { jobs.new ≡ slice_set jobs.old i job }
{
    ValueTable::new(jobs).put(i, job);
}

// One job more has ended, at this place, and one less is open; a place over the top, or a head that counts no open job,
// changes nothing.
pub fn count_ended(head: &mut Started, place: Place)
    ensures { started_of head.new ≡ (if nat_lt place.0 top && nat_lt 0 head.old.active then ended_head (started_of head.old) place.0 else started_of head.old) }
{
    if place.0 < 1 << 62 && 0 < head.active {
        head.highest = head.highest.max(place);
        head.ended += 1;
        head.active -= 1;
    }
}
