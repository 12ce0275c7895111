ghost use Rattle.std.specs.Prelude.{◌≡◌};
ghost use Rattle.terms.specs.declared.records.Standing.TheVariants.{Closed};
ghost use Rattle.terms.specs.Records.{ending_letter};

use crate::numbers::{CrewNumber, JobNumber, Place};

// Whether a crew has a job open.
#[derive(Clone, Copy, PartialEq, Eq, Debug, Default)]
pub enum Standing {
    #[default]
    Closed,
    Open,
}

// A crew's job: whether it is open, its number, and the two bounds between which its place will lie. By a rule of the
// register a closed record has its zeros, and a damaged one may hold any numbers, so that they stand beside the standing.
#[derive(Clone, Copy, PartialEq, Eq, Debug, Default)]
pub struct JobRecord {
    pub standing: Standing,
    pub job: JobNumber,
    pub low: Place,
    pub high: Place,
}

impl JobRecord {
    // The record of a crew that has no job open: zeros.
    pub fn closed() -> JobRecord
        ensures standing { result.standing ≡ Closed }
        ensures zeros { (result.job.0 ≡ 0) × (result.low.0 ≡ 0) × (result.high.0 ≡ 0) }
    {
        JobRecord::default()
    }
}

// How a job ended, each with its letter.
#[derive(Clone, Copy, PartialEq, Eq, Debug)]
pub enum Ending {
    Committed = b'C' as isize,
    Abandoned = b'A' as isize,
}

impl Ending {
    // The letter that stands for the ending in the output; a cast, as `TableName::number` is.
    pub fn letter(self) -> u8
        ensures { result ≡ ending_letter self }
    {
        self as u8
    }
}

// An entry of the book: an ended job, its crew, its place, and how it ended.
#[derive(Clone, Copy, PartialEq, Eq, Debug)]
pub struct Entry {
    pub job: JobNumber,
    pub crew: CrewNumber,
    pub place: Place,
    pub ending: Ending,
}
