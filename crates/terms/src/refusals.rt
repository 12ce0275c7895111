ghost use Rattle.std.specs.Prelude.{◌≡◌};
ghost use Rattle.terms.specs.Refusals.{number_of, table_number, cause_letter};

use crate::numbers::Place;

// The seven tables, each with its number, in the order in which they are handed in.
#[derive(Clone, Copy, PartialEq, Eq, Debug)]
pub enum TableName {
    Values = 1,
    WrittenPlaces = 2,
    ReadPlaces = 3,
    JobRecords = 4,
    OwnValues = 5,
    Flags = 6,
    Book = 7,
}

impl TableName {
    // The table's number, 1 to 7. One cast in each of three enums: a trait for it would be longer.
    pub fn number(self) -> u8
        ensures { result ≡ table_number self }
    {
        self as u8
    }
}

// Why a line of a schedule is bad, in the order of the tests, each with its letter.
#[derive(Clone, Copy, PartialEq, Eq, Debug)]
pub enum Cause {
    WrongLetter = b'L' as isize,
    WrongCount = b'F' as isize,
    NoNumber = b'N' as isize,
    OutOfRange = b'K' as isize,
}

impl Cause {
    // The letter that stands for the cause in the output; a cast, as `TableName::number` is.
    pub fn letter(self) -> u8
        ensures { result ≡ cause_letter self }
    {
        self as u8
    }

    // The cause, told of a field. It and `in_line` make two structs, and are the only places that write them out.
    pub fn in_field(self, field: usize) -> BadField
        ensures { (result.field ≡ field) × (result.cause ≡ self) }
    {
        BadField { field, cause: self }
    }
}

// The field at which a line is bad, counted from 1, and why.
#[derive(Clone, Copy, PartialEq, Eq, Debug)]
pub struct BadField {
    pub field: usize,
    pub cause: Cause,
}

impl BadField {
    // The bad field, told of a line.
    pub fn in_line(self, line: usize) -> BadLine
        ensures { (result.line ≡ line) × (result.at ≡ self) }
    {
        BadLine { line, at: self }
    }
}

// The line of a schedule that is bad, counted from 1, with its bad field.
#[derive(Clone, Copy, PartialEq, Eq, Debug)]
pub struct BadLine {
    pub line: usize,
    pub at: BadField,
}

// Everything that is ever refused.
#[derive(Clone, Copy, PartialEq, Eq, Debug)]
pub enum Refusal {
    // the crew's number is 0 or over the count of crews
    NoCrew,
    // the cell's number is 0 or over the count of cells, or a fill after the last cell
    NoCell,
    // an opening, and the crew has a job open
    JobOpen,
    // any other job call, and the crew has no job open
    NoJob,
    // an opening, and no place is left between the highest place and the top
    PlacesSpent,
    // an opening, and the ended and the open jobs are as many as the book's entries
    BookFull,
    // a read that leaves its job no place; the job has ended at this one
    Stale(Place),
    // a commit without a place; the job has ended at this one
    NoPlace(Place),
    // the first table whose length is not the head's
    WrongTable(TableName),
    // the job's record has no bounds with a place between them, or the head counts no open job
    Damaged,
    // a line of a schedule that cannot be read
    BadLine(BadLine),
    // the output has no room
    PaperFull,
    // a size or a stride outside its range, or a schedule that is too long
    BadSize,
    // a start before the last cell is filled
    NotFilled,
}

impl Refusal {
    // The refusal's number, 1 to 14. A match, since a case that holds a value cannot be cast.
    pub fn number(self) -> u8
        ensures { result ≡ number_of self }
    {
        match self {
            Refusal::NoCrew => 1,
            Refusal::NoCell => 2,
            Refusal::JobOpen => 3,
            Refusal::NoJob => 4,
            Refusal::PlacesSpent => 5,
            Refusal::BookFull => 6,
            Refusal::Stale(_) => 7,
            Refusal::NoPlace(_) => 8,
            Refusal::WrongTable(_) => 9,
            Refusal::Damaged => 10,
            Refusal::BadLine(_) => 11,
            Refusal::PaperFull => 12,
            Refusal::BadSize => 13,
            Refusal::NotFilled => 14,
        }
    }
}
