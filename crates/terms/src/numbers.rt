// The register's numbers, each a struct of its own by a rule of the register: none can take another's part.

// A place: a job's serialization point, the whole number by which the day book is ordered.
#[derive(Clone, Copy, PartialEq, Eq, PartialOrd, Ord, Debug, Default)]
pub struct Place(pub u64);

// A crew: a process. Crews are numbered from 1.
#[derive(Clone, Copy, PartialEq, Eq, Debug)]
pub struct CrewNumber(pub u64);

// A job: a transaction. Jobs are numbered from 1, in the order in which they were opened.
#[derive(Clone, Copy, PartialEq, Eq, Debug, Default)]
pub struct JobNumber(pub u64);

// A cell: a variable of the register. Cells are numbered from 1.
#[derive(Clone, Copy, PartialEq, Eq, Debug)]
pub struct CellNumber(pub u64);
