use terms::numbers::{CellNumber, CrewNumber, JobNumber, Place};

// A job call: which crew makes it, of which cell, and with which value.
#[derive(Clone, Copy)]
pub enum Call<V> {
    // the crew opens a job
    Open {
        crew: CrewNumber,
    },
    // its job asks for the value of a cell
    Read {
        crew: CrewNumber,
        cell: CellNumber,
    },
    // its job writes a value into its own copy of a cell
    Write {
        crew: CrewNumber,
        cell: CellNumber,
        value: V,
    },
    // its job ends, and what it wrote goes into the cells
    Commit {
        crew: CrewNumber,
    },
    // its job ends, and what it wrote is let go
    Abandon {
        crew: CrewNumber,
    },
}

// What an accepted job call is answered.
#[derive(Clone, Copy)]
pub enum Answer<V> {
    // an opening: the new job's number
    Opened(JobNumber),
    // a read: the value
    Told(V),
    // a write: nothing more
    Stored,
    // a commit or an abandon: the place at which the job ended
    Ended(Place),
}
