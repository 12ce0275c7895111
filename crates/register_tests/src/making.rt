use register::making::{fill, start};
use rules::head::Filling;
use rules::sizes::Sizes;
use rules::tables::Tables;
use std::test::Fail;
use terms::numbers::{CrewNumber, JobNumber, Place};
use terms::records::{Ending, Entry, JobRecord, Standing};
use terms::refusals::Refusal;
use values::records::Card;

// What stands in the tables before: nothing of it may last that start clears, and all of the rest must.
pub const JOB: JobRecord = JobRecord {
    standing: Standing::Open,
    job: JobNumber(5),
    low: Place(6),
    high: Place(7),
};

pub const ENTRY: Entry = Entry {
    job: JobNumber(8),
    crew: CrewNumber(2),
    place: Place(9),
    ending: Ending::Abandoned,
};

// Written out, since what a test expects shares nothing with the code.
const CLOSED: JobRecord = JobRecord {
    standing: Standing::Closed,
    job: JobNumber(0),
    low: Place(0),
    high: Place(0),
};

#[test]
fn start_clears_what_it_should(rt: HostRuntime) -> Result<(), Fail> {
    let (mut values, mut own) = ([1u64; 2], [4u64; 4]);
    let (mut written, mut read, mut flags) = ([2; 2], [3; 2], [3; 4]);
    let (mut jobs, mut book) = ([JOB; 2], [ENTRY; 3]);
    let mut tables = Tables {
        values: &mut values,
        written: &mut written,
        read: &mut read,
        jobs: &mut jobs,
        own: &mut own,
        flags: &mut flags,
        book: &mut book,
    };
    let mut head = Filling::new(Sizes::new(2, 2, 3)?);
    fill(&mut head, &mut tables, 10)?;
    fill(&mut head, &mut tables, 11)?;
    assert_eq!(rt; fill(&mut head, &mut tables, 12), Err(Refusal::NoCell));
    // Not by `?`: the test ends with a word of its own.
    let Ok(started) = start(head, &mut tables) else {
        return Err(Fail::new("not started"));
    };
    assert_eq!(rt;
        (started.highest.0, started.ended, started.active),
        (0, 0, 0)
    );
    assert_eq!(rt; values, [10, 11]);
    assert_eq!(rt; (written, read, flags), ([0; 2], [0; 2], [0; 4]));
    assert_eq!(rt; jobs, [CLOSED; 2]);
    assert_eq!(rt; (own, book), ([4; 4], [ENTRY; 3]));
    Ok(())
}

// A start that comes too early hands the head back, and the filling goes on; here at another kind of value.
#[test]
fn start_waits_for_the_last_cell(rt: HostRuntime) -> Result<(), Fail> {
    let card = Card {
        serial: 1,
        litres: 2,
        gateway: 3,
    };
    let last = Card {
        serial: 4,
        litres: 5,
        gateway: 6,
    };
    let (mut values, mut own) = ([card; 2], [card; 2]);
    let (mut written, mut read, mut flags) = ([2; 2], [3; 2], [3; 2]);
    let (mut jobs, mut book) = ([JOB; 1], [ENTRY; 1]);
    let mut tables = Tables {
        values: &mut values,
        written: &mut written,
        read: &mut read,
        jobs: &mut jobs,
        own: &mut own,
        flags: &mut flags,
        book: &mut book,
    };
    let mut head = Filling::new(Sizes::new(2, 1, 1)?);
    fill(&mut head, &mut tables, card)?;
    // Not by `?`: the test ends with a word of its own.
    let Err(refused) = start(head, &mut tables) else {
        return Err(Fail::new("started too early"));
    };
    let (mut head, refusal) = refused;
    assert_eq!(rt; (refusal, head.filled), (Refusal::NotFilled, 1));
    assert_eq!(rt;
        (tables.written[0], tables.read[1], tables.flags[1]),
        (2, 3, 3)
    );
    assert_eq!(rt; tables.jobs[0], JOB);
    fill(&mut head, &mut tables, last)?;
    assert!(rt; start(head, &mut tables).is_ok());
    assert_eq!(rt; values, [card, last]);
    Ok(())
}
