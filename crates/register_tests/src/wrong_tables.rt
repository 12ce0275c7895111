ghost use Rattle.std.specs.Prelude.{◌+◌, ◌<◌, ◌≤◌};

use crate::making::{ENTRY, JOB};
use register::making::{fill, start};
use rules::head::Filling;
use rules::sizes::Sizes;
use rules::tables::Tables;
use std::process::Abort;
use std::test::Fail;
use terms::refusals::{Refusal, TableName};

// One more than the right length where it shall be wrong, else the right length. A bool says it as well as an enum would.
fn length(right: usize, wrong: bool) -> usize
    requires { right < 9 }
    ensures { result ≤ right + 1 }
{
    if wrong { right + 1 } else { right }
}

// A register whose table of this name and number is too long: fill and start name it, and alter nothing.
fn check_named(rt: &impl Abort, wrong: TableName, number: u8) -> Result<(), Fail> {
    let (mut values, mut own) = ([1u64; 2], [4u64; 3]);
    let (mut written, mut read, mut flags) = ([2; 2], [3; 2], [3; 3]);
    let (mut jobs, mut book) = ([JOB; 3], [ENTRY; 4]);
    let mut tables = Tables {
        values: &mut values[..length(1, wrong == TableName::Values)],
        written: &mut written[..length(1, wrong == TableName::WrittenPlaces)],
        read: &mut read[..length(1, wrong == TableName::ReadPlaces)],
        jobs: &mut jobs[..length(2, wrong == TableName::JobRecords)],
        own: &mut own[..length(2, wrong == TableName::OwnValues)],
        flags: &mut flags[..length(2, wrong == TableName::Flags)],
        book: &mut book[..length(3, wrong == TableName::Book)],
    };
    let mut head = Filling::new(Sizes::new(1, 2, 3)?);
    assert_eq!(rt;
        fill(&mut head, &mut tables, 9),
        Err(Refusal::WrongTable(wrong))
    );
    // Not by `?`: the test ends with a word of its own.
    let Err(refused) = start(head, &mut tables) else {
        return Err(Fail::new("started"));
    };
    let (head, refusal) = refused;
    assert_eq!(rt; (refusal, head.filled), (Refusal::WrongTable(wrong), 0));
    assert_eq!(rt; (refusal.number(), wrong.number()), (9, number));
    assert_eq!(rt;
        (values, written, read, own, flags),
        ([1; 2], [2; 2], [3; 2], [4; 3], [3; 3])
    );
    assert_eq!(rt; (jobs, book), ([JOB; 3], [ENTRY; 4]));
    Ok(())
}

#[test]
fn each_table_is_named(rt: HostRuntime) -> Result<(), Fail> {
    check_named(&rt, TableName::Values, 1)?;
    check_named(&rt, TableName::WrittenPlaces, 2)?;
    check_named(&rt, TableName::ReadPlaces, 3)?;
    check_named(&rt, TableName::JobRecords, 4)?;
    check_named(&rt, TableName::OwnValues, 5)?;
    check_named(&rt, TableName::Flags, 6)?;
    check_named(&rt, TableName::Book, 7)
}
