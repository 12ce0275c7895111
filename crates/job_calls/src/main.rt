#![tactic(auto)]

mod draws;
mod printing;
mod samples;

use crate::draws::Draws;
use crate::printing::{print_book, print_cells, print_exchange};
use crate::samples::{Sample, call_by_chance};
use choosers::chooser::Chooser;
use choosers::script::Script;
use choosers::stride::Stride;
use register::making::fill;
use rules::head::Filling;
use rules::sizes::Sizes;
use rules::tables::Tables;
use runs::exchange::Exchange;
use runs::running::start_and_run;
use std::io;
use terms::numbers::{CrewNumber, JobNumber, Place};
use terms::records::{Ending, Entry, JobRecord, Standing};
use terms::refusals::Refusal;
use values::records::{Card, Dial};

const CELLS: usize = 4;

const CREWS: usize = 4;

const ENTRIES: usize = 24;

const CALLS: usize = 240;

const ANY_JOB: JobRecord = JobRecord {
    standing: Standing::Open,
    job: JobNumber(9),
    low: Place(9),
    high: Place(9),
};

const ANY_ENTRY: Entry = Entry {
    job: JobNumber(9),
    crew: CrewNumber(9),
    place: Place(9),
    ending: Ending::Committed,
};

// Fills a register with these first values, starts it, makes the calls of a list on it, and prints each call with its
// answer, then the cells and the day book.
fn print_run<K: Sample, C: Chooser>(
    rt: &HostRuntime,
    first: &[K],
    t: &mut Tables<'_, K>,
    chooser: &mut C,
    list: &mut [Exchange<K>],
) -> io::Result<()> {
    let Ok(sizes) = Sizes::new(CELLS as u64, CREWS as u64, ENTRIES as u64) else {
        return println!(rt; "no such sizes");
    };
    let mut head = Filling::new(sizes);
    for value in first {
        let _ = fill(&mut head, t, *value);
    }
    let Ok(started) = start_and_run(head, t, chooser, list) else {
        return println!(rt; "not started");
    };
    for exchange in list.iter() {
        print_exchange(rt, exchange)?;
    }
    print_cells(rt, t.values)?;
    print_book(rt, t.book, started.ended)
}

// Draws first values and calls by chance, and prints what becomes of them. The tables hold anything before the start.
fn account<K: Sample, C: Chooser>(
    rt: &HostRuntime,
    title: &str,
    seed: u32,
    chooser: &mut C,
) -> io::Result<()> {
    println!(rt; "{title}")?;
    let mut draws = Draws { state: seed };
    let mut first = Vec::new(rt.alloc());
    for _ in 0..CELLS {
        first.push(K::sample(&mut draws))?;
    }
    let mut list = Vec::new(rt.alloc());
    for _ in 0..CALLS {
        list.push(Exchange {
            call: call_by_chance::<K>(&mut draws),
            answer: Err(Refusal::NotFilled),
        })?;
    }
    let mut values = vec![in rt.alloc(); K::blank(); CELLS]?;
    let mut written = vec![in rt.alloc(); 7; CELLS]?;
    let mut read = vec![in rt.alloc(); 7; CELLS]?;
    let mut jobs = vec![in rt.alloc(); ANY_JOB; CREWS]?;
    let mut own = vec![in rt.alloc(); K::blank(); CREWS * CELLS]?;
    let mut flags = vec![in rt.alloc(); 255; CREWS * CELLS]?;
    let mut book = vec![in rt.alloc(); ANY_ENTRY; ENTRIES]?;
    let mut t = Tables {
        values: &mut values,
        written: &mut written,
        read: &mut read,
        jobs: &mut jobs,
        own: &mut own,
        flags: &mut flags,
        book: &mut book,
    };
    print_run(rt, first.as_slice(), &mut t, chooser, list.as_mut_slice())
}

// The same with a stride of this step.
fn account_by_stride<K: Sample>(
    rt: &HostRuntime,
    title: &str,
    seed: u32,
    step: u64,
) -> io::Result<()> {
    let Ok(mut chooser) = Stride::new(step) else {
        return println!(rt; "no such stride");
    };
    account::<K, Stride>(rt, title, seed, &mut chooser)
}

fn main(rt: HostRuntime) -> io::Result<()> {
    let numbers = [
        40, 30, 20, 10, 35, 25, 15, 5, 60, 55, 58, 57, 90, 80, 70, 85, 75, 100,
    ];
    let mut script = Script::new(&numbers);
    account_by_stride::<Dial>(&rt, "dials, stride 8", 1, 8)?;
    account::<Dial, Script>(&rt, "dials, script", 2, &mut script)?;
    let mut script = Script::new(&numbers);
    account_by_stride::<Card>(&rt, "cards, stride 3", 3, 3)?;
    account::<Card, Script>(&rt, "cards, script", 4, &mut script)
}
