use rules::calls::{Answer, Call};
use runs::exchange::Exchange;
use std::io;
use terms::records::Entry;
use terms::refusals::Refusal;
use values::kinds::Kind;

// Prints a value's fields, each after a comma; fields go by number.
fn print_fields<K: Kind>(rt: &HostRuntime, value: &K) -> io::Result<()> {
    for i in 0..K::count() {
        let number = value.field(i);
        print!(rt; ",{number}")?;
    }
    Ok(())
}

// Prints a call as a schedule has it; the match is on what the call is.
fn print_call<K: Kind>(rt: &HostRuntime, call: Call<K>) -> io::Result<()> {
    match call {
        Call::Open { crew } => print!(rt; "O,{}", crew.0),
        Call::Read { crew, cell } => print!(rt; "R,{},{}", crew.0, cell.0),
        Call::Write { crew, cell, value } => {
            print!(rt; "W,{},{}", crew.0, cell.0)?;
            print_fields(rt, &value)
        }
        Call::Commit { crew } => print!(rt; "C,{}", crew.0),
        Call::Abandon { crew } => print!(rt; "A,{}", crew.0),
    }
}

fn print_refusal(rt: &HostRuntime, refusal: Refusal) -> io::Result<()> {
    let number = refusal.number();
    match refusal {
        Refusal::Stale(place) | Refusal::NoPlace(place) => { println!(rt; " {number},{}", place.0) }
        _ => println!(rt; " {number}"),
    }
}

// Prints a call, and its answer after a space.
pub(crate) fn print_exchange<K: Kind>(rt: &HostRuntime, exchange: &Exchange<K>) -> io::Result<()> {
    print_call(rt, exchange.call)?;
    match exchange.answer {
        Ok(Answer::Opened(job)) => println!(rt; " +,{}", job.0),
        Ok(Answer::Told(value)) => {
            print!(rt; " +")?;
            print_fields(rt, &value)?;
            println!(rt; "")
        }
        Ok(Answer::Stored) => println!(rt; " +"),
        Ok(Answer::Ended(place)) => println!(rt; " +,{}", place.0),
        Err(refusal) => print_refusal(rt, refusal),
    }
}

// Prints the values of the cells.
pub(crate) fn print_cells<K: Kind>(rt: &HostRuntime, values: &[K]) -> io::Result<()> {
    for value in values {
        print!(rt; "V")?;
        print_fields(rt, value)?;
        println!(rt; "")?;
    }
    Ok(())
}

// Prints the day book: the book's first `ended` entries.
pub(crate) fn print_book(rt: &HostRuntime, book: &[Entry], ended: usize) -> io::Result<()> {
    for entry in book.iter().take(ended) {
        let (job, crew, place) = (entry.job.0, entry.crew.0, entry.place.0);
        let ending = char::from(entry.ending.letter());
        println!(rt; "B,{job},{crew},{place},{ending}")?;
    }
    Ok(())
}
