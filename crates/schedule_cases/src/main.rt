#![tactic(auto)]

ghost use Rattle.std.specs.Prelude.{◌≤◌, length};

use schedule::account::account;
use std::io;
use std::io::{Read, Write};
use text::{number, read_line};

// Many schedules in one input, each after a line `#` and the size of its paper; for each a line `#` with its number and that
// size, and then its account, or `=` and the refusal's number where the paper is too small.

// Where a case ends: at the line feed before the next `#` at the beginning of a line, or at the input's last byte.
fn case_end(text: &[u8]) -> usize
    ensures { result ≤ length text.now }
{
    text.windows(2)
        .position(|pair| pair == b"\n#".as_slice())
        .unwrap_or(text.len().saturating_sub(1))
}

// The first case of an input behind its `#`, and the input from the next `#` on.
fn next_case(text: &[u8]) -> (&[u8], &[u8]) {
    let end = case_end(text);
    if end < text.len() {
        (&text[0..end], &text[end + 1..])
    } else {
        (text, &text[end..])
    }
}

// Prints the account of one case on the front of a paper.
fn print_case(rt: &HostRuntime, case: &[u8], paper: &mut [u8]) -> io::Result<()> {
    let (size, schedule) = read_line(case);
    let size = match number(size) {
        Some(size) if size <= paper.len() as u64 => size as usize,
        _ => return println!(rt; "no size"),
    };
    let paper = &mut paper[0..size];
    match account(schedule, paper) {
        Ok(used) => rt.stdout().write_all(&paper[0..used]),
        Err(refusal) => {
            let number = refusal.number();
            println!(rt; "={number}")
        }
    }
}

fn main(rt: HostRuntime) -> io::Result<()> {
    let mut text = Vec::new(rt.alloc());
    rt.stdin().read_to_end(&mut text)?;
    let mut paper = vec![in rt.alloc(); 0; 65_536]?;
    let mut rest = text.as_slice();
    // Cases are numbered from 1.
    for k in 1..100_000u32 {
        if rest.is_empty() {
            break;
        }
        let (case, after) = next_case(&rest[1..]);
        let (size, _) = read_line(case);
        let size = number(size).unwrap_or(0);
        println!(rt; "#{k},{size}")?;
        print_case(&rt, case, &mut paper)?;
        rest = after;
    }
    Ok(())
}
