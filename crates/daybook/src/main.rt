#![tactic(auto)]

use schedule::account::account;
use std::io;
use std::io::{Read, Write};

// Reads a schedule from standard input, and prints its account. Of an input that is too long, no more is read than shows it.
fn main(rt: HostRuntime) -> io::Result<()> {
    let mut schedule = Vec::new(rt.alloc());
    rt.stdin().take(65_537).read_to_end(&mut schedule)?;
    let mut paper = vec![in rt.alloc(); 0; 65_536]?;
    match account(&schedule, &mut paper) {
        Ok(used) => rt.stdout().write_all(&paper[0..used]),
        Err(_) => Ok(()),
    }
}
