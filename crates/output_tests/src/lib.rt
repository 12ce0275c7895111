#![tactic(auto)]

// What lists of lines leave on a paper: proved of a caller of `write_each`, and on examples.
pub mod callers;
#[cfg(test)]
mod lists;
