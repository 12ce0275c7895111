// The lines that are written for the answers of job calls and for the day book.
#![tactic(auto)]

pub mod answers;
pub mod book;
