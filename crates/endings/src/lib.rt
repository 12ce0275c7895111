// What every ending of a job does: the read places, the flags, the job record, the book and the head.
#![tactic(auto)]

pub mod book;
pub mod closing;
pub mod ending;
pub mod reads;
