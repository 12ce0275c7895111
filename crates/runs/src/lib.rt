// Lists of job calls, made one after the other, and what is promised of them.
#![tactic(auto)]

pub mod exchange;
pub mod running;
