// Schedules: text in, a register made and filled, and the account of it out.
#![tactic(auto)]

pub mod account;
mod cells;
mod making;
mod printing;
mod reading;
