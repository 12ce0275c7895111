// The output: lines written into a lent paper, each whole or not at all.
#![tactic(auto)]

pub mod answers;
pub mod count;
mod guard;
pub mod lines;
pub mod paper;
mod parts;
