// What a commit does besides what every ending does: the values, the written places, and the highs of
// the jobs that have read what it overwrites.
#![tactic(auto)]

pub mod committing;
pub mod lowering;
pub mod storing;
