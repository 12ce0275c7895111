// The job calls that open and end a job, and `perform`, which makes any job call.
#![tactic(auto)]

pub mod abandoning;
pub mod committing;
pub mod opening;
pub mod performing;
