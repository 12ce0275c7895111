// The lower bound of a commit: what its place must lie above.
#![tactic(auto)]

pub mod cells;
pub mod low;
pub mod readers;
