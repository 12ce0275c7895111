// The two job calls that name a cell.
#![tactic(auto)]

pub mod reading;
pub mod writing;
