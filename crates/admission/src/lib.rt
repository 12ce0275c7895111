// What comes before every job call does its work: the crew and the cell that a call names, what the tables hold of them,
// and the tests by which a call is refused.
#![tactic(auto)]

pub mod flags;
pub mod looking;
pub mod numbered;
pub mod refusing;
pub mod view;
