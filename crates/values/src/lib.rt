// Values: what a cell holds, the kinds of them, how they are written in fields, and the table of them.
#![tactic(auto)]

pub mod kinds;
pub mod reading;
pub mod records;
pub mod table;
