// The register's terms: its numbers, its records, and its refusals.
#![tactic(auto)]

pub mod numbers;
pub mod records;
pub mod refusals;
