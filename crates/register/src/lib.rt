// The register's calls.
#![tactic(auto)]

pub mod making;
pub mod refusing;
