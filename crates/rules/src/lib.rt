// The register's head, tables and calls; in specs/, the rules: what each call answers and leaves.
#![tactic(auto)]

pub mod calls;
pub mod head;
pub mod sizes;
pub mod tables;
