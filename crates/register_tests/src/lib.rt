#![tactic(auto)]

// What making a register and choosing places do, on examples.
#[cfg(test)]
mod choosing;
#[cfg(test)]
mod making;
#[cfg(test)]
mod sizes;
#[cfg(test)]
mod wrong_tables;
