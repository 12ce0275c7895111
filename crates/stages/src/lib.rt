// The lines of a schedule: the stage at which each stands, and what it says.
#![tactic(auto)]

pub mod call_line;
pub mod chooser_line;
pub mod head_line;
pub mod stage;
