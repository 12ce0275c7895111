// What gives an ending job its place between two bounds: the chooser, and the two that are ours.
#![tactic(auto)]

pub mod chooser;
pub mod script;
pub mod stride;
