// The state of a check, and the numbers that it is saved as.
#![tactic(auto)]

pub mod saved;
pub mod state;
