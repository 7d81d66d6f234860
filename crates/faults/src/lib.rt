// Where a refusal lies: the record at fault.
#![tactic(auto)]

pub mod fault;
pub mod holder;
