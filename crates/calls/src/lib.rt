// The check's calls, which crates/calls_c gives to C: a fresh state, a grant of steps, and a round over a list of jobs.
#![tactic(auto)]

pub mod checks;
pub mod rounds;
