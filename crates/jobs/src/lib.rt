// Files by turns: the parts of two areas that are a job's own, a job's turn, and a round over a list of rows.
#![tactic(auto)]

pub mod parts;
pub mod rows;
pub mod turns;
