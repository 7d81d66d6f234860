// Lookup: the ways of the reader, along the lists to a record, and through an index to values.
#![tactic(auto)]

pub mod indexes;
pub mod lists;
pub mod refusals;
