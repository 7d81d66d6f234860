// Bytes, control fields, and the tables of data types and encodings.
#![tactic(auto)]

pub mod asked;
pub mod bytes;
pub mod encodings;
pub mod fields;
pub mod types;
