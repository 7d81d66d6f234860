// Variables: the rule of a VDR, record bytes, and the place of an element.
#![tactic(auto)]

mod dimensions;
pub mod limit;
pub mod place;
pub mod vdr;
