// Where a check stands.
use walk::positions::{Levels, Walk};

// How many numbers a saved state has.
pub const STATE_LENGTH: usize = 34;

// The stage of a check.
#[derive(Clone, Copy, Debug, PartialEq, Eq)]
pub enum Stage {
    // Not begun.
    Fresh,
    // The sweep, at an offset.
    Sweep { at: u32 },
    // The walk, at a link, and the index records above the one that is walked.
    Walking { walk: Walk, up: Levels },
    // Finished, with its verdict, which may be any number that a step of the walk has, and the location of its refusal.
    Done { verdict: u32, location: u32 },
    // A saved state with a number outside its range.
    OutOfRange,
}

// A check: the length of the file that the opening noted, and the stage.
// The length is 0 before the opening, and no Option: left_at of checker takes every length, and the 0 is saved (clause 10.3 of docs/RULES.md).
#[derive(Clone, Copy, Debug, PartialEq, Eq)]
pub struct State {
    pub length: u32,
    pub stage: Stage,
}
