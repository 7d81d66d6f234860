// The index records above the one that is walked.
ghost use Rattle.std.specs.Prelude.{◌≡◌};
ghost use Rattle.walk.specs.Levels.{no_level, no_levels, is_none, most_of, room_below, pushed, popped, levels_after, changes_level};

use crate::positions::{Level, Levels, Step};

// No record.
pub fn no_level() -> Level
    ensures { result ≡ no_level }
{
    Level {
        vxr: 0,
        next: 0,
        last: 0,
    }
}

// The top chain has none above it.
pub fn no_levels() -> Levels
    ensures { result ≡ no_levels }
{
    let l = no_level();
    Levels {
        a: l,
        b: l,
        c: l,
        d: l,
        e: l,
        f: l,
        g: l,
    }
}

// There is no record at a level.
// A function: it is public, and its definition has this name.
#[tactic(auto, unfolding(crate::specs::Levels::is_none))]
pub fn is_none(l: Level) -> bool
    ensures { result ≡ is_none l }
{
    l.next == 0
}

// The greatest Last that an entry may have.
#[tactic(auto, unfolding(crate::specs::Levels::most_of))]
pub fn most_of(l: Level) -> u32
    ensures { result ≡ most_of l }
{
    if is_none(l) { 2147483647 } else { l.last }
}

// The record that is walked may have one below it.
#[tactic(auto, unfolding(crate::specs::Levels::room_below))]
pub fn room_below(s: Levels) -> bool
    ensures { result ≡ room_below s }
{
    is_none(s.g)
}

// One level down.
fn push(l: Level, s: Levels) -> Levels
    ensures { result ≡ pushed l s }
{
    Levels {
        a: l,
        b: s.a,
        c: s.b,
        d: s.c,
        e: s.d,
        f: s.e,
        g: s.f,
    }
}

// One level up.
fn pop(s: Levels) -> Levels
    ensures { result ≡ popped s }
{
    Levels {
        a: s.b,
        b: s.c,
        c: s.d,
        d: s.e,
        e: s.f,
        f: s.g,
        g: no_level(),
    }
}

// The levels where a step goes on.
pub fn after(s: Levels, t: Step) -> Levels
    ensures { result ≡ levels_after s t }
{
    match t {
        Step::Down { level, .. } => push(level, s),
        Step::Up { .. } => pop(s),
        _ => s,
    }
}

// They are others than before.
// A function: it is public, and its definition has this name.
pub fn changes_level(t: Step) -> bool
    ensures { result ≡ changes_level t }
{
    matches!(t, Step::Down { .. } | Step::Up { .. })
}
