// The saved state: thirty-four numbers.
ghost use Rattle.std.specs.Prelude.{◌≡◌, ◌+◌, ◌≤◌, [], ◌∷◌};
ghost use Rattle.states.specs.Bounds.{VerdictFits, var_ranges};
ghost use Rattle.states.specs.Stages.{done, answer_of, location_in};
ghost use Rattle.walk.specs.Ranges.{offset, link, count, row_of, in_range, all_in};
ghost use Rattle.states.specs.Saved.{state_length, bit, save_row, save_stage, levels_in, save_levels, save, walk_range, level_there, none_there, level_list, none_of, levels_stand, levels_range, stage_range, var_by, level_by, levels_by, walk_by, stage_by, checked, load};
ghost use Rattle.walk.specs.declared.positions.Walk.TheVariants.{Entries};

use crate::state::{STATE_LENGTH, Stage, State};
use faults::fault;
use walk::levels;
use walk::positions::{Level, Levels, Var, Walk};

// A finished check.
// A number: a check may be finished with any verdict.
pub fn finished(verdict: u32, location: u32) -> State
    ensures { result ≡ done verdict location }
{
    State {
        length: 0,
        stage: Stage::Done { verdict, location },
    }
}

// The numbers of a position in the index of a variable.
// Its numbers one by one, as the two positions have them: a struct would be made in walk_numbers and taken apart here at once.
fn index_numbers(
    l: u32,
    phase: u32,
    u: Var,
    link: u32,
    before: u32,
    entry: u32,
    floor: u32,
    covered: bool,
) -> [u32; 12]
    ensures { result ≡ 0 ∷ l ∷ phase ∷ u.kind ∷ link ∷ u.place ∷ u.greatest ∷ u.vdr
        ∷ before ∷ entry ∷ floor ∷ bit covered ∷ [] }
{
    let covered = u32::from(covered);
    [
        0, l, phase, u.kind, link, u.place, u.greatest, u.vdr, before, entry, floor, covered,
    ]
}

// The numbers of a position of the walk.
fn walk_numbers(l: u32, w: Walk) -> [u32; 12]
    ensures { result ≡ save_row l (row_of w) }
{
    match w {
        Walk::Start => [0, l, 2, 0, 0, 0, 0, 0, 0, 0, 0, 0],
        Walk::Vars {
            kind,
            link,
            count,
            greatest,
        } => [0, l, 3, kind, link, count, greatest, 0, 0, 0, 0, 0],
        Walk::Chain {
            var: u,
            link,
            before,
            floor,
            covered,
        } => index_numbers(l, 4, u, link, before, 0, floor, covered),
        Walk::Entry {
            var: u,
            vxr,
            entry,
            floor,
            covered,
        } => index_numbers(l, 5, u, 0, vxr, entry, floor, covered),
        Walk::Attrs { link, count } => [0, l, 6, 0, link, count, 0, 0, 0, 0, 0, 0],
        Walk::Entries {
            kind,
            adr,
            place,
            link,
            count,
            greatest,
        } => [0, l, 7, kind, link, place, 0, adr, 0, count, greatest, 0],
        Walk::Unused { link, before } => [0, l, 8, 0, link, 0, 0, 0, before, 0, 0, 0],
    }
}

// The first twelve numbers of a stage.
// A number: a finished check takes every verdict that a step is given, so that the sum fits is asked for here.
fn stage_numbers(l: u32, g: Stage) -> [u32; 12]
    requires { VerdictFits g }
    ensures { result ≡ save_stage l g }
{
    match g {
        Stage::Fresh => [0, l, 0, 0, 0, 0, 0, 0, 0, 0, 0, 0],
        Stage::Sweep { at } => [0, l, 1, 0, at, 0, 0, 0, 0, 0, 0, 0],
        Stage::Walking { walk, .. } => walk_numbers(l, walk),
        Stage::Done { verdict, .. } => [verdict + 1, l, 0, 0, 0, 0, 0, 0, 0, 0, 0, 0],
        Stage::OutOfRange => [0, l, 9, 0, 0, 0, 0, 0, 0, 0, 0, 0],
    }
}

// The levels of a stage.
fn levels_in(g: Stage) -> Levels
    ensures { result ≡ levels_in g }
{
    match g {
        Stage::Walking { up, .. } => up,
        _ => levels::no_levels(),
    }
}

// The location of a refusal, or 0.
pub fn location_in(g: Stage) -> u32
    ensures { result ≡ location_in g }
{
    match g {
        Stage::Done { location, .. } => location,
        _ => 0,
    }
}

// -1 for a check that is not finished, or its verdict.
// That the verdict fits is asked for: a finished check may have any.
pub fn answer(g: Stage) -> i32
    requires { VerdictFits g }
    ensures { result ≡ answer_of g }
{
    match g {
        Stage::Done { verdict, .. } => verdict.cast_signed(),
        _ => -1,
    }
}

// An offset, a place in a list or the number of an entry in its range.
// This and the next two are one comparison each: each has the name of its range (crates/walk/specs/Ranges.antt).
fn is_offset(n: u32) -> bool
    ensures { result ≡ in_range (offset n) }
{
    n <= 2147483647
}

// Where a link stands in its range.
fn is_link(n: u32) -> bool
    ensures { result ≡ in_range (link n) }
{
    n <= 2147483711
}

// A count or a number + 1 in its range.
fn is_count(n: u32) -> bool
    ensures { result ≡ in_range (count n) }
{
    n <= 2147483648
}

// Those of a position in an attribute's list of entries.
// Its numbers one by one, as Walk::Entries has them; the kind is one of them.
fn entries_range(kind: u32, adr: u32, place: u32, link: u32, count: u32, greatest: u32) -> bool
    ensures { result ≡ walk_range (Entries kind adr place link count greatest) }
{
    matches!(kind, 5 | 9)
        & is_link(link)
        & is_offset(place)
        & is_offset(adr)
        & is_count(count)
        & is_count(greatest)
}

// The numbers of a position of the walk are in their ranges.
fn walk_range(w: Walk) -> bool
    ensures { result ≡ walk_range w }
{
    match w {
        Walk::Start => true,
        Walk::Vars {
            kind,
            link,
            count,
            greatest,
        } => { matches!(kind, 3 | 8) & is_link(link) & is_count(count) & is_count(greatest) }
        Walk::Chain {
            var,
            link,
            before,
            floor,
            ..
        } => { var_range(var) & is_link(link) & is_offset(before) & is_count(floor) }
        Walk::Entry {
            var,
            vxr,
            entry,
            floor,
            ..
        } => { var_range(var) & is_offset(vxr) & is_offset(entry) & is_count(floor) }
        Walk::Attrs { link, count } => is_link(link) & is_count(count),
        Walk::Entries {
            kind,
            adr,
            place,
            link,
            count,
            greatest,
        } => entries_range(kind, adr, place, link, count, greatest),
        Walk::Unused { link, before } => is_link(link) & is_offset(before),
    }
}

// Those of the variable whose index is walked.
fn var_range(v: Var) -> bool
    ensures { result ≡ all_in (var_ranges v) }
{
    matches!(v.kind, 3 | 8) & is_offset(v.place) & is_count(v.greatest) & is_offset(v.vdr)
}

// The numbers of a level that is there.
fn level_there(l: Level) -> bool
    ensures { result ≡ level_there l }
{
    (1 <= l.next) & is_offset(l.vxr) & is_count(l.next) & is_offset(l.last)
}

// The numbers of one that is not.
// A function: its definition has this name, and the law stand_is goes by it.
fn none_there(l: Level) -> bool
    ensures { result ≡ none_there l }
{
    l == levels::no_level()
}

// The levels, the nearest first.
fn level_list(s: Levels) -> [Level; 7]
    ensures { result ≡ level_list s }
{
    [s.a, s.b, s.c, s.d, s.e, s.f, s.g]
}

// After a level that is not there none is there.
fn levels_stand(s: Levels) -> bool
    ensures { result ≡ levels_stand (level_list s) }
{
    level_list(s)
        .iter()
        .skip_while(|l| level_there(**l))
        .all(|l| none_there(*l))
}

// No level is there.
fn none_of(s: Levels) -> bool
    ensures { result ≡ none_of (level_list s) }
{
    level_list(s).iter().all(|l| none_there(*l))
}

// Levels stand above an index record alone.
fn levels_range(up: Levels, w: Walk) -> bool
    ensures { result ≡ levels_range up w }
{
    match w {
        Walk::Chain { .. } | Walk::Entry { .. } => levels_stand(up),
        _ => none_of(up),
    }
}

// The numbers of a stage are in their ranges.
fn stage_range(l: u32, g: Stage) -> bool
    ensures { result ≡ stage_range l g }
{
    let known = (372 <= l) & is_offset(l);
    match g {
        Stage::Fresh => l == 0,
        Stage::Sweep { at } => known & (8 <= at) & is_offset(at),
        Stage::Walking { walk, up } => known & walk_range(walk) & levels_range(up, walk),
        Stage::Done { .. } | Stage::OutOfRange => false,
    }
}

// The variable that the numbers tell of.
fn var_of(s: &[u32; STATE_LENGTH]) -> Var
    ensures { result ≡ var_by s.now }
{
    Var {
        kind: s[3],
        vdr: s[7],
        place: s[5],
        greatest: s[6],
    }
}

// The level that the numbers from a place in the list on tell of.
fn level_of(s: &[u32; STATE_LENGTH], p: usize) -> Level
    requires { p + 3 ≤ state_length }
    ensures { result ≡ level_by s.now p }
{
    Level {
        vxr: s[p],
        next: s[p + 1],
        last: s[p + 2],
    }
}

// The levels that the numbers tell of.
fn levels_of(s: &[u32; STATE_LENGTH]) -> Levels
    ensures { result ≡ levels_by s.now }
{
    Levels {
        a: level_of(s, 12),
        b: level_of(s, 15),
        c: level_of(s, 18),
        d: level_of(s, 21),
        e: level_of(s, 24),
        f: level_of(s, 27),
        g: level_of(s, 30),
    }
}

// The position of the walk that the numbers tell of, if their phase has one.
// The phase is a saved number: load promises its answer for every one.
fn walk_of(s: &[u32; STATE_LENGTH], phase: u32) -> Option<Walk>
    ensures { result ≡ walk_by s.now phase }
{
    let (kind, link, count, before, entry, floor) = (s[3], s[4], s[5], s[8], s[9], s[10]);
    match phase {
        2 => Some(Walk::Start),
        3 => Some(Walk::Vars {
            kind,
            link,
            count,
            greatest: s[6],
        }),
        4 => Some(Walk::Chain {
            var: var_of(s),
            link,
            before,
            floor,
            covered: s[11] == 1,
        }),
        5 => Some(Walk::Entry {
            var: var_of(s),
            vxr: before,
            entry,
            floor,
            covered: s[11] == 1,
        }),
        6 => Some(Walk::Attrs { link, count }),
        7 => Some(Walk::Entries {
            kind,
            adr: s[7],
            place: count,
            link,
            count: entry,
            greatest: floor,
        }),
        8 => Some(Walk::Unused { link, before }),
        _ => None,
    }
}

// The stage that the numbers tell of, by their phase.
// The phase is a saved number: load promises its answer for every one.
#[tactic(auto, unfolding(crate::specs::Saved::stage_by))]
fn stage_of(s: &[u32; STATE_LENGTH], phase: u32) -> Stage
    ensures { result ≡ stage_by s.now phase }
{
    match phase {
        0 => Stage::Fresh,
        1 => Stage::Sweep { at: s[4] },
        _ => walk_of(s, phase).map_or(
            Stage::OutOfRange,
            |walk| Stage::Walking {
                walk,
                up: levels_of(s),
            },
        ),
    }
}

// A stage, or that its numbers are not those of a saved state.
fn checked_stage(s: &[u32; STATE_LENGTH], length: u32, stage: Stage) -> Stage
    ensures { result ≡ checked s.now length stage }
{
    if !stage_range(length, stage) {
        return Stage::OutOfRange;
    }
    let mut own = [0; STATE_LENGTH];
    save_state(&mut own, State { length, stage });
    if own == *s { stage } else { Stage::OutOfRange }
}

// A state from its numbers.
#[tactic(auto, unfolding(crate::specs::Saved::load))]
pub fn load_state(s: &[u32; STATE_LENGTH]) -> State
    ensures { result ≡ load s.now }
{
    let length = s[1];
    if s[0] == 0 {
        return State {
            length,
            stage: checked_stage(s, length, stage_of(s, s[2])),
        };
    }
    let verdict = s[0] - 1;
    if matches!(verdict, 0..=14 | 20 | 23) {
        return finished(verdict, fault::saved_location(verdict, s[33]));
    }
    State {
        length,
        stage: Stage::OutOfRange,
    }
}

// The numbers of the levels.
fn levels_numbers(s: Levels) -> [u32; 21]
    ensures { result ≡ save_levels s }
{
    let [a, b, c, d, e, f, g] = level_list(s);
    [
        a.vxr, a.next, a.last, b.vxr, b.next, b.last, c.vxr, c.next, c.last, d.vxr, d.next, d.last,
        e.vxr, e.next, e.last, f.vxr, f.next, f.last, g.vxr, g.next, g.last,
    ]
}

// The numbers of a state into an array.
pub fn save_state(s: &mut [u32; STATE_LENGTH], t: State)
    requires { VerdictFits t.stage }
    ensures { s.new ≡ save t }
{
    s[..12].copy_from_slice(&stage_numbers(t.length, t.stage));
    s[12..33].copy_from_slice(&levels_numbers(levels_in(t.stage)));
    s[33] = location_in(t.stage);
}
