// Grants of steps on a saved state.
ghost use Rattle.std.specs.Prelude.{◌≡◌};
ghost use Rattle.checker.specs.Grant.{granted, other_file, grant_of, begun, begin_of};

use crate::runs;
use states::saved;
use states::state::{Stage, State};

// The file's length is not the noted one, or the marks are shorter than it.
// 0, where nothing is noted, is a number and no Option: it is State.length, and the clause of other_file takes every number.
#[tactic(auto, unfolding(crate::specs::Grant::other_file))]
fn other_file(f: &[u8], m: &[u8], noted: u32) -> bool
    ensures { result ≡ other_file f.now m.now noted }
{
    let n = noted as usize;
    (n != 0) & ((n != f.len()) | (m.len() < n))
}

// A fresh state, and -1, as no check has a verdict yet; or 20, and nothing changed, where the slice has another length than a state.
// A number answers: C is told both by it, through tlz_check_begin.
#[tactic(auto, unfolding(crate::specs::Grant::begin_of))]
pub fn begin(state: &mut [u32]) -> i32
    ensures { begun result state.new ≡ begin_of state.old }
{
    let Some(numbers) = state.as_mut_array() else {
        return 20;
    };
    let fresh = State {
        length: 0,
        stage: Stage::Fresh,
    };
    saved::save_state(numbers, fresh);
    -1
}

// A grant of steps on a saved state: what it answers, in steps how many it made, and in location where the record at fault is.
// A number answers: C is told -1 and 21 by it too, which are no refusals of a file.
pub fn grant(
    file: &[u8],
    marks: &mut [u8],
    state: &mut [u32],
    grant: u64,
    steps: &mut u64,
    location: &mut u64,
) -> i32
    ensures { granted result location.new steps.new state.new marks.new
        ≡ grant_of file.now marks.old state.old grant }
{
    *steps = 0;
    *location = 0;
    let Some(numbers) = state.as_mut_array() else {
        return 20;
    };
    let s = saved::load_state(numbers);
    if runs::is_finished(s.stage) | (grant == 0) {
        *location = u64::from(saved::location_in(s.stage));
        return saved::answer(s.stage);
    }
    if other_file(file, marks, s.length) {
        return 21;
    }
    let ran = runs::run(file, marks, s, grant);
    saved::save_state(numbers, ran.state);
    *steps = ran.made;
    *location = u64::from(saved::location_in(ran.state.stage));
    saved::answer(ran.state.stage)
}
