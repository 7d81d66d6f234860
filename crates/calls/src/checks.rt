// A check of one file.
// Answers are numbers, and what comes beside one goes where the caller says: the C interface of tlz_check_begin and tlz_check_grant.
ghost use Rattle.std.specs.Prelude.{◌≡◌};
ghost use Rattle.checker.specs.Grant.{granted, grant_of, begun, begin_of};

use checker::grants;

// A fresh state, and -1, as no check has a verdict yet; or 20, and nothing changed, where it has another length than a state has.
pub fn tlz_check_begin(state: &mut [u32]) -> i32
    ensures { begun result state.new ≡ begin_of state.old }
{
    grants::begin(state)
}

// A grant of steps on a saved state: what it answers, in steps how many it made, and in location the offset of the record at fault.
pub fn tlz_check_grant(
    file: &[u8],
    marks: &mut [u8],
    state: &mut [u32],
    grant: u64,
    steps: &mut u64,
    location: &mut u64,
) -> i32
    ensures { granted result location.new steps.new state.new marks.new
        ≡ grant_of file.now marks.old state.old grant }
{
    grants::grant(file, marks, state, grant, steps, location)
}
