// The check's calls for C: each is the call of crates/calls by that name, with its clauses.
// Answers are numbers, and what comes beside one goes where the caller says: the C interface of tlz_check_begin, tlz_check_grant and tlz_round.
// Each stands twice: a library of Rattle cannot be a static library too.
#![tactic(auto)]

ghost use Rattle.std.specs.Prelude.{◌≡◌, length};
ghost use Rattle.checker.specs.Grant.{granted, grant_of, begun, begin_of};
ghost use Rattle.jobs.specs.Turns.{window, rounded, round_of};

use jobs::turns::Job;

// A fresh state, and -1, as no check has a verdict yet; or 20, and nothing changed, where it has another length than a state has.
#[unsafe(no_mangle)]
pub extern "C" fn tlz_check_begin(state: &mut [u32]) -> i32
    ensures { begun result state.new ≡ begin_of state.old }
{
    calls::checks::tlz_check_begin(state)
}

// A grant of steps on a saved state: what it answers, in steps how many it made, and in location the offset of the record at fault.
#[unsafe(no_mangle)]
pub extern "C" fn tlz_check_grant(
    file: &[u8],
    marks: &mut [u8],
    state: &mut [u32],
    grant: u64,
    steps: &mut u64,
    location: &mut u64,
) -> i32
    ensures { granted result location.new steps.new state.new marks.new
        ≡ grant_of file.now marks.old state.old grant }
{
    calls::checks::tlz_check_grant(file, marks, state, grant, steps, location)
}

// A round: q steps for each unfinished job, in the order of the list, and -1; or 24, and nothing changed.
#[unsafe(no_mangle)]
pub extern "C" fn tlz_round(files: &[u8], marks: &mut [u8], jobs: &mut [Job], q: u64) -> i32
    ensures { rounded result (window jobs.new marks.new)
        ≡ round_of files.now (window jobs.old marks.old) (length jobs.old) q }
{
    calls::rounds::tlz_round(files, marks, jobs, q)
}
