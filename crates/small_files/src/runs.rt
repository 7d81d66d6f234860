// A check from a fresh state to its verdict.
use calls::checks;
use states::state;

// What a check came to: -1 or its verdict, the location of a refusal, and the steps it made.
#[derive(Clone, Copy, PartialEq, Eq)]
pub(crate) struct Run {
    pub(crate) verdict: i32,
    pub(crate) location: u64,
    pub(crate) steps: u64,
}

// A fresh state.
fn begun() -> [u32; state::STATE_LENGTH] {
    let mut state = [0u32; state::STATE_LENGTH];
    checks::tlz_check_begin(&mut state);
    state
}

// One grant of steps.
fn granted(file: &[u8], marks: &mut [u8], state: &mut [u32], grant: u64) -> Run {
    let mut steps = 0;
    let mut location = 0;
    let verdict = checks::tlz_check_grant(file, marks, state, grant, &mut steps, &mut location);
    Run {
        verdict,
        location,
        steps,
    }
}

// One grant of 1000 steps.
pub(crate) fn in_one(file: &[u8], marks: &mut [u8]) -> Run {
    granted(file, marks, &mut begun(), 1000)
}

// Grants of 1 step until one answers other than -1, at most 200.
pub(crate) fn in_many(file: &[u8], marks: &mut [u8]) -> Run {
    let mut state = begun();
    let mut made: u64 = 0;
    for _ in 0..200 {
        let r = granted(file, marks, &mut state, 1);
        made = made.saturating_add(r.steps);
        if r.verdict != -1 {
            return Run { steps: made, ..r };
        }
    }
    Run {
        verdict: -1,
        location: 0,
        steps: made,
    }
}
