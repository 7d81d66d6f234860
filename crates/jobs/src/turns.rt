// A row of the list, and its turn.
ghost use Rattle.std.specs.Prelude.{◌≡◌, ◌+◌, ◌≤◌, length};
ghost use Rattle.jobs.specs.Turns.{job_turned, job_turn};

use crate::parts::Parts;
use checker::grants;
use states::state;

// A row: the owner, the last answer, the parts of the areas that are the job's own, and its saved state.
// The answer is a number, as tlz_check_grant gives it: C lays out a row as a struct of the same fields.
#[repr(C)]
#[derive(Clone, Copy)]
pub struct Job {
    pub owner: u32,
    pub answer: i32,
    pub parts: Parts,
    pub state: [u32; state::STATE_LENGTH],
}

impl Job {
    // Its turn: a grant of q steps over its parts. No row holds how many steps a grant made, or its location.
    // steps and location are grant's, as tlz_check_grant gives them to C; a row has no place for them.
    pub fn turn(&mut self, files: &[u8], marks: &mut [u8], q: u64)
        requires { (self.old.parts.file.from + self.old.parts.file.len ≤ length files.now)
            × (self.old.parts.marks.from + self.old.parts.marks.len ≤ length marks.old) }
        ensures { job_turned self.new marks.new ≡ job_turn files.now marks.old self.old q }
    {
        let file = self.parts.file;
        let own = self.parts.marks;
        let mut steps: u64 = 0;
        let mut location: u64 = 0;
        self.answer = grants::grant(
            &files[file.from..file.from + file.len],
            &mut marks[own.from..own.from + own.len],
            &mut self.state,
            q,
            &mut steps,
            &mut location,
        );
    }
}
