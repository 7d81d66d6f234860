// A round over a lent list of rows, stepped in place. Its answer is a number: the C interface of tlz_round.
ghost use Rattle.std.specs.Prelude.{◌≡◌, length};
ghost use Rattle.jobs.specs.Turns.{window, rounded, round_of};

use jobs::rows;
use jobs::turns::Job;

// A round: q steps for each unfinished job, in the order of the list, and -1; or 24, and nothing changed.
pub fn tlz_round(files: &[u8], marks: &mut [u8], jobs: &mut [Job], q: u64) -> i32
    ensures { rounded result (window jobs.new marks.new)
        ≡ round_of files.now (window jobs.old marks.old) (length jobs.old) q }
{
    rows::round_in_place(files, marks, jobs, q)
}
