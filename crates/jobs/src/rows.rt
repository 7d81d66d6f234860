// A round over a list of rows: when it is refused, and the turns.
ghost use Rattle.std.specs.Prelude.{◌≡◌, ◌≤◌, length, false};
ghost use Rattle.jobs.specs.Parts.{clash, any_to, any_outside, any_clash, refused_of};
ghost use Rattle.jobs.specs.Turns.{parts_at, window, turns_to, rounded, round_of};

use crate::parts::{Areas, Parts};
use crate::turns::Job;

// Eight rows.
#[derive(Clone, Copy)]
pub struct Rows {
    pub row: [Job; 8],
}

// What a round over eight rows gives back.
#[derive(Clone, Copy)]
pub struct Round {
    pub answer: i32,
    pub rows: Rows,
}

// A job has a part outside its area.
fn one_outside(jobs: &[Job], areas: Areas) -> bool
    ensures { result ≡ any_outside (parts_at jobs.now) (length jobs.now) areas.files areas.marks }
{
    jobs.iter().any(|j| j.parts.is_outside(areas))
}

// A job shares a byte with one of these parts.
fn one_shares(jobs: &[Job], parts: Parts) -> bool
    ensures { result ≡ any_to (λ k. clash (parts_at jobs.now k) parts) (length jobs.now) }
{
    jobs.iter().any(|j| j.parts.clashes(parts))
}

// Two jobs share a byte.
fn one_clashes(jobs: &[Job]) -> bool
    ensures { result ≡ any_clash (parts_at jobs.now) (length jobs.now) }
{
    for (i, j) in jobs.iter().enumerate() {
        if one_shares(&jobs[..i], j.parts) {
            return true;
        }
    }
    false
}

// A round over these jobs is refused with 24.
#[tactic(auto, unfolding(crate::specs::Parts::refused_of))]
pub fn is_refused(jobs: &[Job], areas: Areas, q: u64) -> bool
    ensures { result ≡ refused_of (parts_at jobs.now) (length jobs.now) areas.files areas.marks q }
{
    q == 0 || 8 < jobs.len() || one_outside(jobs, areas) || one_clashes(jobs)
}

// The turns of all jobs, in order.
fn take_turns(files: &[u8], marks: &mut [u8], jobs: &mut [Job], q: u64)
    requires { any_outside (parts_at jobs.old) (length jobs.old) (length files.now) (length marks.old) ≡ false }
    ensures { window jobs.new marks.new
        ≡ turns_to files.now q (window jobs.old marks.old) (length jobs.old) }
{
    for j in jobs.iter_mut() {
        j.turn(files, marks, q);
    }
}

// A round: q steps for each unfinished job, in the order of the list, and -1; or 24, and nothing changed.
// A number, and the areas and q one by one: they are what tlz_round gives and takes.
pub fn round_in_place(files: &[u8], marks: &mut [u8], jobs: &mut [Job], q: u64) -> i32
    ensures { rounded result (window jobs.new marks.new)
        ≡ round_of files.now (window jobs.old marks.old) (length jobs.old) q }
{
    let areas = Areas {
        files: files.len(),
        marks: marks.len(),
    };
    if is_refused(jobs, areas, q) {
        return 24;
    }
    take_turns(files, marks, jobs, q);
    -1
}

// A round over the first n jobs of a list. A function of its own: of a part lent straight from an array it is not known what was written.
fn round_over_first(files: &[u8], marks: &mut [u8], jobs: &mut [Job], n: usize, q: u64) -> i32
    requires { n ≤ length jobs.old }
    ensures { rounded result (window jobs.new marks.new) ≡ round_of files.now (window jobs.old marks.old) n q }
{
    round_in_place(files, marks, &mut jobs[..n], q)
}

// A round over the first n of eight rows.
// A number of rows beside them, and an answer beside what they became: round_by_value promises both, of any n.
pub fn round_by_value(files: &[u8], marks: &mut [u8], rows: Rows, n: usize, q: u64) -> Round
    ensures { rounded result.answer (window result.rows.row marks.new) ≡ round_of files.now (window rows.row marks.old) n q }
{
    if rows.row.len() < n {
        return Round { answer: 24, rows };
    }
    let mut next = rows;
    let answer = round_over_first(files, marks, &mut next.row, n, q);
    Round { answer, rows: next }
}
