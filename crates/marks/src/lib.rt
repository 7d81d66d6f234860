// Marks: what the sweep writes, and what the walk's last step looks at.
#![tactic(auto)]

ghost use Rattle.std.specs.Prelude.{◌≡◌, ◌+◌, ◌*◌, ◌≤◌, ◌<◌, ◌||◌, length, eqb, true};
ghost use Rattle.marks.specs.Marks.{cleared, marked, start_at, unclaimed_at, followed_at, found, found_told, left_of};
ghost use Rattle.records.specs.Breaches.{told};
ghost use Rattle.records.specs.Rules.{size_at};

use format::fields;
use records::breaches::Breach;
use records::layout;

// A run: the sixteen marks from an offset on become 0, and no other mark changes. Marks and offset are apart here and below: a part of the marks would
// state the same bound where it is cut out. Runs stand beside the loop of `clear_singly` for what the rules say of them, and the must-fail edits
// run_of_fifteen, rest_left_out and run_past_end.
fn clear_run(m: &mut [u8], at: usize)
    requires { at + 16 ≤ length m.old }
    ensures { m.new ≡ cleared m.old at 16 }
{
    m[at..at + 16].fill(0);
}

// So many runs from an offset on, one after the other.
fn clear_runs(m: &mut [u8], at: usize, runs: usize)
    requires { at + 16 * runs ≤ length m.old }
    ensures { m.new ≡ cleared m.old at (16 * runs) }
{
    for i in 0..runs {
        clear_run(m, at + 16 * i);
    }
}

// The n marks from an offset on become 0, singly. A loop and no fill of the part: a fill stores the last mark apart, by which a short record's
// clearing takes a quarter longer.
pub fn clear_singly(m: &mut [u8], at: usize, n: usize)
    requires { at + n ≤ length m.old }
    ensures { m.new ≡ cleared m.old at n }
{
    for i in 0..n {
        m[at + i] = 0;
    }
}

// How many runs n marks are cleared in: none if they are fewer than sixteen runs, where clearing the rest apart would cost.
fn runs_of(n: usize) -> usize
    ensures { (16 * result ≤ n) × (256 ≤ n → n < 16 * result + 16) }
{
    if 256 <= n { n / 16 } else { 0 }
}

// The n marks from an offset on become 0: in runs of sixteen, the rest singly.
pub fn clear(m: &mut [u8], at: usize, n: usize)
    requires { at + n ≤ length m.old }
    ensures { m.new ≡ cleared m.old at n }
{
    let runs = runs_of(n);
    clear_runs(m, at, runs);
    clear_singly(m, at + 16 * runs, n - 16 * runs);
}

// The marks of a record of n bytes at an offset.
pub fn mark(m: &mut [u8], at: usize, n: usize)
    requires { (at + n ≤ length m.old) × (0 < n) }
    ensures { m.new ≡ marked m.old at n }
{
    clear(m, at, n);
    m[at] = 1;
}

// A mark of a record's start, claimed or not.
fn marks_start(b: u8) -> bool
    ensures { result ≡ (eqb b 1 || eqb b 2) }
{
    matches!(b, 1 | 2)
}

// A record starts at an offset. File and marks are apart, here and in `left`: between two calls the marks are written.
pub fn is_start(f: &[u8], m: &[u8], t: u32) -> bool
    requires { length f.now ≤ length m.now }
    ensures { (result ≡ start_at f.now m.now t) × (result ≡ true → t < length f.now) }
{
    let o = t as usize;
    if o < 8 {
        return false;
    }
    if fields::end(f) <= o {
        return false;
    }
    marks_start(m[o])
}

// The record at an offset is in use, and no link claimed it. File and offset are apart here and in `is_followed`: each record is asked once, and a
// struct of the two would be built for each.
fn is_unclaimed(f: &[u8], m: &[u8], o: usize) -> bool
    requires { (length f.now ≤ length m.now) × (o + 8 ≤ length f.now) }
    ensures { result ≡ unclaimed_at f.now m.now o }
{
    (m[o] != 2) & (o != 8) & !fields::is(f, o + layout::TYPE, -1)
}

// The record at an offset has 8 bytes or more and ends at the file's end at the latest.
fn is_followed(f: &[u8], o: usize) -> bool
    requires { o + 8 ≤ length f.now }
    ensures { (result ≡ followed_at f.now o) × (result ≡ true → o + size_at f.now o ≤ length f.now) }
{
    let size = fields::nat_at(f, o) as usize;
    if size < 8 {
        return false;
    }
    o + size <= fields::end(f)
}

// How the walk's last step ends, and at which record.
#[derive(Clone, Copy, Debug, PartialEq, Eq)]
pub struct Ending {
    pub verdict: Result<(), Breach>,
    pub at: u32,
}

// From record to record: a record in use that no link claimed is refused, and one whose size and type pass the end, or that no record
// follows.
pub fn left(f: &[u8], m: &[u8]) -> Ending
    requires { (length f.now ≤ length m.now) × (length f.now ≤ 2147483647) }
    ensures { found_told result ≡ left_of f.now m.now }
{
    let end = fields::end(f);
    let mut o = 8;
    for _ in 0..f.len() {
        if o == end {
            return found_at(Ok(()), o);
        }
        if end < o + 8 {
            return found_at(Err(Breach::PastEnd), o);
        }
        if is_unclaimed(f, m, o) {
            return found_at(Err(Breach::Unclaimed), o);
        }
        if !is_followed(f, o) {
            return found_at(Err(Breach::PastEnd), o);
        }
        o += fields::nat_at(f, o) as usize;
    }
    found_at(Err(Breach::PastEnd), o)
}

// An ending at a record.
fn found_at(verdict: Result<(), Breach>, o: usize) -> Ending
    requires { o ≤ 2147483655 }
    ensures { found_told result ≡ found (told verdict) o }
{
    Ending {
        verdict,
        at: o as u32,
    }
}
