// The clearing of marks as a call, which crates/clearing_c gives to C, for the benchmark alone.
#![tactic(auto)]

ghost use Rattle.std.specs.Prelude.{◌≡◌, ◌+◌, ◌≤◌, length};
ghost use Rattle.marks.specs.Marks.{cleared};
ghost use Rattle.clearing.specs.Clearing.{reached};

// The marks of a record, as the sweep clears them, or singly as before where `singly` is not 0: a number, as C gives it to
// `clearing_records`.
fn clear_one(m: &mut [u8], at: usize, n: usize, singly: u32)
    requires { at + n ≤ length m.old }
    ensures { m.new ≡ cleared m.old at n }
{
    if singly == 0 {
        marks::clear(m, at, n);
    } else {
        marks::clear_singly(m, at, n);
    }
}

// The marks of records of these sizes, one after the other, as far as they have 8 bytes or more and fit; gives where that ends.
pub fn clearing_records(m: &mut [u8], sizes: &[usize], singly: u32) -> usize
    ensures { (result ≡ reached (length m.old) sizes.now 0) × (m.new ≡ cleared m.old 0 result) }
{
    let mut at = 0;
    for &n in sizes {
        if n < 8 {
            return at;
        }
        if m.len() - at < n {
            return at;
        }
        clear_one(m, at, n, singly);
        at += n;
    }
    at
}
