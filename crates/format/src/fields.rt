// Control fields, and the end of the bytes that are lent.
// Bytes and an offset: the rules of records name a field so, and a view of its four bytes would state the same bound where it is made.
// Casts, here and in the crates above: `as` widens where std has no `From` (u32 to usize, usize to u64); one that narrows is proved to lose nothing,
// where `try_from` would have an `Err` that no input gives.
ghost use Rattle.std.specs.Prelude.{◌≡◌, ◌+◌, ◌*◌, ◌≤◌, ◌<◌, length, pos};
ghost use Rattle.format.specs.Fields.{end_of, field_at, is_at, at_least, at_most, in_order, same_at, within_at, each_within, nat_or, nat_at, link_at, after_at, before, bit_at};

use crate::bytes;

// Where the bytes end.
#[tactic(auto, unfolding(crate::specs::Fields::end_of))]
pub fn end(f: &[u8]) -> usize
    ensures { (result ≡ end_of f.now) × (result ≤ length f.now) }
{
    f.len()
}

// The control field at an offset.
#[tactic(auto, unfolding(crate::specs::Fields::field_at))]
pub fn field(f: &[u8], at: usize) -> i32
    requires { at + 4 ≤ length f.now }
    ensures { result ≡ field_at f.now at }
{
    bytes::big4(f, at).cast_signed()
}

// The field at an offset is z.
pub fn is_at(f: &[u8], at: usize, z: i64) -> bool
    requires { at + 4 ≤ length f.now }
    ensures { result ≡ is_at f.now at z }
{
    i64::from(field(f, at)) == z
}

// The field at an offset is k.
pub fn is(f: &[u8], at: usize, k: i32) -> bool
    requires { at + 4 ≤ length f.now }
    ensures { result ≡ is_at f.now at k }
{
    is_at(f, at, i64::from(k))
}

// The field at an offset is the natural number n.
pub fn is_nat(f: &[u8], at: usize, n: u32) -> bool
    requires { at + 4 ≤ length f.now }
    ensures { result ≡ is_at f.now at (pos n) }
{
    is_at(f, at, i64::from(n))
}

// The field at an offset is k or more.
#[tactic(auto, unfolding(crate::specs::Fields::at_least))]
pub fn at_least(f: &[u8], at: usize, k: i32) -> bool
    requires { at + 4 ≤ length f.now }
    ensures { result ≡ at_least f.now at k }
{
    k <= field(f, at)
}

// The field at an offset is k or less.
#[tactic(auto, unfolding(crate::specs::Fields::at_most))]
pub fn at_most(f: &[u8], at: usize, k: i32) -> bool
    requires { at + 4 ≤ length f.now }
    ensures { result ≡ at_most f.now at k }
{
    field(f, at) <= k
}

// The field at an offset lies in lo to hi.
pub fn within(f: &[u8], at: usize, lo: i32, hi: i32) -> bool
    requires { at + 4 ≤ length f.now }
    ensures { result ≡ within_at f.now at lo hi }
{
    at_least(f, at, lo) & at_most(f, at, hi)
}

// The field at p is at most the field at q.
#[tactic(auto, unfolding(crate::specs::Fields::in_order))]
pub fn in_order(f: &[u8], p: usize, q: usize) -> bool
    requires { (p + 4 ≤ length f.now) × (q + 4 ≤ length f.now) }
    ensures { result ≡ in_order f.now p q }
{
    field(f, p) <= field(f, q)
}

// The field at p is the field at q.
#[tactic(auto, unfolding(crate::specs::Fields::same_at))]
pub fn same(f: &[u8], p: usize, q: usize) -> bool
    requires { (p + 4 ≤ length f.now) × (q + 4 ≤ length f.now) }
    ensures { result ≡ same_at f.now p q }
{
    field(f, p) == field(f, q)
}

// Each of the n fields from an offset on lies in lo to hi. A `for`, and no `all`: the reader asks it of every VDR on its way, most of them without
// dimensions, for which the closure of an `all` costs some twenty instructions.
pub fn each_within(f: &[u8], at: usize, n: usize, lo: i32, hi: i32) -> bool
    requires { at + 4 * n ≤ length f.now }
    ensures { result ≡ each_within f.now at n lo hi }
{
    for i in 0..n {
        if !within(f, at + 4 * i, lo, hi) {
            return false;
        }
    }
    true
}

// A number that is not negative, and other for one that is. By its sign: `u32::try_from(x).unwrap_or(other)` takes three instructions more at every
// field, by which reads miss the aim of 1.1 of C.
fn nat_or(x: i32, other: u32) -> u32
    requires { other < 2 }
    ensures { result ≡ nat_or other x }
{
    if x < 0 { other } else { x as u32 }
}

// The field at an offset as a natural number, a negative one as 0.
#[tactic(auto, using(crate::proofs::FieldRanges::nat_small), unfolding(crate::specs::Fields::nat_at))]
pub fn nat_at(f: &[u8], at: usize) -> u32
    requires { at + 4 ≤ length f.now }
    ensures { (result ≡ nat_at f.now at) × (result < 2147483648) }
{
    nat_or(field(f, at), 0)
}

// The link at an offset, a negative one as 1.
#[tactic(auto, using(crate::proofs::FieldRanges::link_small), unfolding(crate::specs::Fields::link_at))]
pub fn link_at(f: &[u8], at: usize) -> u32
    requires { at + 4 ≤ length f.now }
    ensures { (result ≡ link_at f.now at) × (result < 2147483648) }
{
    nat_or(field(f, at), 1)
}

// The field at an offset is one less than n.
#[tactic(auto, unfolding(crate::specs::Fields::is_at))]
pub fn is_before(f: &[u8], at: usize, n: u32) -> bool
    requires { at + 4 ≤ length f.now }
    ensures { result ≡ is_at f.now at (before n) }
{
    i64::from(field(f, at)) + 1 == i64::from(n)
}

// One more than the field at an offset, 0 for -1.
#[tactic(auto, unfolding(crate::specs::Fields::after_at))]
pub fn after_at(f: &[u8], at: usize) -> u32
    requires { at + 4 ≤ length f.now }
    ensures { (result ≡ after_at f.now at) × (result ≤ 2147483648) }
{
    if at_least(f, at, 0) {
        nat_at(f, at) + 1
    } else {
        0
    }
}

// The bit of weight w of the flags at an offset is set.
#[tactic(auto, unfolding(crate::specs::Fields::bit_at))]
pub fn bit(f: &[u8], at: usize, w: u32) -> bool
    requires { (at + 4 ≤ length f.now) × (0 < w) }
    ensures { result ≡ bit_at f.now at w }
{
    bytes::big4(f, at) / w % 2 == 1
}
