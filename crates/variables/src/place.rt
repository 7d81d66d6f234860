// The place of an element in a record, by majority and variances.
ghost use Rattle.std.specs.Prelude.{◌≡◌, ◌+◌, ◌*◌, ◌≤◌, ◌<◌, length};
ghost use Rattle.format.specs.Fields.{nat_or};
ghost use Rattle.variables.specs.Limit.{capped};
ghost use Rattle.variables.specs.Place.{slower, moved, size_of, varies_of, element_place, index_right, indices_right, row_fits, place_of};

use crate::dimensions::Dimensions;
use crate::limit;
use crate::vdr::Layout;
use format::fields;

// An index is 0 or more and below its dimension's size.
pub fn index_right(i: i64, size: u32) -> bool
    ensures { result ≡ index_right i size }
{
    (0 <= i) & (i < i64::from(size))
}

// The indices are right for the sizes from p on. A `for`: `indices_right` joins an index to those before it, and `all` goes on from the first; it would
// take a law that turns the one into the other.
fn indices_right(f: &[u8], p: usize, indices: &[i64]) -> bool
    requires { p + 4 * length indices.now ≤ length f.now }
    ensures { result ≡ indices_right f.now p indices.now (length indices.now) }
{
    let mut right = true;
    for (d, i) in indices.iter().enumerate() {
        right &= index_right(*i, fields::nat_at(f, p + 4 * d));
    }
    right
}

// An index as a natural number, a negative one as 0.
// A function: it is public, and its definition nat_or is that of fields too.
pub fn nat_of(i: i64) -> u64
    ensures { (result ≡ nat_or 0 i) × (result < 9223372036854775808) }
{
    u64::try_from(i).unwrap_or(0)
}

// Of n dimensions, the j-th from the slowest.
fn slow(row: bool, n: usize, j: usize) -> usize
    requires { j < n }
    ensures { (result ≡ slower row n j) × (result < n) }
{
    if row { j } else { n - 1 - j }
}

impl<'a> Dimensions<'a> {
    // The place that one more dimension and its index make of a place.
    fn next_place(&self, d: usize, i: i64, place: u64) -> u64
        requires { (d < self.now.layout.count) × (place ≤ 2147483648) }
        ensures { (result ≡ capped (moved (varies_of self.now.file.now self.now.layout.variances d) (size_of self.now.file.now self.now.layout.sizes d) (nat_or 0 i) place)) × (result ≤ 2147483648) }
    {
        let f = self.file;
        let p = self.layout.sizes + 4 * d;
        let q = self.layout.variances + 4 * d;
        if fields::is(f, q, -1) {
            limit::cap(place * u64::from(fields::nat_at(f, p)) + nat_of(i))
        } else {
            place
        }
    }

    // The place that indices give, and 2,147,483,648 for every larger number. A `for`: the closure of a `fold` knows neither that its index is
    // in range nor the bound of place, which the loop's invariant has.
    fn place(&self, row: bool, indices: &[i64]) -> u64
        requires { self.now.layout.count ≤ length indices.now }
        ensures { result ≡ capped (element_place self.now.file.now self.now.layout row indices.now) }
    {
        let n = self.layout.count;
        let mut place = 0;
        for j in 0..n {
            let d = slow(row, n, j);
            place = self.next_place(d, indices[d], place);
        }
        place
    }
}

// The n fields from p on lie before the file's end.
fn row_fits(f: &[u8], p: usize, n: usize) -> bool
    ensures { result ≡ row_fits f.now p n }
{
    let end = fields::end(f);
    if end / 4 < n {
        return false;
    }
    p <= end - 4 * n
}

// The place that indices give in a record of a variable with these dimensions, if they are right.
pub fn place_of(f: &[u8], l: Layout, row: bool, indices: &[i64]) -> Option<u64>
    ensures { result ≡ place_of f.now l row indices.now }
{
    let n = l.count;
    if indices.len() != n {
        return None;
    }
    if !row_fits(f, l.sizes, n) {
        return None;
    }
    if !row_fits(f, l.variances, n) {
        return None;
    }
    if !indices_right(f, l.sizes, indices) {
        return None;
    }
    let dimensions = Dimensions { file: f, layout: l };
    Some(dimensions.place(row, indices))
}
