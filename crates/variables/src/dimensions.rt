// The dimensions of a variable, and the values that they make of a record.
ghost use Rattle.std.specs.Prelude.{◌≡◌, ◌+◌, ◌*◌, ◌≤◌, ◌<◌, length};
ghost use Rattle.variables.specs.Limit.{capped};
ghost use Rattle.variables.specs.Vdr.{factor_of, dimensions_right, values_per_record};

use crate::limit;
use crate::vdr::Layout;
use format::fields;

// Dimensions whose sizes and variances lie in the file.
#[derive(Clone, Copy)]
pub(crate) struct Dimensions<'a> {
    pub(crate) file: &'a [u8],
    pub(crate) layout: Layout,
    ghost sizes_inside: { layout.sizes + 4 * layout.count ≤ length file.now },
    ghost variances_inside: { layout.variances + 4 * layout.count ≤ length file.now },
}

impl<'a> Dimensions<'a> {
    // The sizes and variances. Inlined, as `record_bytes` is, for `Head::shaped`.
    #[inline(always)]
    pub(crate) fn are_right(&self) -> bool
        ensures { result ≡ dimensions_right self.now.file.now self.now.layout }
    {
        let l = self.layout;
        fields::each_within(self.file, l.sizes, l.count, 1, 2147483647)
            & fields::each_within(self.file, l.variances, l.count, -1, 0)
    }

    // What a dimension multiplies the values of a record by.
    fn factor(&self, d: usize) -> u64
        requires { d < self.now.layout.count }
        ensures { (result ≡ factor_of self.now.file.now (self.now.layout.sizes + 4 * d) (self.now.layout.variances + 4 * d)) × (result < 2147483648) }
    {
        let f = self.file;
        let q = self.layout.variances + 4 * d;
        if fields::is(f, q, -1) {
            u64::from(fields::nat_at(f, self.layout.sizes + 4 * d))
        } else {
            1
        }
    }

    // The bytes of a record of values of so many bytes, and 2,147,483,648 for every larger number. A `for`: the closure of a `fold` knows neither that
    // its index is in range nor the bound of bytes, which the loop's invariant has.
    #[inline(always)]
    pub(crate) fn record_bytes(&self, value: u64) -> u64
        ensures { (result ≡ capped (value * values_per_record self.now.file.now self.now.layout.count self.now.layout.sizes self.now.layout.variances)) × (result ≤ 2147483648) }
    {
        let mut bytes = limit::cap(value);
        for d in 0..self.layout.count {
            bytes = limit::cap(bytes * self.factor(d));
        }
        bytes
    }
}
