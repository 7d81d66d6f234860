// VAX floats as doubles, by whole numbers alone.
#![tactic(auto)]

ghost use Rattle.std.specs.Prelude.{◌≡◌, ◌+◌, ◌-◌, ◌*◌, ◌/◌, ◌%◌, ◌^◌, ◌≤◌, ◌<◌, length};
ghost use Rattle.vax.specs.Layouts.{ffloat, dfloat, gfloat};
ghost use Rattle.vax.specs.Rounding.{nearest_of, kept_of, size_of, vax_at};
ghost use Rattle.vax.specs.Words.{vax_in, word_at, pair_at, four_at};
ghost use Rattle.vax.specs.Bounds.{Bounds, DigitsFit};

// The layout of a VAX float: how many bits its mantissa and its exponent have, and the offset that the exponent counts from.
#[derive(Clone, Copy)]
struct Layout {
    width: u32,
    range: u32,
    offset: u32,
    ghost bounds: { Bounds width range offset },
}

const F_FLOAT: Layout = Layout {
    width: 23,
    range: 8,
    offset: 128,
};

const D_FLOAT: Layout = Layout {
    width: 55,
    range: 8,
    offset: 128,
};

const G_FLOAT: Layout = Layout {
    width: 52,
    range: 11,
    offset: 1024,
};

// A significand: a leading digit and the mantissa's digits below it, width of them, as one number.
#[derive(Clone, Copy)]
struct Significand {
    width: u32,
    n: u64,
    ghost digits: { DigitsFit width n },
}

// A power of two.
fn power(k: u32) -> u64
    requires { k < 64 }
    ensures { (result ≡ 2 ^ k) × (0 < result) }
{
    1 << k
}

// The whole number nearest to n / 2^k, of two as near the even one. Half a unit is added, less one
// where the number below is even.
fn nearest(n: u64, k: u32) -> u64
    requires { (0 < k) × (k < 64) × (n < 2 ^ 63) }
    ensures { result ≡ nearest_of n (2 ^ k) }
{
    let half = power(k - 1);
    let q = n >> k;
    (n + (half - 1) + q % 2) >> k
}

// The first places of the digits of a significand, rounded; zeros behind it where it has fewer.
fn kept(s: Significand, places: u32) -> u64
    requires { places ≤ 53 }
    ensures { (result ≡ kept_of s.width places s.n) × (result ≤ 2 ^ 53) }
{
    if s.width < places {
        return s.n * power(places - (s.width + 1));
    }
    nearest(s.n, s.width + 1 - places)
}

// The bits below the sign of the double for a significand, which has that many digits before the point in units
// of the smallest double.
fn size(s: Significand, places: u32) -> u64
    requires { places ≤ 2097 }
    ensures { (result ≡ size_of s.width places s.n) × (result < 2047 * 2 ^ 52) }
{
    if places < 53 {
        return kept(s, places);
    }
    u64::from(places - 53) * 0x10_0000_0000_0000 + kept(s, 53)
}

// The double for a VAX float, given as one number: the sign, then the exponent, then the mantissa. None is the
// reserved operand.
fn vax_to_double(raw: u64, layout: Layout) -> Option<u64>
    ensures { result ≡ vax_in layout.width layout.range layout.offset raw }
{
    let unit = power(layout.width);
    let mantissa = raw % unit;
    let upper = raw / unit;
    let span = power(layout.range);
    let exponent = (upper % span) as u32;
    if exponent == 0 {
        if upper >= span {
            return None;
        }
        return Some(0);
    }
    let significand = Significand {
        width: layout.width,
        n: unit + mantissa,
    };
    let bits = size(significand, exponent + 1074 - layout.offset);
    if upper >= span {
        return Some(0x8000_0000_0000_0000 + bits);
    }
    Some(bits)
}

// A word of two bytes, the second the more significant. Bytes and an offset, here and below: a slice of a float's own bytes would state the same bound
// where it is cut out.
fn word(s: &[u8], at: usize) -> u64
    requires { at + 2 ≤ length s.now }
    ensures { (result ≡ word_at s.now at) × (result < 65536) }
{
    u64::from(u16::from_le_bytes([s[at], s[at + 1]]))
}

// Two words as one number, the first the more significant.
fn pair(s: &[u8], at: usize) -> u64
    requires { at + 4 ≤ length s.now }
    ensures { (result ≡ pair_at s.now at) × (result < 2 ^ 32) }
{
    let a = word(s, at);
    let b = word(s, at + 2);
    a * 0x1_0000 + b
}

// Four words as one number, the first the most significant.
fn four(s: &[u8], at: usize) -> u64
    requires { at + 8 ≤ length s.now }
    ensures { result ≡ four_at s.now at }
{
    let a = pair(s, at);
    let b = pair(s, at + 4);
    a * 0x1_0000_0000 + b
}

// The F_FLOAT at an offset, as the bits of a double; None: the reserved operand.
pub fn f_float(s: &[u8], at: usize) -> Option<u64>
    requires { at + 4 ≤ length s.now }
    ensures { result ≡ vax_at ffloat s.now at }
{
    vax_to_double(pair(s, at), F_FLOAT)
}

// The D_FLOAT at an offset, likewise.
pub fn d_float(s: &[u8], at: usize) -> Option<u64>
    requires { at + 8 ≤ length s.now }
    ensures { result ≡ vax_at dfloat s.now at }
{
    vax_to_double(four(s, at), D_FLOAT)
}

// The G_FLOAT at an offset, likewise.
pub fn g_float(s: &[u8], at: usize) -> Option<u64>
    requires { at + 8 ≤ length s.now }
    ensures { result ≡ vax_at gfloat s.now at }
{
    vax_to_double(four(s, at), G_FLOAT)
}
