// Numbers in a slice of bytes, in either byte order.
ghost use Rattle.std.specs.Prelude.{◌≡◌, ◌+◌, ◌^◌, ◌≤◌, ◌<◌, length};
ghost use Rattle.format.specs.Bytes.{big_at, little_at};

// The four bytes at an offset, the first the most significant. They are read in the machine's order, which is one load, and
// swapped: `from_be_bytes` would put them together byte by byte.
pub fn big4(s: &[u8], at: usize) -> u32
    requires { at + 4 ≤ length s.now }
    ensures { result ≡ big_at s.now at 4 }
{
    u32::from_le_bytes([s[at], s[at + 1], s[at + 2], s[at + 3]]).swap_bytes()
}

// The n bytes at an offset, the first the most significant.
// 8 bytes at most, here and in little: so many fit a u64.
pub fn big(s: &[u8], at: usize, n: usize) -> u64
    requires { (at + n ≤ length s.now) × (n ≤ 8) }
    ensures { (result ≡ big_at s.now at n) × (result < 256 ^ n) }
{
    s[at..at + n]
        .iter()
        .fold(0, |acc, b| acc << 8 | u64::from(*b))
}

// The n bytes at an offset, the last the most significant. A function of both orders would take the bytes as an iterator, and be no
// shorter.
pub fn little(s: &[u8], at: usize, n: usize) -> u64
    requires { (at + n ≤ length s.now) × (n ≤ 8) }
    ensures { (result ≡ little_at s.now at n) × (result < 256 ^ n) }
{
    s[at..at + n]
        .iter()
        .rev()
        .fold(0, |acc, b| acc << 8 | u64::from(*b))
}
