// Numbers that a caller gives.
ghost use Rattle.std.specs.Prelude.{◌≡◌};
ghost use Rattle.format.specs.Numbers.{natural_of};

// A number that is not negative. By its sign: with `u64::try_from` the way back from a date takes a twelfth longer, and misses the aim of 1.1 of C.
pub fn natural(n: i64) -> Option<u64>
    ensures { result ≡ natural_of n }
{
    if n < 0 { None } else { Some(n.cast_unsigned()) }
}
