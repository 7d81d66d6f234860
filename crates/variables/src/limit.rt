// Whole numbers up to the limit of a record's bytes.
ghost use Rattle.std.specs.Prelude.{◌≡◌, ◌≤◌};
ghost use Rattle.variables.specs.Limit.{capped};

// A number, and 2,147,483,648 for every larger one.
// A function: it is public, and says which limit.
pub fn cap(n: u64) -> u64
    ensures { (result ≡ capped n) × (result ≤ 2147483648) }
{
    n.min(2147483648)
}
