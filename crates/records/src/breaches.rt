// What the check refuses a file for.
ghost use Rattle.std.specs.Prelude.{◌≡◌, true, false, MatchResult};
ghost use Rattle.format.specs.Numbers.{unless};
ghost use Rattle.records.specs.Breaches.{number_of, told};

// A breach of the rules, with its number.
#[derive(Clone, Copy, Debug, PartialEq, Eq)]
pub enum Breach {
    TooLong = 1,
    ShortMarks = 2,
    NoMagic = 3,
    Compressed = 4,
    Cdr = 5,
    Gdr = 6,
    Tile = 7,
    Start = 8,
    Again = 9,
    Rule = 10,
    Count = 11,
    Range = 12,
    Unclaimed = 13,
    Uncarried = 14,
    PastEnd = 20,
    Depth = 23,
}

impl From<Breach> for u32 {
    ghost from_gives = { λ b n. n ≡ number_of b };

    fn from(b: Breach) -> u32 {
        b as u32
    }
}

// The number that tells how a test went: 0 where it passed.
pub fn told(r: Result<(), Breach>) -> u32
    ensures { result ≡ told r }
{
    match r {
        Ok(()) => 0,
        Err(b) => u32::from(b),
    }
}

// A test that passed, or the breach that it shows.
pub fn check(passed: bool, b: Breach) -> Result<(), Breach>
    ensures told { told result ≡ unless (number_of b) passed }
    ensures tests { MatchResult result (λ _. passed ≡ true) (λ e. (passed ≡ false) × (e ≡ b)) }
{
    if passed { Ok(()) } else { Err(b) }
}
