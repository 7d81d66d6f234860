// Why the reader refuses, and the number that C is told.
ghost use Rattle.std.specs.Prelude.{◌≡◌, pos};
ghost use Rattle.lookup.specs.Refusals.{refusal_number, refusal_of};
ghost use Rattle.lookup.specs.declared.refusals.Refusal.TheVariants.{Breach};

use records::breaches;
use values::value::Undecoded;

// In the order in which the first of several is given.
#[derive(Clone, Copy, Debug, PartialEq, Eq)]
pub enum Refusal {
    Breach,
    NoSuch,
    NoNumber,
    Gap,
    OutOfRange,
    Operand,
}

// A breach of the check's rules is one refusal to the reader.
impl From<breaches::Breach> for Refusal {
    ghost from_gives = { λ _ r. r ≡ Breach };

    fn from(_b: breaches::Breach) -> Refusal {
        Refusal::Breach
    }
}

// Why nothing was decoded, as a refusal.
impl From<Undecoded> for Refusal {
    ghost from_gives = { λ u r. r ≡ refusal_of u };

    fn from(u: Undecoded) -> Refusal {
        match u {
            Undecoded::Reserved => Refusal::Operand,
            Undecoded::Nothing => Refusal::Breach,
        }
    }
}

// The number of a refusal, as C is told it.
impl From<Refusal> for i32 {
    ghost from_gives = { λ r n. n ≡ pos (refusal_number r) };

    fn from(r: Refusal) -> i32 {
        match r {
            Refusal::Breach => 20,
            Refusal::NoSuch => 15,
            Refusal::NoNumber => 16,
            Refusal::Gap => 17,
            Refusal::OutOfRange => 18,
            Refusal::Operand => 22,
        }
    }
}
