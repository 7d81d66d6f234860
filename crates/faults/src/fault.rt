// The location of a refusal.
ghost use Rattle.std.specs.Prelude.{◌≡◌};
ghost use Rattle.faults.specs.Fault.{none_involved, sweeping, ending, claiming, leaving, fault_at, saved_location};

// The records that a step involves, each by its offset: the one that holds the link, the one that the link leads to, the one that is
// swept, the first that no link claimed. 0 for one that it does not involve. No Option: the location that is saved says it so too, and
// saved_location takes every number for one, 0 among them.
#[derive(Clone, Copy, Debug, PartialEq, Eq)]
pub struct Involved {
    pub holder: u32,
    pub target: u32,
    pub swept: u32,
    pub unclaimed: u32,
}

// The opening involves none.
pub fn none_involved() -> Involved
    ensures { result ≡ none_involved }
{
    Involved {
        holder: 0,
        target: 0,
        swept: 0,
        unclaimed: 0,
    }
}

// A step of the sweep.
// This and the next three are public, and one struct update each.
pub fn sweeping(at: u32) -> Involved
    ensures { result ≡ sweeping at }
{
    Involved {
        swept: at,
        ..none_involved()
    }
}

// A link that ends a list.
pub fn ending(holder: u32) -> Involved
    ensures { result ≡ ending holder }
{
    Involved {
        holder,
        ..none_involved()
    }
}

// A link to a record.
pub fn claiming(holder: u32, target: u32) -> Involved
    ensures { result ≡ claiming holder target }
{
    Involved {
        holder,
        target,
        ..none_involved()
    }
}

// The end of the walk, with the record where the look for an unclaimed one stopped.
pub fn leaving(at: u32) -> Involved
    ensures { result ≡ leaving at }
{
    Involved {
        unclaimed: at,
        ..none_involved()
    }
}

// Which record, for which number. No Breach: fault_at answers for every number, also for 0, which is none.
#[tactic(auto, unfolding(crate::specs::Fault::fault_at))]
pub fn fault_at(r: Involved, number: u32) -> u32
    ensures { result ≡ fault_at r number }
{
    let claims = r.target != 0;
    match number {
        8 | 9 | 12 => r.holder,
        10 | 23 => r.target,
        11 if claims => r.target,
        11 => r.holder,
        14 if claims => r.target,
        7 | 14 => r.swept,
        13 => r.unclaimed,
        _ => 0,
    }
}

// What a finished check with this verdict says again. Both are numbers: saved_location answers for every verdict and every location.
pub fn saved_location(number: u32, location: u32) -> u32
    ensures { result ≡ saved_location number location }
{
    let anywhere = Involved {
        holder: location,
        target: location,
        swept: location,
        unclaimed: location,
    };
    fault_at(anywhere, number)
}
