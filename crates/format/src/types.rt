// Data types: element size and kind of value.
ghost use Rattle.std.specs.Prelude.{◌≡◌, ◌≤◌};
ghost use Rattle.format.specs.Types.{type_of, size_in};

// The kinds of a value.
#[derive(Clone, Copy, Debug, PartialEq, Eq)]
pub enum Kind {
    Signed,
    Unsigned,
    Single,
    Double,
    Code,
}

// The bytes of one element, and the kind of its value.
#[derive(Clone, Copy, Debug, PartialEq, Eq)]
pub struct DataType {
    pub size: u32,
    pub kind: Kind,
}

// The data type of a number, if it is one: a field of a file may hold any number.
#[tactic(auto, unfolding(crate::specs::Types::type_of))]
pub fn type_of(t: u32) -> Option<DataType>
    ensures { result ≡ type_of t }
{
    let (size, kind) = match t {
        1 | 41 => (1, Kind::Signed),
        2 => (2, Kind::Signed),
        4 => (4, Kind::Signed),
        11 => (1, Kind::Unsigned),
        12 => (2, Kind::Unsigned),
        14 => (4, Kind::Unsigned),
        21 | 44 => (4, Kind::Single),
        22 | 31 | 45 => (8, Kind::Double),
        51 | 52 => (1, Kind::Code),
        _ => return None,
    };
    Some(DataType { size, kind })
}

// The bytes of one element of a data type, 0 for a number that is no data type. Comparisons, and not the size in `type_of`: its `match` is a jump by
// a table, which the walk would pay for at every VDR and AEDR.
pub fn size_of(t: u32) -> u32
    ensures { (result ≡ size_in (type_of t)) × (result ≤ 8) }
{
    if (t == 1) | (t == 11) | (t == 41) | (t == 51) | (t == 52) {
        return 1;
    }
    if (t == 2) | (t == 12) {
        return 2;
    }
    if (t == 4) | (t == 14) | (t == 21) | (t == 44) {
        return 4;
    }
    if (t == 22) | (t == 31) | (t == 45) {
        return 8;
    }
    0
}
