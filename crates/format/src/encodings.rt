// Encodings: byte order and float kind.
ghost use Rattle.std.specs.Prelude.{◌≡◌};
ghost use Rattle.format.specs.Encodings.{encoding_of};

#[derive(Clone, Copy, Debug, PartialEq, Eq)]
pub enum ByteOrder {
    Big,
    Little,
}

// IEEE 754, or VAX floats whose doubles are D_FLOAT or G_FLOAT.
#[derive(Clone, Copy, Debug, PartialEq, Eq)]
pub enum FloatKind {
    Ieee,
    VaxD,
    VaxG,
}

#[derive(Clone, Copy, Debug, PartialEq, Eq)]
pub struct Encoding {
    pub order: ByteOrder,
    pub float: FloatKind,
}

// The encoding of a number, if it is one: a field of a file may hold any number.
#[tactic(auto, unfolding(crate::specs::Encodings::encoding_of))]
pub fn encoding_of(e: u32) -> Option<Encoding>
    ensures { result ≡ encoding_of e }
{
    let (order, float) = match e {
        1 | 2 | 5 | 7 | 9 | 11 | 12 => (ByteOrder::Big, FloatKind::Ieee),
        4 | 6 | 13 | 16 => (ByteOrder::Little, FloatKind::Ieee),
        3 | 14 => (ByteOrder::Little, FloatKind::VaxD),
        15 => (ByteOrder::Little, FloatKind::VaxG),
        _ => return None,
    };
    Some(Encoding { order, float })
}
