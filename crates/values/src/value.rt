// Values of the file: the element at an offset, by its data type and its encoding.
ghost use Rattle.std.specs.Prelude.{◌≡◌, ◌+◌, ◌-◌, ◌*◌, ◌^◌, ◌≤◌, ◌<◌, length};
ghost use Rattle.format.specs.Bytes.{signed_of};
ghost use Rattle.format.specs.Types.{signed, kind_number};
ghost use Rattle.format.specs.Encodings.{order_number, float_number};
ghost use Rattle.values.specs.Bounds.{Element};
ghost use Rattle.vax.specs.Rounding.{vax_at};
ghost use Rattle.values.specs.Values.{raw_at, value_of, bits_of, answer_of, is_vax, vax_kind, vax_bytes, vax_answer, decoded_of};

use crate::floats;
use format::encodings::{ByteOrder, FloatKind};
use format::types::Kind;
use format::{bytes, encodings, fields, types};

// A value: one case for each kind.
#[derive(Clone, Copy, Debug, PartialEq)]
pub enum Value {
    Signed(i32),
    Unsigned(u32),
    Single(f32),
    Double(f64),
    Code(u8),
}

// A value, its bits, and the file offset that it was read from. The bits of a signed value are
// sign-extended; those of a float are its own, a NaN's too, and those of a VAX float are the double's.
#[derive(Clone, Copy, Debug, PartialEq)]
pub struct Answer {
    pub value: Value,
    pub bits: u64,
    pub offset: u64,
}

// Why there is no value at an offset: the reserved operand of VAX floats is there, or no element.
#[derive(Clone, Copy, Debug, PartialEq, Eq)]
pub enum Undecoded {
    Reserved,
    Nothing,
}

// The number of the n bytes at an offset, in a byte order.
// 8 bytes at most, as big and little ask.
#[tactic(auto, unfolding(crate::specs::Values::raw_at))]
fn raw(f: &[u8], at: usize, n: usize, order: ByteOrder) -> u64
    requires { (at + n ≤ length f.now) × (n ≤ 8) }
    ensures { (result ≡ raw_at f.now at n (order_number order)) × (result < 256 ^ n) }
{
    match order {
        ByteOrder::Big => bytes::big(f, at, n),
        ByteOrder::Little => bytes::little(f, at, n),
    }
}

// The number of an element: of as many bytes as a data type of its kind takes.
#[derive(Clone, Copy)]
struct Number {
    kind: Kind,
    size: u32,
    n: u64,
    ghost fits: { Element (kind_number kind) size n },
}

impl Number {
    // The number of 1, 2 or 4 bytes as two's complement.
    fn signed(self) -> i32
        requires { kind_number self.kind ≡ signed }
        ensures { result ≡ signed_of (8 * self.size - 1) self.n }
    {
        match self.size {
            1 => i32::from((self.n as u8).cast_signed()),
            2 => i32::from((self.n as u16).cast_signed()),
            _ => (self.n as u32).cast_signed(),
        }
    }

    // The value, by the kind.
    #[tactic(auto, unfolding(crate::specs::Values::value_of))]
    fn value(self) -> Value
        ensures { result ≡ value_of (kind_number self.kind) self.size self.n }
    {
        match self.kind {
            Kind::Signed => Value::Signed(self.signed()),
            Kind::Unsigned => Value::Unsigned(self.n as u32),
            Kind::Single => Value::Single(floats::single_of(self.n as u32)),
            Kind::Double => Value::Double(floats::double_of(self.n)),
            Kind::Code => Value::Code(self.n as u8),
        }
    }

    // The bits of that value: of a signed one sign-extended.
    #[tactic(auto, unfolding(crate::specs::Values::bits_of))]
    fn bits(self) -> u64
        ensures { result ≡ bits_of (kind_number self.kind) self.size self.n }
    {
        match self.kind {
            Kind::Signed => i64::from(self.signed()).cast_unsigned(),
            _ => self.n,
        }
    }

    // The answer, where it was read at an offset.
    fn answer(self, at: u32) -> Answer
        ensures { result ≡ answer_of (kind_number self.kind) self.size self.n at }
    {
        Answer {
            value: self.value(),
            bits: self.bits(),
            offset: u64::from(at),
        }
    }
}

// Single or double, and the float kind is not IEEE 754.
#[tactic(auto, unfolding(crate::specs::Values::is_vax))]
fn is_vax(kind: Kind, float: FloatKind) -> bool
    ensures { result ≡ is_vax (kind_number kind) (float_number float) }
{
    float != FloatKind::Ieee && matches!(kind, Kind::Single | Kind::Double)
}

// The VAX float at an offset: a single is an F_FLOAT, a double a D_FLOAT or a G_FLOAT by the float kind.
fn vax_at(f: &[u8], at: usize, kind: Kind, float: FloatKind) -> Option<u64>
    requires { at + vax_bytes (kind_number kind) ≤ length f.now }
    ensures { result ≡ vax_at (vax_kind (kind_number kind) (float_number float)) f.now at }
{
    match (kind, float) {
        (Kind::Single, _) => vax::f_float(f, at),
        (_, FloatKind::VaxD) => vax::d_float(f, at),
        _ => vax::g_float(f, at),
    }
}

// A VAX float as an answer: a double and its bits.
fn vax_answer(v: Option<u64>, at: u32) -> Result<Answer, Undecoded>
    ensures { result ≡ vax_answer v at }
{
    let bits = v.ok_or(Undecoded::Reserved)?;
    Ok(Answer {
        value: Value::Double(floats::double_of(bits)),
        bits,
        offset: u64::from(at),
    })
}

// The element at an offset, of a data type in an encoding, by their numbers: a field of a file may hold any number.
#[tactic(auto, unfolding(crate::specs::Values::decoded_of, crate::specs::Values::is_nothing))]
pub fn decode(f: &[u8], at: u32, t: u32, e: u32) -> Result<Answer, Undecoded>
    ensures { result ≡ decoded_of f.now at t e }
{
    let d = types::type_of(t).ok_or(Undecoded::Nothing)?;
    let c = encodings::encoding_of(e).ok_or(Undecoded::Nothing)?;
    let place = at as usize;
    let size = d.size as usize;
    if fields::end(f) < place + size {
        return Err(Undecoded::Nothing);
    }
    if is_vax(d.kind, c.float) {
        return vax_answer(vax_at(f, place, d.kind, c.float), at);
    }
    let number = Number {
        kind: d.kind,
        size: d.size,
        n: raw(f, place, size, c.order),
    };
    Ok(number.answer(at))
}
