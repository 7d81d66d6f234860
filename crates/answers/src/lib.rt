// The answers to questions for values: of a variable, of an entry, of a pad value.
// Kind and number, or attribute, kind and which entry, come one by one from C and go one by one to the ways: a struct of them would be taken apart at once.
#![tactic(auto)]

ghost use Rattle.std.specs.Prelude.{◌≡◌, cond, ◌+◌, ◌≤◌, ◌<◌, length, Ok, Err, IfOk};
ghost use Rattle.format.specs.Fields.{nat_or};
ghost use Rattle.values.specs.Values.{decoded_of};
ghost use Rattle.records.specs.Layout.{data_type_at, elements_at};
ghost use Rattle.lookup.specs.declared.refusals.Refusal.TheVariants.{OutOfRange};
ghost use Rattle.answers.specs.Answers.{answered, element_there, element_read, in_record, in_variable, value_read, entry_value, pad_in, pad_read};
ghost use Rattle.answers.specs.Bounds.{ElementFields, Inside, Fits};

use format::{fields, types};
use lookup::lists::{Met, Wanted};
use lookup::refusals::Refusal;
use lookup::{indexes, lists};
use records::files::File;
use records::layout;
use values::value;
use values::value::Answer;
use variables::vdr::Shape;
use variables::{place, vdr};

// The element at an offset of any size, of a data type in an encoding.
#[tactic(auto, using(crate::proofs::Elements::past_end))]
fn decode_at(f: &[u8], at: u64, t: u32, e: u32) -> Result<Answer, Refusal>
    requires { length f.now < 2147483648 }
    ensures { result ≡ answered (decoded_of f.now at t e) }
{
    let Ok(o) = u32::try_from(at) else {
        return Err(Refusal::Breach);
    };
    Ok(value::decode(f, o, t, e)?)
}

// The number of an element of those that the field at an offset counts.
#[tactic(auto, using(crate::proofs::Elements::there_by))]
fn element_number(f: &[u8], at: usize, x: i64) -> Result<u64, Refusal>
    requires { at + 4 ≤ length f.now }
    ensures told { result ≡ cond (element_there f.now at x) (Ok (nat_or 0 x)) (Err OutOfRange) }
    ensures fits { IfOk result (λ n. n < 2147483648) }
{
    match u64::try_from(x) {
        Ok(n) if n < u64::from(fields::nat_at(f, at)) => Ok(n),
        _ => Err(Refusal::OutOfRange),
    }
}

// Element x of the values from an offset on, by the offsets of their data type and count.
#[tactic(auto, using(crate::proofs::Elements::element_bytes), unfolding(crate::specs::Answers::element_read, records::specs::Attributes::element_size))]
fn element(f: &[u8], at: u64, t: usize, c: usize, x: i64) -> Result<Answer, Refusal>
    requires { ElementFields f.now t c × (at < 13835058055282163712) }
    ensures { result ≡ element_read f.now at t c x }
{
    let i = element_number(f, c, x)?;
    let n = fields::nat_at(f, t);
    decode_at(
        f,
        at + i * u64::from(types::size_of(n)),
        n,
        fields::nat_at(f, layout::ENCODING),
    )
}

// A variable whose VDR a way has met in the part of a file before its end.
#[derive(Clone, Copy)]
struct Variable<'a> {
    file: &'a [u8],
    met: Met,
    shape: Shape,
    ghost inside: { Inside file.now met.at 128 },
    ghost fits: { Fits shape },
}

impl<'a> Variable<'a> {
    // An element of its values from an offset on.
    fn element(&self, at: u64, x: i64) -> Result<Answer, Refusal>
        requires { at < 13835058055282163712 }
        ensures { result ≡ element_read self.now.file.now at (data_type_at self.now.met.at) (elements_at self.now.met.at) x }
    {
        let v = self.met.at as usize;
        element(
            self.file,
            at,
            v + layout::DATA_TYPE,
            v + layout::ELEMENTS,
            x,
        )
    }

    // An element of a value in the record that begins at an offset.
    #[tactic(auto, using(crate::proofs::Places::place_small, variables::proofs::Capped::within), unfolding(crate::specs::Answers::in_record))]
    fn in_record(&self, at: u64, indices: &[i64], x: i64) -> Result<Answer, Refusal>
        requires { at < 9223372036854775808 }
        ensures { result ≡ in_record self.now.file.now self.now.met.at self.now.shape at indices.now x }
    {
        let row = fields::bit(self.file, layout::CDR_FLAGS, 1);
        let n = place::place_of(self.file, self.shape.dimensions, row, indices).ok_or(
            Refusal::OutOfRange,
        )?;
        self.element(at + n * self.shape.value, x)
    }

    // An element of a value in a record.
    #[tactic(auto, unfolding(crate::specs::Answers::in_variable))]
    fn value(&self, r: i64, indices: &[i64], x: i64) -> Result<Answer, Refusal>
        ensures { result ≡ in_variable self.now.file.now self.now.met.at self.now.met.left self.now.shape r indices.now x }
    {
        let m = self.met;
        let at = indexes::to_record(self.file, m.at, self.shape.bytes as u32, r, m.left)?;
        self.in_record(at, indices, x)
    }

    // An element of its pad value.
    #[tactic(auto, unfolding(crate::specs::Answers::pad_in))]
    fn pad(&self, x: i64) -> Result<Answer, Refusal>
        ensures { result ≡ pad_in self.now.file.now self.now.met.at self.now.shape x }
    {
        if !fields::bit(self.file, self.met.at as usize + layout::VAR_FLAGS, 2) {
            return Err(Refusal::OutOfRange);
        }
        let l = self.shape.dimensions;
        self.element((l.variances + 4 * l.count) as u64, x)
    }
}

// A value of a variable, by kind, number, record, indices and element.
// The way to the variable is written out here and in read_pad: one function with an enum of what is asked for made a read a third slower
// (docs/DECISIONS.md), and one that gives the Variable alone would have to tell its file, its way and its shape, in as many lines as it saves.
#[tactic(auto, using(crate::proofs::Asked::variable_in, crate::proofs::Fitting::variable_fits, lookup::proofs::Found::found_right), unfolding(crate::specs::Answers::value_read))]
pub fn read_value(
    f: &[u8],
    kind: i64,
    number: i64,
    r: i64,
    indices: &[i64],
    x: i64,
) -> Result<Answer, Refusal>
    ensures { result ≡ value_read f.now kind number r indices.now x }
{
    let file = File::new(f);
    let met = lists::to_variable(&file, kind, number)?;
    let shape = vdr::known_at(file.body, lists::kind_among(3, 8, kind), met.at);
    let variable = Variable {
        file: file.body,
        met,
        shape,
    };
    variable.value(r, indices, x)
}

// A value of an attribute's entry, by attribute, kind, which entry, and element.
#[tactic(auto, using(crate::proofs::Asked::entry_in), unfolding(crate::specs::Answers::entry_value))]
pub fn read_entry(f: &[u8], attribute: i64, kind: i64, w: Wanted, x: i64) -> Result<Answer, Refusal>
    ensures { result ≡ entry_value f.now attribute kind w x }
{
    let file = File::new(f);
    let met = lists::to_entry(&file, attribute, kind, w)?;
    let e = met.at as usize;
    element(
        file.body,
        (e + layout::ENTRY_VALUE) as u64,
        e + layout::ENTRY_TYPE,
        e + layout::ENTRY_ELEMENTS,
        x,
    )
}

// A pad value of a variable, by kind, number and element.
#[tactic(auto, using(crate::proofs::Asked::variable_in, crate::proofs::Fitting::variable_fits, lookup::proofs::Found::found_right), unfolding(crate::specs::Answers::pad_read))]
pub fn read_pad(f: &[u8], kind: i64, number: i64, x: i64) -> Result<Answer, Refusal>
    ensures { result ≡ pad_read f.now kind number x }
{
    let file = File::new(f);
    let met = lists::to_variable(&file, kind, number)?;
    let shape = vdr::known_at(file.body, lists::kind_among(3, 8, kind), met.at);
    let variable = Variable {
        file: file.body,
        met,
        shape,
    };
    variable.pad(x)
}
