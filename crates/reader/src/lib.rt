// The reader's calls, which crates/reader_c gives to C. A call answers 0 and sets the caller's numbers, or answers the number of a refusal
// and leaves them alone. A call takes C's numbers one by one and sets them one by one, as its export does, so no struct of a question stands here.
#![tactic(auto)]

ghost use Rattle.std.specs.Prelude.{◌≡◌, pos, IfOk, MatchResult};
ghost use Rattle.values.specs.Values.{kind_of};
ghost use Rattle.lookup.specs.Refusals.{refusal_number};
ghost use Rattle.lookup.specs.declared.lists.Wanted.TheVariants.{Place, Number};
ghost use Rattle.reader.specs.Questions.{ask_value, ask_entry, ask_pad, ask_file, ask_dimension, ask_variable, ask_attribute, ask_entry_field, ask_size, ask_variance, ask_levels, ask_variable_name, ask_attribute_name, of_read, of_field, of_name, answer_to, call, call_of, three_numbers, one_number, two_numbers};

use descriptors::Name;
use lookup::lists::Wanted;
use lookup::refusals::Refusal;
use values::value::{Answer, Value};

// The number of a value's kind: 0 signed, 1 unsigned, 2 single, 3 double, 4 character code.
// A match and no From: the numbers are C's, and an impl of From would stand with a type in crates/values, which knows none of C.
fn kind_number(v: Value) -> u64
    ensures { result ≡ kind_of v }
{
    match v {
        Value::Signed(_) => 0,
        Value::Unsigned(_) => 1,
        Value::Single(_) => 2,
        Value::Double(_) => 3,
        Value::Code(_) => 4,
    }
}

// The number that a call answers: 0 where there is an answer, by which the caller's numbers are set; or that of the refusal.
fn told<T, F: FnMut(T)>(r: Result<T, Refusal>, set: &mut F) -> i32
    requires { IfOk r (F.pre set.old) }
    ensures { MatchResult r
        (λ x. F.step set.old x tt set.new × (result ≡ pos 0))
        (λ v. (set.new ≡ set.old) × (result ≡ pos (refusal_number v))) }
{
    match r {
        Ok(x) => {
            set(x);
            0
        }
        Err(refusal) => i32::from(refusal),
    }
}

// A value for C: its kind, its bits, the offset it was read from.
fn show_value(r: Result<Answer, Refusal>, kind: &mut u64, bits: &mut u64, offset: &mut u64) -> i32
    ensures { call result (three_numbers kind.new bits.new offset.new)
        ≡ call_of (of_read r) (three_numbers kind.old bits.old offset.old) }
{
    told(
        r,
        &mut |a: Answer| {
            *kind = kind_number(a.value);
            *bits = a.bits;
            *offset = a.offset;
        },
    )
}

// A field for C.
fn show_field(r: Result<i32, Refusal>, number: &mut i32) -> i32
    ensures { call result (one_number number.new) ≡ call_of (of_field r) (one_number number.old) }
{
    told(r, &mut |x| *number = x)
}

// A name for C: where it stands and its length.
fn show_name(r: Result<Name, Refusal>, offset: &mut u64, length: &mut u64) -> i32
    ensures { call result (two_numbers offset.new length.new) ≡ call_of (of_name r) (two_numbers offset.old length.old) }
{
    told(
        r,
        &mut |n: Name| {
            *offset = n.offset;
            *length = n.length;
        },
    )
}

// An element of a value of a variable, by kind, number, record, indices and element.
pub fn tlz_read_value(
    file: &[u8],
    kind: i64,
    number: i64,
    rec: i64,
    indices: &[i64],
    element: i64,
    form: &mut u64,
    bits: &mut u64,
    offset: &mut u64,
) -> i32
    ensures { call result (three_numbers form.new bits.new offset.new)
        ≡ call_of (answer_to file.now (ask_value kind number rec indices.now element)) (three_numbers form.old bits.old offset.old) }
{
    show_value(
        answers::read_value(file, kind, number, rec, indices, element),
        form,
        bits,
        offset,
    )
}

// An element of an attribute's entry, by attribute, kind, entry number and element.
pub fn tlz_read_entry(
    file: &[u8],
    attribute: i64,
    kind: i64,
    entry: i64,
    element: i64,
    form: &mut u64,
    bits: &mut u64,
    offset: &mut u64,
) -> i32
    ensures { call result (three_numbers form.new bits.new offset.new)
        ≡ call_of (answer_to file.now (ask_entry attribute kind (Number entry) element)) (three_numbers form.old bits.old offset.old) }
{
    show_value(
        answers::read_entry(file, attribute, kind, Wanted::Number(entry), element),
        form,
        bits,
        offset,
    )
}

// An element of the entry at a place of its list, from 0: so also of one whose number an earlier entry has.
pub fn tlz_read_entry_value_at(
    file: &[u8],
    attribute: i64,
    kind: i64,
    place: u64,
    element: i64,
    form: &mut u64,
    bits: &mut u64,
    offset: &mut u64,
) -> i32
    ensures { call result (three_numbers form.new bits.new offset.new)
        ≡ call_of (answer_to file.now (ask_entry attribute kind (Place place) element)) (three_numbers form.old bits.old offset.old) }
{
    show_value(
        answers::read_entry(file, attribute, kind, Wanted::Place(place), element),
        form,
        bits,
        offset,
    )
}

// An element of the pad value of a variable, by kind, number and element.
pub fn tlz_read_pad(
    file: &[u8],
    kind: i64,
    number: i64,
    element: i64,
    form: &mut u64,
    bits: &mut u64,
    offset: &mut u64,
) -> i32
    ensures { call result (three_numbers form.new bits.new offset.new)
        ≡ call_of (answer_to file.now (ask_pad kind number element)) (three_numbers form.old bits.old offset.old) }
{
    show_value(
        answers::read_pad(file, kind, number, element),
        form,
        bits,
        offset,
    )
}

// What the file says of itself: 0 majority, 1 encoding, 2 to 4 the counts of rVariables, zVariables and attributes, 5 the number of
// dimensions of the rVariables, 6 the bytes of padding behind its end.
pub fn tlz_read_file(file: &[u8], what: u64, field: &mut i32) -> i32
    ensures { call result (one_number field.new)
        ≡ call_of (answer_to file.now (ask_file what)) (one_number field.old) }
{
    show_field(descriptors::file_field(file, what), field)
}

// The size of a dimension of the rVariables.
pub fn tlz_read_dimension(file: &[u8], dimension: i64, field: &mut i32) -> i32
    ensures { call result (one_number field.new)
        ≡ call_of (answer_to file.now (ask_dimension dimension)) (one_number field.old) }
{
    show_field(descriptors::dimension_size(file, dimension), field)
}

// A field of a variable's VDR, by kind, number and the field's offset in the record.
pub fn tlz_read_variable(file: &[u8], kind: i64, number: i64, at: u64, field: &mut i32) -> i32
    ensures { call result (one_number field.new)
        ≡ call_of (answer_to file.now (ask_variable kind number at)) (one_number field.old) }
{
    show_field(descriptors::variable_field(file, kind, number, at), field)
}

// The size of a dimension of a zVariable, by kind, number and dimension.
pub fn tlz_read_size(file: &[u8], kind: i64, number: i64, dimension: i64, field: &mut i32) -> i32
    ensures { call result (one_number field.new)
        ≡ call_of (answer_to file.now (ask_size kind number dimension)) (one_number field.old) }
{
    show_field(
        descriptors::variable_size(file, kind, number, dimension),
        field,
    )
}

// The variance of a dimension of a variable, -1 or 0, by kind, number and dimension.
pub fn tlz_read_variance(
    file: &[u8],
    kind: i64,
    number: i64,
    dimension: i64,
    field: &mut i32,
) -> i32
    ensures { call result (one_number field.new)
        ≡ call_of (answer_to file.now (ask_variance kind number dimension)) (one_number field.old) }
{
    show_field(
        descriptors::variable_variance(file, kind, number, dimension),
        field,
    )
}

// How many levels the index of a variable has on the way to a record, 1 to 8, by kind, number and record.
pub fn tlz_read_levels(file: &[u8], kind: i64, number: i64, rec: i64, field: &mut i32) -> i32
    ensures { call result (one_number field.new)
        ≡ call_of (answer_to file.now (ask_levels kind number rec)) (one_number field.old) }
{
    show_field(descriptors::variable_levels(file, kind, number, rec), field)
}

// Where the name of a variable stands and its length, by kind and number.
pub fn tlz_read_variable_name(
    file: &[u8],
    kind: i64,
    number: i64,
    offset: &mut u64,
    length: &mut u64,
) -> i32
    ensures { call result (two_numbers offset.new length.new)
        ≡ call_of (answer_to file.now (ask_variable_name kind number)) (two_numbers offset.old length.old) }
{
    show_name(
        descriptors::variable_name(file, kind, number),
        offset,
        length,
    )
}

// A field of an attribute's ADR, by number and the field's offset in the record.
pub fn tlz_read_attribute(file: &[u8], number: i64, at: u64, field: &mut i32) -> i32
    ensures { call result (one_number field.new)
        ≡ call_of (answer_to file.now (ask_attribute number at)) (one_number field.old) }
{
    show_field(descriptors::attribute_field(file, number, at), field)
}

// Where the name of an attribute stands and its length, by number.
pub fn tlz_read_attribute_name(file: &[u8], number: i64, offset: &mut u64, length: &mut u64) -> i32
    ensures { call result (two_numbers offset.new length.new)
        ≡ call_of (answer_to file.now (ask_attribute_name number)) (two_numbers offset.old length.old) }
{
    show_name(descriptors::attribute_name(file, number), offset, length)
}

// A field of the AEDR of the first entry of a number, by attribute, kind, entry number and the field's offset in the record.
pub fn tlz_read_entry_field(
    file: &[u8],
    attribute: i64,
    kind: i64,
    entry: i64,
    at: u64,
    field: &mut i32,
) -> i32
    ensures { call result (one_number field.new)
        ≡ call_of (answer_to file.now (ask_entry_field attribute kind (Number entry) at)) (one_number field.old) }
{
    show_field(
        descriptors::entry_field(file, attribute, kind, Wanted::Number(entry), at),
        field,
    )
}

// The same for the entry at a place of its list, from 0: so entries of equal numbers can be told apart, and all be listed.
pub fn tlz_read_entry_at(
    file: &[u8],
    attribute: i64,
    kind: i64,
    place: u64,
    at: u64,
    field: &mut i32,
) -> i32
    ensures { call result (one_number field.new)
        ≡ call_of (answer_to file.now (ask_entry_field attribute kind (Place place) at)) (one_number field.old) }
{
    show_field(
        descriptors::entry_field(file, attribute, kind, Wanted::Place(place), at),
        field,
    )
}
