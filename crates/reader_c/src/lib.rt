// The reader's calls for C: each is the call of crates/reader by that name, with its clauses.
// Each stands twice: a library of Rattle cannot be a static library too.
#![tactic(auto)]

ghost use Rattle.std.specs.Prelude.{◌≡◌};
ghost use Rattle.lookup.specs.declared.lists.Wanted.TheVariants.{Place, Number};
ghost use Rattle.reader.specs.Questions.{ask_value, ask_entry, ask_pad, ask_file, ask_dimension, ask_variable, ask_attribute, ask_entry_field, ask_size, ask_variance, ask_levels, ask_variable_name, ask_attribute_name, answer_to, call, call_of, three_numbers, one_number, two_numbers};

// An element of a value of a variable, by kind, number, record, indices and element.
#[unsafe(no_mangle)]
pub extern "C" fn tlz_read_value(
    file: &[u8],
    kind: i64,
    number: i64,
    rec: i64,
    indices: &[i64],
    element: i64,
    form: &mut u64,
    bits: &mut u64,
    offset: &mut u64,
) -> i32
    ensures { call result (three_numbers form.new bits.new offset.new)
        ≡ call_of (answer_to file.now (ask_value kind number rec indices.now element)) (three_numbers form.old bits.old offset.old) }
{
    reader::tlz_read_value(
        file, kind, number, rec, indices, element, form, bits, offset,
    )
}

// An element of an attribute's entry, by attribute, kind, entry number and element.
#[unsafe(no_mangle)]
pub extern "C" fn tlz_read_entry(
    file: &[u8],
    attribute: i64,
    kind: i64,
    entry: i64,
    element: i64,
    form: &mut u64,
    bits: &mut u64,
    offset: &mut u64,
) -> i32
    ensures { call result (three_numbers form.new bits.new offset.new)
        ≡ call_of (answer_to file.now (ask_entry attribute kind (Number entry) element)) (three_numbers form.old bits.old offset.old) }
{
    reader::tlz_read_entry(file, attribute, kind, entry, element, form, bits, offset)
}

// An element of the entry at a place of its list, from 0: so also of one whose number an earlier entry has.
#[unsafe(no_mangle)]
pub extern "C" fn tlz_read_entry_value_at(
    file: &[u8],
    attribute: i64,
    kind: i64,
    place: u64,
    element: i64,
    form: &mut u64,
    bits: &mut u64,
    offset: &mut u64,
) -> i32
    ensures { call result (three_numbers form.new bits.new offset.new)
        ≡ call_of (answer_to file.now (ask_entry attribute kind (Place place) element)) (three_numbers form.old bits.old offset.old) }
{
    reader::tlz_read_entry_value_at(file, attribute, kind, place, element, form, bits, offset)
}

// An element of the pad value of a variable, by kind, number and element.
#[unsafe(no_mangle)]
pub extern "C" fn tlz_read_pad(
    file: &[u8],
    kind: i64,
    number: i64,
    element: i64,
    form: &mut u64,
    bits: &mut u64,
    offset: &mut u64,
) -> i32
    ensures { call result (three_numbers form.new bits.new offset.new)
        ≡ call_of (answer_to file.now (ask_pad kind number element)) (three_numbers form.old bits.old offset.old) }
{
    reader::tlz_read_pad(file, kind, number, element, form, bits, offset)
}

// What the file says of itself: 0 majority, 1 encoding, 2 to 4 the counts of rVariables, zVariables and attributes, 5 the number of
// dimensions of the rVariables, 6 the bytes of padding behind its end.
#[unsafe(no_mangle)]
pub extern "C" fn tlz_read_file(file: &[u8], what: u64, field: &mut i32) -> i32
    ensures { call result (one_number field.new)
        ≡ call_of (answer_to file.now (ask_file what)) (one_number field.old) }
{
    reader::tlz_read_file(file, what, field)
}

// The size of a dimension of the rVariables.
#[unsafe(no_mangle)]
pub extern "C" fn tlz_read_dimension(file: &[u8], dimension: i64, field: &mut i32) -> i32
    ensures { call result (one_number field.new)
        ≡ call_of (answer_to file.now (ask_dimension dimension)) (one_number field.old) }
{
    reader::tlz_read_dimension(file, dimension, field)
}

// A field of a variable's VDR, by kind, number and the field's offset in the record.
#[unsafe(no_mangle)]
pub extern "C" fn tlz_read_variable(
    file: &[u8],
    kind: i64,
    number: i64,
    at: u64,
    field: &mut i32,
) -> i32
    ensures { call result (one_number field.new)
        ≡ call_of (answer_to file.now (ask_variable kind number at)) (one_number field.old) }
{
    reader::tlz_read_variable(file, kind, number, at, field)
}

// The size of a dimension of a zVariable, by kind, number and dimension.
#[unsafe(no_mangle)]
pub extern "C" fn tlz_read_size(
    file: &[u8],
    kind: i64,
    number: i64,
    dimension: i64,
    field: &mut i32,
) -> i32
    ensures { call result (one_number field.new)
        ≡ call_of (answer_to file.now (ask_size kind number dimension)) (one_number field.old) }
{
    reader::tlz_read_size(file, kind, number, dimension, field)
}

// The variance of a dimension of a variable, -1 or 0, by kind, number and dimension.
#[unsafe(no_mangle)]
pub extern "C" fn tlz_read_variance(
    file: &[u8],
    kind: i64,
    number: i64,
    dimension: i64,
    field: &mut i32,
) -> i32
    ensures { call result (one_number field.new)
        ≡ call_of (answer_to file.now (ask_variance kind number dimension)) (one_number field.old) }
{
    reader::tlz_read_variance(file, kind, number, dimension, field)
}

// How many levels the index of a variable has on the way to a record, 1 to 8, by kind, number and record.
#[unsafe(no_mangle)]
pub extern "C" fn tlz_read_levels(
    file: &[u8],
    kind: i64,
    number: i64,
    rec: i64,
    field: &mut i32,
) -> i32
    ensures { call result (one_number field.new)
        ≡ call_of (answer_to file.now (ask_levels kind number rec)) (one_number field.old) }
{
    reader::tlz_read_levels(file, kind, number, rec, field)
}

// Where the name of a variable stands and its length, by kind and number.
#[unsafe(no_mangle)]
pub extern "C" fn tlz_read_variable_name(
    file: &[u8],
    kind: i64,
    number: i64,
    offset: &mut u64,
    length: &mut u64,
) -> i32
    ensures { call result (two_numbers offset.new length.new)
        ≡ call_of (answer_to file.now (ask_variable_name kind number)) (two_numbers offset.old length.old) }
{
    reader::tlz_read_variable_name(file, kind, number, offset, length)
}

// A field of an attribute's ADR, by number and the field's offset in the record.
#[unsafe(no_mangle)]
pub extern "C" fn tlz_read_attribute(file: &[u8], number: i64, at: u64, field: &mut i32) -> i32
    ensures { call result (one_number field.new)
        ≡ call_of (answer_to file.now (ask_attribute number at)) (one_number field.old) }
{
    reader::tlz_read_attribute(file, number, at, field)
}

// Where the name of an attribute stands and its length, by number.
#[unsafe(no_mangle)]
pub extern "C" fn tlz_read_attribute_name(
    file: &[u8],
    number: i64,
    offset: &mut u64,
    length: &mut u64,
) -> i32
    ensures { call result (two_numbers offset.new length.new)
        ≡ call_of (answer_to file.now (ask_attribute_name number)) (two_numbers offset.old length.old) }
{
    reader::tlz_read_attribute_name(file, number, offset, length)
}

// A field of the AEDR of the first entry of a number, by attribute, kind, entry number and the field's offset in the record.
#[unsafe(no_mangle)]
pub extern "C" fn tlz_read_entry_field(
    file: &[u8],
    attribute: i64,
    kind: i64,
    entry: i64,
    at: u64,
    field: &mut i32,
) -> i32
    ensures { call result (one_number field.new)
        ≡ call_of (answer_to file.now (ask_entry_field attribute kind (Number entry) at)) (one_number field.old) }
{
    reader::tlz_read_entry_field(file, attribute, kind, entry, at, field)
}

// The same for the entry at a place of its list, from 0: so entries of equal numbers can be told apart, and all be listed.
#[unsafe(no_mangle)]
pub extern "C" fn tlz_read_entry_at(
    file: &[u8],
    attribute: i64,
    kind: i64,
    place: u64,
    at: u64,
    field: &mut i32,
) -> i32
    ensures { call result (one_number field.new)
        ≡ call_of (answer_to file.now (ask_entry_field attribute kind (Place place) at)) (one_number field.old) }
{
    reader::tlz_read_entry_at(file, attribute, kind, place, at, field)
}
