// Descriptors: what the CDR, the GDR, a VDR, an ADR and an AEDR say.
// Kind and number, or attribute, kind and which entry, come one by one from C and go one by one to the ways: a struct of them would be taken apart at once.
#![tactic(auto)]

ghost use Rattle.std.specs.Prelude.{◌≡◌, ◌+◌, ◌*◌, ◌≤◌, ◌<◌, length, IfOk};
ghost use Rattle.records.specs.Opening.{gdr_at};
ghost use Rattle.descriptors.specs.Descriptors.{is_shown, field_of, variable_field, attribute_field, entry_field, row_field, dimension_size, variable_dimensions, variable_size, variable_variance, variable_levels, until_nul, name_of, variable_name, attribute_name, file_field_at, file_field_in, file_field};
ghost use Rattle.descriptors.specs.Bounds.{field_bytes, Lie};

use format::fields;
use lookup::lists::Wanted;
use lookup::refusals::Refusal;
use lookup::{indexes, lists};
use records::files::File;
use records::{layout, opening};
use variables::vdr::Layout;
use variables::{place, vdr};

// Where a name stands and its length.
#[derive(Clone, Copy, Debug, PartialEq, Eq)]
pub struct Name {
    pub offset: u64,
    pub length: u64,
}

// A field of a record of a type is shown, by its offset in the record. Fields are numbers here and below, as is what `file_field` is asked for: C gives
// any, and one that names nothing is refused (`is_shown`, `file_field_in`).
#[tactic(auto, unfolding(crate::specs::Descriptors::is_shown))]
fn shows(t: u32, field: u64) -> bool
    ensures { result ≡ is_shown t field }
{
    match t {
        4 => matches!(field, 16 | 20 | 24 | 28 | 40 | 44),
        5 | 9 => matches!(field, 12 | 16 | 20 | 24),
        8 if field == 128 => true,
        _ => matches!(field, 12 | 16 | 28 | 32 | 48 | 52),
    }
}

// A field of the record of a type at an offset.
#[tactic(auto, using(crate::proofs::Shown::shown_within))]
fn field_of(f: &[u8], t: u32, field: u64, o: u32) -> Result<i32, Refusal>
    requires { o + field_bytes t ≤ length f.now }
    ensures { result ≡ field_of f.now t field o }
{
    if !shows(t, field) {
        return Err(Refusal::OutOfRange);
    }
    Ok(fields::field(f, o as usize + field as usize))
}

// A field of a variable's VDR, by kind, number and the field's offset.
#[tactic(auto, using(crate::proofs::Inside::variable_holds), unfolding(crate::specs::Descriptors::variable_field))]
pub fn variable_field(f: &[u8], kind: i64, number: i64, field: u64) -> Result<i32, Refusal>
    ensures { result ≡ variable_field f.now kind number field }
{
    let file = File::new(f);
    let met = lists::to_variable(&file, kind, number)?;
    field_of(file.body, lists::kind_among(3, 8, kind), field, met.at)
}

// A field of an attribute's ADR, by number and the field's offset.
#[tactic(auto, using(crate::proofs::Inside::attribute_holds), unfolding(crate::specs::Descriptors::attribute_field))]
pub fn attribute_field(f: &[u8], number: i64, field: u64) -> Result<i32, Refusal>
    ensures { result ≡ attribute_field f.now number field }
{
    let file = File::new(f);
    let met = lists::to_attribute(&file, number)?;
    field_of(file.body, 4, field, met.at)
}

// A field of an entry's AEDR, by attribute, kind, which entry, and the field's offset.
#[tactic(auto, using(crate::proofs::Inside::entry_holds), unfolding(crate::specs::Descriptors::entry_field))]
pub fn entry_field(
    f: &[u8],
    attribute: i64,
    kind: i64,
    w: Wanted,
    field: u64,
) -> Result<i32, Refusal>
    ensures { result ≡ entry_field f.now attribute kind w field }
{
    let file = File::new(f);
    let met = lists::to_entry(&file, attribute, kind, w)?;
    field_of(file.body, lists::kind_among(5, 9, kind), field, met.at)
}

// The d-th of n fields from an offset on.
#[tactic(auto, using(crate::proofs::Shown::index_below), unfolding(crate::specs::Descriptors::row_field))]
fn row_field(f: &[u8], p: usize, n: u32, d: i64) -> Result<i32, Refusal>
    requires { p + 4 * n ≤ length f.now }
    ensures { result ≡ row_field f.now p n d }
{
    if !place::index_right(d, n) {
        return Err(Refusal::OutOfRange);
    }
    let i = place::nat_of(d) as usize;
    Ok(fields::field(f, p + 4 * i))
}

// The size of a dimension of the rVariables.
#[tactic(auto, using(lookup::proofs::Opening::opened_part), unfolding(crate::specs::Descriptors::dimension_size, records::specs::Opening::gdr_at))]
pub fn dimension_size(f: &[u8], d: i64) -> Result<i32, Refusal>
    ensures { result ≡ dimension_size f.now d }
{
    if !lists::opens(f) {
        return Err(Refusal::Breach);
    }
    let b = opening::body(f);
    let g = fields::link_at(b, layout::GDR_LINK) as usize;
    row_field(
        b,
        g + layout::R_DIM_SIZES,
        fields::nat_at(b, g + layout::R_NUM_DIMS),
        d,
    )
}

// The dimensions of a variable, by kind and number.
#[tactic(auto, using(lookup::proofs::Found::found_right, crate::proofs::Inside::dimensions_lie), unfolding(crate::specs::Descriptors::variable_dimensions))]
fn dimensions_of(f: &File, kind: i64, number: i64) -> Result<Layout, Refusal>
    ensures told { result ≡ variable_dimensions f.now.bytes.now kind number }
    ensures lie { IfOk result (Lie f.now.body.now) }
{
    let met = lists::to_variable(f, kind, number)?;
    Ok(vdr::known_at(f.body, lists::kind_among(3, 8, kind), met.at).dimensions)
}

// The size of a dimension of a zVariable, by kind, number and dimension.
// This and the next are four lines each over row_field: they differ in a row and a test.
#[tactic(auto, unfolding(crate::specs::Descriptors::variable_size))]
pub fn variable_size(f: &[u8], kind: i64, number: i64, d: i64) -> Result<i32, Refusal>
    ensures { result ≡ variable_size f.now kind number d }
{
    let file = File::new(f);
    let l = dimensions_of(&file, kind, number)?;
    if lists::kind_among(3, 8, kind) != 8 {
        return Err(Refusal::OutOfRange);
    }
    row_field(file.body, l.sizes, l.count as u32, d)
}

// The variance of a dimension of a variable, by kind, number and dimension.
#[tactic(auto, unfolding(crate::specs::Descriptors::variable_variance))]
pub fn variable_variance(f: &[u8], kind: i64, number: i64, d: i64) -> Result<i32, Refusal>
    ensures { result ≡ variable_variance f.now kind number d }
{
    let file = File::new(f);
    let l = dimensions_of(&file, kind, number)?;
    row_field(file.body, l.variances, l.count as u32, d)
}

// How many levels the index of a variable has on the way to a record, by kind, number and record.
#[tactic(auto, using(crate::proofs::Inside::variable_named), unfolding(crate::specs::Descriptors::variable_levels))]
pub fn variable_levels(f: &[u8], kind: i64, number: i64, r: i64) -> Result<i32, Refusal>
    ensures { result ≡ variable_levels f.now kind number r }
{
    let file = File::new(f);
    let met = lists::to_variable(&file, kind, number)?;
    let n = indexes::to_levels(file.body, met.at, r, met.left)?;
    Ok(n.cast_signed())
}

// The bytes before the first NUL among the n from an offset on.
fn until_nul(f: &[u8], p: usize, n: usize) -> usize
    requires { p + n ≤ length f.now }
    ensures told { result ≡ until_nul f.now p n }
    ensures most { result ≤ n }
{
    f[p..p + n].iter().position(|b| *b == 0).unwrap_or(n)
}

// The name that stands at an offset.
fn name_of(f: &[u8], p: usize) -> Name
    requires { p + 64 ≤ length f.now }
    ensures { result ≡ name_of f.now p }
{
    Name {
        offset: p as u64,
        length: until_nul(f, p, 64) as u64,
    }
}

// The name of a variable, by kind and number.
// This and the next are three lines each over name_of: they differ in the way and in the field.
#[tactic(auto, using(crate::proofs::Inside::variable_named), unfolding(crate::specs::Descriptors::variable_name))]
pub fn variable_name(f: &[u8], kind: i64, number: i64) -> Result<Name, Refusal>
    ensures { result ≡ variable_name f.now kind number }
{
    let file = File::new(f);
    let met = lists::to_variable(&file, kind, number)?;
    Ok(name_of(file.body, met.at as usize + layout::VAR_NAME))
}

// The name of an attribute, by number.
#[tactic(auto, using(crate::proofs::Inside::attribute_holds), unfolding(crate::specs::Descriptors::attribute_name))]
pub fn attribute_name(f: &[u8], number: i64) -> Result<Name, Refusal>
    ensures { result ≡ attribute_name f.now number }
{
    let file = File::new(f);
    let met = lists::to_attribute(&file, number)?;
    Ok(name_of(file.body, met.at as usize + layout::ATTR_NAME))
}

// The offset of the field of CDR or GDR that is asked for by 1 to 5.
#[tactic(auto, unfolding(records::specs::Opening::gdr_at))]
fn file_field_at(f: &[u8], what: u64) -> usize
    requires { gdr_at f.now + 60 ≤ length f.now }
    ensures told { result ≡ file_field_at f.now what }
    ensures lies { result + 4 ≤ length f.now }
{
    let g = fields::link_at(f, layout::GDR_LINK) as usize;
    match what {
        1 => layout::ENCODING,
        2 => g + layout::NR_VARS_USIZE,
        3 => g + layout::NZ_VARS_USIZE,
        4 => g + layout::NUM_ATTR_USIZE,
        _ => g + layout::R_NUM_DIMS,
    }
}

// A field of CDR or GDR that describes the file.
fn file_field_in(f: &[u8], what: u64) -> Result<i32, Refusal>
    requires { gdr_at f.now + 60 ≤ length f.now }
    ensures { result ≡ file_field_in f.now what }
{
    match what {
        0 => Ok(i32::from(fields::bit(f, layout::CDR_FLAGS, 1))),
        1..=5 => Ok(fields::field(f, file_field_at(f, what))),
        _ => Err(Refusal::OutOfRange),
    }
}

// What the file says of itself: 0 majority, 1 encoding, 2 to 4 its counts of rVariables, zVariables and attributes, 5 the number
// of dimensions of the rVariables, 6 the bytes of padding behind its end.
#[tactic(auto, using(lookup::proofs::Opening::opened_part, records::proofs::Bodies::body_length), unfolding(crate::specs::Descriptors::file_field))]
pub fn file_field(f: &[u8], what: u64) -> Result<i32, Refusal>
    ensures { result ≡ file_field f.now what }
{
    if !lists::opens(f) {
        return Err(Refusal::Breach);
    }
    let b = opening::body(f);
    // An `if`: 6 alone is of the whole file, the others are of what lies before its end.
    if what == 6 {
        return Ok((f.len() - b.len()) as i32);
    }
    file_field_in(b, what)
}
