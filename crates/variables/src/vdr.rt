// Variables: the rule of a VDR of either kind, and record bytes. A kind is a record type: 8 for zVariables, 3 for rVariables.
ghost use Rattle.std.specs.Prelude.{◌≡◌, ◌+◌, ◌≤◌, ◌<◌, length};
ghost use Rattle.records.specs.Attributes.{element_size};
ghost use Rattle.records.specs.Breaches.{told};
ghost use Rattle.records.specs.Layout.{data_type_at};
ghost use Rattle.variables.specs.Bounds.{LayoutFits};
ghost use Rattle.variables.specs.Vdr.{carried_of, vdr_fields, head_of, num_dims_at, count_right, r_sizes_at, layout_of, value_bytes, size_exact, variable_told, shape_of, dimensioned, variable_of};

use crate::dimensions::Dimensions;
use crate::limit;
use format::{bytes, fields};
use records::breaches::{Breach, check};
use records::{attributes, layout, rules};

// The dimensions of a variable: how many, and where their sizes and variances stand.
#[derive(Clone, Copy, Debug, PartialEq, Eq)]
pub struct Layout {
    pub count: usize,
    pub sizes: usize,
    pub variances: usize,
}

// The shape of a variable: its dimensions, the bytes of a value and the bytes of a record.
#[derive(Clone, Copy, Debug, PartialEq, Eq)]
pub struct Shape {
    pub dimensions: Layout,
    pub value: u64,
    pub bytes: u64,
}

// A VDR has no compressed values, or its flags do not lie in it and before the file's end.
pub fn carried(f: &[u8], at: u32) -> Result<(), Breach>
    ensures { told result ≡ carried_of f.now at }
{
    let o = at as usize;
    if fields::end(f) < o + 32 {
        return Ok(());
    }
    if fields::nat_at(f, o) < 32 {
        return Ok(());
    }
    check(!fields::bit(f, o + layout::VAR_FLAGS, 4), Breach::Uncarried)
}

// The bytes of a VDR before its dimensions. The kind is a number, as in `variable_at`.
fn head_of(kind: u32) -> u32
    ensures { (result ≡ head_of kind) × (128 ≤ result) }
{
    if kind == 8 { 132 } else { 128 }
}

// There are 0 to 10 dimensions.
fn count_right(f: &[u8], p: usize) -> bool
    requires { p + 4 ≤ length f.now }
    ensures { result ≡ count_right f.now p }
{
    fields::within(f, p, 0, 10)
}

// Where the sizes of the n dimensions of an rVariable stand: behind the GDR's other fields, if there are any.
fn r_sizes_at(o: usize, p: usize, n: usize) -> usize
    requires { (o < 4294967296) × (p < 8589934592) }
    ensures { (result ≡ r_sizes_at o p n) × (result < 1099511627776) }
{
    if n == 0 {
        o + layout::R_VARIANCES
    } else {
        p + 24
    }
}

// A VDR of a kind whose first 128 bytes, those of its fields before the dimensions, lie in the file, with the bytes of an element of its data type.
#[derive(Clone, Copy)]
struct Head<'a> {
    file: &'a [u8],
    kind: u32,
    at: u32,
    element: u32,
    ghost inside: { at + 128 ≤ length file.now },
    ghost typed: { (element ≡ element_size file.now (data_type_at at)) × (element ≤ 8) },
}

impl<'a> Head<'a> {
    // The fields but those of the dimensions.
    fn is_right(&self) -> bool
        ensures { result ≡ vdr_fields self.now.file.now self.now.at }
    {
        let f = self.file;
        let o = self.at as usize;
        let single = fields::is(f, o + layout::DATA_TYPE, 51)
            | fields::is(f, o + layout::DATA_TYPE, 52)
            | fields::is(f, o + layout::ELEMENTS, 1);
        (1 <= self.element)
            & fields::at_least(f, o + layout::MAX_REC, -1)
            & (bytes::big4(f, o + layout::VAR_FLAGS) < 8)
            & fields::within(f, o + layout::S_RECORDS, 0, 2)
            & fields::at_least(f, o + layout::ELEMENTS, 1)
            & single
    }

    // Where the number of its dimensions stands.
    fn num_dims_at(&self) -> usize
        ensures { (result ≡ num_dims_at self.now.file.now self.now.kind self.now.at) × (result < 8589934592) }
    {
        if self.kind == 8 {
            self.at as usize + layout::Z_NUM_DIMS
        } else {
            fields::link_at(self.file, layout::GDR_LINK) as usize + layout::R_NUM_DIMS
        }
    }

    // The dimensions that are counted at p.
    fn dimensions_at(&self, p: usize) -> Layout
        requires inside { p + 4 ≤ length self.now.file.now }
        requires counted { p ≡ num_dims_at self.now.file.now self.now.kind self.now.at }
        requires near { p < 8589934592 }
        ensures { (result ≡ layout_of self.now.file.now self.now.kind self.now.at) × LayoutFits result }
    {
        let n = fields::nat_at(self.file, p) as usize;
        let o = self.at as usize;
        if self.kind == 8 {
            Layout {
                count: n,
                sizes: p + 4,
                variances: p + 4 + 4 * n,
            }
        } else {
            Layout {
                count: n,
                sizes: r_sizes_at(o, p, n),
                variances: o + layout::R_VARIANCES,
            }
        }
    }

    // The bytes of one value.
    fn value_bytes(&self) -> u64
        ensures { (result ≡ value_bytes self.now.file.now self.now.at) × (result ≤ 17179869184) }
    {
        let elements = fields::nat_at(self.file, self.at as usize + layout::ELEMENTS);
        u64::from(elements) * u64::from(self.element)
    }

    // The size of a VDR is that of its fields, dimensions and pad value.
    fn size_exact(&self, l: Layout, value: u64) -> bool
        requires { LayoutFits l × (value ≡ value_bytes self.now.file.now self.now.at) × (value ≤ 17179869184) }
        ensures { result ≡ size_exact self.now.file.now self.now.at l }
    {
        let f = self.file;
        let o = self.at as usize;
        let dimensions = l.variances as u64 + 4 * (l.count as u64);
        let size = u64::from(self.at) + u64::from(fields::nat_at(f, o));
        if fields::bit(f, o + layout::VAR_FLAGS, 2) {
            return size == dimensions + value;
        }
        size == dimensions
    }

    // The shape that its dimensions give, where the fields are right. Inlined, as the reader asks it of every VDR on its way.
    #[inline(always)]
    fn shaped(&self, l: Layout) -> Result<Shape, Breach>
        requires { LayoutFits l }
        ensures { variable_told result ≡ dimensioned self.now.file.now self.now.at l }
    {
        let f = self.file;
        let end = fields::end(f);
        let value = self.value_bytes();
        check(self.size_exact(l, value), Breach::Rule)?;
        check(l.sizes + 4 * l.count <= end, Breach::PastEnd)?;
        check(l.variances + 4 * l.count <= end, Breach::PastEnd)?;
        let dimensions = Dimensions { file: f, layout: l };
        check(dimensions.are_right(), Breach::Rule)?;
        let bytes = dimensions.record_bytes(value);
        check(bytes <= 2147483647, Breach::Rule)?;
        Ok(Shape {
            dimensions: l,
            value: limit::cap(value),
            bytes,
        })
    }
}

// The VDR of a kind at an offset. The kind is a number: a position of the walk takes every number for it, also one that is no kind.
pub fn variable_at(f: &[u8], kind: u32, at: u32) -> Result<Shape, Breach>
    ensures { variable_told result ≡ variable_of f.now kind at }
{
    rules::reach(f, at, head_of(kind))?;
    let element = attributes::element_size(f, at as usize + layout::DATA_TYPE);
    let head = Head {
        file: f,
        kind,
        at,
        element,
    };
    check(head.is_right(), Breach::Rule)?;
    let p = head.num_dims_at();
    check(p + 4 <= fields::end(f), Breach::PastEnd)?;
    check(count_right(f, p), Breach::Rule)?;
    head.shaped(head.dimensions_at(p))
}

// The VDR of a kind at an offset that is known to keep its rule. The kind is a number, as in `variable_at`. Inlined, as each read of a value asks it.
#[inline(always)]
pub fn known_at(f: &[u8], kind: u32, at: u32) -> Shape
    requires { (variable_of f.now kind at).fault ≡ 0 }
    ensures { result ≡ shape_of (variable_of f.now kind at) }
{
    let element = attributes::element_size(f, at as usize + layout::DATA_TYPE);
    let head = Head {
        file: f,
        kind,
        at,
        element,
    };
    let l = head.dimensions_at(head.num_dims_at());
    let value = head.value_bytes();
    let dimensions = Dimensions { file: f, layout: l };
    Shape {
        dimensions: l,
        value: limit::cap(value),
        bytes: dimensions.record_bytes(value),
    }
}
