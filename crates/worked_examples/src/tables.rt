// Chapter 4: where each value of a record stands, as offsets from the record's start, the last index running fastest.
ghost use Rattle.std.specs.Prelude.{◌≤◌};

use records::layout;
use std::io;
use variables::vdr::Shape;
use variables::{place, vdr};

// The values of a record: their data type, how many elements each has, and the sizes and the variances of the dimensions.
#[derive(Clone, Copy)]
struct Table<const N: usize> {
    data: u32,
    elements: u32,
    sizes: [u32; N],
    varies: [bool; N],
    ghost few: { N ≤ 3 },
}

// A variance: -1 for true, 0 for false.
fn variance(varies: bool) -> u32 {
    if varies { 0xffff_ffff } else { 0 }
}

// A variance as it is written.
fn truth(varies: bool) -> &'static str {
    if varies { "TRUE" } else { "FALSE" }
}

// The zVDR of a table at the file's start.
fn describe<const N: usize>(f: &mut [u8], t: &Table<N>) {
    let n = N as u32;
    stored_fields::put_all(f, 0, &[132 + 8 * n, 8]);
    stored_fields::put(f, layout::DATA_TYPE, t.data);
    stored_fields::put(f, layout::VAR_FLAGS, 1);
    stored_fields::put(f, layout::ELEMENTS, t.elements);
    stored_fields::put(f, layout::Z_NUM_DIMS, n);
    stored_fields::put_all(f, layout::Z_NUM_DIMS + 4, &t.sizes);
    for (i, varies) in t.varies.iter().enumerate() {
        stored_fields::put(f, layout::Z_NUM_DIMS + 4 + 4 * (N + i), variance(*varies));
    }
}

// The indices of the k-th value.
fn indices_of<const N: usize>(sizes: &[u32; N], k: u64) -> [i64; N] {
    let mut indices = [0i64; N];
    let mut rest = k;
    for (index, size) in indices.iter_mut().zip(sizes).rev() {
        let n = u64::from(*size).max(1);
        *index = (rest % n) as i64;
        rest /= n;
    }
    indices
}

// How many values there are.
fn count(sizes: &[u32]) -> u64 {
    sizes
        .iter()
        .fold(1u64, |n, size| n.saturating_mul(u64::from(*size)))
}

// The offset of the value of the given indices.
fn offset(rt: &impl Print, f: &[u8], v: Shape, row: bool, indices: &[i64]) -> io::Result<()> {
    match place::place_of(f, v.dimensions, row, indices) {
        Some(n) => print!(rt; " {}", n.saturating_mul(v.value)),
        None => print!(rt; " refused"),
    }
}

// The sizes and the variances, as a line begins with them.
fn heading<const N: usize>(rt: &impl Print, t: &Table<N>) -> io::Result<()> {
    for (i, size) in t.sizes.iter().enumerate() {
        let before = if i == 0 { "" } else { "," };
        print!(rt; "{before}{size}")?;
    }
    for (i, varies) in t.varies.iter().enumerate() {
        let before = if i == 0 { " " } else { "," };
        print!(rt; "{before}{}", truth(*varies))?;
    }
    Ok(())
}

// The line of a table in a majority: the bytes of a record, and the offset of each value.
fn line<const N: usize>(rt: &impl Print, f: &[u8], t: &Table<N>, row: bool) -> io::Result<()> {
    let Ok(v) = vdr::variable_at(f, 8, 0) else {
        return println!(rt; "VDR refused");
    };
    heading(rt, t)?;
    let majority = if row { "row" } else { "column" };
    print!(rt; ", {} bytes, {majority} majority:", v.bytes)?;
    for k in 0..count(&t.sizes) {
        offset(rt, f, v, row, &indices_of(&t.sizes, k))?;
    }
    println!(rt; "")
}

// Both lines of a table.
fn shown<const N: usize>(rt: &impl Print, t: &Table<N>) -> io::Result<()> {
    let mut file = [0u8; 156];
    let f = &mut file[..132 + 8 * N];
    describe(f, t);
    line(rt, f, t, true)?;
    line(rt, f, t, false)
}

// Single floats in dimensions of 3 and 5.
pub(crate) fn plane(rt: &impl Print, varies: [bool; 2]) -> io::Result<()> {
    let t = Table {
        data: 21,
        elements: 1,
        sizes: [3, 5],
        varies,
    };
    shown(rt, &t)
}

// Five characters in dimensions of 2, 3 and 4, of which the second does not vary.
pub(crate) fn solid(rt: &impl Print) -> io::Result<()> {
    let t = Table {
        data: 51,
        elements: 5,
        sizes: [2, 3, 4],
        varies: [true, false, true],
    };
    shown(rt, &t)
}
