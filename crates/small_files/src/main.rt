// The small files: A to I, H with two levels and with nine, and H with padding, checked in one grant of steps and in grants of one
// step; what is read of J to M.
#![tactic(auto)]

mod line;
mod parts;
mod reads;
mod runs;

use std::io;

// No lists: A whole, B empty, C a byte short.
// Buffers of a fixed length, here and below: the programs have no heap.
fn without_lists(rt: &impl Print, name: &[u8], length: u32, records: usize) -> io::Result<()> {
    let mut f = [0u8; 560];
    parts::opening(&mut f, length, 0, 0, 0);
    line::shown(rt, name, &f, length, records)
}

// An unlisted record of 8 bytes: D of unused space, E of type 7.
// The kind is a number: it is written into the file as it is.
fn unlisted(rt: &impl Print, name: &[u8], kind: u32) -> io::Result<()> {
    let mut f = [0u8; 560];
    parts::opening(&mut f, 380, 0, 0, 0);
    stored_fields::put_all(&mut f, 372, &[8, kind]);
    line::shown(rt, name, &f, 380, 3)
}

// A listed UIR: F with no next one, G naming itself.
fn listed(rt: &impl Print, name: &[u8], next: u32) -> io::Result<()> {
    let mut f = [0u8; 560];
    parts::opening(&mut f, 388, 0, 0, 372);
    stored_fields::put_all(&mut f, 372, &[16, 0xffff_ffff, next, 0]);
    line::shown(rt, name, &f, 388, 3)
}

// One zVariable, its VVR last: H with one of 14 bytes, I with one of 15; H with more levels of its index.
fn variable(rt: &impl Print, name: &[u8], levels: u32, vvr: u32, length: u32) -> io::Result<()> {
    let mut f = [0u8; 806];
    parts::opening(&mut f, length, 372, 1, 0);
    parts::variable(&mut f, levels, vvr);
    line::shown(rt, name, &f, length, 5)
}

// H, whose eof is 550, with padding up to a length.
fn padded(rt: &impl Print, name: &[u8], length: u32) -> io::Result<()> {
    let mut f = [0u8; 1062];
    parts::opening(&mut f, 550, 372, 1, 0);
    parts::variable(&mut f, 1, 14);
    line::shown(rt, name, &f, length, 5)
}

// H with two bytes at 546, in an encoding: what is read of a record.
fn decoded(
    rt: &impl Print,
    name: &[u8],
    encoding: u32,
    bytes: [u8; 2],
    rec: i64,
) -> io::Result<()> {
    let mut f = [0u8; 550];
    parts::start(&mut f, encoding, 3);
    parts::gdr(&mut f, 550, 372, 1, 0);
    parts::variable(&mut f, 1, 14);
    parts::value(&mut f, bytes);
    reads::shown(rt, name, &f, rec, &[])
}

// Sizes 2, 3, both varying, by the flags' majority: index (1, 0).
fn both_vary(rt: &impl Print, name: &[u8], flags: u32) -> io::Result<()> {
    let mut f = [0u8; 566];
    parts::start(&mut f, 6, flags);
    parts::gdr(&mut f, 566, 372, 1, 0);
    parts::plane(&mut f, &[2, 3], &[0xffff_ffff, 0xffff_ffff], 14);
    reads::shown(rt, name, &f, 0, &[1, 0])
}

// Sizes 3, 5, of which only the first varies: index (2, 4).
fn one_varies(rt: &impl Print, name: &[u8]) -> io::Result<()> {
    let mut f = [0u8; 563];
    parts::opening(&mut f, 563, 372, 1, 0);
    parts::plane(&mut f, &[3, 5], &[0xffff_ffff, 0], 11);
    reads::shown(rt, name, &f, 0, &[2, 4])
}

// A to I, and more of H: checked in one grant of steps and in grants of one step.
fn checks(rt: &impl Print) -> io::Result<()> {
    without_lists(rt, b"A", 372, 2)?;
    without_lists(rt, b"B", 0, 0)?;
    without_lists(rt, b"C", 371, 2)?;
    unlisted(rt, b"D", 0xffff_ffff)?;
    unlisted(rt, b"E", 7)?;
    listed(rt, b"F", 0)?;
    listed(rt, b"G", 372)?;
    variable(rt, b"H", 1, 14, 550)?;
    variable(rt, b"I", 1, 15, 551)?;
    variable(rt, b"H, two levels", 2, 14, 582)?;
    variable(rt, b"H, nine levels", 9, 14, 806)?;
    padded(rt, b"H, padded by 511 bytes", 1061)?;
    padded(rt, b"H, padded by 512 bytes", 1062)
}

// J to M: a value of each.
fn values(rt: &impl Print) -> io::Result<()> {
    decoded(rt, b"J", 6, [0xff, 0xfe], 1)?;
    decoded(rt, b"J, encoding 1", 1, [0xff, 0xfe], 1)?;
    decoded(rt, b"K", 6, [0, 0], 3)?;
    both_vary(rt, b"L, row majority", 3)?;
    both_vary(rt, b"L, column majority", 2)?;
    one_varies(rt, b"M")
}

fn main(rt: HostRuntime) -> io::Result<()> {
    checks(&rt)?;
    values(&rt)
}
