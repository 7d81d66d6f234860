// Section 2.7: a VXR of ten entries, two of them used.
use format::fields;
use records::{index, layout};
use std::io;

// Its fields, with no entry used: thirty fields that hold -1.
fn header(f: &mut [u8]) {
    stored_fields::put_all(f, 0, &[140, 6, 0, 10, 2]);
    stored_fields::put_all(f, layout::FIRSTS, &[0xffff_ffff; 30]);
}

// The Firsts, Lasts and Offsets of two of its ten entries.
fn used_entries(f: &mut [u8]) {
    stored_fields::put_all(f, layout::FIRSTS, &[0, 100]);
    stored_fields::put_all(f, layout::FIRSTS + 40, &[99, 149]);
    stored_fields::put_all(f, layout::FIRSTS + 80, &[0xa400, 0xb554]);
}

// Entry i, counted from 0, whose range begins at floor or above; answers where the next may begin.
fn entry(rt: &impl Print, f: &[u8], i: u32, floor: u32) -> io::Result<u32> {
    print!(rt; "VXR entry {}", u64::from(i) + 1)?;
    let Ok(e) = index::entry_at(f, 0, i, floor, 2147483647) else {
        println!(rt; ": refused")?;
        return Ok(floor);
    };
    println!(rt; ": {}..{} at 0x{:08x}", e.first, e.last, e.link)?;
    Ok(e.last.wrapping_add(1))
}

fn entries(rt: &impl Print, f: &[u8], used: u32) -> io::Result<()> {
    let mut floor = 0;
    for i in 0..used {
        floor = entry(rt, f, i, floor)?;
    }
    Ok(())
}

// The fields of a VXR at the file's start, and its entries.
fn shown(rt: &impl Print, f: &[u8]) -> io::Result<()> {
    if f.len() < layout::FIRSTS {
        return Ok(());
    }
    if index::vxr(f, 0).is_err() {
        return println!(rt; "VXR refused");
    }
    let bytes = fields::nat_at(f, 0);
    let used = fields::nat_at(f, layout::VXR_USED);
    let count = fields::nat_at(f, layout::VXR_ENTRIES);
    println!(rt; "VXR of {bytes} bytes: {used} of {count} entries used")?;
    entries(rt, f, used)
}

pub(crate) fn example(rt: &impl Print) -> io::Result<()> {
    let mut f = [0u8; 140];
    header(&mut f);
    used_entries(&mut f);
    shown(rt, &f)
}
