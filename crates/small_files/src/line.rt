// One line for each file.
use crate::runs::{self, Run};
use std::io;

// A number that came back, or none for -1.
pub(crate) fn verdict(rt: &impl Print, v: i32) -> io::Result<()> {
    if v < 0 {
        return print!(rt; "none");
    }
    print!(rt; "{v}")
}

// A location of 0 is no record, as tlz_check_grant tells it.
fn ending(rt: &impl Print, r: Run) -> io::Result<()> {
    print!(rt; ": verdict ")?;
    verdict(rt, r.verdict)?;
    if r.location != 0 {
        print!(rt; " at {}", r.location)?;
    }
    print!(rt; " in {}", r.steps)?;
    if r.steps == 1 {
        print!(rt; " step")
    } else {
        print!(rt; " steps")
    }
}

// The offsets of a file's first records.
const RECORDS: [usize; 5] = [8, 312, 372, 504, 536];

// The marks of so many of them.
fn marks(rt: &impl Print, m: &[u8], records: usize) -> io::Result<()> {
    print!(rt; ", marks")?;
    if records == 0 {
        print!(rt; " none")?;
    }
    for at in RECORDS.iter().take(records) {
        if let Some(mark) = m.get(*at) {
            print!(rt; " {at}:{mark}")?;
        }
    }
    Ok(())
}

// A file checked both ways, each with marks that are first all 7.
fn checked(rt: &impl Print, file: &[u8], records: usize) -> io::Result<()> {
    let mut m = [7u8; 1062];
    let one = runs::in_one(file, &mut m);
    ending(rt, one)?;
    marks(rt, &m, records)?;
    let mut n = [7u8; 1062];
    let many = runs::in_many(file, &mut n);
    if one == many && m == n {
        println!(rt; ", same in grants of 1")
    } else {
        println!(rt; ", other in grants of 1")
    }
}

// The line of the file that is the first bytes of f: a buffer of fixed memory, with room for more, and so with a length beside it.
pub(crate) fn shown(
    rt: &impl Print,
    name: &[u8],
    f: &[u8],
    length: u32,
    records: usize,
) -> io::Result<()> {
    rt.write_all(name)?;
    match f.get(..length as usize) {
        Some(file) => checked(rt, file, records),
        None => println!(rt; ": too long"),
    }
}
