// What is read of a file, through the reader's call.
use crate::line;
use std::io;

// The line of the first element of a value of the first zVariable.
pub(crate) fn shown(
    rt: &impl Print,
    name: &[u8],
    file: &[u8],
    rec: i64,
    indices: &[i64],
) -> io::Result<()> {
    let mut kind: u64 = 9;
    let mut bits: u64 = 0;
    let mut offset: u64 = 0;
    let number = reader::tlz_read_value(
        file,
        8,
        0,
        rec,
        indices,
        0,
        &mut kind,
        &mut bits,
        &mut offset,
    );
    rt.write_all(name)?;
    // The answer of a call for C: 0 where there is a value.
    if number == 0 {
        return println!(rt; ": kind {kind}, value {} at {offset}", bits.cast_signed());
    }
    print!(rt; ": refused ")?;
    line::verdict(rt, number)?;
    println!(rt; "")
}
