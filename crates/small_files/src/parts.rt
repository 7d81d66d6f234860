// The records that the small files are made of.
// Magics and the CDR at 8, of an encoding and flags.
pub(crate) fn start(f: &mut [u8], encoding: u32, flags: u32) {
    stored_fields::put_all(f, 0, &[0xcdf2_6002, 0x0000_ffff]);
    stored_fields::put_all(f, 8, &[304, 1, 312, 2, 0, encoding, flags]);
}

// The GDR at 312; eof is the length.
pub(crate) fn gdr(f: &mut [u8], length: u32, z_head: u32, z_vars: u32, unused: u32) {
    let gdr = [
        60,
        2,
        0,
        z_head,
        0,
        length,
        0,
        0,
        0xffff_ffff,
        0,
        z_vars,
        unused,
    ];
    stored_fields::put_all(f, 312, &gdr);
}

// The base file: encoding 6, flags 3.
pub(crate) fn opening(f: &mut [u8], length: u32, z_head: u32, z_vars: u32, unused: u32) {
    start(f, 6, 3);
    gdr(f, length, z_head, z_vars, unused);
}

// VXRs of one used entry 0..2 one below the other from 504 on, so many, but no more than 16; where the next record starts.
fn index(f: &mut [u8], levels: u32) -> u32 {
    let levels = levels.min(16);
    for i in 0..levels {
        let at = 504 + 32 * i;
        stored_fields::put_all(f, at as usize, &[32, 6, 0, 1, 1, 0, 2, at + 32]);
    }
    504 + 32 * levels
}

// A zVDR at 372 of type 2 and MaxRec 2, its index from 504 on, of so many levels, then its VVR of a size.
pub(crate) fn variable(f: &mut [u8], levels: u32, vvr: u32) {
    let vdr = [132, 8, 0, 2, 2, 504, 504, 1, 0, 0, 0, 0, 1];
    stored_fields::put_all(f, 372, &vdr);
    let at = index(f, levels);
    stored_fields::put_all(f, at as usize, &[vvr, 7]);
}

// A zVDR at 372 of type 1 with two dimensions and one record, its VXR at 520, its VVR at 552 of a size; the value at each place
// of the record is that place.
pub(crate) fn plane(f: &mut [u8], sizes: &[u32], variances: &[u32], vvr: u32) {
    let vdr = [148, 8, 0, 1, 0, 520, 520, 1, 0, 0, 0, 0, 1];
    stored_fields::put_all(f, 372, &vdr);
    stored_fields::put(f, 500, 2);
    stored_fields::put_all(f, 504, sizes);
    stored_fields::put_all(f, 512, variances);
    stored_fields::put_all(f, 520, &[32, 6, 0, 1, 1, 0, 0, 552]);
    stored_fields::put_all(f, 552, &[vvr, 7]);
    places(f);
}

// Values 0 to 5 from 560 on, as many as the file has.
fn places(f: &mut [u8]) {
    for (x, place) in f.iter_mut().skip(560).zip(0..6) {
        *x = place;
    }
}

// The two bytes of the value at 546, as far as the file has them.
pub(crate) fn value(f: &mut [u8], bytes: [u8; 2]) {
    for (x, byte) in f.iter_mut().skip(546).zip(bytes) {
        *x = byte;
    }
}
