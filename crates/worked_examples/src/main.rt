// The worked examples of the format description, run: the VXR of section 2.7 and the tables of chapter 4.
#![tactic(auto)]

mod tables;
mod vxr;

use std::io;

fn main(rt: HostRuntime) -> io::Result<()> {
    vxr::example(&rt)?;
    tables::plane(&rt, [true, false])?;
    tables::plane(&rt, [false, true])?;
    tables::plane(&rt, [true, true])?;
    tables::solid(&rt)
}
