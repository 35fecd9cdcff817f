// Document 02's P6: images of edition 4 name places up to 63, and older ones up to 31. Nothing but that is wrong in those that load and the update refuse.
use super::updates::updated;
use std::io;

pub fn all(rt: &impl Print) -> io::Result<()> {
    contents(rt)?;
    elsewhere(rt)
}

// The first place that an edition cannot name, and of editions 3 and 4 the last that they can.
fn contents(rt: &impl Print) -> io::Result<()> {
    let first = b"\x01\0\x20\x01\0\0\x19\0\x20\0\x0c\0\x01\xff\0\0\0\0\0\xff\0\0\0\0\0";
    updated(rt, "0 runs at place 32, in edition 1", first)?;
    let second =
        b"\x02\0\x20\x01\0\0\0\0\0\0\0\0\0\0\0\0\0\0\0\0\0\0\0\0\0\0\0\0\0\0\0\0\0\0\0\0\0\0\0\0\0\0\0\0\0\0\0\0\0\0\0\0\0\0\x49\0\x20\0\x3c\0\x01\xff\0\0\0\0\0\xff\0\0\0\0\0";
    updated(rt, "0 runs at place 32, in edition 2", second)?;
    let third =
        b"\x03\0\x1f\x01\0\0\0\0\0\0\0\0\0\0\0\0\0\0\0\0\0\0\0\0\0\0\0\0\0\0\0\0\0\0\0\0\0\0\0\0\0\0\0\0\0\0\0\0\0\0\0\0\0\0\x4a\0\x1f\0\x3c\0\x01\xff\0\0\0\0\0\xff\0\0\0\0\0\xff";
    updated(rt, "0 runs at place 31, in edition 3", third)?;
    let above =
        b"\x03\0\x20\x01\0\0\0\0\0\0\0\0\0\0\0\0\0\0\0\0\0\0\0\0\0\0\0\0\0\0\0\0\0\0\0\0\0\0\0\0\0\0\0\0\0\0\0\0\0\0\0\0\0\0\x4a\0\x20\0\x3c\0\x01\xff\0\0\0\0\0\xff\0\0\0\0\0\xff";
    updated(rt, "0 runs at place 32, in edition 3", above)?;
    let newest =
        b"\x04\0\x3f\x01\0\0\0\0\0\0\0\0\0\0\0\0\0\0\0\0\0\0\0\0\0\0\0\0\0\0\0\0\0\0\0\0\0\0\0\0\0\0\0\0\0\0\0\0\0\0\0\0\0\0\x4a\0\x3f\0\x3c\0\x01\xff\0\0\0\0\0\xff\0\0\0\0\0\xff";
    updated(rt, "0 runs at place 63, in edition 4", newest)?;
    let nowhere =
        b"\x04\0\x40\x01\0\0\0\0\0\0\0\0\0\0\0\0\0\0\0\0\0\0\0\0\0\0\0\0\0\0\0\0\0\0\0\0\0\0\0\0\0\0\0\0\0\0\0\0\0\0\0\0\0\0\x4a\0\x40\0\x3c\0\x01\xff\0\0\0\0\0\xff\0\0\0\0\0\xff";
    updated(rt, "0 runs at place 64, in edition 4", nowhere)?;
    Ok(())
}

// 0 runs, and its child 1, at place 40, is ready, or sends it 7: a place that stands in a queue or an inbox stands in the contents too.
fn elsewhere(rt: &impl Print) -> io::Result<()> {
    let ready =
        b"\x03\x01\0\x02\x01\0\0\0\0\0\0\0\0\0\0\0\0\0\0\0\0\0\0\0\0\0\0\0\0\0\0\0\0\0\0\0\0\0\0\0\0\0\0\0\0\0\0\0\0\0\0\0\0\0\x5d\0\0\0\x41\0\x28\x01\x4f\0\x28\x01\xff\0\0\0\0\0\xff\0\0\0\0\0\xff\x02\xff\0\0\0\0\0\xff\0\0\0\0\0\0";
    updated(rt, "1 is ready at place 40, in edition 3", ready)?;
    let ready =
        b"\x04\x01\0\x02\x01\0\0\0\0\0\0\0\0\0\0\0\0\0\0\0\0\0\0\0\0\0\0\0\0\0\0\0\0\0\0\0\0\0\0\0\0\0\0\0\0\0\0\0\0\0\0\0\0\0\x5d\0\0\0\x41\0\x28\x01\x4f\0\x28\x01\xff\0\0\0\0\0\xff\0\0\0\0\0\xff\x02\xff\0\0\0\0\0\xff\0\0\0\0\0\0";
    updated(rt, "1 is ready at place 40, in edition 4", ready)?;
    let inbox =
        b"\x03\x01\0\x02\0\0\0\0\0\0\0\0\0\0\0\0\0\0\0\0\0\0\0\0\0\0\0\0\0\0\0\0\0\0\0\0\0\0\0\0\0\0\0\0\0\0\0\0\0\0\0\0\0\0\x5d\0\0\0\x40\0\x28\x01\x4f\0\x01\xff\0\0\0\0\0\xff\0\0\0\0\x01\xff\x28\x03\0\x07\0\0\0\0\xff\0\0\0\0\0\0";
    updated(rt, "1 sends 7 from place 40, in edition 3", inbox)?;
    let inbox =
        b"\x04\x01\0\x02\0\0\0\0\0\0\0\0\0\0\0\0\0\0\0\0\0\0\0\0\0\0\0\0\0\0\0\0\0\0\0\0\0\0\0\0\0\0\0\0\0\0\0\0\0\0\0\0\0\0\x5d\0\0\0\x40\0\x28\x01\x4f\0\x01\xff\0\0\0\0\0\xff\0\0\0\0\x01\xff\x28\x03\0\x07\0\0\0\0\xff\0\0\0\0\0\0";
    updated(rt, "1 sends 7 from place 40, in edition 4", inbox)?;
    Ok(())
}
