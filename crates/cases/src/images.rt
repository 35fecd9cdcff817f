// Images that are loaded: those that document 01 counted, which are of edition 1, and some that are refused. What is saved is of edition 4.
use super::kept;
use console::{Chosen, Hex};
use image::Loaded;
use nucleus::State;
use std::io;

pub fn all(rt: &impl Print) -> io::Result<()> {
    counted(rt)?;
    at_devices(rt)?;
    heads(rt)
}

fn counted(rt: &impl Print) -> io::Result<()> {
    let fresh = b"\x01\xfd\xff\0\0\0\x08\0";
    loaded(rt, "fresh in edition 1", fresh)?;
    let pair =
        b"\x01\x01\0\x02\x01\0\x2b\0\0\0\x11\0\x01\x01\x1e\0\x01\x01\xff\0\0\0\0\0\xff\0\0\0\0\0\x02\xff\0\0\0\0\0\xff\0\0\0\0\0";
    loaded(rt, "the pair in edition 1", pair)?;
    let told =
        b"\x01\x01\0\x02\x01\0\x2b\0\0\0\x11\0\x01\x01\x1e\0\x01\x01\xff\0\0\0\0\0\xff\x05\0\0\0\0\x02\xff\0\0\0\0\0\xff\0\0\0\0\0";
    loaded(rt, "the pair in edition 1, 0 with answer 0, 255, 5", told)
}

// Edition 1 has no queue where one who waits at a device could stand. The second image is that of a pair of which 1 has left the ready queue, so that
// nothing else is wrong in it.
fn at_devices(rt: &impl Print) -> io::Result<()> {
    let ready =
        b"\x01\x01\0\x02\x01\0\x2b\0\0\0\x11\0\x01\x01\x1e\0\x01\x01\xff\0\0\0\0\0\xff\0\0\0\0\0\x07\x21\0\0\0\0\0\xff\0\0\0\0\0";
    loaded(rt, "1 is in ready, and waits at device 33", ready)?;
    let alone =
        b"\x01\x01\0\x02\0\0\x2a\0\0\0\x10\0\x01\x01\x1d\0\x01\xff\0\0\0\0\0\xff\0\0\0\0\0\x07\x21\0\0\0\0\0\xff\0\0\0\0\0";
    loaded(rt, "1 is in no queue, and waits at device 33", alone)
}

// The heads of editions 2 to 4 have 56 bytes, and there is no edition 5.
fn heads(rt: &impl Print) -> io::Result<()> {
    let short = b"\x02\xfd\xff\0\0\0\x08\0";
    loaded(rt, "edition 2, shorter than its head", short)?;
    let short = b"\x03\xfd\xff\0\0\0\x08\0";
    loaded(rt, "edition 3, shorter than its head", short)?;
    let short = b"\x04\xfd\xff\0\0\0\x08\0";
    loaded(rt, "edition 4, shorter than its head", short)?;
    let unknown = b"\x05\xfd\xff\0\0\0\x08\0";
    loaded(rt, "edition 5", unknown)
}

// What bytes load as.
pub fn loaded(rt: &impl Print, what: &str, image: &[u8]) -> io::Result<()> {
    println!(rt; "{what}, {} bytes: {}", image.len(), Hex(image))?;
    came(rt, "    load: ", image::load(image))?;
    Ok(())
}

// The code and the choice, and the image that the state has now.
pub fn came(rt: &impl Print, how: &str, r: Loaded) -> io::Result<State> {
    let s = r.state;
    println!(rt; "{how}{} {}", r.code, Chosen(s.choice()))?;
    kept(rt, s)?;
    Ok(s)
}
