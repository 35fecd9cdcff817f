// The update load (document 02, P2): images that a build with the old rules may have kept, in which somebody listens for a dead thread. Each is loaded first,
// so that the output shows where the two answer differently.
use super::images::{came, loaded};
use super::thread;
use nucleus::State;
use rules::Place;
use std::io;

pub fn all(rt: &impl Print) -> io::Result<()> {
    editions(rt)?;
    goes_on(rt)?;
    by_place(rt)?;
    unchanged(rt)?;
    heads(rt)?;
    inconsistent(rt)
}

// 0 is alone and receives from 5, who is dead: load refuses that in any edition, and the update wakes 0.
fn editions(rt: &impl Print) -> io::Result<()> {
    let first = b"\x01\0\xff\x01\0\0\x19\0\0\0\x0c\0\x05\x05\0\0\0\0\0\xff\0\0\0\0\0";
    let s = updated(rt, "0 receives from a dead 5, in edition 1", first)?;
    thread(rt, s, Place(0))?;
    let second =
        b"\x02\0\xff\x01\0\0\0\0\0\0\0\0\0\0\0\0\0\0\0\0\0\0\0\0\0\0\0\0\0\0\0\0\0\0\0\0\0\0\0\0\0\0\0\0\0\0\0\0\0\0\0\0\0\0\x49\0\0\0\x3c\0\x05\x05\0\0\0\0\0\xff\0\0\0\0\0";
    let s = updated(rt, "0 receives from a dead 5, in edition 2", second)?;
    thread(rt, s, Place(0))
}

// 1 runs and 2 is ready while 0 receives from 7, who is dead: 1 goes on, and 0 is ready behind 2.
fn goes_on(rt: &impl Print) -> io::Result<()> {
    let image =
        b"\x01\x02\x01\x03\x01\0\x3c\0\0\0\x15\0\x01\x01\x22\0\x02\x02\x2f\0\x02\x05\x07\0\0\0\0\0\xff\0\0\0\0\0\x01\xff\0\0\0\0\0\xff\0\0\0\0\0\x02\xff\0\0\0\0\0\xff\0\0\0\0\0";
    let s = updated(rt, "1 runs, and 0 receives from a dead 7", image)?;
    thread(rt, s, Place(0))?;
    thread(rt, s, Place(1))
}

// Nobody runs: 0 receives from 9, who is dead, with 3 in its inbox, 1 from 2, who lives, 2 from 7, who is dead, and 4 from any. 0 and 2 are woken, by rising
// place and not by the numbers that they named, and 0 runs; its inbox stays as it is, and so do the others.
fn by_place(rt: &impl Print) -> io::Result<()> {
    let image =
        b"\x01\x04\xff\x05\0\0\x5e\0\0\0\x1c\0\x01\x01\x2a\0\x02\x02\x37\0\x03\x03\x44\0\x04\x04\x51\0\x05\x09\0\0\0\0\0\xff\0\0\0\0\x01\x03\x05\x02\0\0\0\0\0\xff\0\0\0\0\0\x05\x07\0\0\0\0\0\x04\x08\0\0\0\0\x03\0\x06\0\0\0\0\xff\0\0\0\0\0\x05\xff\0\0\0\0\0\xff\0\0\0\0\0";
    let s = updated(
        rt,
        "0 receives from a dead 9 and 2 from a dead 7, 3 sends to 0",
        image,
    )?;
    thread(rt, s, Place(0))?;
    thread(rt, s, Place(2))
}

// What load takes, the update takes as it is: 1 runs, and lives, so 0 goes on receiving from it.
fn unchanged(rt: &impl Print) -> io::Result<()> {
    let first =
        b"\x01\x01\x01\x02\0\0\x2a\0\0\0\x10\0\x01\x01\x1d\0\x05\x01\0\0\0\0\0\xff\0\0\0\0\0\x01\xff\0\0\0\0\0\xff\0\0\0\0\0";
    updated(rt, "0 receives from a live 1, in edition 1", first)?;
    let second =
        b"\x02\x01\x01\x02\0\0\0\0\0\0\0\0\0\0\0\0\0\0\0\0\0\0\0\0\0\0\0\0\0\0\0\0\0\0\0\0\0\0\0\0\0\0\0\0\0\0\0\0\0\0\0\0\0\0\x5a\0\0\0\x40\0\x01\x01\x4d\0\x05\x01\0\0\0\0\0\xff\0\0\0\0\0\x01\xff\0\0\0\0\0\xff\0\0\0\0\0";
    updated(rt, "0 receives from a live 1, in edition 2", second)?;
    Ok(())
}

// The update refuses by the head as load does. The last of these is the first image of all, but for its length field.
fn heads(rt: &impl Print) -> io::Result<()> {
    let under = b"\x01\xfd\xff\0\0\0\x08";
    updated(rt, "under 8 bytes", under)?;
    let unknown = b"\x05\xfd\xff\0\0\0\x08\0";
    updated(rt, "edition 5", unknown)?;
    let short = b"\x02\xfd\xff\0\0\0\x08\0";
    updated(rt, "edition 2, shorter than its head", short)?;
    let wrong = b"\x01\0\xff\x01\0\0\x1a\0\0\0\x0c\0\x05\x05\0\0\0\0\0\xff\0\0\0\0\0";
    updated(rt, "a length field that is not the length", wrong)?;
    Ok(())
}

// The old rules know each of these, so the update refuses them too, whether or not somebody listens for a dead thread beside.
fn inconsistent(rt: &impl Print) -> io::Result<()> {
    let queues =
        b"\x01\x01\0\x02\x01\x01\x2c\0\0\0\x12\0\x01\x01\x1f\0\x01\x01\x01\xff\0\0\0\0\0\xff\0\0\0\0\0\x02\xff\0\0\0\0\0\xff\0\0\0\0\0";
    updated(rt, "1 is in ready and in the clock queue", queues)?;
    let owed = b"\x01\0\xff\x01\0\0\x19\0\0\0\x0c\0\x04\x05\x07\0\0\0\0\xff\0\0\0\0\0";
    updated(rt, "0 awaits the reply of a dead 5", owed)?;
    let itself = b"\x01\0\xff\x01\0\0\x19\0\0\0\x0c\0\x05\0\0\0\0\0\0\xff\0\0\0\0\0";
    updated(rt, "0 receives from itself", itself)?;
    let never = b"\x01\0\xff\x01\0\0\x19\0\0\0\x0c\0\x05\xfe\0\0\0\0\0\xff\0\0\0\0\0";
    updated(rt, "0 receives from 254", never)?;
    let both =
        b"\x01\x01\xff\x02\0\0\x2a\0\0\0\x10\0\x01\x01\x1d\0\x05\x05\0\0\0\0\0\xff\0\0\0\0\0\x04\x05\x07\0\0\0\0\xff\0\0\0\0\0";
    updated(
        rt,
        "0 receives from a dead 5, and 1 awaits the reply of 5",
        both,
    )?;
    Ok(())
}

// What load and the update make of the bytes. The state that the update gives.
pub fn updated(rt: &impl Print, what: &str, image: &[u8]) -> io::Result<State> {
    loaded(rt, what, image)?;
    came(rt, "    update: ", image::update(image))
}
