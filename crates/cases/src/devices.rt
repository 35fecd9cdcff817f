// The cases of document 02's P1: threads wait at devices, and interrupts wake them.
use super::{alone, kept, line, replayed, thread, two};
use rules::{Device, Pending, Place};
use std::io;

// The half of terminal 0 that receives.
pub const KEYPAD: u8 = 33;

pub fn all(rt: &impl Print) -> io::Result<()> {
    woken(rt)?;
    first_come(rt)?;
    first_index(rt)?;
    refused(rt)?;
    logs(rt)
}

// 0 alone waits at device 33. A set whose first index has no waiter changes nothing, though 33 is in it too, and an empty set changes nothing.
fn woken(rt: &impl Print) -> io::Result<()> {
    let s = alone(rt)?;
    let s = line(
        rt,
        "0 waits at device 33",
        s.wait_device(Device(KEYPAD)),
        Place(0),
    )?;
    kept(rt, s)?;
    line(
        rt,
        "32 and 33 interrupt with 5",
        s.interrupt(high(3), 5),
        Place(0),
    )?;
    line(
        rt,
        "none interrupts with 5",
        s.interrupt(high(0), 5),
        Place(0),
    )?;
    line(
        rt,
        "33 interrupts with 5",
        s.interrupt(keypad(), 5),
        Place(0),
    )?;
    Ok(())
}

// The set of the keypad alone, which is the second index of the high half.
pub fn keypad() -> Pending {
    high(2)
}

// A set of indexes from 32 on.
fn high(high: u16) -> Pending {
    Pending { low: 0, high: high }
}

// Two wait at one device: each interrupt serves the one who came first.
fn first_come(rt: &impl Print) -> io::Result<()> {
    let s = two(rt)?;
    let s = line(
        rt,
        "0 waits at device 33",
        s.wait_device(Device(KEYPAD)),
        Place(0),
    )?;
    let s = line(
        rt,
        "1 waits at device 33",
        s.wait_device(Device(KEYPAD)),
        Place(1),
    )?;
    let s = line(
        rt,
        "33 interrupts with 5",
        s.interrupt(keypad(), 5),
        Place(0),
    )?;
    thread(rt, s, Place(1))?;
    let s = line(
        rt,
        "33 interrupts with 6",
        s.interrupt(keypad(), 6),
        Place(0),
    )?;
    thread(rt, s, Place(1))
}

// Two wait at two devices: the lower index is served, though the other came first.
fn first_index(rt: &impl Print) -> io::Result<()> {
    let s = two(rt)?;
    let s = line(
        rt,
        "0 waits at device 33",
        s.wait_device(Device(KEYPAD)),
        Place(0),
    )?;
    let s = line(
        rt,
        "1 waits at device 1, its own number",
        s.wait_device(Device(1)),
        Place(1),
    )?;
    let both = Pending { low: 2, high: 2 };
    let s = line(
        rt,
        "1 and 33 interrupt with 5",
        s.interrupt(both, 5),
        Place(0),
    )?;
    thread(rt, s, Place(1))
}

// There is no device 48; but that nobody runs who could wait comes first.
fn refused(rt: &impl Print) -> io::Result<()> {
    let s = alone(rt)?;
    line(
        rt,
        "0 waits at device 48",
        s.wait_device(Device(48)),
        Place(0),
    )?;
    let s = line(
        rt,
        "0 waits at device 47",
        s.wait_device(Device(47)),
        Place(0),
    )?;
    line(
        rt,
        "nobody waits at device 48",
        s.wait_device(Device(48)),
        Place(0),
    )?;
    Ok(())
}

// A create, the wait and the interrupt; and the same cut inside the interrupt's record.
fn logs(rt: &impl Print) -> io::Result<()> {
    let log = [1u8, 9, KEYPAD, 10, 0, 0, 0, 0, 2, 0, 5, 0, 0, 0];
    replayed(rt, "log 01 09 21 0a 00 00 00 00 02 00 05 00 00 00", &log)?;
    replayed(rt, "cut to 13 bytes", &log[..13])
}
