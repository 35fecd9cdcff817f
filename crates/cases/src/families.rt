// Document 02's P5: a thread ends with all that it started. And images of edition 3, of which load refuses those whose parents are dead or form a ring; so
// does the update, since every idea of consistent has these clauses.
use super::updates::updated;
use super::{after, line};
use nucleus::State;
use rules::{Number, Place};
use std::io;

pub fn all(rt: &impl Print) -> io::Result<()> {
    started(rt)?;
    woken(rt)?;
    outsiders(rt)?;
    images(rt)
}

// Who stands at each of the first four places, and who started it.
fn parents(rt: &impl Print, s: State) -> io::Result<()> {
    for p in 0..4 {
        let t = s.thread(Place(p));
        println!(rt;
            "    place {p}: thread {}, parent {}",
            t.number.0, t.parent.0
        )?;
    }
    Ok(())
}

// 0 creates 1 and 2, and 1, when it runs, creates 3.
fn family(rt: &impl Print) -> io::Result<State> {
    let log = [1u8, 1, 1, 7, 1];
    let s = after(&log);
    println!(rt; "0 creates 1 and 2, then 1 creates 3")?;
    parents(rt, s)?;
    Ok(s)
}

// 1 is ended: 3 goes with it, and 2 and 0 stay. Or 0 is: then nobody is left.
fn started(rt: &impl Print) -> io::Result<()> {
    let s = family(rt)?;
    let t = line(rt, "1 is ended", s.end(Number(1)), Place(2))?;
    parents(rt, t)?;
    line(rt, "or 0 is ended", s.end(Number(0)), Place(0))?;
    Ok(())
}

// 1 sends 7 to its child 3, and 2 sends 9 to it. 1 is ended: its child goes first and hands both back, and then 1, which that woke, goes too.
fn woken(rt: &impl Print) -> io::Result<()> {
    let s = family(rt)?;
    let s = line(rt, "1 sends 7 to 3", s.send(Number(3), 7), Place(1))?;
    let s = line(rt, "2 sends 9 to 3", s.send(Number(3), 9), Place(2))?;
    let s = line(rt, "1 is ended", s.end(Number(1)), Place(2))?;
    parents(rt, s)
}

// 0 and 2 each wait for one of the family of 1: 0 for 1 itself, 2 for its child 3. The child ends before its parent, so 2 is ready before 0.
fn outsiders(rt: &impl Print) -> io::Result<()> {
    let s = family(rt)?;
    let s = line(rt, "1 waits for the clock", s.wait_clock(), Place(1))?;
    let s = line(rt, "2 sends 9 to 3", s.send(Number(3), 9), Place(2))?;
    let s = line(rt, "0 sends 7 to 1", s.send(Number(1), 7), Place(0))?;
    line(rt, "1 is ended", s.end(Number(1)), Place(2))?;
    Ok(())
}

// The pair, the second of which the first created; and the same with other parents.
fn images(rt: &impl Print) -> io::Result<()> {
    let pair =
        b"\x03\x01\0\x02\x01\0\0\0\0\0\0\0\0\0\0\0\0\0\0\0\0\0\0\0\0\0\0\0\0\0\0\0\0\0\0\0\0\0\0\0\0\0\0\0\0\0\0\0\0\0\0\0\0\0\x5d\0\0\0\x41\0\x01\x01\x4f\0\x01\x01\xff\0\0\0\0\0\xff\0\0\0\0\0\xff\x02\xff\0\0\0\0\0\xff\0\0\0\0\0\0";
    updated(rt, "0 is the parent of 1", pair)?;
    let ring =
        b"\x03\x01\0\x02\x01\0\0\0\0\0\0\0\0\0\0\0\0\0\0\0\0\0\0\0\0\0\0\0\0\0\0\0\0\0\0\0\0\0\0\0\0\0\0\0\0\0\0\0\0\0\0\0\0\0\x5d\0\0\0\x41\0\x01\x01\x4f\0\x01\x01\xff\0\0\0\0\0\xff\0\0\0\0\0\x01\x02\xff\0\0\0\0\0\xff\0\0\0\0\0\0";
    updated(rt, "0 and 1 are each other's parents", ring)?;
    let itself =
        b"\x03\x01\0\x02\x01\0\0\0\0\0\0\0\0\0\0\0\0\0\0\0\0\0\0\0\0\0\0\0\0\0\0\0\0\0\0\0\0\0\0\0\0\0\0\0\0\0\0\0\0\0\0\0\0\0\x5d\0\0\0\x41\0\x01\x01\x4f\0\x01\x01\xff\0\0\0\0\0\xff\0\0\0\0\0\xff\x02\xff\0\0\0\0\0\xff\0\0\0\0\0\x01";
    updated(rt, "1 is its own parent", itself)?;
    let dead =
        b"\x03\x01\0\x02\x01\0\0\0\0\0\0\0\0\0\0\0\0\0\0\0\0\0\0\0\0\0\0\0\0\0\0\0\0\0\0\0\0\0\0\0\0\0\0\0\0\0\0\0\0\0\0\0\0\0\x5d\0\0\0\x41\0\x01\x01\x4f\0\x01\x01\xff\0\0\0\0\0\xff\0\0\0\0\0\xff\x02\xff\0\0\0\0\0\xff\0\0\0\0\0\x07";
    updated(rt, "the parent of 1 is a dead 7", dead)?;
    Ok(())
}
