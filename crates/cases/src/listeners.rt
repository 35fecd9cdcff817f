// The cases of document 02's P2: whoever receives from a thread is told when that thread ends, and nobody can begin to receive from a dead one.
use super::{ANY, after, alone, kept, line, thread, two};
use rules::{Number, Place};
use std::io;

pub fn all(rt: &impl Print) -> io::Result<()> {
    told(rt)?;
    nobody_runs(rt)?;
    others(rt)?;
    refused(rt)?;
    groups(rt)
}

// 0 receives from 1, who ends itself. The number is dead then, and 0 cannot receive from it again.
fn told(rt: &impl Print) -> io::Result<()> {
    let s = two(rt)?;
    let s = line(rt, "0 receives from 1", s.receive(Number(1)), Place(0))?;
    kept(rt, s)?;
    let s = line(rt, "1 ends itself", s.end(Number(1)), Place(0))?;
    kept(rt, s)?;
    line(
        rt,
        "0 receives from 1 again",
        s.receive(Number(1)),
        Place(0),
    )?;
    Ok(())
}

// 1 is ended where it waits for the clock, and nobody runs: 0 is woken and runs.
fn nobody_runs(rt: &impl Print) -> io::Result<()> {
    let s = two(rt)?;
    let s = line(rt, "0 receives from 1", s.receive(Number(1)), Place(0))?;
    let s = line(rt, "1 waits for the clock", s.wait_clock(), Place(1))?;
    line(rt, "1 is ended", s.end(Number(1)), Place(0))?;
    Ok(())
}

// 0 receives from any and 1 from 0: the end of 2 is no news to either.
fn others(rt: &impl Print) -> io::Result<()> {
    let s = two(rt)?;
    let s = line(rt, "a third create", s.create(), Place(2))?;
    let s = line(rt, "0 receives any", s.receive(Number(ANY)), Place(0))?;
    let s = line(rt, "1 receives from 0", s.receive(Number(0)), Place(1))?;
    let s = line(rt, "2 ends itself", s.end(Number(2)), Place(0))?;
    thread(rt, s, Place(1))
}

// There is no 254, 0 is the caller itself, and 5 is dead; but that nobody runs who could receive comes first. 255 still means any, though it is nobody's.
fn refused(rt: &impl Print) -> io::Result<()> {
    let s = alone(rt)?;
    line(rt, "0 receives from 254", s.receive(Number(254)), Place(0))?;
    line(rt, "0 receives from 0", s.receive(Number(0)), Place(0))?;
    line(rt, "0 receives from 5", s.receive(Number(5)), Place(0))?;
    let s = line(rt, "0 receives any", s.receive(Number(ANY)), Place(0))?;
    line(rt, "nobody receives from 5", s.receive(Number(5)), Place(0))?;
    Ok(())
}

// 5 has 4 and 3 in its inbox and owes 2 a reply, and 1 and then 0 receive from it. Its end wakes the inbox front to back, then the one that awaits its reply,
// and the receivers last, by rising place and not as they came. Each slice end shows the next of them.
fn groups(rt: &impl Print) -> io::Result<()> {
    let log =
        b"\x01\x01\x01\x01\x01\x01\x07\x03\x05\x02\x05\x07\0\0\0\x07\x02\x05\x08\0\0\0\x03\xff\x07\x03\x05\x02\x05\x09\0\0\0";
    let s = after(log);
    println!(rt; "4 and 3 send to 5, 2 awaits its reply, 1 and 0 receive from it")?;
    kept(rt, s)?;
    let s = line(rt, "5 ends itself", s.end(Number(5)), Place(4))?;
    kept(rt, s)?;
    let s = line(rt, "slice end", s.slice_end(), Place(3))?;
    let s = line(rt, "slice end", s.slice_end(), Place(2))?;
    let s = line(rt, "slice end", s.slice_end(), Place(0))?;
    line(rt, "slice end", s.slice_end(), Place(1))?;
    Ok(())
}
