// What the program writes: the shift in numbers, what the failures of the power left, and who waits after one cut log. It judges only by what
// `day` and `cuts` have counted.
use super::cuts::{Back, Found};
use super::day::{Counts, Shift};
use super::{book, day, pit};
use nucleus::State;
use rules::Place;
use std::io;
use table::Thread;

// The shift, with the lengths of image and log.
pub fn played(rt: &impl Print, s: Shift, image: usize, log: usize) -> io::Result<()> {
    println!(rt;
        "A shift in the pit, from seed {}: the radio and {} drivers sign on.",
        day::SEED,
        day::DRIVERS
    )?;
    let w = book::waiting(s.state);
    counted(rt, s.counts, w.loads)?;
    displayed(rt, s.counts, w.displays)?;
    println!(rt;
        "{} events are refused. {} threads live at the end, {} of them at the scale and {} at the keypad.\n",
        s.counts.refused,
        s.state.live(),
        w.scale,
        w.keypad
    )?;
    println!(rt;
        "Saved after event {}: an image of {image} bytes.",
        day::BEFORE
    )?;
    println!(rt;
        "Recorded since: {} events, a log of {log} bytes.\n",
        book::EVENTS
    )
}

fn counted(rt: &impl Print, c: Counts, waiting: u32) -> io::Result<()> {
    println!(rt;
        "{} times a truck is weighed, {} times a key is typed.",
        c.weighed, c.typed
    )?;
    println!(rt;
        "{} loads are sent: {} answered, {} gone with a driver who signed off, {waiting} waiting.",
        c.sent, c.answered, c.withdrawn
    )
}

fn displayed(rt: &impl Print, c: Counts, left: u32) -> io::Result<()> {
    println!(rt;
        "{} displays are started: {} gone with a driver who signed off, {left} left.",
        c.started, c.taken
    )
}

// What the failures of the power left.
pub fn failed(rt: &impl Print, f: Found, log: usize) -> io::Result<()> {
    println!(rt;
        "The power may fail at any byte. The log is cut at each, 0 to {log}: {} cuts,",
        f.cuts
    )?;
    println!(rt;
        "{} of them inside a record. Each time the image is loaded and the log replayed.",
        f.halves
    )?;
    println!(rt;
        "The state after the last whole record is back, to the byte: {} of {} times.",
        f.good, f.cuts
    )?;
    print!(rt; "Waiting loads in their place and order again, with their word: ")?;
    share(rt, f.loads)?;
    print!(rt; "Drivers at the scale or the keypad in their place and order again: ")?;
    share(rt, f.devices)?;
    verdict(rt, f)
}

fn share(rt: &impl Print, b: Back) -> io::Result<()> {
    println!(rt; "{} of {}.", b.back, b.waited)
}

fn verdict(rt: &impl Print, f: Found) -> io::Result<()> {
    if let Some(position) = f.failed {
        return println!(rt; "FAILED, first at byte {position}.");
    }
    if f.loads.back != f.loads.waited {
        return println!(rt; "FAILED: a load is lost.");
    }
    if f.devices.back != f.devices.waited {
        return println!(rt; "FAILED: a driver lost its turn.");
    }
    println!(rt; "No load is lost, none is mixed up, and no driver lost its turn.")
}

// The cut in the middle of the log, with what waits after it.
pub fn half(rt: &impl Print, image: &[u8], log: &[u8]) -> io::Result<()> {
    let n = log.len() / 2;
    let r = logging::replay(image::load(image).state, console::front(log, n));
    println!(rt;
        "\nFor one, at byte {n}, behind {} whole records ({} bytes), these wait:",
        r.records, r.bytes
    )?;
    waiting(rt, r.state)
}

// What waits in a state, place by place.
fn waiting(rt: &impl Print, s: State) -> io::Result<()> {
    for p in 0..lines::PLACES as u8 {
        wait(rt, Place(p), s.thread(Place(p)))?;
    }
    Ok(())
}

fn wait(rt: &impl Print, p: Place, t: Thread) -> io::Result<()> {
    if t.standing == rules::SENDING {
        return load(rt, p, t, "in the radio's inbox");
    }
    if t.standing == rules::AWAITING {
        return load(rt, p, t, "taken by the radio and not answered yet");
    }
    if pit::waits_at(t, pit::scale()) {
        return driver(rt, p, t, "at the scale");
    }
    if pit::waits_at(t, pit::keypad()) {
        return driver(rt, p, t, "at the keypad");
    }
    Ok(())
}

fn load(rt: &impl Print, p: Place, t: Thread, stage: &str) -> io::Result<()> {
    println!(rt;
        "    place {}, driver {}: a load of {} kg, {stage}",
        p.0, t.number.0, t.word
    )
}

fn driver(rt: &impl Print, p: Place, t: Thread, device: &str) -> io::Result<()> {
    println!(rt; "    place {}, driver {}: {device}", p.0, t.number.0)
}
