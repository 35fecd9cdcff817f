// Runs the cases of "Loads that were counted" and those of document 02's P1 to P3 and P5 to P7, and every operation on states that are not consistent, and
// prints what each answers.
#![tactic(auto)]

use console::{Chosen, Hex};
use nucleus::{Reply, State};
use rules::{Number, Place};
use std::io;

mod devices;
mod families;
mod images;
mod listeners;
mod mangled;
mod places;
mod sheets;
mod updates;

const ANY: u8 = rules::NOBODY;

const LAST_PLACE: u8 = lines::PLACES as u8 - 1;

fn main(rt: HostRuntime) -> io::Result<()> {
    fresh(&rt)?;
    pair(&rt)?;
    ended(&rt)?;
    refused(&rt)?;
    wrapped(&rt)?;
    passed_over(&rt)?;
    waits(&rt)?;
    sticks(&rt)?;
    fills(&rt)?;
    images::all(&rt)?;
    logs(&rt)?;
    devices::all(&rt)?;
    listeners::all(&rt)?;
    updates::all(&rt)?;
    families::all(&rt)?;
    places::all(&rt)?;
    sheets::all(&rt)?;
    mangled::all(&rt)
}

// What an event answered, and the thread at p then.
fn line(rt: &impl Print, what: &str, r: Reply, p: Place) -> io::Result<State> {
    print!(rt; "{what}: ")?;
    console::answer(rt, r.code, r.choice, r.number)?;
    thread(rt, r.state, p)?;
    Ok(r.state)
}

// The thread at p: its number, standing, and answer.
fn thread(rt: &impl Print, s: State, p: Place) -> io::Result<()> {
    let t = s.thread(p);
    let a = t.answer;
    println!(rt;
        "    place {}: thread {} stands {}, answer {} {} {}",
        p.0, t.number.0, t.standing, a.code, a.who.0, a.word
    )
}

fn fresh(rt: &impl Print) -> io::Result<()> {
    let s = State::fresh();
    println!(rt; "fresh: {}", Chosen(s.choice()))?;
    kept(rt, s)
}

// The image, as it would be kept. It is of edition 4.
fn kept(rt: &impl Print, s: State) -> io::Result<()> {
    let mut buffer = [0u8; image::LONGEST];
    let r = image::save(s, &mut buffer);
    println!(rt;
        "    saved in {} bytes: {}",
        r.length,
        Hex(console::front(&buffer, r.length))
    )
}

fn alone(rt: &impl Print) -> io::Result<State> {
    line(rt, "0 alone", State::fresh().create(), Place(0))
}

// Create twice.
fn two(rt: &impl Print) -> io::Result<State> {
    let s = line(rt, "create", State::fresh().create(), Place(0))?;
    let s = line(rt, "create again", s.create(), Place(1))?;
    kept(rt, s)?;
    Ok(s)
}

// The pair meets: 0 receives, 1 sends, 0 replies.
fn pair(rt: &impl Print) -> io::Result<()> {
    let s = two(rt)?;
    let s = line(rt, "0 receives any", s.receive(Number(ANY)), Place(1))?;
    let s = line(rt, "1 sends 7 to 0", s.send(Number(0), 7), Place(0))?;
    let s = line(rt, "0 replies 9", s.reply(Number(1), 9), Place(1))?;
    thread(rt, s, Place(0))
}

// A receiver ends: its sender has its own word back, and the number is not given again at once.
fn ended(rt: &impl Print) -> io::Result<()> {
    let s = two(rt)?;
    let s = line(rt, "0 sends 7 to 1", s.send(Number(1), 7), Place(0))?;
    let s = line(rt, "1 is ended", s.end(Number(1)), Place(0))?;
    line(rt, "the next create", s.create(), Place(1))?;
    Ok(())
}

fn refused(rt: &impl Print) -> io::Result<()> {
    let s = alone(rt)?;
    line(rt, "0 sends to 254", s.send(Number(254), 7), Place(0))?;
    line(rt, "0 sends to 0", s.send(Number(0), 7), Place(0))?;
    line(rt, "0 sends to 5", s.send(Number(5), 7), Place(0))?;
    Ok(())
}

fn wrapped(rt: &impl Print) -> io::Result<()> {
    let mut s = State::fresh().create().state;
    s.desk.last = Number(rules::LAST_NUMBER);
    line(
        rt,
        "last given 253, only 0 live: create",
        s.create(),
        Place(1),
    )?;
    Ok(())
}

// Document 02's P3: 0 has the answer 16, 1, 7, so 1 is passed over until 0 has another. To send to it is refused all the same, since it is not live.
fn passed_over(rt: &impl Print) -> io::Result<()> {
    let log = b"\x01\x01\x02\x01\x07\0\0\0\x05\x01";
    let mut s = after(log);
    s.desk.last = Number(rules::LAST_NUMBER);
    line(
        rt,
        "last given 253, only 0 live, its answer's who 1: create",
        s.create(),
        Place(1),
    )?;
    line(rt, "0 sends to 1", s.send(Number(1), 7), Place(0))?;
    let s = line(rt, "0 waits for the clock", s.wait_clock(), Place(0))?;
    let s = line(rt, "tick", s.tick(), Place(0))?;
    line(rt, "create", s.create(), Place(1))?;
    Ok(())
}

fn waits(rt: &impl Print) -> io::Result<()> {
    let s = alone(rt)?;
    let s = line(rt, "0 waits for the clock", s.wait_clock(), Place(0))?;
    line(rt, "tick", s.tick(), Place(0))?;
    Ok(())
}

fn sticks(rt: &impl Print) -> io::Result<()> {
    let s = alone(rt)?;
    let s = line(rt, "0 receives any", s.receive(Number(ANY)), Place(0))?;
    line(rt, "tick", s.tick(), Place(0))?;
    Ok(())
}

// 64 creates pass; the 65th does not.
fn fills(rt: &impl Print) -> io::Result<()> {
    let mut s = State::fresh();
    for _ in 0..lines::PLACES {
        s = s.create().state;
    }
    let s = line(rt, "create with 64 live", s.create(), Place(LAST_PLACE))?;
    println!(rt; "    live: {}", s.live())
}

// Two creates, a receive and a send; the same cut inside the send; a wait at a device, cut short; and a kind that is not known.
fn logs(rt: &impl Print) -> io::Result<()> {
    let log = [1u8, 1, 3, 255, 2, 0, 7, 0, 0, 0];
    replayed(rt, "log 01 01 03 ff 02 00 07 00 00 00", &log)?;
    replayed(rt, "cut to 9 bytes", &log[..9])?;
    let short = [9u8];
    replayed(rt, "log 09", &short)?;
    let unknown = [11u8];
    replayed(rt, "log 0b", &unknown)
}

// What a log comes to, from fresh.
fn replayed(rt: &impl Print, what: &str, log: &[u8]) -> io::Result<()> {
    let r = logging::replay(State::fresh(), log);
    println!(rt;
        "{what}: {}, records {}, bytes {}, {}",
        r.code,
        r.records,
        r.bytes,
        Chosen(r.choice)
    )
}

// The state that a log leaves, from fresh.
fn after(log: &[u8]) -> State {
    logging::replay(State::fresh(), log).state
}
