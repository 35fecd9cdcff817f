// States that are not consistent, each by one thing that is wrong in it. Every public operation on states is run on each of them: it is to give 14, or
// halt, nobody, none, and to leave the state, and the buffer that it was lent, as it was. The same is run on the state that they are made of, which is
// consistent, so that the output shows that the answers can be others.
use super::after;
use super::devices::{KEYPAD, keypad};
use console::Chosen;
use nucleus::{Reply, State};
use rules::{Choice, Device, Event, Number, Place};
use std::io;
use table::Thread;

// A byte of a buffer before it is lent: neither an image nor a log is made of these.
const BLANK: u8 = 170;

// The length of a log that is lent.
const LOG: usize = 16;

// Where in such a log a record is to go.
const START: usize = 3;

// Where the cells begin that name the last place of each line.
const LAST: usize = lines::PLACES + lines::LINES;

// The line of the device at which somebody waits.
const KEYPAD_LINE: usize = (table::DEVICE_LINES + KEYPAD) as usize;

pub fn all(rt: &impl Print) -> io::Result<()> {
    let s = cab();
    tried(rt, "nothing mangled", s)?;
    threads(rt, s)?;
    queues(rt, s)?;
    devices(rt, s)?;
    desks(rt, s)
}

// Six threads, each at the place of its number, 0 the parent of the others: 0 sends 7 to 1, 1 waits for the clock, 2 runs, 3 is ready, 4 waits at the keypad,
// and 5 receives from 1. (Two slice ends bring 4 and 5 to run before that, and 2 and 3 behind them.)
fn cab() -> State {
    let log = [1u8, 1, 1, 1, 1, 1, 2, 1, 7, 0, 0, 0, 6, 7, 7, 9, KEYPAD];
    let s = after(&log);
    s.receive(Number(1)).state
}

// ---- the states

fn threads(rt: &impl Print, s: State) -> io::Result<()> {
    tried(rt, "two threads, one number", byte(s, table::NUMBER + 3, 2))?;
    tried(
        rt,
        "a partner that does not live",
        byte(s, table::PARTNER, 9),
    )?;
    tried(
        rt,
        "a receiver that names a dead thread",
        byte(s, table::PARTNER + 5, 9),
    )?;
    tried(rt, "an answer of code 17", byte(s, table::CODE + 2, 17))?;
    tried(
        rt,
        "an answer of code 16 from nobody",
        byte(s, table::CODE + 2, 16),
    )?;
    tried(rt, "a word in a ready thread", word(s, table::WORD + 3, 1))?;
    tried(
        rt,
        "a parent that does not live",
        byte(s, table::PARENT + 3, 9),
    )?;
    tried(
        rt,
        "a thread that is its own parent",
        byte(s, table::PARENT + 3, 3),
    )?;
    tried(
        rt,
        "two that are each other's parents",
        byte(s, table::PARENT, 3),
    )
}

fn queues(rt: &impl Print, s: State) -> io::Result<()> {
    tried(rt, "a line that is a ring", link(s, 3, 3))?;
    // 3, the only one in ready, stands behind 1 in the clock line too, as its last.
    let t = link(s, 1, 3);
    tried(
        rt,
        "a place in two lines",
        link(t, LAST + table::CLOCK_LINE as usize, 3),
    )
}

fn devices(rt: &impl Print, s: State) -> io::Result<()> {
    tried(
        rt,
        "a waiter at a device that is none",
        byte(s, table::PARTNER + 4, lines::DEVICES as u8),
    )?;
    tried(
        rt,
        "a waiter in another device's line",
        byte(s, table::PARTNER + 4, KEYPAD + 1),
    )?;
    tried(
        rt,
        "a word in a waiter at a device",
        word(s, table::WORD + 4, 1),
    )?;
    let t = link(s, lines::PLACES + KEYPAD_LINE, lines::NONE);
    tried(
        rt,
        "a waiter in no line",
        link(t, LAST + KEYPAD_LINE, lines::NONE),
    )
}

fn desks(rt: &impl Print, s: State) -> io::Result<()> {
    tried(rt, "another runs than stands so", running(s, Place(3)))?;
    tried(
        rt,
        "the running place is no place",
        running(s, Place(lines::PLACES as u8)),
    )?;
    tried(rt, "an empty place in the filled set", one_more(s))?;
    tried(rt, "the last number is 254", no_number(s))
}

// The state with one byte, word or link changed. Each names an array of its own, so one function for the three would take that as
// well, and be no shorter.
fn byte(mut s: State, at: usize, x: u8) -> State {
    if at < table::BYTES {
        s.arrays.table.blocks[at] = x;
    }
    s
}

fn word(mut s: State, at: usize, x: u32) -> State {
    if at < table::WORDS {
        s.arrays.table.words[at] = x;
    }
    s
}

fn link(mut s: State, at: usize, x: u8) -> State {
    if at < lines::CELLS {
        s.arrays.lines[at] = x;
    }
    s
}

fn running(mut s: State, p: Place) -> State {
    s.desk.running = p;
    s
}

fn one_more(mut s: State) -> State {
    s.desk.filled = 127;
    s
}

fn no_number(mut s: State) -> State {
    s.desk.last = Number(254);
    s
}

// ---- the operations

fn tried(rt: &impl Print, what: &str, s: State) -> io::Result<()> {
    print!(rt; "{what}")?;
    looked(rt, s)?;
    acted(rt, s)
}

// What the operations that only look give.
fn looked(rt: &impl Print, s: State) -> io::Result<()> {
    print!(rt;
        ": consistent {}, {}, live {}, empty place {}, thread",
        s.consistent() as u8,
        Chosen(s.choice()),
        s.live(),
        s.empty_place().map_or(lines::NONE, |p| p.0)
    )?;
    fields(rt, s.thread(Place(0)))
}

// A thread's fields, in the order of the image, and the line's end.
fn fields(rt: &impl Print, t: Thread) -> io::Result<()> {
    let a = t.answer;
    println!(rt;
        " {} {} {} {} {} {} {} {}",
        t.number.0, t.standing, t.partner.0, t.word, a.code, a.who.0, a.word, t.parent.0
    )
}

// What the operations that act give: the code of each, and whether all of them refused.
fn acted(rt: &impl Print, s: State) -> io::Result<()> {
    print!(rt; "    events")?;
    let e = events(rt, s)?;
    let k = saved(rt, s)?;
    let r = recorded(rt, s)?;
    let p = replayed(rt, s)?;
    if e && k && r && p {
        println!(rt; ": halt, nobody, none, all as it was")
    } else {
        println!(rt; ": at ! another answer")
    }
}

// Each of the ten events by its own method, and one by `step`.
fn events(rt: &impl Print, s: State) -> io::Result<bool> {
    let replies = [
        s.create(),
        s.send(Number(3), 7),
        s.receive(Number(rules::NOBODY)),
        s.reply(Number(0), 9),
        s.end(Number(1)),
        s.wait_clock(),
        s.slice_end(),
        s.tick(),
        s.wait_device(Device(KEYPAD)),
        s.interrupt(keypad(), 5),
        s.step(Event::Tick),
    ];
    let mut refused = true;
    for r in &replies {
        refused &= event(rt, s, *r)?;
    }
    Ok(refused)
}

fn event(rt: &impl Print, s: State, r: Reply) -> io::Result<bool> {
    let none = r.choice == Choice::Halt && r.number.0 == rules::NOBODY;
    told(rt, r.code, none && s == r.state)
}

// The buffer would hold any image.
fn saved(rt: &impl Print, s: State) -> io::Result<bool> {
    let before = [BLANK; image::LONGEST];
    let mut buffer = before;
    let r = image::save(s, &mut buffer);
    print!(rt; ", save")?;
    told(rt, r.code, r.length == 0 && buffer == before)
}

fn recorded(rt: &impl Print, s: State) -> io::Result<bool> {
    let before = [BLANK; LOG];
    let mut log = before;
    print!(rt; ", record")?;
    let r = logging::record(s, &mut log, START, Event::Tick);
    let none = r.choice == Choice::Halt && r.number.0 == rules::NOBODY && r.position == START;
    told(rt, r.code, none && log == before && s == r.state)
}

// The log is that of a create and a tick.
fn replayed(rt: &impl Print, s: State) -> io::Result<bool> {
    let log = [1u8, 8];
    let r = logging::replay(s, &log);
    let none = r.choice == Choice::Halt && r.records == 0 && r.bytes == 0;
    print!(rt; ", replay")?;
    told(rt, r.code, none && s == r.state)
}

// The code of an operation, and whether it refused: with 14, and in all else as it is to. One that did not is marked.
fn told(rt: &impl Print, code: u8, quiet: bool) -> io::Result<bool> {
    print!(rt; " {code}")?;
    if quiet && code == rules::codes::INCONSISTENT {
        return Ok(true);
    }
    print!(rt; "!")?;
    Ok(false)
}
