// Who does what: from the state and a throw of the dice, the next event, as the drivers, their displays, the radio and the pit's devices would make it.
use super::pit;
use nucleus::State;
use rules::{Choice, Device, Event, Number, Place};
use table::Thread;

// The radio is the first thread.
const RADIO: u8 = 0;

// A number that nobody has, for a driver who takes the wrong one.
const WRONG: u8 = 200;

const PLACES: u8 = lines::PLACES as u8;

// In so many turns there are about one slice end, one tick, one driver who signs on or off or starts a display, and five interrupts.
const TURNS: u32 = 32;

const INTERRUPTS: u32 = 5;

// A driver who signs off is picked among all places. At an empty one somebody signs on or is started: the fewer live, the likelier that is.
const PICKED: u32 = lines::PLACES as u32;

// The next throw of the dice, 0 to 65,536. The same seed gives the same shift.
pub fn throw(dice: u32) -> u32 {
    (dice % 65537 * 75 + 74) % 65537
}

// The next event. Where nobody runs, the clock or a device goes on if somebody waits for what comes from outside; otherwise a driver signs on, since only one
// more could wake the others.
pub fn next(s: State, dice: u32) -> Event {
    match s.choice() {
        Choice::Run(n) => turn(s, n, dice),
        Choice::Wait => outside(dice),
        Choice::Halt | Choice::Stuck => Event::Create,
    }
}

// Somebody runs.
fn turn(s: State, n: Number, dice: u32) -> Event {
    let rest = dice / TURNS;
    match dice % TURNS {
        0 => Event::SliceEnd,
        1 => Event::Tick,
        2 => signs(s, Place((rest % PICKED) as u8)),
        d if d < 3 + INTERRUPTS => pit::raises(rest, throw(rest)),
        _ => acts(s, n, rest),
    }
}

fn outside(dice: u32) -> Event {
    if dice % 4 == 0 {
        return Event::Tick;
    }
    pit::raises(dice / 4, throw(dice / 4))
}

// Is this a display: a thread that a driver started, or another display did? A driver signs on while the radio runs, or nobody.
pub fn display(t: Thread) -> bool {
    let parent = t.parent.0;
    parent != rules::NOBODY && parent != RADIO
}

// The driver at a place signs off, waiting or not, and takes along the displays that it started. At an empty place a driver signs on, or whoever runs, if it
// is not the radio, starts a display. The radio stays, and a display goes with its driver only.
fn signs(s: State, p: Place) -> Event {
    let t = s.thread(p);
    let n = t.number;
    if n.0 == rules::NOBODY {
        return Event::Create;
    }
    if n.0 == RADIO || display(t) {
        return Event::SliceEnd;
    }
    Event::End { thread: n }
}

// What the running thread does. A display shows what there is, and rests until the next tick.
fn acts(s: State, n: Number, dice: u32) -> Event {
    if n.0 == RADIO {
        return radio(s, dice);
    }
    let t = s.thread(s.desk.running);
    if display(t) {
        return Event::WaitClock;
    }
    driver(t, dice)
}

// A driver's answer says what is next: the weight, where it comes from the scale. Any other, as the radio's, means that it is to be weighed again.
fn driver(t: Thread, dice: u32) -> Event {
    if pit::weighed(t.answer) {
        return sends(t.answer.word, dice);
    }
    weighs(dice)
}

// A driver who was weighed sends the weight to the radio, or now and then to the wrong number.
fn sends(weight: u32, dice: u32) -> Event {
    let to = if dice % 8 == 0 { WRONG } else { RADIO };
    Event::Send {
        to: Number(to),
        word: weight,
    }
}

// One who was not goes to the scale. Now and then it rests, goes to a device that is none, types first, or starts a display.
fn weighs(dice: u32) -> Event {
    match dice % 16 {
        0 => Event::WaitClock,
        1 => waits(pit::nowhere()),
        2..=3 => waits(pit::keypad()),
        4..=5 => Event::Create,
        _ => waits(pit::scale()),
    }
}

fn waits(device: Device) -> Event {
    Event::WaitDevice { device }
}

// The radio rests, takes a load, or answers one that it took. Where none is in its inbox it does not wait for one while a load that it took has no answer: that
// driver might be the last who could send.
fn radio(s: State, dice: u32) -> Event {
    if dice % 6 == 0 {
        return Event::WaitClock;
    }
    let from = (dice / 6 % 256) as u8;
    match one_that(s, rules::AWAITING, from) {
        Some(awaiting) if dice % 4 != 1 || one_that(s, rules::SENDING, from).is_none() => {
            answers(awaiting, dice)
        }
        _ => takes(),
    }
}

// A load is taken from anyone.
fn takes() -> Event {
    Event::Receive {
        from: Number(rules::NOBODY),
    }
}

// The radio's answer is the throw.
fn answers(awaiting: Number, dice: u32) -> Event {
    Event::Reply {
        to: awaiting,
        word: dice,
    }
}

// The first thread, from a place on and round, of this standing.
fn one_that(s: State, standing: u8, from: u8) -> Option<Number> {
    for i in 0..PLACES {
        let t = s.thread(Place((from % PLACES + i) % PLACES));
        if t.standing == standing {
            return Some(t.number);
        }
    }
    None
}
