// The shift itself: event after event, first without a log, and then recorded; and what is counted on the way.
use super::book::{Mark, Waiters};
use super::{book, crew};
use nucleus::State;
use rules::Event;

// The first seed from 2030 on whose shift has two at least of all that the report counts, and of each kind that it lists as waiting.
pub const SEED: u32 = 2040;

// So many drivers sign on first, with the radio: they fill more than half of the places.
pub const DRIVERS: usize = 40;

// So many events come before the image, the signing on included.
pub const BEFORE: usize = 200;

// Drivers who were weighed, and who typed; loads sent, answered, and gone because their driver signed off while they waited; displays started, and gone with
// the driver who started them; and events that were refused.
#[derive(Clone, Copy, Default)]
pub struct Counts {
    pub weighed: u32,
    pub typed: u32,
    pub sent: u32,
    pub answered: u32,
    pub withdrawn: u32,
    pub started: u32,
    pub taken: u32,
    pub refused: u32,
}

// The shift after an event: the state, the dice, the counts, and where the next record goes.
#[derive(Clone, Copy)]
pub struct Shift {
    pub state: State,
    pub dice: u32,
    pub counts: Counts,
    pub position: usize,
}

impl Counts {
    // What an event adds, by those who waited before it and after.
    fn add(&mut self, e: Event, code: u8, was: Waiters, now: Waiters) {
        if code != rules::codes::DONE {
            self.refused = self.refused.wrapping_add(1);
            return;
        }
        match e {
            Event::Send { to: _, word: _ } => self.sent = self.sent.wrapping_add(1),
            Event::Reply { to: _, word: _ } => self.answered = self.answered.wrapping_add(1),
            Event::End { thread: _ } => {
                self.withdrawn = left(self.withdrawn, was.loads, now.loads);
                self.taken = left(self.taken, was.displays, now.displays);
            }
            Event::Create => self.started = left(self.started, now.displays, was.displays),
            Event::Interrupt {
                pending: _,
                status: _,
            } => {
                self.weighed = left(self.weighed, was.scale, now.scale);
                self.typed = left(self.typed, was.keypad, now.keypad);
            }
            _ => (),
        }
    }
}

// The count with those who are no longer there.
fn left(n: u32, was: u32, now: u32) -> u32 {
    n.wrapping_add(was.wrapping_sub(now))
}

fn first() -> Shift {
    Shift {
        state: State::fresh(),
        dice: crew::throw(SEED),
        counts: Counts::default(),
        position: 0,
    }
}

// The crew signs on.
fn crewed() -> Shift {
    let mut s = first();
    for _ in 0..=DRIVERS {
        s.state = s.state.create().state;
    }
    s
}

// The shift up to the image.
pub fn morning() -> Shift {
    let mut s = crewed();
    for _ in DRIVERS + 1..BEFORE {
        s = unrecorded(s);
    }
    s
}

// What happens next.
fn due(s: Shift) -> Event {
    crew::next(s.state, s.dice)
}

// The shift after an event that left a state and a code.
fn after(s: Shift, e: Event, now: State, code: u8, position: usize) -> Shift {
    let mut counts = s.counts;
    counts.add(e, code, book::waiting(s.state), book::waiting(now));
    Shift {
        state: now,
        dice: crew::throw(s.dice),
        counts,
        position,
    }
}

// An event without a log.
fn unrecorded(s: Shift) -> Shift {
    let e = due(s);
    let r = s.state.step(e);
    after(s, e, r.state, r.code, s.position)
}

// An event, recorded.
fn recorded(s: Shift, log: &mut [u8]) -> Shift {
    let e = due(s);
    let r = logging::record(s.state, log, s.position, e);
    after(s, e, r.state, r.code, r.position)
}

// The rest of the shift is recorded, and what was there before the first event and after each is kept.
pub fn rest(from: Shift, log: &mut [u8], marks: &mut [Mark; book::MARKS]) -> Shift {
    let mut s = from;
    for i in 0..book::EVENTS {
        marks[i] = Mark::of(s.state, s.position);
        s = recorded(s, log);
    }
    marks[book::EVENTS] = Mark::of(s.state, s.position);
    s
}
