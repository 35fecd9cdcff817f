// The thread table: what a place holds, in two arrays, and the little that an event keeps beside them. A field of all places stands in a row, so that field k of
// place p is cell k * PLACES + p.
#![tactic(auto)]

ghost use Rattle.std.specs.Prelude.{◌≡◌, ℕ, ◌<◌, List, [], get_or};
ghost use Rattle.lines.specs.Lines.{Tidy};
ghost use Rattle.rules.specs.Values.{place_known};
ghost use Rattle.rules.specs.Model.{places, line_count, vacant};
ghost use Rattle.rules.specs.Rules.{hears, waited, choice};
ghost use Rattle.table.specs.Cells.{cell, thread_of, shown, as_thread, running};
ghost use Rattle.table.specs.Choose.{Legible};
ghost use Rattle.table.specs.Stores.{Stood, Told, Named, Raised, Stored, awaits_of};
ghost use Rattle.table.specs.Clean.{Sized, emptied, Emptied};
ghost use Rattle.table.specs.declared.Desk.{Desk};

use lines::Links;
use rules::{Choice, Number, Place};

// Each byte of a thread has a row in the one array.
pub const NUMBER: usize = 0;

pub const STANDING: usize = lines::PLACES;

pub const PARTNER: usize = 2 * lines::PLACES;

pub const CODE: usize = 3 * lines::PLACES;

pub const WHO: usize = 4 * lines::PLACES;

pub const PARENT: usize = 5 * lines::PLACES;

pub const BYTES: usize = 6 * lines::PLACES;

// Each word of a thread has a row in the other.
pub const WORD: usize = 0;

pub const ANSWER: usize = lines::PLACES;

pub const WORDS: usize = 2 * lines::PLACES;

pub type Blocks = [u8; BYTES];

pub type Words = [u32; WORDS];

// The lines: ready, clock, from DEVICE_LINES on that of each device, and from INBOX_LINES on the inbox of each place.
pub const READY_LINE: u8 = 0;

pub const CLOCK_LINE: u8 = 1;

pub const DEVICE_LINES: u8 = 2;

pub const INBOX_LINES: u8 = lines::QUEUES as u8;

// The bytes and the words of all threads.
#[derive(Clone, Copy, PartialEq, Eq)]
pub struct Table {
    pub blocks: Blocks,
    pub words: Words,
}

// What an event is lent and changes in place: the thread table, and the lines.
#[derive(Clone, Copy, PartialEq, Eq)]
pub struct Arrays {
    pub table: Table,
    pub lines: Links,
}

// The set of filled places, the last number given, and the running place.
#[derive(Clone, Copy, PartialEq, Eq)]
pub struct Desk {
    pub filled: u64,
    pub last: Number,
    pub running: Place,
}

// The answer to a thread's last finished call. Its code is the document's number, which an image has.
#[derive(Clone, Copy, PartialEq, Eq)]
pub struct Answer {
    pub code: u8,
    pub who: Number,
    pub word: u32,
}

// What a place holds.
#[derive(Clone, Copy, PartialEq, Eq)]
pub struct Thread {
    pub number: Number,
    pub standing: u8,
    pub partner: Number,
    pub word: u32,
    pub answer: Answer,
    pub parent: Number,
}

// The clean value of an empty place.
pub fn vacancy() -> Thread
    ensures { as_thread result ≡ vacant }
{
    Thread {
        number: Number(rules::NOBODY),
        standing: rules::EMPTY,
        partner: Number(rules::NOBODY),
        word: 0,
        answer: Answer {
            code: 0,
            who: Number(rules::NOBODY),
            word: 0,
        },
        parent: Number(rules::NOBODY),
    }
}

impl Table {
    // What the place p holds.
    pub fn read(&self, p: Place) -> Thread
        requires { p.0 < places }
        ensures { as_thread result ≡ thread_of self.now.blocks self.now.words p.0 }
    {
        let at = p.0 as usize;
        Thread {
            number: Number(self.blocks[NUMBER + at]),
            standing: self.blocks[STANDING + at],
            partner: Number(self.blocks[PARTNER + at]),
            word: self.words[WORD + at],
            answer: Answer {
                code: self.blocks[CODE + at],
                who: Number(self.blocks[WHO + at]),
                word: self.words[ANSWER + at],
            },
            parent: Number(self.blocks[PARENT + at]),
        }
    }

    // Does the thread at p receive any or from k?
    pub fn listens(&self, p: Place, k: Number) -> bool
        requires { p.0 < places }
        ensures { result ≡ hears (thread_of self.now.blocks [] p.0) k.0 }
    {
        let at = p.0 as usize;
        if self.blocks[STANDING + at] != rules::RECEIVING {
            return false;
        }
        let partner = self.blocks[PARTNER + at];
        (partner == rules::NOBODY) | (partner == k.0)
    }

    // Does the thread at p await a reply of the number k?
    pub fn awaits(&self, p: Place, k: Number) -> bool
        requires { p.0 < places }
        ensures { result ≡ awaits_of self.now.blocks p.0 k.0 }
    {
        let at = p.0 as usize;
        (self.blocks[STANDING + at] == rules::AWAITING) & (self.blocks[PARTNER + at] == k.0)
    }

    // The fields of the thread at p, one by one: with the row as a parameter there would be one function, and each call of it longer.
    pub fn number_of(&self, p: Place) -> Number
        requires { p.0 < places }
        ensures { result.0 ≡ get_or self.now.blocks (cell 0 p.0) 0 }
    {
        let at = p.0 as usize;
        Number(self.blocks[NUMBER + at])
    }

    pub fn standing_of(&self, p: Place) -> u8
        requires { p.0 < places }
        ensures { result ≡ get_or self.now.blocks (cell 1 p.0) 0 }
    {
        let at = p.0 as usize;
        self.blocks[STANDING + at]
    }

    pub fn partner_of(&self, p: Place) -> Number
        requires { p.0 < places }
        ensures { result.0 ≡ get_or self.now.blocks (cell 2 p.0) 0 }
    {
        let at = p.0 as usize;
        Number(self.blocks[PARTNER + at])
    }

    pub fn parent_of(&self, p: Place) -> Number
        requires { p.0 < places }
        ensures { result.0 ≡ get_or self.now.blocks (cell 5 p.0) 0 }
    {
        let at = p.0 as usize;
        Number(self.blocks[PARENT + at])
    }

    pub fn word_of(&self, p: Place) -> u32
        requires { p.0 < places }
        ensures { result ≡ get_or self.now.words (cell 0 p.0) 0 }
    {
        let at = p.0 as usize;
        self.words[WORD + at]
    }

    // The thread at p stands so from now on.
    pub fn stand(&mut self, p: Place, standing: u8, partner: Number, word: u32)
        requires { p.0 < places }
        ensures { Stood self.old.blocks self.old.words p.0 standing partner.0 word self.new.blocks self.new.words }
    {
        let at = p.0 as usize;
        self.blocks[STANDING + at] = standing;
        self.blocks[PARTNER + at] = partner.0;
        self.words[WORD + at] = word;
    }

    // The answer to the thread at p.
    pub fn tell(&mut self, p: Place, code: u8, who: Number, word: u32)
        requires { p.0 < places }
        ensures { Told self.old.blocks self.old.words p.0 code who.0 word self.new.blocks self.new.words }
    {
        let at = p.0 as usize;
        self.blocks[CODE + at] = code;
        self.blocks[WHO + at] = who.0;
        self.words[ANSWER + at] = word;
    }

    // The number of the thread at p.
    pub fn name(&mut self, p: Place, n: Number)
        requires { p.0 < places }
        ensures { Named self.old.blocks self.old.words p.0 n.0 self.new.blocks self.new.words }
    {
        let at = p.0 as usize;
        self.blocks[NUMBER + at] = n.0;
    }

    // The parent of the thread at p.
    pub fn raise(&mut self, p: Place, n: Number)
        requires { p.0 < places }
        ensures { Raised self.old.blocks self.old.words p.0 n.0 self.new.blocks self.new.words }
    {
        let at = p.0 as usize;
        self.blocks[PARENT + at] = n.0;
    }

    // The place p is cleaned.
    pub fn clean(&mut self, p: Place)
        requires { Sized self.old.blocks self.old.words × (p.0 < places) }
        ensures { Stored self.old.blocks self.old.words p.0 emptied self.new.blocks self.new.words }
    {
        self.name(p, Number(rules::NOBODY));
        self.stand(p, rules::EMPTY, Number(rules::NOBODY), 0);
        self.tell(p, 0, Number(rules::NOBODY), 0);
        self.raise(p, Number(rules::NOBODY));
    }

    // Every place is cleaned.
    pub fn clear(&mut self)
        requires { Sized self.old.blocks self.old.words }
        ensures { Emptied self.new.blocks self.new.words places }
    {
        for p in 0..lines::PLACES as u8 {
            self.clean(Place(p));
        }
    }
}

impl Desk {
    // The place of who runs, if anybody does.
    pub fn runner(self) -> Option<Place>
        ensures { result ≡ place_known self.running.0 }
    {
        if self.running.0 == lines::NONE {
            return None;
        }
        Some(self.running)
    }

    // The desk with p running.
    pub fn turned_to(self, p: Place) -> Desk
        ensures { result ≡ running p.0 self }
    {
        Desk { running: p, ..self }
    }
}

// Does somebody wait for the clock, or at a device?
fn waits(l: &Links) -> bool
    requires { Tidy places line_count l.now }
    ensures { (d : Desk) (b w : List ℕ) → result ≡ waited (shown d b w l.now) }
{
    for q in CLOCK_LINE..INBOX_LINES {
        if lines::first(l, q).is_some() {
            return true;
        }
    }
    false
}

// Who runs next, or why nobody does.
pub fn choose(a: &Arrays, d: Desk) -> Choice
    requires { Legible d a.now.table.blocks a.now.lines }
    ensures { (w : List ℕ) → result ≡ choice (shown d a.now.table.blocks w a.now.lines) }
{
    if let Some(p) = d.runner() {
        return Choice::Run(a.table.number_of(p));
    }
    if filled::count(d.filled) == 0 {
        return Choice::Halt;
    }
    if waits(&a.lines) {
        return Choice::Wait;
    }
    Choice::Stuck
}
