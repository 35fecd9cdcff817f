// What the shift had after each recorded event, kept as it went by: the position in the log, the image, and what waited at each place. What a cut log
// brings back is compared with this, and not with a second replay.
ghost use Rattle.std.specs.Prelude.{◌<◌};
ghost use Rattle.lists.specs.Sizes.{places};

use super::{crew, pit};
use nucleus::State;
use rules::Place;
use table::Thread;

// The events that are recorded.
pub const EVENTS: usize = 200;

// Room for what was there before the first of them and after each.
pub const MARKS: usize = EVENTS + 1;

// Who waits at a place: a driver with a load, or at a device, whose index is then the partner. Behind it in its line stands the place `next`.
#[derive(Clone, Copy, PartialEq, Eq)]
pub struct Wait {
    standing: u8,
    number: u8,
    partner: u8,
    next: u8,
    word: u32,
}

impl Wait {
    pub fn at_device(self) -> bool {
        self.standing == rules::AT_DEVICE
    }
}

type Waits = [Option<Wait>; lines::PLACES];

// Who waits at each place.
pub fn waits_of(s: State) -> Waits {
    let mut waits = [None; lines::PLACES];
    for p in 0..lines::PLACES as u8 {
        waits[usize::from(p)] = wait_at(s, Place(p));
    }
    waits
}

fn wait_at(s: State, p: Place) -> Option<Wait>
    requires { p.0 < places }
{
    let t = s.thread(p);
    if !loads(t.standing) && t.standing != rules::AT_DEVICE {
        return None;
    }
    Some(Wait {
        standing: t.standing,
        number: t.number.0,
        partner: t.partner.0,
        next: s.arrays.lines[usize::from(p.0)],
        word: t.word,
    })
}

// Does a thread of this standing wait with a load: in an inbox, or for the reply?
fn loads(standing: u8) -> bool {
    standing == rules::SENDING || standing == rules::AWAITING
}

// How many loads wait, how many drivers at the scale and at the keypad, and how many displays there are. No count here wraps, unless a shift were longer than
// any log.
#[derive(Clone, Copy, Default)]
pub struct Waiters {
    pub loads: u32,
    pub scale: u32,
    pub keypad: u32,
    pub displays: u32,
}

impl Waiters {
    fn add(&mut self, t: Thread) {
        if crew::display(t) {
            self.displays = self.displays.wrapping_add(1);
        } else if loads(t.standing) {
            self.loads = self.loads.wrapping_add(1);
        } else if pit::waits_at(t, pit::scale()) {
            self.scale = self.scale.wrapping_add(1);
        } else if pit::waits_at(t, pit::keypad()) {
            self.keypad = self.keypad.wrapping_add(1);
        }
    }
}

pub fn waiting(s: State) -> Waiters {
    let mut w = Waiters::default();
    for p in 0..lines::PLACES as u8 {
        w.add(s.thread(Place(p)));
    }
    w
}

// What there was at a position of the log.
#[derive(Clone, Copy)]
pub struct Mark {
    pub position: usize,
    pub waits: Waits,
    image: [u8; image::LONGEST],
}

impl Mark {
    pub fn of(s: State, position: usize) -> Mark {
        let mut image = [0u8; image::LONGEST];
        image::save(s, &mut image);
        Mark {
            position,
            waits: waits_of(s),
            image,
        }
    }

    // Is the state the one that there was, by its image?
    pub fn is(&self, s: State) -> bool {
        let mut image = [0u8; image::LONGEST];
        let r = image::save(s, &mut image);
        r.code == rules::codes::DONE && image == self.image
    }
}
