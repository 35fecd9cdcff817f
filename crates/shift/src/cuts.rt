// The power fails: the log is cut at each of its bytes, the image loaded and the cut log replayed, and what comes back is compared with what was there.
ghost use Rattle.std.specs.Prelude.{◌<◌, ◌≤◌, length};

use super::book::{self, Mark, Wait};
use nucleus::State;

// Of those that waited before the power failed, how many stood at their place in their line again, with their word.
#[derive(Clone, Copy, Default)]
pub struct Back {
    pub waited: u32,
    pub back: u32,
}

impl Back {
    fn count(&mut self, again: bool) {
        self.waited = self.waited.wrapping_add(1);
        if again {
            self.back = self.back.wrapping_add(1);
        }
    }
}

// What was found over all cuts: how many there were, and how many inside a record; how many brought the state back, with the right counts; the loads, and
// the drivers at a device; and the first cut that failed.
#[derive(Clone, Copy, Default)]
pub struct Found {
    pub cuts: u32,
    pub halves: u32,
    pub good: u32,
    pub loads: Back,
    pub devices: Back,
    pub failed: Option<usize>,
}

impl Found {
    // A cut at a position, behind a whole record that ends at `whole`.
    fn cut(&mut self, good: bool, position: usize, whole: usize) {
        self.cuts = self.cuts.wrapping_add(1);
        if position != whole {
            self.halves = self.halves.wrapping_add(1);
        }
        if good {
            self.good = self.good.wrapping_add(1);
        } else if self.failed.is_none() {
            self.failed = Some(position);
        }
    }

    // What waited at a place, and what waits there again.
    fn place(&mut self, then: Option<Wait>, now: Option<Wait>) {
        let Some(wait) = then else {
            return;
        };
        if wait.at_device() {
            self.devices.count(then == now);
        } else {
            self.loads.count(then == now);
        }
    }
}

// The log cut at every byte, 0 to its length.
pub fn all(image: &[u8], log: &[u8], marks: &[Mark; book::MARKS]) -> Found {
    let mut f = Found::default();
    let mut i = 0;
    for k in 0..=log.len() {
        i = whole_at(marks, i, k);
        cut(&mut f, image, &log[..k], &marks[i], i);
    }
    f
}

// How many records are whole before a cut, from those before the cut a byte earlier: a record has a byte at least.
fn whole_at(marks: &[Mark], i: usize, k: usize) -> usize
    requires { i < length marks.now }
    ensures { result < length marks.now }
{
    match marks.get(i + 1) {
        Some(next) if next.position <= k => i + 1,
        _ => i,
    }
}

// The image is loaded and a cut log replayed, of which i records are whole. There was `then` behind them.
fn cut(f: &mut Found, image: &[u8], log: &[u8], then: &Mark, i: usize) {
    let r = logging::replay(image::load(image).state, log);
    let right = told(r.code, r.records, r.bytes, i, then.position, log.len());
    f.cut(right && then.is(r.state), log.len(), then.position);
    for (wait, now) in then.waits.iter().zip(&book::waits_of(r.state)) {
        f.place(*wait, *now);
    }
}

// Does replay tell the records and bytes that were whole, and that it met half a record, if it did?
fn told(code: u8, records: u32, bytes: u32, i: usize, at: usize, k: usize) -> bool {
    if records as usize != i || bytes as usize != at {
        return false;
    }
    if at == k {
        return code == rules::codes::DONE;
    }
    code == rules::codes::CUT_SHORT
}
