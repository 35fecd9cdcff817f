// Plays a shift in a pit, of drivers and their displays, a radio, a scale and a keypad, fails the power at every byte of its log, and says whether each waiting
// load, and each driver at the scale or the keypad, came back to its place.
#![tactic(auto)]

use book::Mark;
use std::io;

mod book;
mod crew;
mod cuts;
mod day;
mod pit;
mod report;

// The log's buffer: a record has 11 bytes at most.
const LOG: usize = 11 * book::EVENTS;

fn main(rt: HostRuntime) -> io::Result<()> {
    let mut image = [0u8; image::LONGEST];
    let mut log = [0u8; LOG];
    let morning = day::morning();
    let saved = image::save(morning.state, &mut image);
    let mut marks = [Mark::of(morning.state, 0); book::MARKS];
    let evening = day::rest(morning, &mut log, &mut marks);
    let end = evening.position;
    report::played(&rt, evening, saved.length, end)?;
    let image = console::front(&image, saved.length);
    let log = console::front(&log, end);
    let found = cuts::all(image, log, &marks);
    report::failed(&rt, found, end)?;
    report::half(&rt, image, log)
}
