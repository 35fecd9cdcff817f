// Vectors of recording: an image, the sizes of a log full of one byte, and the record of the event that is recorded there. The line says the answer, the image
// then, and what the log holds.
ghost use Rattle.std.specs.Prelude.{◌≤◌};

use crate::{buffers, fields};
use console::{Chosen, ImageOf};
use journal::Read;
use nucleus::State;
use rules::Event;
use std::io;

// The longest log of a vector. It is over the limit, so that the refusal of such a log is run too.
const ROOM: usize = 40000;

pub fn run(rt: &impl Print, vector: &[u8]) -> io::Result<()> {
    print!(rt; "record ")?;
    tried(
        rt,
        fields::first(vector),
        fields::second(vector),
        fields::third(vector),
    )
}

// The event of a record, recorded in the state of an image. The sizes are the log's room, the byte that it is full of, and the start.
fn tried(rt: &impl Print, image: &[u8], sizes: &[u8], written: &[u8]) -> io::Result<()> {
    let s = image::load(image).state;
    let got = journal::read_at(written, 0);
    let Read::Record { event, next: _ } = got else {
        return print!(rt; "no record");
    };
    let room = fields::number_at(sizes, 0);
    if room > ROOM {
        return print!(rt; "no room");
    }
    logged(
        rt,
        s,
        event,
        room,
        buffers::fill_of(sizes),
        fields::number_at(sizes, 5),
    )
}

// The event is recorded in a log of so much room, full of one byte.
fn logged(
    rt: &impl Print,
    s: State,
    e: Event,
    room: usize,
    fill: u8,
    start: usize,
) -> io::Result<()>
    requires { room ≤ 40000 }
{
    let mut log = [fill; ROOM];
    recorded(rt, s, e, &mut log[..room], fill, start)
}

// `CODE CHOICE NUMBER POSITION IMAGE WROTE kept`.
fn recorded(
    rt: &impl Print,
    s: State,
    e: Event,
    log: &mut [u8],
    fill: u8,
    start: usize,
) -> io::Result<()> {
    let r = logging::record(s, log, start, e);
    print!(rt;
        "{} {} {} {} {} ",
        r.code,
        Chosen(r.choice),
        r.number.0,
        r.position,
        ImageOf(r.state)
    )?;
    buffers::wrote(rt, log, start, r.position)?;
    buffers::kept(rt, log, fill, start, r.position)
}
