// Vectors of the depot's report: an image, a log, and the sizes of a buffer full of one byte. The line says the code, the length, the text and what the buffer
// holds behind it.
ghost use Rattle.std.specs.Prelude.{◌≤◌};

use crate::{buffers, fields};
use std::io;

// The longest buffer of a vector. It is longer than any report.
const ROOM: usize = 4096;

pub fn run(rt: &impl Print, vector: &[u8]) -> io::Result<()> {
    print!(rt; "depot ")?;
    tried(
        rt,
        fields::first(vector),
        fields::second(vector),
        fields::third(vector),
    )
}

// The sizes are the buffer's room, and the byte that it is full of.
fn tried(rt: &impl Print, image: &[u8], log: &[u8], sizes: &[u8]) -> io::Result<()> {
    let room = fields::number_at(sizes, 0);
    if room > ROOM {
        return print!(rt; "no room");
    }
    lent(rt, image, log, room, buffers::fill_of(sizes))
}

// The report goes into a buffer of so much room, full of one byte.
fn lent(rt: &impl Print, image: &[u8], log: &[u8], room: usize, fill: u8) -> io::Result<()>
    requires { room ≤ 4096 }
{
    let mut buffer = [fill; ROOM];
    reported(rt, image, log, &mut buffer[..room], fill)
}

// `CODE LENGTH TEXT kept`.
fn reported(rt: &impl Print, image: &[u8], log: &[u8], out: &mut [u8], fill: u8) -> io::Result<()> {
    let t = depot::report(image, log, out);
    let n = usize::from(t.length);
    print!(rt; "{} {n} ", t.code)?;
    buffers::wrote(rt, out, 0, n)?;
    buffers::kept(rt, out, fill, 0, n)
}
