// Runs outside vectors: a line for each says its kind and what is answered. vectors FILE: needs a file of vectors, crates/vectors/data/vectors or one like it.
#![tactic(auto)]

ghost use Rattle.std.specs.Prelude.{◌≡◌, length};

use std::io;
use std::rt::{Env, Files};

mod buffers;
mod fields;
mod loads;
mod readings;
mod records;
mod replays;
mod reports;

// The kinds of vectors, as vectors/make.py has them.
#[derive(Clone, Copy)]
enum Kind {
    Load,
    Replay,
    Record,
    Reader,
    Depot,
}

// A byte that names no kind.
#[derive(Clone, Copy)]
struct UnknownKind;

impl TryFrom<u8> for Kind {
    type Error = UnknownKind;

    fn try_from(byte: u8) -> Result<Self, UnknownKind> {
        match byte {
            1 => Ok(Kind::Load),
            2 => Ok(Kind::Replay),
            3 => Ok(Kind::Record),
            4 => Ok(Kind::Reader),
            5 => Ok(Kind::Depot),
            _ => Err(UnknownKind),
        }
    }
}

// A file of vectors is no longer than this: a third more than what vectors/make.py makes of its tables.
const ROOM: usize = 524288;

fn main(rt: HostRuntime) -> io::Result<()> {
    if console::arg_count(&rt) != 2 {
        console::complain(&rt, b"usage: vectors FILE (crates/vectors/data/vectors)\n");
        return Ok(());
    }
    from_file(&rt)
}

fn from_file(rt: &(impl Env + Files + Print + Eprint)) -> io::Result<()> {
    let mut buffer = blank();
    lent(rt, &mut buffer)
}

// A buffer with nothing in it. Its length is all that a caller needs to know, and the checker would go through it byte for byte.
fn blank() -> [u8; ROOM + 1]
    ensures { 524289 ≡ length result }
{
    [0; ROOM + 1]
}

// The file's vectors, where the buffer has room for it. It has room for one byte more than may be in it.
fn lent(rt: &(impl Env + Files + Print + Eprint), buffer: &mut [u8]) -> io::Result<()> {
    let Some(n) = console::file(rt, 1, buffer) else {
        return Ok(());
    };
    if n > ROOM {
        console::complain(
            rt,
            b"vectors: the file is longer than there is room for (ROOM in crates/vectors/src/main.rt)\n",
        );
        return Ok(());
    }
    all(rt, &buffer[..n])
}

// The vectors, one after the other: a byte for the kind, and a field. Behind a kind that nobody knows nothing can be believed, so that ends them.
fn all(rt: &(impl Print + Eprint), bytes: &[u8]) -> io::Result<()> {
    let mut left = bytes;
    while let Some((byte, rest)) = left.split_first() {
        let Some((vector, behind)) = fields::split(rest) else {
            console::complain(rt, b"vectors: the file ends inside a vector\n");
            return Ok(());
        };
        let Ok(kind) = Kind::try_from(*byte) else {
            console::complain(rt, b"vectors: a vector is of no known kind\n");
            return Ok(());
        };
        run(rt, kind, vector)?;
        left = behind;
    }
    Ok(())
}

// The line of a vector.
fn run(rt: &impl Print, kind: Kind, vector: &[u8]) -> io::Result<()> {
    match kind {
        Kind::Load => loads::run(rt, vector)?,
        Kind::Replay => replays::run(rt, vector)?,
        Kind::Record => records::run(rt, vector)?,
        Kind::Reader => readings::run(rt, vector)?,
        Kind::Depot => reports::run(rt, vector)?,
    }
    println!(rt)
}
