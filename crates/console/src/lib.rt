// What the programs share: their arguments, reading the file or standard input, and printing what an event answers. What is printed is not proved, but compared
// with stored output.
#![tactic(auto)]

ghost use Rattle.std.specs.Prelude.{◌≡◌, IfSome, take};
ghost use Rattle.std.specs.Io.{ReadsAtMost};
ghost use Rattle.std.specs.Counts.{IsPrefixLen};

use nucleus::State;
use rules::{Choice, Number};
use std::env::FillError;
use std::fmt::InlineText;
use std::io::{ErrorKind, Read};
use std::rt::{Env, Files};
use std::{fmt, fs, io, str};

// Room for any path that the system takes.
pub const PATH_MAX: usize = 4096;

// The system's numbers of its errors: there is no such argument, an argument is too long, and a name is no text.
const INVALID: i32 = 22;

const TOO_LONG: i32 = 36;

const NO_TEXT: i32 = 84;

// Bytes that are mostly text, as a file's name is. What is no text in them shows as U+FFFD.
#[derive(Clone, Copy)]
struct Lossy<'a>(&'a [u8]);

impl<'a> fmt::Display for Lossy<'a> {
    fn fmt<W: fmt::Write>(&self, f: &mut fmt::Formatter<W>) -> fmt::Result {
        for chunk in self.0.utf8_chunks() {
            f.write_str(chunk.valid())?;
            if !chunk.invalid().is_empty() {
                f.write_char('\u{fffd}')?;
            }
        }
        Ok(())
    }
}

// What is wrong, which goes to standard error. What is no text in it shows as U+FFFD. Where this cannot be written either, there is nobody left to tell.
pub fn complain(rt: &impl Eprint, what: &[u8]) {
    let _ = rt.eprint(Lossy(what));
}

// What failed, which goes to standard error with the system's reason.
pub fn fail(rt: &impl Eprint, what: &[u8], error: io::Error) {
    let reason = InlineText::<96>::of(error);
    let _ = eprintln!(rt; "{}: {}", Lossy(what), words(reason.as_str()));
}

// A reason without the number that std puts behind the system's words.
fn words(reason: &str) -> &str {
    reason
        .split_once(" (os error ")
        .map_or(reason, |(words, _)| words)
}

// The first n bytes, as far as there are.
pub fn front(bytes: &[u8], n: usize) -> &[u8]
    ensures { result.now ≡ take n bytes.now }
{
    bytes.get(..n).unwrap_or(bytes)
}

// Bytes, as two hexadecimal digits each.
#[derive(Clone, Copy)]
pub struct Hex<'a>(pub &'a [u8]);

impl<'a> fmt::Display for Hex<'a> {
    fn fmt<W: fmt::Write>(&self, f: &mut fmt::Formatter<W>) -> fmt::Result {
        for x in self.0 {
            write!(f, "{x:02x}")?;
        }
        Ok(())
    }
}

// The image of a state, in hexadecimal digits.
#[derive(Clone, Copy)]
pub struct ImageOf(pub State);

impl fmt::Display for ImageOf {
    fn fmt<W: fmt::Write>(&self, f: &mut fmt::Formatter<W>) -> fmt::Result {
        let mut buffer = [0u8; image::LONGEST];
        let r = image::save(self.0, &mut buffer);
        write!(f, "{}", Hex(front(&buffer, r.length)))
    }
}

// A choice: `run N`, `halt`, `wait` or `stuck`.
#[derive(Clone, Copy)]
pub struct Chosen(pub Choice);

impl fmt::Display for Chosen {
    fn fmt<W: fmt::Write>(&self, f: &mut fmt::Formatter<W>) -> fmt::Result {
        match self.0 {
            Choice::Run(n) => write!(f, "run {}", n.0),
            Choice::Halt => f.write_str("halt"),
            Choice::Wait => f.write_str("wait"),
            Choice::Stuck => f.write_str("stuck"),
        }
    }
}

// `CODE CHOICE NUMBER`, and the line's end.
pub fn answer(rt: &impl Print, code: u8, choice: Choice, number: Number) -> io::Result<()> {
    println!(rt; "{code} {} {}", Chosen(choice), number.0)
}

// How many arguments the program was started with, its own name among them.
pub fn arg_count(rt: &impl Env) -> usize {
    for i in 0..usize::MAX {
        if let Err(FillError::NotPresent) = rt.arg(i, &mut []) {
            return i;
        }
    }
    usize::MAX
}

// Puts argument i at the start of the buffer, and says how long it is. Of one that is too long the first bytes are there.
pub fn argument(rt: &impl Env, i: usize, buffer: &mut [u8]) -> io::Result<usize>
    ensures { ReadsAtMost result buffer.new }
{
    rt.arg(i, buffer).map_err(|e| {
        io::Error::from_raw_os_error(match e {
            FillError::NotPresent => INVALID,
            FillError::TooLong => TOO_LONG,
        })
    })
}

// Standard input, as far as the buffer goes: how many bytes, at its start. None where reading failed, which has been said then. So it is with whatever is read
// here.
pub fn input(rt: &(impl Input + Eprint), buffer: &mut [u8]) -> Option<usize>
    ensures { IfSome result (λ n. IsPrefixLen n buffer.new) }
{
    let mut reader = rt.reader();
    said(rt, b"standard input", read(&mut reader, buffer))
}

// The file that argument i names, as far as the buffer goes. A name that is too long is not cut, since what is left of it would name another file.
pub fn file(rt: &(impl Env + Files + Eprint), i: usize, buffer: &mut [u8]) -> Option<usize>
    ensures { IfSome result (λ n. IsPrefixLen n buffer.new) }
{
    let mut name = [0u8; PATH_MAX];
    match argument(rt, i, &mut name) {
        Ok(n) => said(rt, &name[..n], named(rt, &name[..n], buffer)),
        Err(e) => said(rt, &name, Err(e)),
    }
}

// The file of that name, as far as the buffer goes. One that is missing counts as empty.
pub fn if_there(rt: &(impl Files + Eprint), name: &[u8], buffer: &mut [u8]) -> Option<usize>
    ensures { IfSome result (λ n. IsPrefixLen n buffer.new) }
{
    match open(rt, name) {
        Ok(mut file) => said(rt, name, read(&mut file, buffer)),
        Err(e) if e.kind() == ErrorKind::NotFound => Some(0),
        Err(e) => said(rt, name, Err(e)),
    }
}

fn named(rt: &impl Files, name: &[u8], buffer: &mut [u8]) -> io::Result<usize>
    ensures { ReadsAtMost result buffer.new }
{
    let mut file = open(rt, name)?;
    read(&mut file, buffer)
}

// The file or folder of that name, open for reading. A name that is no text names none here.
pub fn open<R: Files>(rt: &R, name: &[u8]) -> io::Result<R::File> {
    let path = str::from_utf8(name).map_err(|_| io::Error::from_raw_os_error(NO_TEXT))?;
    fs::open(rt, path)
}

// All that an open file has, as far as the buffer goes.
fn read(file: &mut impl Read, buffer: &mut [u8]) -> io::Result<usize>
    ensures { ReadsAtMost result buffer.new }
{
    let mut done = 0;
    while done < buffer.len() {
        let n = file.read(&mut buffer[done..])?;
        if n == 0 {
            break;
        }
        done += n;
    }
    Ok(done)
}

// What could not be read is said, with the reason.
fn said(rt: &impl Eprint, name: &[u8], got: io::Result<usize>) -> Option<usize>
    ensures { IfSome result (λ n. got ≡ Ok n) }
{
    match got {
        Ok(n) => Some(n),
        Err(e) => {
            fail(rt, name, e);
            None
        }
    }
}
