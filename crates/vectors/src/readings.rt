// Vectors of the reader: a log, and a position from which it is read once. The line says the code, the record's bytes and the position then.
use crate::fields;
use console::Hex;
use journal::Read;
use std::io;

pub fn run(rt: &impl Print, vector: &[u8]) -> io::Result<()> {
    print!(rt; "reader ")?;
    reading(
        rt,
        fields::first(vector),
        fields::number_at(fields::second(vector), 0),
    )
}

fn reading(rt: &impl Print, log: &[u8], at: usize) -> io::Result<()> {
    let r = reader::read_from(log, at);
    print!(rt; "{} ", r.got.code())?;
    record(rt, r.got, log, at)?;
    print!(rt; " {}", r.at)
}

// The bytes of the record that was read at a position, or `-` where none was.
fn record(rt: &impl Print, got: Read, log: &[u8], at: usize) -> io::Result<()> {
    let Read::Record { event: _, next } = got else {
        return print!(rt; "-");
    };
    print!(rt; "{}", Hex(log.get(at..next).unwrap_or(&[])))
}
