// Vectors of replay: an image, and the log that is replayed on it. The line says the code, the counts, the choice and the image then.
use crate::fields;
use console::{Chosen, ImageOf};
use std::io;

pub fn run(rt: &impl Print, vector: &[u8]) -> io::Result<()> {
    replayed(rt, fields::first(vector), fields::second(vector))
}

fn replayed(rt: &impl Print, bytes: &[u8], log: &[u8]) -> io::Result<()> {
    let r = logging::replay(image::load(bytes).state, log);
    print!(rt;
        "replay {} {} {} {} {}",
        r.code,
        r.records,
        r.bytes,
        Chosen(r.choice),
        ImageOf(r.state)
    )
}
