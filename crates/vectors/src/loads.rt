// Vectors of load, of looking up, and of the update load: an image, and numbers. The line says load's code, the image saved again, the choice, and the part
// of each number; then the update's code, and the image of the state that it gives.
use crate::fields;
use console::{Chosen, Hex, ImageOf};
use rules::Number;
use std::io;

pub fn run(rt: &impl Print, vector: &[u8]) -> io::Result<()> {
    let image = fields::first(vector);
    loaded(rt, image)?;
    looked(rt, image, fields::second(vector))?;
    updated(rt, image)
}

fn loaded(rt: &impl Print, bytes: &[u8]) -> io::Result<()> {
    let r = image::load(bytes);
    let s = r.state;
    print!(rt; "load {} {} {} ", r.code, ImageOf(s), Chosen(s.choice()))
}

// Each number, and the part that it has.
fn looked(rt: &impl Print, bytes: &[u8], numbers: &[u8]) -> io::Result<()> {
    for (i, n) in numbers.iter().enumerate() {
        if i > 0 {
            print!(rt; ",")?;
        }
        print!(rt; "{n}:{}", Hex(image::look_up(bytes, Number(*n))))?;
    }
    Ok(())
}

// A refused update gives the fresh state, so there is an image for every vector.
fn updated(rt: &impl Print, bytes: &[u8]) -> io::Result<()> {
    let r = image::update(bytes);
    print!(rt; " {} {}", r.code, ImageOf(r.state))
}
