// The image of a state, for whoever uses it: saved into a lent buffer (`saving`), loaded from any bytes (`loading`), loaded from a build with the old rules
// (`updating`), and, here, a thread's part of it looked up by number.
#![tactic(auto)]

ghost use Rattle.image.specs.Locates.{Locates};
ghost use Rattle.image.specs.Sees.{Sees, Lies};

use rules::Number;

mod look;

pub use loading::{Loaded, load};
pub use saving::{LONGEST, Saved, keep, save};
pub use updating::update;

// Where a thread's body stands in an image, with code 0. With load's own code where load refuses the image, or 4 where the number is not live in it, there is
// no body, and offset and length are 0. (The code is a number beside them, and not an enum, since the documents promise these three.)
#[derive(Clone, Copy)]
pub struct Part {
    pub code: u8,
    pub offset: usize,
    pub length: usize,
}

// Where the body of the thread with the number n, with its inbox, stands in the image. Any bytes may come.
pub fn locate(image: &[u8], n: Number) -> Part
    ensures { Locates image.now n.0 result.code result.offset result.length }
{
    look::part_of(image, n)
}

// The body of the thread with the number n, with its inbox: a part of the caller's own image. An empty part where load refuses the image, or nobody in it
// has the number.
pub fn look_up(image: &[u8], n: Number) -> &[u8]
    ensures { Sees image.now n.0 result.now × Lies image.now n.0 image.entry.ref_ptr result.ref_ptr result.now }
{
    let part = look::part_of(image, n);
    let from = part.offset;
    let to = from + part.length;
    &image[from..to]
}
