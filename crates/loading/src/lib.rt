// Loading: the state of which any bytes are the image, or the code of why there is none.
#![tactic(auto)]

ghost use Rattle.loading.specs.Loads.{LoadsBy, Loads, LoadsOld};

use nucleus::State;

pub mod bytes;
mod judge;
mod read;

pub use judge::row_at;

// What load answers: document 01's code, and the state. (They stand beside each other, and in no Result, since a refusal gives a state too, the fresh one:
// `Loads`.)
#[derive(Clone, Copy)]
pub struct Loaded {
    pub code: u8,
    pub state: State,
}

// The state of which the bytes are the image. Any bytes may come. Where strict is false, the old rules say what is consistent.
fn load_by(strict: bool, image: &[u8]) -> Loaded
    ensures { LoadsBy strict image.now result }
{
    match judge::head(image) {
        Ok(row) => judge::judge(strict, row, image),
        Err(code) => judge::refuse(code),
    }
}

// The state of which the bytes are the image. Any bytes may come.
pub fn load(image: &[u8]) -> Loaded
    ensures { Loads image.now result }
{
    load_by(true, image)
}

// The same by the old rules: what comes of it may have receivers that name a dead thread. The update load starts from there.
pub fn load_old(image: &[u8]) -> Loaded
    ensures { LoadsOld image.now result }
{
    load_by(false, image)
}
