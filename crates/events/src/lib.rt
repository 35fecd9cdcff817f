// What the cores of the events give and promise (`Did`). The cores themselves are in `talk` and `life`; dispatch comes after them, once for all (`threads`).
// The rules that they are held to are in crate `rules`.
#![tactic(auto)]

ghost use Rattle.std.specs.Prelude.{◌≡◌};
ghost use Rattle.events.specs.Events.{done_at, answered};

use rules::Number;
use table::Desk;

// What comes of an event that is accepted: the desk, and the number given, NOBODY where none is. Of one that is not, a core gives the refusal.
#[derive(Clone, Copy)]
pub struct Done {
    pub desk: Desk,
    pub number: Number,
}

// What comes of an event, accepted or not: its code, the desk, and the number given, NOBODY where none is.
#[derive(Clone, Copy)]
pub struct Outcome {
    pub code: u8,
    pub desk: Desk,
    pub number: Number,
}

impl Done {
    // An event that is done and gives no number leaves this desk.
    pub fn at(desk: Desk) -> Done
        ensures { result ≡ done_at desk }
    {
        Done {
            desk,
            number: Number(rules::NOBODY),
        }
    }
}

// An outcome that gives no number.
pub fn answer(code: u8, desk: Desk) -> Outcome
    ensures { result ≡ answered code desk }
{
    Outcome {
        code,
        desk,
        number: Number(rules::NOBODY),
    }
}
