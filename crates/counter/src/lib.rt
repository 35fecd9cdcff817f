// The counter of numbers (document 01, "The image and the log"): a struct of one field, lent and changed in place. What a step comes to is `successor`'s to say.
#![tactic(auto)]

ghost use Rattle.std.specs.Prelude.{◌≡◌};
ghost use Rattle.rules.specs.Rules.{successor as successorOf};
ghost use Rattle.counter.specs.Step.{Advances};

use rules::Number;

// The last number given.
#[derive(Clone, Copy)]
pub struct Counter {
    pub last: Number,
}

// The counter steps to its successor, and from 253 or above to 0: 254 is no number, and 255 is nobody.
pub fn successor(n: Number) -> Number
    ensures { result.0 ≡ successorOf n.0 }
{
    if n.0 < rules::LAST_NUMBER {
        return Number(n.0 + 1);
    }
    Number(0)
}

// Advances the counter lent, and gives the number that it comes to. The one before is in use, or was.
pub fn next(c: &mut Counter) -> Number
    ensures { Advances c.old c.new result }
{
    let n = successor(c.last);
    c.last = n;
    n
}

// The number after the last one given, for callers that hold that themselves, as create's search does: a counter is made of it, lent to `next`, and read back.
pub fn step(last: Number) -> Number
    ensures { result.0 ≡ successorOf last.0 }
{
    let mut c = Counter { last };
    next(&mut c);
    c.last
}
