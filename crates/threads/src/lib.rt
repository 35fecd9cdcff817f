// Level 3: the ten events on the lent arrays, changed in place.
#![tactic(auto)]

ghost use Rattle.table.specs.Cells.{StandsIn};
ghost use Rattle.events.specs.Events.{DidIn};
ghost use Rattle.threads.specs.Ran.{RanIn};

use events::{Done, Outcome, answer};
use rules::{Event, Refusal, codes};
use table::{Arrays, Desk};

// The core of the event e.
fn act(a: &mut Arrays, d: Desk, e: Event) -> Result<Done, Refusal>
    requires { StandsIn d a.old }
    ensures { DidIn d a.old e result a.new }
{
    match e {
        Event::Create => life::create::create(a, d),
        Event::Send { to, word } => talk::send::send(a, d, to, word),
        Event::Receive { from } => talk::receive::receive(a, d, from),
        Event::Reply { to, word } => talk::reply::reply(a, d, to, word),
        Event::End { thread } => life::end::end(a, d, thread),
        Event::WaitClock => life::clock::wait_clock(a, d),
        Event::SliceEnd => life::clock::slice_end(a, d),
        Event::Tick => life::clock::tick(a, d),
        Event::WaitDevice { device } => life::device::wait_device(a, d, device),
        Event::Interrupt { pending, status } => life::device::interrupt(a, d, pending, status),
    }
}

// The event e happens. After one that is accepted, if nobody runs and ready is not empty, its front runs.
pub fn run(a: &mut Arrays, d: Desk, e: Event) -> Outcome
    requires { StandsIn d a.old }
    ensures { RanIn d a.old e result a.new }
{
    match act(a, d, e) {
        Ok(done) => Outcome {
            code: codes::DONE,
            desk: verbs::dispatch(a, done.desk),
            number: done.number,
        },
        Err(refusal) => answer(refusal.code(), d),
    }
}
