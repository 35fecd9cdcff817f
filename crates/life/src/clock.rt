// Events 6, 7 and 8: wait for the clock, slice end, tick.
ghost use Rattle.std.specs.Prelude.{◌<◌};
ghost use Rattle.rules.specs.Model.{line_count, ready, clock};
ghost use Rattle.rules.specs.declared.Event.TheVariants.{WaitClock, SliceEnd, Tick};
ghost use Rattle.table.specs.Cells.{WholeIn, StandsIn};
ghost use Rattle.verbs.specs.Steps.{StepsIn};
ghost use Rattle.events.specs.Events.{DidIn};
ghost use Rattle.life.specs.Drain.{FirstIn, drains};
ghost use Rattle.life.specs.Clock.{rings};

use events::Done;
use rules::{Number, Place, Refusal, codes};
use table::{Arrays, Desk};

// 6. The caller joins the back of the clock queue.
pub fn wait_clock(a: &mut Arrays, d: Desk) -> Result<Done, Refusal>
    requires { StandsIn d a.old }
    ensures { DidIn d a.old WaitClock result a.new }
{
    let Some(p) = d.runner() else {
        return Err(Refusal::Idle);
    };
    a.table.stand(p, rules::WAITING, Number(rules::NOBODY), 0);
    lines::join(&mut a.lines, table::CLOCK_LINE, p.0);
    Ok(Done::at(d.turned_to(Place(lines::NONE))))
}

// 7. The running thread goes to the back of ready. With none running, nothing changes.
pub fn slice_end(a: &mut Arrays, d: Desk) -> Result<Done, Refusal>
    requires { StandsIn d a.old }
    ensures { DidIn d a.old SliceEnd result a.new }
{
    let Some(p) = d.runner() else {
        return Ok(Done::at(d));
    };
    verbs::ready(a, p);
    Ok(Done::at(d.turned_to(Place(lines::NONE))))
}

// Wakes the first of line q, the clock's or a device's, with this word. False where nobody stands in it.
pub fn ring(a: &mut Arrays, q: u8, word: u32) -> bool
    requires { WholeIn a.old × (ready < q) × (q < line_count) }
    ensures { FirstIn (rings word) q a.old a.new result }
{
    let Some(p) = lines::pop(&mut a.lines, q) else {
        return false;
    };
    verbs::wake(a, Place(p), codes::DONE, Number(rules::NOBODY), word);
    true
}

// Wakes all clock waiters, first come first.
fn ring_all(a: &mut Arrays)
    requires { WholeIn a.old }
    ensures { StepsIn a.old a.new (drains (rings 0) clock) }
{
    while ring(a, table::CLOCK_LINE, 0) {}
}

// 8. All clock waiters join ready in order.
pub fn tick(a: &mut Arrays, d: Desk) -> Result<Done, Refusal>
    requires { StandsIn d a.old }
    ensures { DidIn d a.old Tick result a.new }
{
    ring_all(a);
    Ok(Done::at(d))
}
