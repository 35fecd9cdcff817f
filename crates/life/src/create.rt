// Event 1: create.
ghost use Rattle.std.specs.Prelude.{◌≡◌, ◌<◌};
ghost use Rattle.rules.specs.Model.{places};
ghost use Rattle.rules.specs.declared.Event.TheVariants.{Create};
ghost use Rattle.table.specs.Cells.{StandsIn};
ghost use Rattle.events.specs.Events.{DidIn};
ghost use Rattle.bits.specs.Set.{Adds};
ghost use Rattle.verbs.specs.Address.{Seated};
ghost use Rattle.life.specs.Create.{number_at};
ghost use Rattle.life.specs.Number.{bars_at, bars, free_after};

use bits::Set;
use events::Done;
use rules::{Number, Place, Refusal};
use table::{Arrays, Desk, Table};

// The numbers that the place p bars come into the set: its thread's, and the one that the thread's answer names.
fn bar(t: &Table, p: Place, s: &mut Set)
    requires { p.0 < places }
    ensures { Adds s.old (λ n. bars_at t.now.blocks n p.0) s.new }
{
    let at = p.0 as usize;
    if t.blocks[table::STANDING + at] == rules::EMPTY {
        return;
    }
    bits::insert(s, Number(t.blocks[table::NUMBER + at]));
    bits::insert(s, Number(t.blocks[table::WHO + at]));
}

// The numbers that any place bars come into the set.
fn gather(t: &Table, s: &mut Set)
    ensures { Adds s.old (bars t.now.blocks) s.new }
{
    for p in 0..lines::PLACES as u8 {
        bar(t, Place(p), s);
    }
}

// The first number after `last` that is not barred.
fn next_number(t: &Table, last: Number) -> Number
    ensures { result.0 ≡ free_after t.now.blocks last.0 }
{
    let mut s = bits::empty();
    gather(t, &mut s);
    bits::next_clear(&s, last)
}

// The number that runs, which becomes the newcomer's parent. Nobody's where nobody runs.
fn creator(t: &Table, d: Desk) -> Number
    requires { Seated d }
    ensures { result.0 ≡ number_at t.now.blocks d.running.0 }
{
    match d.runner() {
        Some(p) => t.number_of(p),
        None => Number(rules::NOBODY),
    }
}

// 1. The lowest empty place takes a thread with the next number that is not barred and whoever runs as its parent, which joins the back of ready.
pub fn create(a: &mut Arrays, d: Desk) -> Result<Done, Refusal>
    requires { StandsIn d a.old }
    ensures { DidIn d a.old Create result a.new }
{
    if filled::count(d.filled) == lines::PLACES as u8 {
        return Err(Refusal::Full);
    }
    let p = filled::lowest(d.filled);
    let n = next_number(&a.table, d.last);
    let parent = creator(&a.table, d);
    verbs::seat(a, Place(p), n, parent);
    Ok(Done {
        desk: Desk {
            filled: filled::with(d.filled, p),
            last: n,
            ..d
        },
        number: n,
    })
}
