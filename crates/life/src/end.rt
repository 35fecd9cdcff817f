// Event 5: end.
ghost use Rattle.std.specs.Prelude.{◌≡◌, true, suc, ◌<◌, ◌≤◌};
ghost use Rattle.lists.specs.Lists.{known};
ghost use Rattle.lines.specs.Lines.{line_of, Loose};
ghost use Rattle.rules.specs.Model.{places, line_count, last_number, lives_at};
ghost use Rattle.rules.specs.Rules.{awaiting, listening, out_of_line, end_at, end_one, end_down};
ghost use Rattle.rules.specs.declared.Event.TheVariants.{End};
ghost use Rattle.order.specs.Sound.{Sound};
ghost use Rattle.order.specs.HandBack.{let_step};
ghost use Rattle.order.specs.Recursion.{MayEnd};
ghost use Rattle.table.specs.Cells.{shown_in, WholeIn, StandsIn};
ghost use Rattle.verbs.specs.Steps.{StepsIn, TurnsIn};
ghost use Rattle.events.specs.Events.{DidIn};
ghost use Rattle.life.specs.Drain.{FirstIn, drains};
ghost use Rattle.life.specs.HandBack.{backs};
ghost use Rattle.life.specs.LetGo.{SoundIn, let_from};
ghost use Rattle.life.specs.Leave.{line_in, Served};
ghost use Rattle.life.specs.End.{EndsIn};
ghost use Rattle.life.specs.Family.{TalliedIn, EmptiesIn, if_child};

use events::Done;
use rules::{Number, Place, Refusal, codes};
use table::{Arrays, Desk, Table};
use verbs::address::find;

// p, which stands in no line and waited for the thread n that ends, gets its own word back and joins ready.
fn give_back(a: &mut Arrays, n: Number, p: Place)
    requires { WholeIn a.old × (p.0 < places) × Loose line_count (line_of places a.old.lines) p.0 }
    ensures { StepsIn a.old a.new (backs n.0 p.0) }
{
    let word = a.table.word_of(p);
    verbs::wake(a, p, codes::ENDED, n, word);
}

// The first in line q, the inbox of the thread n that ends, gets its own word back. False where nobody stands there.
fn hand_back(a: &mut Arrays, n: Number, q: u8) -> bool
    requires { WholeIn a.old × (0 < q) × (q < line_count) }
    ensures { FirstIn (backs n.0) q a.old a.new result }
{
    let Some(p) = lines::pop(&mut a.lines, q) else {
        return false;
    };
    give_back(a, n, Place(p));
    true
}

// All in line q, the inbox of the thread n that ends, get their own word back, front to back.
fn hand_all_back(a: &mut Arrays, n: Number, q: u8)
    requires { WholeIn a.old × (0 < q) × (q < line_count) }
    ensures { StepsIn a.old a.new (drains (backs n.0) q) }
{
    while hand_back(a, n, q) {}
}

// The thread at p gets its own word back if it awaits a reply of the number n, which ends. Nothing changes if it does not.
fn let_one(a: &mut Arrays, n: Number, p: Place)
    requires { SoundIn a.old × (n.0 ≤ last_number) × (p.0 < places) }
    ensures { StepsIn a.old a.new (let_step (awaiting n.0) p.0) }
{
    if !a.table.awaits(p, n) {
        return;
    }
    give_back(a, n, p);
}

// All who await a reply of the number n, which ends, get their own word back, by rising place.
fn let_go(a: &mut Arrays, n: Number)
    requires { SoundIn a.old × (n.0 ≤ last_number) }
    ensures { StepsIn a.old a.new (let_from (awaiting n.0) 0 places) }
{
    for p in 0..lines::PLACES as u8 {
        let_one(a, n, Place(p));
    }
}

// The thread at p is told that the number n has ended if it receives from it. Nothing changes if it does not.
fn wake_listener(a: &mut Arrays, n: Number, p: Place)
    requires { SoundIn a.old × (n.0 ≤ last_number) × (p.0 < places) }
    ensures { StepsIn a.old a.new (let_step (listening n.0) p.0) }
{
    if a.table.standing_of(p) != rules::RECEIVING {
        return;
    }
    if a.table.partner_of(p) != n {
        return;
    }
    verbs::wake(a, p, codes::ENDED, n, 0);
}

// All who receive from the number n, which ends, are told, by rising place. The loop is that of `let_go` with another step. A function over both that is lent
// the step would have to say what a call of it needs and what it leaves, and is longer than the two loops.
fn wake_listeners(a: &mut Arrays, n: Number)
    requires { SoundIn a.old × (n.0 ≤ last_number) }
    ensures { StepsIn a.old a.new (let_from (listening n.0) 0 places) }
{
    for p in 0..lines::PLACES as u8 {
        wake_listener(a, n, Place(p));
    }
}

// The line where the thread at p stands, if it stands in one.
fn line_of(t: &Table, p: Place) -> Option<u8>
    requires { (p.0 < places) × Served t.now.blocks p.0 }
    ensures { result ≡ known (line_in t.now.blocks p.0) }
{
    match t.standing_of(p) {
        rules::READY => Some(table::READY_LINE),
        rules::SENDING => {
            let receiver = find(t, t.partner_of(p))?;
            Some(table::INBOX_LINES + receiver.0)
        },
        rules::WAITING => Some(table::CLOCK_LINE),
        rules::AT_DEVICE => Some(table::DEVICE_LINES + t.partner_of(p).0),
        _ => None,
    }
}

// The thread at p leaves its line, or stops running.
fn out_of_line(a: &mut Arrays, d: Desk, p: Place) -> Desk
    requires { WholeIn a.old × (p.0 < places) × Served a.old.table.blocks p.0 }
    ensures { TurnsIn d a.old result a.new (out_of_line p.0) }
{
    if a.table.standing_of(p) == rules::RUNNING {
        return d.turned_to(Place(lines::NONE));
    }
    let Some(q) = line_of(&a.table, p) else {
        return d;
    };
    lines::leave(&mut a.lines, q, p.0);
    d
}

// The thread at p, of the number n, ends. It leaves its line last: until then every thread that names it as a partner finds it.
fn end_at(a: &mut Arrays, d: Desk, n: Number, p: Place) -> Desk
    requires { EndsIn d a.old n.0 p.0 }
    ensures { TurnsIn d a.old result a.new (end_at p.0 n.0) }
{
    hand_all_back(a, n, table::INBOX_LINES + p.0);
    let_go(a, n);
    wake_listeners(a, n);
    let e = out_of_line(a, d, p);
    a.table.clean(p);
    e
}

// The thread at p ends, and no other with it: those who wait for it are let go, each group in its turn, and its place is empty.
fn end_one(a: &mut Arrays, d: Desk, p: Place) -> Desk
    requires { TalliedIn d a.old × Sound (shown_in d a.old) × (lives_at (shown_in d a.old) p.0 ≡ true) }
    ensures { EmptiesIn d a.old result a.new (end_one p.0) }
{
    let n = a.table.number_of(p);
    let e = end_at(a, d, n, p);
    Desk {
        filled: filled::less(e.filled, p.0),
        ..e
    }
}

// If the thread at r is a child of the thread at p, it ends with its family, with depth left below it. An empty place has nobody for a parent: so one row
// tells who is a child.
#[cycle(end_child_end_down)]
fn end_child(a: &mut Arrays, d: Desk, depth: u8, p: Place, r: Place) -> Desk
    requires { TalliedIn d a.old × MayEnd (suc depth) p.0 (shown_in d a.old) × (r.0 < places) }
    ensures { EmptiesIn d a.old result a.new (if_child depth p.0 r.0) }
{
    if a.table.parent_of(r) != a.table.number_of(p) {
        return d;
    }
    end_down(a, d, depth, r)
}

// The thread at p ends with its family: first its children by rising place, each with its own family, and itself last. It calls itself, by way of
// `end_child`, no deeper than the depth left.
#[cycle(end_child_end_down)]
fn end_down(a: &mut Arrays, d: Desk, depth: u8, p: Place) -> Desk
    requires { TalliedIn d a.old × MayEnd depth p.0 (shown_in d a.old) }
    ensures { EmptiesIn d a.old result a.new (end_down depth p.0) }
{
    let mut e = d;
    for r in 0..lines::PLACES as u8 {
        e = end_child(a, e, depth - 1, p, Place(r));
    }
    end_one(a, e, p)
}

// 5. The thread with the number n ends, and all that it started.
pub fn end(a: &mut Arrays, d: Desk, n: Number) -> Result<Done, Refusal>
    requires { StandsIn d a.old }
    ensures { DidIn d a.old (End n) result a.new }
{
    if n.0 > rules::LAST_NUMBER {
        return Err(Refusal::NoNumber);
    }
    let Some(p) = find(&a.table, n) else {
        return Err(Refusal::NotLive);
    };
    let depth = filled::count(d.filled);
    Ok(Done::at(end_down(a, d, depth, p)))
}
