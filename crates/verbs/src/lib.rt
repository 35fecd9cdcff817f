// The verbs: what happens to one place, from which every event is made. Each is named as the rules name it.
#![tactic(auto)]

ghost use Rattle.std.specs.Prelude.{◌<◌};
ghost use Rattle.lines.specs.Lines.{line_of, Loose};
ghost use Rattle.rules.specs.Model.{places, line_count};
ghost use Rattle.rules.specs.Rules.{readied, woken, dispatched};
ghost use Rattle.table.specs.Cells.{WholeIn};
ghost use Rattle.verbs.specs.Steps.{StepsIn, TurnsIn};
ghost use Rattle.verbs.specs.Seats.{seated};

use rules::{Number, Place, codes};
use table::{Arrays, Desk};

pub mod address;

// p, which stands in no line, goes to the back of ready. Nothing enters ready but here.
pub fn ready(a: &mut Arrays, p: Place)
    requires { WholeIn a.old × (p.0 < places) × Loose line_count (line_of places a.old.lines) p.0 }
    ensures { StepsIn a.old a.new (readied p.0) }
{
    a.table.stand(p, rules::READY, Number(rules::NOBODY), 0);
    lines::join(&mut a.lines, table::READY_LINE, p.0);
}

// Its call is over: p, which stands in no line, has its answer, and goes to the back of ready.
pub fn wake(a: &mut Arrays, p: Place, code: u8, who: Number, word: u32)
    requires { WholeIn a.old × (p.0 < places) × Loose line_count (line_of places a.old.lines) p.0 }
    ensures { StepsIn a.old a.new (woken p.0 code who.0 word) }
{
    a.table.tell(p, code, who, word);
    ready(a, p);
}

// If nobody runs and ready is not empty, its front runs.
pub fn dispatch(a: &mut Arrays, d: Desk) -> Desk
    requires { WholeIn a.old }
    ensures { TurnsIn d a.old result a.new dispatched }
{
    if d.runner().is_some() {
        return d;
    }
    let Some(p) = lines::pop(&mut a.lines, table::READY_LINE) else {
        return d;
    };
    let front = Place(p);
    a.table
        .stand(front, rules::RUNNING, Number(rules::NOBODY), 0);
    d.turned_to(front)
}

// The empty place p takes a thread with the number n and this parent, which goes to the back of ready.
pub fn seat(a: &mut Arrays, p: Place, n: Number, parent: Number)
    requires { WholeIn a.old × (p.0 < places) × Loose line_count (line_of places a.old.lines) p.0 }
    ensures { StepsIn a.old a.new (seated p.0 n.0 parent.0) }
{
    a.table.name(p, n);
    a.table.raise(p, parent);
    wake(a, p, codes::DONE, Number(rules::NOBODY), 0);
}
