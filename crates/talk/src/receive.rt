// Event 3: receive.
ghost use Rattle.std.specs.Prelude.{◌≡◌, ◌<◌};
ghost use Rattle.lines.specs.Lines.{Tidy};
ghost use Rattle.rules.specs.Values.{place_known};
ghost use Rattle.rules.specs.Model.{places, line_count};
ghost use Rattle.rules.specs.Rules.{takes};
ghost use Rattle.rules.specs.declared.Event.TheVariants.{Receive};
ghost use Rattle.table.specs.Cells.{WholeIn, StandsIn};
ghost use Rattle.verbs.specs.Steps.{StepsIn};
ghost use Rattle.events.specs.Events.{DidIn};
ghost use Rattle.verbs.specs.Address.{Seated};
ghost use Rattle.talk.specs.Pick.{picked};
ghost use Rattle.talk.specs.Receive.{Sources};

use events::Done;
use rules::{Number, Place, Refusal, codes};
use table::{Arrays, Desk, Table};
use verbs::address::whom;

// Why the caller may not receive from n, or from any, if it may not.
fn source(t: &Table, d: Desk, n: Number) -> Result<(), Refusal>
    requires { Seated d }
    ensures { Sources d t.now.blocks n result }
{
    if n.0 != rules::NOBODY {
        whom(t, d, n)?;
        return Ok(());
    }
    if d.runner().is_none() {
        return Err(Refusal::Idle);
    }
    Ok(())
}

// The first in line q from whom a receive from n, or from any, takes, if there is one.
fn pick(a: &Arrays, q: u8, n: Number) -> Option<Place>
    requires { Tidy places line_count a.now.lines × (q < line_count) }
    ensures { result ≡ place_known (picked a.now.table.blocks a.now.lines q n.0) }
{
    let mut next = lines::first(&a.lines, q);
    while let Some(p) = next {
        let k = a.table.number_of(Place(p));
        if (n.0 == rules::NOBODY) | (n == k) {
            return Some(Place(p));
        }
        next = lines::after(&a.lines, p);
    }
    None
}

// The caller at c takes what p sends: p leaves the inbox and awaits the reply, and c has its answer and keeps running.
fn take(a: &mut Arrays, c: Place, p: Place)
    requires { WholeIn a.old × (c.0 < places) × (p.0 < places) }
    ensures { StepsIn a.old a.new (takes c.0 p.0) }
{
    let partner = a.table.partner_of(p);
    let who = a.table.number_of(p);
    let word = a.table.word_of(p);
    lines::leave(&mut a.lines, table::INBOX_LINES + c.0, p.0);
    a.table.stand(p, rules::AWAITING, partner, word);
    a.table.tell(c, codes::DONE, who, word);
}

// 3. The caller receives from the number `from`, or from any.
pub fn receive(a: &mut Arrays, d: Desk, from: Number) -> Result<Done, Refusal>
    requires { StandsIn d a.old }
    ensures { DidIn d a.old (Receive from) result a.new }
{
    source(&a.table, d, from)?;
    let c = d.running;
    let Some(p) = pick(a, table::INBOX_LINES + c.0, from) else {
        a.table.stand(c, rules::RECEIVING, from, 0);
        return Ok(Done::at(d.turned_to(Place(lines::NONE))));
    };
    take(a, c, p);
    Ok(Done::at(d))
}
