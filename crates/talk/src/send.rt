// Event 2: send.
ghost use Rattle.rules.specs.Rules.{send};
ghost use Rattle.rules.specs.declared.Event.TheVariants.{Send};
ghost use Rattle.table.specs.Cells.{StandsIn};
ghost use Rattle.verbs.specs.Steps.{TurnsIn};
ghost use Rattle.events.specs.Events.{DidIn};
ghost use Rattle.verbs.specs.Address.{CallsIn};

use events::Done;
use rules::{Number, Place, Refusal, codes};
use table::{Arrays, Desk};
use verbs::address::whom;

// The live thread at p, of the number `to`, is sent a word. If it listens, it is woken, and the caller awaits its reply; else the caller joins its inbox.
fn deliver(a: &mut Arrays, d: Desk, to: Number, word: u32, p: Place) -> Desk
    requires { CallsIn d a.old to.0 p.0 }
    ensures { TurnsIn d a.old result a.new (send to.0 word) }
{
    let c = d.running;
    let e = d.turned_to(Place(lines::NONE));
    let me = a.table.number_of(c);
    if a.table.listens(p, me) {
        a.table.stand(c, rules::AWAITING, to, word);
        verbs::wake(a, p, codes::DONE, me, word);
        return e;
    }
    a.table.stand(c, rules::SENDING, to, word);
    lines::join(&mut a.lines, table::INBOX_LINES + p.0, c.0);
    e
}

// 2. The caller sends a word to the number `to`.
pub fn send(a: &mut Arrays, d: Desk, to: Number, word: u32) -> Result<Done, Refusal>
    requires { StandsIn d a.old }
    ensures { DidIn d a.old (Send to word) result a.new }
{
    let p = whom(&a.table, d, to)?;
    Ok(Done::at(deliver(a, d, to, word, p)))
}
