// Event 4: reply.
ghost use Rattle.rules.specs.Rules.{reply};
ghost use Rattle.rules.specs.declared.Event.TheVariants.{Reply};
ghost use Rattle.table.specs.Cells.{StandsIn};
ghost use Rattle.verbs.specs.Steps.{TurnsIn};
ghost use Rattle.events.specs.Events.{DidIn};
ghost use Rattle.verbs.specs.Address.{CallsIn};

use events::Done;
use rules::{Number, Place, Refusal, codes};
use table::{Arrays, Desk};
use verbs::address::whom;

// The thread at p, of the number `to`, has its reply and runs at once; the caller goes to the back of ready.
fn hand_over(a: &mut Arrays, d: Desk, to: Number, word: u32, p: Place) -> Desk
    requires { CallsIn d a.old to.0 p.0 }
    ensures { TurnsIn d a.old result a.new (reply to.0 word) }
{
    let c = d.running;
    let me = a.table.number_of(c);
    verbs::ready(a, c);
    a.table.tell(p, codes::DONE, me, word);
    a.table.stand(p, rules::RUNNING, Number(rules::NOBODY), 0);
    d.turned_to(p)
}

// 4. The caller replies to the number `to`, which awaits it.
pub fn reply(a: &mut Arrays, d: Desk, to: Number, word: u32) -> Result<Done, Refusal>
    requires { StandsIn d a.old }
    ensures { DidIn d a.old (Reply to word) result a.new }
{
    let p = whom(&a.table, d, to)?;
    let me = a.table.number_of(d.running);
    if !a.table.awaits(p, me) {
        return Err(Refusal::NotAwaiting);
    }
    Ok(Done::at(hand_over(a, d, to, word, p)))
}
