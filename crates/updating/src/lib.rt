// The update load (document 02, P2): the way over to today's rules for a terminal in the field. It takes what the old rules call consistent, and wakes those
// who listen for the dead, so that nobody waits for a dead thread, and no load is lost.
#![tactic(auto)]

ghost use Rattle.std.specs.Prelude.{false, [], ◌≡◌, ◌<◌};
ghost use Rattle.rules.specs.Model.{places};
ghost use Rattle.rules.specs.Rules.{deserted, updated};
ghost use Rattle.table.specs.Cells.{model_of};
ghost use Rattle.verbs.specs.Steps.{StepsIn};
ghost use Rattle.life.specs.LetGo.{SoundIn, let_from};
ghost use Rattle.nucleus.specs.View.{view, ConsistsBy, Shows};
ghost use Rattle.updating.specs.Deserted.{deserted_at, wakes_at};
ghost use Rattle.updating.specs.Updates.{Updates};

use loading::Loaded;
use nucleus::State;
use rules::{Place, codes};
use table::{Arrays, Table};
use verbs::address::find;

// Does the thread at p receive from a number that nobody has?
fn is_deserted(t: &Table, p: Place) -> bool
    requires { p.0 < places }
    ensures { result ≡ deserted_at t.now.blocks p.0 }
{
    if t.standing_of(p) != rules::RECEIVING {
        return false;
    }
    let n = t.partner_of(p);
    if n.0 == rules::NOBODY {
        return false;
    }
    find(t, n).is_none()
}

// The thread at p is told that whom it listens for is dead, if it is so. Nothing changes if it is not.
fn wake_deserted(a: &mut Arrays, p: Place)
    requires { SoundIn a.old × (p.0 < places) }
    ensures { StepsIn a.old a.new (wakes_at p.0) }
{
    if !is_deserted(&a.table, p) {
        return;
    }
    let n = a.table.partner_of(p);
    verbs::wake(a, p, codes::ENDED, n, 0);
}

// All who listen for the dead are told, by rising place.
fn wake_all(a: &mut Arrays)
    requires { SoundIn a.old }
    ensures { StepsIn a.old a.new (let_from (deserted (model_of 0 0 a.old.table.blocks a.old.table.words [])) 0 places) }
{
    for p in 0..lines::PLACES as u8 {
        wake_deserted(a, Place(p));
    }
}

// A state that the old rules call consistent, carried over to today's. If nobody runs then, the front of ready does.
fn carry_over(s: State) -> State
    requires { ConsistsBy false s }
    ensures { Shows result (updated (view s)) }
{
    let mut arrays = s.arrays;
    wake_all(&mut arrays);
    let desk = verbs::dispatch(&mut arrays, s.desk);
    State { desk, arrays }
}

// The state of which the bytes are the image by the old rules, carried over. Any bytes may come, and they are refused as load refuses them.
pub fn update(image: &[u8]) -> Loaded
    ensures { Updates image.now result }
{
    let from = loading::load_old(image);
    if from.code != codes::DONE {
        return from;
    }
    Loaded {
        code: codes::DONE,
        state: carry_over(from.state),
    }
}
