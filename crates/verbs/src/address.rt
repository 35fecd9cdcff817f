// Whom a number names, and why a caller may not name it.
ghost use Rattle.std.specs.Prelude.{◌≡◌};
ghost use Rattle.rules.specs.Values.{place_known};
ghost use Rattle.verbs.specs.Find.{found};
ghost use Rattle.verbs.specs.Address.{Seated, Names, Addresses};

use rules::{LAST_NUMBER, Number, Place, Refusal};
use table::{Desk, Table};

// The place of the live thread with the number n, if there is one.
pub fn find(t: &Table, n: Number) -> Option<Place>
    ensures { result ≡ place_known (found t.now.blocks n.0) }
{
    for i in 0..lines::PLACES {
        if t.blocks[table::STANDING + i] != rules::EMPTY {
            if t.blocks[table::NUMBER + i] == n.0 {
                return Some(Place(i as u8));
            }
        }
    }
    None
}

// Why the caller may not name n, if it may not: nobody runs, n is no number, or n is the caller's own.
fn names(t: &Table, d: Desk, n: Number) -> Result<(), Refusal>
    requires { Seated d }
    ensures { Names d t.now.blocks n.0 result }
{
    let Some(p) = d.runner() else {
        return Err(Refusal::Idle);
    };
    if n.0 > LAST_NUMBER {
        return Err(Refusal::NoNumber);
    }
    if n == t.number_of(p) {
        return Err(Refusal::OwnNumber);
    }
    Ok(())
}

// The place of the live thread with the number n, for a caller that names it, or why it may not.
pub fn whom(t: &Table, d: Desk, n: Number) -> Result<Place, Refusal>
    requires { Seated d }
    ensures { Addresses d t.now.blocks n.0 result }
{
    names(t, d, n)?;
    find(t, n).ok_or(Refusal::NotLive)
}
