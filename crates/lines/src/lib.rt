// Lines of places: first come, first served. All lines are linked lists in one lent array of bytes, which is changed in place.
// Byte p is the place after p in its line; byte PLACES + q the first place of line q; byte LAST + q its last. NONE stands where there is none.
#![tactic(auto)]

ghost use Rattle.std.specs.Prelude.{◌≡◌, [], ◌∷◌, ◌++◌, ◌+◌, ◌<◌, false, MatchOption};
ghost use Rattle.lists.specs.Lists.{among, without, front, rest, known};
ghost use Rattle.lists.specs.Tells.{Tells};
ghost use Rattle.lists.specs.Sizes.{places, line_count, cells};
ghost use Rattle.lines.specs.Lines.{line_of, Loose, Tidy, Turned, Clear, Whereabouts, Next};
ghost use Rattle.lines.specs.Steps.{Behind, DoneUpTo};

// The sizes. Their other home is `Sizes.antt` of crate `lists`, which the contracts cite; no other line says how many places or lines there are, but for the
// width of the word that has a digit for each place (`filled`).
pub const PLACES: usize = 64;

pub const DEVICES: usize = 48;

// The lines beside the inboxes, of which each place has one: ready, the clock's, and one for each device.
pub const QUEUES: usize = 2 + DEVICES;

pub const LINES: usize = QUEUES + PLACES;

pub const NONE: u8 = 255;

const LAST: usize = PLACES + LINES;

pub const CELLS: usize = LAST + LINES;

pub type Links = [u8; CELLS];

// The place that a cell names, if it names one.
fn known(cell: u8) -> Option<u8>
    ensures { result ≡ known cell }
{
    if cell == NONE { None } else { Some(cell) }
}

// Who is first in line q, if anybody stands in it.
pub fn first(l: &Links, q: u8) -> Option<u8>
    requires { Tidy places line_count l.now × (q < line_count) }
    ensures { result ≡ known (front (line_of places l.now q)) }
{
    known(l[PLACES + q as usize])
}

// Who stands behind p in its line, if p is not the last.
pub fn after(l: &Links, p: u8) -> Option<u8>
    requires { Tidy places line_count l.now × (p < places) }
    ensures { Next places line_count l.now p result }
{
    known(l[p as usize])
}

// p, which stands in no line, goes to the back of line q.
pub fn join(l: &mut Links, q: u8, p: u8)
    requires { Tidy places line_count l.old × (q < line_count) × (p < places) × Loose line_count (line_of places l.old) p }
    ensures { Turned places line_count l.old l.new q (line_of places l.old q ++ (p ∷ [])) }
{
    let line = q as usize;
    let at = match known(l[LAST + line]) {
        Some(last) => last as usize,
        None => PLACES + line,
    };
    l[at] = p;
    l[LAST + line] = p;
}

// For a caller that vouches for nothing, as one that reads an image. Where the array is tidy, and p a place that stands in no line, p goes to the back of
// line q. Whatever the bytes are, no index is out of range.
pub fn hang(l: &mut Links, q: u8, p: u8)
    requires { q < line_count }
    ensures { Tidy places line_count l.old → p < places → Loose line_count (line_of places l.old) p → Turned places line_count l.old l.new q (line_of places l.old q ++ (p ∷ [])) }
{
    if p as usize >= PLACES {
        return;
    }
    let line = q as usize;
    let last = l[LAST + line] as usize;
    let at = if last < PLACES { last } else { PLACES + line };
    l[at] = p;
    l[LAST + line] = p;
}

// p, which stands in line q behind the cell at, goes out. Its own cell is cleaned: else the same lines would have two arrays.
fn cut(l: &mut Links, q: u8, at: usize, p: u8)
    requires { Tidy places line_count l.old × (q < line_count) × Behind places l.old q at p }
    ensures { Turned places line_count l.old l.new q (without p (line_of places l.old q)) }
{
    let line = q as usize;
    let next = l[p as usize];
    let last = if next != NONE {
        l[LAST + line]
    } else {
        if at < PLACES { at as u8 } else { NONE }
    };
    l[at] = next;
    l[LAST + line] = last;
    l[p as usize] = NONE;
}

// The first leaves line q, and is returned. Where the line is empty nothing changes.
pub fn pop(l: &mut Links, q: u8) -> Option<u8>
    requires { Tidy places line_count l.old × (q < line_count) }
    ensures who { result ≡ known (front (line_of places l.old q)) }
    ensures line { Turned places line_count l.old l.new q (rest (line_of places l.old q)) }
{
    let at = PLACES + q as usize;
    let p = known(l[at])?;
    cut(l, q, at, p);
    Some(p)
}

// The cell behind which p stands in line q, if p is in it.
fn seek(l: &Links, q: u8, p: u8) -> Option<usize>
    requires { Tidy places line_count l.now × (q < line_count) × (p < places) }
    ensures { MatchOption result (among p (line_of places l.now q) ≡ false) (λ at. Behind places l.now q at p) }
{
    let mut at = PLACES + q as usize;
    while l[at] != NONE {
        if l[at] == p {
            return Some(at);
        }
        at = l[at] as usize;
    }
    None
}

// p leaves line q, wherever it stands in it. Where it is not in it nothing changes.
pub fn leave(l: &mut Links, q: u8, p: u8)
    requires { Tidy places line_count l.old × (q < line_count) × (p < places) }
    ensures { Turned places line_count l.old l.new q (without p (line_of places l.old q)) }
{
    if let Some(at) = seek(l, q, p) {
        cut(l, q, at, p);
    }
}

// An array in which all lines are empty.
pub fn fresh() -> Links
    ensures { Clear places line_count result }
{
    [NONE; CELLS]
}

// Line q is walked, and its places marked with q. False where the array cannot be tidy.
fn mark(l: &Links, seen: &mut [u8; PLACES], q: u8) -> bool
    requires { (q < line_count) × DoneUpTo places line_count l.now seen.old q }
    ensures { Tells result (DoneUpTo places line_count l.now seen.new (q + 1)) (Tidy places line_count l.now → ⊥) }
{
    let line = q as usize;
    let mut at = PLACES + line;
    while l[at] != NONE {
        let i = l[at] as usize;
        if i >= PLACES {
            return false;
        }
        if seen[i] != NONE {
            return false;
        }
        seen[i] = q;
        at = i;
    }
    if at < PLACES {
        return l[LAST + line] as usize == at;
    }
    l[LAST + line] == NONE
}

// The lines are good: is NONE what follows each place that stands in no line?
fn ends(l: &Links, seen: &[u8; PLACES]) -> bool
    requires { DoneUpTo places line_count l.now seen.now line_count }
    ensures { Tells result (Whereabouts places line_count l.now seen.now) (Tidy places line_count l.now → ⊥) }
{
    for p in 0..PLACES {
        if seen[p] == NONE && l[p] != NONE {
            return false;
        }
    }
    true
}

// In which line each place stands, if the array is tidy. Any bytes may come, also with rings in them. A walk goes on from a place once, so all walks together
// are no longer than the array.
pub fn survey(l: &Links) -> Option<[u8; PLACES]>
    ensures { MatchOption result (Tidy places line_count l.now → ⊥) (λ at. Whereabouts places line_count l.now at) }
{
    let mut at = [NONE; PLACES];
    for q in 0..LINES as u8 {
        if !mark(l, &mut at, q) {
            return None;
        }
    }
    if ends(l, &at) { Some(at) } else { None }
}
