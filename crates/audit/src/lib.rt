// The total test of consistency: any desk and any arrays, however mangled, are told apart into those that stand for a consistent nucleus and those that do
// not. It goes once along every line, four times along the places and once up from each place to its parent's, and keeps three arrays on the way: the line of
// each place, the place of each number, and the stamp of the walk from parent to parent that came to a place first.
#![tactic(auto)]

ghost use Rattle.std.specs.Prelude.{◌≡◌, List, [], ℕ, ◌+◌, ◌<◌};
ghost use Rattle.lists.specs.Tells.{Tells};
ghost use Rattle.lines.specs.Lines.{Tidy};
ghost use Rattle.rules.specs.Model.{places, line_count, thread};
ghost use Rattle.rules.specs.Consistent.{as_table, is_answer};
ghost use Rattle.table.specs.Cells.{model_of, shown, Filled, StandsByIn, StandsIn, as_thread};
ghost use Rattle.audit.specs.Tests.{is_clean, fits as fitting, home as home_of, runs_alone, unheard as quietTo, names_live, parent_found, place_test, desk_test};
ghost use Rattle.audit.specs.Loops.{Indexed, Twice, AllPass};
ghost use Rattle.audit.specs.Rings.{Rises, Ring, Stamped};
ghost use Rattle.audit.specs.Whole.{Members, Strangers};

use lines::{DEVICES, NONE, PLACES};
use rules::{
    AT_DEVICE, AWAITING, EMPTY, LAST_NUMBER, NOBODY, Number, Place, READY, RECEIVING, RUNNING,
    SENDING, WAITING, codes,
};
use table::{Arrays, Desk, Table, Thread};

// The number of places, as a place is.
const LIMIT: u8 = PLACES as u8;

// The number of devices, as an index is.
const INDEXES: u8 = DEVICES as u8;

// The home of one whose partner is not live, or whose device is none: no line, and not NONE.
const ASTRAY: u8 = 254;

// The index of numbers has an entry for each byte: any may come as a number.
const ENTRIES: usize = 256;

// ---- a thread alone

// Partner and word by standing: the table of document 01, and standing 7.
fn as_table(standing: u8, partner: Number, word: u32) -> bool
    ensures { result ≡ as_table standing partner.0 word }
{
    let resting = (partner.0 == NOBODY) & (word == 0);
    match standing {
        RUNNING | READY | WAITING => resting,
        SENDING | AWAITING => partner.0 <= LAST_NUMBER,
        RECEIVING => ((partner.0 <= LAST_NUMBER) | (partner.0 == NOBODY)) & (word == 0),
        AT_DEVICE => (partner.0 < INDEXES) & (word == 0),
        _ => false,
    }
}

// An answer has code 0 or ENDED and who a number, or code 0 and who nobody.
fn is_answer(code: u8, who: Number, word: u32) -> bool
    ensures { result ≡ is_answer code who.0 word }
{
    ((code == codes::DONE) | (code == codes::ENDED)) & (who.0 <= LAST_NUMBER)
        | (code == codes::DONE) & (who.0 == NOBODY)
}

// Does the place hold the clean value of an empty one?
fn is_clean(t: Thread) -> bool
    ensures { result ≡ is_clean (as_thread t) }
{
    let a = t.answer;
    let empty = (a.code == 0) & ((a.who.0 == NOBODY) & ((a.word == 0) & (t.parent.0 == NOBODY)));
    (t.number.0 == NOBODY) & ((t.partner.0 == NOBODY) & ((t.word == 0) & empty))
}

// Is a place as it must be, taken alone?
fn fits(t: Thread) -> bool
    ensures { result ≡ fitting (as_thread t) }
{
    if t.standing == EMPTY {
        return is_clean(t);
    }
    let a = t.answer;
    let answer = is_answer(a.code, a.who, a.word);
    let table = as_table(t.standing, t.partner, t.word);
    let apart = (t.standing == AT_DEVICE) | (t.partner != t.number);
    (t.number.0 <= LAST_NUMBER) & (table & (apart & answer))
}

// ---- a thread and its partner

// The line into which its standing puts a thread. NONE where that is no line, and ASTRAY where the partner that it must have is not live, or no device: a byte,
// since it is compared with the byte that a survey found.
fn home(who: &[u8; ENTRIES], t: Thread) -> u8
    ensures { result ≡ home_of who.now (as_thread t) }
{
    let partner = t.partner.0;
    let r = who[partner as usize];
    match t.standing {
        READY => table::READY_LINE,
        WAITING => table::CLOCK_LINE,
        AT_DEVICE if partner < INDEXES => table::DEVICE_LINES + partner,
        SENDING if r < LIMIT => table::INBOX_LINES + r,
        AWAITING if r < LIMIT => NONE,
        AT_DEVICE | SENDING | AWAITING => ASTRAY,
        _ => NONE,
    }
}

// Is the owner of the inbox in which one would stand, at r, not waiting to hear it?
fn unheard(t: &Table, r: Place, one: Thread) -> bool
    ensures { (w : List ℕ) → result ≡ quietTo (thread (model_of 0 0 t.now.blocks w []) r.0) (as_thread one) }
{
    if one.standing != SENDING {
        return true;
    }
    if r.0 >= LIMIT {
        return true;
    }
    !t.listens(r, one.number)
}

// Is t, at p, the one that runs, if it stands as running?
fn runs_alone(running: Place, p: Place, t: Thread) -> bool
    ensures { result ≡ runs_alone running.0 p.0 (as_thread t) }
{
    if t.standing == RUNNING {
        return running == p;
    }
    true
}

// Does t, if it receives from a number, name a thread that lives, at r? Where strict is false that is not asked.
fn names_live(strict: bool, r: Place, t: Thread) -> bool
    ensures { result ≡ names_live strict r.0 (as_thread t) }
{
    if !strict {
        return true;
    }
    if t.standing != RECEIVING {
        return true;
    }
    (t.partner.0 == NOBODY) | (r.0 < LIMIT)
}

// Is the parent of t nobody, or a number that is found?
fn parented(who: &[u8; ENTRIES], t: Thread) -> bool
    ensures { result ≡ parent_found who.now (as_thread t) }
{
    let n = t.parent.0;
    let found = who[n as usize] < LIMIT;
    (n == NOBODY) | (n <= LAST_NUMBER) & found
}

// What a place is tested by, beside what it holds: the line of each place, the place of each number, and who runs. Where strict is false, by the old rules.
#[derive(Clone, Copy)]
struct Judge<'a> {
    strict: bool,
    at: &'a [u8; PLACES],
    who: &'a [u8; ENTRIES],
    running: Place,
}

impl<'a> Judge<'a> {
    // Does the place p pass, with all that it has to do with others?
    fn place(self, t: &Table, p: Place) -> bool
        requires { p.0 < places }
        ensures { result ≡ place_test self.entry.strict (model_of 0 self.entry.running.0 t.now.blocks t.now.words []) self.entry.at.now self.entry.who.now p.0 }
    {
        let held = t.read(p);
        let r = Place(self.who[held.partner.0 as usize]);
        let seated = self.at[p.0 as usize] == home(self.who, held);
        let others = unheard(t, r, held)
            & (names_live(self.strict, r, held) & parented(self.who, held));
        fits(held) & (runs_alone(self.running, p, held) & (seated & others))
    }

    // Does every place pass?
    fn every(self, t: &Table) -> bool
        ensures { AllPass result (place_test self.entry.strict (model_of 0 self.entry.running.0 t.now.blocks t.now.words []) self.entry.at.now self.entry.who.now) }
    {
        (0..LIMIT).all(|p| self.place(t, Place(p)))
    }
}

// ---- the index of numbers

// The thread at p, if one stands there, enters the index. False where its number is taken.
fn enter(t: &Table, who: &mut [u8; ENTRIES], p: Place) -> bool
    requires { (p.0 < places) × Indexed t.now.blocks who.old p.0 }
    ensures { Tells result (Indexed t.now.blocks who.new (p.0 + 1)) (Twice t.now.blocks) }
{
    if t.standing_of(p) == EMPTY {
        return true;
    }
    let n = t.number_of(p).0 as usize;
    if who[n] != NONE {
        return false;
    }
    who[n] = p.0;
    true
}

// Every thread enters the index.
fn index(t: &Table, who: &mut [u8; ENTRIES]) -> bool
    requires { Indexed t.now.blocks who.old 0 }
    ensures { Tells result (Indexed t.now.blocks who.new places) (Twice t.now.blocks) }
{
    for p in 0..LIMIT {
        if !enter(t, who, Place(p)) {
            return false;
        }
    }
    true
}

// ---- parents

// From parent to parent, does one come from the place p to nobody? Each place on the way is stamped with p + 1, and a stamp stops the walk, so that all walks
// together leave each place once. An older stamp says that one comes from there to nobody, the walk's own that it has come back: parents form a ring.
fn ends(t: &Table, who: &[u8; ENTRIES], stamps: &mut [u8; PLACES], p: u8) -> bool
    requires { (p < places) × Indexed t.now.blocks who.now places × Stamped t.now.blocks who.now stamps.old p }
    ensures { Tells result (Stamped t.now.blocks who.now stamps.new (p + 1)) (Ring t.now.blocks who.now) }
{
    let own = p + 1;
    let mut r = p;
    while r < LIMIT {
        let at = r as usize;
        let stamp = stamps[at];
        if stamp != 0 {
            return stamp != own;
        }
        stamps[at] = own;
        r = who[t.parent_of(Place(r)).0 as usize];
    }
    true
}

// Does one come from every place to nobody? If not, parents form a ring.
fn ringless(t: &Table, who: &[u8; ENTRIES]) -> bool
    requires { Indexed t.now.blocks who.now places }
    ensures { Tells result ((p : ℕ) → p < places → Rises t.now.blocks who.now p) (Ring t.now.blocks who.now) }
{
    let mut stamps = [0; PLACES];
    for p in 0..LIMIT {
        if !ends(t, who, &mut stamps, p) {
            return false;
        }
    }
    true
}

// ---- all places

// The word of the places where a thread stands.
pub fn filling(t: &Table) -> u64
    ensures { Filled result t.now.blocks }
{
    let mut x: u64 = 0;
    for p in 0..LIMIT {
        if t.standing_of(Place(p)) != EMPTY {
            x = filled::with(x, p);
        }
    }
    x
}

// Is the last number given a number, and does the running place agree with standings and ready?
fn seated(a: &Arrays, d: Desk) -> bool
    requires { Tidy places line_count a.now.lines }
    ensures { (w : List ℕ) → result ≡ desk_test (shown d a.now.table.blocks w a.now.lines) }
{
    if d.last.0 > LAST_NUMBER {
        return false;
    }
    let Some(p) = d.runner() else {
        return lines::first(&a.lines, table::READY_LINE).is_none();
    };
    if p.0 >= LIMIT {
        return false;
    }
    a.table.standing_of(p) == RUNNING
}

// ---- the whole

// Do all places pass, each with all that it has to do with others, and do parents form no ring?
fn members(strict: bool, t: &Table, at: &[u8; PLACES], running: Place) -> bool
    ensures { Tells result (Members strict running.0 t.now.blocks t.now.words at.now) (Strangers strict running.0 t.now.blocks t.now.words at.now) }
{
    let mut who = [NONE; ENTRIES];
    if !index(t, &mut who) {
        return false;
    }
    let judge = Judge {
        strict,
        at,
        who: &who,
        running,
    };
    if !judge.every(t) {
        return false;
    }
    ringless(t, &who)
}

// Do the desk and the arrays stand for a consistent nucleus? Any may come. Where strict is false, what counts is the old rules' idea of consistent.
pub fn consistent_by(strict: bool, a: &Arrays, d: Desk) -> bool
    ensures { Tells result (StandsByIn strict d a.now) (StandsByIn strict d a.now → ⊥) }
{
    // Once a byte and a word are read, the sizes of the two arrays are known, and that a word is one.
    let (_byte, _word) = (a.table.blocks[0], a.table.words[0]);
    let Some(at) = lines::survey(&a.lines) else {
        return false;
    };
    if !members(strict, &a.table, &at, d.running) {
        return false;
    }
    if !seated(a, d) {
        return false;
    }
    filling(&a.table) == d.filled
}

// The same, by the rules as they are.
pub fn consistent(a: &Arrays, d: Desk) -> bool
    ensures { Tells result (StandsIn d a.now) (StandsIn d a.now → ⊥) }
{
    consistent_by(true, a, d)
}
