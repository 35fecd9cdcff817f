// Reading: a candidate is made of any bytes, and no byte is trusted. It has nothing that its edition has not: nobody is seated at a place, or given a parent,
// that the row does not have, and load relies on that. No other rule of the format is kept here, for what else is read of bytes that are no image does not
// matter: load finds out.
ghost use Rattle.std.specs.Prelude.{◌≡◌, Bool, false, ◌+◌, ◌*◌, ◌^◌, ◌≤◌, ◌<◌};
ghost use Rattle.lists.specs.Sizes.{queue_count};
ghost use Rattle.table.specs.Clean.{Sized};
ghost use Rattle.table.specs.Stores.{Stored};
ghost use Rattle.rules.specs.Model.{places, line_count, Model};
ghost use Rattle.nucleus.specs.View.{ShowsBy};
ghost use Rattle.loading.specs.Reading.{Joined, parent_in, thread_in, QueuesRead, Parentless, NobodyFrom, Entered};
ghost use Rattle.loading.specs.Loads.{ImageAsBy};

use super::bytes;
use lines::Links;
use nucleus::State;
use rules::{Number, Place};
use saving::format;
use saving::format::Row;
use table::{Arrays, Desk, Table};

// The places at image[from .. from + count] join line q, if they can.
fn enqueue(image: &[u8], from: usize, count: usize, q: u8, l: &mut Links)
    requires { (q < line_count) × (from + count < 2 ^ 32) }
    ensures { Joined image.now from count q count l.old l.new }
{
    for i in 0..count {
        lines::hang(l, q, bytes::at(image, from + i));
    }
}

// The parent in the body that starts at o: nobody where the row has none.
fn parent(row: Row, image: &[u8], o: usize) -> Number
    requires { o < 2 ^ 16 }
    ensures { result.0 ≡ parent_in row image.now o }
{
    if row.parents {
        return Number(bytes::at(image, o + format::PARENT_AT));
    }
    Number(rules::NOBODY)
}

// The thread with the number n whose body starts at o comes to the place p.
fn seat(row: Row, image: &[u8], o: usize, p: Place, n: Number, t: &mut Table)
    requires { (o < 2 ^ 16) × (p.0 < places) × Sized t.old.blocks t.old.words }
    ensures { Stored t.old.blocks t.old.words p.0 (λ x. thread_in row image.now n.0 o) t.new.blocks t.new.words }
{
    t.name(p, n);
    let partner = Number(bytes::at(image, o + format::PARTNER_AT));
    let word = bytes::word(image, o + format::WORD_AT);
    t.stand(p, bytes::at(image, o), partner, word);
    let who = Number(bytes::at(image, o + format::WHO_AT));
    let answer = bytes::word(image, o + format::ANSWER_AT);
    t.tell(p, bytes::at(image, o + format::CODE_AT), who, answer);
    t.raise(p, parent(row, image, o));
}

// Entry i of the contents is read, with the body that it names, if its place is one that the row has.
fn enter(row: Row, image: &[u8], i: usize, a: &mut Arrays)
    requires { (i < 2 ^ 16) × (row.places ≤ places) × Sized a.old.table.blocks a.old.table.words }
    ensures { Entered row image.now i (i + 1) a.old a.new }
{
    let entry = format::head_length(row) + format::ENTRY * i;
    let p = bytes::at(image, entry);
    if p >= row.places {
        return;
    }
    let o = bytes::two(image, entry + format::OFFSET_AT);
    let n = Number(bytes::at(image, entry + format::NUMBER_AT));
    seat(row, image, o, Place(p), n, &mut a.table);
    let count = usize::from(bytes::at(image, o + format::INBOX_LENGTH_AT));
    enqueue(
        image,
        o + format::body_length(row),
        count,
        table::INBOX_LINES + p,
        &mut a.lines,
    );
}

// Every entry is read.
fn entries(row: Row, image: &[u8], n: usize, a: &mut Arrays)
    requires { (n < 256) × (row.places ≤ places) × Sized a.old.table.blocks a.old.table.words }
    ensures { Entered row image.now 0 n a.old a.new }
{
    for i in 0..n {
        enter(row, image, i, a);
    }
}

// The queues of the row are read.
fn queues(row: Row, image: &[u8], l: &mut Links)
    requires { row.queues ≤ queue_count }
    ensures { QueuesRead row image.now l.old l.new }
{
    let live = usize::from(bytes::at(image, format::LIVE_AT));
    let mut from = format::head_length(row) + format::ENTRY * live;
    for q in 0..row.queues {
        let count = usize::from(bytes::at(image, format::LENGTHS_AT + usize::from(q)));
        enqueue(image, from, count, q, l);
        from += count;
    }
}

// The state of which the bytes may be the image in the edition of the row. If they are the image of any, it is this one's. It has no parents where the row
// has none, and nobody lives at a place that the row has not.
pub fn candidate(row: Row, image: &[u8]) -> State
    requires { (row.queues ≤ queue_count) × (row.places ≤ places) }
    ensures { ((strict : Bool) (m : Model) → ImageAsBy strict row m image.now → ShowsBy strict result m) × (row.parents ≡ false → Parentless result.arrays.table.blocks) × NobodyFrom row.places result.arrays.table.blocks }
{
    let mut arrays = State::fresh().arrays;
    queues(row, image, &mut arrays.lines);
    let n = usize::from(bytes::at(image, format::LIVE_AT));
    entries(row, image, n, &mut arrays);
    let desk = Desk {
        filled: audit::filling(&arrays.table),
        last: Number(bytes::at(image, format::LAST_AT)),
        running: Place(bytes::at(image, format::RUNNING_AT)),
    };
    State { desk, arrays }
}
