// Saving: the image of a consistent state is written from front to back, as specs/Format.antt has it; the head comes last, since it tells the total.
// Each function that writes does so by a writer, and leaves every other byte as it was (`Puts`).
#![tactic(auto)]

ghost use Rattle.std.specs.Prelude.{◌≡◌, false, [], ◌∷◌, ◌++◌, ◌+◌, ◌*◌, ◌%◌, ◌≤◌, ◌<◌, length};
ghost use Rattle.lists.specs.Sizes.{places, queue_count, line_count};
ghost use Rattle.lists.specs.Bytes.{two_bytes, word_bytes};
ghost use Rattle.lines.specs.Lines.{line_of, Tidy};
ghost use Rattle.table.specs.Cells.{as_thread, shown_in, StandsByIn};
ghost use Rattle.nucleus.specs.View.{Consists};
ghost use Rattle.saving.specs.Format.{head_length, entry_length, thread_bytes, parent_bytes};
ghost use Rattle.saving.specs.Puts.{HasRoom, Puts};
ghost use Rattle.saving.specs.Longest.{longest_image};
ghost use Rattle.saving.specs.Parts.{held, inbox_part, body_in, bodies_in, contents_in, tail_in};
ghost use Rattle.saving.specs.Entries.{EntryPut, PutsEntry};
ghost use Rattle.saving.specs.Written.{PutsContents, PutsTail, lengths_in, waiting_in, head_of, Written};
ghost use Rattle.saving.specs.Save.{Saves};

use format::{BODY, ENTRY, LENGTHS_AT, PARENT, Row, TOTAL};
use lines::Links;
use nucleus::State;
use rules::{Number, Place, codes};
use table::{Arrays, Desk, Thread};
use writer::Writer;

pub mod format;
pub mod writer;

// The longest image: that of the newest edition, where every place lives and waits somewhere.
pub const LONGEST: usize = LENGTHS_AT
    + lines::QUEUES
    + TOTAL
    + (ENTRY + BODY + PARENT + 1) * lines::PLACES;

// How long line q is.
fn measure(l: &Links, q: u8) -> u8
    requires { Tidy places line_count l.now × (q < line_count) }
    ensures { result ≡ length (line_of places l.now q) }
{
    let mut n: u8 = 0;
    let mut next = lines::first(l, q);
    while let Some(p) = next {
        n += 1;
        next = lines::after(l, p);
    }
    n
}

// Writes the places of line q, front first.
fn put_line(w: &mut Writer, l: &Links, q: u8)
    requires { Tidy places line_count l.now × (q < line_count) × HasRoom w.old (line_of places l.now q) }
    ensures { Puts w.old (line_of places l.now q) w.new }
{
    let mut next = lines::first(l, q);
    while let Some(p) = next {
        w.push(p);
        next = lines::after(l, p);
    }
}

// Two bytes and a word: a thread's standing, partner and word are written so, and its answer.
fn six(first: u8, second: u8, word: u32) -> [u8; 6]
    ensures { result ≡ first ∷ second ∷ word_bytes word }
{
    let [a, b, c, d] = word.to_le_bytes();
    [first, second, a, b, c, d]
}

// An entry of the contents: place, number, and the offset of the body.
fn entry(p: Place, n: Number, offset: u16) -> [u8; ENTRY]
    ensures { result ≡ p.0 ∷ n.0 ∷ two_bytes offset }
{
    let [low, high] = offset.to_le_bytes();
    [p.0, n.0, low, high]
}

// Writes a thread without its parent and its inbox.
fn put_thread(w: &mut Writer, t: Thread)
    requires { HasRoom w.old (thread_bytes (as_thread t)) }
    ensures { Puts w.old (thread_bytes (as_thread t)) w.new }
{
    let answer = t.answer;
    w.put(&six(t.standing, t.partner.0, t.word));
    w.put(&six(answer.code, answer.who.0, answer.word));
}

// Writes the parent n, if the row has it.
fn put_parent(w: &mut Writer, row: Row, n: Number)
    requires { HasRoom w.old (parent_bytes row n.0) }
    ensures { Puts w.old (parent_bytes row n.0) w.new }
{
    if row.parents {
        w.push(n.0);
    }
}

// Writes an inbox, line q: its length, the parent n if the row has it, and its places.
fn put_inbox(w: &mut Writer, row: Row, n: Number, l: &Links, q: u8)
    requires { Tidy places line_count l.now × (q < line_count) × HasRoom w.old (inbox_part row n.0 l.now q) }
    ensures { Puts w.old (inbox_part row n.0 l.now q) w.new }
{
    w.push(measure(l, q));
    put_parent(w, row, n);
    put_line(w, l, q);
}

// Writes the body of the place p, if a thread lives there.
fn put_body(w: &mut Writer, row: Row, a: &Arrays, p: Place)
    requires { Tidy places line_count a.now.lines × (p.0 < places) × HasRoom w.old (body_in row a.now p.0) }
    ensures { Puts w.old (body_in row a.now p.0) w.new }
{
    let t = a.table.read(p);
    if t.standing == rules::EMPTY {
        return;
    }
    put_thread(w, t);
    put_inbox(w, row, t.parent, &a.lines, table::INBOX_LINES + p.0);
}

// Writes the entry of the place p, if a thread lives there, for a body at `body`, and gives where the next body starts.
fn put_entry(w: &mut Writer, row: Row, a: &Arrays, p: Place, body: u16) -> u16
    requires { PutsEntry row a.now p.0 w.old body }
    ensures { EntryPut row (held a.now) p.0 w.old body w.new result }
{
    let t = a.table.read(p);
    if t.standing == rules::EMPTY {
        return body;
    }
    w.put(&entry(p, t.number, body));
    let n = measure(&a.lines, table::INBOX_LINES + p.0);
    body + format::body_length(row) as u16 + u16::from(n)
}

// Writes the contents, for a first body at `first`.
// This loop and those below differ in their bodies, of a line or two each: one function with a closure would ask each caller for the contract of its closure,
// which is longer than the loop.
fn put_contents(w: &mut Writer, row: Row, a: &Arrays, first: u16)
    requires { PutsContents row a.now w.old first }
    ensures { Puts w.old (contents_in row a.now first) w.new }
{
    let mut body = first;
    for p in 0..lines::PLACES as u8 {
        body = put_entry(w, row, a, Place(p), body);
    }
}

// Writes the bodies.
fn put_bodies(w: &mut Writer, row: Row, a: &Arrays)
    requires { Tidy places line_count a.now.lines × HasRoom w.old (bodies_in row a.now) }
    ensures { Puts w.old (bodies_in row a.now) w.new }
{
    for p in 0..lines::PLACES as u8 {
        put_body(w, row, a, Place(p));
    }
}

// Writes the places of a row's queues.
fn put_queues(w: &mut Writer, row: Row, l: &Links)
    requires { Tidy places line_count l.now × (row.queues ≤ queue_count) × HasRoom w.old (waiting_in row l.now) }
    ensures { Puts w.old (waiting_in row l.now) w.new }
{
    for q in 0..row.queues {
        put_line(w, l, q);
    }
}

// Writes all behind the head: contents, queues, bodies.
fn put_tail(w: &mut Writer, row: Row, a: &Arrays, first: u16)
    requires { PutsTail row a.now w.old first }
    ensures { Puts w.old (tail_in row a.now) w.new }
{
    put_contents(w, row, a, first);
    put_queues(w, row, &a.lines);
    put_bodies(w, row, a);
}

// Where the first body starts: behind the head, an entry for each that lives, and all that wait in a row's queues.
fn first_body(row: Row, l: &Links, live: u8) -> u16
    requires { Tidy places line_count l.now × (row.queues ≤ queue_count) }
    ensures { result ≡ head_length row + entry_length * live + length (waiting_in row l.now) }
{
    let mut n = format::head_length(row) as u16 + ENTRY as u16 * u16::from(live);
    for q in 0..row.queues {
        n += u16::from(measure(l, q));
    }
    n
}

// Writes the lengths of a row's queues.
fn put_lengths(w: &mut Writer, row: Row, l: &Links)
    requires { Tidy places line_count l.now × (row.queues ≤ queue_count) × HasRoom w.old (lengths_in row l.now) }
    ensures { Puts w.old (lengths_in row l.now) w.new }
{
    for q in 0..row.queues {
        w.push(measure(l, q));
    }
}

// Writes the head: edition, last number, running place, live count, the lengths of the queues, total length.
fn put_head(w: &mut Writer, row: Row, l: &Links, d: Desk, live: u8, total: u16)
    requires { Tidy places line_count l.now × (row.queues ≤ queue_count) × HasRoom w.old (head_of row d.last.0 d.running.0 live (lengths_in row l.now) total) }
    ensures { Puts w.old (head_of row d.last.0 d.running.0 live (lengths_in row l.now) total) w.new }
{
    w.put(&[row.edition, d.last.0, d.running.0, live]);
    put_lengths(w, row, l);
    w.put(&total.to_le_bytes());
}

// Writes the image of a state that is consistent, by the old rules at least, in the edition of the row, and gives its length. The head comes last: it tells the
// total.
pub fn write(row: Row, a: &Arrays, d: Desk, out: &mut [u8]) -> usize
    requires { (row.queues ≤ queue_count) × StandsByIn false d a.now × (longest_image ≤ length out.old) }
    ensures { Written row (shown_in d a.now) out.old out.new result }
{
    let live = filled::count(d.filled);
    let first = first_body(row, &a.lines, live);
    let at = format::head_length(row);
    let mut w = Writer { out, at };
    put_tail(&mut w, row, a, first);
    let end = w.at;
    w.at = 0;
    put_head(&mut w, row, &a.lines, d, live, end as u16);
    end
}

// What comes of saving: the code, and the length of the image, 0 where there is none. (They stand beside each other, and in no Result, since the documents
// promise these two.)
#[derive(Clone, Copy)]
pub struct Saved {
    pub code: u8,
    pub length: usize,
}

// Saves a state that was tested. The image goes into an array of its own first, so that a buffer that is too short stays as it was.
pub fn keep(s: State, buffer: &mut [u8]) -> Saved
    requires { Consists s }
    ensures { Saves s buffer.old result.code result.length buffer.new }
{
    let mut image = [0u8; LONGEST];
    let n = write(format::newest(), &s.arrays, s.desk, &mut image);
    if buffer.len() < n {
        return Saved {
            code: codes::SHORT,
            length: 0,
        };
    }
    buffer[..n].copy_from_slice(&image[..n]);
    Saved {
        code: codes::DONE,
        length: n,
    }
}

// Saves any state into any buffer.
pub fn save(s: State, buffer: &mut [u8]) -> Saved
    ensures { Saves s buffer.old result.code result.length buffer.new }
{
    if !s.consistent() {
        return Saved {
            code: codes::INCONSISTENT,
            length: 0,
        };
    }
    keep(s, buffer)
}
