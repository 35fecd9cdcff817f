// The board (document 01): the board's start code is C. Each entry takes an image, and gives one back, or tells of it; whatever the bytes, every result and
// every byte of the output buffer is settled. include/rumqatiss.h says the same to those who write C, whom the crate board_c gives these entries.
#![tactic(auto)]

ghost use Rattle.std.specs.Prelude.{◌≡◌, ◌≤◌};
ghost use Rattle.rules.specs.Rules.{outcome};
ghost use Rattle.nucleus.specs.View.{view, Consists};
ghost use Rattle.saving.specs.Longest.{longest_image};
ghost use Rattle.image.specs.Locates.{Locates};
ghost use Rattle.depot.specs.Promise.{Tells};
ghost use Rattle.depot.specs.declared.Sheet.TheVariants.{Report};
ghost use Rattle.board.specs.Promise.{declined, acted as actedOn, bad_code, step_on, Boards, unplayed, replay_on, Brings, fresh_on, uncarried, carried_on, Carries};

use image::Saved;
use journal::Read;
use nucleus::State;
use rules::{Choice, Event, Number, codes};

// Three records with fields in common, and no generic one: the C interface's contracts, those of `rumqatiss_board`, `rumqatiss_replay` and
// `rumqatiss_update`, name each with its fields. So each has its own refusal, `decline`, `unplay` and `uncarry`.
// What one record comes to: code, choice and next, the number given, and the new image's length.
#[derive(Clone, Copy)]
pub struct Told {
    pub code: u8,
    pub choice: u8,
    pub next: u8,
    pub number: u8,
    pub length: u16,
}

// What a log comes to: code, choice and next, how many whole records and bytes were read, and the new image's length.
#[derive(Clone, Copy)]
pub struct Brought {
    pub code: u8,
    pub choice: u8,
    pub next: u8,
    pub records: u32,
    pub bytes: u32,
    pub length: u16,
}

// What an update comes to: code, choice and next, and the new image's length.
#[derive(Clone, Copy)]
pub struct Carried {
    pub code: u8,
    pub choice: u8,
    pub next: u8,
    pub length: u16,
}

fn decline(code: u8, x: Choice) -> Told
    ensures { result ≡ declined code x }
{
    Told {
        code,
        choice: x.kind(),
        next: x.runs().0,
        number: rules::NOBODY,
        length: 0,
    }
}

// The event happens to the state loaded, and the next state is saved into the board's buffer.
fn act(s: State, e: Event, out: &mut [u8]) -> Told
    requires { Consists s }
    ensures { (result, out.new) ≡ actedOn (view s) (outcome e (view s)) out.old }
{
    let reply = s.act(e);
    if reply.code != codes::DONE {
        return decline(reply.code, s.choose());
    }
    let saved = image::keep(reply.state, out);
    if saved.code != codes::DONE {
        return decline(codes::SHORT, s.choose());
    }
    Told {
        code: codes::DONE,
        choice: reply.choice.kind(),
        next: reply.choice.runs().0,
        number: reply.number.0,
        length: saved.length as u16,
    }
}

// 13 for a kind that is not known, 12 for all else that is no whole record.
fn bad(got: Read) -> u8
    ensures { result ≡ bad_code got }
{
    match got {
        Read::UnknownKind => codes::UNKNOWN_KIND,
        _ => codes::CUT_SHORT,
    }
}

// The state loaded takes one record, and nothing behind it.
fn take(s: State, rec: &[u8], out: &mut [u8]) -> Told
    requires { Consists s }
    ensures { (result, out.new) ≡ step_on (view s) rec.now out.old }
{
    let got = journal::read_at(rec, 0);
    let Read::Record { event, next } = got else {
        return decline(bad(got), s.choose());
    };
    if next != rec.len() {
        return decline(codes::CUT_SHORT, s.choose());
    }
    act(s, event, out)
}

fn step(image: &[u8], rec: &[u8], out: &mut [u8]) -> Told
    ensures { Boards image.now rec.now out.old (result, out.new) }
{
    let from = image::load(image);
    if from.code != codes::DONE {
        return decline(from.code, Choice::Halt);
    }
    take(from.state, rec, out)
}

// One record happens to an image. The code is returned.
pub fn rumqatiss_board(
    image: &[u8],
    rec: &[u8],
    out: &mut [u8],
    choice: &mut u8,
    next: &mut u8,
    number: &mut u8,
    size: &mut u16,
) -> u8
    ensures { Boards image.now rec.now out.old
        (record { code = result; choice = choice.new; next = next.new; number = number.new; length = size.new }, out.new) }
{
    let t = step(image, rec, out);
    *choice = t.choice;
    *next = t.next;
    *number = t.number;
    *size = t.length;
    t.code
}

// Saves the fresh state, and gives the code and the length.
fn begin(out: &mut [u8]) -> Saved
    ensures { ((result.code, result.length, out.new) ≡ fresh_on out.old) × (result.length ≤ longest_image) }
{
    image::keep(State::fresh(), out)
}

// The image of the fresh state. The code is returned.
pub fn rumqatiss_fresh(out: &mut [u8], size: &mut u16) -> u8
    ensures { (result, size.new, out.new) ≡ fresh_on out.old }
{
    let saved = begin(out);
    *size = saved.length as u16;
    saved.code
}

fn unplay(code: u8, x: Choice) -> Brought
    ensures { result ≡ unplayed code x }
{
    Brought {
        code,
        choice: x.kind(),
        next: x.runs().0,
        records: 0,
        bytes: 0,
        length: 0,
    }
}

// The log is replayed on the state loaded, and the state after its whole records saved into the board's buffer.
fn play(s: State, log: &[u8], out: &mut [u8]) -> Brought
    requires { Consists s }
    ensures { (result, out.new) ≡ replay_on (view s) log.now out.old }
{
    if logging::LIMIT < log.len() {
        return unplay(codes::NO_ROOM, s.choose());
    }
    let r = logging::replay(s, log);
    let saved = image::keep(r.state, out);
    if saved.code != codes::DONE {
        return unplay(codes::SHORT, s.choose());
    }
    Brought {
        code: r.code,
        choice: r.choice.kind(),
        next: r.choice.runs().0,
        records: r.records,
        bytes: r.bytes,
        length: saved.length as u16,
    }
}

fn bring(image: &[u8], log: &[u8], out: &mut [u8]) -> Brought
    ensures { Brings image.now log.now out.old (result, out.new) }
{
    let from = image::load(image);
    if from.code != codes::DONE {
        return unplay(from.code, Choice::Halt);
    }
    play(from.state, log, out)
}

// A log is replayed on an image. The code is returned.
pub fn rumqatiss_replay(
    image: &[u8],
    log: &[u8],
    out: &mut [u8],
    choice: &mut u8,
    next: &mut u8,
    records: &mut u32,
    bytes: &mut u32,
    size: &mut u16,
) -> u8
    ensures { Brings image.now log.now out.old
        (record { code = result; choice = choice.new; next = next.new; records = records.new; bytes = bytes.new; length = size.new }, out.new) }
{
    let t = bring(image, log, out);
    *choice = t.choice;
    *next = t.next;
    *records = t.records;
    *bytes = t.bytes;
    *size = t.length;
    t.code
}

fn uncarry(code: u8, x: Choice) -> Carried
    ensures { result ≡ uncarried code x }
{
    Carried {
        code,
        choice: x.kind(),
        next: x.runs().0,
        length: 0,
    }
}

// The state after the update is saved into the board's buffer.
fn carry_to(s: State, out: &mut [u8]) -> Carried
    requires { Consists s }
    ensures { (result, out.new) ≡ carried_on (view s) out.old }
{
    let x = s.choose();
    let saved = image::keep(s, out);
    if saved.code != codes::DONE {
        return uncarry(codes::SHORT, x);
    }
    Carried {
        code: codes::DONE,
        choice: x.kind(),
        next: x.runs().0,
        length: saved.length as u16,
    }
}

fn carry(image: &[u8], out: &mut [u8]) -> Carried
    ensures { Carries image.now out.old (result, out.new) }
{
    let from = image::update(image);
    if from.code != codes::DONE {
        return uncarry(from.code, Choice::Halt);
    }
    carry_to(from.state, out)
}

// An image of a build with older rules becomes one of today's. The code is returned.
pub fn rumqatiss_update(
    image: &[u8],
    out: &mut [u8],
    choice: &mut u8,
    next: &mut u8,
    size: &mut u16,
) -> u8
    ensures { Carries image.now out.old
        (record { code = result; choice = choice.new; next = next.new; length = size.new }, out.new) }
{
    let t = carry(image, out);
    *choice = t.choice;
    *next = t.next;
    *size = t.length;
    t.code
}

// Where in an image the body of the thread with this number stands. The code is returned.
pub fn rumqatiss_look_up(image: &[u8], number: u8, offset: &mut u16, size: &mut u16) -> u8
    ensures { Locates image.now number result offset.new size.new }
{
    let part = image::locate(image, Number(number));
    *offset = part.offset as u16;
    *size = part.length as u16;
    part.code
}

// What an image and its log come to, in a text. The code is returned.
pub fn rumqatiss_report(image: &[u8], log: &[u8], out: &mut [u8], size: &mut u16) -> u8
    ensures { Tells Report image.now log.now out.old
        (record { code = result; length = size.new }, out.new) }
{
    let t = depot::report(image, log, out);
    *size = t.length;
    t.code
}
