// The board for C: the same six entries under the same names, as symbols of a static library (libboard.a; `c/run` builds it). A crate is a library or a static
// library, and never both, and recovery stands on what board promises: so board is the library, and here each entry is a call of it, under the same promise.
#![tactic(auto)]

ghost use Rattle.std.specs.Prelude.{◌≡◌};
ghost use Rattle.image.specs.Locates.{Locates};
ghost use Rattle.depot.specs.Promise.{Tells};
ghost use Rattle.depot.specs.declared.Sheet.TheVariants.{Report};
ghost use Rattle.board.specs.Promise.{Boards, Brings, fresh_on, Carries};

// One record happens to an image. The code is returned.
#[unsafe(no_mangle)]
pub extern "C" fn rumqatiss_board(
    image: &[u8],
    rec: &[u8],
    out: &mut [u8],
    choice: &mut u8,
    next: &mut u8,
    number: &mut u8,
    size: &mut u16,
) -> u8
    ensures { Boards image.now rec.now out.old
        (record { code = result; choice = choice.new; next = next.new; number = number.new; length = size.new }, out.new) }
{
    board::rumqatiss_board(image, rec, out, choice, next, number, size)
}

// The image of the fresh state. The code is returned.
#[unsafe(no_mangle)]
pub extern "C" fn rumqatiss_fresh(out: &mut [u8], size: &mut u16) -> u8
    ensures { (result, size.new, out.new) ≡ fresh_on out.old }
{
    board::rumqatiss_fresh(out, size)
}

// A log is replayed on an image. The code is returned.
#[unsafe(no_mangle)]
pub extern "C" fn rumqatiss_replay(
    image: &[u8],
    log: &[u8],
    out: &mut [u8],
    choice: &mut u8,
    next: &mut u8,
    records: &mut u32,
    bytes: &mut u32,
    size: &mut u16,
) -> u8
    ensures { Brings image.now log.now out.old
        (record { code = result; choice = choice.new; next = next.new; records = records.new; bytes = bytes.new; length = size.new }, out.new) }
{
    board::rumqatiss_replay(image, log, out, choice, next, records, bytes, size)
}

// An image of a build with older rules becomes one of today's. The code is returned.
#[unsafe(no_mangle)]
pub extern "C" fn rumqatiss_update(
    image: &[u8],
    out: &mut [u8],
    choice: &mut u8,
    next: &mut u8,
    size: &mut u16,
) -> u8
    ensures { Carries image.now out.old
        (record { code = result; choice = choice.new; next = next.new; length = size.new }, out.new) }
{
    board::rumqatiss_update(image, out, choice, next, size)
}

// Where in an image the body of the thread with this number stands. The code is returned.
#[unsafe(no_mangle)]
pub extern "C" fn rumqatiss_look_up(
    image: &[u8],
    number: u8,
    offset: &mut u16,
    size: &mut u16,
) -> u8
    ensures { Locates image.now number result offset.new size.new }
{
    board::rumqatiss_look_up(image, number, offset, size)
}

// What an image and its log come to, in a text. The code is returned.
#[unsafe(no_mangle)]
pub extern "C" fn rumqatiss_report(image: &[u8], log: &[u8], out: &mut [u8], size: &mut u16) -> u8
    ensures { Tells Report image.now log.now out.old
        (record { code = result; length = size.new }, out.new) }
{
    board::rumqatiss_report(image, log, out, size)
}
