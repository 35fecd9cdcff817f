// The depot's texts (document 02, P7): what the report and the loads that wait say of an image and its log. Each is written into a buffer that is longer than
// it, and then into one that is a byte too short. The buffers are full of one byte, and what is not written must be so still.
use depot::Sheet;
use std::io;

const FILL: u8 = 0xa6;

// No text is longer.
const ROOM: usize = depot::LONGEST_LOADS + 1;

pub fn all(rt: &impl Print) -> io::Result<()> {
    counted(rt)?;
    waiting(rt)?;
    stopped(rt)?;
    refused(rt)?;
    images_of_length(rt)?;
    logs_of_length(rt)
}

// The document's own text.
fn counted(rt: &impl Print) -> io::Result<()> {
    of_pair(rt, "the pair", b"")
}

// 0 receives any, and 1 and 2 send to it: 1 is received, and 2 is not.
fn waiting(rt: &impl Print) -> io::Result<()> {
    of_fresh(
        rt,
        "two loads",
        b"\x01\x01\x01\x03\xff\x02\0\x07\0\0\0\x02\0\xff\xff\xff\xff",
    )
}

// The same, with a byte of the last record lost; and a kind that is not known before that record.
fn stopped(rt: &impl Print) -> io::Result<()> {
    of_fresh(
        rt,
        "cut to 16 bytes",
        b"\x01\x01\x01\x03\xff\x02\0\x07\0\0\0\x02\0\xff\xff\xff",
    )?;
    of_fresh(
        rt,
        "kind 11 behind the first load",
        b"\x01\x01\x01\x03\xff\x02\0\x07\0\0\0\x0b\x02\0\xff\xff\xff\xff",
    )
}

// Nothing at all; an edition that is not known; and 0, which is ready, but stands in no queue. The log is not looked at.
fn refused(rt: &impl Print) -> io::Result<()> {
    both(rt, "no image", b"", b"\x01")?;
    both(rt, "edition 5", b"\x05\xfd\xff\0\0\0\x08\0", b"\x01")?;
    let alone = b"\x01\0\xff\x01\0\0\x19\0\0\0\x0c\0\x02\xff\0\0\0\0\0\xff\0\0\0\0\0";
    both(rt, "0 is ready, and in no queue", alone, b"\x01")
}

// Over 65,535 bytes the edition is not looked at.
fn images_of_length(rt: &impl Print) -> io::Result<()> {
    let image = [9u8; depot::IMAGE_LIMIT + 1];
    both(rt, "65535 bytes of 9", &image[..depot::IMAGE_LIMIT], b"")?;
    both(rt, "65536 bytes of 9", &image, b"")
}

// A wait for each byte: two are done, and the others refused, which are records as well. Over 32,768 bytes none of them happens.
fn logs_of_length(rt: &impl Print) -> io::Result<()> {
    let waits = [6u8; logging::LIMIT + 1];
    of_pair(rt, "the pair with 32768 waits", &waits[..logging::LIMIT])?;
    of_pair(rt, "the pair with 32769 waits", &waits)
}

// A log behind document 01's 43-byte image.
fn of_pair(rt: &impl Print, what: &str, log: &[u8]) -> io::Result<()> {
    let pair =
        b"\x01\x01\0\x02\x01\0\x2b\0\0\0\x11\0\x01\x01\x1e\0\x01\x01\xff\0\0\0\0\0\xff\0\0\0\0\0\x02\xff\0\0\0\0\0\xff\0\0\0\0\0";
    both(rt, what, pair, log)
}

// A log behind its image of no threads.
fn of_fresh(rt: &impl Print, what: &str, log: &[u8]) -> io::Result<()> {
    let fresh = b"\x01\xfd\xff\0\0\0\x08\0";
    both(rt, what, fresh, log)
}

// The two texts.
fn both(rt: &impl Print, what: &str, image: &[u8], log: &[u8]) -> io::Result<()> {
    print!(rt; "{what}, report: ")?;
    shown(rt, image, log, Sheet::Report)?;
    print!(rt; "{what}, loads: ")?;
    shown(rt, image, log, Sheet::Pay)
}

// What is told into a buffer that is long enough, and the text; and then into one that is a byte too short, where there is none.
fn shown(rt: &impl Print, image: &[u8], log: &[u8], sheet: Sheet) -> io::Result<()> {
    let mut buffer = [FILL; ROOM];
    let n = told(rt, image, log, sheet, &mut buffer)?;
    rt.write_all(console::front(&buffer, n))?;
    if n > 0 {
        print!(rt; "    in a byte less: ")?;
        shortened(rt, image, log, sheet, n - 1)?;
    }
    Ok(())
}

fn shortened(
    rt: &impl Print,
    image: &[u8],
    log: &[u8],
    sheet: Sheet,
    room: usize,
) -> io::Result<()> {
    let mut buffer = [FILL; ROOM];
    if let Some(out) = buffer.get_mut(..room) {
        told(rt, image, log, sheet, out)?;
    }
    Ok(())
}

// `CODE, LENGTH bytes`, and whether the buffer is as it was behind them. The length.
fn told(
    rt: &impl Print,
    image: &[u8],
    log: &[u8],
    sheet: Sheet,
    out: &mut [u8],
) -> io::Result<usize> {
    let t = match sheet {
        Sheet::Report => depot::report(image, log, out),
        Sheet::Pay => depot::loads(image, log, out),
    };
    let n = usize::from(t.length);
    print!(rt; "{}, {n} bytes", t.code)?;
    if out.iter().skip(n).all(|x| *x == FILL) {
        print!(rt; ", and the buffer as it was")?;
    }
    println!(rt)?;
    Ok(n)
}
