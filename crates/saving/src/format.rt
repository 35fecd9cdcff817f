// The numbers of the image's format, for those who write it and those who read it: the table of its editions, how long its parts are, and where what stands
// in them.
ghost use Rattle.std.specs.Prelude.{◌≡◌, ◌<◌};
ghost use Rattle.saving.specs.Format.{row_of, newest as newestRow, total_at, head_length, body_length};

// A row of the table of editions: what an edition has of the format. Its queues are the lines 0, 1, ..; its bodies have a parent, or not; it
// may name the places 0, 1, ..
#[derive(Clone, Copy)]
pub struct Row {
    pub edition: u8,
    pub queues: u8,
    pub parents: bool,
    pub places: u8,
}

// The newest edition, which is the last that the table has.
pub const NEWEST: u8 = 4;

// The places that there were before P6.
const PLACES_BEFORE: u8 = 32;

// A row with no queues, no parents and no places: its edition is not known.
const UNKNOWN: Row = Row {
    edition: 0,
    queues: 0,
    parents: false,
    places: 0,
};

// Edition 1 has the queues ready and clock.
const FIRST: Row = Row {
    edition: 1,
    queues: 2,
    parents: false,
    places: PLACES_BEFORE,
};

// Edition 2 has every queue that there is.
const SECOND: Row = Row {
    edition: 2,
    queues: lines::QUEUES as u8,
    ..FIRST
};

// Edition 3 has each thread's parent.
const THIRD: Row = Row {
    edition: 3,
    parents: true,
    ..SECOND
};

// Edition 4 may name every place. In all else it has edition 3's layout.
const FOURTH: Row = Row {
    edition: NEWEST,
    places: lines::PLACES as u8,
    ..THIRD
};

// The table of editions, by their numbers.
const ROWS: [Row; NEWEST as usize + 1] = [UNKNOWN, FIRST, SECOND, THIRD, FOURTH];

// Head: edition, last number, running place or 255, live count, a length for each queue, total length (2 bytes).
pub const EDITION_AT: usize = 0;

pub const LAST_AT: usize = 1;

pub const RUNNING_AT: usize = 2;

pub const LIVE_AT: usize = 3;

pub const LENGTHS_AT: usize = 4;

pub const TOTAL: usize = 2;

// No edition's head is shorter than that of edition 1.
pub const SHORTEST_HEAD: usize = 8;

// Contents, 4 bytes an entry: place, number, offset of its body (2).
pub const ENTRY: usize = 4;

pub const NUMBER_AT: usize = 1;

pub const OFFSET_AT: usize = 2;

// A body, 13 bytes, a parent where the edition has it, and its inbox: standing, partner, word (4), answer code, who, answer word (4), inbox length, parent,
// inbox places.
pub const BODY: usize = 13;

pub const PARENT: usize = 1;

pub const PARTNER_AT: usize = 1;

pub const WORD_AT: usize = 2;

pub const CODE_AT: usize = 6;

pub const WHO_AT: usize = 7;

pub const ANSWER_AT: usize = 8;

pub const INBOX_LENGTH_AT: usize = 12;

pub const PARENT_AT: usize = 13;

// The row of an edition, with no queues, no parents and no places where it is not known. (No Option, since `row_of` of specs/Format.antt has a row for each
// number.)
pub fn row_of(edition: u8) -> Row
    ensures { result ≡ row_of edition }
{
    match ROWS.get(usize::from(edition)) {
        Some(row) => *row,
        None => Row { edition, ..UNKNOWN },
    }
}

// The newest edition has every queue, parents, and every place.
pub fn newest() -> Row
    ensures { result ≡ newestRow }
{
    row_of(NEWEST)
}

// Where the total length stands.
pub fn total_at(row: Row) -> usize
    ensures { result ≡ total_at row }
{
    LENGTHS_AT + row.queues as usize
}

// How long the head is.
pub fn head_length(row: Row) -> usize
    ensures { result ≡ head_length row }
{
    total_at(row) + TOTAL
}

// How long a body is without its inbox.
pub fn body_length(row: Row) -> usize
    ensures { (result ≡ body_length row) × (result < 256) }
{
    if row.parents {
        return BODY + PARENT;
    }
    BODY
}
