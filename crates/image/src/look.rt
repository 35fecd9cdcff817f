// Looking up: where in the image the body of a thread stands.
ghost use Rattle.std.specs.Prelude.{◌≡◌, ◌+◌, ◌<◌, MatchOption, get_or};
ghost use Rattle.saving.specs.Format.{inbox_length_at, body_length};
ghost use Rattle.loading.specs.Entry.{body_at};
ghost use Rattle.image.specs.Locates.{Locates, NoEntry, FirstEntry};

use super::Part;
use loading::bytes;
use rules::{Number, codes};
use saving::format;
use saving::format::Row;

// The first entry with the number n, if any has it.
fn find(row: Row, image: &[u8], n: Number) -> Option<usize>
    ensures { MatchOption result (NoEntry row image.now n.0) (λ i. FirstEntry row image.now n.0 i) }
{
    let live = usize::from(bytes::at(image, format::LIVE_AT));
    let head = format::head_length(row);
    (0..live).find(|i| bytes::at(image, head + format::ENTRY * *i + format::NUMBER_AT) == n.0)
}

// The body that entry i names, with its inbox.
fn body(row: Row, image: &[u8], i: usize) -> Part
    requires { i < 256 }
    ensures { (result.code ≡ 0) × (result.offset ≡ body_at row image.now i) × (result.length ≡ body_length row + get_or image.now (result.offset + inbox_length_at) 0) }
{
    let entry = format::head_length(row) + format::ENTRY * i;
    let from = bytes::two(image, entry + format::OFFSET_AT);
    let inbox = usize::from(bytes::at(image, from + format::INBOX_LENGTH_AT));
    Part {
        code: codes::DONE,
        offset: from,
        length: format::body_length(row) + inbox,
    }
}

// Where the body of the number n is. Load's code comes first: of bytes that are no image nothing is told.
pub fn part_of(image: &[u8], n: Number) -> Part
    ensures { Locates image.now n.0 result.code result.offset result.length }
{
    let loaded = loading::load(image);
    let code = loaded.code;
    if code != codes::DONE {
        return Part {
            code,
            offset: 0,
            length: 0,
        };
    }
    let row = loading::row_at(image);
    match find(row, image, n) {
        Some(i) => body(row, image, i),
        None => Part {
            code: codes::NOT_LIVE,
            offset: 0,
            length: 0,
        },
    }
}
