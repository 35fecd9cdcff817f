// Judging: the head is looked at first, in the document's order. Then a candidate is read, tested whether it is consistent and one that the edition can hold,
// and written again in that edition: the bytes are accepted where that gives them back. So the format is not told a second time.
ghost use Rattle.std.specs.Prelude.{◌≡◌, ◌≢◌, false, ◌≤◌, MatchResult};
ghost use Rattle.lists.specs.Tells.{Tells};
ghost use Rattle.nucleus.specs.View.{view, ConsistsBy};
ghost use Rattle.lists.specs.Sizes.{places, queue_count, line_count};
ghost use Rattle.lines.specs.Lines.{Tidy};
ghost use Rattle.saving.specs.Format.{encode_as};
ghost use Rattle.loading.specs.Loads.{row_at, head_code, Refused, JudgedBy};
ghost use Rattle.loading.specs.Judges.{Bare};

use super::{Loaded, bytes, read};
use lines::Links;
use nucleus::State;
use rules::codes;
use saving::format;
use saving::format::Row;

// The row of the edition that the bytes name.
pub fn row_at(image: &[u8]) -> Row
    ensures { result ≡ row_at image.now }
{
    format::row_of(bytes::at(image, format::EDITION_AT))
}

// The row of the edition, where the head is in order; else the document's code for what is wrong with it, a number since `Loaded` hands it on.
pub fn head(image: &[u8]) -> Result<Row, u8>
    ensures { MatchResult result (λ row. (row ≡ row_at image.now) × (head_code image.now ≡ 0)) (λ code. (code ≡ head_code image.now) × (code ≢ 0)) }
{
    if image.len() < format::SHORTEST_HEAD {
        return Err(codes::WRONG_LENGTH);
    }
    let row = row_at(image);
    if row.queues == 0 {
        return Err(codes::UNKNOWN_EDITION);
    }
    if image.len() < format::head_length(row) {
        return Err(codes::WRONG_LENGTH);
    }
    if bytes::two(image, format::total_at(row)) != image.len() {
        return Err(codes::WRONG_LENGTH);
    }
    Ok(row)
}

// A refusal, which gives the fresh state.
pub fn refuse(code: u8) -> Loaded
    ensures { Refused code result }
{
    Loaded {
        code,
        state: State::fresh(),
    }
}

// Are the bytes the image of the state s, consistent by the old rules at least, in the edition of the row?
fn same(row: Row, image: &[u8], s: State) -> bool
    requires { (row.queues ≤ queue_count) × ConsistsBy false s }
    ensures { Tells result (encode_as row (view s) ≡ image.now) (encode_as row (view s) ≡ image.now → ⊥) }
{
    let mut out = [0u8; saving::LONGEST];
    let n = saving::write(row, &s.arrays, s.desk, &mut out);
    image == &out[..n]
}

// Is every queue empty that the row has not?
fn holds(row: Row, l: &Links) -> bool
    requires { Tidy places line_count l.now }
    ensures { Tells result (Bare l.now row.queues queue_count) (Bare l.now row.queues queue_count → ⊥) }
{
    (row.queues..lines::QUEUES as u8).all(|q| lines::first(l, q).is_none())
}

// Is the state consistent? By the rules as they are, or (strict is false) by the old ones.
fn consists(strict: bool, s: State) -> bool
    ensures { Tells result (ConsistsBy strict s) (ConsistsBy strict s → ⊥) }
{
    audit::consistent_by(strict, &s.arrays, s.desk)
}

// Bytes whose head is in order, of the edition with the row.
pub fn judge(strict: bool, row: Row, image: &[u8]) -> Loaded
    requires { (row ≡ row_at image.now) × (head_code image.now ≡ 0) }
    ensures { JudgedBy strict image.now result }
{
    let s = read::candidate(row, image);
    if !consists(strict, s) {
        return refuse(codes::FOREIGN);
    }
    if !holds(row, &s.arrays.lines) {
        return refuse(codes::FOREIGN);
    }
    if !same(row, image, s) {
        return refuse(codes::FOREIGN);
    }
    Loaded {
        code: codes::DONE,
        state: s,
    }
}
