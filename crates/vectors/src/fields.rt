// The fields of a vector. Two bytes say how long a field is, and it follows. A vector is a field too, of the file.
ghost use Rattle.std.specs.Prelude.{◌≡◌, ◌+◌, length, IfSome};

// The field at the start of the bytes, and what follows it; none where it is not all there. What follows is shorter than the bytes, so whoever goes from field
// to field comes to the end.
pub fn split(bytes: &[u8]) -> Option<(&[u8], &[u8])>
    ensures { IfSome result (λ parts. 2 + length parts.0.now + length parts.1.now ≡ length bytes.now) }
{
    let (size, rest) = bytes.split_first_chunk::<2>()?;
    rest.split_at_checked(usize::from(u16::from_le_bytes(*size)))
}

// The first field of a vector. Of one that is not all there, what there is of it.
pub fn first(vector: &[u8]) -> &[u8] {
    match split(vector) {
        Some((field, _)) => field,
        None => vector.get(2..).unwrap_or(&[]),
    }
}

pub fn second(vector: &[u8]) -> &[u8] {
    first(behind(vector))
}

pub fn third(vector: &[u8]) -> &[u8] {
    second(behind(vector))
}

// What follows the first field.
fn behind(vector: &[u8]) -> &[u8] {
    match split(vector) {
        Some((_, rest)) => rest,
        None => &[],
    }
}

// A number of four bytes, little-endian; 0 where they are not all there.
pub fn number_at(field: &[u8], at: usize) -> usize {
    field
        .get(at..)
        .and_then(|rest| rest.first_chunk::<4>())
        .map_or(0, |bytes| u32::from_le_bytes(*bytes) as usize)
}
