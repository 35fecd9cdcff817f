// A buffer that was full of one byte when it was lent: what was written into it, and whether every other byte is as it was.
use console::Hex;
use std::io;

// The byte that a buffer is full of, which stands behind its room in the sizes of a vector.
pub fn fill_of(sizes: &[u8]) -> u8 {
    sizes.get(4).copied().unwrap_or(0)
}

// The bytes from the start to the position, or none.
pub fn wrote(rt: &impl Print, buffer: &[u8], start: usize, position: usize) -> io::Result<()> {
    if position <= start {
        return print!(rt; "-");
    }
    print!(rt; "{}", Hex(buffer.get(start..position).unwrap_or(&[])))
}

// Every other byte is as it was. Where one is not, its position is said, and the line is no longer the stored one.
pub fn kept(
    rt: &impl Print,
    buffer: &[u8],
    fill: u8,
    start: usize,
    position: usize,
) -> io::Result<()> {
    for (i, x) in buffer.iter().enumerate() {
        if *x != fill && !(start..position).contains(&i) {
            return print!(rt; "{i}");
        }
    }
    print!(rt; " kept")
}
