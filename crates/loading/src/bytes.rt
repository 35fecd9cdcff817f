// The bytes of an image, at any position: past the end there are zeros, so that no reader has to know how long the image is.
ghost use Rattle.std.specs.Prelude.{◌≡◌, ◌^◌, ◌<◌, get_or};
ghost use Rattle.lists.specs.Bytes.{two_at, word_at};

// The byte at i.
pub fn at(image: &[u8], i: usize) -> u8
    ensures { result ≡ get_or image.now i 0 }
{
    image.get(i).copied().unwrap_or(0)
}

// The number of two bytes that starts at i.
pub fn two(image: &[u8], i: usize) -> usize
    requires { i < 2 ^ 32 }
    ensures { (result ≡ two_at image.now i) × (result < 2 ^ 16) }
{
    usize::from(u16::from_le_bytes([at(image, i), at(image, i + 1)]))
}

// The word that starts at i.
pub fn word(image: &[u8], i: usize) -> u32
    requires { i < 2 ^ 32 }
    ensures { result ≡ word_at image.now i }
{
    u32::from_le_bytes([
        at(image, i),
        at(image, i + 1),
        at(image, i + 2),
        at(image, i + 3),
    ])
}
