// Where the next bytes go: a buffer, and the position up to which it is written.
ghost use Rattle.std.specs.Prelude.{[], ◌∷◌};
ghost use Rattle.saving.specs.Puts.{HasRoom, Puts};

#[derive(Drop)]
pub struct Writer<'a> {
    pub out: &'a mut [u8],
    pub at: usize,
}

impl Writer<'_> {
    // Writes bytes at the position, which then stands behind them. Every other byte stays as it was.
    pub fn put(&mut self, bytes: &[u8])
        requires { HasRoom self.old bytes.now }
        ensures { Puts self.old bytes.now self.new }
    {
        let end = self.at + bytes.len();
        self.out[self.at..end].copy_from_slice(bytes);
        self.at = end;
    }

    // Writes one byte.
    pub fn push(&mut self, byte: u8)
        requires { HasRoom self.old (byte ∷ []) }
        ensures { Puts self.old (byte ∷ []) self.new }
    {
        self.out[self.at] = byte;
        self.at += 1;
    }
}
