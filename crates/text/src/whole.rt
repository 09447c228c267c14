// A whole text that a program prints, in an array of fixed size.

ghost use Rattle.std.specs.Prelude.{◌≡◌, ◌≤◌, length, take};

// How long the text is, and its bytes, in front of an array with room for every text of its kind.
#[derive(Clone, Copy)]
pub struct Text<const N: usize> {
    pub length: usize,
    pub bytes: [u8; N],
    pub ghost within: { length ≤ N },
}

impl<const N: usize> Text<N> {
    // The bytes of the text.
    pub fn as_bytes(&self) -> &[u8]
        ensures { result.now ≡ take self.now.length self.now.bytes }
    {
        &self.bytes[..self.length]
    }
}
