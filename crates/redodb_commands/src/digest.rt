ghost use Rattle.std.specs.Prelude.{◌≡◌};

/// The digest in a reply. It lies where a number could, so that a reply is moved by whole words.
#[derive(Clone, Copy, Debug)]
pub struct Digest {
    pub bytes: [u8; 20],
    /// Nothing, but at a multiple of four bytes.
    pub aligned: [u32; 0],
}

impl Digest {
    pub fn new(bytes: [u8; 20]) -> Digest
        ensures { result.bytes ≡ bytes }
    {
        Digest { bytes, aligned: [] }
    }
}
