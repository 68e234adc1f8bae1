ghost use Rattle.std.specs.Prelude.{◌≡◌, position, ◌==◌};

use memchr::memchr;

/// The first place of a byte.
pub fn position_of(text: &[u8], byte: u8) -> Option<usize>
    ensures { result ≡ position (λ b. b == byte) text.now }
{
    memchr(byte, text)
}

/// The same, fast if the place is near.
#[inline]
pub fn near_position_of(text: &[u8], byte: u8) -> Option<usize>
    ensures { result ≡ position (λ b. b == byte) text.now }
{
    text.iter().position(|b| *b == byte)
}
