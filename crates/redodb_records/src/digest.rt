ghost use Rattle.std.specs.Prelude.{◌≡◌};
ghost use Rattle.sha1.specs.Sha1.{sha1};

use sha1::Sha1;

/// The digest of the content that a target's build stamped.
pub fn digest_of(content: &[u8]) -> [u8; 20]
    ensures { result ≡ sha1 content.now }
{
    Sha1::digest(content)
}
