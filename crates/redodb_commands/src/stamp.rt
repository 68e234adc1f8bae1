ghost use Rattle.std.specs.Prelude.{◌≡◌, ◌≤◌, List, ℕ, length, take, bytes_eq, IfSome, is_some, true};
ghost use Rattle.std.specs.Cmp.{partial_equiv_from_equiv};
ghost use Rattle.std.specs.Cmp.Lexicographic.{nat_list_eq_equiv};
ghost use Rattle.std.specs.Cmp.Rules.{hashing};
ghost use Rattle.std.specs.Hash as fed;
ghost use Rattle.std.specs.List.{list_all};
ghost use Rattle.std.proofs.Common.{rules};
ghost use Rattle.redodb_model.specs.Names.{is_visible};
ghost use Rattle.redodb_commands.specs.Stamp.{is_stamp as stamp_test, is_placeholder as placeholder_test};
ghost use Rattle.redodb_commands.specs.Support.Stamp.{padded as padded_list, IsPadded, padded-take, length-taken};

use std::hash::{Hash, Hasher};
use std::marker::Model;

/// How many bytes a file stamp has at most.
pub const LONGEST_STAMP: usize = 64;

/// What a file looked like: 1 to 64 visible bytes of ASCII, not `-` and not `=>`.
#[derive(Clone, Copy, Debug)]
pub struct FileStamp {
    // before the bytes: most stamps are short, and are then read from one line of the cache
    len: u8,
    bytes: [u8; LONGEST_STAMP],
}

impl Model for FileStamp {
    ghost Value = { List ℕ };

    ghost view = { λ stamp. take stamp.len stamp.bytes };

    ghost invariant = { λ stamp. IsPadded stamp.len stamp.bytes };

    ghost inverse = { λ text. record { bytes = padded_list text; len = length text } };

    ghost inverse_ok = { λ stamp is i. record {
      bytes = padded-take stamp.len stamp.bytes is i;
      len = length-taken stamp.len stamp.bytes is i;
    } };
}

fn is_placeholder(text: &[u8]) -> bool
    ensures { result ≡ placeholder_test text.now }
{
    matches!(text, [b'-'] | [b'=', b'>'])
}

fn is_all_visible(text: &[u8]) -> bool
    ensures { result ≡ list_all is_visible text.now }
{
    text.iter().all(|byte| (33..=126).contains(byte))
}

#[tactic(auto, unfolding(crate::specs::Stamp::is_stamp))]
fn is_stamp(text: &[u8]) -> bool
    ensures { result ≡ stamp_test text.now }
{
    !text.is_empty() && text.len() <= LONGEST_STAMP && is_all_visible(text) && !is_placeholder(text)
}

// The text, and zeros after it.
fn padded(text: &[u8]) -> [u8; LONGEST_STAMP]
    requires { length text.now ≤ 64 }
    ensures { result ≡ padded_list text.now }
{
    let mut bytes = [0; LONGEST_STAMP];
    bytes[..text.len()].copy_from_slice(text);
    bytes
}

impl FileStamp {
    /// The stamp with these bytes, if they are those of a stamp.
    #[tactic(auto, unfolding(crate::specs::Stamp::is_stamp))]
    pub fn new(text: &[u8]) -> Option<FileStamp>
        ensures stamp { is_some result ≡ stamp_test text.now }
        ensures bytes { IfSome result (λ stamp. stamp ≡ text.now) }
    {
        if !is_stamp(text) {
            return None;
        }
        Some(FileStamp {
            len: text.len() as u8,
            bytes: padded(text),
        })
    }

    pub fn bytes(&self) -> &[u8]
        ensures bytes { result.now ≡ self.now }
        ensures stamp { stamp_test self.now ≡ true }
    {
        &self.bytes[..self.len as usize]
    }
}

impl PartialEq for FileStamp {
    ghost eq = { bytes_eq };

    ghost laws = { partial_equiv_from_equiv nat_list_eq_equiv };

    fn eq(&self, other: &FileStamp) -> bool {
        self.bytes() == other.bytes()
    }
}

impl Eq for FileStamp {
    ghost laws = { nat_list_eq_equiv };
}

impl Hash for FileStamp {
    ghost hash_input = { fed.slice fed.u8 };

    ghost respects_eq = { Prim.search (hashing, rules) };

    fn hash<H: Hasher>(&self, state: &mut H) {
        self.bytes().hash(state);
    }
}
