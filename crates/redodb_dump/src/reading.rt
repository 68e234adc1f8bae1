//! The words of a name's line. Of words that no dump has, what is printed of them decides.
ghost use Rattle.std.specs.Prelude.{◌≡◌, ℕ, ◌+◌, ◌<◌, ◌++◌, Option, None, Some, IfSome, IsSomeAnd, codes, decimal, option_map, true};
ghost use Rattle.hex.specs.Hex.{encode_lower};
ghost use Rattle.redodb_model.specs.Names.{Text};
ghost use Rattle.redodb_model.specs.State as states;
ghost use Rattle.redodb_model.specs.State.{Building};
ghost use Rattle.redodb_records.specs.Meaning.{target_state_of};
ghost use Rattle.redodb_commands.specs.Stamp.{is_stamp};
ghost use Rattle.redodb_text.specs.Replies.{IsDigest};
ghost use Rattle.redodb_dump.specs.Dumps.{build_words, cell_words};
ghost use Rattle.redodb_dump.specs.Support.Forms.{IsToldCell};
ghost use Rattle.redodb_dump.specs.Support.Read.{IsKnown, joined};

use hex::FromHex;
use redodb_commands::FileStamp;
use redodb_history::{cut_at_space, session_of};
use redodb_live::MOST_SESSIONS;
use redodb_records::{Cell, State};
use redodb_text::read_number;

/// What is known of a name but its rows.
#[derive(Drop)]
pub(crate) struct Known {
    pub cell: Cell,
    pub holder: Option<u16>,
    pub grants: u32,
}

/// A stamp, or none for `-`.
fn file_of(word: &[u8]) -> Option<Option<FileStamp>>
    ensures none { word.now ≡ codes "-" → result ≡ Some None }
    ensures stamp { is_stamp word.now ≡ true → result ≡ Some (Some word.now) }
{
    if word == b"-".as_slice() {
        return Some(None);
    }
    let stamp = FileStamp::new(word)?;
    Some(Some(stamp))
}

/// The stamp of the last done: that of the file for `=`.
fn done_of(word: &[u8], file: &Option<FileStamp>) -> Option<Option<FileStamp>>
    ensures same { word.now ≡ codes "=" → result ≡ Some file.now }
    ensures none { word.now ≡ codes "-" → result ≡ Some None }
    ensures stamp { (stamp : Text) → is_stamp stamp ≡ true → word.now ≡ codes "s" ++ stamp
        → result ≡ Some (Some stamp) }
{
    if word == b"=".as_slice() {
        return Some(*file);
    }
    match word.strip_prefix(b"s".as_slice()) {
        Some(stamp) => file_of(stamp),
        None => Some(None),
    }
}

/// The 20 bytes with these hexadecimal digits.
pub(crate) fn bytes_of(word: &[u8]) -> Option<[u8; 20]>
    ensures { (digest : Text) → IsDigest digest → word.now ≡ encode_lower digest
        → result ≡ Some digest }
{
    <[u8; 20] as FromHex>::from_hex(word).ok()
}

/// A digest, or none for `-`.
fn digest_of(word: &[u8]) -> Option<Option<[u8; 20]>>
    ensures none { word.now ≡ codes "-" → result ≡ Some None }
    ensures digest { (digest : Text) → IsDigest digest → word.now ≡ encode_lower digest
        → result ≡ Some (Some digest) }
{
    if word == b"-".as_slice() {
        return Some(None);
    }
    let digest = bytes_of(word)?;
    Some(Some(digest))
}

/// A session, counted from 0, or none for `-`.
#[tactic(auto, using(crate::proofs::DumpWords::same_number))]
fn holder_of(word: &[u8]) -> Option<Option<u16>>
    ensures number { IfSome result (λ holder. IfSome holder (λ s. s < 65535)) }
    ensures none { word.now ≡ codes "-" → result ≡ Some None }
    ensures session { (s : ℕ) → s < 65535 → word.now ≡ decimal (s + 1)
        → result ≡ Some (Some s) }
{
    if word == b"-".as_slice() {
        return Some(None);
    }
    let session = session_of(word, MOST_SESSIONS)?;
    Some(Some(session))
}

/// A state. The holder builds what is being built.
fn state_of(word: &[u8], holder: Option<u16>) -> Option<State>
    ensures builder { IfSome result (λ state. (s : ℕ) → target_state_of state ≡ Building s
        → holder ≡ Some s) }
    ensures building { (s : ℕ) → holder ≡ Some s → word.now ≡ codes "building"
        → option_map target_state_of result ≡ Some (Building s) }
    ensures built { word.now ≡ codes "built"
        → option_map target_state_of result ≡ Some states.Built }
    ensures failed { word.now ≡ codes "failed"
        → option_map target_state_of result ≡ Some states.Failed }
    ensures idle { word.now ≡ codes "idle"
        → option_map target_state_of result ≡ Some states.Idle }
{
    if word == b"building".as_slice() {
        let session = holder?;
        return Some(State::Building(session));
    }
    if word == b"built".as_slice() {
        return Some(State::Built);
    }
    if word == b"failed".as_slice() {
        return Some(State::Failed);
    }
    if word == b"idle".as_slice() {
        Some(State::Idle)
    } else {
        None
    }
}

/// What is known of a name with this file, by the words after that.
fn build_of(file: Option<FileStamp>, words: &[u8]) -> Option<Known>
    ensures builder { IfSome result (λ known. (s : ℕ) → known.cell.state ≡ Building s
        → known.holder ≡ Some s) }
    ensures session { IfSome result (λ known. IfSome known.holder (λ s. s < 65535)) }
    ensures only { (cell : states.Cell) (grants : ℕ) (holder : Option ℕ)
        → IsToldCell cell grants holder → file ≡ cell.file
        → words.now ≡ joined (build_words cell grants holder)
        → IsSomeAnd result (IsKnown cell grants holder) }
{
    let (state, rest) = cut_at_space(words);
    let (builds, rest) = cut_at_space(rest);
    let (done, rest) = cut_at_space(rest);
    let (digest, rest) = cut_at_space(rest);
    let (grants, holder) = cut_at_space(rest);
    let builds = read_number(builds)?;
    let done = done_of(done, &file)?;
    let digest = digest_of(digest)?;
    let grants = read_number(grants)?;
    let holder = holder_of(holder)?;
    let state = state_of(state, holder)?;
    Some(Known {
        cell: Cell::known(builds, state, file, done, digest),
        holder,
        grants,
    })
}

/// What is known of a name, by the words after it. What a session builds, it holds.
pub(crate) fn known_of(words: &[u8]) -> Option<Known>
    ensures builder { IfSome result (λ known. (s : ℕ) → known.cell.state ≡ Building s
        → known.holder ≡ Some s) }
    ensures session { IfSome result (λ known. IfSome known.holder (λ s. s < 65535)) }
    ensures only { (cell : states.Cell) (grants : ℕ) (holder : Option ℕ)
        → IsToldCell cell grants holder → words.now ≡ joined (cell_words cell grants holder)
        → IsSomeAnd result (IsKnown cell grants holder) }
{
    let (word, rest) = cut_at_space(words);
    let file = file_of(word)?;
    if rest.is_empty() {
        return Some(Known {
            cell: Cell::known(0, State::Idle, file, None, None),
            holder: None,
            grants: 0,
        });
    }
    build_of(file, rest)
}
