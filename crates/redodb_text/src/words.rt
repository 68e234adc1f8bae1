ghost use Rattle.std.specs.Prelude.{◌≡◌, ◌∷◌, [], ◌<◌, length, IfOk, IfSome, OnErr, true, ◌≤◌};
ghost use Rattle.redodb_names.specs.Names.{is_name as name_test};
ghost use Rattle.redodb_names.specs.Support.Names.{Extends};
ghost use Rattle.redodb_model.specs.Names.{Text, text_at};
ghost use Rattle.redodb_text.specs.Questions.{has_bad_byte as bad_byte_test};
ghost use Rattle.redodb_text.specs.Support.Reading.{Reads, name_in, file_stamp_in, file_stamp_or_none_in, content_in, added, words_after, IsNumbered};

use crate::fault::{LineFault, Unread};
use hex::FromHexError;
use redodb_commands::FileStamp;
use redodb_names::{Names, NamesFault, is_name};
use std::alloc::Global;

/// The stamp of a word.
pub(crate) fn file_stamp_of(word: &[u8]) -> Result<FileStamp, Unread>
    ensures { Reads (λ stamp. stamp) result (file_stamp_in word.now) }
{
    match FileStamp::new(word) {
        Some(stamp) => Ok(stamp),
        None => Err(Unread::Fault(LineFault::BadStamp)),
    }
}

/// The stamp of a word, or none for `-`.
pub(crate) fn file_stamp_or_none_of(word: &[u8]) -> Result<Option<FileStamp>, Unread>
    ensures { Reads (λ stamp. stamp) result (file_stamp_or_none_in word.now) }
{
    if word == b"-".as_slice() {
        return Ok(None);
    }
    let stamp = file_stamp_of(word)?;
    Ok(Some(stamp))
}

/// The bytes of the content of a word.
pub(crate) fn content_of(alloc: Global, word: &[u8]) -> Result<Vec<u8>, Unread>
    ensures { Reads (λ content. content.items) result (content_in word.now) }
{
    if word == b"-".as_slice() {
        return Ok(Vec::new(alloc));
    }
    let content = match hex::decode(alloc, word) {
        Ok(content) => content,
        Err(FromHexError::OutOfMemory) => return Err(Unread::Memory),
        Err(_) => return Err(Unread::Fault(LineFault::BadHex)),
    };
    if content.is_empty() {
        return Err(Unread::Fault(LineFault::BadHex));
    }
    Ok(content)
}

/// The number of the one word, if that is a name among the names.
#[inline]
pub(crate) fn known_alone(names: &Names, args: Option<&[u8]>) -> Option<u32>
    ensures { IfSome result (λ number. (text : Text) × (words_after args.entry ≡ text ∷ [])
        × IsNumbered names.now text number) }
{
    names.are_names();
    let text = args?;
    let number = names.number_of(text)?;
    Some(number)
}

/// The number of a word, if it is among the names.
#[inline]
pub(crate) fn known_name(names: &Names, word: &[u8]) -> Result<Option<u32>, Unread>
    ensures reads { Reads (λ _. word.now) result (name_in word.now) }
    ensures name { IfOk result (λ _. name_test word.now ≡ true) }
    ensures known { IfOk result (λ known. IfSome known (IsNumbered names.now word.now)) }
{
    names.are_names();
    match names.number_of(word) {
        Some(number) => Ok(Some(number)),
        None if is_name(word) => Ok(None),
        None => Err(Unread::Fault(LineFault::BadName)),
    }
}

/// The number of a name, which is added if it is new.
#[inline]
pub(crate) fn number_of(
    names: &mut Names,
    known: Option<u32>,
    name: &[u8],
    most: u32,
) -> Result<u32, Unread>
    requires few { length names.old ≤ most }
    requires name { name_test name.now ≡ true }
    requires known { IfSome known (IsNumbered names.old name.now) }
    ensures reads { Reads (λ _. names.new) result (added most names.old name.now) }
    ensures number { IfOk result (λ n. text_at names.new n ≡ name.now) }
    ensures within { IfOk result (λ n. n < length names.new) }
    ensures left { OnErr result (names.new ≡ names.old) }
    ensures kept { Extends names.old names.new }
{
    if let Some(number) = known {
        names.remember(number);
        return Ok(number);
    }
    match names.add(name, most) {
        Ok(number) => Ok(number),
        Err(NamesFault::Full) => Err(Unread::Fault(LineFault::TooManyNames)),
        Err(NamesFault::Memory) => Err(Unread::Memory),
    }
}

/// Whether a byte of a line is neither visible nor a space.
pub(crate) fn has_bad_byte(line: &[u8]) -> bool
    ensures { result ≡ bad_byte_test line.now }
{
    line.iter().any(|b| !(*b >= 32 && *b <= 126))
}
