//! The lines of rows. Of lines that no dump has, what is printed of them decides.
ghost use Rattle.std.specs.Prelude.{◌≡◌, ◌≢◌, ℕ, ◌+◌, ◌-◌, ◌<◌, ◌≤◌, ◌^◌, ◌++◌, [], ◌∷◌, List, Option, Some, IfSome, IfErr, MatchResult, OnOk, codes, decimal, false, length, option_map, slice_index, true};
ghost use Rattle.std.specs.Char.{is_ascii_digit};
ghost use Rattle.std.specs.List.{flat_map};
ghost use Rattle.std.specs.Str.Parse.{AllDigits};
ghost use Rattle.hex.specs.Hex.{encode_lower};
ghost use Rattle.redodb_model.specs.Names.{Text, text_at};
ghost use Rattle.redodb_model.specs.State as states;
ghost use Rattle.redodb_model.specs.State.{State, mark_in};
ghost use Rattle.redodb_records.specs.Cells.{cell_at};
ghost use Rattle.redodb_records.specs.Meaning.{row_mark_of};
ghost use Rattle.redodb_records.specs.Rows.{rows_of, with_always};
ghost use Rattle.redodb_commands.specs.Stamp.{is_stamp};
ghost use Rattle.redodb_text.specs.Replies.{IsDigest};
ghost use Rattle.redodb_text.specs.Texts.{spaced};
ghost use Rattle.redodb_database.specs.Support.Parts.{AreSameButRows, parts_count};
ghost use Rattle.redodb_live.specs.Answers.{flag_word};
ghost use Rattle.redodb_dump.specs.Dumps.{HasMarkForm, IsDumped, change_word, numbers_of, row_words_at, rows_line};
ghost use Rattle.redodb_dump.specs.Support.Read.{AreCellsUpTo, AreRowsUpTo, AreSameButOf, AreTargetsUpTo, HasNoDigit, HasNoRowsFrom, joined, with_mark, with_sign};

use crate::fault::LoadFault;
use crate::reading::bytes_of;
use redodb_commands::FileStamp;
use redodb_database::Loading;
use redodb_history::{cut_at, cut_at_space};
use redodb_records::Mark;
use redodb_text::read_number;
use std::alloc::AllocError;

/// The number of a name, if it is `least` at least, and there are so many.
fn number_of(word: &[u8], least: u32, count: u32) -> Option<u32>
    ensures few { IfSome result (λ n. n < count) }
    ensures only { (n : ℕ) → word.now ≡ decimal n → least ≤ n → n < count → result ≡ Some n }
{
    let n = read_number(word)?;
    if n < least {
        return None;
    }
    if n >= count {
        return None;
    }
    Some(n)
}

/// Whether a word begins with a plus, and what follows it.
fn cut_plus(word: &[u8]) -> (bool, &[u8])
    ensures plus { (rest : Text) → word.now ≡ codes "+" ++ rest
        → (result.0 ≡ true) × (result.1.now ≡ rest) }
    ensures none { ((rest : Text) → word.now ≢ codes "+" ++ rest)
        → (result.0 ≡ false) × (result.1.now ≡ word.now) }
{
    match word.strip_prefix(b"+".as_slice()) {
        Some(rest) => (true, rest),
        None => (false, word),
    }
}

/// How many digits a word begins with.
fn digits_end(word: &[u8]) -> usize
    ensures within { result ≤ length word.now }
    ensures digits { (k : ℕ) → k < result → is_ascii_digit (slice_index word.now k) ≡ true }
    ensures end { result < length word.now
        → is_ascii_digit (slice_index word.now result) ≡ false }
{
    for (at, byte) in word.iter().enumerate() {
        if !byte.is_ascii_digit() {
            return at;
        }
    }
    word.len()
}

/// The digits that a word begins with, and what follows them.
fn cut_digits(word: &[u8]) -> (&[u8], &[u8])
    ensures { (digits rest : Text) → AllDigits 10 digits → HasNoDigit rest
        → word.now ≡ digits ++ rest → (result.0.now ≡ digits) × (result.1.now ≡ rest) }
{
    let end = digits_end(word);
    (&word[..end], &word[end..])
}

/// The mark that a word means: for `=`, the one that the name has now.
fn mark_of(word: &[u8], now: Mark) -> Option<Mark>
    ensures same { word.now ≡ codes "="
        → option_map row_mark_of result ≡ Some (row_mark_of now) }
    ensures file { (stamp : Text) → is_stamp stamp ≡ true → word.now ≡ codes "f" ++ stamp
        → option_map row_mark_of result ≡ Some (states.File stamp) }
    ensures digest { (digest : Text) → IsDigest digest → word.now ≡ codes "d" ++ encode_lower digest
        → option_map row_mark_of result ≡ Some (states.Digest digest) }
    ensures builds { (builds : ℕ) → builds < 2 ^ 32 → word.now ≡ codes "b" ++ decimal builds
        → option_map row_mark_of result ≡ Some (states.Builds builds) }
    ensures pending { word.now ≡ codes "p"
        → option_map row_mark_of result ≡ Some states.Pending }
    ensures absent { word.now ≡ codes "a" → option_map row_mark_of result ≡ Some states.Absent }
{
    let (letter, rest) = word.split_first()?;
    match letter {
        b'=' => Some(now),
        b'f' => Some(Mark::File(FileStamp::new(rest)?)),
        b'd' => Some(Mark::Digest(bytes_of(rest)?)),
        b'b' => Some(Mark::Builds(read_number(rest)?)),
        b'p' => Some(Mark::Pending),
        b'a' => Some(Mark::Absent),
        _ => None,
    }
}

/// Puts the change row of `t` on `n` that a word means, if there is one.
#[tactic(auto, using(crate::proofs::SameParts::same_parts, crate::proofs::SameParts::same_after))]
fn put_change(
    loading: &mut Loading,
    number: usize,
    t: u32,
    n: u32,
    word: &[u8],
) -> Result<(), LoadFault>
    requires target { t < parts_count loading.old }
    requires name { n < parts_count loading.old }
    ensures same { AreSameButRows loading.old loading.new }
    ensures only { (change : Option states.Mark) → IfSome change HasMarkForm
        → word.now ≡ change_word (mark_in (cell_at loading.old.cells n).state
        (cell_at loading.old.cells n)) change
        → MatchResult result
        (λ done. rows_of loading.new.rows ≡ with_mark (rows_of loading.old.rows) t n change)
        (λ fault. fault ≡ LoadFault.Memory) }
{
    if word.is_empty() {
        return Ok(());
    }
    let Some(mark) = mark_of(word, loading.mark(n)) else {
        return Err(LoadFault::Line(number));
    };
    loading.put_change(t, n, mark)?;
    Ok(())
}

/// Puts a created row of `t` on `n`, if there is one.
#[tactic(auto, using(crate::proofs::SameParts::same_parts))]
fn put_sign(loading: &mut Loading, t: u32, n: u32, is_created: bool) -> Result<(), AllocError>
    requires target { t < parts_count loading.old }
    requires name { n < parts_count loading.old }
    ensures same { AreSameButRows loading.old loading.new }
    ensures rows { OnOk result
        (rows_of loading.new.rows ≡ with_sign (rows_of loading.old.rows) t n is_created) }
{
    if is_created {
        loading.put_created(t, n)
    } else {
        Ok(())
    }
}

/// Puts the rows of `t` that a word means, on a name with the number `least` at least. Returns the number after that:
/// the numbers of a line ascend, so each row comes after the others of `t`, and costs the same.
#[tactic(auto, using(crate::proofs::SameParts::same_parts, crate::proofs::SameParts::same_after))]
fn put_row(
    loading: &mut Loading,
    number: usize,
    t: u32,
    least: u32,
    word: &[u8],
) -> Result<u32, LoadFault>
    requires { t < parts_count loading.old }
    ensures same { AreSameButRows loading.old loading.new }
    ensures only { (names : List Text) (st : State Text) (n : ℕ) → IsDumped names st
        → length names ≡ parts_count loading.old
        → AreCellsUpTo names st loading.old (length names)
        → least ≤ n → n < length names → AreRowsUpTo names st (rows_of loading.old.rows) t n
        → row_words_at names st (text_at names t) n ≡ word.now ∷ []
        → MatchResult result
        (λ next. (next ≡ n + 1)
        × AreRowsUpTo names st (rows_of loading.new.rows) t (n + 1)
        × AreSameButOf t (rows_of loading.old.rows) (rows_of loading.new.rows))
        (λ fault. fault ≡ LoadFault.Memory) }
{
    let (is_created, rest) = cut_plus(word);
    let (digits, change) = cut_digits(rest);
    let Some(n) = number_of(digits, least, loading.count()) else {
        return Err(LoadFault::Line(number));
    };
    put_sign(loading, t, n, is_created)?;
    put_change(loading, number, t, n, change)?;
    Ok(n + 1)
}

/// How many words these are, if there is a space between each and the next.
fn words_in(words: &[u8]) -> usize {
    words
        .iter()
        .filter(|byte| **byte == b' ')
        .count()
        .saturating_add(1)
}

/// Puts the rows of `t` that these words mean.
#[tactic(auto, using(crate::proofs::SameParts::same_parts, crate::proofs::SameParts::same_after))]
fn put_rows(loading: &mut Loading, number: usize, t: u32, words: &[u8]) -> Result<(), LoadFault>
    requires { t < parts_count loading.old }
    ensures same { AreSameButRows loading.old loading.new }
    ensures only { (names : List Text) (st : State Text) → IsDumped names st
        → length names ≡ parts_count loading.old
        → AreCellsUpTo names st loading.old (length names)
        → HasNoRowsFrom (rows_of loading.old.rows) t 0
        → words.now ≡ joined (flat_map (row_words_at names st (text_at names t)) (numbers_of names))
        → MatchResult result
        (λ done. AreRowsUpTo names st (rows_of loading.new.rows) t (length names)
        × AreSameButOf t (rows_of loading.old.rows) (rows_of loading.new.rows))
        (λ fault. fault ≡ LoadFault.Memory) }
{
    loading.reserve(t, words_in(words))?;
    let mut left = words;
    let mut least = 0;
    'words: while !left.is_empty() {
        let (word, rest) = cut_at_space(left);
        least = put_row(loading, number, t, least, word)?;
        left = rest;
    }
    Ok(())
}

/// Puts an always row of `t`, if the word says that there is one.
#[tactic(auto, using(crate::proofs::SameParts::same_parts))]
fn put_flag(loading: &mut Loading, t: u32, word: &[u8])
    requires { t < parts_count loading.old }
    ensures same { AreSameButRows loading.old loading.new }
    ensures yes { word.now ≡ codes "1"
        → rows_of loading.new.rows ≡ with_always (rows_of loading.old.rows) t }
    ensures no { word.now ≡ codes "0" → rows_of loading.new.rows ≡ rows_of loading.old.rows }
{
    if word == b"1".as_slice() {
        loading.put_always(t);
    }
}

/// Puts the rows of the line with this number, which are those of a target with the number `least` at least. Returns
/// the number after that.
#[tactic(auto, using(crate::proofs::SameParts::same_parts, crate::proofs::SameParts::same_after))]
fn put_target(
    loading: &mut Loading,
    number: usize,
    least: u32,
    line: &[u8],
) -> Result<u32, LoadFault>
    ensures same { AreSameButRows loading.old loading.new }
    ensures only { (names : List Text) (st : State Text) (t : ℕ) → IsDumped names st
        → length names ≡ parts_count loading.old
        → AreCellsUpTo names st loading.old (length names)
        → least ≤ t → t < length names → AreTargetsUpTo names st (rows_of loading.old.rows) t
        → line.now ≡ spaced (decimal t)
        (flag_word (st.records.rows.always (text_at names t))
        ∷ flat_map (row_words_at names st (text_at names t)) (numbers_of names))
        → MatchResult result
        (λ next. (next ≡ t + 1)
        × AreTargetsUpTo names st (rows_of loading.new.rows) (t + 1))
        (λ fault. fault ≡ LoadFault.Memory) }
{
    let (target, rest) = cut_at_space(line);
    let (always, words) = cut_at_space(rest);
    let Some(t) = number_of(target, least, loading.count()) else {
        return Err(LoadFault::Line(number));
    };
    put_flag(loading, t, always);
    put_rows(loading, number, t, words)?;
    Ok(t + 1)
}

/// Puts the rows of lines, the first of which has this number.
#[tactic(auto, using(crate::proofs::SameParts::same_parts, crate::proofs::SameParts::same_after))]
pub(crate) fn put_targets(
    loading: &mut Loading,
    first: usize,
    lines: &[u8],
) -> Result<(), LoadFault>
    ensures same { AreSameButRows loading.old loading.new }
    ensures only { (names : List Text) (st : State Text) → first < 2 ^ 33 → IsDumped names st
        → length names ≡ parts_count loading.old
        → AreCellsUpTo names st loading.old (length names)
        → AreTargetsUpTo names st (rows_of loading.old.rows) 0
        → lines.now ≡ flat_map (rows_line names st) (numbers_of names)
        → MatchResult result
        (λ done. AreTargetsUpTo names st (rows_of loading.new.rows) (length names))
        (λ fault. fault ≡ LoadFault.Memory) }
{
    let mut left = lines;
    let mut least = 0;
    for number in first..usize::MAX {
        let Some((line, rest)) = cut_at(left, b'\n') else {
            break;
        };
        least = put_target(loading, number, least, line)?;
        left = rest;
    }
    Ok(())
}
