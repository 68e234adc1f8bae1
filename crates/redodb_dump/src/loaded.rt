//! The database of a dump.
ghost use Rattle.std.specs.Prelude.{◌≡◌, ℕ, ◌<◌, ◌≤◌, ◌^◌, ◌++◌, [], ◌∷◌, List, Some, decimal, length, take, IfErr, IfOk, IfSome, IsSomeAnd};
ghost use Rattle.redodb_model.specs.Names.{Text};
ghost use Rattle.redodb_live.specs.Support.LiveState.{calls_in, state_in};
ghost use Rattle.redodb_dump.specs.Dumps.{HasCountsUpTo, IsLoadFault, IsStateOver, dump_of, state_line};

use crate::checking::{check_body, check_head};
use crate::fault::LoadFault;
use crate::parsing::parse;
use redodb_history::{cut_at, cut_at_space};
use redodb_live::Live;
use redodb_text::read_number;
use std::alloc::Global;

/// A database in the state of a dump.
#[derive(Drop)]
pub struct Loaded {
    pub live: Live,
    /// How many bytes the dump has.
    pub bytes: usize,
}

/// A text that may begin with a dump.
#[derive(Clone, Copy)]
struct Parts<'a> {
    /// The first line without its LF.
    line: &'a [u8],
    /// How many names it says that there are.
    names: u32,
    /// The bytes after it that it counts.
    body: &'a [u8],
}

/// The number with these decimal digits.
fn size_of(word: &[u8]) -> Option<usize>
    ensures { (n : ℕ) → n < 2 ^ 64 → word.now ≡ decimal n → result ≡ Some n }
{
    let mut size: usize = 0;
    for digit in word {
        if !digit.is_ascii_digit() {
            return None;
        }
        size = size.checked_mul(10)?.checked_add((*digit - b'0') as usize)?;
    }
    Some(size)
}

/// Cuts a text by what its first line says.
fn cut(text: &[u8]) -> Option<Parts<'_>>
    ensures parts { IfSome result (λ parts. (rest : Text)
        × (text.now ≡ parts.line.now ++ 10 ∷ parts.body.now ++ rest)) }
    ensures only { (names : List Text) (body rest : Text) → length names < 2 ^ 32
        → text.now ≡ (state_line names body ++ body) ++ rest
        → IsSomeAnd result (λ parts. (parts.line.now ++ 10 ∷ [] ≡ state_line names body)
        × (parts.names ≡ length names) × (parts.body.now ≡ body)) }
{
    let (line, after) = cut_at(text, b'\n')?;
    let (_, words) = cut_at_space(line);
    let (names, words) = cut_at_space(words);
    let (bytes, _) = cut_at_space(words);
    let names = read_number(names)?;
    let bytes = size_of(bytes)?;
    if bytes > after.len() {
        return None;
    }
    Some(Parts {
        line,
        names,
        body: &after[..bytes],
    })
}

/// The database of the dump that the text begins with.
#[tactic(auto, using(crate::proofs::Taken::taken, crate::proofs::Taken::both_within))]
pub fn load(alloc: Global, text: &[u8]) -> Result<Loaded, LoadFault>
    ensures bytes { IfOk result (λ loaded. loaded.bytes ≤ length text.now) }
    ensures dump { IfOk result (λ loaded. take loaded.bytes text.now
        ≡ dump_of loaded.live.names (state_in loaded.live)) }
    ensures over { IfOk result
        (λ loaded. IsStateOver loaded.live.names (state_in loaded.live)) }

    // As few calls count as answered as the numbers of builds and grants allow.
    ensures calls { IfOk result (λ loaded. (most : ℕ)
        → HasCountsUpTo (state_in loaded.live) most → calls_in loaded.live ≤ most) }

    // A dump is loaded, unless memory runs out or too few calls are left.
    ensures fault { IfErr result (IsLoadFault text.now) }
{
    let Some(parts) = cut(text) else {
        return Err(LoadFault::Line(1));
    };
    let live = parse(alloc, parts.names, parts.body)?;
    check_body(alloc, &live, parts.body)?;
    check_head(alloc, &live, parts.line, parts.body)?;
    Ok(Loaded {
        live,
        bytes: parts.line.len() + 1 + parts.body.len(),
    })
}
