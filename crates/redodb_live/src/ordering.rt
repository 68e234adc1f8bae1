ghost use Rattle.std.specs.Prelude.{◌≡◌, IfOk};
ghost use Rattle.std.specs.List.Sorted.{IsPermutation, IsSorted};
ghost use Rattle.std.specs.Cmp.Lexicographic.{slice_cmp};
ghost use Rattle.std.specs.Ordering.{nat_cmp};
ghost use Rattle.redodb_model.specs.Names.{text_at, by_text};
ghost use Rattle.redodb_commands.specs.Meaning.{reply_of};
ghost use Rattle.redodb_live.specs.Support.Ordered.{IsSortedReply};

use redodb_commands::Reply;
use redodb_names::Names;
use std::alloc::{AllocError, Global};
use std::cmp::Ordering;

/// The text of a number; none if no name has it.
fn text_of(names: &Names, n: u32) -> &[u8]
    ensures { result.now ≡ text_at names.now n }
{
    if n < names.len() { names.text(n) } else { &[] }
}

fn order_of(names: &Names, a: u32, b: u32) -> Ordering
    ensures { result ≡ slice_cmp nat_cmp (text_at names.now a) (text_at names.now b) }
{
    text_of(names, a).cmp(text_of(names, b))
}

/// Sorts the numbers by their texts. Allocates nothing.
pub(crate) fn sort(names: &Names, numbers: &mut Vec<u32>)
    ensures same { IsPermutation numbers.old.items numbers.new.items }
    ensures sorted { IsSorted (by_text names.now).order numbers.new.items }
{
    numbers.sort_unstable_by(|a, b| order_of(names, *a, *b));
}

/// The reply's list of names; empty if it has none.
pub(crate) fn list_of(reply: &Reply) -> &[u32] {
    match reply {
        Reply::Stale(list) | Reply::Ood(list) | Reply::Targets(list) | Reply::Sources(list) => list,
        _ => &[],
    }
}

/// The numbers in ascending order.
pub(crate) fn ascending(alloc: Global, numbers: &[u32]) -> Result<Vec<u32>, AllocError>
    ensures { IfOk result (λ copy. IsPermutation numbers.now copy.items) }
{
    // Most replies have no list.
    if numbers.is_empty() {
        return Ok(Vec::new(alloc));
    }
    let mut copy = Vec::from_slice(alloc, numbers)?;
    copy.sort_unstable();
    Ok(copy)
}

/// Sorts the numbers by their texts. This is fast if the guess is right.
fn sort_guessed(names: &Names, numbers: &mut Vec<u32>, guess: &[u32], ascending: &[u32])
    requires { IsPermutation guess.now ascending.now }
    ensures same { IsPermutation numbers.old.items numbers.new.items }
    ensures sorted { IsSorted (by_text names.now).order numbers.new.items }
{
    if ascending == numbers.as_slice() {
        numbers.copy_from_slice(guess);
    }
    sort(names, numbers);
}

/// The reply with its list of names, if it has one, in the order of their texts. Allocates nothing.
/// This is fast if the guess is right: then texts are compared only to see that its list is sorted.
/// Callers pass the guess in `ascending` order too.
pub(crate) fn ordered(names: &Names, mut reply: Reply, guess: &[u32], ascending: &[u32]) -> Reply
    requires { IsPermutation guess.now ascending.now }
    ensures { IsSortedReply (by_text names.now).order (reply_of reply) (reply_of result) }
{
    match &mut reply {
        Reply::Stale(list) => sort_guessed(names, list, guess, ascending),
        Reply::Ood(list) => sort_guessed(names, list, guess, ascending),
        Reply::Targets(list) => sort_guessed(names, list, guess, ascending),
        Reply::Sources(list) => sort_guessed(names, list, guess, ascending),
        _ => {}
    }
    reply
}
