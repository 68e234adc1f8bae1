//! The orders in which sessions can take their turns.
ghost use Rattle.std.specs.Prelude.{◌<◌, length, IfSome};

use std::alloc::{AllocError, Global};

/// The sessions' turns, as many of each as this, the first session's first.
pub(crate) fn first_order(alloc: Global, steps: &[usize]) -> Result<Vec<usize>, AllocError> {
    let mut turns = Vec::new(alloc);
    for (session, &count) in steps.iter().enumerate() {
        for _ in 0..count {
            turns.push(session)?;
        }
    }
    Ok(turns)
}

/// The last turn that is below the one after it.
fn rise(turns: &[usize]) -> Option<usize>
    ensures { IfSome result (λ at. at < length turns.now) }
{
    for at in (1..turns.len()).rev() {
        if turns[at - 1] < turns[at] {
            return Some(at - 1);
        }
    }
    None
}

/// The last turn that is above this one.
fn above(turns: &[usize], at: usize) -> Option<usize>
    requires { at < length turns.now }
    ensures { IfSome result (λ other. other < length turns.now) }
{
    for other in (0..turns.len()).rev() {
        if turns[at] < turns[other] {
            return Some(other);
        }
    }
    None
}

/// Goes on to the next order of the same turns in dictionary order, if there is one.
pub(crate) fn advance(turns: &mut [usize]) -> bool {
    let Some(at) = rise(turns) else {
        return false;
    };
    let Some(other) = above(turns, at) else {
        return false;
    };
    turns.swap(at, other);
    turns[at + 1..].reverse();
    true
}
