ghost use Rattle.std.specs.Prelude.{◌≡◌, ◌<◌, ◌≤◌, ◌+◌, ◌^◌, ℕ, [], Contains, length, map, IfOk};
ghost use Rattle.redodb_graph.specs.Pairs.{AreAscending, AreThose, IsStart};
ghost use Rattle.redodb_graph.specs.Support.Pairs.{AreBlocks, AreStarts};

use crate::keys::push_names;
use redodb_names::in_order;
use std::alloc::{AllocError, Global};
use std::mem;

fn bare_blocks(alloc: Global, count: u32) -> Result<Vec<Vec<u32>>, AllocError>
    ensures count { IfOk result (λ blocks. length blocks.items ≡ count) }
    ensures bare { IfOk result
        (λ blocks. AreBlocks 0 [] (map (λ block. block.items) blocks.items)) }
{
    let mut blocks = Vec::with_capacity(alloc, count as usize)?;
    for _ in 0..count {
        blocks.push(Vec::new(alloc))?;
    }
    Ok(blocks)
}

/// A block for each first number below `count`: the second numbers of its pairs.
fn blocks_of(alloc: Global, count: u32, pairs: &[(u32, u32)]) -> Result<Vec<Vec<u32>>, AllocError>
    requires { (p : ℕ × ℕ) → Contains pairs.now p → p.0 < count }
    ensures count { IfOk result (λ blocks. length blocks.items ≡ count) }
    ensures blocks { IfOk result
        (λ blocks. AreBlocks 0 pairs.now (map (λ block. block.items) blocks.items)) }
{
    let mut blocks = bare_blocks(alloc, count)?;
    for pair in pairs {
        blocks[pair.0 as usize].push(pair.1)?;
    }
    Ok(blocks)
}

/// The pairs in ascending order, each once. Their first numbers are below `count`.
pub(crate) fn each_once(
    alloc: Global,
    count: u32,
    listed: &[(u32, u32)],
) -> Result<Vec<(u32, u32)>, AllocError>
    requires { (p : ℕ × ℕ) → Contains listed.now p → p.0 < count }
    ensures ascending { IfOk result (λ pairs. AreAscending pairs.items) }
    ensures those { IfOk result (λ pairs. AreThose listed.now pairs.items) }
{
    let mut blocks = blocks_of(alloc, count, listed)?;
    let mut pairs = Vec::with_capacity(alloc, listed.len())?;
    for first in 0..count {
        let block = mem::replace(&mut blocks[first as usize], Vec::new(alloc));
        push_names(&mut pairs, first, &in_order(block))?;
    }
    Ok(pairs)
}

/// The place where the pairs begin whose first number isn't below this one.
fn start_of(pairs: &[(u32, u32)], first: u32) -> usize
    requires { AreAscending pairs.now }
    ensures { IsStart pairs.now first result }
{
    pairs.partition_point(|pair| pair.0 < first)
}

/// Where the pairs of each first number up to `count` begin.
pub(crate) fn starts_of(
    alloc: Global,
    count: u32,
    pairs: &[(u32, u32)],
) -> Result<Vec<u32>, AllocError>
    requires ascending { AreAscending pairs.now }
    requires few { length pairs.now < 2 ^ 32 }
    ensures { IfOk result (λ starts. AreStarts pairs.now (count + 1) starts.items) }
{
    let mut starts = Vec::with_capacity(alloc, count as usize + 1)?;
    for first in 0..count {
        starts.push(start_of(pairs, first) as u32)?;
    }
    starts.push(start_of(pairs, count) as u32)?;
    Ok(starts)
}
