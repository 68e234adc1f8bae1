//! The database that a dump's lines mean. If they are no dump's, what is printed of it decides.
ghost use Rattle.std.specs.Prelude.{◌≡◌, ◌⊎◌, ℕ, ◌<◌, ◌≤◌, ◌+◌, ◌*◌, ◌^◌, ◌++◌, List, Some, length, take, IfOk, IfSome, IsOkAnd, IsTrue, IsFalse, MatchResult, OnOk};
ghost use Rattle.std.specs.List.{flat_map};
ghost use Rattle.redodb_model.specs.Names.{Text, text_at};
ghost use Rattle.redodb_model.specs.State.{State, Building, target_state};
ghost use Rattle.redodb_database.specs.Support.Parts.{parts_count};
ghost use Rattle.redodb_database.specs.Tables.{calls_of, locks_of, state_of, tables_count, tables_records};
ghost use Rattle.redodb_live.specs.Support.LiveState.{calls_in, state_in};
ghost use Rattle.redodb_dump.specs.Dumps.{HasCountsUpTo, HasSessions, IsDumped, IsWorn, body_of, cell_line};
ghost use Rattle.redodb_dump.specs.Support.Read.{AreCellsUpTo, IsNumbered};
ghost use Rattle.redodb_dump.specs.Support.SetParts.{AreSetUpTo, HasNumbersUpTo};

use crate::fault::LoadFault;
use crate::reading::known_of;
use crate::reading_rows::put_targets;
use redodb_database::{Loading, Redo};
use redodb_history::{cut_at, cut_at_space};
use redodb_live::Live;
use redodb_names::{Names, NamesFault, is_name};
use std::alloc::Global;

/// How many names a database has at most.
const MOST_NAMES: u32 = 16_777_216;

/// The number of the line of the name with this number.
fn line_of(n: u32) -> usize
    ensures { result ≡ n + 2 }
{
    n as usize + 2
}

/// Adds the name that the first line begins with, which has to get this number. Returns what follows the line.
fn add_name<'a>(names: &mut Names, n: u32, left: &'a [u8]) -> Result<&'a [u8], LoadFault>
    requires { length names.old ≤ 16777216 }
    ensures few { OnOk result (length names.new ≤ 16777216) }
    ensures only { (all : List Text) (st : State Text) (more : Text) → IsDumped all st
        → n < length all → names.old ≡ take n all
        → left.now ≡ cell_line st (text_at all n) ++ more
        → MatchResult result (λ rest. (rest.now ≡ more) × (names.new ≡ take (n + 1) all))
        (λ fault. fault ≡ LoadFault.Memory) }
{
    let Some((line, rest)) = cut_at(left, b'\n') else {
        return Err(LoadFault::Line(line_of(n)));
    };
    let (name, _) = cut_at_space(line);
    if !is_name(name) {
        return Err(LoadFault::Line(line_of(n)));
    }
    match names.add(name, MOST_NAMES) {
        Ok(number) if number == n => Ok(rest),
        Ok(_) => Err(LoadFault::Line(line_of(n))),
        Err(NamesFault::Memory) => Err(LoadFault::Memory),
        Err(NamesFault::Full) => Err(LoadFault::Line(line_of(n))),
    }
}

/// The names that the first `count` lines begin with.
fn read_names(alloc: Global, count: u32, lines: &[u8]) -> Result<Names, LoadFault>
    ensures few { IfOk result (λ names. length names ≤ 16777216) }
    ensures only { (all : List Text) (st : State Text) (more : Text) → IsDumped all st
        → length all ≡ count → lines.now ≡ flat_map (cell_line st) all ++ more
        → MatchResult result (λ names. names ≡ all) (λ fault. fault ≡ LoadFault.Memory) }
{
    let mut names = Names::new(alloc);
    let mut left = lines;
    for n in 0..count {
        left = add_name(&mut names, n, left)?;
    }
    Ok(names)
}

/// Sets what the first line says of the name with this number. Returns what follows the line.
fn set_cell<'a>(loading: &mut Loading, n: u32, left: &'a [u8]) -> Result<&'a [u8], LoadFault>
    requires { n < parts_count loading.old }
    ensures count { parts_count loading.new ≡ parts_count loading.old }
    ensures grants { length loading.new.grants ≡ length loading.old.grants }
    ensures holders { length loading.new.holders ≡ length loading.old.holders }
    ensures set { OnOk result (length loading.old.grants ≡ parts_count loading.old
        → AreSetUpTo loading.old n → AreSetUpTo loading.new (n + 1)) }
    ensures rows { loading.new.rows ≡ loading.old.rows }
    ensures only { (names : List Text) (st : State Text) (more : Text) → IsDumped names st
        → n < length names → AreCellsUpTo names st loading.old n
        → left.now ≡ cell_line st (text_at names n) ++ more
        → IsOkAnd result (λ rest. (rest.now ≡ more)
        × AreCellsUpTo names st loading.new (n + 1)) }
{
    let Some((line, rest)) = cut_at(left, b'\n') else {
        return Err(LoadFault::Line(line_of(n)));
    };
    let (_, words) = cut_at_space(line);
    let Some(known) = known_of(words) else {
        return Err(LoadFault::Line(line_of(n)));
    };
    loading.set(n, known.cell, known.holder, known.grants);
    Ok(rest)
}

/// Sets what the lines say of the names. Returns what follows these lines.
fn set_cells<'a>(loading: &mut Loading, lines: &'a [u8]) -> Result<&'a [u8], LoadFault>
    ensures count { parts_count loading.new ≡ parts_count loading.old }
    ensures grants { length loading.new.grants ≡ length loading.old.grants }
    ensures holders { length loading.new.holders ≡ length loading.old.holders }
    ensures set { OnOk result (length loading.old.grants ≡ parts_count loading.old
        → AreSetUpTo loading.old 0 → AreSetUpTo loading.new (parts_count loading.new)) }
    ensures rows { loading.new.rows ≡ loading.old.rows }
    ensures only { (names : List Text) (st : State Text) (more : Text) → IsDumped names st
        → length names ≡ parts_count loading.old → AreCellsUpTo names st loading.old 0
        → lines.now ≡ flat_map (cell_line st) names ++ more
        → IsOkAnd result (λ rest. (rest.now ≡ more)
        × AreCellsUpTo names st loading.new (length names)) }
{
    let mut left = lines;
    for n in 0..loading.count() {
        left = set_cell(loading, n, left)?;
    }
    Ok(left)
}

/// What the lines say of that many names, by their numbers.
fn read_parts(alloc: Global, count: u32, lines: &[u8]) -> Result<Redo, LoadFault>
    ensures count { IfOk result (λ redo. tables_count redo ≡ count) }
    ensures builders { IfOk result (λ redo. (t s : ℕ)
        → target_state (tables_records redo) t ≡ Building s
        → (locks_of redo).holder t ≡ Some s) }
    ensures sessions { IfOk result (λ redo. (t : ℕ)
        → IfSome ((locks_of redo).holder t) (λ s. s < 65535)) }
    ensures calls { IfOk result (λ redo. (most : ℕ) → HasNumbersUpTo count (state_of redo) most
        → calls_of redo ≤ most) }
    ensures only { (names : List Text) (st : State Text) → IsDumped names st
        → length names ≡ count → lines.now ≡ body_of names st
        → MatchResult result (λ redo. IsNumbered names st (state_of redo))
        (λ fault. fault ≡ LoadFault.Memory) }
{
    let mut loading = Loading::new(alloc, count)?;
    let rows = set_cells(&mut loading, lines)?;
    put_targets(&mut loading, line_of(count), rows)?;
    let redo = loading.finish(alloc)?;
    Ok(redo)
}

/// Whether too few calls are left for a database with that many names.
fn is_worn(calls: u32, names: u32) -> bool
    requires { names ≤ 16777216 }
    ensures no { IsFalse result → calls + 2 * names < 2 ^ 32 }
    ensures yes { IsTrue result → 4294967165 < calls + 2 * names }
{
    calls > u32::MAX - 2 * (names + 65)
}

/// The database that these lines mean: one for each of `count` names, and the lines of rows.
pub(crate) fn parse(alloc: Global, count: u32, lines: &[u8]) -> Result<Live, LoadFault>
    ensures sessions { IfOk result (λ live. HasSessions (state_in live)) }
    ensures calls { IfOk result (λ live. (most : ℕ) → HasCountsUpTo (state_in live) most
        → calls_in live ≤ most) }
    ensures only { (names : List Text) (st : State Text) → IsDumped names st
        → length names ≡ count → lines.now ≡ body_of names st
        → MatchResult result (λ live. (live.names ≡ names) × (state_in live ≡ st))
        (λ fault. (fault ≡ LoadFault.Memory)
        ⊎ ((fault ≡ LoadFault.Worn) × IsWorn names st)) }
{
    let names = read_names(alloc, count, lines)?;
    let redo = read_parts(alloc, names.len(), lines)?;
    if is_worn(redo.calls(), names.len()) {
        return Err(LoadFault::Worn);
    }
    Ok(Live::from_parts(alloc, names, redo))
}
