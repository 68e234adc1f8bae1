//! The changes of commands that are no locks.
ghost use Rattle.std.specs.Prelude.{◌≡◌, ◌<◌, List, [], ◌∷◌, None, IsTrue, IsFalse, true, length};
ghost use Rattle.std.specs.List.{list_all};
ghost use Rattle.redodb_model.specs.State.{Cell, is_building, target_state};
ghost use Rattle.redodb_model.specs.Command as commands;
ghost use Rattle.redodb_model.specs.Names.{by_number};
ghost use Rattle.redodb_model.specs.Renaming.{AllBelow, IsBelow};
ghost use Rattle.redodb_model.specs.Step.{verdict_of};
ghost use Rattle.redodb_commands.specs.Meaning.{command_of};
ghost use Rattle.redodb_memo.specs.Memo.{IsRight, WasRight, memo_count};
ghost use Rattle.redodb_records.specs.Rows.{room_of, rows_count, with_rows};
ghost use Rattle.redodb_database.specs.Support.Changes.{HasEffect, HasEffectOfAny, AreRowsAfter, records_with_file};
ghost use Rattle.redodb_database.specs.Tables.{tables_records, tables_count, has_room_for};
ghost use Rattle.redodb_database.specs.Support.Tables.{HasCallsLeft, KeepsLocks};

use crate::database::correct;
use crate::hints::Hints;
use crate::redo::Redo;
use crate::table::{effect, effects};
use redodb_commands::{Command, FileStamp, cases, unboxed};
use redodb_memo::Memo;
use redodb_records::{DepRows, Records, digest_of};

/// A change row of `t` on each of the names, with the mark that the records give it.
fn change_each(rows: &mut DepRows, records: &Records, t: u32, names: &[u32])
    requires count { rows_count rows.old ≡ length records.now }
    requires number { t < length records.now }
    requires numbers { AllBelow (length records.now) names.now }
    requires room { list_all (room_of rows.old t) names.now ≡ true }
    ensures after { AreRowsAfter records.now rows.old rows.new (commands.IfChange t names.now) }
    ensures count { rows_count rows.new ≡ rows_count rows.old }
{
    for (place, &n) in names.iter().enumerate() {
        rows.put_change(t, n, records.cell(n), place);
    }
}

fn create_each(rows: &mut DepRows, t: u32, names: &[u32])
    requires number { t < rows_count rows.old }
    requires numbers { AllBelow (rows_count rows.old) names.now }
    requires room { list_all (room_of rows.old t) names.now ≡ true }
    ensures after { (cells : List Cell)
        → AreRowsAfter cells rows.old rows.new (commands.IfCreate t names.now) }
    ensures count { rows_count rows.new ≡ rows_count rows.old }
{
    for &n in names {
        rows.put_created(t, n);
    }
}

/// Corrects the memo after a change of the name's record or rows.
fn refresh(memo: &mut Memo, hints: &mut Hints, records: &Records, rows: &DepRows, n: u32)
    requires name { n < length records.now }
    requires rows { rows_count rows.now ≡ length records.now }
    requires memo { memo_count memo.old ≡ length records.now }
    requires right { WasRight (n ∷ []) memo.old (with_rows records.now rows.now) }
    ensures right { IsRight memo.new (with_rows records.now rows.now) }
    ensures count { memo_count memo.new ≡ length records.now }
{
    correct(memo, hints, records, rows, &[n]);
}

/// Corrects the memo after a start of the name. Callers pass `was_out`: whether it was out of date
/// before. If it was, what depends on it still is, and the memo is right.
fn refresh_started(
    memo: &mut Memo,
    hints: &mut Hints,
    records: &Records,
    rows: &DepRows,
    n: u32,
    was_out: bool,
)
    requires name { n < length records.now }
    requires rows { rows_count rows.now ≡ length records.now }
    requires memo { memo_count memo.old ≡ length records.now }
    requires right { WasRight (n ∷ []) memo.old (with_rows records.now rows.now) }
    requires same { IsTrue was_out → IsRight memo.old (with_rows records.now rows.now) }
    ensures right { IsRight memo.new (with_rows records.now rows.now) }
    ensures count { memo_count memo.new ≡ length records.now }
{
    if !was_out {
        refresh(memo, hints, records, rows, n);
    }
}

impl Redo {
    /// Makes the change of a session's accepted command, which is no lock and for which memory is reserved, after the
    /// call was counted. Allocates nothing.
    pub(super) fn apply(&mut self, s: u16, command: &Command)
        requires numbers { IsBelow (tables_count self.old) (command_of command.now) }
        requires accepted { verdict_of by_number (tables_records self.old) s true
            (command_of command.now) ≡ None }
        requires left { HasCallsLeft self.old }
        requires room { has_room_for self.old (command_of command.now) ≡ true }
        ensures after { HasEffect self.old self.new s (command_of command.now) }
        ensures kept { KeepsLocks self.old self.new }
    {
        cases!(effects self s command)
    }

    fn set_file(&mut self, n: u32, file: Option<FileStamp>)
        requires { n < tables_count self.old }
        ensures after { tables_records self.new ≡ records_with_file self.old n file }
        ensures kept { KeepsLocks self.old self.new }
    {
        // If nothing changes, the memo is right already.
        if self.is_file(n, &file) {
            return;
        }
        self.records.set_file(n, file);
        let hints = &mut self.hints;
        refresh(&mut self.memo, hints, &self.records, &self.rows, n);
    }

    fn start(&mut self, s: u16, t: u32)
        requires number { t < tables_count self.old }
        requires free { IsFalse (is_building (target_state (tables_records self.old) t)) }
        ensures after { HasEffect self.old self.new s (commands.Start t) }
        ensures kept { KeepsLocks self.old self.new }
    {
        let was_out = self.memo.is(t);
        self.records.start(s, t);
        self.rows.clear(t);
        let hints = &mut self.hints;
        refresh_started(&mut self.memo, hints, &self.records, &self.rows, t, was_out);
    }

    fn stamp(&mut self, t: u32, content: &[u8])
        requires number { t < tables_count self.old }
        requires building { IsTrue (is_building (target_state (tables_records self.old) t)) }
        ensures after { HasEffectOfAny self.old self.new (commands.Stamp t content.now) }
        ensures kept { KeepsLocks self.old self.new }
    {
        self.records.stamp(t, digest_of(content));
        let hints = &mut self.hints;
        refresh(&mut self.memo, hints, &self.records, &self.rows, t);
    }

    fn done(&mut self, t: u32, stamp: Option<FileStamp>)
        requires number { t < tables_count self.old }
        requires building { IsTrue (is_building (target_state (tables_records self.old) t)) }
        requires left { HasCallsLeft self.old }
        ensures after { HasEffectOfAny self.old self.new (commands.Done t stamp) }
        ensures kept { KeepsLocks self.old self.new }
    {
        self.records.done(t, stamp);
        let hints = &mut self.hints;
        refresh(&mut self.memo, hints, &self.records, &self.rows, t);
    }

    fn failed(&mut self, t: u32)
        requires number { t < tables_count self.old }
        requires building { IsTrue (is_building (target_state (tables_records self.old) t)) }
        ensures after { HasEffectOfAny self.old self.new (commands.Failed t) }
        ensures kept { KeepsLocks self.old self.new }
    {
        self.records.failed(t);
        let hints = &mut self.hints;
        refresh(&mut self.memo, hints, &self.records, &self.rows, t);
    }

    /// A change row of the target on each of the names, with the mark that it has now. While the
    /// target is being built, its rows change nothing that is out of date.
    fn put_changes(&mut self, t: u32, names: &[u32])
        requires number { t < tables_count self.old }
        requires numbers { AllBelow (tables_count self.old) names.now }
        requires building { IsTrue (is_building (target_state (tables_records self.old) t)) }
        requires room { has_room_for self.old (commands.IfChange t names.now) ≡ true }
        ensures after { HasEffectOfAny self.old self.new (commands.IfChange t names.now) }
        ensures kept { KeepsLocks self.old self.new }
    {
        change_each(&mut self.rows, &self.records, t, names);
    }

    fn put_created(&mut self, t: u32, names: &[u32])
        requires number { t < tables_count self.old }
        requires numbers { AllBelow (tables_count self.old) names.now }
        requires building { IsTrue (is_building (target_state (tables_records self.old) t)) }
        requires room { has_room_for self.old (commands.IfCreate t names.now) ≡ true }
        ensures after { HasEffectOfAny self.old self.new (commands.IfCreate t names.now) }
        ensures kept { KeepsLocks self.old self.new }
    {
        create_each(&mut self.rows, t, names);
    }

    fn put_always(&mut self, t: u32)
        requires number { t < tables_count self.old }
        requires building { IsTrue (is_building (target_state (tables_records self.old) t)) }
        ensures after { HasEffectOfAny self.old self.new (commands.Always t) }
        ensures kept { KeepsLocks self.old self.new }
    {
        self.rows.put_always(t);
    }
}
