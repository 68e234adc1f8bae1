//! What is known of each name, by its number: the place in the order in which the names became known. And a database
//! that is made from such parts.
ghost use Rattle.std.specs.Prelude.{◌≡◌, ℕ, ◌+◌, ◌*◌, ◌^◌, ◌<◌, ◌≤◌, None, Some, false, length};
ghost use Rattle.redodb_names.specs.Support.Names.{AreNames};
ghost use Rattle.redodb_model.specs.Names.{Text, text_at};
ghost use Rattle.redodb_records.specs.Rows.{slot_at};
ghost use Rattle.redodb_records.specs.Target.{Ascending};
ghost use Rattle.redodb_model.specs.State.{Building, target_state};
ghost use Rattle.redodb_model.specs.Support.Renaming.{named_state, numbering};
ghost use Rattle.redodb_database.specs.Tables.{calls_of, locks_of, state_of, tables_count, tables_records};

use crate::live::Live;
use redodb_database::Redo;
use redodb_names::Names;
use redodb_records::{Cell, Slot};
use std::alloc::Global;

impl Live {
    ghost use Rattle.redodb_live.specs.Support.LiveState.{calls_in, state_in};

    /// The database over these names in which each name has what its number has in `redo`.
    pub fn from_parts(alloc: Global, names: Names, redo: Redo) -> Live
        requires few { length names ≤ 16777216 }
        requires count { tables_count redo ≡ length names }
        requires builders { (t s : ℕ) → target_state (tables_records redo) t ≡ Building s
            → (locks_of redo).holder t ≡ Some s }
        requires calls { calls_of redo + 2 * length names < 2 ^ 32 }
        ensures names { result.names ≡ names }
        ensures state { state_in result ≡ named_state (numbering names) (state_of redo) }
        ensures calls { calls_in result ≡ calls_of redo }
    {
        names.are_names();
        let numbers = redo.count();
        Live {
            names,
            redo,
            numbers,
            line: Vec::new(alloc),
        }
    }

    /// How many names are known. They are distinct.
    pub fn count(&self) -> u32
        ensures count { result ≡ length self.now.names }
        ensures few { result ≤ 16777216 }
        ensures names { AreNames self.now.names }
    {
        self.names.len()
    }

    /// The text of the name.
    pub fn name(&self, n: u32) -> &[u8]
        requires { n < length self.now.names }
        ensures { result.now ≡ text_at self.now.names n }
    {
        self.names.text(n)
    }

    /// All that is known of the name but rows and locks.
    pub fn cell(&self, n: u32) -> Cell
        requires { n < length self.now.names }
        ensures { result ≡ (state_in self.now).records.cell (text_at self.now.names n) }
    {
        self.names.are_names();
        if n < self.redo.count() {
            *self.redo.cell(n)
        } else {
            Cell::idle()
        }
    }

    /// The session that holds the name's lock.
    pub fn holder(&self, n: u32) -> Option<u16>
        requires { n < length self.now.names }
        ensures { result ≡ (state_in self.now).locks.holder (text_at self.now.names n) }
    {
        self.names.are_names();
        if n < self.redo.count() {
            self.redo.holder(n)
        } else {
            None
        }
    }

    /// How often the name's lock was granted.
    pub fn grants(&self, n: u32) -> u32
        requires { n < length self.now.names }
        ensures { result ≡ (state_in self.now).locks.grants (text_at self.now.names n) }
    {
        self.names.are_names();
        self.redo.grants(n)
    }

    /// A law: what a session builds, it holds.
    pub fn builders_hold(&self)
        ensures { (t : Text) (s : ℕ) → target_state (state_in self.now).records t ≡ Building s
            → (state_in self.now).locks.holder t ≡ Some s }
    {
        let _ = self.redo.count();
    }

    /// The slots of the target, by their names' ascending numbers: each has the rows of the target on its name. A slot
    /// can be without rows, and its number without a name then.
    pub fn slots(&self, t: u32) -> &[Slot]
        requires { t < length self.now.names }
        ensures change { (n : ℕ) → n < length self.now.names → (slot_at result.now n).change
            ≡ (state_in self.now).records.rows.change (text_at self.now.names t)
            (text_at self.now.names n) }
        ensures created { (n : ℕ) → n < length self.now.names → (slot_at result.now n).created
            ≡ (state_in self.now).records.rows.created (text_at self.now.names t)
            (text_at self.now.names n) }
        ensures no_change { (n : ℕ) → length self.now.names ≤ n
            → (slot_at result.now n).change ≡ None }
        ensures no_created { (n : ℕ) → length self.now.names ≤ n
            → (slot_at result.now n).created ≡ false }
        ensures ascending { Ascending result.now }
    {
        self.names.are_names();
        if t < self.redo.count() {
            self.redo.slots(t)
        } else {
            &[]
        }
    }

    /// Whether the target has an always row.
    pub fn always(&self, t: u32) -> bool
        requires { t < length self.now.names }
        ensures { result
            ≡ (state_in self.now).records.rows.always (text_at self.now.names t) }
    {
        self.names.are_names();
        if t < self.redo.count() {
            self.redo.always(t)
        } else {
            false
        }
    }
}
