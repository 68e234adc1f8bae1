//! Questions about the database.
ghost use Rattle.std.specs.Prelude.{◌≡◌, ℕ, ◌<◌, ◌≤◌, ◌↔◌, ◌++◌, Some, Contains, IfOk, IfSome, IsOk, IsTrue, OnOk, option_map, option_to_list, filter_map};
ghost use Rattle.std.specs.List.Sorted.{IsStrictlyIncreasing};
ghost use Rattle.redodb_model.specs.Changes.{changes};
ghost use Rattle.redodb_model.specs.Deps.{AreDeps};
ghost use Rattle.redodb_model.specs.Support.Deps.{AreDepsBelow};
ghost use Rattle.redodb_model.specs.Users.{AreUsers};
ghost use Rattle.redodb_model.specs.Support.Users.{AreUsersBelow, IsUnused};
ghost use Rattle.redodb_model.specs.Support.Unknown.{IsUnknown};
ghost use Rattle.redodb_model.specs.Why.{TellsWhy};
ghost use Rattle.redodb_model.specs.Support.Why.{IsWhyBelow};
ghost use Rattle.redodb_model.specs.OutOfDate.{OutOfDate};
ghost use Rattle.redodb_model.specs.State.{target_state};
ghost use Rattle.redodb_model.specs.Renaming.{AllBelow, IsBelow};
ghost use Rattle.redodb_database.specs.Meaning.{deps_of, users_of, why_of};
ghost use Rattle.redodb_records.specs.Meaning.{target_state_of};
ghost use Rattle.redodb_records.specs.Rows.{slot_at, target_at};
ghost use Rattle.redodb_records.specs.Target.{Ascending};
ghost use Rattle.redodb_model.specs.Names.{IsListed, by_number};
ghost use Rattle.redodb_commands.specs.Meaning.{command_of, reply_of};
ghost use Rattle.redodb_database.specs.Tables.{state_of, tables_records, locks_of, tables_count};
ghost use Rattle.redodb_database.specs.Support.Tables.{has_row};

use crate::deps::Deps;
use crate::redo::Redo;
use crate::redo::lists::push_if;
use crate::users::{Users, numbers_at};
use crate::why::{Why, search};
use redodb_commands::{Command, FileStamp, Reply};
use redodb_records::{Cell, Slot, State};
use std::alloc::{AllocError, Global};

fn has_row(slot: &Slot, created: bool) -> bool
    ensures { result ≡ has_row created slot.now }
{
    if created {
        slot.created()
    } else {
        slot.has_change()
    }
}

fn push_holder(sessions: &mut Vec<u16>, holder: Option<u16>) -> Result<(), AllocError>
    ensures { OnOk result (sessions.new.items ≡ sessions.old.items ++ option_to_list holder) }
{
    if let Some(session) = holder {
        sessions.push(session)?;
    }
    Ok(())
}

impl Redo {
    /// Why the target is out of date, if it is. Changes nothing. Looks at names that a chain of change rows leads to,
    /// and allocates for these alone; nothing if the target is up to date.
    pub fn why(&mut self, alloc: Global, t: u32) -> Result<Option<Why>, AllocError>
        requires { t < tables_count self.old }
        ensures kept { self.new ≡ self.old }
        ensures why { IfOk result
            (λ found. TellsWhy (tables_records self.old) t (option_map why_of found)) }
        ensures below { IfOk result
            (λ found. IfSome found (λ why. IsWhyBelow (tables_count self.old) (why_of why))) }
        ensures up_to_date { (OutOfDate (tables_records self.old) t → ⊥) → IsOk result }
    {
        if !self.is_out(t) {
            return Ok(None);
        }
        let memo = &mut self.memo;
        let found = search(
            alloc,
            &self.records,
            &self.rows,
            &memo.out,
            t,
            &mut memo.region,
        );
        memo.region.unmark_queue();
        found
    }

    /// On which names the target has rows.
    pub fn deps(&self, alloc: Global, t: u32) -> Result<Deps, AllocError>
        requires { t < tables_count self.now }
        ensures deps { IfOk result
            (λ deps. AreDeps by_number (tables_records self.now) t (deps_of deps)) }
        ensures below { IfOk result (λ deps. AreDepsBelow (tables_count self.now) (deps_of deps)) }
    {
        Ok(Deps {
            change: self.names_with(alloc, t, false)?,
            created: self.names_with(alloc, t, true)?,
            always: self.rows.always(t),
        })
    }

    /// Which targets have rows on it.
    pub fn users(&self, alloc: Global, n: u32) -> Result<Users, AllocError>
        requires { n < tables_count self.now }
        ensures users { IfOk result
            (λ users. AreUsers by_number (tables_records self.now) n (users_of users)) }
        ensures below { IfOk result
            (λ users. AreUsersBelow (tables_count self.now) (users_of users)) }
    {
        Ok(Users {
            change: numbers_at(alloc, self.rows.needed_by(n))?,
            created: numbers_at(alloc, self.rows.awaited_by(n))?,
        })
    }

    /// All that is known of it but rows and locks.
    pub fn cell(&self, n: u32) -> &Cell
        requires { n < tables_count self.now }
        ensures { result.now ≡ (tables_records self.now).cell n }
    {
        self.records.cell(n)
    }

    pub fn state(&self, n: u32) -> State
        requires { n < tables_count self.now }
        ensures { target_state_of result ≡ target_state (tables_records self.now) n }
    {
        self.records.state(n)
    }

    pub fn file(&self, n: u32) -> Option<FileStamp>
        requires { n < tables_count self.now }
        ensures { result ≡ ((tables_records self.now).cell n).file }
    {
        self.records.file(n)
    }

    pub fn holder(&self, n: u32) -> Option<u16>
        requires { n < tables_count self.now }
        ensures { result ≡ (locks_of self.now).holder n }
    {
        self.holders[n as usize]
    }

    pub fn grants(&self, n: u32) -> u32
        ensures { result ≡ (locks_of self.now).grants n }
    {
        match self.grants.get(n as usize) {
            Some(grants) => *grants,
            None => 0,
        }
    }

    /// The slots of the target, by their names' ascending numbers: each has the rows of the target on its name.
    pub fn slots(&self, t: u32) -> &[Slot]
        requires { t < tables_count self.now }
        ensures change { (n : ℕ)
            → (slot_at result.now n).change ≡ (tables_records self.now).rows.change t n }
        ensures created { (n : ℕ)
            → (slot_at result.now n).created ≡ (tables_records self.now).rows.created t n }
        ensures ascending { Ascending result.now }
    {
        self.rows.slots_of(t)
    }

    pub fn always(&self, t: u32) -> bool
        requires { t < tables_count self.now }
        ensures { result ≡ (tables_records self.now).rows.always t }
    {
        self.rows.always(t)
    }

    /// How many numbers there are for names. Nothing is known of any other number.
    pub fn count(&self) -> u32
        ensures count { result ≡ tables_count self.now }
        ensures others { (n : ℕ) → tables_count self.now ≤ n → IsUnknown (state_of self.now) n }
        ensures unused { (n : ℕ) → tables_count self.now ≤ n
            → IsUnused (tables_records self.now) n }
        ensures ungranted { (n : ℕ) → tables_count self.now ≤ n
            → (locks_of self.now).grants n ≡ 0 }
    {
        self.rows.are_on_names();
        self.records.count() as u32
    }

    /// The targets that the session holds, in the order of their numbers.
    pub fn held_by(&self, alloc: Global, session: u16) -> Result<Vec<u32>, AllocError>
        ensures held { IfOk result (λ held. (t : ℕ) → Contains held.items t
            ↔ ((locks_of self.now).holder t ≡ Some session)) }
        ensures below { IfOk result (λ held. AllBelow (tables_count self.now) held.items) }
        ensures distinct { IfOk result (λ held. IsStrictlyIncreasing held.items) }
    {
        let names = self.held.list(alloc)?;
        let mut held = Vec::new(alloc);
        for &t in &names {
            let is_held = self.holds(session, t);
            push_if(&mut held, t, is_held)?;
        }
        Ok(held)
    }

    /// The sessions that hold something, ascending.
    pub fn holders(&self, alloc: Global) -> Result<Vec<u16>, AllocError>
        ensures holders { IfOk result (λ sessions. (s : ℕ) → Contains sessions.items s
            ↔ ((t : ℕ) × ((locks_of self.now).holder t ≡ Some s))) }
        ensures distinct { IfOk result (λ sessions. IsStrictlyIncreasing sessions.items) }
    {
        let names = self.held.list(alloc)?;
        let mut sessions = self.holders_of(alloc, &names)?;
        sessions.sort_unstable();
        sessions.dedup();
        Ok(sessions)
    }

    /// The holders of these names, as often as they hold one.
    fn holders_of(&self, alloc: Global, names: &[u32]) -> Result<Vec<u16>, AllocError>
        requires { AllBelow (tables_count self.now) names.now }
        ensures { IfOk result (λ sessions. sessions.items
            ≡ filter_map (locks_of self.now).holder names.now) }
    {
        let mut sessions = Vec::new(alloc);
        for &t in names {
            push_holder(&mut sessions, self.holder(t))?;
        }
        Ok(sessions)
    }

    /// Whether the command with this reply changes the state.
    pub fn changes(&self, command: &Command, reply: &Reply) -> bool
        requires { IsBelow (tables_count self.now) (command_of command.now) }
        ensures { result
            ≡ changes (tables_records self.now) (command_of command.now) (reply_of reply.now) }
    {
        match command {
            Command::File(n, stamp) => !self.has_stamp(*n, **stamp),
            Command::Gone(n) => self.has_file(*n),
            Command::Ood | Command::Targets | Command::Sources => false,
            _ => reply.lets_through(),
        }
    }

    /// The names on which the target has a created row, or a change row.
    fn names_with(&self, alloc: Global, t: u32, created: bool) -> Result<Vec<u32>, AllocError>
        requires { t < tables_count self.now }
        ensures listed { IfOk result (λ names. IsListed by_number
            (λ n. IsTrue (has_row created (slot_at (target_at self.now.rows t).slots n))) names.items) }
        ensures below { IfOk result (λ names. AllBelow (tables_count self.now) names.items) }
    {
        let mut names = Vec::new(alloc);
        for slot in self.rows.slots_of(t) {
            push_if(&mut names, slot.name(), has_row(slot, created))?;
        }
        Ok(names)
    }
}
