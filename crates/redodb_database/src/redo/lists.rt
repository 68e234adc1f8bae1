ghost use Rattle.std.specs.Prelude.{◌≡◌, ◌<◌, ◌↔◌, ◌++◌, ◌∷◌, [], ℕ, IsTrue, IsNone, IfOk, OnOk, if◌then◌else◌};
ghost use Rattle.redodb_model.specs.Command as commands;
ghost use Rattle.redodb_model.specs.Names.{IsListed, by_number};
ghost use Rattle.redodb_model.specs.State.{Idle, has_file, is_building, target_state};
ghost use Rattle.redodb_model.specs.Changes.{is_stamp_of};
ghost use Rattle.redodb_model.specs.OutOfDate.{HasFile, IsTarget, OutOfDate, IsSource, HasChangeRow, HasCreatedRow, HasRow};
ghost use Rattle.redodb_model.specs.Step.{Tells, stale_reply};
ghost use Rattle.redodb_model.specs.Renaming.{AllBelow, IsReplyBelow};
ghost use Rattle.redodb_commands.specs.Meaning.{reply_of};
ghost use Rattle.redodb_database.specs.Tables.{tables_records, tables_count};

use crate::redo::Redo;
use redodb_commands::{FileStamp, Reply};
use redodb_records::State;
use std::alloc::{AllocError, Global};

pub(crate) fn push_if(names: &mut Vec<u32>, n: u32, is_due: bool) -> Result<(), AllocError>
    ensures { OnOk result (names.new.items ≡ names.old.items ++ (if is_due then n ∷ [] else [])) }
{
    if is_due {
        names.push(n)?;
    }
    Ok(())
}

fn reply_to_ifchange(stale: Vec<u32>) -> Reply
    ensures { reply_of result ≡ stale_reply stale.items }
{
    if stale.is_empty() {
        Reply::Okay
    } else {
        Reply::Stale(stale)
    }
}

impl Redo {
    /// Which of the names are stale, if any.
    pub(super) fn stale_reply(&self, alloc: Global, names: &[u32]) -> Result<Reply, AllocError>
        requires { AllBelow (tables_count self.now) names.now }
        ensures tells { IfOk result (λ reply. (t : ℕ) → Tells by_number (tables_records self.now)
            (commands.IfChange t names.now) (reply_of reply)) }
        ensures below { IfOk result
            (λ reply. IsReplyBelow (tables_count self.now) (reply_of reply)) }
    {
        Ok(reply_to_ifchange(self.stale(alloc, names)?))
    }

    /// The targets that have a file and are out of date.
    pub(super) fn ood(&self, alloc: Global) -> Result<Vec<u32>, AllocError>
        ensures listed { IfOk result (λ names. IsListed by_number
            (λ t. HasFile (tables_records self.now) t × OutOfDate (tables_records self.now) t)
            names.items) }
        ensures below { IfOk result (λ names. AllBelow (tables_count self.now) names.items) }
    {
        let out = self.outdated(alloc)?;
        let mut names = Vec::new(alloc);
        for &n in &out {
            let is_due = self.has_file(n);
            push_if(&mut names, n, is_due)?;
        }
        Ok(names)
    }

    /// The out-of-date targets, by ascending number.
    fn outdated(&self, alloc: Global) -> Result<Vec<u32>, AllocError>
        ensures listed { IfOk result
            (λ out. IsListed by_number (OutOfDate (tables_records self.now)) out.items) }
        ensures below { IfOk result (λ out. AllBelow (tables_count self.now) out.items) }
    {
        self.memo.list(alloc)
    }

    /// The idle names that have a file and on which a target has a row.
    pub(super) fn sources(&self, alloc: Global) -> Result<Vec<u32>, AllocError>
        ensures listed { IfOk result
            (λ names. IsListed by_number (IsSource (tables_records self.now)) names.items) }
        ensures below { IfOk result (λ names. AllBelow (tables_count self.now) names.items) }
    {
        let mut names = Vec::new(alloc);
        for n in 0..self.count() {
            let is_due = self.is_source(n);
            push_if(&mut names, n, is_due)?;
        }
        Ok(names)
    }

    /// The targets that have a file.
    pub(super) fn targets(&self, alloc: Global) -> Result<Vec<u32>, AllocError>
        ensures listed { IfOk result (λ names. IsListed by_number
            (λ t. HasFile (tables_records self.now) t × IsTarget (tables_records self.now) t)
            names.items) }
        ensures below { IfOk result (λ names. AllBelow (tables_count self.now) names.items) }
    {
        let mut names = Vec::new(alloc);
        for n in 0..self.count() {
            let is_due = self.is_listed(n);
            push_if(&mut names, n, is_due)?;
        }
        Ok(names)
    }

    fn is_source(&self, n: u32) -> bool
        requires { n < tables_count self.now }
        ensures { IsTrue result ↔ IsSource (tables_records self.now) n }
    {
        self.is_idle(n) && self.has_file(n) && self.has_row_on(n)
    }

    /// Whether it is a target with a file.
    fn is_listed(&self, n: u32) -> bool
        requires { n < tables_count self.now }
        ensures { IsTrue result
            ↔ (HasFile (tables_records self.now) n × IsTarget (tables_records self.now) n) }
    {
        self.has_file(n) && !self.is_idle(n)
    }

    /// Whether it is an idle name without a file.
    pub(super) fn is_missing(&self, n: u32) -> bool
        requires { n < tables_count self.now }
        ensures { IsTrue result ↔ ((target_state (tables_records self.now) n ≡ Idle)
            × IsNone ((tables_records self.now).cell n).file) }
    {
        self.is_idle(n) && !self.has_file(n)
    }

    fn is_needed(&self, n: u32) -> bool
        requires { n < tables_count self.now }
        ensures { IsTrue result ↔ ((t : ℕ) × HasChangeRow (tables_records self.now) t n) }
    {
        self.rows.is_needed(n)
    }

    fn is_awaited(&self, n: u32) -> bool
        requires { n < tables_count self.now }
        ensures { IsTrue result ↔ ((t : ℕ) × HasCreatedRow (tables_records self.now) t n) }
    {
        self.rows.is_awaited(n)
    }

    /// Whether some target has a row on it.
    fn has_row_on(&self, n: u32) -> bool
        requires { n < tables_count self.now }
        ensures { IsTrue result ↔ ((t : ℕ) × HasRow (tables_records self.now) t n) }
    {
        self.is_needed(n) || self.is_awaited(n)
    }

    fn is_idle(&self, n: u32) -> bool
        requires { n < tables_count self.now }
        ensures { IsTrue result ↔ (target_state (tables_records self.now) n ≡ Idle) }
    {
        matches!(self.records.state(n), State::Idle)
    }

    pub(super) fn has_file(&self, n: u32) -> bool
        requires { n < tables_count self.now }
        ensures { result ≡ has_file (tables_records self.now) n }
    {
        self.records.file(n).is_some()
    }

    pub(super) fn has_stamp(&self, n: u32, stamp: FileStamp) -> bool
        requires { n < tables_count self.now }
        ensures { result ≡ is_stamp_of ((tables_records self.now).cell n).file stamp }
    {
        match self.records.file(n) {
            Some(own) => own.bytes() == stamp.bytes(),
            None => false,
        }
    }

    /// Whether this is what is known of its file, or that there is none.
    pub(super) fn is_file(&self, n: u32, file: &Option<FileStamp>) -> bool
        requires { n < tables_count self.now }
        ensures { IsTrue result ↔ (((tables_records self.now).cell n).file ≡ file.now) }
    {
        match file {
            Some(stamp) => self.has_stamp(n, *stamp),
            None => !self.has_file(n),
        }
    }

    pub fn is_building(&self, t: u32) -> bool
        requires { t < tables_count self.now }
        ensures { result ≡ is_building (target_state (tables_records self.now) t) }
    {
        matches!(self.records.state(t), State::Building(_))
    }

    /// Whether it is an out-of-date target.
    pub(super) fn is_out(&self, n: u32) -> bool
        requires { n < tables_count self.now }
        ensures { IsTrue result ↔ OutOfDate (tables_records self.now) n }
    {
        self.memo.is(n)
    }
}
