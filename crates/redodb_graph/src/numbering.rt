ghost use Rattle.std.specs.Prelude.{◌≡◌, ◌==◌, ℕ, IsTrue, Some, [], flat_map, length, map, slice_get, IfOk, OnOk};
ghost use Rattle.std.specs.List.{AllZip};
ghost use Rattle.sha1.specs.Sha1.{sha1};
ghost use Rattle.redodb_commands.specs.Meaning.{command_of};
ghost use Rattle.redodb_commands.specs.Support.Meaning.{item_of};
ghost use Rattle.redodb_journal.specs.Plans.{scripts_of};
ghost use Rattle.redodb_graph.specs.Steps.{AreListed, Means, AllMean, listed_in, listed_by};
ghost use Rattle.redodb_graph.specs.Support.Tables.{ArePlaces, Covers, Grows};

use crate::count::small;
use crate::pairs::Pairs;
use crate::step::{Listed, Step};
use crate::tables::Tables;
use indexmap::IndexSet;
use redodb_commands::{Command, FileStamp, Script};
use sha1::Sha1;
use std::alloc::{AllocError, Global};
use std::marker::Model;

/// The numbers that steps were given, and what they stand for.
#[derive(Drop)]
pub(crate) struct Numbering {
    pairs: Pairs,
    listed: Vec<u32>,
    stamps: IndexSet<FileStamp>,
    // the number that the next stamp may have: sessions often list the same stamps in one order
    guess: u32,
    digests: IndexSet<[u8; 20]>,
}

impl Model for Numbering {
    ghost use Rattle.redodb_graph.specs.Steps.{TablesOf};

    ghost Value = { TablesOf };

    ghost view = { λ inside. record {
      pairs = inside.pairs;
      listed = inside.listed.items;
      stamps = inside.stamps.keys;
      digests = inside.digests.keys;
    } };
}

/// Appends the place of each pair of the target on a name.
fn push_places(
    listed: &mut Vec<u32>,
    pairs: &Pairs,
    target: u32,
    names: &[u32],
) -> Result<(), AllocError>
    requires { Covers pairs.now.items (map (λ n. (target, n)) names.now) }
    ensures { OnOk result
        (ArePlaces pairs.now.items target names.now listed.old.items listed.new.items) }
{
    // Names that a line lists in order have places one after the other.
    let mut guess = 0;
    for name in names {
        let Some(place) = pairs.find_guessed(guess, target, *name) else {
            unreachable!()
        };
        listed.push(place)?;
        guess = place.saturating_add(1);
    }
    Ok(())
}

impl Numbering {
    /// Numbers of these pairs, and of nothing else.
    pub(crate) fn new(alloc: Global, pairs: Pairs) -> Numbering
        ensures pairs { result.pairs ≡ pairs }
    {
        Numbering {
            pairs,
            listed: Vec::new(alloc),
            stamps: IndexSet::new(alloc),
            guess: 0,
            digests: IndexSet::new(alloc),
        }
    }

    /// What the numbers stand for.
    pub(crate) fn into_tables(self, alloc: Global) -> Result<Tables, AllocError>
        ensures { IfOk result (λ tables. tables ≡ self) }
    {
        let stamps = Vec::from_slice(alloc, self.stamps.as_slice())?;
        let digests = Vec::from_slice(alloc, self.digests.as_slice())?;
        Ok(Tables {
            pairs: self.pairs,
            listed: self.listed,
            stamps,
            digests,
        })
    }

    fn has_number(&self, stamp: &FileStamp, number: u32) -> bool
        ensures { IsTrue result → slice_get self.now.stamps number ≡ Some stamp.now }
    {
        match self.stamps.as_slice().get(number as usize) {
            Some(there) => there.bytes() == stamp.bytes(),
            None => false,
        }
    }

    /// The number of a stamp, found by the guess or by its hash.
    fn stamp_number(&mut self, stamp: &FileStamp) -> Result<u32, AllocError>
        ensures number { IfOk result
            (λ number. slice_get self.new.stamps number ≡ Some stamp.now) }
        ensures grows { OnOk result (Grows self.old self.new) }
    {
        if self.has_number(stamp, self.guess) {
            return Ok(self.guess);
        }
        let (number, _) = self.stamps.insert_full(*stamp)?;
        small(number)
    }

    fn stamp(&mut self, stamp: &FileStamp) -> Result<u32, AllocError>
        ensures number { IfOk result
            (λ number. slice_get self.new.stamps number ≡ Some stamp.now) }
        ensures grows { OnOk result (Grows self.old self.new) }
    {
        let number = self.stamp_number(stamp)?;
        self.guess = number.saturating_add(1);
        Ok(number)
    }

    fn digest(&mut self, content: &[u8]) -> Result<u32, AllocError>
        ensures number { IfOk result
            (λ number. slice_get self.new.digests number ≡ Some (sha1 content.now)) }
        ensures grows { OnOk result (Grows self.old self.new) }
    {
        let (number, _) = self.digests.insert_full(Sha1::digest(content))?;
        small(number)
    }

    fn list(&mut self, target: u32, names: &[u32]) -> Result<Listed, AllocError>
        requires { Covers self.old.pairs.items (map (λ n. (target, n)) names.now) }
        ensures listed { IfOk result (λ list. AreListed self.new target names.now list) }
        ensures grows { OnOk result (Grows self.old self.new) }
    {
        let from = small(self.listed.len())?;
        let len = small(names.len())?;
        push_places(&mut self.listed, &self.pairs, target, names)?;
        let itself = names.contains(&target);
        Ok(Listed { from, len, itself })
    }

    fn step(&mut self, command: &Command) -> Result<Step, AllocError>
        requires { Covers self.old.pairs.items (listed_in (command_of command.now)) }
        ensures step { IfOk result (λ step. Means self.new step (command_of command.now)) }
        ensures grows { OnOk result (Grows self.old self.new) }
    {
        match command {
            Command::File(name, stamp) => Ok(Step::File(*name, self.stamp(stamp)?)),
            Command::Gone(name) => Ok(Step::Gone(*name)),
            Command::Lock(target) => Ok(Step::Lock(*target)),
            Command::Unlock(target) => Ok(Step::Unlock(*target)),
            Command::Start(target) => Ok(Step::Start(*target)),
            Command::IfChange(target, names) => {
                Ok(Step::IfChange(*target, self.list(*target, names)?))
            }
            Command::IfCreate(target, names) => {
                Ok(Step::IfCreate(*target, self.list(*target, names)?))
            }
            Command::Always(target) => Ok(Step::Always(*target)),
            Command::Stamp(target, content) => Ok(Step::Stamp(*target, self.digest(content)?)),
            Command::Done(target, Some(stamp)) => {
                Ok(Step::Done(*target, Some(self.stamp(stamp)?)))
            }
            Command::Done(target, None) => Ok(Step::Done(*target, None)),
            Command::Failed(target) => Ok(Step::Failed(*target)),
            Command::Ood => Ok(Step::Ood),
            Command::Targets => Ok(Step::Targets),
            Command::Sources => Ok(Step::Sources),
        }
    }

    fn script(&mut self, alloc: Global, script: &Script) -> Result<Vec<Step>, AllocError>
        requires { Covers self.old.pairs.items
            (flat_map (λ item. listed_in item.command) (map item_of script.now)) }
        ensures steps { IfOk result (λ steps.
            AllMean self.new (map item_of script.now) steps.items) }
        ensures grows { OnOk result (Grows self.old self.new) }
    {
        let items = script.items();
        let mut steps = Vec::with_capacity(alloc, items.len())?;
        for item in items {
            steps.push(self.step(&item.command)?)?;
        }
        Ok(steps)
    }

    pub(crate) fn scripts(
        &mut self,
        alloc: Global,
        scripts: &[Script],
    ) -> Result<Vec<Vec<Step>>, AllocError>
        requires { Covers self.old.pairs.items (listed_by (scripts_of scripts.now)) }
        ensures steps { IfOk result (λ steps. AllZip (AllMean self.new) (scripts_of scripts.now)
            (map (λ script. script.items) steps.items)) }
        ensures grows { OnOk result (Grows self.old self.new) }
    {
        let mut steps = Vec::new(alloc);
        for script in scripts {
            steps.push(self.script(alloc, script)?)?;
        }
        Ok(steps)
    }
}
