ghost use Rattle.std.specs.Prelude.{◌≡◌, ◌<◌, false, List, Some, None, option_map};
ghost use Rattle.redodb_model.specs.Names.{Text};
ghost use Rattle.redodb_model.specs.State.{mark_in};
ghost use Rattle.redodb_commands.specs.Meaning.{refusal_of};
ghost use Rattle.redodb_records.specs.Refusals.{refusal_by_target};
ghost use Rattle.redodb_replica.specs.CompactCells.{HasEntry, HasEntries, cell_of, idle_cell, mark_for, compact_state_of};

use crate::mark::Mark;
use crate::state::CompactState;
use redodb_commands::{Kind, Refusal};
use std::mem::size_of;

/// What is known of one name, and whether it has an always row. Stamps and digests are numbers of tables.
#[derive(Clone, Copy, Debug, PartialEq, Eq)]
pub struct CompactCell {
    pub file: Option<u32>,
    pub done: Option<u32>,
    pub digest: Option<u32>,
    pub builds: u32,
    pub state: CompactState,
    pub always: bool,
}

// Each replica has a cell for each name.
const _: () = prove!(size_of::<CompactCell>() <= 32);

impl CompactCell {
    pub fn idle() -> CompactCell
        ensures { result ≡ idle_cell }
    {
        CompactCell {
            file: None,
            done: None,
            digest: None,
            builds: 0,
            state: CompactState::Idle,
            always: false,
        }
    }

    /// The mark that a change row on the name gets now.
    pub fn mark(&self) -> Mark
        ensures mark { (stamps : List Text) (digests : List Text) → mark_for stamps digests result
            ≡ mark_in (compact_state_of self.now.state) (cell_of stamps digests self.now) }
        ensures entry { (stamps : List Text) (digests : List Text)
            → HasEntries stamps digests self.now → HasEntry stamps digests result }
    {
        match self.state {
            CompactState::Idle => match self.file {
                Some(stamp) => Mark::File(stamp),
                None => Mark::Absent,
            },
            CompactState::Building(_) | CompactState::Failed => Mark::Pending,
            CompactState::Built => match self.digest {
                Some(digest) => Mark::Digest(digest),
                None => Mark::Builds(self.builds),
            },
        }
    }

    /// The first refusal that applies, by the target's state and by whether the session holds its lock. It doesn't test
    /// the names after the target.
    pub fn refusal(&self, s: u8, kind: Kind, holds: bool) -> Option<Refusal>
        ensures { option_map refusal_of result
            ≡ refusal_by_target (compact_state_of self.now.state) s holds kind }
    {
        self.state.state().refusal(s as u16, kind, holds)
    }
}
