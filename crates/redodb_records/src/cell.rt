ghost use Rattle.std.specs.Prelude.{◌≡◌, ◌+◌, ◌<◌, ◌^◌, ◌↔◌, IsTrue, option_map};
ghost use Rattle.redodb_model.specs.State as states;
ghost use Rattle.redodb_model.specs.State.{idle, mark_in};
ghost use Rattle.redodb_commands.specs.Meaning.{refusal_of};
ghost use Rattle.redodb_records.specs.Meaning.{row_mark_of, target_state_of};
ghost use Rattle.redodb_records.specs.Cells.{IsBuiltAndEdited};
ghost use Rattle.redodb_records.specs.Refusals.{refusal_by_target};

use crate::kept_state::KeptState;
use crate::mark::Mark;
use crate::state::State;
use redodb_commands::{FileStamp, Kind, Refusal};
use std::marker::Model;
use std::mem::size_of;

/// What is known of one name.
#[derive(Clone, Copy, Debug)]
pub struct Cell {
    // what most marks are of comes first, in one line of the cache
    builds: u32,
    state: KeptState,
    file: Option<FileStamp>,
    done: Option<FileStamp>,
    digest: Option<[u8; 20]>,
}

// Each store has a cell for each name.
const _: () = prove!(size_of::<Cell>() <= 160);

impl Model for Cell {
    ghost use Rattle.redodb_model.specs.State as states;

    ghost Value = { states.Cell };

    ghost use Rattle.redodb_records.specs.Support.Cell.{cell_of, fields_for, fields_for-cell_of};

    ghost view = { cell_of };

    ghost inverse = { fields_for };

    ghost inverse_ok = { λ cell i. fields_for-cell_of cell };
}

fn is_same_stamp(one: &Option<FileStamp>, other: &Option<FileStamp>) -> bool
    ensures { IsTrue result ↔ (one.now ≡ other.now) }
{
    match (one, other) {
        (Some(one), Some(other)) => one.bytes() == other.bytes(),
        (None, None) => true,
        _ => false,
    }
}

impl Cell {
    /// A name that no command reported.
    pub fn idle() -> Cell
        ensures { result ≡ idle }
    {
        Cell {
            builds: 0,
            state: KeptState::Idle,
            file: None,
            done: None,
            digest: None,
        }
    }

    /// A name of which this is known.
    pub fn known(
        builds: u32,
        state: State,
        file: Option<FileStamp>,
        done: Option<FileStamp>,
        digest: Option<[u8; 20]>,
    ) -> Cell
        ensures { result ≡ record {
          file = file;
          state = target_state_of state;
          builds = builds;
          done = done;
          digest = digest;
        } }
    {
        Cell {
            builds,
            state: KeptState::of(state),
            file,
            done,
            digest,
        }
    }

    /// A name on which a change row gets this mark.
    pub fn of_mark(mark: Mark) -> Cell
        ensures { mark_in result.state result ≡ row_mark_of mark }
    {
        match mark {
            Mark::Digest(digest) => Cell::known(0, State::Built, None, None, Some(digest)),
            Mark::Builds(builds) => Cell::known(builds, State::Built, None, None, None),
            Mark::Pending => Cell::known(0, State::Failed, None, None, None),
            Mark::File(stamp) => Cell::known(0, State::Idle, Some(stamp), None, None),
            Mark::Absent => Cell::idle(),
        }
    }

    pub fn file(&self) -> Option<FileStamp>
        ensures { result ≡ self.now.file }
    {
        self.file
    }

    /// The stamp of its file, in place.
    pub(crate) fn file_ref(&self) -> Option<&FileStamp>
        ensures { option_map (λ stamp. stamp.now) result ≡ self.now.file }
    {
        self.file.as_ref()
    }

    /// The stamp that its last done gave.
    pub fn last_done(&self) -> Option<FileStamp>
        ensures { result ≡ self.now.done }
    {
        self.done
    }

    /// The digest of its present build, in place.
    pub fn digest_ref(&self) -> Option<&[u8; 20]>
        ensures { option_map (λ digest. digest.now) result ≡ self.now.digest }
    {
        self.digest.as_ref()
    }

    pub fn state(&self) -> State
        ensures { target_state_of result ≡ self.now.state }
    {
        self.state.state()
    }

    pub fn builds(&self) -> u32
        ensures { result ≡ self.now.builds }
    {
        self.builds
    }

    /// The mark that a change row on the name gets now.
    pub fn mark(&self) -> Mark
        ensures { row_mark_of result ≡ mark_in self.now.state self.now }
    {
        match self.state {
            KeptState::Idle => Mark::of_file(self.file),
            KeptState::Building(_) => Mark::Pending,
            KeptState::Built => Mark::of_build(self.digest, self.builds),
            KeptState::Failed => Mark::Pending,
        }
    }

    /// Whether that mark is this digest.
    pub fn has_digest(&self, digest: &[u8; 20]) -> bool
        ensures { IsTrue result
            ↔ (mark_in self.now.state self.now ≡ states.Digest digest.now) }
    {
        match (self.state, &self.digest) {
            (KeptState::Built, Some(own)) => own == digest,
            _ => false,
        }
    }

    /// Whether that mark is this number of builds.
    pub fn has_builds(&self, builds: u32) -> bool
        ensures { IsTrue result ↔ (mark_in self.now.state self.now ≡ states.Builds builds) }
    {
        match (self.state, &self.digest) {
            (KeptState::Built, None) => self.builds == builds,
            _ => false,
        }
    }

    /// Whether that mark is this stamp.
    pub fn has_stamp(&self, stamp: &FileStamp) -> bool
        ensures { IsTrue result ↔ (mark_in self.now.state self.now ≡ states.File stamp.now) }
    {
        match (self.state, &self.file) {
            (KeptState::Idle, Some(own)) => own.bytes() == stamp.bytes(),
            _ => false,
        }
    }

    /// Whether that mark is Pending.
    pub fn is_pending(&self) -> bool
        ensures { IsTrue result ↔ (mark_in self.now.state self.now ≡ states.Pending) }
    {
        match self.state {
            KeptState::Building(_) | KeptState::Failed => true,
            KeptState::Idle | KeptState::Built => false,
        }
    }

    /// Whether that mark is Absent.
    pub fn is_absent(&self) -> bool
        ensures { IsTrue result ↔ (mark_in self.now.state self.now ≡ states.Absent) }
    {
        match (self.state, &self.file) {
            (KeptState::Idle, None) => true,
            _ => false,
        }
    }

    /// Whether the name is built, and its file differs from the one that its last done gave.
    pub fn is_edited(&self) -> bool
        ensures { IsTrue result ↔ IsBuiltAndEdited self.now }
    {
        match self.state {
            KeptState::Built => !is_same_stamp(&self.file, &self.done),
            _ => false,
        }
    }

    /// The first refusal that applies, by the target's state and by whether the session holds its lock. It doesn't test
    /// the names after the target.
    pub fn refusal(&self, s: u16, kind: Kind, holds: bool) -> Option<Refusal>
        ensures { option_map refusal_of result ≡ refusal_by_target self.now.state s holds kind }
    {
        self.state.state().refusal(s, kind, holds)
    }

    pub fn set_file(&mut self, file: Option<FileStamp>)
        ensures { self.new ≡ record self.old { file = file } }
    {
        self.file = file;
    }

    /// The session starts a build, without a digest so far.
    pub fn start(&mut self, s: u16)
        ensures { self.new ≡ record self.old { state = states.Building s; digest = None } }
    {
        self.state = KeptState::building(s);
        self.digest = None;
    }

    pub fn stamp(&mut self, digest: [u8; 20])
        ensures { self.new ≡ record self.old { digest = Some digest } }
    {
        self.digest = Some(digest);
    }

    /// The build ends with this file, or with none.
    pub fn done(&mut self, stamp: Option<FileStamp>)
        requires { self.old.builds + 1 < 2 ^ 32 }
        ensures { self.new ≡ record self.old {
          file = stamp;
          state = states.Built;
          builds = self.old.builds + 1;
          done = stamp;
        } }
    {
        let file = stamp;
        *self = Cell {
            builds: self.builds + 1,
            state: KeptState::Built,
            file,
            done: stamp,
            digest: self.digest,
        };
    }

    pub fn failed(&mut self)
        ensures { self.new ≡ record self.old { state = states.Failed } }
    {
        self.state = KeptState::Failed;
    }
}
