ghost use Rattle.std.specs.Prelude.{◌≡◌};
ghost use Rattle.redodb_records.specs.Meaning.{target_state_of};
ghost use Rattle.redodb_replica.specs.CompactCells.{compact_state_of};

use redodb_records::State;

/// The state of a name, in two bytes: a run has few sessions.
#[derive(Clone, Copy, Debug, PartialEq, Eq)]
pub enum CompactState {
    Idle,
    /// This session is building it.
    Building(u8),
    Built,
    Failed,
}

impl CompactState {
    pub(crate) fn state(self) -> State
        ensures { target_state_of result ≡ compact_state_of self }
    {
        match self {
            CompactState::Idle => State::Idle,
            CompactState::Building(session) => State::Building(session as u16),
            CompactState::Built => State::Built,
            CompactState::Failed => State::Failed,
        }
    }
}
