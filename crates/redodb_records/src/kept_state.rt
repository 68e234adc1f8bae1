ghost use Rattle.std.specs.Prelude.{◌≡◌};
ghost use Rattle.redodb_model.specs.State as states;
ghost use Rattle.redodb_records.specs.Meaning.{target_state_of};
ghost use Rattle.redodb_records.specs.Support.KeptState.{kept_state_of};

use crate::state::State;
use std::marker::Model;

/// The number of a session, in two bytes at any address.
#[derive(Clone, Copy, Debug)]
pub struct SessionBytes {
    bytes: [u8; 2],
}

impl Model for SessionBytes {
    ghost use Rattle.std.specs.Prelude.{◌≡◌, ℕ};
    ghost use Rattle.std.specs.Int.{w16, from_le_bytes, to_le_bytes};

    ghost Value = { ℕ };

    ghost view = { λ session. from_le_bytes w16 session.bytes };

    ghost invariant = { λ session.
        to_le_bytes w16 (from_le_bytes w16 session.bytes) ≡ session.bytes };

    ghost inverse = { λ number. record { bytes = to_le_bytes w16 number } };

    ghost inverse_ok = { λ session is i. record { bytes = is i } };
}

impl SessionBytes {
    fn new(session: u16) -> SessionBytes
        ensures { result ≡ session }
    {
        SessionBytes {
            bytes: session.to_le_bytes(),
        }
    }

    fn session(self) -> u16
        ensures { result ≡ self }
    {
        u16::from_le_bytes(self.bytes)
    }
}

/// A state in a cell, without the padding of a `State`.
#[derive(Clone, Copy, Debug)]
pub enum KeptState {
    Idle,
    Building(SessionBytes),
    Built,
    Failed,
}

impl KeptState {
    pub fn state(self) -> State
        ensures { target_state_of result ≡ kept_state_of self }
    {
        match self {
            KeptState::Idle => State::Idle,
            KeptState::Building(session) => State::Building(session.session()),
            KeptState::Built => State::Built,
            KeptState::Failed => State::Failed,
        }
    }

    /// The state in a cell that means it.
    pub fn of(state: State) -> KeptState
        ensures { kept_state_of result ≡ target_state_of state }
    {
        match state {
            State::Idle => KeptState::Idle,
            State::Building(session) => KeptState::building(session),
            State::Built => KeptState::Built,
            State::Failed => KeptState::Failed,
        }
    }

    pub fn building(session: u16) -> KeptState
        ensures { kept_state_of result ≡ states.Building session }
    {
        KeptState::Building(SessionBytes::new(session))
    }
}
