ghost use Rattle.std.specs.Prelude.{◌≡◌, option_map};
ghost use Rattle.redodb_model.specs.State.{is_building};
ghost use Rattle.redodb_model.specs.Step.{is_built_by};
ghost use Rattle.redodb_commands.specs.Meaning.{refusal_of};
ghost use Rattle.redodb_records.specs.Meaning.{target_state_of};
ghost use Rattle.redodb_records.specs.Refusals.{refusal_by_target};

use crate::state::State;
use redodb_commands::{Kind, Refusal, cases};

/// Returns the refusal of a need, if the need is not met. A need about the names after the target is skipped.
macro_rules! refuse_unless {
    (held $refusal:ident $state:ident $s:ident $holds:ident) => {
        if !$holds {
            return Some(Refusal::$refusal);
        }
    };
    (resting $refusal:ident $state:ident $s:ident $holds:ident) => {
        if $state.is_building() {
            return Some(Refusal::$refusal);
        }
    };
    (own_build $refusal:ident $state:ident $s:ident $holds:ident) => {
        if !$state.is_built_by($s) {
            return Some(Refusal::$refusal);
        }
    };
    (others $refusal:ident $state:ident $s:ident $holds:ident) => {};
    (missing $refusal:ident $state:ident $s:ident $holds:ident) => {};
}

/// The refusal of the first need of the kind that is not met, of those about the target alone.
macro_rules! first_refusal {
    (
        [$state:ident $s:ident $holds:ident $kind:ident]
        $((
            $case:ident $(($($field:ident),*))?,
            $word:literal,
            [$($need:ident $refusal:ident),*],
            $($rest:tt)*
        ))*
    ) => {
        match $kind {
            $(Kind::$case => {
                $(refuse_unless!($need $refusal $state $s $holds);)*
                None
            })*
        }
    };
}

impl State {
    /// The first refusal that applies to a command on a target with this state, by whether the session holds its lock.
    /// It doesn't test the names after the target.
    pub fn refusal(&self, s: u16, kind: Kind, holds: bool) -> Option<Refusal>
        ensures { option_map refusal_of result
            ≡ refusal_by_target (target_state_of self.now) s holds kind }
    {
        cases!(first_refusal self s holds kind)
    }

    fn is_building(&self) -> bool
        ensures { result ≡ is_building (target_state_of self.now) }
    {
        match self {
            State::Building(_) => true,
            _ => false,
        }
    }

    fn is_built_by(&self, s: u16) -> bool
        ensures { result ≡ is_built_by s (target_state_of self.now) }
    {
        match self {
            State::Building(builder) => *builder == s,
            _ => false,
        }
    }
}
