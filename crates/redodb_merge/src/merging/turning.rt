//! How many rows and grants came.

ghost use Rattle.std.specs.Prelude.{◌↔◌, IsTrue, length};
ghost use Rattle.redodb_merge.specs.Support.Merging.{Comes, IsWithin, Turned};

use redodb_journal::Place;

/// How many rows came, and the claim word of each target.
#[derive(Debug, Drop)]
pub(crate) struct Turns {
    pub(crate) rows: u64,
    pub(crate) claims: Vec<u64>,
}

/// Whether the place may come next.
pub(crate) fn comes(turns: &Turns, place: Place) -> bool
    requires { IsWithin (length turns.now.claims.items) place }
    ensures { IsTrue result ↔ Comes turns.now place }
{
    match place {
        Place::Row(r) => turns.rows == u64::from(r),
        Place::Granted(t, g) => g > 0 && turns.claims[t as usize] == 2 * u64::from(g) - 2,
        Place::Busy(t, g) | Place::Released(t, g) => {
            g > 0 && turns.claims[t as usize] == 2 * u64::from(g) - 1
        }
    }
}

/// Counts a place that came.
pub(crate) fn turn(turns: &mut Turns, place: Place)
    requires within { IsWithin (length turns.old.claims.items) place }
    requires comes { Comes turns.old place }
    ensures { Turned turns.old turns.new place }
{
    match place {
        Place::Row(_) => turns.rows += 1,
        Place::Granted(t, _) | Place::Released(t, _) => turns.claims[t as usize] += 1,
        Place::Busy(..) => {}
    }
}
