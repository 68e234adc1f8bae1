//! Which targets have rows on a name.

ghost use Rattle.std.specs.Prelude.{◌≡◌, ◌++◌, ◌∷◌, [], IfOk, OnOk};
ghost use Rattle.redodb_records.specs.Numbers.{numbers_there};

use redodb_records::Place;
use std::alloc::{AllocError, Global};

/// The targets that have rows on a name.
#[derive(Debug, Drop)]
pub struct Users {
    /// Those with a change row, in the order of their numbers.
    pub change: Vec<u32>,
    /// Those with a created row, in the order of their numbers.
    pub created: Vec<u32>,
}

fn push_there(numbers: &mut Vec<u32>, place: &Place) -> Result<(), AllocError>
    ensures { OnOk result
        (numbers.new.items ≡ numbers.old.items ++ numbers_there (place.now ∷ [])) }
{
    if let Some(number) = place.number() {
        numbers.push(number)?;
    }
    Ok(())
}

/// The numbers that are there.
pub(crate) fn numbers_at(alloc: Global, places: &[Place]) -> Result<Vec<u32>, AllocError>
    ensures { IfOk result (λ numbers. numbers.items ≡ numbers_there places.now) }
{
    let mut numbers = Vec::new(alloc);
    for place in places {
        push_there(&mut numbers, place)?;
    }
    Ok(numbers)
}
