ghost use Rattle.std.specs.Prelude.{◌≡◌, ◌⊎◌, ◌↔◌, ℕ, ◌+◌, ◌<◌, ◌≤◌, [], IsTrue, length, Contains, IfOk, IfErr, OnOk, if◌then◌else◌, Some, None, vec_capacity, vec_len};
ghost use Rattle.redodb_records.specs.Numbers.{Rising, numbers_there};
ghost use Rattle.redodb_records.specs.Support.Numbers.{InOrder, IsPlaceOf, IsGapFor, HasOneMore};

use std::alloc::{AllocError, Global};
use std::marker::Model;

/// The place of a number in a list, and whether the number is there.
#[derive(Clone, Copy, Debug)]
pub struct Place {
    number: u32,
    is_there: bool,
}

impl Model for Place {
    ghost use Rattle.std.specs.Prelude.{refl};
    ghost use Rattle.redodb_records.specs.Numbers as numbers;

    ghost Value = { numbers.Place };

    ghost view = { λ inside. record { number = inside.number; is_there = inside.is_there } };

    ghost inverse = { λ place. record { number = place.number; is_there = place.is_there } };

    ghost inverse_ok = { λ inside i. refl };
}

impl Place {
    /// The number, if it is there.
    pub fn number(&self) -> Option<u32>
        ensures { result ≡ (if self.now.is_there then Some self.now.number else None) }
    {
        if self.is_there {
            Some(self.number)
        } else {
            None
        }
    }
}

/// Numbers in ascending order, each once, with reserved memory for more. A number that is removed leaves its place
/// empty, so that it can come back there.
#[derive(Drop)]
pub struct Numbers {
    places: Vec<Place>,
    // the place that was filled or emptied last
    latest: usize,
}

impl Model for Numbers {
    ghost use Rattle.std.specs.Prelude.{vec_capacity};
    ghost use Rattle.redodb_records.specs.Numbers.{NumberList, numbers_there};
    ghost use Rattle.redodb_records.specs.Support.Numbers.{InOrder};

    ghost Value = { NumberList };

    ghost view = { λ inside. record {
      items = numbers_there inside.places.items;
      room = vec_capacity inside.places;
    } };

    ghost invariant = { λ inside. InOrder inside.places.items };
}

/// The number's place, or the gap where it would go.
fn search(places: &[Place], x: u32) -> Result<usize, usize>
    requires { InOrder places.now }
    ensures found { IfOk result (IsPlaceOf places.now x) }
    ensures absent { IfErr result (IsGapFor places.now x) }
{
    places.binary_search_by_key(&x, |place| place.number)
}

fn is_place_of(places: &[Place], x: u32, at: usize) -> bool
    ensures { IsTrue result ↔ IsPlaceOf places.now x at }
{
    match places.get(at) {
        Some(place) => place.number == x,
        None => false,
    }
}

/// The place after this one; the first, if there is none.
fn next_place(places: &[Place], at: usize) -> usize {
    match places.get(at) {
        Some(_) if at + 1 < places.len() => at + 1,
        _ => 0,
    }
}

/// The same as `search`. This is fast if the place is `latest` or the next one.
fn search_near(places: &[Place], x: u32, latest: usize) -> Result<usize, usize>
    requires { InOrder places.now }
    ensures found { IfOk result (IsPlaceOf places.now x) }
    ensures absent { IfErr result (IsGapFor places.now x) }
{
    if is_place_of(places, x, latest) {
        return Ok(latest);
    }
    let next = next_place(places, latest);
    if is_place_of(places, x, next) {
        return Ok(next);
    }
    search(places, x)
}

/// The gap for a number without a place.
fn find_gap(places: &[Place], x: u32) -> usize
    requires order { InOrder places.now }
    requires absent { (i : ℕ) → IsPlaceOf places.now x i → ⊥ }
    ensures { IsGapFor places.now x result }
{
    match search(places, x) {
        Ok(place) => place,
        Err(gap) => gap,
    }
}

/// Makes room for one more place, and returns the gap for the number. If the memory is full, the empty places go.
fn make_room(places: &mut Vec<Place>, gap: usize, x: u32) -> usize
    requires order { InOrder places.old.items }
    requires gap { IsGapFor places.old.items x gap }
    requires room { length (numbers_there places.old.items) < vec_capacity places.old }
    ensures order { InOrder places.new.items }
    ensures gap { IsGapFor places.new.items x result }
    ensures numbers { numbers_there places.new.items ≡ numbers_there places.old.items }
    ensures capacity { vec_capacity places.new ≡ vec_capacity places.old }
    ensures room { vec_len places.new < vec_capacity places.new }
{
    if places.len() < places.capacity() {
        return gap;
    }
    places.retain(|place| place.is_there);
    find_gap(places.as_slice(), x)
}

/// Puts the number into a new place at its gap.
fn put_new(places: &mut Vec<Place>, gap: usize, x: u32)
    requires order { InOrder places.old.items }
    requires gap { IsGapFor places.old.items x gap }
    requires room { length (numbers_there places.old.items) < vec_capacity places.old }
    ensures order { InOrder places.new.items }
    ensures more { HasOneMore x (numbers_there places.old.items) (numbers_there places.new.items) }
    ensures capacity { vec_capacity places.old ≤ vec_capacity places.new }
{
    let gap = make_room(places, gap, x);
    let place = Place {
        number: x,
        is_there: true,
    };
    let _inserted = places.insert(gap, place);
}

impl Numbers {
    pub fn new(alloc: Global) -> Numbers
        ensures { result.items ≡ [] }
    {
        Numbers {
            places: Vec::new(alloc),
            latest: 0,
        }
    }

    /// The places of the numbers, in ascending order.
    pub fn places(&self) -> &[Place]
        ensures items { numbers_there result.now ≡ self.now.items }
        ensures ascending { Rising (numbers_there result.now) }
    {
        self.places.as_slice()
    }

    pub fn has_any(&self) -> bool
        ensures { IsTrue result ↔ ((u : ℕ) × Contains self.now.items u) }
    {
        self.places.iter().any(|place| place.is_there)
    }

    /// Reserves memory for that many numbers in all.
    pub fn reserve(&mut self, total: usize) -> Result<(), AllocError>
        ensures items { self.new.items ≡ self.old.items }
        ensures ok { OnOk result (total ≤ self.new.room) }
        ensures kept { self.old.room ≤ self.new.room }
    {
        let more = total.saturating_sub(self.places.len());
        self.places.reserve(more)
    }

    /// Allocates nothing.
    pub fn insert(&mut self, x: u32)
        requires out { Contains self.old.items x → ⊥ }
        requires room { length self.old.items < self.old.room }
        ensures each { (u : ℕ) → Contains self.new.items u ↔ (Contains self.old.items u ⊎ (u ≡ x)) }
        ensures length { length self.new.items ≡ length self.old.items + 1 }
        ensures room { self.old.room ≤ self.new.room }
    {
        match search_near(self.places.as_slice(), x, self.latest) {
            Ok(place) => {
                self.latest = place;
                self.places[place] = Place {
                    number: x,
                    is_there: true,
                };
            }
            Err(gap) => put_new(&mut self.places, gap, x),
        }
    }

    /// Leaves the number's place empty, and keeps the capacity.
    pub fn remove(&mut self, x: u32)
        requires { Contains self.old.items x }
        ensures each { (u : ℕ)
            → Contains self.new.items u ↔ (Contains self.old.items u × (u ≡ x → ⊥)) }
        ensures length { length self.new.items + 1 ≡ length self.old.items }
        ensures room { self.old.room ≤ self.new.room }
    {
        if let Ok(place) = search_near(self.places.as_slice(), x, self.latest) {
            self.latest = place;
            self.places[place] = Place {
                number: x,
                is_there: false,
            };
        }
    }
}
