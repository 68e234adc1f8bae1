//! What the rows of a target say of the names that they are on.

ghost use Rattle.std.specs.Prelude.{◌≡◌, ◌↔◌, ◌<◌, ℕ, IsTrue, MatchOption, length, true};
ghost use Rattle.redodb_records.specs.Rows.{has_slot};
ghost use Rattle.redodb_records.specs.Target.{Ascending};
ghost use Rattle.redodb_records.specs.Support.News.{known, HasAppeared, HasChanged, HasNews, SomeNews, IsNewsOf, IsNewsIn};

use crate::records::Records;
use crate::target::Slot;

/// How a name has changed since a target got a row on it.
#[derive(Clone, Copy, Debug)]
pub enum News {
    /// There is a created row on it, and it has a file now.
    Appeared(u32),
    /// There is a change row on it with another mark than it has now.
    Changed(u32),
}

// Whether there is a created row here, and the name has a file now.
fn has_appeared(records: &Records, slot: &Slot) -> bool
    requires { slot.now.name < length records.now }
    ensures { IsTrue result ↔ HasAppeared (known records.now) slot.now slot.now.name }
{
    slot.created() && records.file(slot.name()).is_some()
}

// Whether there is a change row here with another mark than the name has now.
fn has_changed(records: &Records, slot: &Slot) -> bool
    requires { slot.now.name < length records.now }
    ensures { IsTrue result ↔ HasChanged (known records.now) slot.now slot.now.name }
{
    slot.has_changed(records.cell(slot.name()))
}

/// Whether the name has appeared or changed.
pub(crate) fn has_news(records: &Records, slot: &Slot) -> bool
    requires { slot.now.name < length records.now }
    ensures { IsTrue result ↔ HasNews (known records.now) slot.now slot.now.name }
{
    has_appeared(records, slot) || has_changed(records, slot)
}

// Whether the name has appeared or changed, and which of the two.
fn news_of(records: &Records, slot: &Slot) -> Option<News>
    requires { slot.now.name < length records.now }
    ensures { MatchOption result (HasNews (known records.now) slot.now slot.now.name → ⊥)
        (IsNewsOf (known records.now) slot.now) }
{
    if has_appeared(records, slot) {
        Some(News::Appeared(slot.name()))
    } else if has_changed(records, slot) {
        Some(News::Changed(slot.name()))
    } else {
        None
    }
}

/// The first name with a row that has appeared or changed.
pub(crate) fn first_news(records: &Records, slots: &[Slot]) -> Option<News>
    requires names { (n : ℕ) → has_slot slots.now n ≡ true → n < length records.now }
    requires ascending { Ascending slots.now }
    ensures { MatchOption result (SomeNews (known records.now) slots.now → ⊥)
        (IsNewsIn (known records.now) slots.now) }
{
    for slot in slots {
        if let Some(news) = news_of(records, slot) {
            return Some(news);
        }
    }
    None
}
