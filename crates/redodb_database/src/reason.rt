//! The reasons of its own by which a target has to be built again.

ghost use Rattle.std.specs.Prelude.{◌≡◌, ◌⊎◌, ◌↔◌, ◌<◌, IsTrue, IfSome, MatchOption, length};
ghost use Rattle.redodb_model.specs.Why.{IsReason};
ghost use Rattle.redodb_model.specs.Support.Why.{IsReasonBelow};
ghost use Rattle.redodb_model.specs.OutOfDate.{HasReason, SomeAppeared, SomeChanged};
ghost use Rattle.redodb_model.specs.State as states;
ghost use Rattle.redodb_records.specs.Cells.{cell_at};
ghost use Rattle.redodb_records.specs.Rows.{with_rows, rows_count};
ghost use Rattle.redodb_database.specs.Meaning.{reason_of};

use crate::hints::Hints;
use redodb_records::{DepRows, News, Records, State};

/// A reason of its own by which a target has to be built again.
#[derive(Clone, Copy, Debug)]
pub enum Reason {
    /// It is being built.
    Building,
    /// Its last build failed.
    Failed,
    /// Its file differs from the one that its last done gave.
    Edited,
    /// It has an always row.
    Always,
    /// It has a created row on this name, which has a file now.
    Appeared(u32),
    /// It has a change row on this name with another mark than the name has now.
    Changed(u32),
}

// The reason of a built target: the first that applies.
fn built_reason(records: &Records, rows: &DepRows, t: u32) -> Option<Reason>
    requires target { t < rows_count rows.now }
    requires names { length records.now ≡ rows_count rows.now }
    requires built { (cell_at records.now t).state ≡ states.Built }
    ensures reason { MatchOption result (HasReason (with_rows records.now rows.now) t → ⊥)
        (λ reason. IsReason (with_rows records.now rows.now) t (reason_of reason)) }
    ensures below { IfSome result
        (λ reason. IsReasonBelow (rows_count rows.now) (reason_of reason)) }
{
    if records.changed(t) {
        return Some(Reason::Edited);
    }
    if rows.always(t) {
        return Some(Reason::Always);
    }
    match rows.news(records, t) {
        Some(News::Appeared(n)) => Some(Reason::Appeared(n)),
        Some(News::Changed(n)) => Some(Reason::Changed(n)),
        None => None,
    }
}

/// The target's reason of its own: the first that applies.
pub(crate) fn own_reason(records: &Records, rows: &DepRows, t: u32) -> Option<Reason>
    requires target { t < rows_count rows.now }
    requires names { length records.now ≡ rows_count rows.now }
    ensures reason { MatchOption result (HasReason (with_rows records.now rows.now) t → ⊥)
        (λ reason. IsReason (with_rows records.now rows.now) t (reason_of reason)) }
    ensures below { IfSome result
        (λ reason. IsReasonBelow (rows_count rows.now) (reason_of reason)) }
{
    match records.state(t) {
        State::Idle => None,
        State::Building(_) => Some(Reason::Building),
        State::Built => built_reason(records, rows, t),
        State::Failed => Some(Reason::Failed),
    }
}

// Whether it has a row on a name that has appeared or changed, which is noted.
fn finds_news(records: &Records, rows: &DepRows, t: u32, hints: &mut Hints) -> bool
    requires target { t < rows_count rows.now }
    requires names { length records.now ≡ rows_count rows.now }
    ensures { IsTrue result ↔ (SomeAppeared (with_rows records.now rows.now) t
        ⊎ SomeChanged (with_rows records.now rows.now) t) }
{
    match rows.news(records, t) {
        Some(News::Appeared(n)) => {
            hints.note(t, n);
            true
        }
        Some(News::Changed(n)) => {
            hints.note(t, n);
            true
        }
        None => false,
    }
}

// The same. The name that was noted last is looked at first.
fn has_news(records: &Records, rows: &DepRows, t: u32, hints: &mut Hints) -> bool
    requires target { t < rows_count rows.now }
    requires names { length records.now ≡ rows_count rows.now }
    ensures { IsTrue result ↔ (SomeAppeared (with_rows records.now rows.now) t
        ⊎ SomeChanged (with_rows records.now rows.now) t) }
{
    rows.has_news_on(records, t, hints.of(t)) || finds_news(records, rows, t, hints)
}

// Whether a built target has a reason. Rows come first, since most reasons are theirs.
fn built_has_reason(records: &Records, rows: &DepRows, t: u32, hints: &mut Hints) -> bool
    requires target { t < rows_count rows.now }
    requires names { length records.now ≡ rows_count rows.now }
    requires built { (cell_at records.now t).state ≡ states.Built }
    ensures { IsTrue result ↔ HasReason (with_rows records.now rows.now) t }
{
    has_news(records, rows, t, hints) || rows.always(t) || records.changed(t)
}

/// Whether it is a target with a reason of its own.
pub(crate) fn has_reason(records: &Records, rows: &DepRows, t: u32, hints: &mut Hints) -> bool
    requires target { t < rows_count rows.now }
    requires names { length records.now ≡ rows_count rows.now }
    ensures { IsTrue result ↔ HasReason (with_rows records.now rows.now) t }
{
    match records.state(t) {
        State::Idle => false,
        State::Building(_) => true,
        State::Built => built_has_reason(records, rows, t, hints),
        State::Failed => true,
    }
}
