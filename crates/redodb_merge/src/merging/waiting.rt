//! Which sessions are known to wait, and for what: so the merge needn't look at all of them.

ghost use Rattle.std.specs.Prelude.{◌≡◌, ◌<◌, ◌≤◌, ◌-◌, ◌^◌, ℕ, IfOk, MatchOption, length};
ghost use Rattle.redodb_merge.specs.Support.Waiting.{row_bucket, bucket_of, bucket_woken, NoneIsReady, IsFirstReady, HasBuckets, Waits, Wakes};

use redodb_journal::{Entry, Place};
use std::alloc::{AllocError, Global};

/// A session that waits is put into the bucket of its next place. A place wakes all sessions of one
/// bucket, so two places may share a bucket: it only wakes a session too often.
#[derive(Debug, Drop)]
pub(crate) struct Waiting {
    /// A bit for each session that isn't known to wait.
    pub(crate) ready: u64,
    /// For each bucket, a bit for each session that waits there.
    pub(crate) buckets: Vec<u64>,
}

fn row_bucket(row: u64) -> usize
    ensures { result ≡ row_bucket row }
{
    (row % 256) as usize
}

/// The bucket of a place: that of its row, or of its target.
fn bucket_of(place: Place) -> usize
    ensures { result ≡ bucket_of place }
{
    match place {
        Place::Row(row) => row_bucket(u64::from(row)),
        Place::Granted(t, _) | Place::Busy(t, _) | Place::Released(t, _) => {
            256 + t as usize % 256
        }
    }
}

/// The bucket that a place wakes: that of the next row, or of its target.
fn bucket_woken(place: Place) -> usize
    ensures { result ≡ bucket_woken place }
{
    match place {
        Place::Row(row) => row_bucket(u64::from(row) + 1),
        _ => bucket_of(place),
    }
}

impl Waiting {
    /// No session is known to wait.
    pub(crate) fn new(alloc: Global) -> Result<Waiting, AllocError>
        ensures ready { IfOk result (λ waiting. waiting.ready ≡ 2 ^ 64 - 1) }
        ensures buckets { IfOk result (λ waiting. HasBuckets waiting) }
    {
        let buckets = vec![in alloc; 0u64; 512]?;
        Ok(Waiting {
            ready: u64::MAX,
            buckets,
        })
    }

    /// The least session that isn't known to wait, of this many.
    pub(crate) fn first(&self, count: usize) -> Option<usize>
        requires { count ≤ 64 }
        ensures { MatchOption result
            (NoneIsReady self.now.ready count)
            (IsFirstReady self.now.ready count) }
    {
        let s = self.ready.trailing_zeros() as usize;
        if s < count { Some(s) } else { None }
    }

    /// Notes that the session waits for the place of its entry at k, if there is one.
    pub(crate) fn wait(&mut self, s: usize, entries: &[Entry], k: usize)
        requires buckets { HasBuckets self.old }
        requires below { s < 64 }
        ensures { Waits self.old self.new s entries.now k }
    {
        self.ready &= !(1 << s);
        if let Some(entry) = entries.get(k) {
            self.buckets[bucket_of(entry.place)] |= 1 << s;
        }
    }

    /// Wakes the sessions that may go on now that this place came.
    pub(crate) fn wake(&mut self, place: Place)
        requires { HasBuckets self.old }
        ensures { Wakes self.old self.new place }
    {
        let k = bucket_woken(place);
        self.ready |= self.buckets[k];
        self.buckets[k] = 0;
    }
}
