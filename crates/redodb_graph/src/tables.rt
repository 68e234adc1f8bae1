ghost use Rattle.std.specs.Prelude.{◌≡◌};
ghost use Rattle.redodb_graph.specs.Graphs.{IsOnce};

use crate::pairs::Pairs;
use redodb_commands::FileStamp;
use std::marker::Model;

/// What the numbers of steps stand for.
#[derive(Drop)]
pub(crate) struct Tables {
    pub(crate) pairs: Pairs,
    pub(crate) listed: Vec<u32>,
    pub(crate) stamps: Vec<FileStamp>,
    pub(crate) digests: Vec<[u8; 20]>,
}

impl Model for Tables {
    ghost use Rattle.redodb_graph.specs.Steps.{TablesOf};
    ghost use Rattle.redodb_graph.specs.Support.Tables.{AreOnce};

    ghost Value = { TablesOf };

    ghost view = { λ inside. record {
      pairs = inside.pairs;
      listed = inside.listed.items;
      stamps = inside.stamps.items;
      digests = inside.digests.items;
    } };

    ghost invariant = { λ inside. AreOnce inside.stamps.items inside.digests.items };
}

impl Tables {
    pub(crate) fn stamps(&self) -> &[FileStamp]
        ensures stamps { result.now ≡ self.now.stamps }
        ensures once { IsOnce self.now.stamps }
    {
        &self.stamps
    }

    pub(crate) fn digests(&self) -> &[[u8; 20]]
        ensures digests { result.now ≡ self.now.digests }
        ensures once { IsOnce self.now.digests }
    {
        &self.digests
    }

    /// A law of the tables: no stamp and no digest has two numbers.
    pub(crate) fn are_once(&self)
        ensures stamps { IsOnce self.now.stamps }
        ensures digests { IsOnce self.now.digests }
    {
        let _ = self.stamps();
        let _ = self.digests();
    }
}
