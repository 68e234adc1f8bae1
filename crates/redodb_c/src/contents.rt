use redodb_live::Live;
use std::alloc::{AllocError, Global};
use std::marker::Model;

/// A database that is open, and memory for its answers, which each call uses again. The database is boxed, so that it
/// isn't moved when this is.
#[derive(Drop)]
pub struct Opened {
    pub(crate) live: Box<Live>,
    pub(crate) output: Vec<u8>,
    pub(crate) logged: Vec<u8>,
}

impl Model for Opened {
    ghost use Rattle.redodb_live.specs.Support.LiveState.{LiveState};

    ghost Value = { LiveState };

    ghost use Rattle.redodb_c.specs.Support.Opened.{live_in};

    ghost view = { live_in };
}

impl Opened {
    ghost use Rattle.std.specs.Prelude.{◌≡◌, IfOk};

    pub(crate) fn new(alloc: Global, live: Live) -> Result<Opened, AllocError>
        ensures { IfOk result (λ opened. opened ≡ live) }
    {
        Ok(Opened {
            live: Box::new(alloc, live)?,
            output: Vec::new(alloc),
            logged: Vec::new(alloc),
        })
    }
}

/// The value in the memory of a handle.
#[derive(Drop)]
pub enum Contents {
    Closed,
    Open(Opened),
}
