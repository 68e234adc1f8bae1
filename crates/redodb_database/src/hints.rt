use std::alloc::{AllocError, Global};

/// For each target, the name that had appeared or changed when it was last looked for; nothing rests on it.
#[derive(Drop)]
pub(crate) struct Hints {
    names: Vec<u32>,
}

impl Hints {
    pub(crate) fn new(alloc: Global, targets: u32) -> Result<Hints, AllocError> {
        let names = vec![in alloc; 0; targets as usize]?;
        Ok(Hints { names })
    }

    pub(crate) fn of(&self, t: u32) -> u32 {
        match self.names.get(t as usize) {
            Some(n) => *n,
            None => 0,
        }
    }

    pub(crate) fn note(&mut self, t: u32, n: u32) {
        if let Some(hint) = self.names.get_mut(t as usize) {
            *hint = n;
        }
    }
}
