//! Send halves that were let go, to be used again.

ghost use Rattle.std.specs.Prelude.{◌≡◌, IfOk};
ghost use Rattle.quic_outgoing.specs.Senders.{bare, new_sender};

use quic_sending::Send;
use quic_values::{OutOfMemory, VarInt};
use std::alloc::Global;
use std::marker::Model;

// So many halves are kept at most.
const MOST: usize = 128;

/// Halves that were let go, at most 128, each with memory for at most four pieces. What is kept changes no answer: it only
/// saves memory to be asked for.
#[derive(Drop)]
pub(crate) struct SpareHalves {
    alloc: Global,
    halves: Vec<SpareHalf>,
}

impl SpareHalves {
    /// None is kept. Takes no memory.
    pub(crate) fn new(alloc: Global) -> Self {
        SpareHalves {
            alloc,
            halves: Vec::new(alloc),
        }
    }

    /// A half to which nothing was written, with a limit. Takes memory only where none is kept.
    #[inline]
    pub(crate) fn make(&mut self, limit: VarInt) -> Result<Box<Send>, OutOfMemory>
        ensures { IfOk result (λ half. bare half.value ≡ new_sender limit) }
    {
        match self.halves.pop() {
            Some(spare) => Ok(spare.with_limit(limit)),
            None => {
                let half = Box::new(self.alloc, Send::new(self.alloc, limit))?;
                Ok(half)
            }
        }
    }

    /// Keeps the half of an entry, if it has one and few are kept.
    #[inline]
    pub(crate) fn keep(&mut self, entry: Option<Option<Box<Send>>>) {
        if let Some(Some(half)) = entry
            && self.halves.len() < MOST
        {
            // (without memory for the list it is let go)
            let _ = self.halves.push(SpareHalf::new(half));
        }
    }
}

// A half that is as a new one with no limit.
#[derive(Drop)]
struct SpareHalf {
    half: Box<Send>,
}

impl Model for SpareHalf {
    ghost use Rattle.std.specs.Prelude.{◌≡◌, ⊤};
    ghost use Rattle.quic_outgoing.specs.Senders.{bare, new_sender};

    ghost Value = { ⊤ };

    ghost view = { λ _. tt };

    ghost invariant = { λ s. bare s.half.value ≡ new_sender 0 };
}

impl SpareHalf {
    fn new(half: Box<Send>) -> Self {
        let mut half = half;
        half.renew(VarInt::new(0));
        SpareHalf { half }
    }

    // The half with a limit.
    #[inline]
    fn with_limit(self, limit: VarInt) -> Box<Send>
        ensures { bare result.value ≡ new_sender limit }
    {
        let mut half = self.half;
        half.max_data = limit;
        half
    }
}
