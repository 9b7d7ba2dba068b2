//! Receive halves that were let go, to be used again.

ghost use Rattle.std.specs.Prelude.{◌≡◌, IfOk};
ghost use Rattle.quic_receiving.specs.Half.{new_half};

use quic_receiving::Recv;
use quic_values::{OutOfMemory, VarInt};
use std::alloc::Global;
use std::marker::Model;

// So many halves are kept at most.
const MOST: usize = 128;

/// Halves that were let go, at most 128, without the data that came and without memory for such. What is kept changes no
/// answer: it only saves memory to be asked for.
#[derive(Drop)]
pub(crate) struct SpareHalves {
    alloc: Global,
    halves: Vec<SpareHalf>,
}

impl SpareHalves {
    /// None is kept. Takes no memory.
    pub(crate) fn new(alloc: Global) -> Self {
        SpareHalves {
            alloc,
            halves: Vec::new(alloc),
        }
    }

    /// A half to which nothing came, with a limit. Takes memory only where none is kept.
    #[inline]
    pub(crate) fn make(&mut self, window: VarInt) -> Result<Box<Recv>, OutOfMemory>
        ensures { IfOk result (λ half. half.value ≡ new_half window) }
    {
        match self.halves.pop() {
            Some(spare) => Ok(spare.with_limit(window)),
            None => {
                let half = Box::new(self.alloc, Recv::new(self.alloc, window.into_inner()))?;
                Ok(half)
            }
        }
    }

    /// Keeps the half of an entry, if it has one and few are kept.
    #[inline]
    pub(crate) fn keep(&mut self, entry: Option<Option<Box<Recv>>>) {
        if let Some(Some(half)) = entry
            && self.halves.len() < MOST
        {
            // (without memory for the list it is let go)
            let _ = self.halves.push(SpareHalf::new(self.alloc, half));
        }
    }
}

// A half that is as a new one with no limit.
#[derive(Drop)]
struct SpareHalf {
    half: Box<Recv>,
}

impl Model for SpareHalf {
    ghost use Rattle.std.specs.Prelude.{◌≡◌, ⊤};
    ghost use Rattle.quic_receiving.specs.Half.{new_half};

    ghost Value = { ⊤ };

    ghost view = { λ _. tt };

    ghost invariant = { λ s. s.half.value ≡ new_half 0 };
}

impl SpareHalf {
    #[inline]
    fn new(alloc: Global, half: Box<Recv>) -> Self {
        let mut half = half;
        *half = Recv::new(alloc, 0);
        SpareHalf { half }
    }

    // The half with a limit.
    #[inline]
    fn with_limit(self, window: VarInt) -> Box<Recv>
        ensures { result.value ≡ new_half window }
    {
        let mut half = self.half;
        half.record_sent_max_stream_data(window.into_inner());
        half
    }
}
