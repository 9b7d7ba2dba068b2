//! A buffer that a host outside of Rattle reads and writes between calls.

ghost use Rattle.std.specs.Prelude.{◌≡◌, ◌++◌, ◌-◌, [], length, replicate, OnOk, OnErr};

use quic_values::OutOfMemory;
use quic_wire::memory::room_for;
use std::alloc::Global;

/// The bytes of one payload: of one that was written, or is to come.
#[derive(Drop)]
pub struct Buffer {
    pub bytes: Vec<u8>,
}

impl Buffer {
    /// One without bytes.
    pub fn new(alloc: Global) -> Self
        ensures { result.bytes.items ≡ [] }
    {
        Buffer {
            bytes: Vec::new(alloc),
        }
    }

    /// Makes it at least so long. What it has stays, and zeros are put behind.
    pub fn reserve(&mut self, size: usize) -> Result<(), OutOfMemory>
        ensures ok { OnOk result (self.new.bytes.items ≡ self.old.bytes.items ++ replicate (size - length self.old.bytes.items) 0) }
        ensures err { OnErr result (self.new.bytes.items ≡ self.old.bytes.items) }
    {
        let len = self.bytes.len();
        if len < size {
            self.bytes.reserve_exact(room_for(size) - len)?;
            self.bytes.resize(size, 0)?;
        }
        Ok(())
    }
}
