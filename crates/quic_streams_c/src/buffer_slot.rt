//! A place for a boxed buffer, behind a pointer that C may carry.

ghost use Rattle.std.specs.Prelude.{◌≡◌, IsSome};
ghost use Rattle.std.specs.declared.option.Option.{Option};
ghost use Rattle.std.specs.declared.option.Option.TheVariants.{Some, None};
ghost use Rattle.std.specs.Coded.{coded_option};
ghost use Rattle.quic_session.specs.declared.buffer.Buffer.{Buffer};
ghost use Rattle.quic_session.specs.contracts.buffer.Buffer.{the_row};
ghost use Rattle.quic_streams_c.specs.HeldBuffer.{buffer_holds};

use box_parts::parts::Parts;
use quic_session::buffer::Buffer;
use std::alloc::Global;
use std::marker::Model;

#[repr(C)]
#[derive(Drop)]
pub struct BufferSlot {
    at: *mut u8,
    alloc: Global,
    pub ghost value: { Option Buffer } by { coded_option the_row.coded },
}

impl Model for BufferSlot {
    ghost also_owns = { λ s. buffer_holds s.alloc s.at s.value };
}

impl BufferSlot {
    /// One with nothing in it.
    pub fn empty(alloc: Global) -> BufferSlot
        ensures { result.value ≡ None }
    {
        BufferSlot {
            at: std::ptr::null_mut(),
            alloc,
        }
    }

    /// One that has the buffer.
    pub fn of(buffer: Box<Buffer>) -> BufferSlot
        ensures { result.value ≡ Some buffer.value }
    {
        BufferSlot::of_parts(Parts::of(buffer))
    }

    /// The buffer of one that has it.
    pub fn into_box(self) -> Box<Buffer>
        requires { IsSome self.value }
        ensures { self.value ≡ Some result.value }
    {
        self.into_parts().into_box()
    }

    fn of_parts(parts: Parts<Buffer, Global>) -> BufferSlot
        ensures { result.value ≡ Some parts.value }
    {
        let Parts { ptr, alloc } = parts;
        BufferSlot {
            at: ptr as *mut u8,
            alloc,
        }
    }

    fn into_parts(self) -> Parts<Buffer, Global>
        requires { IsSome self.value }
        ensures { self.value ≡ Some result.value }
    {
        let BufferSlot { at, alloc } = self;
        Parts {
            ptr: at as *mut Buffer,
            alloc,
        }
    }
}
