//! Payloads that a session writes for a pair.

ghost use Rattle.std.specs.Prelude.{◌≡◌, ◌<◌, [], is_err};
ghost use Rattle.quic_session.specs.Slots.{KeepsEmpty};
ghost use Rattle.quic_session.specs.Tokens.{places};
ghost use Rattle.quic_pair.specs.Emitting.{parts_for, EmitsKept};

use quic_session::Session;
use quic_session::buffer::Buffer;
use quic_session::emitting::Parts;
use quic_steps::PayloadPart;
use quic_values::OutOfMemory;
use std::alloc::Global;

/// A payload that was written.
#[derive(Drop)]
pub(crate) struct Written {
    pub token: u64,
    pub bytes: Vec<u8>,
    /// Whether memory ran out behind the last frame.
    pub answer: Result<(), OutOfMemory>,
}

// Control frames and data, or one of these.
fn parts_for(part: Option<PayloadPart>) -> Parts
    ensures { result ≡ parts_for part }
{
    let (control, streams) = match part {
        None => (true, true),
        Some(PayloadPart::Control) => (true, false),
        Some(PayloadPart::Streams) => (false, true),
    };
    Parts {
        control,
        datagrams: false,
        streams,
    }
}

/// Writes control frames and data, or one of these, into a payload of at most `max_size` bytes. It has a token also if there
/// was nothing to write. Fails only if nothing was written.
pub(crate) fn emit(
    end: &mut Session,
    alloc: Global,
    max_size: usize,
    fair: bool,
    part: Option<PayloadPart>,
) -> Result<Written, OutOfMemory>
    ensures { EmitsKept max_size fair part end.old result end.new }
{
    end.reserve_payload()?;
    let mut buffer = Buffer::new(alloc);
    match end.emit_buffer(&mut buffer, max_size, parts_for(part), fair) {
        Ok(Some(emitted)) => Ok(Written {
            token: emitted.token,
            bytes: buffer.bytes,
            answer: cut_answer(emitted.cut),
        }),
        Ok(None) => Ok(without_frames(end, alloc, Ok(()))),
        Err(error) => Ok(without_frames(end, alloc, Err(error))),
    }
}

// A payload without frames, for which a slot was reserved.
fn without_frames(end: &mut Session, alloc: Global, answer: Result<(), OutOfMemory>) -> Written
    requires { 0 < places end.old.unsettled }
    ensures bytes { result.bytes.items ≡ [] }
    ensures answer { result.answer ≡ answer }
    ensures keeps { KeepsEmpty end.old result.token end.new }
{
    Written {
        token: end.keep_empty(),
        bytes: Vec::new(alloc),
        answer,
    }
}

// That memory ran out, or did not.
fn cut_answer(cut: bool) -> Result<(), OutOfMemory>
    ensures { is_err result ≡ cut }
{
    if cut {
        return Err(OutOfMemory);
    }
    Ok(())
}
