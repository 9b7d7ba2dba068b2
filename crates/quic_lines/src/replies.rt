ghost use Rattle.std.specs.Prelude.{◌≡◌, IfOk, string_bytes};
ghost use Rattle.quic_lines.specs.Line.{reason_name, refusal_text, direction_text, code_name, fault_text, event_text, read_text, reply_text, stopped_text, wrote_text, payload_text, whole_text};

use crate::hexadecimal::hex_field;
use quic_assembler::Chunk;
use quic_steps::{Last, PairError, Reply};
use quic_wire::{Dir, OutOfMemory, ReceiveError, StreamEvent, StreamId, TransportError, VarInt};
use std::alloc::Global;

pub(crate) fn direction_name(dir: Dir) -> &'static str
    ensures { result.now ≡ direction_text dir }
{
    match dir {
        Dir::Bi => "bi",
        Dir::Uni => "uni",
    }
}

fn transport_error_name(error: &TransportError) -> &'static str
    ensures { result.now ≡ code_name error.now.code }
{
    match error.code {
        1 => "INTERNAL_ERROR",
        3 => "FLOW_CONTROL_ERROR",
        4 => "STREAM_LIMIT_ERROR",
        5 => "STREAM_STATE_ERROR",
        6 => "FINAL_SIZE_ERROR",
        7 => "FRAME_ENCODING_ERROR",
        9 => "CONNECTION_ID_LIMIT_ERROR",
        10 => "PROTOCOL_VIOLATION",
        _ => "NO_ERROR",
    }
}

fn fault_name(fault: &ReceiveError) -> &'static str
    ensures { result.now ≡ fault_text fault.now }
{
    match fault {
        ReceiveError::Transport(error) => transport_error_name(error),
        ReceiveError::OutOfMemory => "OutOfMemory",
        ReceiveError::CompactionMemory => "CompactionMemory",
    }
}

fn refusal_name(error: PairError) -> &'static str
    ensures { result.now ≡ reason_name error }
{
    match error {
        PairError::NoSuchPayload => "NoSuchPayload",
        PairError::NoSuchFrame => "NoSuchFrame",
        PairError::NotAccepted => "NotAccepted",
        PairError::UnknownId => "UnknownId",
        PairError::OutOfMemory => "OutOfMemory",
        PairError::AlreadySettled => "AlreadySettled",
        PairError::LimitsBelow => "LimitsBelow",
        PairError::Undecided => "Undecided",
        PairError::Decided => "Decided",
    }
}

// The number of a stream.
pub(crate) fn id_number(id: StreamId) -> u64
    ensures { result ≡ id }
{
    VarInt::from(id).into_inner()
}

fn stopped_line(alloc: Global, id: u64, code: u64) -> Result<String, OutOfMemory>
    ensures { IfOk result (λ line. string_bytes line ≡ stopped_text id code) }
{
    Ok(format!(in alloc; "stopped {id} {code}")?)
}

fn event_line(alloc: Global, event: &StreamEvent) -> Result<String, OutOfMemory>
    ensures { IfOk result (λ line. string_bytes line ≡ event_text event.now) }
{
    match event {
        StreamEvent::Opened { dir } => Ok(format!(in alloc; "opened {}", direction_name(*dir))?),
        StreamEvent::Readable { id } => Ok(format!(in alloc; "readable {}", id_number(*id))?),
        StreamEvent::Writable { id } => Ok(format!(in alloc; "writable {}", id_number(*id))?),
        StreamEvent::Finished { id } => Ok(format!(in alloc; "finished {}", id_number(*id))?),
        StreamEvent::Stopped { id, error_code } => {
            stopped_line(alloc, id_number(*id), error_code.into_inner())
        }
        StreamEvent::Available { dir } => Ok(format!(in alloc;
            "available {}",
            direction_name(*dir)
        )?),
    }
}

fn read_line(
    alloc: Global,
    chunks: &[Chunk],
    last: Last,
    transmit: bool,
) -> Result<String, OutOfMemory>
    ensures { IfOk result (λ line. string_bytes line ≡ read_text chunks.now last transmit) }
{
    let mut line = String::new(alloc);
    for chunk in chunks {
        let offset = chunk.offset;
        let field = hex_field(alloc, chunk.bytes.as_slice())?;
        write!(line, "{offset}:{field} ")?;
    }
    match last {
        Last::Blocked => line.push_str("blocked")?,
        Last::Ended => line.push_str("end")?,
        Last::Reset(code) => write!(line, "reset {}", code.into_inner())?,
        Last::Memory => line.push_str("memory")?,
        Last::More => line.push_str("more")?,
    }
    line.push_str(if transmit { " transmit" } else { " quiet" })?;
    Ok(line)
}

fn wrote_line(alloc: Global, bytes: usize, chunks: usize) -> Result<String, OutOfMemory>
    ensures { IfOk result (λ line. string_bytes line ≡ wrote_text bytes chunks) }
{
    Ok(format!(in alloc; "wrote {bytes} chunks {chunks}")?)
}

fn payload_line(alloc: Global, number: usize, bytes: &[u8]) -> Result<String, OutOfMemory>
    ensures { IfOk result (λ line. string_bytes line ≡ payload_text number bytes.now) }
{
    let field = hex_field(alloc, bytes)?;
    Ok(format!(in alloc; "payload {number} {field}")?)
}

/// The line that answers a step that was not refused.
pub fn reply_line(alloc: Global, reply: &Reply) -> Result<String, OutOfMemory>
    ensures { IfOk result (λ line. string_bytes line ≡ reply_text reply.now) }
{
    match reply {
        Reply::Done => Ok(String::from_str(alloc, "ok")?),
        Reply::DoneTransmit => Ok(String::from_str(alloc, "ok transmit")?),
        Reply::Fault(fault) => Ok(format!(in alloc; "error {}", fault_name(fault))?),
        Reply::Id(id) => Ok(format!(in alloc; "id {}", id_number(*id))?),
        Reply::Nothing => Ok(String::from_str(alloc, "none")?),
        Reply::Wrote(count) => Ok(format!(in alloc; "wrote {count}")?),
        Reply::WroteChunks(written) => wrote_line(alloc, written.bytes, written.chunks),
        Reply::Blocked => Ok(String::from_str(alloc, "blocked")?),
        Reply::Stopped(code) => Ok(format!(in alloc; "stopped {}", code.into_inner())?),
        Reply::Closed => Ok(String::from_str(alloc, "closed")?),
        Reply::Illegal => Ok(String::from_str(alloc, "illegal")?),
        Reply::Read {
            chunks,
            last,
            transmit,
        } => read_line(alloc, chunks.as_slice(), *last, *transmit),
        Reply::Code(code) => Ok(format!(in alloc; "code {}", code.into_inner())?),
        Reply::Expanded(true) => Ok(String::from_str(alloc, "expanded")?),
        Reply::Expanded(false) => Ok(String::from_str(alloc, "not expanded")?),
        Reply::Event(event) => event_line(alloc, event),
        Reply::Payload { number, bytes } => payload_line(alloc, *number, bytes.as_slice()),
    }
}

/// The line that answers a step that was refused.
pub fn refusal_line(alloc: Global, error: PairError) -> Result<String, OutOfMemory>
    ensures { IfOk result (λ line. string_bytes line ≡ refusal_text error) }
{
    let number = error.number();
    let name = refusal_name(error);
    Ok(format!(in alloc; "refused {number} {name}")?)
}

/// The line that answers a payload which was handed in whole: how many of its frames were accepted, and the fault of the next one if
/// it was rejected or memory for it ran out.
pub fn whole_line(
    alloc: Global,
    accepted: usize,
    fault: Option<ReceiveError>,
) -> Result<String, OutOfMemory>
    ensures { IfOk result (λ line. string_bytes line ≡ whole_text accepted fault) }
{
    match fault {
        None => Ok(format!(in alloc; "accepted {accepted}")?),
        Some(fault) => {
            let name = fault_name(&fault);
            Ok(format!(in alloc; "accepted {accepted} {name}")?)
        }
    }
}
