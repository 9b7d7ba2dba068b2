ghost use Rattle.std.specs.Prelude.{◌≡◌, ◌<◌, ◌∷◌, [], IfOk, string_bytes, codes, map};
ghost use Rattle.std.specs.Fmt.{decimal, signed_decimal};
ghost use Rattle.std.specs.List.{join_with_byte};
ghost use Rattle.quic_lines.specs.Field.{hex_form};
ghost use Rattle.quic_lines.specs.Grammar.{end_text, mode_text, fairness_text, part_text, letter_text, spaced, step_text, IsInRange, MeansStep};
ghost use Rattle.quic_lines.specs.Line.{direction_text};

use crate::hexadecimal::hex_field;
use crate::replies::{direction_name, id_number};
use quic_steps::{End, PayloadPart, Step};
use quic_values::ChunkList;
use quic_wire::{Dir, OutOfMemory, StreamId, VarInt};
use std::alloc::Global;

fn end_name(who: End) -> &'static str
    ensures { result.now ≡ end_text who }
{
    match who {
        End::A => "a",
        End::B => "b",
    }
}

fn mode_name(ordered: bool) -> &'static str
    ensures { result.now ≡ mode_text ordered }
{
    if ordered { "o" } else { "u" }
}

fn fairness_name(fair: bool) -> &'static str
    ensures { result.now ≡ fairness_text fair }
{
    if fair { "f" } else { "u" }
}

fn part_name(part: PayloadPart) -> &'static str
    ensures { result.now ≡ part_text part }
{
    match part {
        PayloadPart::Control => "control",
        PayloadPart::Streams => "streams",
    }
}

// What stands before a chunk of this index.
fn comma(index: usize) -> &'static str
    ensures first { index ≡ 0 → result.now ≡ [] }
    ensures other { 0 < index → result.now ≡ codes "," }
{
    if index == 0 { "" } else { "," }
}

// The chunks in hexadecimal, with a comma between each two.
fn chunks_field(alloc: Global, chunks: &ChunkList) -> Result<String, OutOfMemory>
    ensures { IfOk result (λ field. string_bytes field ≡ join_with_byte 44 (map hex_form chunks.now)) }
{
    let mut field = String::new(alloc);
    for index in 0..chunks.len() {
        let Some(chunk) = chunks.get(index) else {
            unreachable!();
        };
        let form = hex_field(alloc, chunk)?;
        field.push_str(comma(index))?;
        field.push_str(form.as_str())?;
    }
    Ok(field)
}

fn of_direction(alloc: Global, verb: &str, who: End, dir: Dir) -> Result<String, OutOfMemory>
    ensures { IfOk result (λ line. string_bytes line ≡ spaced (verb.now ∷ end_text who ∷ direction_text dir ∷ [])) }
{
    let end = end_name(who);
    let direction = direction_name(dir);
    Ok(format!(in alloc; "{verb} {end} {direction}")?)
}

fn of_stream(alloc: Global, verb: &str, who: End, id: StreamId) -> Result<String, OutOfMemory>
    ensures { IfOk result (λ line. string_bytes line ≡ spaced (verb.now ∷ end_text who ∷ decimal id ∷ [])) }
{
    let end = end_name(who);
    let id = id_number(id);
    Ok(format!(in alloc; "{verb} {end} {id}")?)
}

// A verb, the end, the stream and one number more.
fn of_code(
    alloc: Global,
    verb: &str,
    who: End,
    id: StreamId,
    code: VarInt,
) -> Result<String, OutOfMemory>
    ensures { IfOk result (λ line. string_bytes line ≡ spaced (verb.now ∷ end_text who ∷ decimal id ∷ decimal code ∷ [])) }
{
    let end = end_name(who);
    let id = id_number(id);
    let code = code.into_inner();
    Ok(format!(in alloc; "{verb} {end} {id} {code}")?)
}

// A verb, the end, the stream and a field more.
fn of_field(
    alloc: Global,
    verb: &str,
    who: End,
    id: StreamId,
    field: &str,
) -> Result<String, OutOfMemory>
    ensures { IfOk result (λ line. string_bytes line ≡ spaced (verb.now ∷ end_text who ∷ decimal id ∷ field.now ∷ [])) }
{
    let end = end_name(who);
    let id = id_number(id);
    Ok(format!(in alloc; "{verb} {end} {id} {field}")?)
}

// A verb, the end and a number.
fn of_window(alloc: Global, verb: &str, who: End, window: u64) -> Result<String, OutOfMemory>
    ensures { IfOk result (λ line. string_bytes line ≡ spaced (verb.now ∷ end_text who ∷ decimal window ∷ [])) }
{
    let end = end_name(who);
    Ok(format!(in alloc; "{verb} {end} {window}")?)
}

fn write_text(alloc: Global, who: End, id: StreamId, bytes: &[u8]) -> Result<String, OutOfMemory>
    ensures { IfOk result (λ line. string_bytes line ≡ spaced (codes "write" ∷ end_text who ∷ decimal id ∷ hex_form bytes.now ∷ [])) }
{
    let field = hex_field(alloc, bytes)?;
    of_field(alloc, "write", who, id, field.as_str())
}

fn chunks_text(
    alloc: Global,
    who: End,
    id: StreamId,
    chunks: &ChunkList,
) -> Result<String, OutOfMemory>
    ensures { IfOk result (λ line. string_bytes line ≡ spaced (codes "chunks" ∷ end_text who ∷ decimal id ∷ join_with_byte 44 (map hex_form chunks.now) ∷ [])) }
{
    let field = chunks_field(alloc, chunks)?;
    of_field(alloc, "chunks", who, id, field.as_str())
}

fn priority_text(
    alloc: Global,
    who: End,
    id: StreamId,
    priority: i32,
) -> Result<String, OutOfMemory>
    ensures { IfOk result (λ line. string_bytes line ≡ spaced (codes "priority" ∷ end_text who ∷ decimal id ∷ signed_decimal priority ∷ [])) }
{
    let end = end_name(who);
    let id = id_number(id);
    Ok(format!(in alloc; "priority {end} {id} {priority}")?)
}

fn read_text(
    alloc: Global,
    who: End,
    id: StreamId,
    ordered: bool,
    max: usize,
    times: u16,
) -> Result<String, OutOfMemory>
    ensures { IfOk result (λ line. string_bytes line ≡ spaced (codes "read" ∷ end_text who ∷ decimal id ∷ mode_text ordered ∷ decimal max ∷ decimal times ∷ [])) }
{
    let end = end_name(who);
    let id = id_number(id);
    let mode = mode_name(ordered);
    Ok(format!(in alloc; "read {end} {id} {mode} {max} {times}")?)
}

fn count_text(alloc: Global, who: End, dir: Dir, count: VarInt) -> Result<String, OutOfMemory>
    ensures { IfOk result (λ line. string_bytes line ≡ spaced (codes "max-concurrent" ∷ end_text who ∷ direction_text dir ∷ decimal count ∷ [])) }
{
    let end = end_name(who);
    let direction = direction_name(dir);
    let count = count.into_inner();
    Ok(format!(in alloc; "max-concurrent {end} {direction} {count}")?)
}

fn emit_text(alloc: Global, who: End, max_size: usize, fair: bool) -> Result<String, OutOfMemory>
    ensures { IfOk result (λ line. string_bytes line ≡ spaced (codes "emit" ∷ end_text who ∷ decimal max_size ∷ fairness_text fair ∷ [])) }
{
    let end = end_name(who);
    let fairness = fairness_name(fair);
    Ok(format!(in alloc; "emit {end} {max_size} {fairness}")?)
}

fn emit_part_text(
    alloc: Global,
    who: End,
    max_size: usize,
    fair: bool,
    part: PayloadPart,
) -> Result<String, OutOfMemory>
    ensures { IfOk result (λ line. string_bytes line ≡ spaced (codes "emit-part" ∷ end_text who ∷ decimal max_size ∷ fairness_text fair ∷ part_text part ∷ [])) }
{
    let end = end_name(who);
    let fairness = fairness_name(fair);
    let part = part_name(part);
    Ok(format!(in alloc; "emit-part {end} {max_size} {fairness} {part}")?)
}

/// The line that spells a step. If a step is read from it again, that is the same step.
pub fn step_line(alloc: Global, step: &Step) -> Result<String, OutOfMemory>
    ensures text { IfOk result (λ line. string_bytes line ≡ step_text step.now) }
    ensures means { IfOk result (λ line. IsInRange step.now → MeansStep (string_bytes line) step.now) }
    ensures again { IfOk result (λ line. (again : Step) → IsInRange step.now → IsInRange again → MeansStep (string_bytes line) again → again ≡ step.now) }
{
    text_of(alloc, step)
}

fn text_of(alloc: Global, step: &Step) -> Result<String, OutOfMemory>
    ensures { IfOk result (λ line. string_bytes line ≡ step_text step.now) }
{
    match step {
        Step::Open { who, dir } => of_direction(alloc, "open", *who, *dir),
        Step::Accept { who, dir } => of_direction(alloc, "accept", *who, *dir),
        Step::Write { who, id, bytes } => write_text(alloc, *who, *id, bytes.as_slice()),
        Step::WriteChunks { who, id, chunks } => chunks_text(alloc, *who, *id, chunks),
        Step::Finish { who, id } => of_stream(alloc, "finish", *who, *id),
        Step::Reset { who, id, code } => of_code(alloc, "reset", *who, *id, *code),
        Step::Stop { who, id, code } => of_code(alloc, "stop", *who, *id, *code),
        Step::SetPriority { who, id, priority } => priority_text(alloc, *who, *id, *priority),
        Step::Read {
            who,
            id,
            ordered,
            max,
            times,
        } => read_text(alloc, *who, *id, *ordered, *max, *times),
        Step::ReceivedReset { who, id } => of_stream(alloc, "received-reset", *who, *id),
        Step::SetSendWindow { who, window } => of_window(alloc, "send-window", *who, *window),
        Step::SetReceiveWindow { who, window } => {
            of_window(alloc, "receive-window", *who, window.into_inner())
        }
        Step::SetMaxConcurrent { who, dir, count } => count_text(alloc, *who, *dir, *count),
        Step::Poll { who } => Ok(format!(in alloc; "poll {}", end_name(*who))?),
        Step::Emit {
            who,
            max_size,
            fair,
        } => emit_text(alloc, *who, *max_size, *fair),
        Step::EmitPart {
            who,
            max_size,
            fair,
            part,
        } => emit_part_text(alloc, *who, *max_size, *fair, *part),
        Step::Deliver { payload, frame } => Ok(format!(in alloc; "deliver {payload} {frame}")?),
        Step::Lose { payload } => Ok(format!(in alloc; "lose {payload}")?),
        Step::Ack { payload } => Ok(format!(in alloc; "ack {payload}")?),
        Step::EarlyAccept => Ok(String::from_str(alloc, "early-accept")?),
        Step::EarlyReject => Ok(String::from_str(alloc, "early-reject")?),
        Step::Retry => Ok(String::from_str(alloc, "retry")?),
    }
}
