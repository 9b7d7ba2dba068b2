ghost use Rattle.std.specs.Prelude.{◌≡◌, ◌∷◌, ◌↔◌, IsTrue, IfOk, IfErr, IfSome, IfNone, map, codes};
ghost use Rattle.std.specs.Str.{IsAscii};
ghost use Rattle.quic_lines.specs.Arguments.{verb_text, SpellsNoArguments};
ghost use Rattle.quic_lines.specs.Grammar.{step_fields, SpellsNoStep, MeansStep, MeansNoStep, MeansSettle, MeansWhole, MeansNoWhole};

use crate::lines::{
    LineError, bytes, chunks, count, direction, end, fields_of, is_first, number, payload_part,
    priority, size, stream_id, times, var_int,
};
use quic_steps::Step;
use std::alloc::Global;

/// What a step does, as its first field says.
#[derive(Clone, Copy, Debug)]
pub(crate) enum Verb {
    Open,
    Accept,
    Write,
    WriteChunks,
    Finish,
    Reset,
    Stop,
    SetPriority,
    Read,
    ReceivedReset,
    SetSendWindow,
    SetReceiveWindow,
    SetMaxConcurrent,
    Poll,
    Emit,
    EmitPart,
    Deliver,
    Lose,
    Ack,
    EarlyAccept,
    EarlyReject,
    Retry,
}

// The verb that the first field of a step is.
fn read_verb(field: &str) -> Result<Verb, LineError>
    ensures text { IfOk result (λ verb. field.now ≡ verb_text verb) }
    ensures none { IfErr result (λ error. (verb : Verb) → field.now ≡ verb_text verb → ⊥) }
{
    match field {
        "open" => Ok(Verb::Open),
        "accept" => Ok(Verb::Accept),
        "write" => Ok(Verb::Write),
        "chunks" => Ok(Verb::WriteChunks),
        "finish" => Ok(Verb::Finish),
        "reset" => Ok(Verb::Reset),
        "stop" => Ok(Verb::Stop),
        "priority" => Ok(Verb::SetPriority),
        "read" => Ok(Verb::Read),
        "received-reset" => Ok(Verb::ReceivedReset),
        "send-window" => Ok(Verb::SetSendWindow),
        "receive-window" => Ok(Verb::SetReceiveWindow),
        "max-concurrent" => Ok(Verb::SetMaxConcurrent),
        "poll" => Ok(Verb::Poll),
        "emit" => Ok(Verb::Emit),
        "emit-part" => Ok(Verb::EmitPart),
        "deliver" => Ok(Verb::Deliver),
        "lose" => Ok(Verb::Lose),
        "ack" => Ok(Verb::Ack),
        "early-accept" => Ok(Verb::EarlyAccept),
        "early-reject" => Ok(Verb::EarlyReject),
        "retry" => Ok(Verb::Retry),
        _ => Err(LineError::Malformed),
    }
}

fn open(arguments: &[&str]) -> Result<Step, LineError>
    ensures text { IfOk result (λ step. codes "open" ∷ map (λ field. field.now) arguments.now ≡ step_fields step) }
    ensures none { IfErr result (λ error. SpellsNoArguments Verb.Open (map (λ field. field.now) arguments.now)) }
{
    match arguments {
        [who, dir] => Ok(Step::Open {
            who: end(who)?,
            dir: direction(dir)?,
        }),
        _ => Err(LineError::Malformed),
    }
}

fn accept(arguments: &[&str]) -> Result<Step, LineError>
    ensures text { IfOk result (λ step. codes "accept" ∷ map (λ field. field.now) arguments.now ≡ step_fields step) }
    ensures none { IfErr result (λ error. SpellsNoArguments Verb.Accept (map (λ field. field.now) arguments.now)) }
{
    match arguments {
        [who, dir] => Ok(Step::Accept {
            who: end(who)?,
            dir: direction(dir)?,
        }),
        _ => Err(LineError::Malformed),
    }
}

fn write(alloc: Global, arguments: &[&str]) -> Result<Step, LineError>
    ensures text { IfOk result (λ step. codes "write" ∷ map (λ field. field.now) arguments.now ≡ step_fields step) }
    ensures none { IfErr result (λ error. error ≡ LineError.Malformed → SpellsNoArguments Verb.Write (map (λ field. field.now) arguments.now)) }
{
    match arguments {
        [who, id, bytes_field] => Ok(Step::Write {
            who: end(who)?,
            id: stream_id(id)?,
            bytes: bytes(alloc, bytes_field)?,
        }),
        _ => Err(LineError::Malformed),
    }
}

fn write_chunks(alloc: Global, arguments: &[&str]) -> Result<Step, LineError>
    ensures text { IfOk result (λ step. codes "chunks" ∷ map (λ field. field.now) arguments.now ≡ step_fields step) }
    ensures none { IfErr result (λ error. error ≡ LineError.Malformed → SpellsNoArguments Verb.WriteChunks (map (λ field. field.now) arguments.now)) }
{
    match arguments {
        [who, id, chunks_field] => Ok(Step::WriteChunks {
            who: end(who)?,
            id: stream_id(id)?,
            chunks: chunks(alloc, chunks_field)?,
        }),
        _ => Err(LineError::Malformed),
    }
}

fn finish(arguments: &[&str]) -> Result<Step, LineError>
    ensures text { IfOk result (λ step. codes "finish" ∷ map (λ field. field.now) arguments.now ≡ step_fields step) }
    ensures none { IfErr result (λ error. SpellsNoArguments Verb.Finish (map (λ field. field.now) arguments.now)) }
{
    match arguments {
        [who, id] => Ok(Step::Finish {
            who: end(who)?,
            id: stream_id(id)?,
        }),
        _ => Err(LineError::Malformed),
    }
}

fn reset(arguments: &[&str]) -> Result<Step, LineError>
    ensures text { IfOk result (λ step. codes "reset" ∷ map (λ field. field.now) arguments.now ≡ step_fields step) }
    ensures none { IfErr result (λ error. SpellsNoArguments Verb.Reset (map (λ field. field.now) arguments.now)) }
{
    match arguments {
        [who, id, code] => Ok(Step::Reset {
            who: end(who)?,
            id: stream_id(id)?,
            code: var_int(code)?,
        }),
        _ => Err(LineError::Malformed),
    }
}

fn stop(arguments: &[&str]) -> Result<Step, LineError>
    ensures text { IfOk result (λ step. codes "stop" ∷ map (λ field. field.now) arguments.now ≡ step_fields step) }
    ensures none { IfErr result (λ error. SpellsNoArguments Verb.Stop (map (λ field. field.now) arguments.now)) }
{
    match arguments {
        [who, id, code] => Ok(Step::Stop {
            who: end(who)?,
            id: stream_id(id)?,
            code: var_int(code)?,
        }),
        _ => Err(LineError::Malformed),
    }
}

fn set_priority(arguments: &[&str]) -> Result<Step, LineError>
    ensures text { IfOk result (λ step. codes "priority" ∷ map (λ field. field.now) arguments.now ≡ step_fields step) }
    ensures none { IfErr result (λ error. SpellsNoArguments Verb.SetPriority (map (λ field. field.now) arguments.now)) }
{
    match arguments {
        [who, id, level] => Ok(Step::SetPriority {
            who: end(who)?,
            id: stream_id(id)?,
            priority: priority(level)?,
        }),
        _ => Err(LineError::Malformed),
    }
}

fn read(arguments: &[&str]) -> Result<Step, LineError>
    ensures text { IfOk result (λ step. codes "read" ∷ map (λ field. field.now) arguments.now ≡ step_fields step) }
    ensures none { IfErr result (λ error. SpellsNoArguments Verb.Read (map (λ field. field.now) arguments.now)) }
{
    match arguments {
        [who, id, mode, max, turns] => Ok(Step::Read {
            who: end(who)?,
            id: stream_id(id)?,
            ordered: is_first(mode, "o", "u")?,
            max: size(max)?,
            times: times(turns)?,
        }),
        _ => Err(LineError::Malformed),
    }
}

fn received_reset(arguments: &[&str]) -> Result<Step, LineError>
    ensures text { IfOk result (λ step. codes "received-reset" ∷ map (λ field. field.now) arguments.now ≡ step_fields step) }
    ensures none { IfErr result (λ error. SpellsNoArguments Verb.ReceivedReset (map (λ field. field.now) arguments.now)) }
{
    match arguments {
        [who, id] => Ok(Step::ReceivedReset {
            who: end(who)?,
            id: stream_id(id)?,
        }),
        _ => Err(LineError::Malformed),
    }
}

fn set_send_window(arguments: &[&str]) -> Result<Step, LineError>
    ensures text { IfOk result (λ step. codes "send-window" ∷ map (λ field. field.now) arguments.now ≡ step_fields step) }
    ensures none { IfErr result (λ error. SpellsNoArguments Verb.SetSendWindow (map (λ field. field.now) arguments.now)) }
{
    match arguments {
        [who, window] => Ok(Step::SetSendWindow {
            who: end(who)?,
            window: number(window)?,
        }),
        _ => Err(LineError::Malformed),
    }
}

fn set_receive_window(arguments: &[&str]) -> Result<Step, LineError>
    ensures text { IfOk result (λ step. codes "receive-window" ∷ map (λ field. field.now) arguments.now ≡ step_fields step) }
    ensures none { IfErr result (λ error. SpellsNoArguments Verb.SetReceiveWindow (map (λ field. field.now) arguments.now)) }
{
    match arguments {
        [who, window] => Ok(Step::SetReceiveWindow {
            who: end(who)?,
            window: var_int(window)?,
        }),
        _ => Err(LineError::Malformed),
    }
}

fn set_max_concurrent(arguments: &[&str]) -> Result<Step, LineError>
    ensures text { IfOk result (λ step. codes "max-concurrent" ∷ map (λ field. field.now) arguments.now ≡ step_fields step) }
    ensures none { IfErr result (λ error. SpellsNoArguments Verb.SetMaxConcurrent (map (λ field. field.now) arguments.now)) }
{
    match arguments {
        [who, dir, limit] => Ok(Step::SetMaxConcurrent {
            who: end(who)?,
            dir: direction(dir)?,
            count: count(limit)?,
        }),
        _ => Err(LineError::Malformed),
    }
}

fn poll(arguments: &[&str]) -> Result<Step, LineError>
    ensures text { IfOk result (λ step. codes "poll" ∷ map (λ field. field.now) arguments.now ≡ step_fields step) }
    ensures none { IfErr result (λ error. SpellsNoArguments Verb.Poll (map (λ field. field.now) arguments.now)) }
{
    match arguments {
        [who] => Ok(Step::Poll { who: end(who)? }),
        _ => Err(LineError::Malformed),
    }
}

fn emit(arguments: &[&str]) -> Result<Step, LineError>
    ensures text { IfOk result (λ step. codes "emit" ∷ map (λ field. field.now) arguments.now ≡ step_fields step) }
    ensures none { IfErr result (λ error. SpellsNoArguments Verb.Emit (map (λ field. field.now) arguments.now)) }
{
    match arguments {
        [who, max_size, fairness] => Ok(Step::Emit {
            who: end(who)?,
            max_size: size(max_size)?,
            fair: is_first(fairness, "f", "u")?,
        }),
        _ => Err(LineError::Malformed),
    }
}

fn emit_part(arguments: &[&str]) -> Result<Step, LineError>
    ensures text { IfOk result (λ step. codes "emit-part" ∷ map (λ field. field.now) arguments.now ≡ step_fields step) }
    ensures none { IfErr result (λ error. SpellsNoArguments Verb.EmitPart (map (λ field. field.now) arguments.now)) }
{
    match arguments {
        [who, max_size, fairness, part] => Ok(Step::EmitPart {
            who: end(who)?,
            max_size: size(max_size)?,
            fair: is_first(fairness, "f", "u")?,
            part: payload_part(part)?,
        }),
        _ => Err(LineError::Malformed),
    }
}

fn deliver(arguments: &[&str]) -> Result<Step, LineError>
    ensures text { IfOk result (λ step. codes "deliver" ∷ map (λ field. field.now) arguments.now ≡ step_fields step) }
    ensures none { IfErr result (λ error. SpellsNoArguments Verb.Deliver (map (λ field. field.now) arguments.now)) }
{
    match arguments {
        [payload, frame] => Ok(Step::Deliver {
            payload: size(payload)?,
            frame: size(frame)?,
        }),
        _ => Err(LineError::Malformed),
    }
}

fn lose(arguments: &[&str]) -> Result<Step, LineError>
    ensures text { IfOk result (λ step. codes "lose" ∷ map (λ field. field.now) arguments.now ≡ step_fields step) }
    ensures none { IfErr result (λ error. SpellsNoArguments Verb.Lose (map (λ field. field.now) arguments.now)) }
{
    match arguments {
        [payload] => Ok(Step::Lose {
            payload: size(payload)?,
        }),
        _ => Err(LineError::Malformed),
    }
}

fn ack(arguments: &[&str]) -> Result<Step, LineError>
    ensures text { IfOk result (λ step. codes "ack" ∷ map (λ field. field.now) arguments.now ≡ step_fields step) }
    ensures none { IfErr result (λ error. SpellsNoArguments Verb.Ack (map (λ field. field.now) arguments.now)) }
{
    match arguments {
        [payload] => Ok(Step::Ack {
            payload: size(payload)?,
        }),
        _ => Err(LineError::Malformed),
    }
}

fn early_accept(arguments: &[&str]) -> Result<Step, LineError>
    ensures text { IfOk result (λ step. codes "early-accept" ∷ map (λ field. field.now) arguments.now ≡ step_fields step) }
    ensures none { IfErr result (λ error. SpellsNoArguments Verb.EarlyAccept (map (λ field. field.now) arguments.now)) }
{
    match arguments {
        [] => Ok(Step::EarlyAccept),
        _ => Err(LineError::Malformed),
    }
}

fn early_reject(arguments: &[&str]) -> Result<Step, LineError>
    ensures text { IfOk result (λ step. codes "early-reject" ∷ map (λ field. field.now) arguments.now ≡ step_fields step) }
    ensures none { IfErr result (λ error. SpellsNoArguments Verb.EarlyReject (map (λ field. field.now) arguments.now)) }
{
    match arguments {
        [] => Ok(Step::EarlyReject),
        _ => Err(LineError::Malformed),
    }
}

fn retry(arguments: &[&str]) -> Result<Step, LineError>
    ensures text { IfOk result (λ step. codes "retry" ∷ map (λ field. field.now) arguments.now ≡ step_fields step) }
    ensures none { IfErr result (λ error. SpellsNoArguments Verb.Retry (map (λ field. field.now) arguments.now)) }
{
    match arguments {
        [] => Ok(Step::Retry),
        _ => Err(LineError::Malformed),
    }
}

// The step of this verb and these arguments.
fn step_of(alloc: Global, verb: Verb, arguments: &[&str]) -> Result<Step, LineError>
    ensures text { IfOk result (λ step. verb_text verb ∷ map (λ field. field.now) arguments.now ≡ step_fields step) }
    ensures none { IfErr result (λ error. error ≡ LineError.Malformed → SpellsNoArguments verb (map (λ field. field.now) arguments.now)) }
{
    match verb {
        Verb::Open => open(arguments),
        Verb::Accept => accept(arguments),
        Verb::Write => write(alloc, arguments),
        Verb::WriteChunks => write_chunks(alloc, arguments),
        Verb::Finish => finish(arguments),
        Verb::Reset => reset(arguments),
        Verb::Stop => stop(arguments),
        Verb::SetPriority => set_priority(arguments),
        Verb::Read => read(arguments),
        Verb::ReceivedReset => received_reset(arguments),
        Verb::SetSendWindow => set_send_window(arguments),
        Verb::SetReceiveWindow => set_receive_window(arguments),
        Verb::SetMaxConcurrent => set_max_concurrent(arguments),
        Verb::Poll => poll(arguments),
        Verb::Emit => emit(arguments),
        Verb::EmitPart => emit_part(arguments),
        Verb::Deliver => deliver(arguments),
        Verb::Lose => lose(arguments),
        Verb::Ack => ack(arguments),
        Verb::EarlyAccept => early_accept(arguments),
        Verb::EarlyReject => early_reject(arguments),
        Verb::Retry => retry(arguments),
    }
}

// The step of these fields.
fn step_of_fields(alloc: Global, fields: &[&str]) -> Result<Step, LineError>
    ensures text { IfOk result (λ step. map (λ field. field.now) fields.now ≡ step_fields step) }
    ensures none { IfErr result (λ error. error ≡ LineError.Malformed → SpellsNoStep (map (λ field. field.now) fields.now)) }
{
    match fields {
        [first, arguments @ ..] => step_of(alloc, read_verb(first)?, arguments),
        _ => Err(LineError::Malformed),
    }
}

/// Any later line: a step.
pub fn parse_step(alloc: Global, line: &[u8]) -> Result<Step, LineError>
    ensures ascii { IfOk result (λ step. IsAscii line.now) }
    ensures means { IfOk result (MeansStep line.now) }
    ensures none { IfErr result (λ error. error ≡ LineError.Malformed → MeansNoStep line.now) }
{
    let fields = fields_of(alloc, line)?;
    step_of_fields(alloc, fields.as_slice())
}

/// Whether a line asks for a settling.
pub fn is_settle(line: &[u8]) -> bool
    ensures means { IsTrue result ↔ MeansSettle line.now }
    ensures ascii { IsTrue result → IsAscii line.now }
{
    line == b"settle".as_slice()
}

/// The number of the payload that a line hands in whole, if the line asks for that.
pub fn parse_whole(line: &[u8]) -> Option<usize>
    ensures means { IfSome result (MeansWhole line.now) }
    ensures ascii { IfSome result (λ payload. IsAscii line.now) }
    ensures none { IfNone result (MeansNoWhole line.now) }
{
    let Some(field) = line.strip_prefix(b"deliver-all ".as_slice()) else {
        return None;
    };
    let Ok(text) = str::from_utf8(field) else {
        return None;
    };
    size(text).ok()
}
