//! The steps with which all that was begun is completed, in their order.

ghost use Rattle.std.specs.Prelude.{◌≡◌, ◌-◌, ◌^◌, true};
ghost use Rattle.quic_values.specs.Ids.{stream_id};
ghost use Rattle.quic_exchange.specs.Settling.{step_at, going_of, going_reading, going_sending, phase_after, is_nothing_more, phase_after_report, behind_reports, after_accept, after_accepting, after_streams, after_stream, after_reading, after_polling, after_emits, after_frame};

use quic_steps::{End, Last, PairError, Reply, Step};
use quic_values::{Dir, MAX_STREAM_COUNT, Side, StreamId};
use quic_wire::ReceiveError;

/// Which step is next. A payload is quiet where it has nothing for a reader, and a round of two payloads where both are.
#[derive(Clone, Copy)]
pub enum Phase {
    /// An acknowledgement of a payload that is not settled, and whether the last round was quiet.
    Report(usize, bool),
    /// Its loss, where that was refused.
    ReportLost(usize, bool),
    Accept(End, Dir),
    /// A read of a stream by an end, in order or as bytes come.
    Read(End, StreamId, bool),
    Poll(End),
    EmitOfA,
    /// With the number of the payload of A, whether that has no frame, and whether it is quiet.
    EmitOfB(usize, bool, bool),
    /// A payload and a frame; the payload whose frames are next, if there is one; and whether the round is quiet.
    Deliver(usize, usize, Option<usize>, bool),
    /// The loss of a payload without a frame, where neither end had something to send.
    Drop(usize),
}

/// What a reply says of its step.
#[derive(Clone, Copy)]
pub enum Going {
    /// There may be more of the kind.
    On,
    /// There is no more of it: no stream, no frame, no event, or nothing that was written; or the step was refused.
    Over,
    /// There is no more on this stream.
    StreamOver,
    /// The stream was read as bytes come.
    Unordered,
}

/// What a reply says; nothing where memory ran out.
pub fn going_of(answer: &Result<Reply, PairError>) -> Option<Going>
    ensures { result ≡ going_of answer.now }
{
    match answer {
        Err(PairError::OutOfMemory) => None,
        Err(_) => Some(Going::Over),
        Ok(Reply::Fault(ReceiveError::CompactionMemory)) => None,
        Ok(Reply::Read { last, .. }) => going_reading(*last),
        Ok(Reply::Closed) => Some(Going::StreamOver),
        Ok(Reply::Illegal) => Some(Going::Unordered),
        Ok(Reply::Nothing) => Some(Going::Over),
        Ok(Reply::Payload { bytes, .. }) => Some(going_sending(bytes.as_slice())),
        Ok(_) => Some(Going::On),
    }
}

// The same of how a read ended.
fn going_reading(last: Last) -> Option<Going>
    ensures { result ≡ going_reading last }
{
    match last {
        Last::Memory => None,
        Last::More => Some(Going::On),
        _ => Some(Going::StreamOver),
    }
}

// The same of a payload with these bytes.
fn going_sending(bytes: &[u8]) -> Going
    ensures { result ≡ going_sending bytes.now }
{
    match bytes {
        [] => Going::Over,
        _ => Going::On,
    }
}

impl Going {
    fn is_over(self) -> bool
        ensures { result ≡ is_nothing_more self }
    {
        matches!(self, Going::Over)
    }
}

fn after_report(payload: usize, quiet: bool, going: Going) -> Phase
    ensures { result ≡ phase_after_report payload quiet going }
{
    match going {
        Going::On => Phase::Report(payload, quiet),
        _ => Phase::ReportLost(payload, quiet),
    }
}

/// What is next behind the last report. Behind a quiet round nothing is accepted or read.
pub fn behind_reports(quiet: bool) -> Phase
    ensures { result ≡ behind_reports quiet }
{
    if quiet {
        return Phase::Poll(End::A);
    }
    Phase::Accept(End::A, Dir::Bi)
}

fn after_accept(who: End, dir: Dir, going: Going) -> Phase
    ensures { result ≡ after_accept who dir going }
{
    match going {
        Going::On => Phase::Accept(who, dir),
        _ => after_accepting(who, dir),
    }
}

// What is next behind the last stream of a direction to accept.
fn after_accepting(who: End, dir: Dir) -> Phase
    ensures { result ≡ after_accepting who dir }
{
    match (who, dir) {
        (End::A, Dir::Bi) => Phase::Accept(End::A, Dir::Uni),
        (End::A, Dir::Uni) => Phase::Accept(End::B, Dir::Bi),
        (End::B, Dir::Bi) => Phase::Accept(End::B, Dir::Uni),
        (End::B, Dir::Uni) => first_read(End::A, Side::Client, Dir::Bi),
    }
}

// A read of the first stream of an opener and a direction.
fn first_read(who: End, opener: Side, dir: Dir) -> Phase
    ensures { result ≡ Phase.Read who (stream_id opener dir 0) true }
{
    Phase::Read(who, StreamId::new(opener, dir, 0), true)
}

// What is next behind the last stream of its opener and direction.
fn after_streams(who: End, opener: Side, dir: Dir) -> Phase
    ensures { result ≡ after_streams who opener dir }
{
    match (who, opener, dir) {
        (End::A, Side::Client, _) => first_read(End::A, Side::Server, Dir::Bi),
        (End::A, Side::Server, Dir::Bi) => first_read(End::A, Side::Server, Dir::Uni),
        (End::A, Side::Server, Dir::Uni) => first_read(End::B, Side::Client, Dir::Bi),
        (End::B, Side::Client, Dir::Bi) => first_read(End::B, Side::Server, Dir::Bi),
        (End::B, Side::Client, Dir::Uni) => Phase::Poll(End::A),
        (End::B, Side::Server, _) => first_read(End::B, Side::Client, Dir::Uni),
    }
}

fn after_stream(who: End, id: StreamId) -> Phase
    ensures { result ≡ after_stream who id }
{
    let index = id.index() + 1;
    if index < MAX_STREAM_COUNT {
        return Phase::Read(who, StreamId::new(id.initiator(), id.dir(), index), true);
    }
    after_streams(who, id.initiator(), id.dir())
}

fn after_reading(who: End, id: StreamId, ordered: bool, going: Going) -> Phase
    ensures { result ≡ after_reading who id ordered going }
{
    match going {
        Going::On => Phase::Read(who, id, ordered),
        Going::Unordered => Phase::Read(who, id, false),
        Going::StreamOver => after_stream(who, id),
        Going::Over => after_streams(who, id.initiator(), id.dir()),
    }
}

fn after_polling(who: End, going: Going) -> Phase
    ensures { result ≡ after_polling who going }
{
    match (who, going) {
        (_, Going::On) => Phase::Poll(who),
        (End::A, _) => Phase::Poll(End::B),
        (End::B, _) => Phase::EmitOfA,
    }
}

// Behind the payloads of both: neither has a frame, or those of the first are delivered.
fn after_emits(first: usize, empty: bool, going: Going, second: usize, quiet: bool) -> Phase
    ensures { result ≡ after_emits first empty going second quiet }
{
    match (empty, going) {
        (true, Going::Over) => Phase::Drop(first),
        _ => Phase::Deliver(first, 0, Some(second), quiet),
    }
}

fn after_frame(
    payload: usize,
    frame: usize,
    next: Option<usize>,
    quiet: bool,
    going: Going,
) -> Phase
    ensures { result ≡ after_frame payload frame next quiet going }
{
    match (next, going) {
        (Some(other), Going::Over) => Phase::Deliver(other, 0, None, quiet),
        (None, Going::Over) => Phase::Report(0, quiet),
        _ => Phase::Deliver(payload, frame.saturating_add(1), next, quiet),
    }
}

fn accept_step(who: End, dir: Dir) -> Step
    ensures { result ≡ Step.Accept who dir }
{
    Step::Accept { who, dir }
}

// A read of as many chunks as may be asked for, each as long as may be.
fn read_step(who: End, id: StreamId, ordered: bool) -> Step
    ensures { result ≡ Step.Read who id ordered (2 ^ 64 - 1) 65535 }
{
    Step::Read {
        who,
        id,
        ordered,
        max: usize::MAX,
        times: u16::MAX,
    }
}

// A payload with room for all that is to be sent.
fn emit_step(who: End) -> Step
    ensures { result ≡ Step.Emit who (2 ^ 64 - 1) true }
{
    Step::Emit {
        who,
        max_size: usize::MAX,
        fair: true,
    }
}

fn deliver_step(payload: usize, frame: usize) -> Step
    ensures { result ≡ Step.Deliver payload frame }
{
    Step::Deliver { payload, frame }
}

impl Phase {
    pub fn step(&self) -> Step
        ensures { result ≡ step_at self.now }
    {
        match self {
            Phase::Report(payload, _) => Step::Ack { payload: *payload },
            Phase::ReportLost(payload, _) => Step::Lose { payload: *payload },
            Phase::Accept(who, dir) => accept_step(*who, *dir),
            Phase::Read(who, id, ordered) => read_step(*who, *id, *ordered),
            Phase::Poll(who) => Step::Poll { who: *who },
            Phase::EmitOfA => emit_step(End::A),
            Phase::EmitOfB(_, _, _) => emit_step(End::B),
            Phase::Deliver(payload, frame, _, _) => deliver_step(*payload, *frame),
            Phase::Drop(payload) => Step::Lose { payload: *payload },
        }
    }

    /// What is next behind a step before which so many payloads were sent, and whether the next of them is quiet, where the
    /// step sent it.
    pub fn after(self, going: Going, sent: usize, last_quiet: bool) -> Phase
        ensures { result ≡ phase_after self going sent last_quiet }
    {
        match self {
            Phase::Report(payload, quiet) => after_report(payload, quiet, going),
            Phase::ReportLost(payload, quiet) => Phase::Report(payload, quiet),
            Phase::Accept(who, dir) => after_accept(who, dir, going),
            Phase::Read(who, id, ordered) => after_reading(who, id, ordered, going),
            Phase::Poll(who) => after_polling(who, going),
            Phase::EmitOfA => Phase::EmitOfB(sent, going.is_over(), last_quiet),
            Phase::EmitOfB(first, empty, quiet) => {
                after_emits(first, empty, going, sent, quiet && last_quiet)
            }
            Phase::Deliver(payload, frame, next, quiet) => {
                after_frame(payload, frame, next, quiet, going)
            }
            Phase::Drop(payload) => Phase::Drop(payload),
        }
    }
}
