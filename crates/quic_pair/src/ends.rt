//! Two sessions and the payloads between them, and what each step does to them.

ghost use Rattle.std.specs.Prelude.{◌≡◌, ◌≤◌, [], length, None, Err, true, IfOk, IfErr, is_some, option_copied, ◌&&◌, false};
ghost use Rattle.quic_endpoint.specs.Receiving.{data_length};
ghost use Rattle.quic_link.specs.Endpoints.{limits_of};
ghost use Rattle.quic_retransmits.specs.Pending.{pending_view};
ghost use Rattle.quic_session.specs.Params.{are_stream_limits};
ghost use Rattle.quic_session.specs.Receiving.{ReceivesFrame, ReceivesOnly};
ghost use Rattle.quic_exchange.specs.From.{made_of, end_begun};
ghost use Rattle.quic_exchange.specs.Gone.{with_all_noted};
ghost use Rattle.quic_exchange.specs.Notes.{under};
ghost use Rattle.quic_exchange.specs.State.{peer};
ghost use Rattle.quic_exchange.specs.Steps.{NextTaken, Delivers, Accepted, Rejected, Retried, needs_decision};
ghost use Rattle.quic_pair.specs.Calls.{caller_of};
ghost use Rattle.quic_pair.specs.Emitting.{EmitsKept, EmittedOf};
ghost use Rattle.quic_pair.specs.Ends.{ends_view, kept_of, session_of, OnSession, IsBegun, AreConsistent, AreStreamLimits, AreHonestFrames, AreHonestOnce};
ghost use Rattle.quic_pair.specs.Reporting.{ReportsToken, TakesReport, ReportsPayload, rest_at};

use crate::calls::{call_on, caller_of};
use crate::emitting::{Written, emit};
use quic_datagrams::DatagramLimits;
use quic_exchange::early::{EarlyLimits, join_noted, leave_all};
use quic_exchange::places::{begin, frame_at, is_no_payload, mark_if, may_report};
use quic_exchange::replies::{payload_reply, received_reply};
use quic_exchange::sent::Note;
use quic_exchange::unsettled::Report;
use quic_receiving::ShouldTransmit;
use quic_session::Session;
use quic_session::params::ParamsError;
use quic_session::session::Config as SessionConfig;
use quic_session::settling::SettleError;
use quic_steps::{Config, End, PairError, PayloadPart, Reply, Step};
use quic_streams::{PeerLimits, Retransmits, SentPayload};
use quic_values::{OutOfMemory, Side};
use quic_wire::{Frame, ReceiveError};
use std::alloc::Global;

/// Two sessions, and the payloads between them. A is the client, B the server.
#[derive(Drop)]
pub(crate) struct Ends {
    pub(crate) a: Session,
    pub(crate) b: Session,
    pub(crate) sent: Vec<Note>,
    // While it is not decided whether the server takes what the client sends early.
    pub(crate) waits: Option<EarlyLimits>,
    pub(crate) alloc: Global,
}

/// What the transport parameters of an endpoint say.
pub(crate) fn limits_of(side: Side, config: &Config) -> PeerLimits
    ensures { result ≡ limits_of (made_of side config.now) }
{
    PeerLimits {
        initial_max_data: config.receive_window,
        initial_max_streams_bidi: config.max_remote_bi,
        initial_max_streams_uni: config.max_remote_uni,
        initial_max_stream_data_uni: config.stream_receive_window,
        initial_max_stream_data_bidi_local: config.stream_receive_window,
        initial_max_stream_data_bidi_remote: config.stream_receive_window,
    }
}

// A session that was given limits. It sends no datagrams.
fn session_with(
    alloc: Global,
    side: Side,
    own: &Config,
    limits: &PeerLimits,
) -> Result<Session, OutOfMemory>
    requires { are_stream_limits limits.now ≡ true }
    ensures { IfOk result (IsBegun (made_of side own.now) limits.now) }
{
    let mut session = Session::new(
        alloc,
        &SessionConfig {
            side,
            max_remote_uni: own.max_remote_uni,
            max_remote_bi: own.max_remote_bi,
            send_window: own.send_window,
            receive_window: own.receive_window,
            stream_window: own.stream_receive_window,
            datagrams: DatagramLimits {
                receive: None,
                send: 0,
                max: None,
            },
        },
    )?;
    match session.set_params(limits) {
        Ok(()) => Ok(session),
        Err(ParamsError::OutOfMemory) => Err(OutOfMemory),
        Err(ParamsError::Transport(_)) => unreachable!(),
    }
}

// One of two sessions writes a payload.
fn emit_on(
    a: &mut Session,
    b: &mut Session,
    alloc: Global,
    who: End,
    max_size: usize,
    fair: bool,
    part: Option<PayloadPart>,
) -> Result<Written, OutOfMemory>
    ensures { OnSession (λ s t. EmitsKept max_size fair part s result t) who a.old b.old a.new b.new }
{
    match who {
        End::A => emit(a, alloc, max_size, fair, part),
        End::B => emit(b, alloc, max_size, fair, part),
    }
}

// A frame that one of two endpoints wrote is handed to the other.
fn receive_on(
    a: &mut Session,
    b: &mut Session,
    writer: End,
    frame: Frame,
    len: usize,
) -> Result<ShouldTransmit, ReceiveError>
    requires { data_length frame ≤ len }
    ensures { OnSession (λ s t. ReceivesFrame s frame len result t × ReceivesOnly s t) (peer writer) a.old b.old a.new b.new }
{
    match writer {
        End::A => b.receive_frame(frame, len),
        End::B => a.receive_frame(frame, len),
    }
}

// A payload is reported to the session that wrote it.
fn report_to(end: &mut Session, token: u64, kind: Report) -> Result<(), SettleError>
    ensures { ReportsToken kind end.old token result end.new }
{
    match kind {
        Report::Lost => end.lost(token),
        Report::Acknowledged => end.acked(token),
    }
}

// A payload is reported to one of two sessions.
fn report_on(
    a: &mut Session,
    b: &mut Session,
    writer: End,
    token: u64,
    kind: Report,
) -> Result<(), SettleError>
    ensures { OnSession (λ s t. ReportsToken kind s token result t) writer a.old b.old a.new b.new }
{
    match writer {
        End::A => report_to(a, token, kind),
        End::B => report_to(b, token, kind),
    }
}

impl Ends {
    /// Two endpoints that have sent nothing: the client is given limits, and the server those of the client.
    pub(crate) fn new(
        alloc: Global,
        a: &Config,
        b: &Config,
        first: &PeerLimits,
        waits: Option<EarlyLimits>,
    ) -> Result<Self, OutOfMemory>
        requires first { are_stream_limits first.now ≡ true }
        requires limits { AreStreamLimits waits }
        ensures view { IfOk result (λ ends. ends_view ends ≡ record { a = end_begun (made_of Side.Client a.now) first.now; b = end_begun (made_of Side.Server b.now) (limits_of (made_of Side.Client a.now)); sent = []; waits = waits }) }
        ensures sound { IfOk result (λ ends. AreConsistent ends) }
    {
        Ok(Ends {
            a: session_with(alloc, Side::Client, a, first)?,
            b: session_with(alloc, Side::Server, b, &limits_of(Side::Client, a))?,
            sent: Vec::new(alloc),
            waits,
            alloc,
        })
    }

    /// The session of an endpoint.
    pub(crate) fn session(&self, who: End) -> &Session
        ensures { result.now ≡ session_of self.now.a self.now.b who }
    {
        match who {
            End::A => &self.a,
            End::B => &self.b,
        }
    }

    /// How many payloads were sent.
    pub(crate) fn count(&self) -> usize
        ensures { result ≡ length (ends_view self.now).sent }
    {
        self.sent.len()
    }

    /// What is unreported of the payload of a number.
    pub(crate) fn rest(&self, number: usize) -> Option<&SentPayload>
        ensures { option_copied result ≡ rest_at (ends_view self.now).sent number }
    {
        match self.sent.get(number) {
            Some(note) => self.rest_of(note),
            None => None,
        }
    }

    // What is unreported of this payload.
    fn rest_of(&self, note: &Note) -> Option<&SentPayload>
        ensures { option_copied result ≡ under (kept_of self.now.a self.now.b note.now.writer) note.now.token }
    {
        match note.token {
            Some(token) => self.session(note.writer).payload(token),
            None => None,
        }
    }

    /// Takes one step, by its kind.
    pub(crate) fn dispatch(&mut self, step: Step) -> Result<Reply, PairError>
        requires sound { AreConsistent self.old }
        requires decided { (is_some self.old.waits && needs_decision step) ≡ false }
        requires honest { AreHonestOnce (ends_view self.old) }
        ensures next { NextTaken (ends_view self.old) step result (ends_view self.new) }
        ensures sound { AreConsistent self.new }
    {
        match caller_of(&step) {
            Some(who) => call_on(&mut self.a, &mut self.b, self.alloc, who, step),
            None => self.dispatch_payloads(step),
        }
    }

    // One step on payloads, or one that decides on early data.
    fn dispatch_payloads(&mut self, step: Step) -> Result<Reply, PairError>
        requires alone { caller_of step ≡ None }
        requires sound { AreConsistent self.old }
        requires decided { (is_some self.old.waits && needs_decision step) ≡ false }
        requires honest { AreHonestOnce (ends_view self.old) }
        ensures next { NextTaken (ends_view self.old) step result (ends_view self.new) }
        ensures sound { AreConsistent self.new }
    {
        match step {
            Step::Emit {
                who,
                max_size,
                fair,
            } => self.emit(who, max_size, fair, None),
            Step::EmitPart {
                who,
                max_size,
                fair,
                part,
            } => self.emit(who, max_size, fair, Some(part)),
            Step::Deliver { payload, frame } => self.deliver(payload, frame),
            Step::Lose { payload } => self.report(payload, Report::Lost),
            Step::Ack { payload } => self.report(payload, Report::Acknowledged),
            Step::EarlyAccept => self.early_accept(),
            Step::EarlyReject => self.early_reject(),
            Step::Retry => self.retry(),
            Step::Open { .. }
            | Step::Accept { .. }
            | Step::Write { .. }
            | Step::WriteChunks { .. }
            | Step::Finish { .. }
            | Step::Reset { .. }
            | Step::Stop { .. }
            | Step::SetPriority { .. }
            | Step::Read { .. }
            | Step::ReceivedReset { .. }
            | Step::SetSendWindow { .. }
            | Step::SetReceiveWindow { .. }
            | Step::SetMaxConcurrent { .. }
            | Step::Poll { .. } => unreachable!(),
        }
    }

    // A payload of control frames and data, or of one of these.
    fn emit(
        &mut self,
        who: End,
        max_size: usize,
        fair: bool,
        part: Option<PayloadPart>,
    ) -> Result<Reply, PairError>
        requires { AreConsistent self.old }
        ensures next { EmittedOf (ends_view self.old) who max_size fair part result (ends_view self.new) }
        ensures sound { AreConsistent self.new }
    {
        if self.sent.reserve(1).is_err() {
            return Err(PairError::OutOfMemory);
        }
        let number = self.sent.len();
        let alloc = self.alloc;
        let written = match emit_on(&mut self.a, &mut self.b, alloc, who, max_size, fair, part) {
            Ok(written) => written,
            Err(_) => return Err(PairError::OutOfMemory),
        };
        let copy = Vec::from_slice(self.alloc, written.bytes.as_slice());
        let note = Note::new(self.alloc, who, written.token, written.bytes);
        match self.sent.push(note) {
            Ok(()) => {}
            Err(_) => unreachable!(),
        }
        payload_reply(number, written.answer, copy)
    }

    fn deliver(&mut self, payload: usize, index: usize) -> Result<Reply, PairError>
        requires sound { AreConsistent self.old }
        requires honest { AreHonestFrames (ends_view self.old) }
        ensures next { Delivers (ends_view self.old) payload index result (ends_view self.new) }
        ensures sound { AreConsistent self.new }
    {
        let handed = match frame_at(&mut self.sent, self.alloc, payload, index) {
            Ok(found) => found,
            Err(error) => return Err(error),
        };
        let answer = receive_on(
            &mut self.a,
            &mut self.b,
            handed.writer,
            handed.frame,
            handed.len,
        );
        mark_if(&mut self.sent, &answer, payload, index, handed.marks);
        received_reply(answer)
    }

    // The writer and the token of a payload that takes a report of a kind.
    fn reported(&self, payload: usize, kind: Report) -> Result<(End, u64), PairError>
        ensures taken { IfOk result (λ r. TakesReport self.now.a self.now.b self.now.sent.items payload kind r.0 r.1) }
        ensures refused { IfErr result (λ error. ReportsPayload kind (ends_view self.now) payload (Err error) (ends_view self.now)) }
    {
        if is_no_payload(&self.sent, payload) {
            return Err(PairError::NoSuchPayload);
        }
        let note = &self.sent[payload];
        let Some(token) = note.token else {
            return Err(PairError::AlreadySettled);
        };
        match may_report(note, kind, self.rest_of(note).is_some()) {
            Ok(()) => Ok((note.writer, token)),
            Err(error) => Err(error),
        }
    }

    // A payload is reported lost or acknowledged.
    fn report(&mut self, payload: usize, kind: Report) -> Result<Reply, PairError>
        requires { AreConsistent self.old }
        ensures next { ReportsPayload kind (ends_view self.old) payload result (ends_view self.new) }
        ensures sound { AreConsistent self.new }
    {
        let (writer, token) = match self.reported(payload, kind) {
            Ok(taken) => taken,
            Err(error) => return Err(error),
        };
        match report_on(&mut self.a, &mut self.b, writer, token, kind) {
            Ok(()) => Ok(Reply::Done),
            Err(SettleError::UnknownToken) => Err(PairError::AlreadySettled),
            Err(SettleError::OutOfMemory) => {
                begin(&mut self.sent, payload, kind);
                Err(PairError::OutOfMemory)
            }
        }
    }

    // The server accepts what the client sent early.
    fn early_accept(&mut self) -> Result<Reply, PairError>
        requires { AreConsistent self.old }
        ensures next { Accepted (ends_view self.old) result (ends_view self.new) }
        ensures sound { AreConsistent self.new }
    {
        let Some(limits) = self.waits else {
            return Err(PairError::Decided);
        };
        if !limits.are_within() {
            return Err(PairError::LimitsBelow);
        }
        match self.a.set_params(&limits.others) {
            Ok(()) => {}
            Err(ParamsError::OutOfMemory) => return Err(PairError::OutOfMemory),
            Err(ParamsError::Transport(_)) => unreachable!(),
        }
        self.waits = None;
        Ok(Reply::Done)
    }

    // The server rejects it.
    fn early_reject(&mut self) -> Result<Reply, PairError>
        requires { AreConsistent self.old }
        ensures next { Rejected (ends_view self.old) result (ends_view self.new) }
        ensures sound { AreConsistent self.new }
    {
        let Some(limits) = self.waits else {
            return Err(PairError::Decided);
        };
        self.a.zero_rtt_rejected();
        match self.a.set_params(&limits.others) {
            Ok(()) => {}
            Err(_) => unreachable!(),
        }
        leave_all(self.alloc, &mut self.sent);
        self.waits = None;
        Ok(Reply::Done)
    }

    // The server asks the client to begin again.
    fn retry(&mut self) -> Result<Reply, PairError>
        requires { AreConsistent self.old }
        ensures next { Retried (ends_view self.old) result (ends_view self.new) }
        ensures sound { AreConsistent self.new }
    {
        let Some(_) = self.waits else {
            return Err(PairError::Decided);
        };
        let pending = match self.with_all_noted() {
            Ok(pending) => pending,
            Err(_) => return Err(PairError::OutOfMemory),
        };
        if self.a.send_again(pending).is_err() {
            return Err(PairError::OutOfMemory);
        }
        leave_all(self.alloc, &mut self.sent);
        Ok(Reply::Done)
    }

    // The client's pending control frames, with those noted of each payload of which something is unreported.
    fn with_all_noted(&self) -> Result<Retransmits, OutOfMemory>
        ensures { IfOk result (λ all. pending_view all ≡ with_all_noted (ends_view self.now).a.pending (ends_view self.now).sent) }
    {
        let mut all = self.a.pending().clone()?;
        for number in 0..self.count() {
            join_noted(&mut all, self.rest(number))?;
        }
        Ok(all)
    }
}
