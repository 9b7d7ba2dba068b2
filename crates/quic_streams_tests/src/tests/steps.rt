//! Tables of steps: calls on one end, with what each has to answer, and what is then to be seen of the end.
use super::entries::{Entry, pending_of, put};
use super::frames::{Answer, answer_of, control, id, pattern, receive};
use super::subject::Subject;
use super::{same, same_at};
use quic_receiving::ReadableError;
use quic_sending::WriteError;
use quic_streams::StreamMetaVec;
use quic_streams::batches::ReadSome;
use quic_streams::progress::LastAnswer;
use quic_streams::streams::ConnState;
use quic_values::{Dir, OutOfMemory, VarInt};
use quic_wire::StreamEvent;
use quic_wire::frame::{ResetStream, StreamMeta};
use std::alloc::Global;
use std::process::Abort;
use std::test::Fail;

/// Why a read gave no more.
#[derive(Clone, Copy)]
pub enum Last {
    /// Nothing is at hand.
    Blocked,
    /// No more was asked for.
    More,
}

/// A call, and what it has to answer, or something that is to be seen.
#[derive(Clone, Copy)]
pub enum Step {
    // The streams and their send sides.
    /// The next unidirectional stream is opened: this one.
    Open(u32),
    /// The peer's next bidirectional stream is accepted: this one.
    Accept(u32),
    /// Bytes are written on a stream, and so many are taken.
    Write(u32, &'static [u8], usize),
    /// Bytes are written on a stream, which is blocked.
    Blocked(u32, &'static [u8]),
    Finish(u32),
    /// A stream is reset, with the code 0.
    Reset(u32),
    /// The connection is closed.
    Close,
    /// This end may hold so many bytes until they are acknowledged.
    SendWindow(u64),

    // The receive sides.
    /// A STREAM frame comes: its stream, its offset, how many bytes it has, and whether it has the end.
    Receive(u32, u64, usize, bool, Answer),
    /// A RESET_STREAM frame comes for stream 3, with a code and a final size, and is taken.
    ReceiveReset(u32, u32),
    /// Stream 3 is stopped with the code 9: whether that is permitted.
    Stop(bool),
    /// Stream 3 is read, in order or not, in chunks of at most so many bytes, so many times. The read gives so many bytes
    /// and no more for this reason. Whether that is to be told.
    Read(bool, usize, u16, usize, Last, bool),
    /// Credit from elsewhere: whether MAX_DATA is to be sent.
    AddCredit(u64, bool),

    // The limits of the peer.
    /// It permits so many streams of each direction, bytes in all, and bytes on each stream.
    Permit(u32, u32, u32),
    MaxData(u32),

    // What becomes of the frames that were sent.
    /// A range of a stream is acknowledged, maybe with its end.
    Ack(u32, u64, u64, bool),
    /// A range of a stream is lost, maybe with its end.
    Lose(u32, u64, u64, bool),
    /// The reset of a stream is acknowledged.
    AckReset(u32),
    /// All data are to be sent again.
    LoseAll,

    // The frames that leave.
    /// An entry is made by hand.
    Put(Entry),
    /// The next payload of STREAM frames has these bytes. Nothing is left to be sent.
    Data(&'static [u8]),
    /// The next payload of control frames, of at most so many bytes, has these.
    Control(usize, &'static [u8]),

    // What is told.
    /// The next event tells that this stream was acknowledged whole, or there is none.
    Told(Option<u32>),
    /// There is no event but that a stream was opened.
    ToldNoMore,
    /// The send side of a stream is held, at the priority 0.
    Held(u32),
    /// So many send sides count.
    SendSides(usize),
    /// So many bytes may be written on all streams.
    Room(u64),
    /// Whether data wait to be sent.
    DataWaits(bool),
    /// DATA_BLOCKED is queued. Whether it would be sent.
    DataBlocked(bool),
    /// Whether MAX_DATA is queued.
    MaxDataWaits(bool),
    /// For how many streams MAX_STREAM_DATA is queued.
    WindowsWait(usize),
    /// MAX_STREAM_DATA is queued for stream 3 alone, with this limit, and MAX_DATA is not.
    Window(u8),
    /// How many bytes of credit were given beyond the window, and how many were received.
    Credit(u64, u64),
    /// The peer may open 128 bidirectional and so many unidirectional streams, and opened so many of these.
    Permits(u64, u64),
    /// Whether nothing counts where these entries are pending.
    NothingOf(&'static [Entry], bool),
}

fn meta(stream: u32, start: u64, end: u64, fin: bool) -> StreamMeta {
    StreamMeta {
        id: id(stream),
        offsets: start..end,
        fin,
    }
}

// The next payload of STREAM frames has these bytes. Nothing is left to be sent.
fn sends(
    rt: &impl Abort,
    alloc: Global,
    subject: &mut Subject,
    at: usize,
    bytes: &[u8],
) -> Result<(), OutOfMemory> {
    let (mut buf, mut sent) = (Vec::new(alloc), StreamMetaVec::new(alloc));
    subject.write_stream_frames(&mut buf, &mut sent, 100, true)?;
    same_at(rt, at, buf.as_slice(), bytes);
    same_at(rt, at, subject.can_send_stream_data(), false);
    Ok(())
}

// Each chunk has the bytes of its place. Answers how many bytes there are.
fn count_bytes(rt: &impl Abort, alloc: Global, read: &ReadSome) -> Result<usize, OutOfMemory> {
    let mut count = 0usize;
    for chunk in &read.chunks {
        let expected = pattern(alloc, chunk.offset, chunk.bytes.len())?;
        same(rt, chunk.bytes.as_slice(), expected.as_slice());
        count = count.saturating_add(chunk.bytes.len());
    }
    Ok(count)
}

fn last_answer(last: Last) -> LastAnswer {
    match last {
        Last::Blocked => LastAnswer::Blocked,
        Last::More => LastAnswer::More,
    }
}

// What a read has to give: so many bytes, each of its place, and no more for this reason. Whether that is to be told.
#[derive(Clone, Copy)]
struct Given {
    count: usize,
    last: Last,
    transmit: bool,
}

fn gave(
    rt: &impl Abort,
    alloc: Global,
    at: usize,
    read: &ReadSome,
    wanted: Given,
) -> Result<(), OutOfMemory> {
    same_at(rt, at, count_bytes(rt, alloc, read)?, wanted.count);
    same_at(rt, at, read.last, last_answer(wanted.last));
    same_at(rt, at, read.transmit.should_transmit(), wanted.transmit);
    Ok(())
}

// How a read asks.
#[derive(Clone, Copy)]
struct Asked {
    ordered: bool,
    most: usize,
    times: u16,
}

fn reads(
    rt: &impl Abort,
    alloc: Global,
    subject: &mut Subject,
    at: usize,
    asked: Asked,
    wanted: Given,
) -> Result<(), OutOfMemory> {
    match subject.read_some(3, asked.ordered, asked.most, asked.times) {
        Ok(read) => gave(rt, alloc, at, &read, wanted),
        Err(ReadableError::OutOfMemory) => Err(OutOfMemory),
        Err(error) => {
            same_at(rt, at, Some(error), None);
            Ok(())
        }
    }
}

fn reset_comes(subject: &mut Subject, code: u32, size: u32) -> Answer {
    answer_of(subject.received_reset(ResetStream {
        id: id(3),
        error_code: VarInt::from(code),
        final_offset: VarInt::from(size),
    }))
}

fn writes_control(
    rt: &impl Abort,
    alloc: Global,
    subject: &mut Subject,
    at: usize,
    most: usize,
    bytes: &[u8],
) {
    let written = control(alloc, subject, most);
    same_at(rt, at, written.bytes.as_slice(), bytes);
}

// That a stream was acknowledged whole.
fn finished(stream: u32) -> StreamEvent {
    StreamEvent::Finished { id: id(stream) }
}

// What the application is told next, but that a stream was opened.
fn next_told(subject: &mut Subject) -> Option<StreamEvent> {
    match subject.poll() {
        Some(StreamEvent::Opened { .. }) => subject.poll(),
        event => event,
    }
}

// For how many streams MAX_STREAM_DATA is queued, whether for stream 3, and whether MAX_DATA is.
fn windows(subject: &Subject) -> (usize, bool, bool) {
    let windows = &subject.pending.max_stream_data;
    let has_it = windows.contains(id(3));
    (windows.len(), has_it, subject.pending.max_data)
}

fn has_one_window(rt: &impl Abort, alloc: Global, subject: &mut Subject, at: usize, limit: u8) {
    same_at(rt, at, windows(subject), (1, true, false));
    writes_control(rt, alloc, subject, at, 1200, &[0x11, 3, limit]);
}

// How many bytes of credit were given beyond the window, and how many were received.
fn credit(subject: &Subject) -> (u64, u64) {
    let given = subject.local_max_data().saturating_sub(subject.window);
    (given, subject.data_recvd())
}

// How many streams of each direction the peer may open, and how many unidirectional ones it opened.
fn permitted(subject: &Subject) -> (u64, u64, u64) {
    (
        subject.max_remote(Dir::Bi),
        subject.max_remote(Dir::Uni),
        subject.next_remote(Dir::Uni),
    )
}

// Whether nothing counts where these entries are pending.
fn is_nothing(alloc: Global, subject: &Subject, entries: &[Entry]) -> Result<bool, OutOfMemory> {
    let pending = pending_of(alloc, entries)?;
    Ok(subject.has_nothing_of(&pending))
}

// Looks at an end, which stays as it is but for the event that is told.
fn see(rt: &impl Abort, subject: &mut Subject, at: usize, step: Step) {
    match step {
        Step::Told(Some(stream)) => same_at(rt, at, subject.poll(), Some(finished(stream))),
        Step::Told(None) => same_at(rt, at, subject.poll(), None),
        Step::ToldNoMore => same_at(rt, at, next_told(subject), None),
        Step::Held(stream) => same_at(rt, at, subject.priority(stream), Some(0)),
        Step::SendSides(count) => same_at(rt, at, subject.send_streams(), count),
        Step::Room(bytes) => same_at(rt, at, subject.write_limit(), bytes),
        Step::DataWaits(waits) => same_at(rt, at, subject.can_send_stream_data(), waits),
        Step::DataBlocked(would_be_sent) => {
            let is = (
                subject.pending.data_blocked,
                subject.can_send_data_blocked(),
            );
            same_at(rt, at, is, (true, would_be_sent));
        }
        Step::MaxDataWaits(waits) => same_at(rt, at, subject.pending.max_data, waits),
        Step::WindowsWait(count) => {
            same_at(rt, at, subject.pending.max_stream_data.len(), count);
        }
        Step::Credit(given, received) => same_at(rt, at, credit(subject), (given, received)),
        Step::Permits(uni, opened) => same_at(rt, at, permitted(subject), (128, uni, opened)),
        _ => {}
    }
}

// Takes a step on the receive sides, or of the frames that leave, that needs no memory or is told of it.
fn call_receiving(rt: &impl Abort, alloc: Global, subject: &mut Subject, at: usize, step: Step) {
    match step {
        Step::ReceiveReset(code, size) => {
            let is = reset_comes(subject, code, size);
            same_at(rt, at, is, Answer::Taken(false));
        }
        Step::Stop(is_permitted) => same_at(rt, at, subject.stop(3, 9).is_ok(), is_permitted),
        Step::AddCredit(bytes, is_due) => {
            let transmit = subject.add_read_credits(bytes);
            same_at(rt, at, transmit.should_transmit(), is_due);
        }
        Step::MaxData(limit) => subject.received_max_data(limit),
        Step::Control(most, bytes) => writes_control(rt, alloc, subject, at, most, bytes),
        Step::Window(limit) => has_one_window(rt, alloc, subject, at, limit),
        other => see(rt, subject, at, other),
    }
}

// Takes a step on the send sides.
fn call(rt: &impl Abort, alloc: Global, subject: &mut Subject, at: usize, step: Step) {
    match step {
        Step::Open(stream) => same_at(rt, at, subject.open(Dir::Uni), Ok(Some(id(stream)))),
        Step::Accept(stream) => same_at(rt, at, subject.accept(Dir::Bi), Some(id(stream))),
        Step::Write(stream, bytes, count) => {
            same_at(rt, at, subject.write(stream, bytes), Ok(count));
        }
        Step::Blocked(stream, bytes) => {
            same_at(
                rt,
                at,
                subject.write(stream, bytes),
                Err(WriteError::Blocked),
            );
        }
        Step::Finish(stream) => same_at(rt, at, subject.finish(stream).is_ok(), true),
        Step::Reset(stream) => same_at(rt, at, subject.reset(stream, 0).is_ok(), true),
        Step::Close => subject.conn = ConnState::Closed,
        Step::SendWindow(bytes) => subject.set_send_window(bytes),
        other => call_receiving(rt, alloc, subject, at, other),
    }
}

// Takes a step that may find no memory, but for those that the test asks for.
fn take(
    rt: &impl Abort,
    alloc: Global,
    subject: &mut Subject,
    at: usize,
    step: Step,
) -> Result<(), OutOfMemory> {
    match step {
        Step::Receive(stream, offset, count, fin, answer) => {
            let is = receive(alloc, subject, stream, offset, count, fin)?;
            same_at(rt, at, is, answer);
            Ok(())
        }
        Step::Read(ordered, most, times, count, last, transmit) => {
            let asked = Asked {
                ordered,
                most,
                times,
            };
            let wanted = Given {
                count,
                last,
                transmit,
            };
            reads(rt, alloc, subject, at, asked, wanted)
        }
        Step::Permit(streams, bytes, each) => subject.permit(streams, bytes, each),
        Step::Put(entry) => put(alloc, &mut subject.pending, entry),
        Step::Data(bytes) => sends(rt, alloc, subject, at, bytes),
        Step::NothingOf(entries, holds) => {
            same_at(rt, at, is_nothing(alloc, subject, entries)?, holds);
            Ok(())
        }
        other => report(rt, alloc, subject, at, other),
    }
}

// Takes a step that tells what became of frames, or another.
fn report(
    rt: &impl Abort,
    alloc: Global,
    subject: &mut Subject,
    at: usize,
    step: Step,
) -> Result<(), OutOfMemory> {
    match step {
        Step::Ack(stream, start, end, fin) => {
            subject.received_ack_of(meta(stream, start, end, fin))
        }
        Step::Lose(stream, start, end, fin) => subject.retransmit(meta(stream, start, end, fin)),
        Step::AckReset(stream) => subject.reset_acked(stream),
        Step::LoseAll => subject.retransmit_all_for_0rtt(),
        other => {
            call(rt, alloc, subject, at, other);
            Ok(())
        }
    }
}

/// Takes steps.
pub fn play(
    rt: &impl Abort,
    alloc: Global,
    subject: &mut Subject,
    steps: &[Step],
) -> Result<(), OutOfMemory> {
    for (at, step) in steps.iter().enumerate() {
        take(rt, alloc, subject, at, *step)?;
    }
    Ok(())
}

/// Takes steps on an end that was made.
pub fn run(
    rt: &impl Abort,
    alloc: Global,
    made: Result<Subject, OutOfMemory>,
    steps: &[Step],
) -> Result<(), Fail> {
    let mut subject = made?;
    play(rt, alloc, &mut subject, steps)?;
    Ok(())
}
