// Reports of single ranges, pending frames that no call queues, and calls that the library for C does not hand on.
use super::entries::Entry;
use super::frames::{Payload, WINDOW, client, control, end};
use super::steps::{Step, play, run};
use super::subject::Subject;
use super::{TAKEN, is_true, same};
use quic_sending::WriteError;
use quic_streams::Retransmits;
use quic_streams::stats::FrameStats;
use quic_values::{Bytes, OutOfMemory, Side};
use std::alloc::Global;
use std::process::Abort;
use std::rt::HostRuntime;
use std::test::Fail;

// Reports of an end that waits to be sent, of more than there is, and of a stream that no end opened. Then the end of
// stream 2 is acknowledged once, and not by a frame without it.
const TOO_EARLY: [Step; 19] = [
    Step::Open(2),
    Step::Open(6),
    Step::AckReset(2),
    Step::Held(2),
    Step::Ack(6, 0, 0, false),
    Step::Held(6),
    Step::Finish(2),
    Step::Ack(2, 0, 9, true),
    Step::Ack(1001, 0, 0, true),
    Step::Lose(2, 0, 0, true),
    Step::Lose(2, 0, 9, true),
    Step::Lose(1001, 0, 0, true),
    Step::Data(b"\x0b\x02\x00"),
    Step::Ack(2, 0, 0, false),
    Step::Told(None),
    Step::Ack(2, 0, 0, true),
    Step::Told(Some(2)),
    Step::Ack(2, 0, 0, true),
    Step::Told(None),
];

#[test]
fn reports_of_what_was_not_sent_count_for_nothing(rt: HostRuntime) -> Result<(), Fail> {
    let alloc = rt.alloc();
    run(
        &rt,
        alloc,
        end(alloc, Side::Client, 2, 100, 100),
        &TOO_EARLY,
    )
}

// The send half of stream 1 is gone when it is accepted.
const NOT_ACCEPTED: [Step; 8] = [
    Step::Open(2),
    Step::Receive(1, 0, 1, true, TAKEN),
    Step::Finish(1),
    Step::SendSides(1),
    Step::Ack(1, 0, 0, true),
    Step::SendSides(1),
    Step::Accept(1),
    Step::SendSides(1),
];

#[test]
fn streams_that_were_not_accepted_do_not_count(rt: HostRuntime) -> Result<(), Fail> {
    let alloc = rt.alloc();
    run(
        &rt,
        alloc,
        end(alloc, Side::Client, 1, 100, 100),
        &NOT_ACCEPTED,
    )
}

const NOT_GIVEN: [Step; 3] = [Step::Write(1, b"t", 1), Step::Close, Step::Blocked(6, b"t")];

#[test]
fn a_stream_that_was_not_given_is_written_too(rt: HostRuntime) -> Result<(), Fail> {
    let alloc = rt.alloc();
    run(&rt, alloc, end(alloc, Side::Client, 3, 42, 42), &NOT_GIVEN)
}

// A write of all that the connection permits, one that is blocked, and a greater limit.
const FOUR_PERMITTED: [Step; 6] = [
    Step::Open(2),
    Step::Write(2, b"thir", 4),
    Step::Blocked(2, b"t"),
    Step::DataBlocked(true),
    Step::MaxData(9),
    Step::DataBlocked(false),
];

const TWO_PERMITTED: [Step; 6] = [
    Step::Open(2),
    Step::Write(2, b"th", 2),
    Step::Blocked(2, b"t"),
    Step::DataBlocked(true),
    Step::MaxData(3),
    Step::DataBlocked(false),
];

#[test]
fn a_limit_that_rises_leaves_data_blocked_where_it_is(rt: HostRuntime) -> Result<(), Fail> {
    let alloc = rt.alloc();
    run(
        &rt,
        alloc,
        end(alloc, Side::Client, 1, 4, 10),
        &FOUR_PERMITTED,
    )?;
    run(
        &rt,
        alloc,
        end(alloc, Side::Client, 1, 2, 10),
        &TWO_PERMITTED,
    )
}

// One entry of each kind that is counted, two stops, and what is of no use: the reset of a stream that is not open, a limit
// of a stream that is not open, and a blocked stream that no limit blocks.
const ONE_OF_EACH: [Step; 10] = [
    Step::Permit(1, 2, 10),
    Step::Open(2),
    Step::Put(Entry::Reset(2)),
    Step::Put(Entry::Reset(6)),
    Step::Put(Entry::Stop(3)),
    Step::Put(Entry::Stop(7)),
    Step::Put(Entry::Window(3)),
    Step::Put(Entry::Window(11)),
    Step::Put(Entry::MaxStreams(true, true)),
    Step::Put(Entry::StreamBlocked(2)),
];

const EACH: [u8; 17] = [4, 2, 9, 0, 5, 7, 9, 5, 3, 9, 0x11, 3, 8, 0x12, 1, 0x13, 1];

fn are_counted(rt: &impl Abort, stats: &FrameStats) {
    same(rt, (stats.reset_stream, stats.stop_sending), (1, 2));
    same(rt, stats.max_stream_data, 1);
    same(rt, (stats.max_streams_bidi, stats.max_streams_uni), (1, 1));
}

fn none_is_left(rt: &impl Abort, pending: &Retransmits) {
    is_true(rt, pending.max_stream_data.is_empty());
    is_true(rt, pending.stream_data_blocked.is_empty());
}

// A payload of one of each.
fn is_each(rt: &impl Abort, written: &Payload) {
    same(rt, written.bytes.as_slice(), EACH.as_slice());
    are_counted(rt, &written.stats);
}

#[test]
fn the_useless_is_dropped_and_the_others_are_counted(rt: HostRuntime) -> Result<(), Fail> {
    let alloc = rt.alloc();
    let mut subject = client(alloc, 1, 8, 8)?;
    play(&rt, alloc, &mut subject, &ONE_OF_EACH)?;
    is_each(&rt, &control(alloc, &mut subject, 1200));
    none_is_left(&rt, &subject.pending);
    Ok(())
}

// Whether chunks have these lengths.
fn have_lengths(chunks: &[Bytes], lengths: [usize; 3]) -> bool {
    chunks.iter().map(|chunk| chunk.len()).eq(lengths)
}

// An empty chunk, `ab` and `cdef`.
fn chunks_of(alloc: Global) -> Result<Vec<Bytes>, OutOfMemory> {
    let mut chunks = Vec::with_capacity(alloc, 3)?;
    for text in [b"".as_slice(), b"ab".as_slice(), b"cdef".as_slice()] {
        chunks.push(Bytes::copy_from_slice(alloc, text)?)?;
    }
    Ok(chunks)
}

// Memory ran out, and nothing was taken.
fn none_was_taken(rt: &impl Abort, subject: &Subject, chunks: &[Bytes]) {
    same(rt, subject.write_limit(), 10);
    is_true(rt, !subject.can_send_stream_data());
    is_true(rt, have_lengths(chunks, [0, 2, 4]));
}

// Writes chunks where four bytes are permitted, once more where memory ran out. Answers whether the first two were taken
// and half of the third.
fn writes_half(rt: &impl Abort, subject: &mut Subject, chunks: &mut [Bytes]) -> bool {
    let mut written = subject.write_chunks(2, chunks);
    if written == Err(WriteError::OutOfMemory) {
        none_was_taken(rt, subject, chunks);
        written = subject.write_chunks(2, chunks);
    }
    matches!(written, Ok(w) if w.bytes == 4 && w.chunks == 2)
}

fn write_chunks(rt: &impl Abort, alloc: Global, subject: &mut Subject) -> Result<(), OutOfMemory> {
    let mut chunks = chunks_of(alloc)?;
    is_true(rt, writes_half(rt, subject, &mut chunks));
    is_true(rt, have_lengths(&chunks, [0, 0, 2]));
    Ok(())
}

#[test]
fn refused_chunks_are_written_whole_or_cut(rt: HostRuntime) -> Result<(), Fail> {
    let alloc = rt.alloc();
    let mut subject = end(alloc, Side::Client, 1, 10, 4)?;
    play(&rt, alloc, &mut subject, &[Step::Open(2)])?;
    write_chunks(&rt, alloc, &mut subject)?;
    play(&rt, alloc, &mut subject, &[Step::Data(b"\x0a\x02\x04abcd")])?;
    Ok(())
}

const STARS: &[u8] = &[42; 24];

const STARS_FRAME: &[u8] = b"\x0a\x03\x18************************";

// A server that may hold 24 bytes, and sent them in one write. Seven of them are acknowledged first.
const HELD: [Step; 12] = [
    Step::SendWindow(24),
    Step::Open(3),
    Step::Write(3, STARS, 24),
    Step::Data(STARS_FRAME),
    Step::Ack(3, 16, 23, false),
    Step::Room(0),
    Step::Ack(3, 0, 16, false),
    Step::Room(0),
    Step::Ack(3, 23, 24, false),
    Step::Room(24),
    Step::Write(3, &[7; 24], 24),
    Step::Room(0),
];

#[test]
fn a_write_is_held_until_all_of_it_is_acknowledged(rt: HostRuntime) -> Result<(), Fail> {
    let alloc = rt.alloc();
    run(&rt, alloc, end(alloc, Side::Server, 1, 1000, 1000), &HELD)
}

// The same server, with a reset.
const GIVEN_BACK: [Step; 12] = [
    Step::SendWindow(24),
    Step::Open(3),
    Step::Write(3, STARS, 24),
    Step::Data(STARS_FRAME),
    Step::Ack(3, 16, 23, false),
    Step::Reset(3),
    Step::Room(24),
    Step::Lose(3, 0, 16, false),
    Step::Ack(3, 0, 16, false),
    Step::DataWaits(false),
    Step::Room(24),
    Step::Control(26, &[4, 3, 0, 24]),
];

#[test]
fn a_reset_gives_back_what_was_held(rt: HostRuntime) -> Result<(), Fail> {
    let alloc = rt.alloc();
    run(
        &rt,
        alloc,
        end(alloc, Side::Server, 1, 1000, 1000),
        &GIVEN_BACK,
    )
}

const SENT_AGAIN: [Step; 7] = [
    Step::Open(2),
    Step::Write(2, b"cde", 3),
    Step::Finish(2),
    Step::Data(b"\x0b\x02\x03cde"),
    Step::Lose(2, 1, 3, true),
    Step::LoseAll,
    Step::Data(b"\x0b\x02\x03cde"),
];

#[test]
fn a_part_that_was_lost_is_sent_again_with_all(rt: HostRuntime) -> Result<(), Fail> {
    let alloc = rt.alloc();
    run(
        &rt,
        alloc,
        end(alloc, Side::Client, 1, WINDOW, WINDOW),
        &SENT_AGAIN,
    )
}
