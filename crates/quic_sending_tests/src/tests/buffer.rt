// Worked examples, as lists of steps.
use super::{Step, run, same};
use quic_sending::send_buffer::cut_to_frame;
use std::process::Abort;
use std::test::Fail;

const FRAGMENTS_WITH_LENGTH: [Step; 4] = [
    Step::Write(b"Hello, world!"),
    Step::Poll(19, 0, 11, true),
    Step::Poll(18, 11, 13, true),
    Step::Poll(58, 13, 13, true),
];

#[test]
fn fragment_with_length(rt: HostRuntime) -> Result<(), Fail> {
    run(&rt, rt.alloc(), &FRAGMENTS_WITH_LENGTH)?;
    Ok(())
}

const FRAGMENTS_WITHOUT_LENGTH: [Step; 4] = [
    Step::Write(b"Hello, world with some extra data!"),
    Step::Poll(19, 0, 19, false),
    Step::Poll(16, 19, 34, false),
    Step::Poll(58, 34, 34, true),
];

#[test]
fn fragment_without_length(rt: HostRuntime) -> Result<(), Fail> {
    run(&rt, rt.alloc(), &FRAGMENTS_WITHOUT_LENGTH)?;
    Ok(())
}

const ZEROS: &[u8] = &[0; 16384];

// The size of the start offset is taken off: 0, 1, 2 and 4 bytes.
const START_OFFSETS: [Step; 14] = [
    Step::Write(ZEROS),
    Step::Write(ZEROS),
    Step::Poll(16, 0, 16, false),
    Step::Lose(0, 16),
    Step::Poll(16, 0, 16, false),
    Step::Poll(49, 16, 64, false),
    Step::Lose(16, 64),
    Step::Poll(49, 16, 64, false),
    Step::Poll(16322, 64, 16384, false),
    Step::Lose(64, 16384),
    Step::Poll(16322, 64, 16384, false),
    Step::Poll(1028, 16384, 17408, false),
    Step::Lose(16384, 17408),
    Step::Poll(1028, 16384, 17408, false),
];

// 4 bytes from 16,384 on, and 8 from 2^30 on, of a gigabyte of data and a mebibyte, which is not kept here.
fn reserves_great_offset(rt: &impl Abort) {
    same(
        rt,
        cut_to_frame(16_384, 1_074_790_400, 1_073_725_444),
        (1 << 30, false),
    );
    same(
        rt,
        cut_to_frame(1 << 30, 1_074_790_400, 1_048_584),
        (1_074_790_400, false),
    );
}

#[test]
fn reserves_encoded_offset(rt: HostRuntime) -> Result<(), Fail> {
    reserves_great_offset(&rt);
    run(&rt, rt.alloc(), &START_OFFSETS)?;
    Ok(())
}

const ACKED_BEHIND_A_GAP: [Step; 7] = [
    Step::NoneAcked(true),
    Step::Write(b"Hello, world!"),
    Step::Poll(58, 0, 13, true),
    Step::Ack(3, 3),
    Step::NoneAcked(true),
    Step::Ack(3, 4),
    Step::NoneAcked(false),
];

#[test]
fn something_is_acknowledged_behind_a_gap(rt: HostRuntime) -> Result<(), Fail> {
    run(&rt, rt.alloc(), &ACKED_BEHIND_A_GAP)?;
    Ok(())
}

const SEGMENTS: [Step; 27] = [
    Step::Write(b"He"),
    Step::Write(b"llo,"),
    Step::Write(b" w"),
    Step::Write(b"o"),
    Step::Write(b"rld!"),
    Step::Unacked(b"Hello, world!"),
    Step::Poll(16, 0, 8, true),
    Step::Get(0, 5, b"He"),
    Step::Get(2, 8, b"llo,"),
    Step::Get(6, 8, b" w"),
    Step::Poll(16, 8, 13, true),
    Step::Get(8, 13, b"o"),
    Step::Get(9, 13, b"rld!"),
    Step::Poll(42, 13, 13, true),
    Step::Ack(0, 1),
    Step::Unacked(b"ello, world!"),
    Step::Ack(0, 3),
    Step::Unacked(b"lo, world!"),
    Step::Ack(3, 5),
    Step::Unacked(b", world!"),
    Step::Ack(7, 9),
    Step::Unacked(b", world!"),
    Step::Ack(4, 7),
    Step::Unacked(b"rld!"),
    Step::Ack(0, 13),
    Step::Unacked(b""),
    Step::FullyAcked(true),
];

#[test]
fn multiple_segments(rt: HostRuntime) -> Result<(), Fail> {
    run(&rt, rt.alloc(), &SEGMENTS)?;
    Ok(())
}

const FRONT_ACKED: [Step; 4] = [
    Step::Write(b"Hello, world!"),
    Step::Poll(16, 0, 8, true),
    Step::Ack(0, 8),
    Step::Unacked(b"orld!"),
];

#[test]
fn acknowledged_front(rt: HostRuntime) -> Result<(), Fail> {
    run(&rt, rt.alloc(), &FRONT_ACKED)?;
    Ok(())
}

const LOSSES: [Step; 8] = [
    Step::Write(b"Hello, world with extra data!"),
    Step::Poll(16, 0, 16, false),
    Step::Poll(16, 16, 23, true),
    Step::Lose(0, 16),
    Step::Poll(16, 0, 16, false),
    Step::Poll(16, 23, 29, true),
    Step::Lose(16, 23),
    Step::Poll(16, 16, 23, true),
];

#[test]
fn retransmit(rt: HostRuntime) -> Result<(), Fail> {
    run(&rt, rt.alloc(), &LOSSES)?;
    Ok(())
}

const REORDERED: [Step; 11] = [
    Step::Write(b"Hello, world with extra data!"),
    Step::Poll(16, 0, 16, false),
    Step::Poll(16, 16, 23, true),
    Step::Ack(16, 23),
    Step::Unacked(b"Hello, world with extra data!"),
    Step::Get(16, 23, b"h extra"),
    Step::Ack(0, 16),
    Step::Unacked(b" data!"),
    Step::Lose(0, 16),
    Step::Poll(16, 23, 29, true),
    Step::Due(false),
];

#[test]
fn acknowledged_is_not_sent_again(rt: HostRuntime) -> Result<(), Fail> {
    run(&rt, rt.alloc(), &REORDERED)?;
    Ok(())
}

// Of a lost range that is acknowledged in its middle both ends are sent again.
const MIDDLE: [Step; 9] = [
    Step::Write(b"Hello, world with extra data!"),
    Step::Poll(58, 0, 29, true),
    Step::Lose(4, 20),
    Step::Ack(8, 12),
    Step::Lose(6, 22),
    Step::Poll(58, 4, 8, true),
    Step::Poll(58, 12, 22, true),
    Step::Ack(0, 29),
    Step::FullyAcked(true),
];

#[test]
fn acknowledged_middle_of_a_lost_range(rt: HostRuntime) -> Result<(), Fail> {
    run(&rt, rt.alloc(), &MIDDLE)?;
    Ok(())
}

// Lost ranges in a mixed order: below the lowest, behind it, and over the gap between two. They are sent again from the
// lowest on.
const APART: [Step; 15] = [
    Step::Write(b"Hello, world with extra data!"),
    Step::Poll(58, 0, 29, true),
    Step::Lose(16, 18),
    Step::Lose(24, 26),
    Step::Lose(4, 6),
    Step::Lose(10, 12),
    Step::Poll(58, 4, 6, true),
    Step::Lose(11, 17),
    Step::Poll(58, 10, 18, true),
    Step::Lose(2, 3),
    Step::Lose(3, 4),
    Step::Poll(58, 2, 4, true),
    Step::Poll(58, 24, 26, true),
    Step::Poll(58, 29, 29, true),
    Step::Due(false),
];

#[test]
fn lost_ranges_are_sent_from_the_lowest_on(rt: HostRuntime) -> Result<(), Fail> {
    run(&rt, rt.alloc(), &APART)?;
    Ok(())
}

const WHOLE_PIECES: [Step; 8] = [
    Step::Write(b"twenty-four bytes in all"),
    Step::Poll(58, 0, 24, true),
    Step::Ack(16, 23),
    Step::Buffered(24),
    Step::Ack(0, 16),
    Step::Buffered(24),
    Step::Ack(23, 24),
    Step::Buffered(0),
];

#[test]
fn retains_whole_pieces(rt: HostRuntime) -> Result<(), Fail> {
    run(&rt, rt.alloc(), &WHOLE_PIECES)?;
    Ok(())
}

const COPIED: [Step; 4] = [
    Step::Write(b"He"),
    Step::Write(b"llo, wor"),
    Step::Write(b"ld!"),
    Step::Copied(1, 12, b"> ello, world"),
];

#[test]
fn a_range_of_several_pieces_is_copied(rt: HostRuntime) -> Result<(), Fail> {
    run(&rt, rt.alloc(), &COPIED)?;
    Ok(())
}

// Each kind of change: acknowledged and lost ranges that are new, joined, cut and split.
const CHANGES: [Step; 25] = [
    Step::Write(b"Hello, world wit"),
    Step::Write(b"h extra data!"),
    Step::Poll(16, 0, 16, false),
    Step::Poll(16, 16, 23, true),
    Step::Poll(58, 23, 29, true),
    Step::Ack(8, 12),
    Step::Lose(4, 20),
    Step::Ack(14, 16),
    Step::Lose(2, 4),
    Step::Lose(26, 29),
    Step::Poll(16, 2, 8, true),
    Step::Poll(16, 12, 14, true),
    Step::Ack(17, 18),
    Step::Poll(16, 16, 17, true),
    Step::Poll(16, 18, 20, true),
    Step::Ack(0, 2),
    Step::Ack(2, 8),
    Step::Buffered(29),
    Step::Ack(12, 14),
    Step::Buffered(13),
    Step::Unacked(b"h extra data!"),
    Step::Poll(16, 26, 29, true),
    Step::Reserve(20),
    Step::Copied(18, 29, b"> extra data!"),
    Step::Due(false),
];

#[test]
fn refused_memory_changes_no_buffer(rt: HostRuntime) -> Result<(), Fail> {
    for steps in [
        SEGMENTS.as_slice(),
        LOSSES.as_slice(),
        REORDERED.as_slice(),
        MIDDLE.as_slice(),
        CHANGES.as_slice(),
    ] {
        run(&rt, rt.alloc(), steps)?;
    }
    Ok(())
}
