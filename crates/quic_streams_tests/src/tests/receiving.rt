// Frames and credit that the library for C does not hand on, a stream that was not accepted, and a limit queued by hand.
use super::TAKEN;
use super::entries::Entry;
use super::frames::{Answer, WINDOW, client};
use super::steps::{Last, Step, run};
use super::subject::Subject;
use quic_values::{Side, VarInt};
use quic_wire::TransportError;
use std::rt::HostRuntime;
use std::test::Fail;

const FLOW_CONTROL: Answer = Answer::Refused(TransportError::FLOW_CONTROL_ERROR);

// A frame on a stream that was reset is dropped, whatever its size.
const OFFSETS: [Step; 6] = [
    Step::Receive(3, 0, 8, false, TAKEN),
    Step::Receive(3, u64::MAX, 1, false, FLOW_CONTROL),
    Step::Credit(0, 8),
    Step::ReceiveReset(0, 8),
    Step::Receive(3, u64::MAX, 1, false, TAKEN),
    Step::Credit(8, 8),
];

#[test]
fn an_offset_that_no_frame_has_is_refused_or_dropped(rt: HostRuntime) -> Result<(), Fail> {
    let alloc = rt.alloc();
    run(&rt, alloc, client(alloc, 128, 1000, 8), &OFFSETS)
}

const STOPPED_FIRST: [Step; 6] = [
    Step::Stop(true),
    Step::Receive(3, 0, 1, false, TAKEN),
    Step::Permits(128, 0),
    Step::ReceiveReset(0, 1),
    Step::Permits(129, 1),
    Step::ToldNoMore,
];

#[test]
fn a_stream_may_be_stopped_before_it_comes(rt: HostRuntime) -> Result<(), Fail> {
    let alloc = rt.alloc();
    run(
        &rt,
        alloc,
        client(alloc, 128, WINDOW, WINDOW),
        &STOPPED_FIRST,
    )
}

const FROM_ELSEWHERE: [Step; 4] = [
    Step::AddCredit(131_071, false),
    Step::AddCredit(1, true),
    Step::Credit(131_072, 0),
    Step::MaxDataWaits(false),
];

#[test]
fn credit_from_elsewhere_is_answered_and_not_queued(rt: HostRuntime) -> Result<(), Fail> {
    let alloc = rt.alloc();
    run(
        &rt,
        alloc,
        client(alloc, 128, WINDOW, WINDOW),
        &FROM_ELSEWHERE,
    )
}

const GREATEST: [Step; 5] = [
    Step::Receive(3, 0, 1, false, TAKEN),
    Step::Read(true, 1, 1, 1, Last::More, false),
    Step::WindowsWait(0),
    Step::Put(Entry::Window(3)),
    Step::Control(18, &[0x11, 3, 255, 255, 255, 255, 255, 255, 255, 255]),
];

#[test]
fn the_greatest_limit_of_a_stream_is_announced(rt: HostRuntime) -> Result<(), Fail> {
    let alloc = rt.alloc();
    let made = Subject::new(alloc, Side::Client, 4, 0, VarInt::MAX, VarInt::MAX);
    run(&rt, alloc, made, &GREATEST)
}
