//! Numbers at the greatest that a frame can tell. Those below it are worked in sessions.

use quic_limits::{OwnStreams, ReceiveCredit, RemoteStreams, SendCredit};
use quic_values::VarInt;
use std::fmt::Debug;
use std::process::Abort;
use std::rt::HostRuntime;

// Both are the same, or the test fails and shows them.
fn same<T: PartialEq + Debug + Drop>(rt: &impl Abort, found: T, wanted: T) {
    assert_eq!(rt; found, wanted);
}

fn is_true(rt: &impl Abort, holds: bool) {
    assert!(rt; holds);
}

#[test]
fn no_limit_above_what_a_frame_can_tell(rt: HostRuntime) {
    let mut credit = ReceiveCredit::new(VarInt::MAX);
    is_true(&rt, !credit.add(u64::MAX));
    same(&rt, credit.local_max_data(), u64::MAX);
    same(&rt, credit.max_data(), VarInt::MAX);
}

#[test]
fn no_stream_above_the_greatest_count(rt: HostRuntime) {
    let mut streams = RemoteStreams::new(1 << 60);
    same(&rt, streams.replace(), None);
    same(&rt, streams.allocated(), (1 << 60) - 1);
    same(&rt, streams.max_remote(), 1 << 60);
    let mut streams = OwnStreams::new();
    is_true(&rt, streams.raise(u64::MAX));
    same(&rt, streams.limit(), 1 << 60);
}

#[test]
fn no_more_is_given_back_than_was_written(rt: HostRuntime) {
    let mut credit = SendCredit::new(3);
    is_true(&rt, credit.raise(VarInt::MAX));
    credit.sent(3);
    credit.release(9);
    credit.set_send_window(u64::MAX);
    same(&rt, credit.buffered_data(), 0);
    same(&rt, credit.write_limit(), (1 << 62) - 4);
}
