// In which order the cases of errors stand, what they are by default, and how they and a half's state are shown.
use super::same;
use quic_sending::{ClosedStream, FinishError, SendState, WriteError, Written};
use quic_values::{OutOfMemory, VarInt};
use std::alloc::Global;
use std::fmt::Debug;
use std::process::Abort;
use std::test::Fail;

#[test]
fn errors_stand_in_the_order_of_their_cases(rt: HostRuntime) {
    let (low, high) = (VarInt::from(3), VarInt::from(4));
    for (less, more) in [
        (WriteError::Blocked, WriteError::Stopped(VarInt::from(0))),
        (WriteError::Stopped(low), WriteError::Stopped(high)),
        (WriteError::Stopped(high), WriteError::ClosedStream),
        (WriteError::ClosedStream, WriteError::OutOfMemory),
    ] {
        same(&rt, (less < more, more >= less), (true, true));
    }
}

#[test]
fn nothing_is_written_by_default(rt: HostRuntime) -> Result<(), Fail> {
    let none = Written::default();
    same(&rt, (none.bytes, none.chunks), (0, 0));
    same(&rt, ClosedStream::default(), ClosedStream);
    Ok(())
}

fn is_shown<T: Debug>(
    rt: &impl Abort,
    alloc: Global,
    value: &T,
    text: &str,
) -> Result<(), OutOfMemory> {
    let shown = format!(in alloc; "{value:?}")?;
    same(rt, shown.as_str(), text);
    Ok(())
}

fn errors_are_shown(rt: &impl Abort, alloc: Global) -> Result<(), OutOfMemory> {
    let seven = VarInt::from(7);
    for (error, text) in &[
        (WriteError::Blocked, "Blocked"),
        (WriteError::Stopped(seven), "Stopped(7)"),
        (WriteError::ClosedStream, "ClosedStream"),
        (WriteError::OutOfMemory, "OutOfMemory"),
    ] {
        is_shown(rt, alloc, error, text)?;
    }
    for (error, text) in &[
        (FinishError::Stopped(seven), "Stopped(7)"),
        (FinishError::ClosedStream, "ClosedStream"),
        (FinishError::OutOfMemory, "OutOfMemory"),
    ] {
        is_shown(rt, alloc, error, text)?;
    }
    Ok(())
}

const STATES: [(SendState, &str); 3] = [
    (SendState::Ready, "Ready"),
    (
        SendState::DataSent {
            finish_acked: false,
        },
        "DataSent { finish_acked: false }",
    ),
    (SendState::ResetSent, "ResetSent"),
];

#[test]
fn errors_and_states_are_shown_by_their_cases(rt: HostRuntime) -> Result<(), Fail> {
    errors_are_shown(&rt, rt.alloc())?;
    for (state, text) in &STATES {
        is_shown(&rt, rt.alloc(), state, text)?;
    }
    let written = Written {
        bytes: 5,
        chunks: 2,
    };
    is_shown(&rt, rt.alloc(), &written, "Written { bytes: 5, chunks: 2 }")?;
    Ok(())
}
