// What a value is by default, in which order its cases stand, and how it is shown.
use super::{is_true, same};
use quic_receiving::{
    ClosedStream, HandleError, ReadError, ReadableError, RecvState, ShouldTransmit,
};
use quic_values::{OutOfMemory, VarInt};
use std::alloc::Global;
use std::fmt::Debug;
use std::process::Abort;
use std::test::Fail;

#[test]
fn nothing_is_to_be_sent_by_default(rt: HostRuntime) -> Result<(), Fail> {
    same(&rt, ShouldTransmit::default(), ShouldTransmit(false));
    same(&rt, RecvState::default(), RecvState::Recv { size: None });
    same(&rt, ClosedStream::default(), ClosedStream);
    Ok(())
}

#[test]
fn errors_stand_in_the_order_of_their_cases(rt: HostRuntime) -> Result<(), Fail> {
    let (low, high) = (VarInt::from(3), VarInt::from(4));
    is_true(&rt, ReadError::Blocked < ReadError::Reset(VarInt::from(0)));
    is_true(&rt, ReadError::Reset(low) < ReadError::Reset(high));
    is_true(&rt, ReadError::Reset(high) < ReadError::OutOfMemory);
    is_true(&rt, ReadError::Reset(high) >= ReadError::Reset(low));
    is_true(
        &rt,
        ReadableError::ClosedStream < ReadableError::IllegalOrderedRead,
    );
    is_true(
        &rt,
        ReadableError::IllegalOrderedRead < ReadableError::OutOfMemory,
    );
    is_true(&rt, HandleError::ClosedStream < HandleError::OutOfMemory);
    Ok(())
}

// A value is shown so.
fn is_shown(
    rt: &impl Abort,
    alloc: Global,
    value: &impl Debug,
    text: &str,
) -> Result<(), OutOfMemory> {
    let shown = format!(in alloc; "{value:?}")?;
    same(rt, shown.as_str(), text);
    Ok(())
}

#[test]
fn errors_are_shown_by_their_cases(rt: HostRuntime) -> Result<(), Fail> {
    let reads = [
        ReadError::Blocked,
        ReadError::Reset(VarInt::from(7)),
        ReadError::OutOfMemory,
    ];
    is_shown(&rt, rt.alloc(), &reads, "[Blocked, Reset(7), OutOfMemory]")?;
    let opens = [
        ReadableError::ClosedStream,
        ReadableError::IllegalOrderedRead,
        ReadableError::OutOfMemory,
    ];
    is_shown(
        &rt,
        rt.alloc(),
        &opens,
        "[ClosedStream, IllegalOrderedRead, OutOfMemory]",
    )?;
    let handles = [HandleError::ClosedStream, HandleError::OutOfMemory];
    is_shown(&rt, rt.alloc(), &handles, "[ClosedStream, OutOfMemory]")?;
    is_shown(
        &rt,
        rt.alloc(),
        &ShouldTransmit(true),
        "ShouldTransmit(true)",
    )?;
    Ok(())
}
