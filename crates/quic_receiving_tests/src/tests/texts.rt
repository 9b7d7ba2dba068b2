use super::same;
use quic_receiving::{
    ClosedStream, EnsureError, HandleError, IllegalOrderedRead, ReadError, ReadableError,
};
use quic_values::{OutOfMemory, VarInt};
use std::alloc::Global;
use std::fmt::Display;
use std::io;
use std::process::Abort;
use std::test::Fail;

// Each error has the text beside it.
fn have_texts<E: Display>(
    rt: &impl Abort,
    alloc: Global,
    cases: &[(E, &str)],
) -> Result<(), OutOfMemory> {
    for (error, text) in cases {
        same(rt, error.to_string(alloc)?.as_str(), *text);
    }
    Ok(())
}

#[test]
fn errors_have_their_texts(rt: HostRuntime) -> Result<(), Fail> {
    let reads = [
        (ReadError::Blocked, "blocked"),
        (ReadError::Reset(VarInt::from(7)), "reset by peer: code 7"),
        (ReadError::from(OutOfMemory), "out of memory"),
    ];
    have_texts(&rt, rt.alloc(), &reads)?;
    let opens = [
        (ReadableError::from(ClosedStream), "closed stream"),
        (
            ReadableError::from(IllegalOrderedRead),
            "ordered read after unordered read",
        ),
        (
            ReadableError::from(EnsureError::OutOfMemory),
            "out of memory",
        ),
    ];
    have_texts(&rt, rt.alloc(), &opens)?;
    let handles = [
        (HandleError::from(ClosedStream), "closed stream"),
        (HandleError::from(OutOfMemory), "out of memory"),
    ];
    have_texts(&rt, rt.alloc(), &handles)?;
    same(
        &rt,
        io::Error::from(ClosedStream).kind(),
        io::ErrorKind::NotConnected,
    );
    Ok(())
}
