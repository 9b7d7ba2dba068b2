// What counts of what is pending: a frame that would be dropped does not.
use super::entries::{Entry, create, note, pending_of};
use super::frames::{WINDOW, client, end};
use super::steps::{Step, run};
use super::subject::{Subject, nothing_noted};
use super::{TAKEN, is_true, same_at};
use quic_values::{OutOfMemory, Side};
use std::alloc::Global;
use std::process::Abort;
use std::test::Fail;

// What counts in any state.
const LASTING: [Entry; 11] = [
    Entry::MaxData,
    Entry::MaxStreams(true, false),
    Entry::MaxStreams(false, true),
    Entry::Reset(2),
    Entry::Stop(3),
    Entry::Crypto,
    Entry::NewId,
    Entry::RetiredId,
    Entry::AckFrequency,
    Entry::HandshakeDone,
    Entry::NewToken,
];

// An entry counts that is pending alone.
fn counts_alone(
    rt: &impl Abort,
    alloc: Global,
    subject: &Subject,
    at: usize,
    entry: Entry,
) -> Result<(), OutOfMemory> {
    let pending = pending_of(alloc, &[entry])?;
    same_at(rt, at, subject.has_nothing_of(&pending), false);
    Ok(())
}

// An entry counts that was noted alone.
fn counts_noted(
    rt: &impl Abort,
    alloc: Global,
    subject: &Subject,
    at: usize,
    entry: Entry,
) -> Result<(), OutOfMemory> {
    let mut noted = nothing_noted(alloc);
    note(alloc, &mut noted, entry)?;
    same_at(rt, at, subject.has_nothing_of_thin(&noted), false);
    Ok(())
}

// Nothing counts that is pending at first, nor what was noted of nothing.
fn nothing_counts(rt: &impl Abort, alloc: Global, subject: &Subject) -> Result<(), OutOfMemory> {
    is_true(rt, subject.has_nothing_of(&subject.pending));
    let mut noted = nothing_noted(alloc);
    is_true(rt, subject.has_nothing_of_thin(&noted));
    create(&mut noted)?;
    is_true(rt, subject.has_nothing_of_thin(&noted));
    Ok(())
}

fn each_counts(rt: &impl Abort, alloc: Global, subject: &Subject) -> Result<(), OutOfMemory> {
    for (at, entry) in LASTING.iter().enumerate() {
        counts_alone(rt, alloc, subject, at, *entry)?;
        counts_noted(rt, alloc, subject, at, *entry)?;
    }
    Ok(())
}

#[test]
fn what_is_pending_in_any_state_counts(rt: HostRuntime) -> Result<(), Fail> {
    let alloc = rt.alloc();
    let subject = client(alloc, 1, WINDOW, WINDOW)?;
    nothing_counts(&rt, alloc, &subject)?;
    each_counts(&rt, alloc, &subject)?;
    Ok(())
}

const DATA: &[Entry] = &[Entry::DataBlocked];

// Stream 10 is not open.
const THREE_STREAMS: &[Entry] = &[
    Entry::StreamBlocked(2),
    Entry::StreamBlocked(6),
    Entry::StreamBlocked(10),
];

const NOT_STREAM_6: &[Entry] = &[Entry::StreamBlocked(2), Entry::StreamBlocked(10)];

// Two bytes are written on stream 6, and then on 2, and a third is refused on each.
const HELD_BACK: [Step; 14] = [
    Step::Open(2),
    Step::Open(6),
    Step::NothingOf(DATA, true),
    Step::NothingOf(THREE_STREAMS, true),
    Step::Write(6, b"thi", 2),
    Step::Blocked(6, b"i"),
    Step::NothingOf(NOT_STREAM_6, true),
    Step::NothingOf(THREE_STREAMS, false),
    Step::NothingOf(DATA, true),
    Step::Write(2, b"thi", 2),
    Step::Blocked(2, b"i"),
    Step::NothingOf(DATA, false),
    Step::MaxData(5),
    Step::NothingOf(DATA, true),
];

#[test]
fn limits_count_while_they_hold_data_back(rt: HostRuntime) -> Result<(), Fail> {
    let alloc = rt.alloc();
    run(&rt, alloc, end(alloc, Side::Client, 2, 4, 2), &HELD_BACK)
}

// Windows of use to no one: of streams that are not open, of 2, which is this end's alone, and of 3, whose final size came.
const USELESS: &[Entry] = &[
    Entry::Window(2),
    Entry::Window(3),
    Entry::Window(5),
    Entry::Window(7),
];

// That of stream 1 is of use: the peer may open it.
const USEFUL: &[Entry] = &[
    Entry::Window(2),
    Entry::Window(3),
    Entry::Window(1),
    Entry::Window(7),
];

const WINDOWS: [Step; 5] = [
    Step::Open(2),
    Step::Receive(3, 0, 1, true, TAKEN),
    Step::NothingOf(&[], true),
    Step::NothingOf(USELESS, true),
    Step::NothingOf(USEFUL, false),
];

#[test]
fn windows_count_where_more_may_come(rt: HostRuntime) -> Result<(), Fail> {
    let alloc = rt.alloc();
    run(&rt, alloc, end(alloc, Side::Client, 2, 4, 2), &WINDOWS)
}
