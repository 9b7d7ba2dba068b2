// What becomes of a reader that is finalized, dropped or leaked, of a read that fails, and of the list of a read.
use super::frames::{WINDOW, client, id, receive};
use super::steps::{Last, Step, play};
use super::subject::{Subject, finalize, next_chunk};
use super::{TAKEN, is_true, same, same_at};
use quic_receiving::{Chunk, ReadableError};
use quic_streams::recv_stream::RecvStream;
use std::alloc::Global;
use std::mem::forget;
use std::process::Abort;
use std::test::Fail;

// What becomes of a reader.
#[derive(Clone, Copy)]
enum Ending {
    Finalized,
    Dropped,
    Leaked,
}

// Reads the byte that came, and ends the reader. Answers whether to transmit, where that is told.
fn read_byte(
    rt: &impl Abort,
    subject: Subject,
    ending: Ending,
) -> Result<(Subject, Option<bool>), Fail> {
    let Subject {
        mut state,
        mut pending,
        conn,
        window,
    } = subject;
    let mut stream = RecvStream::new(id(3), &mut state, &mut pending);
    let mut chunks = stream.read(true)?;
    is_true(rt, next_chunk(&mut chunks, 1)?.is_some());
    let transmit = match ending {
        Ending::Finalized => Some(finalize(chunks)),
        Ending::Dropped => {
            drop(chunks);
            None
        }
        Ending::Leaked => {
            forget(chunks);
            None
        }
    };
    let subject = Subject {
        state,
        pending,
        conn,
        window,
    };
    Ok((subject, transmit))
}

// One byte comes, of a stream on which 8 are permitted, and is read. The reader ends in one way, which answers whether to
// transmit, and the steps are taken.
fn read_and_go_on(
    rt: &impl Abort,
    alloc: Global,
    ending: Ending,
    answer: Option<bool>,
    steps: &[Step],
) -> Result<(), Fail> {
    let mut subject = client(alloc, 128, WINDOW, 8)?;
    play(
        rt,
        alloc,
        &mut subject,
        &[Step::Receive(3, 0, 1, false, TAKEN)],
    )?;
    let (mut subject, transmit) = read_byte(rt, subject, ending)?;
    same(rt, transmit, answer);
    play(rt, alloc, &mut subject, steps)?;
    Ok(())
}

// The limit of the stream is worth a frame, that of the connection is not.
const WITH_CREDIT: [Step; 2] = [Step::Window(9), Step::Credit(1, 1)];

#[test]
fn a_reader_that_is_finalized_or_dropped_gives_credit(rt: HostRuntime) -> Result<(), Fail> {
    let alloc = rt.alloc();
    read_and_go_on(&rt, alloc, Ending::Finalized, Some(true), &WITH_CREDIT)?;
    read_and_go_on(&rt, alloc, Ending::Dropped, None, &WITH_CREDIT)
}

// The credit of the leaked reader is lost, and no other. The stream is read on.
const WITHOUT_CREDIT: [Step; 6] = [
    Step::WindowsWait(0),
    Step::Credit(0, 1),
    Step::Receive(3, 1, 1, false, TAKEN),
    Step::Read(true, 8, 2, 1, Last::Blocked, true),
    Step::Credit(1, 2),
    Step::Window(10),
];

#[test]
fn a_reader_that_is_leaked_leaves_the_stream(rt: HostRuntime) -> Result<(), Fail> {
    read_and_go_on(&rt, rt.alloc(), Ending::Leaked, None, &WITHOUT_CREDIT)
}

// Opens stream 3 for reads, which fails for this reason.
fn fail_to_read(
    rt: &impl Abort,
    subject: Subject,
    ordered: bool,
    reason: ReadableError,
) -> Subject {
    let Subject {
        mut state,
        mut pending,
        conn,
        window,
    } = subject;
    let mut stream = RecvStream::new(id(3), &mut state, &mut pending);
    match stream.read(ordered) {
        Ok(_) => is_true(rt, false),
        Err(error) => same(rt, error, reason),
    }
    Subject {
        state,
        pending,
        conn,
        window,
    }
}

// One byte is received, and the steps before are taken. Then a read fails, and the steps behind it are taken.
fn fail_between(
    rt: &impl Abort,
    alloc: Global,
    before: Step,
    ordered: bool,
    reason: ReadableError,
    behind: &[Step],
) -> Result<(), Fail> {
    let mut subject = client(alloc, 128, WINDOW, 8)?;
    let steps = [Step::Receive(3, 0, 1, false, TAKEN), before];
    play(rt, alloc, &mut subject, &steps)?;
    let mut subject = fail_to_read(rt, subject, ordered, reason);
    play(rt, alloc, &mut subject, behind)?;
    Ok(())
}

// STOP_SENDING with the code 9 is pending, and no other frame.
const STOPPED: [Step; 4] = [
    Step::MaxDataWaits(false),
    Step::WindowsWait(0),
    Step::Credit(1, 1),
    Step::Control(26, &[5, 3, 9]),
];

// The stream is read on.
const READ_UNORDERED: [Step; 5] = [
    Step::Credit(1, 1),
    Step::Receive(3, 1, 1, false, TAKEN),
    Step::Read(false, 8, 2, 1, Last::Blocked, true),
    Step::Credit(2, 2),
    Step::Window(10),
];

#[test]
fn a_read_that_fails_changes_nothing(rt: HostRuntime) -> Result<(), Fail> {
    let alloc = rt.alloc();
    let stop = Step::Stop(true);
    let closed = ReadableError::ClosedStream;
    fail_between(&rt, alloc, stop, true, closed, &STOPPED)?;
    fail_between(&rt, alloc, stop, false, closed, &STOPPED)?;
    let read = Step::Read(false, 8, 2, 1, Last::Blocked, true);
    let illegal = ReadableError::IllegalOrderedRead;
    fail_between(&rt, alloc, read, true, illegal, &READ_UNORDERED)
}

// So many bytes come and are read into a list. Answers the list that the read gives back.
fn read_into(
    rt: &impl Abort,
    alloc: Global,
    subject: &mut Subject,
    offset: u64,
    size: usize,
    list: Vec<Chunk>,
) -> Result<Vec<Chunk>, Fail> {
    let taken = receive(alloc, subject, 3, offset, size, false)?;
    same_at(rt, size, taken, TAKEN);
    let read = subject.read_some_into(3, 2, 9, list)?;
    Ok(read.chunks)
}

#[test]
fn the_list_of_the_last_read_is_used_again(rt: HostRuntime) -> Result<(), Fail> {
    let alloc = rt.alloc();
    let mut subject = client(alloc, 1, WINDOW, WINDOW)?;
    let mut list = Vec::with_capacity(alloc, 9)?;
    let room = list.capacity();
    let mut offset = 0u64;
    for size in 1..20usize {
        list = read_into(&rt, alloc, &mut subject, offset, size, list)?;
        same_at(&rt, size, list.capacity(), room);
        offset = offset.wrapping_add(size as u64);
    }
    Ok(())
}
