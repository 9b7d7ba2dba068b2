// Reading by a visitor.
ghost use Rattle.std.specs.Prelude.{[], ◌∷◌, ◌≡◌};
ghost use Rattle.quic_streams.specs.Visits.{NextCall};

use super::frames::{WINDOW, client, id, pattern};
use super::steps::{Last, Step, play};
use super::subject::Subject;
use super::{TAKEN, same};
use quic_receiving::{Chunk, ReadError, ReadableError};
use quic_streams::reading::Chunks;
use quic_streams::recv_stream::RecvStream;
use quic_streams::visiting::ReadVisitor;
use quic_values::{OutOfMemory, VarInt};
use std::alloc::Global;
use std::process::Abort;
use std::test::Fail;

type NextAnswer = Result<Option<Chunk>, ReadError>;

// Reads twice, at most so many bytes each time, and keeps the answers.
#[derive(Drop)]
struct TwoReads {
    most: (usize, usize),
    answers: (NextAnswer, NextAnswer),
}

impl TwoReads {
    fn new(first: usize, second: usize) -> Self {
        TwoReads {
            most: (first, second),
            answers: (Ok(None), Ok(None)),
        }
    }
}

impl ReadVisitor for TwoReads {
    ghost does = { λ old calls new. (new.most ≡ old.most) × (calls ≡ (record { most = old.most.1; answer = new.answers.1 } ∷ record { most = old.most.0; answer = new.answers.0 } ∷ [])) };

    fn visit(&mut self, reader: &mut Chunks<'_>) {
        let first = reader.next(self.most.0);
        let second = reader.next(self.most.1);
        self.answers = (first, second);
    }
}

// What a read has to answer.
#[derive(Clone, Copy)]
enum Told {
    // A chunk from an offset on, of so many bytes.
    Chunk(u64, usize),
    Nothing,
    // That the stream was reset with a code.
    Reset(u32),
}

fn chunk(alloc: Global, offset: u64, count: usize) -> Result<Chunk, OutOfMemory> {
    Ok(Chunk {
        offset,
        bytes: pattern(alloc, offset, count)?,
    })
}

fn answer_of(alloc: Global, told: Told) -> Result<NextAnswer, OutOfMemory> {
    match told {
        Told::Chunk(offset, count) => Ok(Ok(Some(chunk(alloc, offset, count)?))),
        Told::Nothing => Ok(Ok(None)),
        Told::Reset(code) => Ok(Err(ReadError::Reset(VarInt::from(code)))),
    }
}

fn is_told(
    rt: &impl Abort,
    alloc: Global,
    answer: NextAnswer,
    told: Told,
) -> Result<(), OutOfMemory> {
    let wanted = answer_of(alloc, told)?;
    same(rt, answer, wanted);
    Ok(())
}

// Opens stream 3 for reads in order, hands the reader to the visitor, and answers whether to transmit.
fn visit(subject: Subject, visitor: &mut TwoReads) -> (Subject, Result<bool, ReadableError>) {
    let Subject {
        mut state,
        mut pending,
        conn,
        window,
    } = subject;
    let answer = match RecvStream::new(id(3), &mut state, &mut pending).read_with(true, visitor) {
        Ok(transmit) => Ok(transmit.should_transmit()),
        Err(error) => Err(error),
    };
    let subject = Subject {
        state,
        pending,
        conn,
        window,
    };
    (subject, answer)
}

// A visit that reads 3 bytes at most, and then 9, behind some steps and before others. Answers what the visit did.
fn visit_between(
    rt: &impl Abort,
    alloc: Global,
    stream_window: u32,
    before: &[Step],
    told: (Told, Told),
    after: &[Step],
) -> Result<Result<bool, ReadableError>, OutOfMemory> {
    let mut subject = client(alloc, 128, WINDOW, stream_window)?;
    play(rt, alloc, &mut subject, before)?;
    let mut visitor = TwoReads::new(3, 9);
    let (mut subject, answer) = visit(subject, &mut visitor);
    let (first, second) = visitor.answers;
    is_told(rt, alloc, first, told.0)?;
    is_told(rt, alloc, second, told.1)?;
    play(rt, alloc, &mut subject, after)?;
    Ok(answer)
}

const EIGHT_BYTES: [Step; 1] = [Step::Receive(3, 0, 8, false, TAKEN)];

// The credit of the stream is worth a frame, that of the connection is not.
const WITH_CREDIT: [Step; 2] = [Step::Credit(8, 8), Step::Window(16)];

#[test]
fn a_visitor_reads_as_it_likes(rt: HostRuntime) -> Result<(), Fail> {
    let told = (Told::Chunk(0, 3), Told::Chunk(3, 5));
    let answer = visit_between(&rt, rt.alloc(), 8, &EIGHT_BYTES, told, &WITH_CREDIT)?;
    same(&rt, answer, Ok(true));
    Ok(())
}

const RESET: [Step; 2] = [
    Step::Receive(3, 0, 8, false, TAKEN),
    Step::ReceiveReset(7, 8),
];

const FREED: [Step; 3] = [Step::Credit(8, 8), Step::Stop(false), Step::Permits(129, 1)];

#[test]
fn a_visitor_is_told_of_a_reset_at_each_read(rt: HostRuntime) -> Result<(), Fail> {
    let told = (Told::Reset(7), Told::Reset(7));
    let answer = visit_between(&rt, rt.alloc(), WINDOW, &RESET, told, &FREED)?;
    same(&rt, answer.is_ok(), true);
    Ok(())
}

const READ_IN_ANY_ORDER: [Step; 2] = [
    Step::Receive(3, 4, 4, false, TAKEN),
    Step::Read(false, 2, 1, 2, Last::More, false),
];

const READ_ON: [Step; 2] = [
    Step::Credit(2, 8),
    Step::Read(false, 9, 2, 2, Last::Blocked, false),
];

#[test]
fn a_refused_visitor_is_left_alone(rt: HostRuntime) -> Result<(), Fail> {
    let told = (Told::Nothing, Told::Nothing);
    let answer = visit_between(&rt, rt.alloc(), WINDOW, &READ_IN_ANY_ORDER, told, &READ_ON)?;
    same(&rt, answer, Err(ReadableError::IllegalOrderedRead));
    Ok(())
}
