//! What `streampair` does not show of a pair: that a list of steps leads to it, and what it tells of its ends and payloads.

ghost use Rattle.std.specs.Prelude.{IfOk};
ghost use Rattle.std.specs.List.{zip};
ghost use Rattle.quic_pair.specs.Shown.{pair_view};
ghost use Rattle.quic_exchange.specs.From.{PairFrom, at_once};

use quic_pair::{Config, End, Pair, PairError, Received, Reply, Step};
use quic_values::{Bytes, Dir, OutOfMemory, Side, StreamId, VarInt};
use std::alloc::Global;
use std::fmt::Debug;
use std::process::Abort;
use std::test::Fail;

// A pair, and what the steps that led to it were answered.
#[derive(Drop)]
struct Taken {
    pair: Pair,
    replies: Vec<Result<Reply, PairError>>,
}

fn take_all(alloc: Global, a: Config, b: Config, steps: Vec<Step>) -> Result<Taken, OutOfMemory>
    ensures { IfOk result (λ taken. PairFrom (at_once a b) (zip steps.items taken.replies.items) (pair_view taken.pair)) }
{
    let mut pair = Pair::new(alloc, a, b)?;
    let replies = pair.run(steps)?;
    Ok(Taken { pair, replies })
}

fn config() -> Config {
    Config {
        max_remote_uni: VarInt::from(4),
        max_remote_bi: VarInt::from(4),
        send_window: 1000,
        receive_window: VarInt::from(1000),
        stream_receive_window: VarInt::from(1000),
    }
}

// The calls on a pair, with nothing of what they promise.
fn taken_of(alloc: Global, steps: Vec<Step>) -> Result<Taken, OutOfMemory> {
    take_all(alloc, config(), config(), steps)
}

fn was_given(pair: &Pair, who: End, id: StreamId) -> bool {
    pair.end(who).was_given(id)
}

fn payload_of(pair: &Pair, number: usize) -> Option<&[u8]> {
    pair.payload(number)
}

fn hand_in(pair: &mut Pair, payload: usize) -> Result<Received, PairError> {
    pair.deliver_all(payload)
}

// Both are the same, or the test fails and shows them.
fn same<T: PartialEq + Debug + Drop>(rt: &impl Abort, found: T, wanted: T) {
    assert_eq!(rt; found, wanted);
}

fn is_true(rt: &impl Abort, holds: bool) {
    assert!(rt; holds);
}

fn stream(dir: Dir) -> StreamId {
    StreamId::new(Side::Client, dir, 0)
}

fn emit(who: End) -> Step {
    Step::Emit {
        who,
        max_size: 100,
        fair: true,
    }
}

// The client writes five bytes, which are lost, sent again, and come. Then it opens another stream.
fn steps_with_a_loss(alloc: Global) -> Result<Vec<Step>, OutOfMemory> {
    let (who, id, dir) = (End::A, stream(Dir::Bi), Dir::Bi);
    let (payload, frame) = (1, 0);
    let mut steps = Vec::new(alloc);
    steps.push(Step::Open { who, dir })?;
    steps.push(Step::Write {
        who,
        id,
        bytes: Bytes::copy_from_slice(alloc, b"hiabc")?,
    })?;
    steps.push(emit(who))?;
    steps.push(Step::Lose { payload: 0 })?;
    steps.push(emit(who))?;
    steps.push(Step::Deliver { payload, frame })?;
    steps.push(Step::Accept { who: End::B, dir })?;
    steps.push(Step::Open { who, dir: Dir::Uni })?;
    Ok(steps)
}

#[test]
fn a_pair_tells_of_ids_and_payloads(rt: HostRuntime) -> Result<(), Fail> {
    let alloc = rt.alloc();
    let taken = taken_of(alloc, steps_with_a_loss(alloc)?)?;
    let pair = &taken.pair;
    is_true(&rt, was_given(pair, End::B, stream(Dir::Bi)));
    is_true(&rt, was_given(pair, End::A, stream(Dir::Uni)));
    is_true(&rt, !was_given(pair, End::B, stream(Dir::Uni)));
    let first = b"\x0a\x00\x05hiabc".as_slice();
    same(&rt, payload_of(pair, 0), Some(first));
    same(&rt, payload_of(pair, 2), None);
    Ok(())
}

// The client sends a byte on each of two streams in one payload.
fn steps_of_two_streams(alloc: Global) -> Result<Vec<Step>, OutOfMemory> {
    let who = End::A;
    let mut steps = Vec::new(alloc);
    for dir in [Dir::Bi, Dir::Uni] {
        let (id, bytes) = (stream(dir), Bytes::copy_from_slice(alloc, b"h")?);
        steps.push(Step::Open { who, dir })?;
        steps.push(Step::Write { who, id, bytes })?;
    }
    steps.push(emit(who))?;
    Ok(steps)
}

#[test]
fn a_whole_payload_is_accepted_frame_by_frame(rt: HostRuntime) -> Result<(), Fail> {
    let alloc = rt.alloc();
    let mut taken = taken_of(alloc, steps_of_two_streams(alloc)?)?;
    let all = Received {
        next: 2,
        answer: Ok(()),
    };
    same(&rt, hand_in(&mut taken.pair, 0), Ok(all));
    same(&rt, hand_in(&mut taken.pair, 0), Ok(all));
    same(
        &rt,
        hand_in(&mut taken.pair, 1),
        Err(PairError::NoSuchPayload),
    );
    Ok(())
}
