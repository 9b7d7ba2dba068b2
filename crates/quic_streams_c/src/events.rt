//! The events of a session.

ghost use Rattle.std.specs.Prelude.{◌≡◌, option_map};
ghost use Rattle.quic_session.specs.Sessions.{end_of, beside_of, datagrams_view, next_told};
ghost use Rattle.quic_session.specs.Users.{users_view};
ghost use Rattle.quic_streams_c.specs.Numbers.{direction_number};
ghost use Rattle.quic_streams_c.specs.Calls.{Calls};
ghost use Rattle.quic_streams_c.specs.Events.{raw_event, event_at, closed_event_at, next_over, event_words, TellsEvent, PollsStreams, PollsRaw};

use crate::codes::{CLOSED, DONE, OK, direction_number, id_of};
use crate::handle::{Handle, holding, take_out};
use crate::words::fill_words;
use quic_session::Session;
use quic_session::closing::Closed;
use quic_session::datagrams::DatagramEvent;
use quic_values::Dir;
use quic_wire::StreamEvent;
use std::alloc::Global;

/// An event.
#[derive(Clone, Copy)]
pub struct RawEvent {
    pub kind: u64,
    pub dir: u64,
    pub id: u64,
    pub app_code: u64,
    pub user: u64,
}

// An event of a kind.
fn event(kind: u64, dir: u64, id: u64, app_code: u64, user: u64) -> RawEvent
    ensures { result ≡ raw_event kind dir id app_code user }
{
    RawEvent {
        kind,
        dir,
        id,
        app_code,
        user,
    }
}

// A direction as a word.
fn dir_word(dir: Dir) -> u64
    ensures { result ≡ direction_number dir }
{
    direction_number(dir) as u64
}

// An event of the streams in numbers, with the host's word for its stream.
fn event_of(told: StreamEvent, session: &Session) -> RawEvent
    ensures { result ≡ event_at (users_view session.now.users) told }
{
    match told {
        StreamEvent::Opened { dir } => event(1, dir_word(dir), 0, 0, 0),
        StreamEvent::Readable { id } => event(
            2,
            dir_word(id.dir()),
            id_of(id),
            0,
            session.word_of(id),
        ),
        StreamEvent::Writable { id } => event(
            3,
            dir_word(id.dir()),
            id_of(id),
            0,
            session.word_of(id),
        ),
        StreamEvent::Finished { id } => event(
            4,
            dir_word(id.dir()),
            id_of(id),
            0,
            session.word_of(id),
        ),
        StreamEvent::Stopped { id, error_code } => {
            event(
                5,
                dir_word(id.dir()),
                id_of(id),
                error_code.into_inner(),
                session.word_of(id),
            )
        }
        StreamEvent::Available { dir } => event(6, dir_word(dir), 0, 0, 0),
    }
}

// The next event of a session, if there is one.
fn next_event(session: &mut Session) -> Option<RawEvent>
    ensures { TellsEvent (next_told (datagrams_view session.old)) session.old result session.new }
{
    match session.poll_datagrams() {
        Some(DatagramEvent::Received) => Some(event(7, 0, 0, 0, 0)),
        Some(DatagramEvent::Unblocked) => Some(event(8, 0, 0, 0, 0)),
        None => next_of_streams(session),
    }
}

// The next event of the streams, and behind them that one is over.
fn next_of_streams(session: &mut Session) -> Option<RawEvent>
    ensures polls { PollsStreams session.old result session.new }
    ensures beside { beside_of session.new ≡ beside_of session.old }
{
    match session.poll() {
        Some(told) => Some(event_of(told, session)),
        None => next_closed(session),
    }
}

// That a stream is over, if one is.
fn next_closed(session: &mut Session) -> Option<RawEvent>
    ensures answer { result ≡ option_map closed_event_at (next_over session.old).0 }
    ensures users { users_view session.new.users ≡ (next_over session.old).1 }
    ensures end { end_of session.new ≡ end_of session.old }
    ensures beside { beside_of session.new ≡ beside_of session.old }
{
    match session.poll_closed() {
        Some(Closed { id, user }) => Some(event(9, dir_word(id.dir()), id_of(id), 0, user)),
        None => None,
    }
}

/// Gives the next event.
#[unsafe(no_mangle)]
pub extern "C" fn qs_poll_words(alloc: Global, handle: &mut Handle, words: &mut [u64]) -> i32
    ensures { Calls handle.old.slot.value result handle.new.slot.value (words.new ≡ words.old) (λ s t. PollsRaw s result t words.old words.new) }
{
    match take_out(alloc, handle) {
        None => CLOSED,
        Some(mut session) => {
            let code = poll(&mut session, words);
            *handle = holding(session);
            code
        }
    }
}

// The same, of a session.
fn poll(session: &mut Session, words: &mut [u64]) -> i32
    ensures { PollsRaw session.old result session.new words.old words.new }
{
    match next_event(session) {
        Some(next) => {
            fill_words(words, &event_words(&next));
            OK
        }
        None => DONE,
    }
}

// The words of an event.
fn event_words(next: &RawEvent) -> [u64; 5]
    ensures { result ≡ event_words next.now }
{
    [next.kind, next.dir, next.id, next.app_code, next.user]
}
