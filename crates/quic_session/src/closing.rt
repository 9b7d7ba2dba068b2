//! The host's word of each stream, and the streams that are over.
//!
//! A stream is over when no state of either of its sides is left: the receive side was read to its end, or its reset was
//! read, or it was stopped and its final size is known; of the send side all data and FIN, or RESET_STREAM, are acknowledged.
//! A stream of one direction has one side.

ghost use Rattle.std.specs.Prelude.{◌≡◌, [], true, false, IfSome, IfNone, OnOk, OnErr, Ok, Err};
ghost use Rattle.quic_streams.specs.Shown.{streams_view};
ghost use Rattle.quic_retransmits.specs.Pending.{thin_view};
ghost use Rattle.quic_streams.specs.Settling.{resets_of};
ghost use Rattle.quic_session.specs.Sessions.{end_of, beside_of};
ghost use Rattle.quic_session.specs.Users.{users_view, is_known, word_of, with_word, with_room};
ghost use Rattle.quic_session.specs.Closing.{has_no_side, ended_word, without_ended, first_over, touched_by_read, touched_by_frame, touched_by_event, touched_by_resets};

use crate::session::Session;
use crate::users::Users;
use quic_receiving::HandleError;
use quic_retransmits::ThinRetransmits;
use quic_sending::ClosedStream;
use quic_streams::progress::LastAnswer;
use quic_streams::state::StreamsState;
use quic_values::{OutOfMemory, StreamId, VarInt};
use quic_wire::{Frame, StreamEvent};

/// A stream that is over.
#[derive(Clone, Copy, Debug, PartialEq, Eq)]
pub struct Closed {
    pub id: StreamId,
    /// The word that the host set for it last, 0 if it set none.
    pub user: u64,
}

impl Session {
    /// From now on the session keeps the host's word of each stream that the host is given, and reports when a stream is over.
    /// This costs each such stream memory and time, so a host that needs neither does not call it.
    pub fn track_streams(&mut self) -> Result<(), OutOfMemory>
        ensures ok { OnOk result (users_view self.new.users ≡ record (users_view self.old.users) { tracks = true }) }
        ensures err { OnErr result (users_view self.new.users ≡ users_view self.old.users) }
        ensures end { end_of self.new ≡ end_of self.old }
        ensures beside { beside_of self.new ≡ beside_of self.old }
    {
        self.users.track(self.alloc)
    }

    /// Reserves what is kept of the stream that is opened or accepted next, so that its end is reported. Without it, or if
    /// streams are not tracked, it is not.
    pub fn reserve_stream(&mut self) -> Result<(), OutOfMemory>
        ensures ok { OnOk result (users_view self.new.users ≡ with_room (users_view self.old.users)) }
        ensures err { OnErr result (users_view self.new.users ≡ users_view self.old.users) }
        ensures end { end_of self.new ≡ end_of self.old }
        ensures beside { beside_of self.new ≡ beside_of self.old }
    {
        self.users.reserve()
    }

    /// Sets the word of a stream that was opened or accepted and of which the host was not told that it is over.
    pub fn set_user(&mut self, id: StreamId, user: u64) -> Result<(), HandleError>
        ensures set { OnOk result (users_view self.new.users ≡ with_word id user (users_view self.old.users)) }
        ensures known { OnOk result (is_known (users_view self.old.users) id ≡ true) }
        ensures unknown { result ≡ Err HandleError.ClosedStream → is_known (users_view self.old.users) id ≡ false }
        ensures err { OnErr result (users_view self.new.users ≡ users_view self.old.users) }
        ensures end { end_of self.new ≡ end_of self.old }
        ensures beside { beside_of self.new ≡ beside_of self.old }
    {
        if !self.users.has(id) {
            return Err(HandleError::ClosedStream);
        }
        match self.users.set_word(id, user) {
            Ok(()) => Ok(()),
            Err(_) => Err(HandleError::OutOfMemory),
        }
    }

    /// The word of a stream that was opened or accepted and of which the host was not told that it is over: the one that was
    /// set last, 0 at first.
    pub fn user(&self, id: StreamId) -> Result<u64, ClosedStream>
        ensures word { OnOk result (result ≡ Ok (word_of (users_view self.now.users) id)) }
        ensures known { OnOk result (is_known (users_view self.now.users) id ≡ true) }
        ensures unknown { OnErr result (is_known (users_view self.now.users) id ≡ false) }
    {
        if !self.users.has(id) {
            return Err(ClosedStream);
        }
        Ok(self.word_of(id))
    }

    /// The word that is set for a stream, 0 if none is.
    pub fn word_of(&self, id: StreamId) -> u64
        ensures { result ≡ word_of (users_view self.now.users) id }
    {
        self.users.word(id).unwrap_or(0)
    }

    /// The next stream of which the host is to be told that it is over, with its word. It is told once, and the session has
    /// no word of it any more. Those that may have ended are looked at in the order in which calls named them.
    pub fn poll_closed(&mut self) -> Option<Closed>
        ensures closed { result ≡ (first_over (has_no_side (end_of self.old).streams) (users_view self.old.users).touched (users_view self.old.users)).0 }
        ensures users { users_view self.new.users ≡ (first_over (has_no_side (end_of self.old).streams) (users_view self.old.users).touched (users_view self.old.users)).1 }
        ensures over { IfSome result (λ c. has_no_side (end_of self.old).streams c.id ≡ true) }
        ensures gone { IfSome result (λ c. is_known (users_view self.new.users) c.id ≡ false) }
        ensures all { IfNone result ((users_view self.new.users).touched ≡ []) }
        ensures end { end_of self.new ≡ end_of self.old }
        ensures beside { beside_of self.new ≡ beside_of self.old }
    {
        next_closed(&mut self.users, self.endpoint.streams())
    }
}

// Whether a stream is over.
fn has_no_side(streams: &StreamsState, id: StreamId) -> bool
    ensures { result ≡ has_no_side (streams_view streams.now) id }
{
    !streams.has_receive_side(id) && !streams.has_send_side(id)
}

// The first of the streams that may have ended that has.
fn next_closed(users: &mut Users, streams: &StreamsState) -> Option<Closed>
    ensures closed { result ≡ (first_over (has_no_side (streams_view streams.now)) (users_view users.old).touched (users_view users.old)).0 }
    ensures users { users_view users.new ≡ (first_over (has_no_side (streams_view streams.now)) (users_view users.old).touched (users_view users.old)).1 }
    ensures over { IfSome result (λ c. has_no_side (streams_view streams.now) c.id ≡ true) }
    ensures gone { IfSome result (λ c. is_known (users_view users.new) c.id ≡ false) }
    ensures all { IfNone result ((users_view users.new).touched ≡ []) }
{
    while let Some(id) = users.next_touched() {
        if let Some(user) = forget_ended(users, streams, id) {
            return Some(Closed { id, user });
        }
    }
    None
}

// Forgets a stream if it is over, and gives its word.
fn forget_ended(users: &mut Users, streams: &StreamsState, id: StreamId) -> Option<u64>
    ensures word { result ≡ ended_word (has_no_side (streams_view streams.now)) id (users_view users.old) }
    ensures rest { users_view users.new ≡ without_ended (has_no_side (streams_view streams.now)) id (users_view users.old) }
    ensures touched { (users_view users.new).touched ≡ (users_view users.old).touched }
    ensures over { IfSome result (λ user. has_no_side (streams_view streams.now) id ≡ true) }
    ensures gone { IfSome result (λ user. is_known (users_view users.new) id ≡ false) }
{
    if !has_no_side(streams, id) {
        return None;
    }
    users.remove(id)
}

// Notes a stream that a read may have ended.
pub(crate) fn touch_by_read(users: &mut Users, id: StreamId, last: LastAnswer)
    ensures { users_view users.new ≡ touched_by_read id last (users_view users.old) }
{
    if matches!(last, LastAnswer::Ended | LastAnswer::Reset(_)) {
        users.touch(id);
    }
}

// Notes a stream that a frame may end.
pub(crate) fn touch_by_frame(users: &mut Users, frame: &Frame)
    ensures { users_view users.new ≡ touched_by_frame frame.now (users_view users.old) }
{
    match frame {
        Frame::Stream(stream) => {
            if stream.fin {
                users.touch(stream.id);
            }
        }
        Frame::ResetStream(reset) => users.touch(reset.id),
        _ => {}
    }
}

// Notes a stream of which the host is told that all its data and FIN are acknowledged.
pub(crate) fn touch_by_event(users: &mut Users, told: &Option<StreamEvent>)
    ensures { users_view users.new ≡ touched_by_event told.now (users_view users.old) }
{
    if let Some(StreamEvent::Finished { id }) = told {
        users.touch(*id);
    }
}

// Notes the streams whose RESET_STREAM is acknowledged.
pub(crate) fn touch_by_resets(users: &mut Users, control: &ThinRetransmits)
    ensures { users_view users.new ≡ touched_by_resets (resets_of (thin_view control.now)) (users_view users.old) }
{
    if let Some(noted) = control.get() {
        touch_each(users, noted.reset_stream.as_slice());
    }
}

// The same of a list.
fn touch_each(users: &mut Users, resets: &[(StreamId, VarInt)])
    ensures { users_view users.new ≡ touched_by_resets resets.now (users_view users.old) }
{
    for reset in resets {
        users.touch(reset.0);
    }
}
