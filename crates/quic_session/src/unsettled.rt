//! Payloads that were sent and not heard of, by token.

ghost use Rattle.std.specs.Prelude.{ℕ, ◌≡◌, ◌≤◌, ◌<◌, ◌+◌, ◌-◌, ◌^◌, min, length, slice_index_or, true, IsOk, OnOk, OnErr, IfSome, Some, None, Option, option_copied};
ghost use Rattle.std.specs.List.{sum_by};
ghost use Rattle.quic_session.specs.Places.{held_at};

use quic_streams::SentPayload;
use quic_values::OutOfMemory;
use std::alloc::Global;
use std::collections::VecDeque;
use std::mem;

/// Payloads by token. A token is not used again, but for the last one.
#[derive(Drop)]
pub struct Unsettled {
    // A place for each token from `first` on, up to that of the newest payload.
    places: VecDeque<Option<SentPayload>>,
    first: u64,
    // How many of them have a payload.
    held: usize,
    // The token of the next payload.
    next: u64,
    ghost begun: { 0 < first },
    ghost counted: { held ≡ sum_by held_at places.items },
    ghost in_turn: { (first ≤ next) × (next ≡ min (first + length places.items) (2 ^ 64 - 1)) },
}

#[tactic(auto, unfolding(crate::specs::Tokens::unsettled, crate::specs::Tokens::with_payload))]
impl Unsettled {
    ghost use Rattle.quic_session.specs.Tokens.{unsettled, with_payload, places, payload_count, KeepsNew, HasPlaceFor, IsEmptyFirst};

    /// No payloads. Takes no memory. The first token is 1.
    pub(crate) fn new(alloc: Global) -> Self
        ensures none { unsettled result ≡ (λ token. None) }
        ensures next { result.next ≡ 1 }
    {
        Unsettled {
            places: VecDeque::new(alloc),
            first: 1,
            held: 0,
            next: 1,
        }
    }

    /// How many payloads there are.
    pub(crate) fn len(&self) -> usize
        ensures { result ≡ payload_count self.now }
    {
        self.held
    }

    /// Makes a place for one more. Where all that there are have a token, two of the oldest are let go, if their payloads
    /// were settled.
    pub(crate) fn reserve(&mut self) -> Result<(), OutOfMemory>
        ensures same { unsettled self.new ≡ unsettled self.old }
        ensures next { self.new.next ≡ self.old.next }
        ensures ok { OnOk result (0 < places self.new) }
        ensures free { 0 < places self.old → IsOk result }
    {
        if self.places.len() < self.places.capacity() {
            return Ok(());
        }
        self.drop_settled();
        self.drop_settled();
        self.make_room()
    }

    // Lets go the oldest place, if its payload was settled.
    fn drop_settled(&mut self)
        ensures same { unsettled self.new ≡ unsettled self.old }
        ensures next { self.new.next ≡ self.old.next }
    {
        if self.first < self.next && self.is_oldest_settled() {
            let _ = self.places.pop_front();
            self.first += 1;
        }
    }

    // Whether there is a place, and the oldest has no payload.
    fn is_oldest_settled(&self) -> bool
        ensures { result ≡ true → IsEmptyFirst self.now.places.items }
    {
        match self.places.front() {
            Some(place) => place.is_none(),
            None => false,
        }
    }

    // Takes memory for one more place.
    fn make_room(&mut self) -> Result<(), OutOfMemory>
        ensures same { unsettled self.new ≡ unsettled self.old }
        ensures next { self.new.next ≡ self.old.next }
        ensures ok { OnOk result (0 < places self.new) }
    {
        self.places.reserve(1)?;
        Ok(())
    }

    /// The payload of a token, if it is not settled.
    pub(crate) fn get(&self, token: u64) -> Option<&SentPayload>
        ensures { option_copied result ≡ unsettled self.now token }
    {
        if token < self.first {
            return None;
        }
        let index = (token - self.first) as usize;
        if index >= self.places.len() {
            return None;
        }
        self.places[index].as_ref()
    }

    /// Keeps a payload in a place that was made, and gives its token.
    pub(crate) fn keep(&mut self, sent: SentPayload) -> u64
        requires { 0 < places self.old }
        ensures { KeepsNew (unsettled self.old) self.old.next sent result (unsettled self.new) self.new.next }
    {
        let token = self.next;
        let index = (token - self.first) as usize;
        if index < self.places.len() {
            self.put_at(index, sent);
        } else {
            self.put_behind(sent);
        }
        token
    }

    // Keeps a payload in a new place.
    fn put_behind(&mut self, sent: SentPayload)
        requires room { 0 < places self.old }
        requires next { self.old.next ≡ self.old.first + length self.old.places.items }
        ensures { KeepsNew (unsettled self.old) self.old.next sent self.old.next (unsettled self.new) self.new.next }
    {
        self.held += 1;
        self.places.push_back_reserved(Some(sent));
        self.next = self.next.saturating_add(1);
    }

    // Puts a payload into a place.
    fn put_at(&mut self, index: usize, sent: SentPayload)
        requires { index < length self.old.places.items }
        ensures kept { unsettled self.new ≡ with_payload (unsettled self.old) (self.old.first + index) (Some sent) }
        ensures next { self.new.next ≡ self.old.next }
    {
        let _ = self.take_at(index);
        self.held += 1;
        self.places[index] = Some(sent);
    }

    // Takes what a place has.
    fn take_at(&mut self, index: usize) -> Option<SentPayload>
        requires { index < length self.old.places.items }
        ensures sent { result ≡ unsettled self.old (self.old.first + index) }
        ensures rest { unsettled self.new ≡ with_payload (unsettled self.old) (self.old.first + index) None }
        ensures next { self.new.next ≡ self.old.next }
        ensures first { self.new.first ≡ self.old.first }
        ensures length { length self.new.places.items ≡ length self.old.places.items }
        ensures places { places self.new ≡ places self.old }
        ensures empty { slice_index_or self.new.places.items index None ≡ None }
    {
        let taken = mem::replace(&mut self.places[index], None);
        if taken.is_some() {
            self.held -= 1;
        }
        taken
    }

    /// Takes a payload out. Its place stays.
    pub(crate) fn take(&mut self, token: u64) -> Option<SentPayload>
        ensures sent { result ≡ unsettled self.old token }
        ensures rest { unsettled self.new ≡ with_payload (unsettled self.old) token None }
        ensures next { self.new.next ≡ self.old.next }
        ensures places { 0 < places self.old → 0 < places self.new }
        ensures place { IfSome result (λ sent. HasPlaceFor self.new token) }
    {
        if token < self.first {
            return None;
        }
        let index = (token - self.first) as usize;
        if index >= self.places.len() {
            return None;
        }
        self.take_at(index)
    }

    /// Puts what is left of a payload back into its place.
    pub(crate) fn put_back(&mut self, token: u64, rest: SentPayload)
        requires { HasPlaceFor self.old token }
        ensures kept { unsettled self.new ≡ with_payload (unsettled self.old) token (Some rest) }
        ensures next { self.new.next ≡ self.old.next }
    {
        let index = (token - self.first) as usize;
        self.put_at(index, rest);
    }

    /// Forgets all.
    pub(crate) fn clear(&mut self, alloc: Global)
        ensures none { unsettled self.new ≡ (λ token. None) }
        ensures next { self.new.next ≡ self.old.next }
    {
        self.places = VecDeque::new(alloc);
        self.first = self.next;
        self.held = 0;
    }
}
