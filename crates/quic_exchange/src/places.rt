//! Frames by the number of their payload and their place there, and what is unreported of payloads.

ghost use Rattle.std.specs.Prelude.{◌≡◌, ◌⊎◌, IfOk, IfErr, OnOk, Err, true, false};
ghost use Rattle.quic_exchange.specs.Notes.{IsNoNote, IsNoteThere, FindsFrameOf, FailsToFindIn, IsReadyIn, IsHandedFrame, MarksNoteIf, BeginsReport, CanReport, RefusesNote};
ghost use Rattle.quic_exchange.specs.Payloads.{LacksFrame};

use crate::sent::Note;
use crate::unsettled::Report;
use quic_receiving::ShouldTransmit;
use quic_steps::{End, PairError};
use quic_wire::{Frame, ReceiveError};
use std::alloc::Global;

/// A frame that is handed over.
#[derive(Drop)]
pub struct HandedFrame {
    /// The end that wrote it.
    pub writer: End,
    pub frame: Frame,
    /// With these it can be marked as accepted.
    pub marks: Option<Vec<bool>>,
    /// How many bytes its payload has.
    pub len: usize,
}

/// Whether no payload has a number: none was sent, or it left the network.
pub fn is_no_payload(sent: &[Note], payload: usize) -> bool
    ensures yes { result ≡ true → IsNoNote sent.now payload }
    ensures no { result ≡ false → IsNoteThere sent.now payload }
{
    match sent.get(payload) {
        Some(whole) => whole.gone,
        None => true,
    }
}

/// The frame at a place of a payload.
pub fn frame_at(
    sent: &mut Vec<Note>,
    alloc: Global,
    payload: usize,
    index: usize,
) -> Result<HandedFrame, PairError>
    ensures same { sent.new.items ≡ sent.old.items }
    ensures found { IfOk result (FindsFrameOf sent.old.items payload index) }
    ensures fails { IfErr result (FailsToFindIn sent.old.items payload index) }
{
    if is_no_payload(sent, payload) {
        return Err(PairError::NoSuchPayload);
    }
    frame_of(&mut sent[payload], alloc, index)
}

// The frame at a place of this payload.
fn frame_of(whole: &mut Note, alloc: Global, index: usize) -> Result<HandedFrame, PairError>
    ensures same { whole.new ≡ whole.old }
    ensures found { IfOk result (IsHandedFrame whole.old index) }
    ensures none { result ≡ Err PairError.NoSuchFrame → LacksFrame whole.old.text.bytes index }
    ensures only { IfErr result (λ e. (e ≡ PairError.NoSuchFrame) ⊎ (e ≡ PairError.OutOfMemory)) }
{
    let (frame, marks) = whole.text.frame(alloc, index)?;
    Ok(HandedFrame {
        writer: whole.writer,
        frame,
        marks,
        len: whole.text.bytes().len(),
    })
}

/// Marks a frame as accepted, if the answer is Ok.
pub fn mark_if(
    sent: &mut Vec<Note>,
    answer: &Result<ShouldTransmit, ReceiveError>,
    payload: usize,
    index: usize,
    marks: Option<Vec<bool>>,
)
    requires { IsReadyIn sent.old.items payload index marks }
    ensures { MarksNoteIf answer.now sent.old.items payload index sent.new.items }
{
    if answer.is_ok() && payload < sent.len() {
        let whole = &mut sent[payload];
        whole.text.accept(index, marks);
    }
}

/// Why a payload takes no report of a kind, if something of it is unreported. A payload that left the network takes none.
pub fn may_report(note: &Note, kind: Report, is_unsettled: bool) -> Result<(), PairError>
    ensures ok { OnOk result (CanReport kind note.now is_unsettled) }
    ensures refused { IfErr result (RefusesNote kind note.now is_unsettled) }
{
    if !is_unsettled || !kind.goes_on(note.begun) {
        return Err(PairError::AlreadySettled);
    }
    if kind.needs_acceptance() && !note.text.is_all_accepted() {
        return Err(PairError::NotAccepted);
    }
    Ok(())
}

/// Notes that a report of a payload was begun, for the rest of which there was no memory.
pub fn begin(sent: &mut Vec<Note>, payload: usize, kind: Report)
    ensures { BeginsReport sent.old.items payload kind sent.new.items }
{
    if payload < sent.len() {
        sent[payload].begun = Some(kind);
    }
}
