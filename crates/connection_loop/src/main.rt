//! Two ends of a connection. Standard input says which payloads the network loses, standard output what each end does.
#![tactic(auto)]

mod connection;

use crate::connection::Connection;
use anyhow::{Context, Result, ensure};
use quic_streams::recv::ReadableError;
use quic_streams::send::WriteError;
use quic_streams::streams::{ConnState, RecvStream, SendStream, StreamEvent, Streams};
use quic_streams::wire::{Dir, Frame, Side, StreamId, decode};
use std::alloc::Global;
use std::collections::{BTreeMap, BTreeSet};
use std::fmt::Debug;
use std::io::{self, Read, Write};
use std::mem;
use std::process::ExitCode;

const TEXT: &str = "Those bytes come again that stood in a payload which was lost, and no others.";

/// Sends a text with the losses that the input names, and gives the status: 0 where it came whole, 2 at a line that
/// names no payload, 3 where a payload that it names was never sent.
pub fn serve<R: Read + Drop, W: Write>(alloc: Global, input: R, output: &mut W) -> Result<u8> {
    let Some(losses) = read_losses(alloc, input, output)? else {
        return Ok(2);
    };
    let sent = send_text(alloc, &losses, output)?;
    writeln!(output, "the text came whole")?;
    if let Some(unsent) = losses.range(sent..).last() {
        writeln!(output, "unsent {unsent}")?;
        return Ok(3);
    }
    Ok(0)
}

// The payloads that the lines of the input name, or `None` once it is told which line names none.
fn read_losses<R: Read + Drop, W: Write>(
    alloc: Global,
    input: R,
    output: &mut W,
) -> Result<Option<BTreeSet<u64>>> {
    let text = io::read_to_string(alloc, input)?;
    let mut losses = BTreeSet::new(alloc);
    for (number, line) in (1..u64::MAX).zip(text.as_str().lines()) {
        let Ok(lost) = line.strip_prefix("lose ").unwrap_or("").parse::<u64>() else {
            writeln!(output, "malformed {number}")?;
            return Ok(None);
        };
        losses.insert(lost)?;
    }
    Ok(Some(losses))
}

// Sends the text from a client to a server, in turns of both until nothing is left to be sent. Answers how many payloads
// that took.
fn send_text<W: Write>(alloc: Global, losses: &BTreeSet<u64>, output: &mut W) -> Result<u64> {
    let mut client = Connection::new(alloc, Side::Client, TEXT)?;
    let mut server = Connection::new(alloc, Side::Server, "")?;
    let opened = Streams::new(&mut client.streams, ConnState::Open).open(Dir::Uni)?;
    client.write(opened.context("no stream is permitted")?, output)?;
    let mut sent = 0;
    for _ in 0..u64::MAX {
        let before = sent;
        sent = turn(losses, &mut client, &mut server, sent, output)?;
        sent = turn(losses, &mut server, &mut client, sent, output)?;
        if sent == before {
            break;
        }
    }
    let is_whole = server.read.as_slice() == TEXT.as_bytes();
    ensure!(is_whole, "the text did not come whole");
    Ok(sent)
}

// One end's turn: it hears what became of the payloads of its last turn, acts, and sends.
fn turn<W: Write>(
    losses: &BTreeSet<u64>,
    from: &mut Connection,
    to: &mut Connection,
    sent: u64,
    output: &mut W,
) -> Result<u64> {
    for (number, payload) in mem::replace(&mut from.sent, BTreeMap::new(from.alloc)) {
        if losses.contains(&number) {
            writeln!(output, "{} hears that {number} was lost", from.side)?;
            from.lost(payload)?;
        } else {
            writeln!(output, "{} hears that {number} arrived", from.side)?;
            from.acknowledged(payload)?;
        }
    }
    from.act(output)?;
    for number in sent..u64::MAX {
        let payload = from.send(number)?;
        if payload.is_empty() {
            return Ok(number);
        }
        write!(output, "{} sends {number}:", from.side)?;
        for frame in &decode(from.alloc, payload.as_slice())? {
            write_frame(frame, output)?;
        }
        if losses.contains(&number) {
            writeln!(output, " lost")?;
        } else {
            writeln!(output, " arrives")?;
            to.receive(payload.as_slice())?;
        }
    }
    Ok(u64::MAX)
}

fn write_frame<W: Write>(frame: &Frame, output: &mut W) -> io::Result<()> {
    match frame {
        Frame::Stream(stream) => {
            let (start, len, fin) = (stream.offset, stream.bytes.len(), stream.fin);
            write!(output, " Stream({len} bytes at {start}, fin: {fin}),")
        }
        other => write_item(other, output),
    }
}

// For any type, so that the proof does not go through all that a frame may be.
fn write_item<T: Debug, W: Write>(item: &T, output: &mut W) -> io::Result<()> {
    write!(output, " {item:?},")
}

// What the application of an end does: one writes a text, the other reads it.
impl Connection {
    // Does what each event asks for, until there is none.
    fn act<W: Write>(&mut self, output: &mut W) -> Result<()> {
        for _ in 0..u64::MAX {
            let Some(event) = self.streams.poll() else {
                break;
            };
            writeln!(output, "{} is told {event:?}", self.side)?;
            match event {
                StreamEvent::Opened { dir } => self.accept(dir, output)?,
                StreamEvent::Readable { id } => self.read(id, output)?,
                StreamEvent::Writable { id } => self.write(id, output)?,
                _ => {}
            }
        }
        Ok(())
    }

    // Accepts each stream that was opened. Data may have come with it.
    fn accept<W: Write>(&mut self, dir: Dir, output: &mut W) -> Result<()> {
        for _ in 0..self.streams.next_remote(dir) {
            if let Some(id) = Streams::new(&mut self.streams, ConnState::Open).accept(dir) {
                self.read(id, output)?;
            }
        }
        Ok(())
    }

    // Reads what came. The stream is closed where an earlier event led to all that this one tells of.
    fn read<W: Write>(&mut self, id: StreamId, output: &mut W) -> Result<()> {
        let mut stream = RecvStream::new(id, &mut self.streams, &mut self.pending);
        let some = match stream.read_some(true, usize::MAX, 100) {
            Ok(some) => some,
            Err(ReadableError::ClosedStream) => return Ok(()),
            Err(error) => return Err(error.into()),
        };
        for chunk in &some.chunks {
            self.read.extend_from_slice(chunk.bytes.as_slice())?;
        }
        let (count, last) = (self.read.len(), some.last);
        Ok(writeln!(output, "{} has read {count}, {last:?}", self.side)?)
    }

    // Writes until the stream is blocked, and then an event tells when there is room; or ends it.
    fn write<W: Write>(&mut self, id: StreamId, output: &mut W) -> Result<()> {
        for _ in 0..u64::MAX {
            let (streams, pending) = (&mut self.streams, &mut self.pending);
            let mut stream = SendStream::new(id, streams, pending, ConnState::Open);
            match stream.write(self.left) {
                Ok(count) => self.left = self.left.get(count..).unwrap_or(&[]),
                Err(WriteError::Blocked) => break,
                Err(error) => return Err(error.into()),
            }
            if self.left.is_empty() {
                stream.finish()?;
                break;
            }
        }
        let (side, count) = (self.side, self.left.len());
        Ok(writeln!(output, "{side} has {count} left to write")?)
    }
}

fn main(rt: HostRuntime) -> Result<ExitCode> {
    Ok(ExitCode::from(serve(rt.alloc(), rt.reader(), &mut io::writer(&rt))?))
}
