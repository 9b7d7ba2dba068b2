//! Messages of different priorities between two ends whose network loses what it is told to. Standard input has the
//! messages and the losses, standard output what is sent, and which messages came.
#![tactic(auto)]

mod framing;
mod queue;

use crate::queue::Queue;
use anyhow::{Error, Result};
use std::alloc::Global;
use std::io::{self, Read, Write};
use std::process::ExitCode;

// Does what a line asks for. `None`: it has another form. `false`: there is no such stream, there may be no more, or the
// payload is lost already.
fn take_line(queue: &mut Queue, number: usize, line: &str) -> Option<Result<bool>> {
    let (verb, rest) = line.split_once(' ')?;
    match (verb, rest.split_once(' ')) {
        ("stream", None) => Some(queue.open(rest.parse().ok()?)),
        ("message", Some((stream, text))) => Some(queue.push(stream.parse().ok()?, number, text)),
        ("lose", None) => Some(queue.losses.insert(rest.parse().ok()?).map_err(Error::from)),
        _ => None,
    }
}

/// Sends the messages of the input with its losses, and gives the status: 0 where it is done, 2 at a line that is
/// malformed. A message has the number of its line, from 1 on.
pub fn serve<R: Read + Drop, W: Write>(alloc: Global, input: R, output: &mut W) -> Result<u8> {
    let text = io::read_to_string(alloc, input)?;
    let mut queue = Queue::new(alloc)?;
    for (number, line) in (1..usize::MAX).zip(text.as_str().lines()) {
        let taken = take_line(&mut queue, number, line).unwrap_or(Ok(false))?;
        if !taken {
            writeln!(output, "malformed {number}")?;
            return Ok(2);
        }
    }
    queue.run(output)?;
    Ok(0)
}

fn main(rt: HostRuntime) -> Result<ExitCode> {
    let mut output = io::writer(&rt);
    Ok(ExitCode::from(serve(rt.alloc(), rt.reader(), &mut output)?))
}
