//! Hands frames that no honest peer sends to a session, one payload after another, and holds each answer against a plain
//! record of what has to come of it. Reads a seed and a number of frames from standard input.
#![tactic(auto)]

mod application;
mod arrival;
mod flow;
mod payload;
mod peer;
mod queries;
mod record;
mod tally;
mod trial;

use std::alloc::Global;
use std::io::{self, Read};
use std::process::ExitCode;
use tally::Tally;
use trial::hold;

// What is asked for: a seed, and how many frames.
fn asked(text: &str) -> Option<(u64, u64)> {
    let mut fields = text.split_ascii_whitespace();
    let seed = fields.next()?.parse::<u64>().ok()?;
    let frames = fields.next()?.parse::<u64>().ok()?;
    match fields.next() {
        None => Some((seed, frames)),
        Some(_) => None,
    }
}

fn report(rt: &(impl Print + Eprint), tally: &Tally) -> io::Result<()> {
    println!(rt; "frames {}", tally.frames)?;
    println!(rt; "answered otherwise {}", tally.otherwise)?;
    println!(rt; "changed by a refused frame {}", tally.changed)?;
    println!(rt; "out of step {}", tally.out_of_step)?;
    println!(rt; "wrong bytes {}", tally.wrong_bytes)?;
    println!(rt; "kinds of answers {}", tally.kinds())?;
    eprintln!(rt; "{tally:?}")
}

// Hands the frames in. Whether each was answered as it has to be.
fn run(rt: &(impl Print + Eprint), alloc: Global, text: &str) -> io::Result<u8> {
    let Some((seed, frames)) = asked(text) else {
        println!(rt; "a seed and a number of frames are wanted")?;
        return Ok(2);
    };
    match hold(alloc, seed, frames) {
        Ok(tally) => {
            report(rt, &tally)?;
            Ok(if tally.is_clean() { 0 } else { 3 })
        }
        Err(_) => {
            println!(rt; "out of memory")?;
            Ok(1)
        }
    }
}

// The whole input. What is no UTF-8 in it becomes a character that no number has.
fn read_input(alloc: Global, mut input: impl Read + Drop) -> io::Result<String> {
    let mut bytes = Vec::new(alloc);
    input.read_to_end(&mut bytes)?;
    Ok(String::from_utf8_lossy(alloc, bytes.as_slice())?)
}

fn main(rt: HostRuntime) -> ExitCode {
    let Ok(text) = read_input(rt.alloc(), rt.reader()) else {
        return ExitCode::from(1);
    };
    match run(&rt, rt.alloc(), text.as_str()) {
        Ok(status) => ExitCode::from(status),
        Err(_) => ExitCode::from(1),
    }
}
