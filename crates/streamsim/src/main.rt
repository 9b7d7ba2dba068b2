//! Two sessions, and a network that loses and reorders payloads between them. Standard input has the plan; the run is
//! written to standard output, as a table or as a picture.
#![tactic(auto)]

mod simulation;

use anyhow::Result;
use std::alloc::Global;
use std::io::{self, Read, Write};
use std::process::ExitCode;
use stream_chart::Plan;

/// Runs the plan of the input, and returns the status: 0 if all bytes were delivered as they were written, 2 at a
/// malformed line, 3 if other bytes were delivered, 4 if not all were.
pub fn serve<R: Read + Drop, W: Write>(
    rt: &impl Eprint,
    alloc: Global,
    mut input: R,
    output: &mut W,
) -> Result<u8> {
    let mut bytes = Vec::new(alloc);
    input.read_to_end(&mut bytes)?;
    let text = String::from_utf8_lossy(alloc, bytes.as_slice())?;
    let mut plan = Plan::default();
    for (number, line) in (1..u64::MAX).zip(text.as_str().lines()) {
        if plan.take(line).is_none() {
            writeln!(output, "malformed {number}")?;
            return Ok(2);
        }
    }
    simulation::run(rt, alloc, plan, output)
}

fn main(rt: HostRuntime) -> Result<ExitCode> {
    let status = serve(&rt, rt.alloc(), rt.reader(), &mut io::writer(&rt))?;
    Ok(ExitCode::from(status))
}
