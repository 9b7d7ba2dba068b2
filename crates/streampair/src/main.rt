//! Runs two ends over a network that loses, repeats and reorders: reads steps from standard input,
//! a line each, and prints a reply to each.
#![tactic(auto)]

mod environment;
mod session;
mod streams;

pub use environment::{Environment, StreamFailed};
pub use quic_lines::{hex_bytes, hex_field};
pub use session::{Session, Stop, answer_lines, serve, serve_in};
use std::io;
use std::process::ExitCode;

fn main(rt: HostRuntime) -> ExitCode {
    ExitCode::from(serve(rt.alloc(), rt.reader(), io::writer(&rt)))
}
