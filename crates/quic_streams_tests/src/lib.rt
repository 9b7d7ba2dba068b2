//! Tests of `quic_streams` by the public calls that the library for C does not make.
#![tactic(auto)]

#[cfg(test)]
mod tests;
