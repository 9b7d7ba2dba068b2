//! Tests of `quic_datagrams` by its public calls.
#![tactic(auto)]

#[cfg(test)]
mod tests;
