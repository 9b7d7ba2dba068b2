//! Tests of `quic_receiving` by its public calls.
#![tactic(auto)]

#[cfg(test)]
mod tests;
