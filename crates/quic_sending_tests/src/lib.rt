//! Tests of `quic_sending` by its public calls.
#![tactic(auto)]

#[cfg(test)]
mod tests;
