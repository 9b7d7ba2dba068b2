//! Tests of `quic_limits` by its public calls.
#![tactic(auto)]

#[cfg(test)]
mod tests;
