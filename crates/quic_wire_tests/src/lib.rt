//! Tests of `quic_wire` by its public calls.
#![tactic(auto)]

#[cfg(test)]
mod tests;
