//! Tests of `quic_values` by its public calls.
#![tactic(auto)]

#[cfg(test)]
mod tests;
