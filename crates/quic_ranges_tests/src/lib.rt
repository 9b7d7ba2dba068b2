//! Tests of `quic_ranges` by its public calls.
#![tactic(auto)]

#[cfg(test)]
mod tests;
