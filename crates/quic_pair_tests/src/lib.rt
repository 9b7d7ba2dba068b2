//! Tests of `quic_pair` by its public calls.
#![tactic(auto)]

#[cfg(test)]
mod tests;
