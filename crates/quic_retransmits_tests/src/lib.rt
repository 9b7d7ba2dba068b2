//! Tests of `quic_retransmits` by its public calls.
#![tactic(auto)]

#[cfg(test)]
mod tests;
