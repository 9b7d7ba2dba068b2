//! Tests of `quic_assembler` by its public calls.
#![tactic(auto)]

#[cfg(test)]
mod tests;
