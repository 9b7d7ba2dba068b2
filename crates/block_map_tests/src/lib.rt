//! Tests of `block_map` by its public calls.
#![tactic(auto)]

#[cfg(test)]
mod tests;
