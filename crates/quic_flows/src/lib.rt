//! What calls tell of the sending side of one stream, as values, and that its half is so.
#![tactic(auto)]
