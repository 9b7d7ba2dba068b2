//! Two ends and what was sent between them, as values: the step of each call, the history of a pair, and what follows from it.
#![tactic(auto)]

pub mod early;
pub mod phase;
pub mod places;
pub mod replies;
pub mod sent;
pub mod unsettled;
