//! Two ends of a connection, and the network between them: what each may do, and what holds whatever they do.
#![tactic(auto)]

ghost use Rattle.quic_link.specs.Endpoints.{LinkedEnd, Linked};
ghost use Rattle.quic_link.specs.Promises.{Promises};

/// Whatever two linked ends did, and whatever the network lost, repeated or reordered, what each of them wrote is true
/// and welcome to the other, what each is told is true, and nothing that was kept is withheld.
pub fn linked_ends_promise()
    ensures { (x y : LinkedEnd) → Linked x y → Promises x y × Promises y x }
{}
