//! Sessions for C: `include/quic_streams.h` declares what is exported here. Each call tests every number that it is
//! handed; what it does to the session is what the call of `quic_session` that it makes does.
#![tactic(auto)]

mod application;
mod buffer_slot;
mod buffers;
mod chunks;
mod codes;
mod connection;
mod datagrams;
mod events;
mod handle;
mod payloads;
mod peer;
mod rooms;
mod slot;
mod stats;
mod users;
mod version;
mod words;
mod write_fin;
