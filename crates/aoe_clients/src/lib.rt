//! Clients that come one after another over connections, and the wait for them: as traits, and in
//! memory.
//!
//! [`Clients`] is a listener and the connection of the one client that it has accepted: `accept`,
//! then `read` and `write` until the client leaves or is closed. None of these waits. [`Bell`] is
//! what a program waits by once none of its sides had anything for it. A program implements both
//! over its sockets; they may tell contracts what passed or tell nothing. [`MemClients`] and
//! [`MemBell`] tell all, and fail where a test says; a [`MemClient`] is a client whose words are
//! known before.
//!
//! There is one client at a time. What a client does is never a fault: it leaves, and the next one
//! is accepted. Nothing here knows what clients say to each other.
//!
//! Promised: `read` and `write` are called only while a client is there, and each `Left` or `close`
//! ends one that was accepted, so no client leaves twice. Bytes come in the order in which the client
//! said them, a write sends a front of its piece, and a call that moves bytes moves one at least. An
//! Err of `accept` raised the count of faults, by one; no other call does. What `MemClients` and
//! `MemBell` answer and leave is exactly `accept_of`, `read_of`, `write_of` and `waited`.
//!
//! Only tested: one conversation with `MemClients` (`aoe_program_tests`, clients). No clause says
//! that a call waits for nothing, or how long a bell waits.
#![tactic(auto)]

mod bell;
mod clients;
mod mem_client;
mod mem_clients;
mod transcript;

pub use bell::{Bell, MemBell};
pub use clients::{Clients, Moved};
pub use mem_client::MemClient;
pub use mem_clients::MemClients;
pub use transcript::MAX_MOVE;
