//! The desk of an NBD server: what stands between the requests of its clients and the operations of
//! a host. It has no link, no clock and no socket.
//!
//! 1. [`Desk::new`] makes it for a device, by how many sectors that has and takes in one command.
//! 2. [`Desk::has_room`] tells whether a request with so many bytes may be taken now. Then
//!    [`Desk::read`], [`Desk::write`], [`Desk::flush`] take one that came whole, and
//!    [`Desk::refuse`] one that was refused.
//! 3. [`Desk::next_op`] gives the next operation, which is submitted to a host (`aoe_initiator`), and
//!    [`Desk::handed`] notes the ticket that it got there. Where there was no memory for it,
//!    [`Desk::give_up`] gives its request up.
//! 4. [`Desk::settle`] is given each command that the host has done.
//! 5. [`Desk::next_reply`] shows the first reply, and [`Desk::reply_written`] takes it away once its
//!    last byte was written.
//! 6. [`Desk::leave`] is told that the client left. What it asked for is carried out, and not
//!    answered.
//!
//! A read or a write is one operation a part, a write that is to last (FUA) has one flush behind
//! them, and FLUSH is one flush. Nothing is left out, joined or asked for twice. Which requests are
//! refused is decided in front of it (`aoe_nbd`), and the bytes of a reply are made behind it.
//!
//! [`Desk::new`] takes the room of 128 requests, and a request the memory of its sectors. Where
//! there is none the request is answered with `NoMemory`, and the others go on.
//!
//! Promised: each call is a function of the desk and of what it is given (specs/Desks, with
//! [`aoe_block::Block`]'s `took` and `settle` for the parts): which operation is next, which request a
//! command that ended belongs to, when a request is finished, and its reply. There are never more
//! than 128 requests, 33,554,432 bytes held for them and 4,096 operations under way, and no two of
//! those have one ticket (`desk_law`). With each handle no more replies are written than requests
//! came (`once_law`). A request without an error had each part read or written and its flush done,
//! and a read gives its parts in order (`done_law`); another error is that of the first operation
//! that failed, or `NoMemory`. A flush is handed behind its parts and behind all operations of the
//! requests before it (`flush_law`).
//!
//! Only tested: that what is taken has memory (`aoe_program_tests`, desk).
#![tactic(auto)]

mod desk;
mod flush;
mod law;
mod reply;
mod request;

pub use desk::{Desk, MAX_OPEN, MAX_ROOM, MAX_UNDER_WAY};
pub use law::{desk_law, done_law, flush_law, once_law};
pub use reply::Reply;
