//! One host at one device: its turns over a link, and reads and writes of any length as commands
//! that the device takes.
//!
//! [`attach`] makes a host (`aoe_initiator`) that is attached to one device, [`DEVICE`], at one port.
//! In each turn of a job the host is told the time (`advance`), its outcomes are taken and commands
//! submitted, and then [`exchange`] sends the frames that are due, up to a number, and takes one
//! turn of the link (`aoe_io`). What such a job did is one list of steps (specs/Steps): the law of
//! the job says which commands come, and which steps of its own. `aoe_copy` has two such jobs.
//!
//! A device says how many sectors a command may have. A `Block` cuts a range of sectors into parts of
//! that many, hands them out as operations, and puts together what came of them.
//!
//! 1. `Block::read` or `Block::write` makes it of a range within the device.
//! 2. `pending` gives the next part's operation, which is submitted to a host (`aoe_initiator`),
//!    and `handed` notes the ticket that it got there. A part may be handed while others are under
//!    way.
//! 3. `take` is given each command that the host has done: it tells whether the command was a part,
//!    whether that part failed, and with which part the whole block is done.
//! 4. `into_bytes` gives the sectors of a read.
//!
//! ```text
//! let mut block = Block::read(alloc, total, max, at, count)?;
//! while let Some(op) = block.pending()? {
//!     let ticket = host.submit(device, op)?;
//!     block.handed(ticket);
//! }
//! // frames go and come
//! while let Some(done) = host.take_done() {
//!     match block.take(done) {
//!         Took::NotMine(done) => /* another command of the host */
//!         Took::More => {}
//!         Took::Whole => return Ok(block.into_bytes()),
//!         Took::Part(outcome) => /* what became of the part */
//!     }
//! }
//! ```
//!
//! Making a block takes the memory that it needs, and `pending` takes a copy of the part's bytes
//! where it is written. The other calls take none. A part isn't asked for again: a block of which
//! one failed never becomes whole, and its other parts can still end.
//!
//! Neither part looks at a clock by itself, and nothing is done again that failed: after a fault of
//! the link `exchange` has sent some of the frames.
//!
//! Promised: `exchange` sends what the host law allows next, as many frames as are due but no more
//! than asked for, and then takes one turn of the link (`Exchanges`). With no more than
//! 4,294,967,295 commands each has a tag from 1 to their number (`AreTagged`). The parts of a block
//! are its range in order, each of as many sectors as a command may have, but for the last
//! (`IsCut`); `OutOfRange` comes exactly for a range that isn't within the device. `pending` returns
//! the first part that wasn't handed, which a host doesn't refuse for its sectors (`op_refusal`).
//! `take` answers `took`, `into_bytes` returns all parts in order, and a block of which a part
//! failed never becomes whole (`broken_law`).
//!
//! Only tested: nothing. `aoe_host_tests` (`block`, `copies`) has a read whose parts end out of
//! order, ranges within a device and past its end, and copies over links in memory.
#![tactic(auto)]

mod block;
mod law;
mod link;
mod refusal;
mod stage;
mod steps;
mod took;

pub use block::{Block, MAX_PART, MAX_SECTORS};
pub use law::{broken_law, operations_law, outcome_law, ticket_law};
pub use link::{DEVICE, attach, exchange};
pub use refusal::BlockRefusal;
pub use took::Took;
