//! The loop of an NBD server: clients on one side, a host at one device on the other.
//!
//! [`serve`] goes turn by turn over a link, a clock, clients and a bell. In a turn the host is told the
//! time and its outcomes are taken; replies are written and requests read, as far as the client takes
//! and gives any; operations are submitted, once no frame of an earlier run can come any more; frames
//! are sent within the window, and those that came are taken. Where a turn did nothing it waits by the
//! bell, until the host or the client may have something. Ten times a second at most it asks an
//! [`Ending`] whether to end.
//!
//! Every part of a turn is bounded, so no side keeps another waiting. One client is served at a time;
//! what one that left has under way is carried out, and not answered. Once the end is asked for nothing
//! more is read; when all that is open has its outcome a last flush is submitted, if one is wanted.
//!
//! Promised: what a run does is a list of steps that may come (`IsServed`, `MayCome`), of which link,
//! clock, clients, bell and [`Ending`] tell. The commands are the desk's operations in their order, with
//! the tickets 1, 2, 3 and so on, none before the quarantine is over, and the last flush behind all.
//! Each outcome is given to the desk once, in order, and the desk's calls are a run of it (`IsRun`), of
//! which the laws of `aoe_desk` hold. A client is accepted where none is there, nothing of an earlier one
//! will be answered, and the end isn't asked for. `Ended` says that no client is there, nothing is open,
//! and what was written is flushed, where flushes are announced. At most 128 frames are sent in a turn. A
//! fault is told exactly where the link or the listener failed.
//!
//! Only tested: the window ([`MOST_COMMANDS`], [`MOST_SECTORS`]), how long waits last, and that
//! requests are answered at all (`aoe_program_tests`, nbd_serve).
#![tactic(auto)]

mod answer;
mod conversation;
mod guest;
mod input;
mod phase;
mod replies;
mod requests;
mod run;
mod serving;
mod terms;
mod turn;
mod window;

pub use conversation::Conversation;
pub use phase::Ended;
pub use run::serve;
pub use terms::{Asked, Ending, ServeEnd, Served, Terms};
pub use window::{MOST_COMMANDS, MOST_SECTORS};
