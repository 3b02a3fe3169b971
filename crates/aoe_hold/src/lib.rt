//! Hazard ordering: which commands of one host at one device may be sent for the first time, and
//! which have to wait for earlier ones.
//!
//! `Holds::new` makes the table of a device. A command is told to it by `enter`, by `sent` with
//! each of its frames, and by `finished` when it has its outcome; `next_clear` gives the command
//! that may be sent next, and changes nothing of it.
//!
//! A command waits for each earlier one in conflict with it until that is finished, and, where it
//! writes, flushes or edits, until no frame of an earlier write or edit in conflict can arrive any
//! more: a frame that the network kept would undo it. What a table doesn't know is which commands
//! are due again, which tags they have, and how many may be in flight: that is `aoe_flight`.
//!
//! Promised: `next_clear` returns the lowest ticket of the commands that are clear, or nothing
//! where none is, by all commands that were entered, though the table has dropped some
//! (`clear_tickets`, `Recalls`). Clear is just what `IsClear` says (`clear_law`): never sent, each
//! earlier command in conflict finished, and, where it writes, flushes or edits, no frame of an
//! earlier write or edit in conflict can arrive. `enter`, `sent` and `finished` change what
//! `with_command`, `after_send` and `after_finish` say, and a refused `enter` changes nothing.
//! The looks of `next_clear` and `enter_counted` at commands are bounded (`looks_back`).
//!
//! Only tested: nothing. `aoe_host_tests` (`holds`) enters a thousand writes of one sector. What a
//! counted look does inside its module is read off the code, and no clause bounds the looks of
//! `sent` and `finished`.
#![tactic(auto)]

mod command;
mod extent;
mod held;
mod holds;
mod keeper;
mod keys;
mod law;
mod queue;

pub use command::{Command, Kind, Stage};
pub use holds::Holds;
pub use law::clear_law;
