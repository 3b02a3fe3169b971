//! A host in a run: each of its steps, and what it adds to the history.
//!
//! 1. [`SimHost::new`] makes a host without devices, and [`SimHost::attach`] tells it of one.
//!    Both come before anything happened in the run.
//! 2. [`SimHost::submit`] asks it for a command, and [`SimHost::take`] hands it a frame.
//! 3. [`SimHost::turn`] follows each act of the run, whether it was this host's or not: the clock
//!    goes on, outcomes are told, and frames are sent until none may be.
//!
//! The host itself is that of `aoe_initiator`; this crate records what it does. It doesn't choose
//! which frames come to a host, or when: that is `aoe_world`.
//!
//! Promised: a host's steps in a run are those of the host law. Of a host that is what the history
//! says of it (`IsSettled`), [`SimHost::submit`] adds the entry `submitted_as`, and `take` the
//! entry of the frame (`Takes`); after an act (`Awaits`), `turn` adds all of its turn (`Turn`):
//! outcomes in order, then frames until none may be sent. The history stays lawful, and after its
//! turn the host is settled. Without memory `submit` and `take` add nothing. A turn that fails
//! added a beginning (`TurnSome`), and "full" comes only for the frame that is called for next, by
//! the limit named (`MeetsFull`).
//!
//! Only tested: nothing. Two worked courses (hosts.rt of `aoe_sim_tests`) try that a second
//! response is stale and that an empty read is refused. No clause says what a host is after a turn
//! that failed.
#![tactic(auto)]

mod copies;
mod host;
mod turn;

pub use host::SimHost;
