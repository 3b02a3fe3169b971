//! Schedules of losses, repeats, faults and crashes, run through shelves and hosts on one network.
//!
//! [`replay`] does all of it: the text of a script comes in, and the text of its run goes out.
//! [`soak`] makes the script of a number, and writes the last line of that text, which says how
//! much happened. Step by step it is this:
//!
//! 1. [`World::new`] makes the stations that a script declares.
//! 2. [`World::step`] runs one event. It adds to the history just what the shelf law, the host law
//!    and the network allow, and each such history keeps the law of what is read. After a step that
//!    is refused every later one is refused for the same reason.
//! 3. [`World::history`] returns what happened, which `print_run` of `aoe_transcript` prints.
//!
//! Time goes by only where an event says so, and nothing is left to chance. A world doesn't read a
//! script's events by itself: its user steps it, and an event can't be taken back.
//!
//! Promised: of each event comes just what its acts make (`Comes`), and every history is lawful and
//! keeps the read law, also where a step is refused: then a beginning came (`ComesSome`), and a
//! full network has no room for the frame that is called for next (`MeetsFull`). `replay` ends as
//! `Replayed` says: with `Ended` the whole source spells a script and the sink took the text of
//! such a run, with `SinkFault` a front of it, else nothing. Where neither fails, a good script is
//! run to its end, or until memory or the network's room is short (`HasRun`). `soak` does so for
//! the stated script.
//!
//! Only tested: the texts of a refusal (world.rt of `aoe_sim_tests`). Worked runs there,
//! `tests/check`, `tests/limits` and `tests/soak` try what the definitions say. Nothing shows that
//! a schedule is one of a real network, nor how long a run takes.
#![tactic(auto)]

mod act;
mod asks;
mod build;
mod end;
mod events;
mod part;
mod place;
mod plan;
mod refusal;
mod schedule;
mod sim;
mod text;
mod whole;
mod world;

pub use end::{ReplayEnd, ReplayLimit};
pub use refusal::WorldRefusal;
pub use whole::{replay, soak};
pub use world::World;
