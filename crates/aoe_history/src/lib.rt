//! Histories of hosts and shelves on one network, and the laws that they keep.
//!
//! A [`History`] has an [`Entry`] for each thing that happened, in order. What its entries say of
//! times, frames, sectors and commands, which entry may come next by the shelf law, the host law
//! and the network, and what a host may then read of a sector, is in specs/. That every lawful
//! history keeps the law of what is read is [`read_law`].
//!
//! A [`Run`] is a history under way: its clock, the frames that are in its network, and all that
//! happened.
//!
//! 1. [`Run::new`] makes one in which nothing happened.
//! 2. `send`, `inject` and `reply` each record an entry and bring its frame into the network, both
//!    or neither; `tick` lets time go by; `note` records what sends no frame and takes no time.
//! 3. `fetch` returns a frame by its number, as long as it can be handed over.
//! 4. `history` returns what happened so far.
//!
//! A run doesn't look whether an entry is lawful: that is proved where it is recorded
//! (`aoe_sim_hosts`, `aoe_sim_shelves`, `aoe_world`). It has no stations, and prints nothing
//! (`aoe_transcript`).
//!
//! Promised: a lawful history of an `IsSetup` (`IsLawful`: each entry `MayCome`) keeps the read
//! law, `HasReadLaw` ([`read_law`]). In it a host's commands keep their order and tags, its frames
//! are those of its commands, and of its writes of a sector one at most is under way
//! (`host_commands_law`, `host_frames_law`, `host_writes_law`). A target does what a request asks,
//! and its response tells what it did (`requests_are_understood`, `responses_tell_truly`). Worked
//! histories are lawful; what wrong hosts, shelves and networks would do may not come. A call of a
//! [`Run`] records an entry and its frame, or leaves the run as it was.
//!
//! Only tested: nothing. The order of a history's entries is tried too (history.rt of
//! `aoe_sim_tests`), and whole runs by `tests/check`.
#![tactic(auto)]

mod boxed;
mod cases;
mod commands;
mod conversation;
mod entry;
mod history;
mod reading;
mod run;

pub use boxed::Boxed;
pub use cases::{
    worked_histories, worked_values, wrong_hosts, wrong_networks, wrong_paths, wrong_shelves,
};
pub use commands::{host_commands_law, host_frames_law, host_writes_law};
pub use conversation::{requests_are_understood, responses_tell_truly};
pub use entry::{Entry, Fate};
pub use history::History;
pub use reading::read_law;
pub use run::Run;
