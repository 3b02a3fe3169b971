//! Tests of the simulator's crates by their public calls: a network, scripts, histories and their texts,
//! hosts and shelves over a network, a world, and runs over links.
//!
//! They are beside the crates, since a crate with tests inside it is proved once more with them.
//!
//! Promised: nothing of its own. The contracts that are tried are those of the crates named.
//!
//! Only tested, by examples: frames within their lifetimes, bad lines by their causes, worked
//! scripts, runs and summaries, one end of a command, two targets and a stop, a recorded script
//! that is replayed, and the texts of refusals.
#![tactic(auto)]

#[cfg(test)]
mod checks;
#[cfg(test)]
mod history;
#[cfg(test)]
mod hosts;
#[cfg(test)]
mod live;
#[cfg(test)]
mod net;
#[cfg(test)]
mod script;
#[cfg(test)]
mod shelves;
#[cfg(test)]
mod soak;
#[cfg(test)]
mod transcript;
#[cfg(test)]
mod world;
