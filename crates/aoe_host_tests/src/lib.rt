//! Tests of the host's crates by their public calls: paths, the order and the times of commands, an
//! initiator, reads and writes of any length, and the tools.
//!
//! They stand beside the crates, since a crate with tests inside it is proved once more with them.
//!
//! Promised: nothing of its own. It tries `aoe_paths`, `aoe_hold`, `aoe_flight`, `aoe_initiator`,
//! `aoe_block`, `aoe_tools` and `aoe_copy`, whose contracts say what they promise.
//!
//! Only tested: worked choices of paths and waits, a thousand writes of one sector, tags that rest,
//! repeats on one path and on two, a read whose parts end out of order, tools and copies over links
//! in memory, what they print, and what a watch is told.
#![tactic(auto)]

#[cfg(test)]
mod block;
#[cfg(test)]
mod copies;
#[cfg(test)]
mod flight;
#[cfg(test)]
mod holds;
#[cfg(test)]
mod initiator;
#[cfg(test)]
mod paths;
#[cfg(test)]
mod tools;
