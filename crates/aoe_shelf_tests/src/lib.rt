//! Tests of the shelf's crates by their public calls: lists, a disk, a store, a cache, a mirror and the
//! comparison of its sides, a keep, a target, a shelf, an audit of its wire, and the loops that serve it.
//!
//! They stand beside the crates, since a crate with tests inside it is proved once more with them.
//!
//! Promised: nothing of its own. It tries `aoe_lists`, `aoe_disk`, `aoe_store`, `aoe_cache`,
//! `aoe_mirror`, `aoe_keep`, `aoe_target`, `aoe_shelf`, `aoe_audit`, `aoe_serve`,
//! `aoe_pcap_audit` and `compare` of `aoe_upkeep`.
//!
//! Only tested: whole replies, device calls of worked writes, a loss of power at calls of a keep
//! and in a flush, a mirror whose sides fail in turn, what
//! a mark disk says by what is named, worked exchanges for an audit, and each call
//! of a source, sink, link and disk that fails.
#![tactic(auto)]

#[cfg(test)]
mod audit;
#[cfg(test)]
mod cache;
#[cfg(test)]
mod compare;
#[cfg(test)]
mod disk;
#[cfg(test)]
mod keep;
#[cfg(test)]
mod lists;
#[cfg(test)]
mod mark;
#[cfg(test)]
mod mirror;
#[cfg(test)]
mod serve;
#[cfg(test)]
mod shelf;
#[cfg(test)]
mod store;
#[cfg(test)]
mod target;
