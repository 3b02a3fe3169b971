//! A shelf in a run: each of its steps, and what it adds to the history.
//!
//! 1. [`SimShelf::new`] makes a shelf without targets, and [`SimShelf::add`] adds one of zeros
//!    with empty lists, over two disks in memory; its keep has the read-only mark where it takes no
//!    writes. Both come before anything happened in the run.
//! 2. [`SimShelf::arm`] makes a later call of a disk fail, or the power be lost in it.
//! 3. [`SimShelf::arrive`] hands a frame to each target in order, and brings each reply into the
//!    network. Where the power is lost in it, the shelf crashes there.
//! 4. [`SimShelf::crash`] takes the power now. The targets are mounted again in the same call.
//!
//! The shelf itself is that of `aoe_shelf`, over stores with a cache or without; this crate records
//! what it does. A crash takes what was in a cache, and leaves the disk under it as it was settled,
//! as long as no more was written since then than the cache has room for, and no call failed. A
//! shelf that lost its power is never down for a time.
//!
//! Promised: a shelf's steps in a run are those of the shelf law, with faults, stops and crashes.
//! Of disks that hold what the history says and are armed so (`Serves`, `IsDue`),
//! [`SimShelf::arrive`] adds what becomes of the frame at each target (`ArriveAtEach`), `arm` the
//! entry of the arming, and `crash` an entry for each target, mounted again with what the mode
//! leaves (`CrashEach`). The history stays lawful, and the disks are what it says. An `arrive` or
//! `crash` that fails added a beginning; "full" comes only for the reply that is called for next,
//! by the limit named (`MeetsFull`).
//!
//! Only tested: nothing. Worked shelves (shelves.rt of `aoe_sim_tests`) try two targets and a stop,
//! and `tests/check` loses power in a flush and in an edit of the lists, by the mode and by the
//! call.
#![tactic(auto)]

mod arrive;
mod crash;
mod seat;
mod shelf;

pub use shelf::{SimShelf, Stops};
