//! A store that writes to its disk later.
//!
//! A [`Cached`] is a disk as a [`Store`](aoe_store::Store) that holds back what was written to it.
//! Its calls come in this order:
//!
//! 1. [`Cached::mount`] takes a disk and the most sectors that it is to hold back, and all the memory
//!    that it will ever use. Where that can't be had, it returns the disk.
//! 2. `write` puts sectors to the buffer, a hash table by their numbers, which holds each sector once,
//!    as it was last written. As long as they find room this makes no device call. A write that finds
//!    none first writes the whole buffer down, and a write of more sectors than the room goes to the
//!    disk after it.
//! 3. `read` makes one device read and lays what the buffer holds over it.
//! 4. `sync` writes the buffer down, and then syncs the disk. For a writing down the sectors are put in
//!    ascending order, and adjacent ones joined into device writes of up to 64.
//! 5. [`Cached::close`] returns the disk. What the buffer holds is lost, so sync before.
//!
//! A loss of power takes what the buffer holds. What it leaves of a sector that was written since the
//! last sync that was Ok is up to the disk, and every other sector is as the store showed it.
//! [`Cached::crash`] is such a loss over a disk in memory: it returns the store mounted again on what is
//! left, with nothing in its buffer and with all its room.
//!
//! A device write that fails doesn't hold back those after it: its sectors stay in the buffer, and
//! all others are written and leave it. The call that made it fails, and the next call that writes
//! down tries what stays again. A sync doesn't sync the disk in that case, and a write that wanted
//! the room puts nothing. What stays is still read.
//!
//! It writes nothing by itself: no timer and no share of the room that is full does. It doesn't sync
//! when it is closed or let go of. It doesn't read ahead, and keeps nothing that was only read.
//!
//! [`AnyStore`] is a [`Direct`](aoe_store::Direct) or a [`Cached`] store, for a program that is told
//! which when it starts: [`AnyStore::over`] makes one of a disk and the number to hold back, if any.
//!
//! Promised: the calls are those of a store over `seen`: the disk with the held sectors laid over
//! it, which are loose there. A read is one device read (`CacheReads`). A write that finds room
//! makes no device call, any other first writes the buffer down (`CacheWrites`): in ascending
//! order, adjacent sectors joined up to 64, and only what failed stays (`WritesDown`). The disk is
//! synced only after all was written (`CacheSyncs`). `close` and `crash` find each sector that
//! isn't loose in the store on the disk, as it was shown (`KeepsSettled`). `AnyStore` says the same
//! of a cached store (`StaysWith`).
//!
//! Only tested: the device calls of worked writes and failures, over both stores (`cache` of
//! aoe_shelf_tests), and a loss of power in a flush (`serve` there). Neither a clause nor a test
//! says that no call after the mounting takes memory.
#![tactic(auto)]

mod any;
mod buffer;
mod cached;
mod place;
mod write_behind;

pub use any::AnyStore;
pub use cached::Cached;
