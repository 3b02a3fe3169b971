//! What the clients of an NBD server read, and what of theirs outlives a loss of power: laws over
//! histories (`aoe_history`). There is no code here, and no crate of the program stands on it.
//!
//! In words for a user of `aoe nbd`, of a sector that nobody else writes:
//!
//! 1. A READ gives what the last WRITE wrote that was answered before the READ came, or what was
//!    written later.
//! 2. What was written before a FLUSH came (or a WRITE with FUA) outlives a loss of power of the shelf
//!    once that is answered, until it is written again.
//!
//! How the two are put together, lowest first:
//!
//! - [`ordered_reads_law`], [`flushed_sectors_law`]: what a history says of a host's reads and flushes
//!   by the order in which its commands were submitted, that is, by their tickets.
//! - [`requests_law`]: what a reply of a desk (`aoe_desk`) without an error says of the commands that
//!   were submitted for its request.
//! - [`client_law`]: both, for a run of `aoe_nbd_serve::serve` and a history of the host that it ran.
//!
//! Premises of [`client_law`], all in `IsHostOf` (specs/Clients) and in its own words: the history is
//! lawful (`IsLawful`), so the shelf keeps the shelf law, the host the host law, and no frame is handed
//! over after its lifetime, which is the host's `--lifetime`; the host is attached to the one target;
//! what it did is the log of the run's steps (`IsServed` of `aoe_nbd_serve` gives the steps), with the
//! same outcomes. The sector is one in which the host is `alone`: only its frames ever stored anything
//! there. A read promises something where the sector `is_sure`: a write that failed at the shelf, or a
//! crash before a flush, leaves a sector in doubt until a write of it is acknowledged, and AoE tells
//! nobody of that.
//!
//! Promised: a reply without an error answers a request that came, each sector of which was read or
//! written, and whose flush was done, by commands that were submitted behind it (`Answers`). A READ
//! gives the value that a WRITE gave the sector which was answered before the READ came, or that of a
//! command behind it and before the READ's own (`IsReadBehind`). Behind a flush no crash changes what
//! may be read of a sector, and none leaves it in doubt, until a write that was submitted behind the
//! flush is sent (`OutlivesCrashes`).
//!
//! Only tested: that what is answered is sent (`aoe_nbd_serve`), and that a shelf and a network are
//! such (`tests/nbd`, `tests/nbd-guest`).
#![tactic(auto)]

mod clients;
mod ordered;
mod requests;

pub use clients::client_law;
pub use ordered::{flushed_sectors_law, ordered_reads_law};
pub use requests::requests_law;
