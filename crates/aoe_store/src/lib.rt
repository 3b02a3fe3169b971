//! The sectors that a target exports.
//!
//! [`Store`] is what a target is built on, with the calls of a disk; [`ArmedStore`] one whose
//! failures can be planned. [`Direct::new`] makes a disk a store, call for call, and
//! [`Direct::close`] returns it. [`Durable::new`] makes a store one whose writes last: it syncs
//! after each write that is Ok. A store that writes later is in `aoe_cache`.
//!
//! A store tells its sectors and no calls: a write may reach the disk later, but a sync that is Ok
//! has brought all of them there.
//!
//! Promised: a `Store` reads and syncs as a disk does; its write is `StoresTo`, after which, if it
//! failed, a sector of it that isn't loose is as it was, or `LastsTo` where writes last. Over
//! `Direct` it is the disk's own write (`WritesTo`). A write of `Durable` is a write and, if that
//! is Ok, a sync (`WritesAndSyncs`); if both are Ok, it is in its sectors and none of them is
//! loose, so no crash changes it (`LastsTo`). What a store that writes later does to its disk is
//! `Under`: a sync that is Ok has brought there what it showed.
//!
//! Only tested: that `Direct` calls its disk once (`aoe_shelf_tests`, store); durable writes over
//! images of losses of power (tests/power-loss). No clause says what a durable write costs.
#![tactic(auto)]

mod direct;
mod durable;
mod store;

pub use direct::Direct;
pub use durable::Durable;
pub use store::{ArmedStore, Store};
