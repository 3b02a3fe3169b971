//! A shelf: up to 16 targets behind one set of ports.
//!
//! 1. [`Shelf::new`] makes a shelf without targets, and takes all the memory that it will ever use.
//! 2. [`Shelf::add`] puts a target into the next slot, with its sectors (`aoe_store`) and its keep
//!    (`aoe_keep`). Where there are 16, or one has its minor, both are returned.
//! 3. [`Shelf::receive_slot`] hands a frame to one slot. A frame can be for several targets, so its
//!    user hands it to each slot in order, and sends each reply before it asks the next.
//! 4. [`Shelf::sync_slot`] syncs the sectors of a slot, and [`Shelf::take_last`] returns those of
//!    the last target, with its keep.
//!
//! What a target does with a frame is in `aoe_target`, and the loops that carry frames to all slots
//! are in `aoe_serve`. A shelf opens no file, and doesn't sync by itself when it ends. The calls
//! that arm a disk are for tests and for the simulator.
//!
//! Promised: `receive_slot`, `sync_slot`, `arm_store` and `arm_keep` change the target of their
//! slot alone (`ChangesAt`), and `receive_slot` does there what `Target::receive` promises
//! (`Receives`). `add` puts a target behind the others; it refuses exactly where there are 16 or
//! one has the minor (`refusal_of`), and then returns store and keep and leaves the shelf as it
//! was. `take_last` takes the last target alone, and returns its store and its keep (`TakesLast`).
//!
//! Only tested: a full shelf, each refusal, and a stop of one target (`shelf` of aoe_shelf_tests).
//! That `new` takes all the memory neither a clause nor a test says.
#![tactic(auto)]

mod refusal;
mod shelf;

pub use refusal::ShelfRefusal;
pub use shelf::{MAX_TARGETS, Shelf};
