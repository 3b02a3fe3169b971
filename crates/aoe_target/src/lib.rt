//! One device of a shelf: which frames it hears, what it does with each, and what it replies.
//!
//! 1. [`Target::mount`] makes it of its sectors (`aoe_store`) and of a keep with its lists
//!    (`aoe_keep`), and gives it a name, the ports of its shelf and the size of a frame.
//! 2. [`Target::receive`] is handed each frame that comes, for whomever it is. It decides first, by
//!    a [`Verdict`], and then acts on the lists or on the store. [`Heard`] tells what it did, and
//!    the reply is in a frame of the caller's, who sends it.
//! 3. [`Target::sync`] syncs the store, and [`Target::close`] returns store and keep.
//!
//! The contract of `receive` is one line of the shelf law, which is in specs/Law.antt.
//!
//! [`judging`] has what a target judges by, for those who have only the frames of a wire.
//!
//! A target takes no memory. It remembers no request, so that a frame that comes twice is done
//! twice, and it makes no failed call of a disk again: the failure is its reply. It knows no other
//! target of its shelf (`aoe_shelf`), and syncs only for a flush, for a change of the lists, or by
//! `sync`.
//!
//! Promised: the shelf law. Whatever is known of a device (`Holds`), `Allows` has what may become
//! of a frame by its `verdict`, with every byte of a reply, and the device then holds what `after`
//! says (`IsStep`). The store is called only where the verdict says so, and then once; the keep
//! only for a change of the lists. A failure is told only if that disk's count of faults rose. If
//! the writes of the store last, no crash changes the sectors of a write that was done
//! (`TurnsFirm`). `judging` computes the same definitions, and law `a_reply_has_one_effect` says
//! that a reply shows what became of its request.
//!
//! Only tested: whole replies and the order of the checks (`target` of aoe_shelf_tests), each fault
//! of a disk (`serve` there), and 20,000 frames with faults in them beside a model, with the memory
//! of the process (`tests/hostile`). No clause says that a target takes no memory.
#![tactic(auto)]

mod admission;
mod ata;
mod heard;
pub mod judging;
mod reply;
mod scratch;
mod station;
mod target;
mod verdict;

pub use heard::{Effect, Heard};
pub use station::{Station, max_sectors};
pub use target::Target;
pub use verdict::{ListCommand, Verdict};
