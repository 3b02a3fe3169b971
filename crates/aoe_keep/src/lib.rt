//! The lists of a device on a disk of their own, where they outlive a loss of power.
//!
//! 1. [`Keep::mount`] syncs a disk of at least 16 sectors and reads the lists on it, or returns the
//!    disk with a [`MountRefusal`]. A disk of zeros holds empty lists.
//! 2. [`Keep::lists`] returns the present ones.
//! 3. [`Keep::replace`] makes others the present ones, by six device calls. Where one fails the
//!    lists stay, and a crash finds them, the others, or what a crash just before could find.
//! 4. [`Keep::format`] says in which of two formats they are, and [`Keep::upgrade`] writes those of
//!    the first again in the second, which alone is written. Both are read.
//! 5. [`Keep::close`] returns the disk.
//!
//! The first 16 sectors of the disk are two slots of eight. A slot has a gate, its first sector,
//! and behind it a body, which spells lists and a turn. The present lists are behind an open
//! gate, and the next ones are written behind the closed gate of the other slot before that is
//! opened.
//!
//! [`may_hold_keep`] tells zeros and keeps from other data, for a file that a user named.
//!
//! A keep uses no other sectors, takes no memory, and doesn't try a failed call again.
//!
//! Promised, of a disk that shows its contents: after a mounting, and after an Ok `replace`, every
//! crash finds the lists of the keep (`AlwaysFinds`), after `replace` in the second format
//! (`AlwaysFindsFormat`). After a failed call its lists stay, and every crash finds these, the next
//! ones, or what a crash before could find (`FindsOffered`). `mounting` and `replacement` have the
//! calls in their order, and all sectors but 16 stay (`KeepsOthers`). A body is the one spelling of
//! its lists, and reads back: laws `a_body_is_the_one_spelling`, `spelled_lists_are_read`,
//! `unreadable_bodies`.
//!
//! Only tested: bodies of both formats byte by byte, bad bodies, and a stop at each call of
//! `replace` and `upgrade` (`keep` of aoe_shelf_tests); files of a program that is killed or loses
//! power (`tests/kill`, `tests/power-loss`).
#![tactic(auto)]

mod body;
mod content;
mod keep;
mod mount;
mod mounted;
mod place;
mod refusal;

pub use body::{a_body_is_the_one_spelling, spelled_lists_are_read, unreadable_bodies};
pub use content::may_hold_keep;
pub use keep::Keep;
pub use mount::KEEP_SECTORS;
pub use refusal::MountRefusal;
