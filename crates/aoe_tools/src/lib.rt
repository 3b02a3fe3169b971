//! Tools that ask the devices of a network, over a link and a clock (`aoe_io`).
//!
//! Each tool is one call with an [`Ask`], which says who asks and how many turns a request has.
//!
//! - [`discover`] gives the devices that answer, and [`stat`] asks each of them for its size and
//!   state.
//! - [`cfg`], [`mask`] and [`reserve`] read or change the config string and the lists of one
//!   device, and give the arguments of its response. Unless it is asked for anyway, `mask` reads the list
//!   before an edit, and sends none that shuts out its own port or adds the address of a group.
//! - [`look_up`] finds the device that a copy goes to: where it is, how many sectors a command to it
//!   has at most, how many sectors there are, and by which command it is flushed
//!   ([`flush_command`] of its page). Each of its two requests has 300 turns at most.
//! - [`print_found`], [`print_stat`], [`print_config`], [`print_masks`] and [`print_reserves`] then
//!   make the text of an answer. A refusal has the exit status and the text of the program (`code`,
//!   `text`); two of a [`Refusal`]'s kinds, of a range and of a sector that differs, are those of a
//!   copy, and two, of a port that is locked out and of a group, those of `mask` itself.
//!
//! A turn of a request is one of the link that brings no frame, or 64 that bring one: so answers to
//! other requests end no wait before its time, and no flood of frames goes on for ever. The request is
//! sent at first and after every ten of its turns.
//!
//! A tool keeps nothing from one call to the next. It opens no socket and doesn't wait by itself: a
//! turn of the link lasts as long as its `recv`.
//!
//! Promised: unless link or memory fails, what a tool asks, which responses count (`counted`), when
//! it ends and what it returns are functions of its turns (`AsksOne`, `Discovers`, `Stats`,
//! `Finds`). `mask` sends an edit unless the list that it read holds it back (`EditsGuarded`,
//! `held_back`), judged by the list that a shelf makes of it ([`edits_as_a_shelf`]). Whatever comes, a
//! request has at most 64 turns of the link for each that it may wait ([`requests_end`]). Texts and
//! statuses are those of the definitions (`found_text`, `text_of`, `code_of`).
//!
//! Only tested: the tools over datagrams (`tests/tools`) and beside vblade
//! (`tests/against-vblade`). `aoe_host_tests` (`tools`) has worked runs over links in memory.
#![tactic(auto)]

mod asking;
mod end;
mod finding;
mod found;
mod guard;
mod lists;
mod lookup;
mod page;
mod question;
mod request;
mod text;
mod visiting;
mod wait;

pub use end::{Refusal, ToolRefusal};
pub use finding::discover;
pub use found::{Found, Seen, State};
pub use guard::edits_as_a_shelf;
pub use lists::{cfg, mask, reserve};
pub use lookup::{Device, look_up};
pub use page::flush_command;
pub use question::Ask;
pub use text::{print_config, print_found, print_masks, print_reserves, print_stat};
pub use visiting::stat;
pub use wait::requests_end;
