//! Commands in flight, those of a host that were sent: their tags, which of them are due to be sent
//! again, and which are given up.
//!
//! `Flight::new` makes the room. `launch` notes a first send and gives it a tag, `due` gives the
//! command that is to be sent again, which `repeat` notes; a response is found by `match_tag`, and
//! `finish` ends its command, whose tag stays taken until no response to it can arrive. `expired`
//! gives a command that was waited for too long. `times` says from when on there is something to
//! do, and `next_flying` walks over the commands that fly.
//!
//! It doesn't know what the commands ask, nor to which device they go: a command is its ticket.
//!
//! Promised: `launch` gives the first tag after the last one that no flying or resting command has
//! (`IsNextTag`), so no two of them have one tag, and it refuses only where `room` of them fly or
//! rest. A finished command rests after its last send for the sum of both lifetimes (`rest_time`).
//! `due` returns the flying command that was due first, `expired` the one with the lowest ticket
//! that flew for too long, `match_tag` the one with a tag. These and `is_full` answer by all
//! commands that were sent (`Recalls`), and so do `times`, whose times are exact, and `next_flying`.
//! `due` counts one look at a command, so do `next_flying` and `expired` where it returns nothing,
//! and `times` counts three at most.
//!
//! Only tested: nothing. `aoe_host_tests` (`flight`) has worked waits and rests. What a counted
//! look does inside its module is read off the code.
#![tactic(auto)]

mod counted;
mod flight;
mod order;
mod outstanding;
mod search;
mod table;

pub use flight::{Flight, Times};
pub use outstanding::{Flying, Outstanding};
