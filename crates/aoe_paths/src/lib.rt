//! The paths between a host and a device: one for each pair of a local and a remote port. The crate
//! says which is taken next, and how long an answer on it is waited for.
//!
//! 1. [`Paths::new`] makes all paths between two lists of ports, and takes all the memory.
//! 2. [`Paths::choose`] gives the path of the next frame, and [`Paths::pair`] its two ports;
//!    [`Paths::timeout`] says how long an answer is waited for.
//! 3. [`Paths::missed`] marks a path on which none came. [`Paths::answered`] takes the mark away,
//!    and counts the round trip where it is known.
//!
//! It has no clock and sends nothing: `aoe_initiator` tells it what happened.
//!
//! Promised: `choose` returns the first path without a mark, in cyclic order after the path chosen
//! last, and the very next one where all are marked (`next_path`). `timeout` is 1000 ms for a path
//! without a round trip, else four times the greatest of its last eight, from 100 to 60,000 ms
//! (`timeout_of`). Both answer as all that happened on the paths asks for (`Recalls`, `next_of`,
//! `timeout_on`). `missed` and `answered` change the mark and the trips of one path, and `find`
//! finds the one path of two ports, or none where no path has them.
//!
//! Only tested: nothing. `aoe_host_tests` (`paths`) has worked choices and waits. That no call but
//! `new` takes memory is neither promised nor tested.
#![tactic(auto)]

mod path;
mod paths;

pub use path::{FIRST_TIMEOUT, KEPT_TRIPS, MAX_TIMEOUT, MIN_TIMEOUT, TRIPS_PER_TIMEOUT};
pub use paths::Paths;
