//! What an owner does with a keep while no shelf runs over it, and with the disks of a mirror.
//!
//! [`show`] writes a line with the lists that a keep holds and the number of their format. [`upgrade`]
//! writes the lists again where they are in an older format, [`mark`] sets or clears the mark by which
//! a shelf refuses writes, [`clear`] empties the config string or a list, and [`create`] all of
//! them, also on a disk that holds none yet. Each mounts the keep first, and returns its disk; where the mounting is refused, or a later call fails, the answer is
//! an [`UpkeepStop`]. [`compare`] reads both sides of a mirror and writes which sectors differ, or ends
//! with a [`CompareStop`].
//!
//! It opens no file, and it doesn't try a failed call again.
//!
//! Promised: `show` writes `line` of the lists and the format that are on the disk, and changes no
//! sector (`Shows`). After Ok of `upgrade`, `mark`, `clear` or `create` every crash finds the lists and the format
//! that the change makes, and where nothing is new no call follows the mounting; after a failed
//! call every crash finds the lists from before or the changed ones (`Changes`). All sectors but 16
//! stay as they were. A keep is refused for its causes alone, and a disk is told to have failed
//! only if its count of faults rose (`IsCaused`). `compare` writes what the mark disk says and the
//! greatest runs of sectors that differ, all of that text or a front of it, changes no sector, reads a
//! side by one call for each 64 sectors (`Reports`), and ends before that only by a cause (`Refuses`).
//!
//! Only tested: each call that fails (`tests/adapters`), images of losses of power in each action
//! (`tests/power-loss`), and what is printed (`tests/check`); worked texts of `compare`, and each of its
//! stops but want of memory (`compare` of aoe_shelf_tests).
#![tactic(auto)]

mod change;
mod scan;
mod shown;
mod sides;
mod stop;

pub use change::{Part, clear, create, mark, upgrade};
pub use shown::show;
pub use sides::compare;
pub use stop::{CompareStop, UpkeepStop};
