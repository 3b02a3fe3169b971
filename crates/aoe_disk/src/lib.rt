//! A disk of sectors: what its calls do, how they fail, and what a loss of power leaves of it.
//!
//! [`Disk`] is the device that every layer above is built on: `read` and `write` whole sectors, and
//! `sync`: after one that is Ok a loss of power changes nothing that was written before. [`Armed`]
//! is one whose failures can be planned, and [`MemDisk`] one in memory, which schedules and tests
//! run over:
//!
//! 1. [`MemDisk::new`] or [`MemDisk::of`] makes it. No later call takes memory.
//! 2. `fail_at`, `stop_at` or `arm` plans a failure, in place of the one planned before.
//! 3. [`MemDisk::crash`] takes the power, and returns the disk as a [`Loss`] leaves it.
//!
//! A failed call isn't made again. A disk keeps no order among writes that weren't synced.
//!
//! Promised: each call of a `Disk` does what `Reads`, `WritesTo` and `SyncsTo` say, also where it
//! fails: an Ok write puts its piece and marks its sectors loose, an Ok sync leaves none loose, a
//! failed write may leave any bytes in its own sectors, and a failed sync changes no bytes. A crash
//! changes loose sectors only (`CanLeave`), and `MemDisk::crash` each of them as its `Loss` says
//! (`IsLeft`). An armed disk that tells its schedule fails the calls that it is armed for and no
//! other (`armed_calls_fail`). A failed call raised the count of faults.
//!
//! Only tested: examples of stops and of losses of power (`aoe_shelf_tests`, disk). That a file of
//! the system keeps to this model isn't shown; tests/adapters and tests/power-loss try the program
//! over files.
#![tactic(auto)]

mod armed;
mod bytes;
mod disk;
mod loss;
mod memory;
mod meter;

pub use armed::{Arm, Armed, armed_calls_fail};
pub use disk::Disk;
pub use loss::Loss;
pub use memory::MemDisk;
