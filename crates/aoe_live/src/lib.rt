//! A shelf and a host of one process over two links, recorded as a script.
//!
//! [`live`] lets a host write, read and flush a device over two links, until each of its commands
//! has its outcome, and returns the script of what happened: when a command was submitted, when time
//! went by, and which frame came to whom.
//!
//! ```text
//!  host -- two ....... links ....... one -- shelf
//! ```
//!
//! The host and the shelf are those of a `World` (`aoe_world`). Each line that is recorded is a step
//! of it; the frames that the step brings into the history go out on the links, and what comes from
//! the links says which line is the next.
//!
//! It prints no transcript and opens nothing: `replay` of `aoe_world` runs the script again, and the
//! program opens the links.
//!
//! Promised: a script that [`live`] returns has the stated stations and the lines of its turns, in
//! order (`Lives`, `Came`); its text reads back and isn't refused. A history follows those lines,
//! is lawful and keeps the read law, and its frames are what the links took. Each command and the
//! flush after them was submitted in order and has its outcome (`Finished`). A refusal says what
//! came until then (too many quiet turns, a command given up, no room or no memory for a line), or
//! names a link whose count of faults rose. This is of links and clocks that show what they do.
//!
//! Only tested: that a replay of a recorded script finishes all commands, over links in memory
//! (live.rt of `aoe_sim_tests`) and over a network that loses and reorders frames
//! (`tests/live-network`); the texts of a refusal. Not that a replay can have no other history.
#![tactic(auto)]

mod command;
mod frames;
mod recorder;
mod refusal;
mod stations;
mod tally;
mod turn;
mod whole;

pub use refusal::LiveRefusal;
pub use whole::live;
