//! Scripts: schedules of what hosts ask, of frames that are handed over, repeated or lost, and of
//! faults and crashes.
//!
//! 1. [`read_script`] makes a [`Script`] of a text, or tells its first bad line and why that is bad
//!    ([`Why`]). [`read_line`] tells what one line says, whatever is before it.
//! 2. `Script::push` adds an [`Event`] at the end, where nothing is wrong with it there.
//! 3. `Script::setup` and `Script::event` return the lines by their places, from 0.
//! 4. [`print_script`] returns the one text of a script, from which it can be read again.
//!
//! No line of a `Script` is bad: what it names is declared, and its numbers are in their ranges. A
//! setup line can't be pushed, so a script that is made by `push` begins with the text of its setup
//! lines. The public modules `cuts` and `spelling` cut texts and spell their parts, for transcripts
//! too.
//!
//! It runs nothing: that is `aoe_world`.
//!
//! Promised: a line says what `line_of` says, whatever is before it. `read_script` returns the
//! script that a text spells (`script_of`), or the first cause by which it is refused (`refusal`);
//! it lacks memory only at a line before which nothing is wrong (`IsWanting`). `declare` and `push`
//! add a line with which nothing is wrong (`setup_why`, `event_why`) where there is room, or leave
//! the script as it was. Each `Script` is an `IsScript`. It has one text, `script_text`, which
//! reads back and is refused for nothing but its length (`printed_script_reads_back`,
//! `printed_line_reads_back`).
//!
//! Only tested: the texts of a refusal. A table of bad lines, pushed events and printed scripts
//! (script.rt of `aoe_sim_tests`) and the bad lines of `tests/check` try what the definitions say.
#![tactic(auto)]

mod classes;
pub mod cuts;
mod event;
mod forms;
mod keyword;
mod laws;
mod line;
mod lines;
mod listed;
mod network;
mod parts;
mod print;
mod ranges;
mod refusal;
mod rules;
mod script;
mod setup;
pub mod spelling;
mod standing;
mod submissions;
mod table;
mod types;
mod words;

pub use event::{Event, Which};
pub use laws::{printed_line_reads_back, printed_script_reads_back};
pub use line::Line;
pub use print::print_script;
pub use refusal::{ScriptRefusal, Why};
pub use script::{LONGEST_TEXT, MAX_EVENTS, Script, read_script};
pub use setup::{Name, Setup};
pub use table::read_line;
