//! Transcripts: a line for each thing that happened in a run, and one of how much did.
//!
//! [`print_run`] returns the whole text, of a history and of the number of events of its script. Its
//! parts are [`print_history`], the lines of a history; [`print_entry`], one of them; and
//! [`print_summary`], the last line, of the counts that [`summarize`] returns.
//!
//! Each line of a lawful history can be printed where its commands are what event lines ask for
//! ([`lawful_histories_print`]). A transcript isn't read back, and no line shows the bytes of its
//! frame.
//!
//! Promised: the text of an entry is `entry_text`, of a history `history_text`, of a run
//! `run_text`; the counts are `summary_of` and their line is `summary_text`. Entries have to be
//! such that `CanPrint` holds, as those of a lawful history are if event lines ask for all that was
//! submitted ([`lawful_histories_print`]). The event line in the line of a submission asks for that
//! operation (`submitted_lines_ask`), and data are printed as their longest runs
//! (`runs_are_longest`).
//!
//! Only tested: nothing. Lines of a refusal and of a crash (transcript.rt of `aoe_sim_tests`) and
//! the stored runs of `tests/check` try what the definitions say. Nothing shows that a transcript
//! can be read back.
#![tactic(auto)]

mod counts;
mod history;
mod laws;
mod outcome;
mod print;
mod runs;
mod submission;
mod summary;

pub use counts::summarize;
pub use history::{print_history, print_run};
pub use laws::{lawful_histories_print, runs_are_longest, submitted_lines_ask};
pub use print::print_entry;
pub use summary::{Summary, print_summary};
