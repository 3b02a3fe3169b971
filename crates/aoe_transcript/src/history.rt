//! The text of all that happened.
ghost use Rattle.std.specs.Prelude.{◌≡◌, ◌++◌, All, IfOk, OnOk};
ghost use Rattle.aoe_transcript.specs.Counts.{run_text};
ghost use Rattle.aoe_transcript.specs.Print.{history_text, CanPrint};
ghost use Rattle.aoe_transcript.specs.Summary.{summary_text};

use crate::counts::summarize;
use crate::print::put_line;
use crate::summary::{Summary, put_summary};
use aoe_base::{Blob, NoMemory};
use aoe_history::History;
use std::alloc::Global;

/// Adds the lines of a history, the oldest first.
fn put_history(out: &mut Vec<u8>, history: &History) -> Result<(), NoMemory>
    requires { All CanPrint history.now }
    ensures { OnOk result (out.new.items ≡ out.old.items ++ history_text history.now) }
{
    'entries: for i in 0..history.count() {
        put_line(out, history.entry(i))?;
    }
    Ok(())
}

/// The lines of a history, the oldest first.
pub fn print_history(alloc: Global, history: &History) -> Result<Blob, NoMemory>
    requires { All CanPrint history.now }
    ensures { IfOk result (λ text. text ≡ history_text history.now) }
{
    let mut out = Vec::new(alloc);
    put_history(&mut out, history)?;
    Ok(Blob::from_vec(out))
}

/// Adds the lines of a history, and then the line of a summary.
fn put_run(out: &mut Vec<u8>, history: &History, summary: &Summary) -> Result<(), NoMemory>
    requires { All CanPrint history.now }
    ensures { OnOk result (out.new.items ≡ out.old.items
        ++ (history_text history.now ++ summary_text summary.now)) }
{
    put_history(out, history)?;
    put_summary(out, summary)
}

/// The text of the run of a script of `script_events` events: a line for each thing that happened, the
/// oldest first, and the line of how much did.
pub fn print_run(alloc: Global, script_events: u64, history: &History) -> Result<Blob, NoMemory>
    requires { All CanPrint history.now }
    ensures { IfOk result (λ text. text ≡ run_text script_events history.now) }
{
    let summary = summarize(alloc, script_events, history)?;
    let mut out = Vec::new(alloc);
    put_run(&mut out, history, &summary)?;
    Ok(Blob::from_vec(out))
}
