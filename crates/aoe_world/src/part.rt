//! Which part of the text of a run is written.
ghost use Rattle.std.specs.Prelude.{◌≡◌, All, IfOk};
ghost use Rattle.aoe_transcript.specs.Print.{CanPrint};
ghost use Rattle.aoe_world.specs.Replay.{part_text};

use aoe_base::{Blob, NoMemory};
use aoe_history::History;
use aoe_transcript::{print_run, print_summary, summarize};
use std::alloc::Global;

/// All of the text of a run, or its last line, which says how much happened.
#[derive(Clone, Copy, PartialEq, Eq)]
pub enum Part {
    Whole,
    Summary,
}

/// This part of the text of the run of a script of `script_events` events.
pub(crate) fn print_part(
    alloc: Global,
    part: Part,
    script_events: u64,
    history: &History,
) -> Result<Blob, NoMemory>
    requires { All CanPrint history.now }
    ensures { IfOk result (λ text. text ≡ part_text part script_events history.now) }
{
    match part {
        Part::Whole => print_run(alloc, script_events, history),
        Part::Summary => {
            let summary = summarize(alloc, script_events, history)?;
            print_summary(alloc, &summary)
        }
    }
}
