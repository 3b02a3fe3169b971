//! How much happened in a run.
ghost use Rattle.std.specs.Prelude.{◌≡◌, ◌++◌, IfOk, OnOk};
ghost use Rattle.aoe_script.specs.Print.{spaced};
ghost use Rattle.aoe_transcript.specs.Summary.{end_words, frame_words, summary_text};

use aoe_base::{Blob, NoMemory, put};
use aoe_script::spelling::put_count;
use std::alloc::Global;

/// How much happened in a run.
#[derive(Clone, Copy, PartialEq, Eq)]
pub struct Summary {
    /// The event lines of its script.
    pub events: u64,

    /// The frames that came into the network.
    pub frames: u64,

    /// Those that hosts sent.
    pub sent: u64,

    /// Those of them that weren't the first of their command.
    pub again: u64,

    /// How often a frame was handed to a target.
    pub arrived: u64,

    /// The commands that ended.
    pub done: u64,

    /// How often a frame was handed to nobody.
    pub lost: u64,

    /// How often a slot lost its power.
    pub crashed: u64,
}

/// Adds how many events there were, and how many frames.
fn put_frames(out: &mut Vec<u8>, summary: &Summary) -> Result<(), NoMemory>
    ensures { OnOk result (out.new.items ≡ out.old.items ++ spaced (frame_words summary.now)) }
{
    put_count(out, b" events", summary.events)?;
    put_count(out, b" frames", summary.frames)?;
    put_count(out, b" sent", summary.sent)?;
    put_count(out, b" again", summary.again)
}

/// Adds what became of frames, commands and slots.
fn put_ends(out: &mut Vec<u8>, summary: &Summary) -> Result<(), NoMemory>
    ensures { OnOk result (out.new.items ≡ out.old.items ++ spaced (end_words summary.now)) }
{
    put_count(out, b" arrived", summary.arrived)?;
    put_count(out, b" done", summary.done)?;
    put_count(out, b" lost", summary.lost)?;
    put_count(out, b" crashed", summary.crashed)
}

/// Adds the line of a summary.
pub(crate) fn put_summary(out: &mut Vec<u8>, summary: &Summary) -> Result<(), NoMemory>
    ensures { OnOk result (out.new.items ≡ out.old.items ++ summary_text summary.now) }
{
    put(out, b"summary")?;
    put_frames(out, summary)?;
    put_ends(out, summary)?;
    put(out, b"\n")
}

/// The line of a summary.
pub fn print_summary(alloc: Global, summary: &Summary) -> Result<Blob, NoMemory>
    ensures { IfOk result (λ text. text ≡ summary_text summary.now) }
{
    let mut out = Vec::new(alloc);
    put_summary(&mut out, summary)?;
    Ok(Blob::from_vec(out))
}
