//! How a copy ends without having copied.
ghost use Rattle.std.specs.Prelude.{◌≡◌, IfOk};
ghost use Rattle.aoe_copy.specs.Ending.{copy_code, copy_text, failure};

use aoe_base::{Blob, NoMemory};
use aoe_initiator::Outcome;
use aoe_tools::{Refusal, ToolRefusal};
use std::alloc::Global;

/// How a tool that copies sectors ends without having copied them.
#[derive(Clone, Copy, Debug, PartialEq, Eq)]
pub enum CopyRefusal {
    /// As a tool that asks.
    Tool(ToolRefusal),

    /// The input isn't whole sectors: from this byte offset on less than a sector is left.
    Stream { offset: u64 },

    /// The source failed.
    SourceFault,

    /// The sink failed.
    SinkFault,
}

impl CopyRefusal {
    /// The exit status of the program.
    pub fn code(&self) -> u8
        ensures { result ≡ copy_code self.now }
    {
        match self {
            CopyRefusal::SourceFault => 3,
            CopyRefusal::SinkFault => 4,
            CopyRefusal::Tool(refusal) => refusal.code(),
            CopyRefusal::Stream { .. } => 11,
        }
    }

    /// What the program says on standard error, without a line feed.
    pub fn text(&self, alloc: Global) -> Result<Blob, NoMemory>
        ensures { IfOk result (λ text. text ≡ copy_text self.now) }
    {
        match *self {
            CopyRefusal::Tool(refusal) => refusal.text(alloc),
            CopyRefusal::Stream { offset } => stream_text(alloc, offset),
            CopyRefusal::SourceFault => Blob::of(alloc, b"aoe: source fault"),
            CopyRefusal::SinkFault => Blob::of(alloc, b"aoe: sink fault"),
        }
    }
}

/// The text for an input that isn't whole sectors.
fn stream_text(alloc: Global, offset: u64) -> Result<Blob, NoMemory>
    ensures { IfOk result (λ text. text ≡ copy_text (CopyRefusal.Stream offset)) }
{
    let text = format!(in alloc; "aoe: bad stream at byte {offset}")?;
    Blob::of(alloc, text.as_bytes())
}

/// Why an outcome ends a copy of which each wait lasts `turns` turns.
pub(crate) fn failure(outcome: &Outcome, turns: u32) -> Option<ToolRefusal>
    ensures { result ≡ failure turns outcome.now }
{
    match outcome {
        Outcome::AoeError(error) => Some(ToolRefusal::Refused(Refusal::Aoe(*error))),
        Outcome::AtaError { status, error } => Some(ToolRefusal::Refused(Refusal::Ata {
            status: *status,
            error: *error,
        })),
        Outcome::GaveUp { .. } => Some(ToolRefusal::Unanswered { turns }),
        Outcome::Read(_) | Outcome::Written | Outcome::Flushed | Outcome::Told(_) => None,
    }
}
