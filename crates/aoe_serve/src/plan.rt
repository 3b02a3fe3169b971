//! What a run is to do, and how it ended.
use crate::{AnswerEnd, Format, ServeEnd};
use aoe_keep::MountRefusal;
use thiserror::Error;

/// What is done with the slots.
#[derive(Clone, Copy, PartialEq, Eq)]
pub enum Plan {
    /// The frames of the source are answered on the sink, in this format.
    Answer(Format),

    /// The first link is served, until `frames` frames came or `idle` consecutive turns were quiet.
    Serve { frames: u64, idle: u64 },
}

/// How the frames ended.
#[derive(Clone, Copy, PartialEq, Eq)]
pub enum RunEnd {
    Answered(AnswerEnd),
    Served(ServeEnd),
}

/// How a run ended.
#[derive(Clone, Copy, PartialEq, Eq)]
pub struct Exported {
    pub end: RunEnd,

    /// The first slot whose last sync failed, where one did.
    pub unsynced: Option<u32>,
}

/// Why nothing was run.
#[derive(Clone, Copy, Debug, PartialEq, Eq, Error)]
pub enum ExportRefusal {
    #[error("no memory")]
    NoMemory,

    /// The keep of a slot wasn't mounted.
    #[error("keep of slot {slot}: {refusal}")]
    Keep { slot: u32, refusal: MountRefusal },
}
