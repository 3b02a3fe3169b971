//! What the steps of a host answer.
use aoe_base::{PathNo, Ticket};

/// A frame of a command that is to be sent.
#[derive(Clone, Copy, PartialEq, Eq)]
pub struct Sent {
    pub ticket: Ticket,
    pub tag: u32,
    pub path: PathNo,

    /// Whether a frame of the command was sent before.
    pub again: bool,
}

/// What became of a frame that a host was handed.
#[derive(Clone, Copy, PartialEq, Eq)]
pub enum Taken {
    /// The command has its outcome.
    Finished(Ticket),

    /// It is no response to a command that waits for one.
    Stale,
}

/// How much flies: what was sent and has no outcome.
#[derive(Clone, Copy, PartialEq, Eq)]
pub struct InFlight {
    pub commands: u64,

    /// The sectors that these read and write. The count stays at its end where there are more.
    pub sectors: u64,
}
