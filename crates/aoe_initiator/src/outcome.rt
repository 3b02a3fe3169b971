//! What became of a command.
use aoe_base::{Blob, Millis, Ticket};
use aoe_lists::Args;

/// What became of a command.
#[derive(Drop)]
pub enum Outcome {
    /// A read gave these sectors, or an identify its page.
    Read(Blob),

    /// The sectors are written.
    Written,

    /// What was written before is on the medium.
    Flushed,

    /// A command on the lists was answered with these arguments.
    Told(Args),

    /// The device refused, by the registers of status and error.
    AtaError { status: u8, error: u8 },

    /// The target refused, by the field Error of its header.
    AoeError(u8),

    /// No response came for too long after the first send.
    GaveUp { first: Millis, now: Millis },
}

/// A command that ended.
#[derive(Drop)]
pub struct Done {
    pub ticket: Ticket,
    pub outcome: Outcome,
}
