//! What is served, until when, and how that ended.
ghost use Rattle.std.specs.Prelude.{◌≡◌, ◌∷◌, Bool, List, [], Option};
ghost use Rattle.aoe_io.specs.Link.{Added};

use aoe_base::Millis;
use aoe_initiator::Outcome;
use aoe_nbd::Export;

/// What is served, and until when.
#[derive(Drop)]
pub struct Terms {
    pub export: Export,

    /// The sectors of the device, and the most of one command.
    pub total: u64,
    pub max: u32,

    /// How long no command is submitted behind the first look at the clock: the sum of both lifetimes.
    pub quarantine: Millis,

    /// Whether the end comes when a client that came through its handshake has gone.
    pub once: bool,

    /// Behind how many waits without a client the end comes; 0 where it doesn't.
    pub idle: u64,
}

/// Whoever is asked whether to end.
pub trait Ending {
    // The answers, the latest first, where they are told.
    ghost answers: { Self → Option (List Bool) };

    /// Whether the end is asked for.
    fn is_asked_for(&mut self) -> bool
        ensures told { Added (answers self.old) (answers self.new) (result ∷ []) };
}

/// Why the serving ends.
#[derive(Clone, Copy, Debug, PartialEq, Eq)]
pub enum Asked {
    /// Whoever is asked said so.
    Stop,

    /// There were so many waits without a client.
    Idle,

    /// A client has gone.
    Once,
}

/// How the serving ended.
#[derive(Drop)]
pub enum ServeEnd {
    /// As asked for. What was written is flushed, where that was wanted and anything was written.
    Ended(Asked),

    /// As asked for, but the last flush had this outcome.
    Unflushed(Outcome),

    /// There was no memory to begin, or for the last flush; or no number for it, or for a turn: there
    /// are 2^64 - 1.
    NoMemory,

    /// The link failed.
    LinkFault,

    /// The link gives no frame any more.
    LinkEnded,

    /// The listener failed.
    ClientFault,
}

/// What was served.
#[derive(Clone, Copy, Debug, PartialEq, Eq)]
pub struct Served {
    /// How many clients were accepted.
    pub clients: u64,

    /// How many commands were submitted for them.
    pub commands: u64,
}
