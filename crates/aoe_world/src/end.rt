//! How a replay ends.
use aoe_net::NetLimit;
use aoe_script::Why;

/// Which limit was exceeded.
#[derive(Clone, Copy, PartialEq, Eq)]
pub enum ReplayLimit {
    /// The text has more than 16,777,216 bytes.
    ScriptBytes,

    /// The script has more than 50,000 events.
    Events,

    /// The network has no room for the next frame.
    Net(NetLimit),
}

/// How a replay ends.
#[derive(Clone, Copy, PartialEq, Eq)]
pub enum ReplayEnd {
    /// The script was run, and the text of the run was written.
    Ended,

    /// The source failed.
    SourceFault,

    /// The sink failed.
    SinkFault,

    /// An allocation was refused.
    NoMemory,

    /// The line of this number, from 1, is the first that is bad.
    Script { line: u32, why: Why },

    /// A limit was exceeded.
    Limit(ReplayLimit),
}
