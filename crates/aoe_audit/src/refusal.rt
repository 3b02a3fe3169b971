//! What an audit answers.
use thiserror::Error;

/// What is wrong with a record of a capture.
#[derive(Clone, Copy, Debug, PartialEq, Eq)]
pub enum Kind {
    /// A frame of the protocol wasn't captured whole.
    Short,

    /// A reply isn't the next that the law allows.
    Reply,

    /// A request has no reply.
    Missing,
}

/// Why an audit ends without a yes.
#[derive(Clone, Copy, Debug, PartialEq, Eq, Error)]
pub enum AuditRefusal {
    #[error("no memory")]
    NoMemory,

    /// The record of this number has a finding.
    #[error("record {number}: {kind:?}")]
    Finding { number: u32, kind: Kind },
}

/// The yes of an audit: how many requests and replies of the device the capture had, and how many
/// replies told that a disk failed. A count stands still at 4,294,967,295.
#[derive(Clone, Copy, PartialEq, Eq)]
pub struct Verdict {
    pub requests: u32,
    pub replies: u32,
    pub faults: u32,
}
