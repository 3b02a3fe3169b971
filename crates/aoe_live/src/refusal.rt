//! Why a run has no script.
use aoe_net::NetLimit;
use thiserror::Error;

/// Why a run has no script.
#[derive(Clone, Copy, Debug, PartialEq, Eq, Error)]
pub enum LiveRefusal {
    /// An allocation was refused.
    #[error("out of memory")]
    NoMemory,

    /// The link failed: 0 is that of the shelf, 1 that of the host.
    #[error("link {link} failed")]
    LinkFault {
        link: u32,
    },

    /// So many consecutive turns finished no command, or the host gave one up.
    #[error("no answer in {turns} turns")]
    Unanswered {
        turns: u32,
    },

    /// The network has no room for the next frame, by this limit: it has `frames` frames, of `bytes`
    /// bytes together.
    #[error("the network is full: {frames} frames, {bytes} bytes")]
    Full {
        limit: NetLimit,
        frames: u32,
        bytes: u64,
    },

    /// A script has no room for the next line.
    #[error("more than 50000 lines")]
    TooMany,
}
