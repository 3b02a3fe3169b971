//! Why a world goes no further.
use aoe_net::NetLimit;
use thiserror::Error;

/// Why a world goes no further.
#[derive(Clone, Copy, Debug, PartialEq, Eq, Error)]
pub enum WorldRefusal {
    /// An allocation was refused.
    #[error("out of memory")]
    NoMemory,

    /// The network has no room for the next frame, by this limit: it has `frames` frames, of `bytes`
    /// bytes together.
    #[error("the network is full: {frames} frames, {bytes} bytes")]
    NetFull {
        limit: NetLimit,
        frames: u32,
        bytes: u64,
    },
}
