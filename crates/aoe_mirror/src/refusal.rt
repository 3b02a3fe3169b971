//! Why two disks aren't mounted as a mirror.
use thiserror::Error;

/// Why two disks aren't mounted as a mirror. All three are given back, with no sector changed.
#[derive(Clone, Copy, Debug, PartialEq, Eq, Error)]
pub enum MirrorRefusal {
    /// The sides have different numbers of sectors.
    #[error("mirror sides have {first} and {second} sectors")]
    Unequal { first: u64, second: u64 },

    /// The mark disk has no sector.
    #[error("mirror mark has no sector")]
    NoMark,

    /// The mark disk holds something else than a mark, which a takeover would overwrite.
    #[error("not a mark")]
    NotMark,

    /// A call of the mark disk failed.
    #[error("a device call failed")]
    Failed,

    /// An allocation was refused.
    #[error("no memory")]
    NoMemory,
}
