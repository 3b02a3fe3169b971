//! Why a keep wasn't shown or changed, or two sides weren't compared.
use aoe_keep::MountRefusal;
use thiserror::Error;

/// Why a keep wasn't shown or changed.
#[derive(Clone, Copy, Debug, PartialEq, Eq, Error)]
pub enum UpkeepStop {
    /// The keep wasn't mounted.
    #[error("keep: {0}")]
    Keep(MountRefusal),

    /// A call of the disk failed while the lists were written.
    #[error("a device call failed")]
    Failed,

    /// There was no memory for the line that shows the keep.
    #[error("no memory")]
    NoMemory,

    /// The sink failed.
    #[error("sink fault")]
    SinkFault,
}

/// Why the sides of a mirror weren't compared.
#[derive(Clone, Copy, Debug, PartialEq, Eq, Error)]
pub enum CompareStop {
    /// The sides have different numbers of sectors.
    #[error("mirror sides have {first} and {second} sectors")]
    Unequal { first: u64, second: u64 },

    /// The mark disk has no sector.
    #[error("mirror mark has no sector")]
    NoMark,

    /// The mark disk holds something else than a mark.
    #[error("not a mark")]
    NotMark,

    /// A call of the mark disk failed.
    #[error("a device call of the mark disk failed")]
    MarkFailed,

    /// A read of the first side failed.
    #[error("a device call of the first side failed")]
    FirstFailed,

    /// A read of the second side failed.
    #[error("a device call of the second side failed")]
    SecondFailed,

    /// The sink failed.
    #[error("sink fault")]
    SinkFault,

    /// There was no memory for a piece of each side.
    #[error("no memory")]
    NoMemory,
}
