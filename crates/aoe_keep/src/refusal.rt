//! Why a disk isn't mounted.
use thiserror::Error;

/// Why a disk isn't mounted. It is given back, with no sector of it changed.
#[derive(Clone, Copy, Debug, PartialEq, Eq, Error)]
pub enum MountRefusal {
    /// A call of the disk failed.
    #[error("a device call failed")]
    Failed,

    /// It has fewer than 16 sectors.
    #[error("{sectors} sectors, 16 needed")]
    TooSmall { sectors: u64 },

    /// A slot's gate is open before a body that spells no lists, or both are open with one turn,
    /// which is the fault of slot 1.
    #[error("slot {slot} holds no lists")]
    BadKeep { slot: u8 },
}
