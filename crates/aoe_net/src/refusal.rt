//! Why a network takes no further frame.
ghost use Rattle.std.specs.Prelude.{◌≡◌};
ghost use Rattle.aoe_net.specs.declared.refusal.NetRefusal.TheVariants.{NoMemory};

use aoe_base::NoMemory;
use thiserror::Error;

/// Which limit of a network is met.
#[derive(Clone, Copy, Debug, PartialEq, Eq)]
pub enum NetLimit {
    /// It keeps 200,000 frames.
    Frames,
    /// It keeps fewer, and they would have more than 536,870,912 bytes together.
    Bytes,
}

/// Why a frame wasn't sent.
#[derive(Clone, Copy, Debug, PartialEq, Eq, Error)]
pub enum NetRefusal {
    /// The network has no room for it, by this limit.
    #[error("the network is full")]
    Full(NetLimit),
    /// An allocation was refused.
    #[error("no memory")]
    NoMemory,
}

impl From<NoMemory> for NetRefusal {
    ghost from_gives = { λ _ refusal. refusal ≡ NoMemory };

    fn from(_: NoMemory) -> NetRefusal {
        NetRefusal::NoMemory
    }
}
