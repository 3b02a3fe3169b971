//! What can be made to happen in a simulator.
use aoe_base::{Blob, FrameNo, TargetId};
use aoe_disk::Loss;
use aoe_initiator::Op;
use aoe_script::Which;

/// Where a station stands among the shelves or among the hosts, from 0.
#[derive(Clone, Copy, PartialEq, Eq)]
pub(crate) enum At {
    Shelf(usize),
    Host(usize),
}

/// One act. Stations go by their places, and slots by their places in their shelf, from 0.
#[derive(Drop)]
pub(crate) enum Act {
    /// A host submits a command to a device that it is attached to.
    Submit {
        host: usize,
        dev: TargetId,
        op: Op,
    },

    /// Milliseconds go by.
    Tick {
        ms: u64,
    },

    /// A frame of no station comes into the network.
    Inject {
        bytes: Blob,
    },

    /// A disk of a slot is armed: its `k`-th device call from now on fails; or, where there is a
    /// mode, the power is lost in that call, and this is what is left then.
    Arm {
        shelf: usize,
        slot: usize,
        which: Which,
        k: u64,
        mode: Option<Loss>,
    },

    /// A shelf loses its power.
    Crash {
        shelf: usize,
        how: Loss,
    },

    /// A frame is handed to a station, or lost where it can't be handed over any more.
    Hand {
        frame: FrameNo,
        to: At,
    },

    /// A frame is lost.
    Lose {
        frame: FrameNo,
    },
}
