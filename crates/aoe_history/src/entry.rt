//! What happens in a run.
use crate::Boxed;
use aoe_base::TargetId;
use aoe_disk::Loss;
use aoe_initiator::{Op, Outcome, SubmitRefusal};
use aoe_lists::Lists;
use aoe_net::FrameBytes;
use aoe_script::{Name, Which};
use aoe_target::Effect;

/// What became of a frame at a target.
#[derive(Drop)]
pub enum Fate {
    /// It isn't for this target.
    Ignored,

    /// It is for this target, and gets no reply.
    Silent,

    /// The power was lost at a device call, so that there is no reply.
    Cut,

    /// It got a reply: the frame with this number and these bytes.
    Replied {
        effect: Effect,
        frame: u64,
        bytes: FrameBytes,
    },
}

/// One thing that happened. Frames have numbers from 1 in the order in which they came into the
/// network, and the commands of a host have tickets from 1 in the order of their submission. What is
/// large and rare is boxed, so that a long history is small.
#[derive(Drop)]
pub enum Entry {
    /// A host took a command for a device.
    Submitted {
        host: Name,
        ticket: u64,
        dev: TargetId,
        op: Boxed<Op>,
    },

    /// A host refused a command.
    Refused {
        host: Name,
        refusal: SubmitRefusal,
    },

    /// A host sent a frame of a command.
    Sent {
        host: Name,
        ticket: u64,
        frame: u64,
        bytes: FrameBytes,
    },

    /// A frame of no host and no shelf came into the network.
    Injected {
        frame: u64,
        bytes: FrameBytes,
    },

    /// A frame was handed to a target.
    Arrived {
        dev: TargetId,
        frame: u64,
        fate: Fate,
    },

    /// A frame was handed to a host. It is stale where it ends no command.
    Took {
        host: Name,
        frame: u64,
        stale: bool,
    },

    /// A command of a host has its outcome.
    Done {
        host: Name,
        ticket: u64,
        outcome: Boxed<Outcome>,
    },

    /// Time went by, in milliseconds.
    Ticked {
        ms: u64,
    },

    /// A frame was handed to nobody.
    Lost {
        frame: u64,
    },

    /// A disk of a slot will fail its k-th device call from now on; or, where there is a mode, the
    /// power is lost in that call, and this is what is left then.
    Armed {
        dev: TargetId,
        which: Which,
        k: u64,
        mode: Option<Loss>,
    },

    /// A slot lost its power and was mounted again, with these lists.
    Crashed {
        dev: TargetId,
        lists: Boxed<Lists>,
        mode: Loss,
    },
}
