//! Event lines: what happens, in their order.
use crate::setup::Name;
use aoe_base::{Blob, Mac, TargetId};
use aoe_disk::Loss;
use aoe_lists::{Dir, MAX_DIRS};
use arrayvec::ArrayVec;

/// A disk of a device: that of its sectors, or that of its lists.
#[derive(Clone, Copy, PartialEq, Eq)]
pub enum Which {
    Store,
    Keep,
}

/// An event line. Each field is the word of that line.
#[derive(Drop)]
pub enum Event {
    /// A host reads sectors of a device.
    Read {
        host: Name,
        dev: TargetId,
        at: u64,
        count: u64,
    },

    /// A host writes sectors of a device; every byte is `fill`.
    Write {
        host: Name,
        dev: TargetId,
        at: u64,
        count: u64,
        fill: u8,
    },

    /// A host brings to the medium what was written.
    Flush {
        host: Name,
        dev: TargetId,
    },

    /// A host asks what the device is.
    Identify {
        host: Name,
        dev: TargetId,
    },

    /// A host reads, tests or sets the config string: `ccmd` is the field CCmd, 0 to 4.
    Config {
        host: Name,
        dev: TargetId,
        ccmd: u8,
        text: Blob,
    },

    /// A host edits the mask list, or reads it: then there are no directives.
    Masks {
        host: Name,
        dev: TargetId,
        edit: bool,
        dirs: ArrayVec<Dir, MAX_DIRS>,
    },

    /// A host reads or sets the reserve list: `rcmd` is the field RCmd, 0 to 2.
    Reserve {
        host: Name,
        dev: TargetId,
        rcmd: u8,
        list: ArrayVec<Mac, MAX_DIRS>,
    },

    /// Time passes, in milliseconds.
    Tick {
        ms: u64,
    },

    /// A frame is handed to a station.
    Deliver {
        frame: u64,
        station: Name,
    },

    /// Hands the next `n` frames to their addressees, in order.
    Pass {
        n: u64,
    },

    /// Loses the next `n` frames, in order.
    Skip {
        n: u64,
    },

    /// The frame that was handed over last is handed over once more.
    Again,

    /// Injects a frame that no station sent.
    Inject {
        bytes: Blob,
    },

    /// The disk's `k`th call from now on fails.
    Fail {
        dev: TargetId,
        which: Which,
        k: u64,
    },

    /// The disk's `k`th call from now on is never made: the shelf loses power there.
    Stop {
        dev: TargetId,
        which: Which,
        k: u64,
        mode: Loss,
    },

    /// A shelf loses power.
    Crash {
        shelf: Name,
        mode: Loss,
    },
}
