//! What every layer names its things by: addresses, device names, the errors of replies, spans of
//! sectors, times, numbers of things, byte strings and decimal numbers.
//!
//! [`read_mac`], [`read_device`] and [`read_number`] read texts, and [`put_macs`] and its like print
//! them; [`Mac`], [`TargetId`], [`Span`], [`Millis`], [`Ticket`] and the other numbers are values. A
//! [`Blob`] is a byte string on the heap, which contracts see as the list of its bytes. [`Failed`]
//! and [`NoMemory`] are the answers of calls that did nothing else wrong. [`Steps`] counts steps for
//! contracts, and costs nothing when it runs.
//!
//! Only a `Blob` takes memory. Nothing here knows a frame, a device or a host.
//!
//! Promised: `read_mac`, `read_device` and `read_number` return what `mac_of`, `device_of` and
//! `number_of` say of a text, and `None` where they say nothing. An address has one text, which
//! reads back (`mac_reads_back`, `mac_spelling_is_one`); a text names a device exactly where
//! `IsNameOf` says so (`device_law`), leading zeros allowed. `put_macs` and its like, if Ok,
//! appended the defined text. `Span::overlaps` holds exactly where a sector is in both spans. A
//! `Blob` has the bytes that its calls put in, and `Steps` counts what was added.
//!
//! Only tested: a table of numbers, the texts of `Failed` and `NoMemory`, and that `Steps` has no
//! bytes (`aoe_program_tests`, base).
#![tactic(auto)]

mod address;
mod bytes;
mod counted;
mod decimal;
mod failure;
mod names;
mod refusal;
mod sectors;
mod steps;
mod text;

pub use address::{
    BROADCAST, LAST_MAJOR, LAST_MINOR, Mac, Ports, TargetId, all_unique, read_device, read_mac,
};
pub use bytes::{Blob, append, copy_of};
pub use counted::{DeviceNo, FrameNo, Lifetimes, Millis, PathNo, Ticket};
pub use decimal::read_number;
pub use failure::{Failed, NoMemory};
pub use names::{broadcast_law, device_law, mac_reads_back, mac_spelling_is_one};
pub use refusal::AoeError;
pub use sectors::{SECTOR_LEN, Span};
pub use steps::Steps;
pub use text::{pair, put, put_between, put_mac, put_macs, put_pair, put_pairs};
