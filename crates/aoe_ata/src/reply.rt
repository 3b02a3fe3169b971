//! The registers of a reply.
ghost use Rattle.std.specs.Prelude.{◌≡◌, ◌↔◌, IsTrue};
ghost use Rattle.aoe_ata.specs.Reply.{status_of, error_of, count_of, reply_of, IsFailed};

use crate::AtaArgs;

/// Status: the command ended with an error.
pub const STATUS_ERR: u8 = 0x01;

/// Status: data is to be moved.
pub const STATUS_DRQ: u8 = 0x08;

/// Status: the device has a fault.
pub const STATUS_DF: u8 = 0x20;

/// Status: the device is ready.
pub const STATUS_DRDY: u8 = 0x40;

/// Error: the command was aborted.
pub const ERROR_ABRT: u8 = 0x04;

/// Error: the address wasn't found.
pub const ERROR_IDNF: u8 = 0x10;

/// Error: the data can't be read.
pub const ERROR_UNC: u8 = 0x40;

/// The sector count that tells the mode active or idle.
const ACTIVE_OR_IDLE: u8 = 0xff;

/// How a command ended.
#[derive(Clone, Copy, PartialEq, Eq, Hash)]
pub enum AtaOutcome {
    /// It was done.
    Done,
    /// The power mode is told: active or idle.
    Active,
    /// The command isn't known, or a write or a sync failed.
    Aborted,
    /// A sector isn't within the device.
    NotFound,
    /// A read failed.
    Uncorrectable,
}

impl AtaOutcome {
    /// The error register, 0 where there is no error.
    fn error(self) -> u8
        ensures { result ≡ error_of self }
    {
        match self {
            AtaOutcome::Done | AtaOutcome::Active => 0,
            AtaOutcome::Aborted => ERROR_ABRT,
            AtaOutcome::NotFound => ERROR_IDNF,
            AtaOutcome::Uncorrectable => ERROR_UNC,
        }
    }

    fn status(self) -> u8
        ensures { result ≡ status_of self }
    {
        match self {
            AtaOutcome::Done | AtaOutcome::Active => STATUS_DRDY,
            AtaOutcome::Aborted | AtaOutcome::NotFound | AtaOutcome::Uncorrectable => {
                STATUS_DRDY | STATUS_ERR
            }
        }
    }

    fn count(self) -> u8
        ensures { result ≡ count_of self }
    {
        match self {
            AtaOutcome::Active => ACTIVE_OR_IDLE,
            AtaOutcome::Done
            | AtaOutcome::Aborted
            | AtaOutcome::NotFound
            | AtaOutcome::Uncorrectable => 0,
        }
    }
}

/// The registers of the reply to a request, whose AFlags and address it repeats.
pub fn reply_args(request: &AtaArgs, outcome: AtaOutcome) -> AtaArgs
    ensures { result ≡ reply_of request.now outcome }
{
    AtaArgs {
        aflags: request.aflags,
        feature: outcome.error(),
        count: outcome.count(),
        code: outcome.status(),
        lba: request.lba,
    }
}

/// Whether the status of a reply shows that the command failed: its bit ERR or its bit DF.
pub fn is_failed(reply: &AtaArgs) -> bool
    ensures { IsTrue result ↔ IsFailed reply.now }
{
    reply.code & STATUS_ERR != 0 || reply.code & STATUS_DF != 0
}
