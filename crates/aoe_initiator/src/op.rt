//! What a host asks of a device.
ghost use Rattle.std.specs.Prelude.{◌≡◌, ◌≤◌, ◌<◌, ◌^◌, IfNone};
ghost use Rattle.aoe_initiator.specs.HostLaw.{op_refusal, span_refusal};
ghost use Rattle.aoe_initiator.specs.Op.{command_of, data_len, kind_of, span_of, CanSubmit};
ghost use Rattle.aoe_initiator.specs.Request.{CanSpell};

use crate::device::Attached;
use crate::refusal::SubmitRefusal;
use aoe_base::{Blob, Mac, SECTOR_LEN, Span};
use aoe_hold::Kind;
use aoe_lists::{Dir, MAX_DIRS};
use arrayvec::ArrayVec;

/// The command by which a device is flushed.
#[derive(Clone, Copy, PartialEq, Eq)]
pub enum FlushCommand {
    /// FLUSH CACHE, with registers of 28 bits.
    Cache,

    /// FLUSH CACHE EXT, with registers of 48 bits.
    CacheExt,
}

/// What a host asks of a device.
#[derive(Drop)]
pub enum Op {
    /// To read sectors (READ SECTORS EXT).
    Read(Span),

    /// To write whole sectors from `at` on (WRITE SECTORS EXT).
    Write {
        at: u64,
        bytes: Blob,
    },

    /// To bring to the medium what was written, by the flush command of the device.
    Flush,

    /// To tell of the device (IDENTIFY DEVICE).
    Identify,

    /// To read, test or set the config string: `ccmd` is the field CCmd, 0 to 4.
    Config {
        ccmd: u8,
        text: Blob,
    },

    /// To edit the mask list, or to read it: then there are no directives.
    Masks {
        edit: bool,
        dirs: ArrayVec<Dir, MAX_DIRS>,
    },

    /// To read or set the reserve list: `rcmd` is the field RCmd, 0 to 2.
    Reserve {
        rcmd: u8,
        list: ArrayVec<Mac, MAX_DIRS>,
    },
}

/// Why a device doesn't take a command on these sectors.
fn span_refusal(about: &Attached, at: u64, count: usize) -> Option<SubmitRefusal>
    ensures { result ≡ span_refusal about.now at count }
{
    if count == 0 {
        return Some(SubmitRefusal::Empty);
    }
    if count > about.max as usize {
        return Some(SubmitRefusal::TooLong { max: about.max });
    }
    if at > about.total || count as u64 > about.total - at {
        return Some(SubmitRefusal::OutOfRange);
    }
    None
}

/// Why a device doesn't take an operation.
pub(crate) fn op_refusal(about: &Attached, op: &Op) -> Option<SubmitRefusal>
    requires total { about.now.total ≤ 2 ^ 48 }
    requires max { about.now.max ≤ 17 }
    requires op { CanSubmit op.now }
    ensures value { result ≡ op_refusal about.now op.now }
    ensures spelled { IfNone result (CanSpell op.now) }
{
    match op {
        Op::Read(span) => span_refusal(about, span.at, span.count as usize),
        Op::Write { at, bytes } => span_refusal(about, *at, bytes.bytes().len() / SECTOR_LEN),
        Op::Flush | Op::Identify | Op::Config { .. } | Op::Masks { .. } | Op::Reserve { .. } =>
            None,
    }
}

impl Op {
    /// The command of the frame's header (AoEr11, "Command").
    pub fn command(&self) -> u8
        ensures { result ≡ command_of self.now }
    {
        match self {
            Op::Read(_) | Op::Write { .. } | Op::Flush | Op::Identify => 0,
            Op::Config { .. } => 1,
            Op::Masks { .. } => 2,
            Op::Reserve { .. } => 3,
        }
    }

    /// What the order of commands goes by.
    pub fn kind(&self) -> Kind
        ensures { result ≡ kind_of self.now }
    {
        match self {
            Op::Read(_) => Kind::Read,
            Op::Write { .. } => Kind::Write,
            Op::Flush => Kind::Flush,
            Op::Config { ccmd: 3 | 4, .. }
            | Op::Masks { edit: true, .. }
            | Op::Reserve { rcmd: 1 | 2, .. } => Kind::Edit,
            Op::Identify | Op::Config { .. } | Op::Masks { .. } | Op::Reserve { .. } => Kind::Other,
        }
    }

    /// The sectors that are read or written; none where the operation has no sector.
    pub fn span(&self) -> Span
        requires { CanSpell self.now }
        ensures { result ≡ span_of self.now }
    {
        match self {
            Op::Read(span) => *span,
            Op::Write { at, bytes } => Span {
                at: *at,
                count: (bytes.bytes().len() / SECTOR_LEN) as u32,
            },
            Op::Flush | Op::Identify | Op::Config { .. } | Op::Masks { .. } | Op::Reserve { .. } =>
                Span { at: 0, count: 0 },
        }
    }

    /// How many bytes of data its response has.
    pub fn data_len(&self) -> usize
        ensures { result ≡ data_len self.now }
    {
        match self {
            Op::Read(span) => SECTOR_LEN * span.count as usize,
            Op::Identify => SECTOR_LEN,
            Op::Write { .. }
            | Op::Flush
            | Op::Config { .. }
            | Op::Masks { .. }
            | Op::Reserve { .. } => 0,
        }
    }
}
