//! Requests of the transmission phase.
ghost use Rattle.std.specs.Prelude.{◌≡◌};
ghost use Rattle.aoe_nbd.specs.Requests.{action_of, data_len, head_of, request_of, span_of};

use crate::bytes::array_at;
use aoe_base::{SECTOR_LEN, Span};

/// The magic number of a request.
const REQUEST_MAGIC: u32 = 0x2560_9513;

/// The types of requests.
pub const READ: u16 = 0;

pub const WRITE: u16 = 1;

pub const DISC: u16 = 2;

pub const FLUSH: u16 = 3;

/// The flag of a write that lasts once it is answered (force unit access).
pub const FUA: u16 = 1;

/// How many bytes a request begins with.
pub const HEAD_LEN: usize = 28;

/// What the first 28 bytes of a request say (NBD protocol, "Request message").
///
/// | Offset | Size | Field |
/// |---|---|---|
/// | 0 | 4 | magic number, 0x25609513 |
/// | 4 | 2 | flags |
/// | 6 | 2 | type |
/// | 8 | 8 | handle, which the reply repeats |
/// | 16 | 8 | offset in bytes |
/// | 24 | 4 | length in bytes, which a write's data has behind it |
///
/// All numbers are big-endian.
#[derive(Clone, Copy, PartialEq, Eq)]
pub struct RequestHead {
    pub flags: u16,
    pub kind: u16,
    pub handle: u64,
    pub offset: u64,
    pub len: u32,
}

/// What a request asks for.
#[derive(Clone, Copy, PartialEq, Eq)]
pub enum Action {
    Read { span: Span },

    /// Its data came before, and with `lasts` it is to be flushed before it is answered.
    Write { span: Span, lasts: bool },

    Flush,
}

/// A request that isn't refused.
#[derive(Clone, Copy, PartialEq, Eq)]
pub struct Request {
    /// What the client knows it by. It needn't be its only one.
    pub handle: u64,
    pub action: Action,
}

/// The head of the request that stands at the front, or `None` where there are fewer than 28 bytes
/// or another magic number.
pub fn read_head(bytes: &[u8]) -> Option<RequestHead>
    ensures { result ≡ head_of bytes.now }
{
    if bytes.len() < HEAD_LEN || u32::from_be_bytes(array_at::<4>(bytes, 0)) != REQUEST_MAGIC {
        return None;
    }
    Some(RequestHead {
        flags: u16::from_be_bytes(array_at::<2>(bytes, 4)),
        kind: u16::from_be_bytes(array_at::<2>(bytes, 6)),
        handle: u64::from_be_bytes(array_at::<8>(bytes, 8)),
        offset: u64::from_be_bytes(array_at::<8>(bytes, 16)),
        len: u32::from_be_bytes(array_at::<4>(bytes, 24)),
    })
}

impl RequestHead {
    /// How many bytes of data stand behind it.
    pub fn data_len(&self) -> u32
        ensures { result ≡ data_len self.now }
    {
        if self.kind == WRITE { self.len } else { 0 }
    }

    /// The sectors that it names.
    fn span(&self) -> Span
        ensures { result ≡ span_of self.now }
    {
        Span {
            at: self.offset / SECTOR_LEN as u64,
            count: self.len / SECTOR_LEN as u32,
        }
    }

    /// What it asks for, if it isn't refused.
    pub fn request(&self) -> Request
        ensures { result ≡ request_of self.now }
    {
        let span = self.span();
        let action = match self.kind {
            READ => Action::Read { span },
            WRITE => Action::Write {
                span,
                lasts: self.flags == FUA,
            },
            _ => Action::Flush,
        };
        Request {
            handle: self.handle,
            action,
        }
    }
}
