//! What is served, and which requests it refuses.
ghost use Rattle.std.specs.Prelude.{◌≡◌, ◌==◌, ◌+◌, nat_lt, not, if◌then◌else◌};
ghost use Rattle.aoe_nbd.specs.Refusals.{is_aligned, is_known, refusal, wants_flush};

use crate::request::{FLUSH, FUA, READ, WRITE};
use crate::{NbdError, RequestHead};
use aoe_base::SECTOR_LEN;
use arrayvec::ArrayVec;

/// The most bytes of a request's data, 16 MiB.
pub const MAX_DATA: u32 = 16_777_216;

/// The name of an export, which is the text of a device.
pub type ExportName = ArrayVec<u8, 16>;

/// A device that is served as one export.
#[derive(Drop)]
pub struct Export {
    /// The name by which clients may ask for it, beside the empty one.
    pub name: ExportName,

    /// How many bytes it has.
    pub size: u64,

    /// Whether writes are refused.
    pub read_only: bool,

    /// Whether FLUSH and FUA are offered.
    pub flushes: bool,
}

/// Whether it is a READ, a WRITE or a FLUSH with no flag or with FUA alone.
fn is_known(head: &RequestHead) -> bool
    ensures { result ≡ is_known head.now }
{
    let is_kind = head.kind == READ || head.kind == WRITE || head.kind == FLUSH;
    is_kind && (head.flags == 0 || head.flags == FUA)
}

/// Whether it wants what was written to last.
fn wants_flush(head: &RequestHead) -> bool
    ensures { result ≡ wants_flush head.now }
{
    head.kind == FLUSH || head.flags == FUA
}

/// Whether it names whole sectors, one at least and 16 MiB at most.
fn is_aligned(head: &RequestHead) -> bool
    ensures { result ≡ is_aligned head.now }
{
    head.len != 0
        && head.offset % SECTOR_LEN as u64 == 0
        && head.len % SECTOR_LEN as u32 == 0
        && head.len <= MAX_DATA
}

impl Export {
    /// The error that refuses a request other than DISC, or `None`. The first row that applies
    /// decides.
    pub fn refusal(&self, head: &RequestHead) -> Option<NbdError>
        ensures { result ≡ refusal self.now head.now }
    {
        if !is_known(head) {
            Some(NbdError::Invalid)
        } else if head.kind == WRITE && self.read_only {
            Some(NbdError::NotPermitted)
        } else if wants_flush(head) && !self.flushes {
            Some(NbdError::Invalid)
        } else if head.kind == FLUSH {
            None
        } else if !is_aligned(head) {
            Some(NbdError::Invalid)
        } else if !self.holds(head) {
            Some(outside(head))
        } else {
            None
        }
    }

    /// Whether the range of a request lies within the export.
    fn holds(&self, head: &RequestHead) -> bool
        ensures { result ≡ not (nat_lt self.now.size (head.now.offset + head.now.len)) }
    {
        let len = u64::from(head.len);
        len <= self.size && head.offset <= self.size - len
    }
}

/// The error of a request whose range doesn't lie within the export.
fn outside(head: &RequestHead) -> NbdError
    ensures { result ≡ (if head.now.kind == 1 then NbdError.NoSpace else NbdError.Invalid) }
{
    if head.kind == WRITE {
        NbdError::NoSpace
    } else {
        NbdError::Invalid
    }
}
