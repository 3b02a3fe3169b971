//! The header of a capture file, and numbers in its byte order.
ghost use Rattle.std.specs.Prelude.{ℕ, List, ◌≡◌, ◌≢◌, ◌<◌, ◌≤◌, ◌+◌, ◌==◌, ◌&&◌, ◌||◌, length, slice_range, Err, IfOk, IfSome, IfNone, OnErr};
ghost use Rattle.std.specs.Bool.{OnFalse, OnTrue};
ghost use Rattle.aoe_base.specs.Faults.{Rose};
ghost use Rattle.aoe_io.specs.Bytes.{Gave, GaveSome};
ghost use Rattle.aoe_pcap.specs.Capture.{FileHead, IsHead, BeginsNoHead, half_of, head_bytes, word_of};

use crate::PcapRefusal;
use aoe_base::Failed;
use aoe_io::{Source, fill_from};

/// The magic number of a file with times in microseconds.
pub const MICROSECONDS: u32 = 0xa1b2_c3d4;

/// The magic number of a file with times in nanoseconds.
const NANOSECONDS: u32 = 0xa1b2_3c4d;

/// The version of the format, before its point and behind it.
pub const MAJOR: u16 = 2;

pub const MINOR: u16 = 4;

/// The link type of Ethernet.
pub const ETHERNET: u32 = 1;

/// How many bytes the header of a file has.
const HEAD_LEN: usize = 24;

/// The header of a file, as far as its records are read by it.
///
/// | Offset | Size | Field |
/// |---|---|---|
/// | 0 | 4 | magic number, which shows the byte order of all numbers of the file |
/// | 4 | 4 | version: 2, and 4 in its second half |
/// | 8 | 4 | time zone |
/// | 12 | 4 | accuracy of times |
/// | 16 | 4 | the most bytes of a packet that were captured |
/// | 20 | 4 | link type, 1 for Ethernet |
#[derive(Clone, Copy, PartialEq, Eq)]
pub struct Head {
    /// Whether numbers are big-endian, and not little-endian.
    pub big: bool,
}

impl Head {
    /// The number of the four bytes from `at` on.
    #[tactic(auto, unfolding(crate::specs::Capture::word_of))]
    pub fn word_at(self, bytes: &[u8], at: usize) -> u32
        requires { at + 4 ≤ length bytes.now }
        ensures { result ≡ word_of self.big (slice_range bytes.now at (at + 4)) }
    {
        let word = match bytes[at..at + 4].first_chunk::<4>() {
            Some(word) => *word,
            None => unreachable!(),
        };
        if self.big {
            u32::from_be_bytes(word)
        } else {
            u32::from_le_bytes(word)
        }
    }

    /// The number of the two bytes from `at` on.
    #[tactic(auto, unfolding(crate::specs::Capture::half_of))]
    fn half_at(self, bytes: &[u8], at: usize) -> u16
        requires { at + 2 ≤ length bytes.now }
        ensures { result ≡ half_of self.big (slice_range bytes.now at (at + 2)) }
    {
        let half = match bytes[at..at + 2].first_chunk::<2>() {
            Some(half) => *half,
            None => unreachable!(),
        };
        if self.big {
            u16::from_be_bytes(half)
        } else {
            u16::from_le_bytes(half)
        }
    }

    /// Whether the bytes are the header of a file in this byte order.
    fn begins(self, bytes: &[u8]) -> bool
        requires { length bytes.now ≡ 24 }
        ensures yes { OnTrue result ((h : FileHead) × IsHead h × (h.big ≡ self.big)
            × (bytes.now ≡ head_bytes h)) }
        ensures no { OnFalse result ((h : FileHead) → h.big ≡ self.big → bytes.now ≢ head_bytes h) }
    {
        is_known(
            self.word_at(bytes, 0),
            self.half_at(bytes, 4),
            self.half_at(bytes, 6),
            self.word_at(bytes, 20),
        )
    }
}

/// Whether a file with this magic number, version and link type is read.
fn is_known(magic: u32, major: u16, minor: u16, link: u32) -> bool
    ensures { result ≡ (((magic == 0xa1b2c3d4) || (magic == 0xa1b23c4d))
        && (major == 2) && (minor == 4) && (link == 1)) }
{
    (magic == MICROSECONDS || magic == NANOSECONDS)
        && major == MAJOR
        && minor == MINOR
        && link == ETHERNET
}

/// What the bytes of a header say, or `None` where they are none.
fn head_of(bytes: &[u8]) -> Option<Head>
    requires { length bytes.now ≡ 24 }
    ensures head { IfSome result (λ head. (h : FileHead) × IsHead h × (h.big ≡ head.big)
        × (bytes.now ≡ head_bytes h)) }
    ensures none { IfNone result ((h : FileHead) → bytes.now ≢ head_bytes h) }
{
    let big = Head { big: true };
    let little = Head { big: false };
    if big.begins(bytes) {
        Some(big)
    } else if little.begins(bytes) {
        Some(little)
    } else {
        None
    }
}

/// Takes the header of a file.
pub fn read_head<S: Source>(source: &mut S) -> Result<Head, PcapRefusal>
    ensures head { IfOk result (λ head. (h : FileHead) × IsHead h × (h.big ≡ head.big)
        × Gave (S.left source.old) (S.left source.new) (head_bytes h)) }
    ensures bad_header { result ≡ Err PcapRefusal.BadHeader
        → IfSome (S.left source.old) BeginsNoHead }
    ensures no_record { (n : ℕ) → result ≢ Err (PcapRefusal.BadRecord n) }
    ensures source_fault { result ≡ Err PcapRefusal.SourceFault
        → Rose (S.faults source.old) (S.faults source.new) }
    ensures no_fault { result ≢ Err PcapRefusal.SourceFault
        → S.faults source.new ≡ S.faults source.old }
    ensures one_fault { S.faults source.new ≤ S.faults source.old + 1 }
    ensures taken { OnErr result (GaveSome (S.left source.old) (S.left source.new)) }
    ensures count { S.faults source.old ≤ S.faults source.new }
{
    let mut bytes = [0; HEAD_LEN];
    match fill_from(source, &mut bytes) {
        Ok(count) if count < HEAD_LEN => return Err(PcapRefusal::BadHeader),
        Ok(_) => {}
        Err(Failed) => return Err(PcapRefusal::SourceFault),
    }
    match head_of(&bytes) {
        Some(head) => Ok(head),
        None => Err(PcapRefusal::BadHeader),
    }
}
