//! The records of a capture file, read one after the other.
ghost use Rattle.std.specs.Prelude.{ℕ, List, [], ◌≡◌, ◌≢◌, ◌<◌, ◌≤◌, ◌+◌, ◌^◌, length, nat_lt, Ok, Err, None, true, false, IfOk, IfSome, OnErr, OnOk, if◌then◌else◌};
ghost use Rattle.aoe_base.specs.Faults.{Rose};
ghost use Rattle.aoe_base.specs.Sizes.{longest_frame};
ghost use Rattle.aoe_io.specs.Bytes.{Gave, GaveSome, IsEnded};
ghost use Rattle.aoe_pcap.specs.Capture.{GaveRecord, IsCut, claimed, kind, longest_captured, record_head};

use crate::Head;
use aoe_base::Failed;
use aoe_frame::{Frame, MAX_FRAME};
use aoe_io::{Source, fill_frame, fill_from};
use thiserror::Error;

/// How many bytes stand in a record in front of those that were captured.
pub const RECORD_HEAD_LEN: usize = 16;

/// The most bytes that a record may have, as libpcap has it.
const MAX_CAPTURED: u32 = 262_144;

/// What the next record of a file is.
#[derive(Clone, Copy, PartialEq, Eq)]
pub enum Record {
    /// A frame, of which all bytes were captured.
    Whole,

    /// A frame, of which the last bytes weren't captured.
    Short,

    /// More bytes than a frame has. They were read past.
    Long { captured: u32 },

    /// There is none: the file ends.
    End,
}

/// Why a file isn't read on.
#[derive(Clone, Copy, Debug, PartialEq, Eq, Error)]
pub enum PcapRefusal {
    #[error("source fault")]
    SourceFault,

    /// The input doesn't begin with the header of a capture file of Ethernet.
    #[error("bad header")]
    BadHeader,

    /// The input ends within this record, or more than 262,144 bytes of it were captured.
    #[error("bad record {number}")]
    BadRecord { number: u32 },
}

/// How many bytes of a packet were captured, and how many it had.
#[derive(Clone, Copy)]
struct Lengths {
    captured: u32,
    original: u32,
}

impl Lengths {
    /// What the record of these lengths is.
    fn kind(self) -> Record
        ensures { result ≡ kind self.captured self.original }
    {
        if self.captured as usize > MAX_FRAME {
            Record::Long {
                captured: self.captured,
            }
        } else if self.captured < self.original {
            Record::Short
        } else {
            Record::Whole
        }
    }
}

/// The lengths that the header of a record has.
fn lengths_of(head: &Head, bytes: &[u8]) -> Lengths
    requires { length bytes.now ≡ 16 }
    ensures spelled { (seconds : ℕ) × (fraction : ℕ) × (seconds < 2 ^ 32) × (fraction < 2 ^ 32)
        × (bytes.now ≡ record_head head.now.big seconds fraction result.captured result.original) }
    ensures captured { result.captured ≡ claimed head.now.big bytes.now }
{
    Lengths {
        captured: head.word_at(bytes, 8),
        original: head.word_at(bytes, 12),
    }
}

/// Takes the header of a record, or `None` where the input ends before it.
fn read_lengths<S: Source>(
    source: &mut S,
    head: &Head,
    number: u32,
) -> Result<Option<Lengths>, PcapRefusal>
    ensures few { IfOk result (λ came. IfSome came (λ lengths. lengths.captured ≤ longest_captured)) }
    ensures fits { IfOk result (λ came. IfSome came (λ lengths. lengths.original < 2 ^ 32)) }
    ensures gave { IfOk result (λ came. IfSome came (λ lengths. (seconds : ℕ) × (fraction : ℕ)
        × (seconds < 2 ^ 32) × (fraction < 2 ^ 32) × Gave (S.left source.old) (S.left source.new)
        (record_head head.now.big seconds fraction lengths.captured lengths.original))) }
    ensures end { result ≡ Ok None
        → IsEnded (S.left source.old) × (S.left source.new ≡ S.left source.old) }
    ensures bad_record { (n : ℕ) → result ≡ Err (PcapRefusal.BadRecord n)
        → (n ≡ number) × IfSome (S.left source.old) (IsCut head.now.big) }
    ensures no_header { result ≢ Err PcapRefusal.BadHeader }
    ensures source_fault { result ≡ Err PcapRefusal.SourceFault
        → Rose (S.faults source.old) (S.faults source.new) }
    ensures no_fault { result ≢ Err PcapRefusal.SourceFault
        → S.faults source.new ≡ S.faults source.old }
    ensures one_fault { S.faults source.new ≤ S.faults source.old + 1 }
    ensures taken { OnErr result (GaveSome (S.left source.old) (S.left source.new)) }
    ensures count { S.faults source.old ≤ S.faults source.new }
{
    let mut bytes = [0; RECORD_HEAD_LEN];
    match fill_from(source, &mut bytes) {
        Ok(0) => return Ok(None),
        Ok(count) if count < RECORD_HEAD_LEN => return Err(PcapRefusal::BadRecord { number }),
        Ok(_) => {}
        Err(Failed) => return Err(PcapRefusal::SourceFault),
    }
    let lengths = lengths_of(head, &bytes);
    if lengths.captured > MAX_CAPTURED {
        return Err(PcapRefusal::BadRecord { number });
    }
    Ok(Some(lengths))
}

/// Reads past the next `count` bytes of the source, through `out`, which is empty then: false where
/// the input ends before.
fn skip<S: Source>(source: &mut S, count: usize, out: &mut Frame) -> Result<bool, Failed>
    ensures passed { result ≡ Ok true → (bytes : List ℕ) × (length bytes ≡ count)
        × Gave (S.left source.old) (S.left source.new) bytes }
    ensures empty { result ≡ Ok true → out.new.items ≡ [] }
    ensures short { result ≡ Ok false → IfSome (S.left source.old) (λ left. length left < count) }
    ensures taken { GaveSome (S.left source.old) (S.left source.new) }
    ensures count { S.faults source.old ≤ S.faults source.new }
    ensures cause { OnErr result (Rose (S.faults source.old) (S.faults source.new)) }
    ensures no_fault { OnOk result (S.faults source.new ≡ S.faults source.old) }
    ensures one_fault { S.faults source.new ≤ S.faults source.old + 1 }
{
    let mut missing = count;
    'pieces: while missing > 0 {
        let piece = missing.min(MAX_FRAME);
        match fill_frame(source, piece, out) {
            Ok(true) => missing -= piece,
            Ok(false) => return Ok(false),
            Err(Failed) => return Err(Failed),
        }
    }
    out.clear();
    Ok(true)
}

/// Makes `out` the next `count` bytes of the source, or empty where they are more than a frame has:
/// false where the input ends before.
fn read_captured<S: Source>(source: &mut S, count: usize, out: &mut Frame) -> Result<bool, Failed>
    ensures captured { result ≡ Ok true → (bytes : List ℕ) × (length bytes ≡ count)
        × Gave (S.left source.old) (S.left source.new) bytes
        × (out.new.items ≡ (if nat_lt longest_frame count then [] else bytes)) }
    ensures short { result ≡ Ok false → IfSome (S.left source.old) (λ left. length left < count) }
    ensures taken { GaveSome (S.left source.old) (S.left source.new) }
    ensures count { S.faults source.old ≤ S.faults source.new }
    ensures cause { OnErr result (Rose (S.faults source.old) (S.faults source.new)) }
    ensures no_fault { OnOk result (S.faults source.new ≡ S.faults source.old) }
    ensures one_fault { S.faults source.new ≤ S.faults source.old + 1 }
{
    if count == 0 || count > MAX_FRAME {
        return skip(source, count, out);
    }
    fill_frame(source, count, out)
}

/// Takes the next record of a file with this header, and makes `out` its frame, or empty where the
/// record is `Long`. Records are numbered from 1. At the end of the file `out` stays as it was, and
/// after a refusal it may hold any bytes.
pub fn next_record<S: Source>(
    source: &mut S,
    head: &Head,
    number: u32,
    out: &mut Frame,
) -> Result<Record, PcapRefusal>
    ensures gave { IfOk result (λ came. came ≢ Record.End
        → GaveRecord head.now.big (S.left source.old) (S.left source.new) came out.new.items) }
    ensures end { result ≡ Ok Record.End
        → IsEnded (S.left source.old) × (S.left source.new ≡ S.left source.old) }
    ensures kept { result ≡ Ok Record.End → out.new.items ≡ out.old.items }
    ensures bad_record { (n : ℕ) → result ≡ Err (PcapRefusal.BadRecord n)
        → (n ≡ number) × IfSome (S.left source.old) (IsCut head.now.big) }
    ensures no_header { result ≢ Err PcapRefusal.BadHeader }
    ensures source_fault { result ≡ Err PcapRefusal.SourceFault
        → Rose (S.faults source.old) (S.faults source.new) }
    ensures no_fault { result ≢ Err PcapRefusal.SourceFault
        → S.faults source.new ≡ S.faults source.old }
    ensures one_fault { S.faults source.new ≤ S.faults source.old + 1 }
    ensures taken { OnErr result (GaveSome (S.left source.old) (S.left source.new)) }
    ensures count { S.faults source.old ≤ S.faults source.new }
{
    let lengths = match read_lengths(source, head, number) {
        Ok(Some(lengths)) => lengths,
        Ok(None) => return Ok(Record::End),
        Err(refusal) => return Err(refusal),
    };
    match read_captured(source, lengths.captured as usize, out) {
        Ok(true) => Ok(lengths.kind()),
        Ok(false) => Err(PcapRefusal::BadRecord { number }),
        Err(Failed) => Err(PcapRefusal::SourceFault),
    }
}
