//! The bytes of a capture file, to be written one piece after the other.
ghost use Rattle.std.specs.Prelude.{◌≡◌, ◌+◌, ◌<◌, ◌≤◌, ◌++◌, ◌^◌, length, false};
ghost use Rattle.aoe_base.specs.Sizes.{longest_frame};
ghost use Rattle.aoe_pcap.specs.Capture.{head_bytes, packet_bytes, packet_of, record_head, written_head};

use crate::head::{ETHERNET, MAJOR, MICROSECONDS, MINOR};
use crate::reader::RECORD_HEAD_LEN;
use aoe_base::append;
use aoe_frame::{Frame, MAX_FRAME};
use arrayvec::ArrayVec;

/// How many bytes the longest record has that is written.
const MAX_RECORD: usize = RECORD_HEAD_LEN + MAX_FRAME;

/// The record of a frame.
pub type RecordBytes = ArrayVec<u8, 9034>;

/// Zeros for the bytes that a record grows by.
static ZEROS: [u8; MAX_RECORD] = [0; MAX_RECORD];

/// Makes `out` the header of a file: little-endian, with times in microseconds, and of at most 9018
/// bytes of a packet.
#[tactic(auto, unfolding(crate::specs::Capture::head_bytes, crate::specs::Capture::word, crate::specs::Capture::half))]
pub fn write_head(out: &mut Frame)
    ensures { out.new.items ≡ head_bytes written_head }
{
    out.clear();
    append(out, &MICROSECONDS.to_le_bytes());
    append(out, &MAJOR.to_le_bytes());
    append(out, &MINOR.to_le_bytes());
    append(out, &[0; 8]);
    append(out, &(MAX_FRAME as u32).to_le_bytes());
    append(out, &ETHERNET.to_le_bytes());
}

/// Makes `out` `len` bytes long. What they are doesn't matter.
fn resize(out: &mut RecordBytes, len: usize)
    requires { len ≤ 9034 }
    ensures { length out.new.items ≡ len }
{
    if out.len() > len {
        out.truncate(len);
    } else if out.len() < len {
        let missing = len - out.len();
        append(out, &ZEROS[..missing]);
    }
}

/// The header of the record of a frame that has `len` bytes, with the time 0.
#[tactic(auto, unfolding(crate::specs::Capture::record_head, crate::specs::Capture::word))]
fn record_head_of(len: u32) -> [u8; RECORD_HEAD_LEN]
    ensures { result ≡ record_head false 0 0 len len }
{
    let [a, b, c, d] = len.to_le_bytes();
    [0, 0, 0, 0, 0, 0, 0, 0, a, b, c, d, a, b, c, d]
}

/// Writes a record over a place of its length.
fn put_record(frame: &[u8], out: &mut [u8])
    requires few { length frame.now ≤ longest_frame }
    requires place { length out.old ≡ 16 + length frame.now }
    ensures { out.new ≡ packet_bytes false (packet_of frame.now) }
{
    let (head, captured) = out.split_at_mut(RECORD_HEAD_LEN);
    head.copy_from_slice(&record_head_of(frame.len() as u32));
    captured.copy_from_slice(frame);
}

/// Makes `out` the record of a frame, all of which was captured, in a file that begins as
/// [`write_head`] has it. Its time is 0.
pub fn write_record(frame: &[u8], out: &mut RecordBytes)
    requires { length frame.now ≤ longest_frame }
    ensures { out.new.items ≡ packet_bytes false (packet_of frame.now) }
{
    resize(out, RECORD_HEAD_LEN + frame.len());
    put_record(frame, out.as_mut_slice());
}
