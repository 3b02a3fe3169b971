//! Capture files, read and written.
ghost use Rattle.std.specs.Prelude.{◌≤◌, length};
ghost use Rattle.aoe_base.specs.Sizes.{longest_frame};

use crate::checks::holds;
use aoe_frame::Frame;
use aoe_io::MemSource;
use aoe_pcap::{
    Head, PcapRefusal, Record, RecordBytes, next_record, read_head, write_head, write_record,
};
use std::test::Fail;

/// The header of a little-endian file with times in microseconds, and of a big-endian one with
/// times in nanoseconds, a time zone, an accuracy and a greatest length.
const LITTLE: &[u8] = b"\xd4\xc3\xb2\xa1\x02\0\x04\0\0\0\0\0\0\0\0\0\x3a\x23\0\0\x01\0\0\0";

const BIG: &[u8] = b"\xa1\xb2\x3c\x4d\0\x02\0\x04\0\0\x0e\x10\0\0\0\x03\0\0\0\x60\0\0\0\x01";

/// A query config read from all shelves and slots, by 02:00:00:00:00:0a, and the reply of shelf 1,
/// slot 0.
const QUERY: &[u8; 32] =
    b"\xff\xff\xff\xff\xff\xff\x02\0\0\0\0\x0a\x88\xa2\x10\0\xff\xff\xff\x01\0\0\0\x07\0\0\0\0\0\0\0\0";

const REPLY: &[u8; 60] =
    b"\x02\0\0\0\0\x0a\x02\0\0\0\0\x01\x88\xa2\x18\0\0\x01\0\x01\0\0\0\x07\0\x10\0\x01\x02\x10\0\0\0\0\0\0\0\0\0\0\0\0\0\0\0\0\0\0\0\0\0\0\0\0\0\0\0\0\0\0";

/// The numbers in front of the two frames in a file that is written.
const QUERY_HEAD: &[u8; 16] = b"\0\0\0\0\0\0\0\0\x20\0\0\0\x20\0\0\0";

const REPLY_HEAD: &[u8; 16] = b"\0\0\0\0\0\0\0\0\x3c\0\0\0\x3c\0\0\0";

/// Whether the record of a frame has these numbers and then the frame.
fn writes(frame: &[u8], head: &[u8], out: &mut RecordBytes) -> bool
    requires { length frame.now ≤ longest_frame }
{
    write_record(frame, out);
    let record = out.as_slice();
    record.len() > 16 && &record[..16] == head && &record[16..] == frame
}

#[test]
fn writes_a_file(rt: HostRuntime) -> Result<(), Fail> {
    let mut head = Frame::new();
    write_head(&mut head);
    let mut record = RecordBytes::new();
    let is_written = writes(QUERY, QUERY_HEAD, &mut record)
        && writes(REPLY, REPLY_HEAD, &mut record);
    assert!(rt; is_written && head.as_slice() == LITTLE);
    Ok(())
}

/// Whether the header is taken so.
fn takes(source: &mut MemSource, head: Result<Head, PcapRefusal>) -> bool {
    read_head(source) == head
}

#[test]
fn takes_the_header(rt: HostRuntime) -> Result<(), Fail> {
    let none = Err(PcapRefusal::BadHeader);
    let inputs: [(&[u8], Result<Head, PcapRefusal>); 10] = [
        (LITTLE, Ok(Head { big: false })),
        (BIG, Ok(Head { big: true })),
        (
            b"\x4d\x3c\xb2\xa1\x02\0\x04\0\0\0\0\0\0\0\0\0\0\0\x04\0\x01\0\0\0",
            Ok(Head { big: false }),
        ),
        (b"", none),
        (&LITTLE[..10], none),
        (&LITTLE[..23], none),
        // The magic number of pcapng, version 2.3, the link type of 802.11, and a version in the
        // other order.
        (
            b"\x0a\x0d\x0d\x0a\x1c\0\0\0\x4d\x3c\x2b\x1a\x01\0\0\0\xff\xff\xff\xff\xff\xff\xff\xff",
            none,
        ),
        (
            b"\xd4\xc3\xb2\xa1\x02\0\x03\0\0\0\0\0\0\0\0\0\x3a\x23\0\0\x01\0\0\0",
            none,
        ),
        (
            b"\xd4\xc3\xb2\xa1\x02\0\x04\0\0\0\0\0\0\0\0\0\x3a\x23\0\0\x69\0\0\0",
            none,
        ),
        (
            b"\xd4\xc3\xb2\xa1\0\x02\0\x04\0\0\0\0\0\0\0\0\0\0\x23\x3a\0\0\0\x01",
            none,
        ),
    ];
    for (input, head) in &inputs {
        let mut source = MemSource::of(rt.alloc(), input)?;
        assert!(rt; takes(&mut source, *head));
    }
    Ok(())
}

/// What a call is to answer, and the frame that it gives.
#[derive(Clone, Copy)]
struct Read {
    is: Result<Record, PcapRefusal>,
    frame: &'static [u8],
}

/// The number of each record.
const NUMBER: u32 = 7;

const END: Read = Read {
    is: Ok(Record::End),
    frame: b"",
};

const BAD: Read = Read {
    is: Err(PcapRefusal::BadRecord { number: NUMBER }),
    frame: b"",
};

const fn whole(frame: &'static [u8]) -> Read {
    Read {
        is: Ok(Record::Whole),
        frame,
    }
}

const fn short(frame: &'static [u8]) -> Read {
    Read {
        is: Ok(Record::Short),
        frame,
    }
}

/// Whether the next record is read so.
fn reads(source: &mut MemSource, head: &Head, expected: &Read) -> bool {
    let mut frame = Frame::new();
    let came = next_record(source, head, NUMBER, &mut frame);
    came == expected.is && (came.is_err() || frame.as_slice() == expected.frame)
}

/// Whether the records behind a header are read so, one after the other.
fn reads_all(source: &mut MemSource, big: bool, expected: &[Read]) -> bool {
    let head = Head { big };
    for read in expected {
        if !reads(source, &head, read) {
            return false;
        }
    }
    true
}

#[test]
fn reads_records(rt: HostRuntime) -> Result<(), Fail> {
    // The byte order, what stands behind the header, and the records. A record has a time of eight
    // bytes, the captured length and the original one.
    let files: [(bool, &[u8], &[Read]); 12] = [
        (false, b"", &[END, END]),
        (false, b"........\0\0\0\0\0\0\0\0", &[whole(b""), END]),
        (false, b"........\0\0\0\0\x01\0\0\0", &[short(b""), END]),
        (
            false,
            b"........\x03\0\0\0\x03\0\0\0abc",
            &[whole(b"abc"), END],
        ),
        (
            false,
            b"........\x03\0\0\0\x04\0\0\0abc",
            &[short(b"abc"), END],
        ),
        (
            false,
            b"........\x03\0\0\0\x02\0\0\0abc",
            &[whole(b"abc"), END],
        ),
        (
            true,
            b"........\0\0\0\x03\0\0\x01\0abc",
            &[short(b"abc"), END],
        ),
        (
            true,
            b"........\0\0\0\x01\0\0\0\x01a........\0\0\0\x02\0\0\0\x02bc",
            &[whole(b"a"), whole(b"bc"), END],
        ),
        (true, b".", &[BAD]),
        (
            true,
            b"........\0\0\0\0\0\0\0\0........\0\0\0\0\0\0\0",
            &[whole(b""), BAD],
        ),
        (true, b"........\0\0\0\x03\0\0\0\x03ab", &[BAD]),
        (true, b"........\0\x04\0\x01\0\x04\0\x01abc", &[BAD]),
    ];
    for (big, input, expected) in &files {
        let mut source = MemSource::of(rt.alloc(), input)?;
        assert!(rt; reads_all(&mut source, *big, expected));
    }
    Ok(())
}

/// Makes zeros the records of 9018 bytes, of 9019, and of none.
fn put_lengths(zeros: &mut [u8])
    requires { 9050 ≤ length zeros.old }
{
    zeros[8..16].copy_from_slice(b"\x3a\x23\0\0\x3a\x23\0\0");
    zeros[9042..9050].copy_from_slice(b"\x3b\x23\0\0\x3b\x23\0\0");
}

#[test]
fn reads_past_a_long_record(rt: HostRuntime) -> Result<(), Fail> {
    let mut input = [0; 48 + 9018 + 9019];
    put_lengths(&mut input);
    let long = Read {
        is: Ok(Record::Long { captured: 9019 }),
        frame: b"",
    };
    let mut source = MemSource::of(rt.alloc(), &input)?;
    let is_read = reads_all(
        &mut source,
        false,
        &[whole(&[0; 9018]), long, whole(b""), END],
    );
    assert!(rt; is_read);
    Ok(())
}

#[test]
fn tells_a_fault_of_the_source(rt: HostRuntime) -> Result<(), Fail> {
    let fault = Err(PcapRefusal::SourceFault);
    let mut source = MemSource::of(rt.alloc(), LITTLE)?;
    source.fail_at(1);
    let is_told = takes(&mut source, fault);
    source.fail_at(2);
    let is_taken = takes(&mut source, Ok(Head { big: false }));
    let is_told_again = reads(
        &mut source,
        &Head { big: false },
        &Read {
            is: Err(PcapRefusal::SourceFault),
            frame: b"",
        },
    );
    assert!(rt; is_told && is_taken && is_told_again);
    Ok(())
}

#[test]
fn says_why_a_file_is_not_read_on(rt: HostRuntime) -> Result<(), Fail> {
    let cases = [
        (PcapRefusal::SourceFault, "source fault"),
        (PcapRefusal::BadHeader, "bad header"),
        (
            PcapRefusal::BadRecord {
                number: 4_294_967_295,
            },
            "bad record 4294967295",
        ),
    ];
    for (refusal, text) in &cases {
        let told = format!(in rt.alloc(); "{refusal}")?;
        holds(&rt, told.as_str() == *text, text);
    }
    Ok(())
}
