//! Each call of a device fails in turn, or is the last one before a loss of power.
ghost use Rattle.std.specs.Prelude.{◌<◌};

use super::loops::{QUERY, SET, answered, captured, first, reply, served, took};
use aoe_base::{Blob, Mac, Ports, Span, TargetId};
use aoe_cache::AnyStore;
use aoe_disk::{Arm, Loss, MemDisk};
use aoe_frame::Frame;
use aoe_io::{MemLink, MemSink, MemSource};
use aoe_keep::Keep;
use aoe_serve::{AnswerEnd, ServeEnd};
use aoe_target::{Effect, Heard, Target};
use std::alloc::Global;
use std::test::Fail;

fn joined(pieces: &[&[u8]]) -> Frame {
    let mut frame = Frame::new();
    for piece in pieces {
        let _ = frame.try_extend_from_slice(piece);
    }
    frame
}

/// What both targets reply to the query, to the request that sets the string, and to the query again,
/// as it stands on the stream.
fn six_replies() -> Frame {
    let mut all = Frame::new();
    for (asked, is_set) in [(0x10, false), (0x13, true), (0x10, true)] {
        for minor in 0..2u8 {
            let mut reply = reply(minor);
            reply[31] = asked;
            if is_set {
                reply[33] = 2;
                reply[34..36].copy_from_slice(b"ab");
            }
            let _ = all.try_extend_from_slice(&reply);
        }
    }
    all
}

/// The header of a capture file.
const HEADER: [u8; 24] = [
    0xd4, 0xc3, 0xb2, 0xa1, 2, 0, 4, 0, 0, 0, 0, 0, 0, 0, 0, 0, 0x3a, 0x23, 0, 0, 1, 0, 0, 0,
];

/// What stands in a capture file in front of the request that sets the string.
const BEFORE_SET: [u8; 16] = [0, 0, 0, 0, 0, 0, 0, 0, 34, 0, 0, 0, 34, 0, 0, 0];

/// The same in front of a reply.
const BEFORE_REPLY: [u8; 16] = [0, 0, 0, 0, 0, 0, 0, 0, 60, 0, 0, 0, 60, 0, 0, 0];

/// A capture of the request that sets the string, and of the replies of both targets.
fn capture_of_set() -> Frame {
    let replies = six_replies();
    joined(&[
        &HEADER,
        &BEFORE_SET,
        &SET[2..],
        &BEFORE_REPLY,
        replies.get(126..186).unwrap_or(&[]),
        &BEFORE_REPLY,
        replies.get(188..248).unwrap_or(&[]),
    ])
}

#[test]
fn stops_at_each_write_of_a_capture(rt: HostRuntime) -> Result<(), Fail> {
    let whole = capture_of_set();
    // The call of the sink that fails, the end, how many bytes were written, and whether the slots have the string: the
    // frame whose record isn't taken comes to them all the same.
    let cases = [
        (0, AnswerEnd::Ended, 226, true),
        (1, AnswerEnd::SinkFault, 0, false),
        (2, AnswerEnd::SinkFault, 24, true),
        (3, AnswerEnd::SinkFault, 74, true),
        (4, AnswerEnd::SinkFault, 150, true),
        (5, AnswerEnd::Ended, 226, true),
    ];
    for (writing, end, count, is_set) in &cases {
        let mut source = MemSource::of(rt.alloc(), &SET)?;
        let mut sink = MemSink::new(rt.alloc(), 1000)?;
        sink.fail_at(*writing);
        let ended = captured(rt.alloc(), &mut source, &mut sink)?;
        assert!(rt; ended == (*end, *is_set) && Some(sink.bytes()) == whole.get(..*count));
    }
    Ok(())
}

/// Whether a stream whose source and sink fail in these calls ends so, and these bytes were written.
fn ends(
    alloc: Global,
    stream: &[u8],
    reading: u32,
    writing: u32,
    end: (AnswerEnd, bool),
    told: &[u8],
) -> Result<bool, Fail> {
    let mut source = MemSource::of(alloc, stream)?;
    let mut sink = MemSink::new(alloc, 1000)?;
    source.fail_at(reading);
    sink.fail_at(writing);
    let ended = answered(alloc, &mut source, &mut sink)?;
    Ok(ended == end && sink.bytes() == told)
}

#[test]
fn stops_at_each_call_of_a_stream(rt: HostRuntime) -> Result<(), Fail> {
    let stream = joined(&[&QUERY, &SET, &QUERY]);
    let replies = six_replies();
    // The call of the source that fails, that of the sink, the end, how many replies were written, and
    // whether the slots have the string.
    let cases = [
        (1, 0, AnswerEnd::SourceFault, 0, false),
        (2, 0, AnswerEnd::SourceFault, 0, false),
        (3, 0, AnswerEnd::SourceFault, 2, false),
        (4, 0, AnswerEnd::SourceFault, 2, false),
        (5, 0, AnswerEnd::SourceFault, 4, true),
        (6, 0, AnswerEnd::SourceFault, 4, true),
        (7, 0, AnswerEnd::SourceFault, 6, true),
        (8, 0, AnswerEnd::Ended, 6, true),
        (0, 1, AnswerEnd::SinkFault, 0, false),
        (0, 2, AnswerEnd::SinkFault, 1, false),
        (0, 3, AnswerEnd::SinkFault, 2, true),
        (0, 4, AnswerEnd::SinkFault, 3, true),
        (0, 5, AnswerEnd::SinkFault, 4, true),
        (0, 6, AnswerEnd::SinkFault, 5, true),
        (0, 7, AnswerEnd::Ended, 6, true),
    ];
    for (reading, writing, end, count, is_set) in &cases {
        let told = first(replies.as_slice(), *count);
        assert!(rt;
            ends(
                rt.alloc(),
                stream.as_slice(),
                *reading,
                *writing,
                (*end, *is_set),
                told
            )?
        );
    }
    Ok(())
}

/// A link with room for six frames that brings the query, the request that sets the string, and the
/// query again.
fn link_of_three(alloc: Global) -> Result<MemLink, Fail> {
    let mut coming = Vec::new(alloc);
    coming.push(Some(Blob::of(alloc, &QUERY[2..])?))?;
    coming.push(Some(Blob::of(alloc, &SET[2..])?))?;
    coming.push(Some(Blob::of(alloc, &QUERY[2..])?))?;
    Ok(MemLink::of(alloc, coming, 6)?)
}

/// Whether a link that fails in this call ends so, and took these replies.
fn serves(alloc: Global, due: u32, end: (ServeEnd, bool), told: &[u8]) -> Result<bool, Fail> {
    let mut link = link_of_three(alloc)?;
    link.fail_at(due);
    let ended = served(alloc, &mut link, 3, 9)?;
    Ok(ended == end && took(&link, told))
}

#[test]
fn stops_at_each_call_of_a_link(rt: HostRuntime) -> Result<(), Fail> {
    let replies = six_replies();
    // The call of the link that fails, the end, how many replies it took, and whether the slots have
    // the string.
    let cases = [
        (1, ServeEnd::LinkFault, 0, false),
        (2, ServeEnd::LinkFault, 0, false),
        (3, ServeEnd::LinkFault, 1, false),
        (4, ServeEnd::LinkFault, 2, false),
        (5, ServeEnd::LinkFault, 2, true),
        (6, ServeEnd::LinkFault, 3, true),
        (7, ServeEnd::LinkFault, 4, true),
        (8, ServeEnd::LinkFault, 4, true),
        (9, ServeEnd::LinkFault, 5, true),
        (10, ServeEnd::Ended, 6, true),
    ];
    for (due, end, count, is_set) in &cases {
        let told = first(replies.as_slice(), *count);
        assert!(rt; serves(rt.alloc(), *due, (*end, *is_set), told)?);
    }
    Ok(())
}

type MemTarget = Target<AnyStore<MemDisk>, MemDisk>;

/// A store that writes through, or that holds back four sectors.
fn store_over(alloc: Global, disk: MemDisk, is_cached: bool) -> Result<AnyStore<MemDisk>, Fail> {
    let room = if is_cached { Some(4) } else { None };
    match AnyStore::over(alloc, disk, room) {
        Ok(store) => Ok(store),
        Err((refused, _)) => Err(refused.into()),
    }
}

/// The target 1.0 over these disks.
fn target_over(
    alloc: Global,
    disk: MemDisk,
    keep: MemDisk,
    is_cached: bool,
) -> Result<MemTarget, Fail> {
    let Ok(keep) = Keep::mount(keep) else {
        return Err(Fail::from("no keep"));
    };
    let mut ports = Ports::new();
    ports.push(Mac([2, 0, 0, 0, 0, 1]));
    let id = TargetId { major: 1, minor: 0 };
    let store = store_over(alloc, disk, is_cached)?;
    Ok(Target::mount(store, keep, id, ports, 1500))
}

/// The target over 16 zero sectors, without lists.
fn target(alloc: Global, is_cached: bool) -> Result<MemTarget, Fail> {
    let disk = MemDisk::new(alloc, 16)?;
    target_over(alloc, disk, MemDisk::new(alloc, 16)?, is_cached)
}

/// A request, what becomes of it where a call of a disk fails, with the error in the reply's header and
/// that in its registers, and what becomes of it else.
#[derive(Drop)]
struct Request {
    command: u8,
    args: Frame,
    fault: Effect,
    errors: [u8; 2],
    done: Effect,
}

/// A change of the config string.
fn edit() -> Request {
    Request {
        command: 1,
        args: joined(&[b"\0\0\0\0\0\x03\0\x02ab"]),
        fault: Effect::EditFault,
        errors: [3, 0],
        done: Effect::Edited,
    }
}

fn read(sector: u8) -> Request {
    Request {
        command: 0,
        args: joined(&[&[0x40, 0, 1, 0x24, sector, 0, 0, 0, 0, 0, 0, 0]]),
        fault: Effect::ReadFault,
        errors: [0, 0x40],
        done: Effect::None,
    }
}

/// A write of a sector, every byte of which is 0x5a.
fn write(sector: u8) -> Request {
    let at = u64::from(sector);
    let span = Span { at, count: 1 };
    let registers = [0x41, 0, 1, 0x34, sector, 0, 0, 0, 0, 0, 0, 0];
    Request {
        command: 0,
        args: joined(&[&registers, &[0x5a; 512]]),
        fault: Effect::WriteFault(span),
        errors: [0, 4],
        done: Effect::Wrote(span),
    }
}

fn flush() -> Request {
    Request {
        command: 0,
        args: joined(&[b"\x40\0\0\xea\0\0\0\0\0\0\0\0"]),
        fault: Effect::SyncFault,
        errors: [0, 4],
        done: Effect::Synced,
    }
}

/// What becomes of a request of the station 02:00:00:00:00:0a with the tag 7, and the reply.
fn exchange(target: &mut MemTarget, request: &Request) -> (Effect, Frame) {
    let ends = b"\x02\0\0\0\0\x01\x02\0\0\0\0\x0a\x88\xa2\x10\0\0\x01\0";
    let tag = b"\0\0\0\x07";
    let frame = joined(&[ends, &[request.command], tag, request.args.as_slice()]);
    let mut out = Frame::new();
    match target.receive(frame.as_slice(), &mut out) {
        Heard::Replied { effect } => (effect, out),
        Heard::Ignored | Heard::Silent => (Effect::None, Frame::new()),
    }
}

/// The target, to which four sectors were written that don't lie side by side: as many as a cached
/// store holds back. From now on the `k`-th call of the disk that the request is about fails.
fn failing_target(
    alloc: Global,
    is_cached: bool,
    request: &Request,
    k: u32,
) -> Result<MemTarget, Fail>
    requires { 0 < k }
{
    let mut target = target(alloc, is_cached)?;
    for sector in [0, 2, 4, 6] {
        let _ = exchange(&mut target, &write(sector));
    }
    if request.fault == Effect::EditFault {
        target.arm_keep(Arm::Fail(k));
    } else {
        target.arm_store(Arm::Fail(k));
    }
    Ok(target)
}

/// Whether a target has the four sectors.
fn has_sectors(target: &mut MemTarget) -> bool {
    for sector in [0, 2, 4, 6] {
        let (_, out) = exchange(target, &read(sector));
        if out.as_slice().get(36..548) != Some([0x5a; 512].as_slice()) {
            return false;
        }
    }
    true
}

/// Whether a target that was flushed has the four sectors after a loss of power.
fn outlives(alloc: Global, target: MemTarget) -> Result<bool, Fail> {
    let (store, keep) = target.close();
    let (disk, keep) = (
        store.close().crash(Loss::Old),
        keep.close().crash(Loss::Old),
    );
    let mut target = target_over(alloc, disk, keep, false)?;
    Ok(has_sectors(&mut target))
}

/// Whether a request is answered by its fault.
fn is_fault(target: &mut MemTarget, request: &Request) -> bool {
    let (effect, out) = exchange(target, request);
    let [in_header, in_registers] = request.errors;
    effect == request.fault
        && out.as_slice().get(15) == Some(&in_header)
        && out.as_slice().get(25) == Some(&in_registers)
}

fn is_done(target: &mut MemTarget, request: &Request) -> bool {
    let (effect, _) = exchange(target, request);
    effect == request.done
}

/// Whether a request whose `k`-th call of a disk fails is answered by its fault and the same one then
/// succeeds, and a flush behind it keeps the four sectors.
fn goes_on(alloc: Global, is_cached: bool, request: &Request, k: u32) -> Result<bool, Fail>
    requires { 0 < k }
{
    let mut target = failing_target(alloc, is_cached, request, k)?;
    let is_told = is_fault(&mut target, request)
        && is_done(&mut target, request)
        && is_done(&mut target, &flush());
    let is_kept = outlives(alloc, target)?;
    Ok(is_told && is_kept)
}

/// Whether a request makes so many calls of a disk: each of them can fail alone, and no other.
fn calls(alloc: Global, is_cached: bool, request: &Request, calls: u8) -> Result<bool, Fail> {
    let count = u32::from(calls);
    for k in 1..=count {
        if !goes_on(alloc, is_cached, request, k)? {
            return Ok(false);
        }
    }
    let mut target = failing_target(alloc, is_cached, request, count + 1)?;
    Ok(is_done(&mut target, request))
}

/// Whether it makes so many with a store that writes through, and so many with one that doesn't.
fn makes(alloc: Global, request: &Request, direct: u8, cached: u8) -> Result<bool, Fail> {
    Ok(calls(alloc, false, request, direct)? && calls(alloc, true, request, cached)?)
}

#[test]
fn answers_each_fault_of_a_disk(rt: HostRuntime) -> Result<(), Fail> {
    // A request, and how many calls of a disk it makes with a store that writes through, and with one
    // that holds back four sectors.
    let cases: [(Request, u8, u8); 4] = [
        (edit(), 6, 6),
        (read(2), 1, 1),
        (write(8), 1, 4),
        (flush(), 1, 5),
    ];
    for (request, direct, cached) in &cases {
        assert!(rt; makes(rt.alloc(), request, *direct, *cached)?);
    }
    Ok(())
}

/// Whether a write of the sector 3 is done, and the flush behind it stops at its first call.
fn stops(target: &mut MemTarget) -> bool {
    if !is_done(target, &write(3)) {
        return false;
    }
    target.arm_store(Arm::Stop(1));
    let (effect, _) = exchange(target, &flush());
    effect == Effect::SyncFault && target.store_is_out()
}

/// The target after a loss of power.
fn crashed(
    alloc: Global,
    target: MemTarget,
    is_cached: bool,
    how: Loss,
) -> Result<MemTarget, Fail> {
    let (store, keep) = target.close();
    let (disk, keep) = (store.close().crash(how), keep.close().crash(how));
    target_over(alloc, disk, keep, is_cached)
}

/// Whether the halves of the sector 3 have these bytes.
fn has_halves(target: &mut MemTarget, [first, second]: [u8; 2]) -> bool {
    let (_, out) = exchange(target, &read(3));
    let sector = joined(&[&[first; 256], &[second; 256]]);
    out.as_slice().get(36..548) == Some(sector.as_slice())
}

/// Whether a loss of power in a flush leaves these halves of the sector 3.
fn leaves(alloc: Global, is_cached: bool, how: Loss, halves: [u8; 2]) -> Result<bool, Fail> {
    let mut stopped = target(alloc, is_cached)?;
    let has_stopped = stops(&mut stopped);
    let mut target = crashed(alloc, stopped, is_cached, how)?;
    Ok(has_stopped && has_halves(&mut target, halves))
}

#[test]
fn loses_power_in_a_flush(rt: HostRuntime) -> Result<(), Fail> {
    // Whether the store is cached, so that the last call of its disk is the write of the sector and not
    // the sync; what a loss of power leaves of a sector that isn't synced; and the bytes of its halves.
    let cases = [
        (false, Loss::Keep, [0x5a, 0x5a]),
        (false, Loss::Old, [0, 0]),
        (false, Loss::Torn, [0x5a, 0]),
        (false, Loss::Mix(0), [0xee, 0xee]),
        (true, Loss::Keep, [0xee, 0xee]),
        (true, Loss::Old, [0, 0]),
        (true, Loss::Torn, [0xee, 0]),
        (true, Loss::Mix(0), [0xee, 0xee]),
    ];
    for (is_cached, how, halves) in &cases {
        assert!(rt; leaves(rt.alloc(), *is_cached, *how, *halves)?);
    }
    Ok(())
}
