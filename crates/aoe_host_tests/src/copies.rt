//! Copies out of a device and into one, over links in memory.
ghost use Rattle.std.specs.Prelude.{◌≡◌, ◌<◌, ◌≤◌, All, IfOk, length};
ghost use Rattle.aoe_base.specs.Sizes.{longest_frame, longest_lifetime};
ghost use Rattle.aoe_io.specs.LinkMemory.{IsShort};

use aoe_base::{Blob, Mac, NoMemory, TargetId};
use aoe_copy::{CopyRefusal, Terms, Watch, flush, get, put};
use aoe_frame::Frame;
use aoe_initiator::LIFETIMES;
use aoe_io::{MemLink, MemSink, MemSource, SetClock};
use aoe_tools::{Ask, Refusal, ToolRefusal};
use std::alloc::Global;
use std::test::Fail;

const A: Mac = Mac([2, 0, 0, 0, 0, 0x0a]);

const DEVICE: TargetId = TargetId { major: 1, minor: 0 };

/// Who copies, by commands of so many sectors at most.
fn terms(most: u32) -> Terms
    ensures most { result.most ≡ most }
    ensures requests { result.life.requests.0 ≤ longest_lifetime }
    ensures responses { result.life.responses.0 ≤ longest_lifetime }
{
    Terms {
        ask: Ask { port: A, turns: 50 },
        life: LIFETIMES,
        most,
    }
}

/// A response of the device 1.0 at port 1 to a command with a tag.
fn response(
    alloc: Global,
    command: u8,
    tag: [u8; 4],
    args: &[u8],
    data: &[u8],
) -> Result<Blob, NoMemory>
    ensures { IfOk result (λ b. length b ≤ longest_frame) }
{
    let mut out = Frame::new();
    let _ = out.try_extend_from_slice(&[2, 0, 0, 0, 0, 0x0a, 2, 0, 0, 0, 0, 1, 0x88, 0xa2]);
    let _ = out.try_extend_from_slice(&[0x18, 0, 0, 1, 0, command]);
    let _ = out.try_extend_from_slice(&tag);
    let _ = out.try_extend_from_slice(args);
    let _ = out.try_extend_from_slice(data);
    Blob::of(alloc, out.as_slice())
}

/// The upper half of word 83 of a page: it is valid, and FLUSH CACHE EXT is supported.
const HAS_FLUSH_EXT: u8 = 0x60;

/// The responses to the two requests before a transfer: the device has 16 sectors, and its page this
/// upper half of word 83.
fn found(alloc: Global, supported: u8) -> Result<Vec<Option<Blob>>, Fail>
    ensures { IfOk result (λ coming. All IsShort coming.items) }
{
    let config = [0, 16, 0, 1, 17, 0x10, 0, 0];
    let registers = [0, 0, 0, 0x40, 0, 0, 0, 0, 0, 0, 0, 0];
    let mut page = [0u8; 512];
    page[99] = 2;
    page[120] = 16;
    page[167] = supported;
    let mut coming = Vec::new(alloc);
    coming.push(Some(response(alloc, 1, [0x80, 0, 0, 0], &config, &[])?))?;
    coming.push(Some(response(alloc, 0, [0x80, 0, 0, 1], &registers, &page)?))?;
    Ok(coming)
}

/// A turn that brings the response to a transfer, by the last byte of its tag and its sectors, or
/// none.
fn turn(alloc: Global, told: &Option<(u8, &[u8])>) -> Result<Option<Blob>, NoMemory>
    ensures { IfOk result IsShort }
{
    let registers = [0x40, 0, 0, 0x40, 0, 0, 0, 0, 0, 0, 0, 0];
    match told {
        Some((tag, data)) => Ok(Some(response(alloc, 0, [0, 0, 0, *tag], &registers, data)?)),
        None => Ok(None),
    }
}

/// A link that brings the two responses, and then these turns.
fn link_of(alloc: Global, turns: &[Option<(u8, &[u8])>]) -> Result<MemLink, Fail> {
    let mut coming = found(alloc, HAS_FLUSH_EXT)?;
    'turns: for told in turns {
        coming.push(turn(alloc, told)?)?;
    }
    Ok(MemLink::of(alloc, coming, 10)?)
}

/// Keeps what it is told last.
#[derive(Drop)]
struct Told {
    planned: u64,
    reached: u64,
}

impl Watch for Told {
    fn planned(&mut self, sectors: u64) {
        self.planned = sectors;
    }

    fn reached(&mut self, sectors: u64) {
        self.reached = sectors;
    }
}

/// What nothing was told yet.
fn untold() -> Told {
    Told {
        planned: 0,
        reached: 0,
    }
}

/// How a copy out of the device ends.
fn gets(
    alloc: Global,
    at: u64,
    count: Option<u64>,
    most: u32,
    sink: &mut MemSink,
    link: &mut MemLink,
    watch: &mut Told,
) -> Result<(), CopyRefusal>
    requires some { 0 < most }
    requires few { most ≤ 17 }
{
    let mut clock = SetClock::new(0, 10);
    get(
        alloc,
        &terms(most),
        DEVICE,
        at,
        count,
        sink,
        link,
        &mut clock,
        watch,
    )
}

#[test]
fn gets_sectors_in_order(rt: HostRuntime) -> Result<(), Fail> {
    let (front, last) = ([0x5a; 1024], [0x33; 512]);
    let turns: [Option<(u8, &[u8])>; 3] = [Some((2, &last)), None, Some((1, &front))];
    let mut link = link_of(rt.alloc(), &turns)?;
    let mut sink = MemSink::new(rt.alloc(), 2000)?;
    let mut watch = untold();
    let got = gets(rt.alloc(), 2, Some(3), 2, &mut sink, &mut link, &mut watch);
    assert!(rt; got == Ok(()) && link.count() == 4 && sink.bytes().len() == 1536);
    let edge = [0x5a, 0x5a, 0x33, 0x33];
    assert!(rt; sink.bytes().get(1022..1026) == Some(edge.as_slice()));
    assert!(rt; watch.planned == 3 && watch.reached == 3);
    Ok(())
}

#[test]
fn gets_all_sectors_from_one_on(rt: HostRuntime) -> Result<(), Fail> {
    let data = [0x77; 2048];
    let turns: [Option<(u8, &[u8])>; 1] = [Some((1, &data))];
    let mut link = link_of(rt.alloc(), &turns)?;
    let mut sink = MemSink::new(rt.alloc(), 3000)?;
    let mut watch = untold();
    let got = gets(rt.alloc(), 12, None, 17, &mut sink, &mut link, &mut watch);
    assert!(rt; got == Ok(()) && link.count() == 3 && sink.bytes() == data.as_slice());
    let beyond = gets(
        rt.alloc(),
        12,
        Some(5),
        17,
        &mut sink,
        &mut link_of(rt.alloc(), &[])?,
        &mut watch,
    );
    let range = CopyRefusal::Tool(ToolRefusal::Refused(Refusal::Range));
    assert!(rt; beyond == Err(range) && sink.bytes().len() == 2048);
    Ok(())
}

#[test]
fn gives_the_front_of_a_copy_that_breaks_off(rt: HostRuntime) -> Result<(), Fail> {
    let (front, last) = ([0x5a; 1024], [0x33; 512]);
    let turns: [Option<(u8, &[u8])>; 2] = [Some((1, &front)), Some((3, &last))];
    let mut link = link_of(rt.alloc(), &turns)?;
    let mut sink = MemSink::new(rt.alloc(), 3000)?;
    let mut watch = untold();
    let got = gets(rt.alloc(), 2, Some(5), 2, &mut sink, &mut link, &mut watch);
    let unanswered = CopyRefusal::Tool(ToolRefusal::Unanswered { turns: 50 });
    assert!(rt; got == Err(unanswered) && sink.bytes() == front.as_slice());
    assert!(rt; watch.planned == 5 && watch.reached == 2);
    let mut short = MemSink::new(rt.alloc(), 1000)?;
    let mut again = link_of(rt.alloc(), &turns)?;
    let full = gets(
        rt.alloc(),
        2,
        Some(5),
        2,
        &mut short,
        &mut again,
        &mut watch,
    );
    assert!(rt; full == Err(CopyRefusal::SinkFault) && short.bytes().len() <= 1000);
    Ok(())
}

/// A link that brings the two responses, and then a sector for each of 17 commands. The first eight
/// come latest first; that of the ninth comes before them too, with other bytes.
fn long_link(alloc: Global) -> Result<MemLink, Fail> {
    let mut coming = found(alloc, HAS_FLUSH_EXT)?;
    coming.push(turn(alloc, &Some((9, [0xee; 512].as_slice())))?)?;
    let order = [8, 7, 6, 5, 4, 3, 2, 1, 9, 10, 11, 12, 13, 14, 15, 16];
    'commands: for tag in &order {
        coming.push(turn(alloc, &Some((*tag, [*tag; 512].as_slice())))?)?;
    }
    Ok(MemLink::of(alloc, coming, 18)?)
}

/// Whether the first byte of each sector is one more than that of the one before it, from 1 on.
fn is_counted(bytes: &[u8]) -> bool {
    'sectors: for k in 0..16usize {
        if bytes.get(512 * k) != Some(&(k as u8 + 1)) {
            return false;
        }
    }
    bytes.len() == 8192
}

/// The commands are of one sector each, so there are 16. The ninth isn't sent before the first is
/// answered, and a response to it that comes before is nothing's.
#[test]
fn has_eight_commands_under_way(rt: HostRuntime) -> Result<(), Fail> {
    let mut link = long_link(rt.alloc())?;
    let mut sink = MemSink::new(rt.alloc(), 8192)?;
    let mut watch = untold();
    let got = gets(rt.alloc(), 0, None, 1, &mut sink, &mut link, &mut watch);
    assert!(rt; got == Ok(()) && link.count() == 18 && is_counted(sink.bytes()));
    assert!(rt; watch.planned == 16 && watch.reached == 16);
    Ok(())
}

/// How a copy ends whose link fails in its `k`-th call, and how many frames it took. The two requests
/// are four calls, and the first turn after them sends two frames and receives one.
fn gets_by_a_bad_link(alloc: Global, k: u32) -> Result<(Result<(), CopyRefusal>, usize), Fail> {
    let mut link = link_of(alloc, &[])?;
    link.fail_at(k);
    let mut sink = MemSink::new(alloc, 2000)?;
    let got = gets(alloc, 2, Some(3), 2, &mut sink, &mut link, &mut untold());
    Ok((got, link.count()))
}

#[test]
fn tells_a_fault_of_the_link(rt: HostRuntime) -> Result<(), Fail> {
    let rows = [(1, 0), (2, 1), (3, 1), (4, 2), (5, 2), (6, 3), (7, 4)];
    'rows: for (k, sent) in &rows {
        let (got, count) = gets_by_a_bad_link(rt.alloc(), *k)?;
        assert!(rt; got == Err(CopyRefusal::Tool(ToolRefusal::LinkFault)) && count == *sent);
    }
    Ok(())
}

/// How a copy into the device ends, with half a second from one question of the clock to the next.
fn puts(
    alloc: Global,
    at: u64,
    verify: bool,
    source: &mut MemSource,
    link: &mut MemLink,
    watch: &mut Told,
) -> Result<(), CopyRefusal> {
    let mut clock = SetClock::new(0, 500);
    put(
        alloc,
        &terms(2),
        DEVICE,
        at,
        true,
        verify,
        source,
        link,
        &mut clock,
        watch,
    )
}

/// Whether a frame was sent with these bytes behind its header.
fn is_sent(link: &MemLink, i: usize, args: &[u8]) -> bool {
    if i >= link.count() {
        return false;
    }
    let frame = link.frame(i);
    let (_, behind) = frame.split_at(frame.len().min(24));
    behind.starts_with(args)
}

/// The write is sent when the clock says half a second, and can arrive for two seconds more: the flush
/// is sent in the sixth turn.
#[test]
fn puts_sectors(rt: HostRuntime) -> Result<(), Fail> {
    let turns: [Option<(u8, &[u8])>; 6] = [Some((1, &[])), None, None, None, None, Some((2, &[]))];
    let mut link = link_of(rt.alloc(), &turns)?;
    let mut source = MemSource::of(rt.alloc(), &[0x5a; 512])?;
    let mut watch = untold();
    let done = puts(rt.alloc(), 3, false, &mut source, &mut link, &mut watch);
    assert!(rt; done == Ok(()) && link.count() == 4 && watch.reached == 1);
    let write = [0x41, 0, 1, 0x34, 3, 0, 0, 0, 0, 0, 0, 0, 0x5a];
    let flush = [0x40, 0, 0, 0xea, 0, 0];
    assert!(rt; is_sent(&link, 2, &write) && is_sent(&link, 3, &flush));
    Ok(())
}

/// Five sectors are one command where 17 may be, up to the device's last; no flush follows.
#[test]
fn puts_sectors_without_a_flush(rt: HostRuntime) -> Result<(), Fail> {
    let mut link = link_of(rt.alloc(), &[Some((1, &[]))])?;
    let mut source = MemSource::of(rt.alloc(), &[0x5a; 2560])?;
    let mut clock = SetClock::new(0, 500);
    let mut watch = untold();
    let done = put(
        rt.alloc(),
        &terms(17),
        DEVICE,
        11,
        false,
        false,
        &mut source,
        &mut link,
        &mut clock,
        &mut watch,
    );
    assert!(rt; done == Ok(()) && link.count() == 3 && watch.reached == 5);
    let write = [0x41, 0, 5, 0x34, 11, 0, 0, 0, 0, 0, 0, 0, 0x5a];
    assert!(rt; is_sent(&link, 2, &write));
    Ok(())
}

/// Whether a device whose page has this upper half of word 83 is flushed by the request with these
/// arguments.
fn is_flushed_by(alloc: Global, supported: u8, args: &[u8]) -> Result<bool, Fail> {
    let mut coming = found(alloc, supported)?;
    coming.push(None)?;
    coming.push(turn(alloc, &Some((1, [].as_slice())))?)?;
    let mut link = MemLink::of(alloc, coming, 4)?;
    let mut clock = SetClock::new(0, 10);
    let done = flush(alloc, &terms(17), DEVICE, &mut link, &mut clock);
    Ok(done == Ok(()) && link.count() == 3 && is_sent(&link, 2, args))
}

#[test]
fn flushes_by_the_command_of_the_page(rt: HostRuntime) -> Result<(), Fail> {
    let by_flush_cache_ext = [0x40, 0, 0, 0xea, 0, 0];
    assert!(rt; is_flushed_by(rt.alloc(), HAS_FLUSH_EXT, &by_flush_cache_ext)?);
    let by_flush_cache = [0, 0, 0, 0xe7, 0, 0];
    assert!(rt; is_flushed_by(rt.alloc(), 0, &by_flush_cache)?);
    assert!(rt; is_flushed_by(rt.alloc(), 0xe0, &by_flush_cache)?);
    Ok(())
}

#[test]
fn refuses_inputs(rt: HostRuntime) -> Result<(), Fail> {
    let mut link = link_of(rt.alloc(), &[])?;
    let mut watch = untold();
    let mut source = MemSource::of(rt.alloc(), &[1; 1024])?;
    source.fail_at(2);
    let failed = puts(rt.alloc(), 0, false, &mut source, &mut link, &mut watch);
    assert!(rt; failed == Err(CopyRefusal::SourceFault) && link.count() == 0);
    let mut odd = MemSource::of(rt.alloc(), &[0x5a; 600])?;
    let refused = puts(rt.alloc(), 3, false, &mut odd, &mut link, &mut watch);
    assert!(rt; refused == Err(CopyRefusal::Stream { offset: 512 }) && link.count() == 0);
    Ok(())
}

/// An input of 16 MiB and a byte is too long for the device, which is known once it is found; where it
/// is read again it is said first that it isn't whole sectors. Nothing is written.
#[test]
fn refuses_long_inputs(rt: HostRuntime) -> Result<(), Fail> {
    let input = Vec::from_elem(rt.alloc(), 0u8, 16_777_217)?;
    let mut link = link_of(rt.alloc(), &[])?;
    let mut watch = untold();
    let mut source = MemSource::of(rt.alloc(), input.as_slice())?;
    let verified = puts(rt.alloc(), 0, true, &mut source, &mut link, &mut watch);
    let odd = CopyRefusal::Stream { offset: 16_777_216 };
    assert!(rt; verified == Err(odd) && link.count() == 2);
    let mut link = link_of(rt.alloc(), &[])?;
    let mut again = MemSource::of(rt.alloc(), input.as_slice())?;
    let written = puts(rt.alloc(), 0, false, &mut again, &mut link, &mut watch);
    let range = CopyRefusal::Tool(ToolRefusal::Refused(Refusal::Range));
    assert!(rt; written == Err(range) && link.count() == 2);
    Ok(())
}

/// A sector whose first byte is this one, and whose others are zeros.
fn sector(first: u8) -> [u8; 512] {
    let mut bytes = [0; 512];
    bytes[0] = first;
    bytes
}

/// How a write of three sectors from sector 7 on ends that are read again, and come back as these.
/// They are written by two commands and read by two, of which the second is answered first. The
/// flush is sent in the sixth turn, and the reads, which wait for no frame of a write, in the seventh.
fn verifies(alloc: Global, back: &[u8; 3]) -> Result<Result<(), CopyRefusal>, Fail> {
    let mut sent = [0; 1536];
    let mut read = [0; 1024];
    sent[0] = 1;
    sent[512] = 2;
    sent[1024] = 3;
    read[0] = back[0];
    read[512] = back[1];
    let last = sector(back[2]);
    let turns: [Option<(u8, &[u8])>; 8] = [
        Some((1, &[])),
        Some((2, &[])),
        None,
        None,
        None,
        Some((3, &[])),
        Some((5, &last)),
        Some((4, &read)),
    ];
    let mut link = link_of(alloc, &turns)?;
    let mut source = MemSource::of(alloc, &sent)?;
    Ok(puts(alloc, 7, true, &mut source, &mut link, &mut untold()))
}

#[test]
fn puts_sectors_and_reads_them_again(rt: HostRuntime) -> Result<(), Fail> {
    let rows: [([u8; 3], Option<u64>); 5] = [
        ([1, 2, 3], None),
        ([9, 2, 3], Some(7)),
        ([1, 9, 3], Some(8)),
        ([1, 2, 9], Some(9)),
        ([1, 9, 9], Some(8)),
    ];
    'rows: for (back, other) in &rows {
        let ended = verifies(rt.alloc(), back)?;
        let expected = match other {
            Some(sector) => Err(CopyRefusal::Tool(ToolRefusal::Refused(Refusal::Differs {
                sector: *sector,
            }))),
            None => Ok(()),
        };
        assert!(rt; ended == expected);
    }
    Ok(())
}
