//! The tools over links in memory.
ghost use Rattle.std.specs.Prelude.{◌≤◌, IfOk, length};
ghost use Rattle.aoe_base.specs.Sizes.{longest_frame};
ghost use Rattle.aoe_io.specs.LinkMemory.{IsShort};

use aoe_base::{Blob, Mac, NoMemory, TargetId};
use aoe_frame::Frame;
use aoe_io::{MemLink, SetClock};
use aoe_tools::{Ask, Found, Refusal, ToolRefusal, discover, print_found, print_stat, stat};
use std::alloc::Global;
use std::test::Fail;

const A: Mac = Mac([2, 0, 0, 0, 0, 0x0a]);

const DEVICE: TargetId = TargetId { major: 1, minor: 0 };

/// A response of shelf 1: its port, its slot, the command, the error and the tag's last byte.
fn response(alloc: Global, of: [u8; 5], args: &[u8]) -> Result<Blob, NoMemory>
    ensures { IfOk result (λ b. length b ≤ longest_frame) }
{
    let [port, slot, command, error, tag] = of;
    let flags = if error == 0 { 0x18 } else { 0x1c };
    let mut out = Frame::new();
    let _ = out.try_extend_from_slice(&[2, 0, 0, 0, 0, 0x0a, 2, 0, 0, 0, 0, port, 0x88, 0xa2]);
    let _ = out.try_extend_from_slice(&[flags, error, 0, 1, slot, command, 0x80, 0, 0, tag]);
    let _ = out.try_extend_from_slice(args);
    Blob::of(alloc, out.as_slice())
}

/// A turn that brings this response, or none.
fn turn(alloc: Global, told: &Option<([u8; 5], &[u8])>) -> Result<Option<Blob>, NoMemory>
    ensures { IfOk result IsShort }
{
    match told {
        Some(told) => {
            let of = told.0;
            Ok(Some(response(alloc, of, told.1)?))
        }
        None => Ok(None),
    }
}

/// A link that brings these turns.
fn link_of(alloc: Global, turns: &[Option<([u8; 5], &[u8])>]) -> Result<MemLink, Fail> {
    let mut coming = Vec::new(alloc);
    'turns: for told in turns {
        coming.push(turn(alloc, told)?)?;
    }
    Ok(MemLink::of(alloc, coming, 10)?)
}

/// The last frame that was sent, or no bytes.
fn last(link: &MemLink) -> &[u8] {
    match link.count().checked_sub(1) {
        Some(i) => link.frame(i),
        None => &[],
    }
}

fn code(refusal: Option<ToolRefusal>) -> Option<u8> {
    match refusal {
        Some(refusal) => Some(refusal.code()),
        None => None,
    }
}

fn says(alloc: Global, refusal: Option<ToolRefusal>, text: &[u8]) -> Result<bool, NoMemory> {
    match refusal {
        Some(refusal) => Ok(refusal.text(alloc)?.bytes() == text),
        None => Ok(false),
    }
}

/// How `stat` is refused.
fn stat_refusal(alloc: Global, link: &mut MemLink) -> Option<ToolRefusal> {
    let ask = Ask { port: A, turns: 50 };
    match stat(alloc, &ask, link, &mut SetClock::new(5, 10)) {
        Ok(_) => None,
        Err(refusal) => Some(refusal),
    }
}

#[test]
fn nobody_answers(rt: HostRuntime) -> Result<(), Fail> {
    let mut link = link_of(rt.alloc(), &[None; 50])?;
    let refusal = stat_refusal(rt.alloc(), &mut link);
    let said = says(rt.alloc(), refusal, b"aoe: no answer in 50 turns")?;
    assert!(rt; said && code(refusal) == Some(9));
    let begin = [
        0xff, 0xff, 0xff, 0xff, 0xff, 0xff, 2, 0, 0, 0, 0, 0x0a, 0x88, 0xa2, 0x10, 0, 0xff, 0xff,
        0xff, 1, 0x80, 0, 0, 5, 0, 0,
    ];
    let sent = last(&link);
    assert!(rt; link.count() == 5 && sent.starts_with(&begin) && sent.len() == 60);
    Ok(())
}

/// What `discover` finds until four turns brought no frame.
fn discovered(alloc: Global, link: &mut MemLink) -> Result<Found, Fail> {
    let ask = Ask { port: A, turns: 4 };
    match discover(alloc, &ask, link, &mut SetClock::new(0, 10)) {
        Ok(found) => Ok(found),
        Err(_) => Err(Fail::from("no device was found")),
    }
}

/// Whether a device was found with this place, by these ports.
fn is_found(found: &Found, i: usize, id: TargetId, ports: &[Mac]) -> bool {
    i < found.count() && found.device(i).id == id && found.device(i).ports.as_slice() == ports
}

#[test]
fn finds_devices(rt: HostRuntime) -> Result<(), Fail> {
    let args = [0, 16, 0, 1, 2, 0x10, 0, 0];
    let turns: [Option<([u8; 5], &[u8])>; 4] = [
        Some(([3, 0, 1, 0, 0], &args)),
        Some(([2, 7, 1, 1, 0], &[])),
        Some(([1, 0, 1, 0, 0], &args)),
        Some(([3, 0, 1, 0, 0], &args)),
    ];
    let mut link = link_of(rt.alloc(), &turns)?;
    let found = discovered(rt.alloc(), &mut link)?;
    let ports = [Mac([2, 0, 0, 0, 0, 3]), Mac([2, 0, 0, 0, 0, 1])];
    let other = TargetId { major: 1, minor: 7 };
    assert!(rt; found.count() == 2 && is_found(&found, 0, DEVICE, &ports));
    assert!(rt; is_found(&found, 1, other, &[Mac([2, 0, 0, 0, 0, 2])]));
    let text = b"e1.0 02:00:00:00:00:03,02:00:00:00:00:01\ne1.7 02:00:00:00:00:02\n";
    let printed = print_found(rt.alloc(), &found, false)?;
    assert!(rt; printed.bytes() == text.as_slice());
    Ok(())
}

/// The arguments of a response with a page that tells 4,000,000 sectors.
fn page() -> [u8; 524] {
    let mut page = [0; 524];
    page[3] = 0x40;
    page[179] = 0x74;
    page[213] = 0x09;
    page[214] = 0x3d;
    page
}

/// What `discover` prints of a device with its config string, which is the front of "hi" that has
/// this length in its last response, and was another before.
fn long_text(alloc: Global, len: u8) -> Result<Blob, Fail> {
    let earlier = [0, 16, 0, 1, 2, 0x10, 0, 1, b'?'];
    let latest = [0, 16, 0, 1, 2, 0x10, 0, len, b'h', b'i'];
    let turns: [Option<([u8; 5], &[u8])>; 4] = [
        Some(([3, 0, 1, 0, 0], &earlier)),
        Some(([3, 0, 1, 0, 0], &latest)),
        None,
        None,
    ];
    let mut link = link_of(alloc, &turns)?;
    let found = discovered(alloc, &mut link)?;
    Ok(print_found(alloc, &found, true)?)
}

#[test]
fn prints_config_strings(rt: HostRuntime) -> Result<(), Fail> {
    let rows: [(u8, &[u8]); 3] = [
        (2, b"e1.0 02:00:00:00:00:03 hi\n"),
        (1, b"e1.0 02:00:00:00:00:03 h\n"),
        (0, b"e1.0 02:00:00:00:00:03 \n"),
    ];
    'rows: for (len, text) in &rows {
        let printed = long_text(rt.alloc(), *len)?;
        assert!(rt; printed.bytes() == *text);
    }
    Ok(())
}

/// What `stat` prints of what it finds until four turns brought no frame.
fn stat_text(alloc: Global, link: &mut MemLink, sectors: bool) -> Result<Blob, Fail> {
    let ask = Ask { port: A, turns: 4 };
    let Ok(found) = stat(alloc, &ask, link, &mut SetClock::new(0, 10)) else {
        return Err(Fail::from("no device was found"));
    };
    Ok(print_stat(alloc, &found, sectors)?)
}

#[test]
fn asks_for_pages(rt: HostRuntime) -> Result<(), Fail> {
    let args = [0, 16, 0, 1, 2, 0x10, 0, 0];
    let page = page();
    let turns: [Option<([u8; 5], &[u8])>; 10] = [
        Some(([1, 0, 1, 0, 0], &args)),
        Some(([2, 1, 1, 0, 0], &args)),
        None,
        Some(([3, 2, 1, 0, 0], &args)),
        None,
        None,
        None,
        Some(([1, 0, 0, 0, 1], &page)),
        Some(([2, 1, 0, 0, 1], &page)),
        Some(([2, 1, 0, 6, 2], &[])),
    ];
    let rows: [(bool, &[u8]); 2] = [
        (
            true,
            b"e1.0 4000000 02:00:00:00:00:01 up\ne1.1 - 02:00:00:00:00:02 reserved\ne1.2 - 02:00:00:00:00:03 silent\n",
        ),
        (
            false,
            b"e1.0 2.048GB 02:00:00:00:00:01 up\ne1.1 - 02:00:00:00:00:02 reserved\ne1.2 - 02:00:00:00:00:03 silent\n",
        ),
    ];
    let begin = [
        2, 0, 0, 0, 0, 3, 2, 0, 0, 0, 0, 0x0a, 0x88, 0xa2, 0x10, 0, 0, 1, 2, 0, 0x80, 0, 0, 3, 0,
        0, 1, 0xec,
    ];
    'rows: for (sectors, text) in &rows {
        let mut link = link_of(rt.alloc(), &turns)?;
        let printed = stat_text(rt.alloc(), &mut link, *sectors)?;
        assert!(rt; printed.bytes() == *text);
        assert!(rt; link.count() == 4 && last(&link).starts_with(&begin));
    }
    Ok(())
}

#[test]
fn tells_refusals(rt: HostRuntime) -> Result<(), Fail> {
    let alloc = rt.alloc();
    let edited = Some(ToolRefusal::Refused(Refusal::Mask(3)));
    let ata = Some(ToolRefusal::Refused(Refusal::Ata {
        status: 0x41,
        error: 0x10,
    }));
    assert!(rt; says(alloc, edited, b"aoe: refused: mask error 3")?);
    assert!(rt; says(alloc, ata, b"aoe: refused: ATA status 41 error 10")?);
    Ok(())
}
