ghost use Rattle.std.specs.Prelude.{◌<◌};

use aoe_base::{Mac, Ports};
use aoe_cache::{AnyStore, Cached};
use aoe_disk::MemDisk;
use aoe_frame::Frame;
use aoe_io::{Got, Link, MemLink, MemSink, MemSource};
use aoe_keep::Keep;
use aoe_serve::{AnswerEnd, ServeEnd, ShelfLink, answer, capture, serve};
use aoe_shelf::Shelf;
use aoe_store::Direct;
use std::alloc::Global;
use std::test::Fail;

pub(crate) type MemShelf = Shelf<AnyStore<MemDisk>, MemDisk>;

/// A query config read from all shelves and slots, by 02:00:00:00:00:0a, as it stands on the stream.
pub(crate) const QUERY: [u8; 34] = [
    0, 32, 255, 255, 255, 255, 255, 255, 2, 0, 0, 0, 0, 10, 0x88, 0xa2, 0x10, 0, 255, 255, 255, 1,
    0, 0, 0, 7, 0, 0, 0, 0, 0, 0, 0, 0,
];

/// Sets the config string `ab`, by 02:00:00:00:00:0a, at all targets.
pub(crate) const SET: [u8; 36] = [
    0, 34, 255, 255, 255, 255, 255, 255, 2, 0, 0, 0, 0, 10, 0x88, 0xa2, 0x10, 0, 255, 255, 255, 1,
    0, 0, 0, 7, 0, 0, 0, 0, 0, 3, 0, 2, b'a', b'b',
];

/// The reply to the query by the target 1.0, as it stands on the stream, without its padding.
const REPLY: [u8; 34] = [
    0, 60, 2, 0, 0, 0, 0, 10, 2, 0, 0, 0, 0, 1, 0x88, 0xa2, 0x18, 0, 0, 1, 0, 1, 0, 0, 0, 7, 0, 16,
    0, 1, 2, 16, 0, 0,
];

/// How many bytes a reply to a config request has on the stream.
pub(crate) const LEN: usize = 62;

/// The reply to the query by the target of the shelf 1 with this minor, as it stands on the stream.
pub(crate) fn reply(minor: u8) -> [u8; 62] {
    let mut reply = [0u8; 62];
    reply[..34].copy_from_slice(&REPLY);
    reply[20] = minor;
    reply
}

/// The keep of 16 zero sectors.
fn empty_keep(alloc: Global) -> Option<Keep<MemDisk>> {
    let disk = MemDisk::new(alloc, 16).ok()?;
    Keep::mount(disk).ok()
}

/// A store of 16 zero sectors that writes through.
fn direct(alloc: Global) -> Option<AnyStore<MemDisk>> {
    let disk = MemDisk::new(alloc, 16).ok()?;
    Some(AnyStore::Direct(Direct::new(disk)))
}

/// One that writes to its disk later.
fn cached(alloc: Global) -> Option<AnyStore<MemDisk>> {
    let disk = MemDisk::new(alloc, 16).ok()?;
    let store = Cached::mount(alloc, disk, 4).ok()?;
    Some(AnyStore::Cached(store))
}

/// Whether a target with this store and without lists is added.
fn adds(alloc: Global, shelf: &mut MemShelf, minor: u8, store: Option<AnyStore<MemDisk>>) -> bool
    requires { minor < 255 }
{
    let Some(store) = store else {
        return false;
    };
    let Some(keep) = empty_keep(alloc) else {
        return false;
    };
    shelf.add(minor, store, keep).is_ok()
}

/// The shelf 1 without targets.
fn empty_shelf(alloc: Global) -> Result<MemShelf, Fail> {
    let mut ports = Ports::new();
    ports.push(Mac([2, 0, 0, 0, 0, 1]));
    Ok(Shelf::new(alloc, 1, ports, 1500)?)
}

/// The shelf 1 with the targets 1.0 and 1.1, of which the second writes to its disk later.
pub(crate) fn shelf_of_two(alloc: Global) -> Result<MemShelf, Fail> {
    let mut shelf = empty_shelf(alloc)?;
    if adds(alloc, &mut shelf, 0, direct(alloc)) && adds(alloc, &mut shelf, 1, cached(alloc)) {
        Ok(shelf)
    } else {
        Err(Fail::from("not added"))
    }
}

/// The shelf 1 with the target 1.0, which writes through.
pub(crate) fn shelf_of_one(alloc: Global) -> Result<MemShelf, Fail> {
    let mut shelf = empty_shelf(alloc)?;
    if adds(alloc, &mut shelf, 0, direct(alloc)) {
        Ok(shelf)
    } else {
        Err(Fail::from("not added"))
    }
}

/// Whether both slots have the string, and there are two.
fn are_set(shelf: &MemShelf) -> bool {
    for slot in 0..shelf.count() {
        if shelf.lists(slot).config.as_slice() != b"ab".as_slice() {
            return false;
        }
    }
    shelf.count() == 2
}

/// Answers a stream by the shelf: the end, and whether the slots have the string then.
pub(crate) fn answered(
    alloc: Global,
    source: &mut MemSource,
    sink: &mut MemSink,
) -> Result<(AnswerEnd, bool), Fail> {
    let mut shelf = shelf_of_two(alloc)?;
    let end = answer(&mut shelf, source, sink);
    Ok((end, are_set(&shelf)))
}

/// Answers a stream by the shelf, and captures it: the end, and whether the slots have the string then.
pub(crate) fn captured(
    alloc: Global,
    source: &mut MemSource,
    sink: &mut MemSink,
) -> Result<(AnswerEnd, bool), Fail> {
    let mut shelf = shelf_of_two(alloc)?;
    let end = capture(&mut shelf, source, sink);
    Ok((end, are_set(&shelf)))
}

/// Serves a link by the shelf: the end, and whether the slots have the string then.
pub(crate) fn served(
    alloc: Global,
    link: &mut MemLink,
    frames: u64,
    idle: u64,
) -> Result<(ServeEnd, bool), Fail> {
    let mut shelf = shelf_of_two(alloc)?;
    let end = serve(&mut shelf, link, frames, idle);
    Ok((end, are_set(&shelf)))
}

/// The first replies of some that stand on the stream.
pub(crate) fn first(replies: &[u8], count: usize) -> &[u8] {
    replies.get(..LEN.saturating_mul(count)).unwrap_or(replies)
}

/// Whether a link took these replies, of which each is given as it stands on the stream.
pub(crate) fn took(link: &MemLink, replies: &[u8]) -> bool {
    for (i, reply) in replies.chunks(LEN).enumerate() {
        if i >= link.count() || Some(link.frame(i)) != reply.get(2..) {
            return false;
        }
    }
    link.count() == replies.len() / LEN
}

/// Whether the next turn of a link brings this, and a frame that it brings is this one.
fn brings<L: Link>(link: &mut L, wanted: Got, frame: &[u8]) -> bool {
    let mut out = Frame::new();
    link.recv(&mut out) == Ok(wanted) && (wanted != Got::Frame || out.as_slice() == frame)
}

/// Whether a link takes the query.
fn takes<L: Link>(link: &mut L) -> bool {
    link.send(&QUERY[2..]) == Ok(())
}

#[test]
fn links_a_shelf(rt: HostRuntime) -> Result<(), Fail> {
    let Ok(mut link) = ShelfLink::new(rt.alloc(), shelf_of_two(rt.alloc())?) else {
        return Err(Fail::from("no memory"));
    };
    assert!(rt; brings(&mut link, Got::Quiet, b""));
    // There are 66 replies, and the last two are lost.
    for _ in 0..33 {
        assert!(rt; takes(&mut link));
    }
    for _ in 0..32 {
        for minor in 0..2u8 {
            assert!(rt; brings(&mut link, Got::Frame, &reply(minor)[2..]));
        }
    }
    assert!(rt; brings(&mut link, Got::Quiet, b""));
    assert!(rt; link.close().count() == 2);
    Ok(())
}
