ghost use Rattle.std.specs.Prelude.{◌<◌};

use aoe_base::{BROADCAST, Mac, Ports};
use aoe_disk::{Arm, MemDisk};
use aoe_frame::{Frame, pad};
use aoe_keep::Keep;
use aoe_shelf::{Shelf, ShelfRefusal};
use aoe_store::Direct;
use aoe_target::{Effect, Heard};
use std::alloc::Global;
use std::test::Fail;

type MemShelf = Shelf<Direct<MemDisk>, MemDisk>;

const PORT: Mac = Mac([2, 0, 0, 0, 0, 1]);

const STATION: Mac = Mac([2, 0, 0, 0, 0, 0x0a]);

const SET: &[u8] = b"\0\0\0\0\0\x03\0\x02ab";

/// The shelf 1 with one port and no target.
fn empty_shelf(alloc: Global) -> Result<MemShelf, Fail> {
    let mut ports = Ports::new();
    ports.push(PORT);
    Ok(Shelf::new(alloc, 1, ports, 1500)?)
}

/// The keep of 16 zero sectors.
fn empty_keep(alloc: Global) -> Option<Keep<MemDisk>> {
    let disk = MemDisk::new(alloc, 16).ok()?;
    Keep::mount(disk).ok()
}

/// Whether this comes of adding a target of 16 zero sectors without lists.
fn adds(alloc: Global, shelf: &mut MemShelf, minor: u8, refused: Option<ShelfRefusal>) -> bool
    requires { minor < 255 }
{
    let Some(keep) = empty_keep(alloc) else {
        return false;
    };
    let Ok(disk) = MemDisk::new(alloc, 16) else {
        return false;
    };
    match shelf.add(minor, Direct::new(disk), keep) {
        Ok(()) => refused.is_none(),
        Err((refusal, _, _)) => refused == Some(refusal),
    }
}

/// The shelf with the targets 1.7 and 1.3.
fn shelf_of_two(alloc: Global) -> Result<MemShelf, Fail> {
    let mut shelf = empty_shelf(alloc)?;
    if adds(alloc, &mut shelf, 7, None) && adds(alloc, &mut shelf, 3, None) {
        Ok(shelf)
    } else {
        Err(Fail::from("not added"))
    }
}

fn joined(pieces: &[&[u8]]) -> Frame {
    let mut frame = Frame::new();
    for piece in pieces {
        let _ = frame.try_extend_from_slice(piece);
    }
    frame
}

/// A frame of the station with the tag 7.
fn request(to: Mac, major: [u8; 2], minor: u8, command: u8, args: &[u8]) -> Frame {
    let middle = [
        0x88, 0xa2, 0x10, 0, major[0], major[1], minor, command, 0, 0, 0, 7,
    ];
    joined(&[&to.0, &STATION.0, &middle, args])
}

/// The reply of a target of the shelf 1. `error` is byte 15.
fn reply(minor: u8, error: u8, command: u8, args: &[u8]) -> Frame {
    let flags = if error == 0 { 0x18 } else { 0x1c };
    let middle = [0x88, 0xa2, flags, error, 0, 1, minor, command, 0, 0, 0, 7];
    let mut frame = joined(&[&STATION.0, &PORT.0, &middle, args]);
    pad(&mut frame);
    frame
}

/// What becomes of a frame at a slot, and whether the reply is this one.
fn hears(shelf: &mut MemShelf, slot: usize, frame: &Frame, told: &[u8]) -> Option<Effect> {
    if slot >= shelf.count() {
        return None;
    }
    let mut out = Frame::new();
    match shelf.receive_slot(slot, frame.as_slice(), &mut out) {
        Heard::Replied { effect } if out.as_slice() == told => Some(effect),
        _ => None,
    }
}

/// Whether a slot is synced.
fn syncs(shelf: &mut MemShelf, slot: usize) -> bool {
    slot < shelf.count() && shelf.sync_slot(slot).is_ok()
}

/// Lets the store or the keep of a slot stop with its next call.
fn stop(shelf: &mut MemShelf, slot: usize, is_keep: bool) {
    if slot >= shelf.count() {
        return;
    }
    if is_keep {
        shelf.arm_keep(slot, Arm::Stop(1));
    } else {
        shelf.arm_store(slot, Arm::Stop(1));
    }
}

/// Whether the store of a slot and its keep reached a stop.
fn stopped(shelf: &MemShelf, slot: usize) -> Option<(bool, bool)> {
    if slot < shelf.count() {
        Some((shelf.store_is_out(slot), shelf.keep_is_out(slot)))
    } else {
        None
    }
}

#[test]
fn a_stop_of_one_target(rt: HostRuntime) -> Result<(), Fail> {
    let mut shelf = shelf_of_two(rt.alloc())?;
    stop(&mut shelf, 1, false);
    assert!(rt; syncs(&mut shelf, 0) && !syncs(&mut shelf, 1));
    stop(&mut shelf, 0, true);
    let set = request(BROADCAST, [0, 1], 0xff, 1, SET);
    let failed = reply(7, 3, 1, SET);
    let told = reply(3, 0, 1, b"\0\x10\0\x01\x02\x13\0\x02ab");
    assert!(rt; hears(&mut shelf, 0, &set, failed.as_slice()) == Some(Effect::EditFault));
    assert!(rt; hears(&mut shelf, 1, &set, told.as_slice()) == Some(Effect::Edited));
    // The store of the second and the keep of the first.
    assert!(rt; stopped(&shelf, 0) == Some((false, true)));
    assert!(rt; stopped(&shelf, 1) == Some((true, false)));
    Ok(())
}

#[test]
fn a_full_shelf(rt: HostRuntime) -> Result<(), Fail> {
    let mut shelf = empty_shelf(rt.alloc())?;
    for minor in 0..16u8 {
        assert!(rt; adds(rt.alloc(), &mut shelf, minor, None));
    }
    for minor in [15, 16] {
        assert!(rt; adds(rt.alloc(), &mut shelf, minor, Some(ShelfRefusal::Full)));
    }
    assert!(rt; shelf.count() == 16 && shelf.take_last().is_some());
    // The first of the two is there already.
    assert!(rt; adds(rt.alloc(), &mut shelf, 0, Some(ShelfRefusal::Repeated)));
    assert!(rt; adds(rt.alloc(), &mut shelf, 254, None));
    Ok(())
}

#[test]
fn says_why_a_target_is_not_added(rt: HostRuntime) -> Result<(), Fail> {
    let texts = [
        (ShelfRefusal::Full, "the shelf is full"),
        (ShelfRefusal::Repeated, "the minor is taken"),
    ];
    for (refusal, wanted) in &texts {
        let text = format!(in rt.alloc(); "{refusal}")?;
        assert!(rt; text.as_str() == *wanted);
    }
    Ok(())
}
