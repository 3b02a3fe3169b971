ghost use Rattle.std.specs.Prelude.{◌<◌};

use aoe_disk::{Arm, Disk, Loss, MemDisk};
use aoe_keep::{Keep, MountRefusal};
use aoe_lists::Lists;
use std::alloc::Global;
use std::test::Fail;

/// Lists with this config string.
fn lists_of(string: &[u8]) -> Lists {
    let mut lists = Lists::new();
    let _ = lists.config.try_extend_from_slice(string);
    lists
}

/// The first byte of the config string that a mounting finds, or its refusal.
type FoundString = Result<Option<u8>, MountRefusal>;

/// What a mounting finds.
fn found(disk: MemDisk) -> FoundString {
    match Keep::mount(disk) {
        Ok(keep) => Ok(keep.lists().config.as_slice().first().copied()),
        Err((refusal, _)) => Err(refusal),
    }
}

/// A body with a config string of one byte.
fn body_of(turn: u8, string: u8) -> [u8; 3584] {
    let mut body = [0; 3584];
    body[0] = b'A';
    body[1] = b'o';
    body[2] = b'E';
    body[3] = b'K';
    body[4] = 1;
    body[5] = turn;
    body[7] = 1;
    body[10] = string;
    body
}

/// A body of format 2 with the mark and a config string of one byte.
fn marked_body(turn: u8, mark: u8, string: u8) -> [u8; 3584] {
    let mut body = body_of(turn, mark);
    body[4] = 2;
    body[11] = string;
    body
}

/// Writes a body, and says whether that was Ok.
fn write_body(disk: &mut MemDisk, slot: u64, body: &[u8; 3584]) -> bool {
    let at = if slot == 0 { 1 } else { 9 };
    disk.sectors() >= 16 && disk.write(at, body).is_ok()
}

/// Opens a slot before a body, and says whether that was Ok.
fn open_slot(disk: &mut MemDisk, slot: u64, body: &[u8; 3584]) -> bool {
    let mut gate = [0; 512];
    gate[0] = 0xa7;
    let at = if slot == 0 { 0 } else { 8 };
    disk.sectors() >= 16 && disk.write(at, &gate).is_ok() && write_body(disk, slot, body)
}

/// An empty keep of so many zero sectors.
fn empty_keep(alloc: Global, sectors: u64) -> Result<Keep<MemDisk>, Fail>
    requires { sectors < 18 }
{
    let disk = MemDisk::new(alloc, sectors)?;
    match Keep::mount(disk) {
        Ok(keep) => Ok(keep),
        Err(_) => Err(Fail::from("zeros are an empty keep")),
    }
}

/// Whether a replacement that stops at the `k`-th call is Ok as it is to be, and leaves this string
/// after a loss of power.
fn stops(alloc: Global, k: u32, how: Loss, wanted: Option<u8>) -> Result<bool, Fail>
    requires { 0 < k }
{
    let mut keep = empty_keep(alloc, 16)?;
    keep.arm(Arm::Stop(k));
    let is_done = keep.replace(&lists_of(b"ab")).is_ok();
    let is_out = keep.is_out();
    let left = found(keep.close().crash(how));
    Ok(is_done == (k == 7) && is_out == (k < 7) && left == Ok(wanted))
}

#[test]
fn outlives_a_stop_at_each_call(rt: HostRuntime) -> Result<(), Fail> {
    for k in 1..8u32 {
        for how in [Loss::Keep, Loss::Old, Loss::Torn, Loss::Mix(0)] {
            let is_next = k == 7 || k == 6 && how != Loss::Old;
            let wanted = if is_next { Some(b'a') } else { None };
            assert!(rt; stops(rt.alloc(), k, how, wanted)?);
        }
    }
    Ok(())
}

/// Whether a mounting finds this where the slots have these turns, and the first is open or not.
fn finds(
    alloc: Global,
    is_open: bool,
    first: u8,
    second: u8,
    wanted: &FoundString,
) -> Result<bool, Fail> {
    let mut disk = MemDisk::new(alloc, 16)?;
    let body = body_of(first, b'x');
    let is_first = if is_open {
        open_slot(&mut disk, 0, &body)
    } else {
        write_body(&mut disk, 0, &body)
    };
    let is_second = open_slot(&mut disk, 1, &body_of(second, b'y'));
    Ok(found(disk) == *wanted && is_first && is_second)
}

#[test]
fn finds_the_later_of_two_slots(rt: HostRuntime) -> Result<(), Fail> {
    let cases: [(bool, u8, u8, FoundString); 5] = [
        (true, 0, 0, Err(MountRefusal::BadKeep { slot: 1 })),
        (true, 0, 1, Ok(Some(b'y'))),
        (true, 0, 2, Ok(Some(b'x'))),
        (true, 2, 0, Ok(Some(b'y'))),
        (false, 0, 0, Ok(Some(b'y'))),
    ];
    for (is_open, first, second, wanted) in &cases {
        assert!(rt; finds(rt.alloc(), *is_open, *first, *second, wanted)?);
    }
    Ok(())
}

/// The number of the format that a mounting finds, the first byte of the config string and the mark.
fn found_format(disk: MemDisk) -> Option<(u8, Option<u8>, bool)> {
    match Keep::mount(disk) {
        Ok(keep) => {
            let lists = keep.lists();
            let string = lists.config.as_slice().first().copied();
            Some((keep.format(), string, lists.read_only))
        }
        Err(_) => None,
    }
}

/// Whether a body in the first slot alone is found so.
fn reads(
    alloc: Global,
    body: &[u8; 3584],
    wanted: &Option<(u8, Option<u8>, bool)>,
) -> Result<bool, Fail> {
    let mut disk = MemDisk::new(alloc, 16)?;
    let is_open = open_slot(&mut disk, 0, body);
    Ok(found_format(disk) == *wanted && is_open)
}

#[test]
fn reads_both_formats(rt: HostRuntime) -> Result<(), Fail> {
    let cases = [
        (body_of(0, b'x'), Some((1, Some(b'x'), false))),
        // What is a mark in format 2 is the first byte of the string in format 1.
        (body_of(0, 1), Some((1, Some(1), false))),
        (marked_body(0, 0, b'x'), Some((2, Some(b'x'), false))),
        (marked_body(0, 1, b'x'), Some((2, Some(b'x'), true))),
        (marked_body(0, 2, b'x'), None),
    ];
    for (body, wanted) in &cases {
        assert!(rt; reads(rt.alloc(), body, wanted)?);
    }
    Ok(())
}

/// What a mounting finds after a loss of power in the `k`-th call of an upgrade.
fn left_by_upgrade(alloc: Global, k: u32, how: Loss) -> Result<Option<(u8, Option<u8>, bool)>, Fail>
    requires { 0 < k }
{
    let mut disk = MemDisk::new(alloc, 16)?;
    let _ = open_slot(&mut disk, 0, &body_of(0, b'x'));
    let _ = disk.sync();
    match Keep::mount(disk) {
        Ok(mut keep) => {
            keep.arm(Arm::Stop(k));
            let _ = keep.upgrade();
            Ok(found_format(keep.close().crash(how)))
        }
        Err(_) => Err(Fail::from("a keep of format 1")),
    }
}

#[test]
fn an_upgrade_loses_nothing_at_any_call(rt: HostRuntime) -> Result<(), Fail> {
    for k in 1..8u32 {
        for how in [Loss::Keep, Loss::Old] {
            let is_written = k == 7 || k == 6 && how == Loss::Keep;
            let format = if is_written { 2 } else { 1 };
            let left = left_by_upgrade(rt.alloc(), k, how)?;
            assert!(rt; left == Some((format, Some(b'x'), false)));
        }
    }
    Ok(())
}

/// Whether a mounting refuses a body.
fn is_bad(alloc: Global, body: &[u8; 3584]) -> Result<bool, Fail> {
    let mut disk = MemDisk::new(alloc, 16)?;
    let bad = MountRefusal::BadKeep { slot: 0 };
    let is_open = open_slot(&mut disk, 0, body);
    Ok(found(disk) == Err(bad) && is_open)
}

#[test]
fn refuses_bad_bodies(rt: HostRuntime) -> Result<(), Fail> {
    assert!(rt; is_bad(rt.alloc(), &[0; 3584])?);
    // Where a byte of a sound body is changed: its turn, its format, its lengths, its end.
    for (at, byte) in [(5, 3), (6, 4), (8, 2), (3583, 1), (4, 2), (9, 65)] {
        let mut body = body_of(0, b'x');
        if at < 3584 {
            body[at] = byte;
        }
        assert!(rt; is_bad(rt.alloc(), &body)?);
    }
    Ok(())
}
