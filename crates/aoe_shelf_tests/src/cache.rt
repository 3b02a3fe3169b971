use aoe_cache::{AnyStore, Cached};
use aoe_disk::{Arm, MemDisk};
use aoe_store::{ArmedStore, Direct, Store};
use std::alloc::Global;
use std::test::Fail;

/// A cached store with this room over a disk of 128 zero sectors.
fn cached(alloc: Global, room: u32) -> Result<Cached<MemDisk>, Fail> {
    let disk = MemDisk::new(alloc, 128)?;
    match Cached::mount(alloc, disk, room.clamp(1, 65_536)) {
        Ok(store) => Ok(store),
        Err((refused, _)) => Err(refused.into()),
    }
}

/// Writes whole sectors, and says whether the write was Ok.
fn put<S: Store>(store: &mut S, at: u64, piece: &[u8]) -> bool {
    let count = (piece.len() / 512) as u64;
    if count == 0
        || piece.len() % 512 != 0
        || store.sectors() < count
        || store.sectors() - count < at
    {
        return false;
    }
    store.write(at, piece).is_ok()
}

/// The first byte of each of four sectors, where the read is Ok.
fn four<S: Store>(store: &mut S, at: u64) -> Option<[u8; 4]> {
    let mut out = [0; 2048];
    if store.sectors() < 4 || store.sectors() - 4 < at || store.read(at, &mut out).is_err() {
        return None;
    }
    Some([out[0], out[512], out[1024], out[1536]])
}

/// What is done to a store, or what it then has.
#[derive(Clone, Copy)]
pub(super) enum Step {
    /// Writes so many sectors of a byte from a sector on: the sector, the count, the byte.
    Put(u64, usize, u8),
    /// Fails to write them.
    Refuses(u64, usize, u8),
    /// Four sectors from a sector on begin with these bytes.
    Has(u64, [u8; 4]),
    Syncs,
    FailsToSync,
    /// Four sectors from a sector on can't be read.
    Unread(u64),
    /// The call of the disk with this number from now on fails, and no other.
    FailsAt(u32),
    /// It fails, and all later ones.
    StopsAt(u32),
    /// Whether a stop was reached.
    IsOut(bool),
}

/// Writes so many sectors of a byte, and says whether the write was Ok.
fn fill<S: Store>(store: &mut S, at: u64, count: usize, byte: u8) -> bool {
    let bytes = [byte; 512 * 65];
    match bytes.get(..count.saturating_mul(512)) {
        Some(piece) => put(store, at, piece),
        None => false,
    }
}

/// Whether a step goes as it is to.
fn goes<S: ArmedStore>(store: &mut S, step: Step) -> bool {
    match step {
        Step::Put(at, count, byte) => fill(store, at, count, byte),
        Step::Refuses(at, count, byte) => !fill(store, at, count, byte),
        Step::Has(at, bytes) => four(store, at) == Some(bytes),
        Step::Syncs => store.sync().is_ok(),
        Step::FailsToSync => store.sync().is_err(),
        Step::Unread(at) => four(store, at).is_none(),
        Step::FailsAt(k) => {
            store.arm(Arm::Fail(k.max(1)));
            true
        }
        Step::StopsAt(k) => {
            store.arm(Arm::Stop(k.max(1)));
            true
        }
        Step::IsOut(is_out) => store.is_out() == is_out,
    }
}

/// Whether all steps go as they are to.
pub(super) fn all_go<S: ArmedStore>(store: &mut S, steps: &[Step]) -> bool {
    for step in steps {
        if !goes(store, *step) {
            return false;
        }
    }
    true
}

/// Whether the steps go as they are to with a store of this room, and its disk has so many calls and
/// these contents then.
fn ends(
    alloc: Global,
    room: u32,
    steps: &[Step],
    calls: u64,
    contents: &[Step],
) -> Result<bool, Fail> {
    let mut store = cached(alloc, room)?;
    let has_gone = all_go(&mut store, steps);
    let disk = store.close();
    let is_called = disk.calls() == calls;
    Ok(all_go(&mut Direct::new(disk), contents) && has_gone && is_called)
}

#[test]
fn calls_its_disk_late(rt: HostRuntime) -> Result<(), Fail> {
    let steps = [
        Step::Put(5, 1, 7),
        Step::Put(3, 1, 7),
        Step::Put(4, 1, 7),
        Step::Syncs,
    ];
    assert!(rt; ends(rt.alloc(), 4, &steps[..3], 0, &[])?);
    assert!(rt; ends(rt.alloc(), 4, &steps, 2, &[Step::Has(3, [7, 7, 7, 0])])?);
    Ok(())
}

#[test]
fn writes_down_when_full(rt: HostRuntime) -> Result<(), Fail> {
    let steps = [
        Step::Put(0, 1, 9),
        Step::Put(2, 1, 9),
        Step::Put(4, 1, 9),
        Step::Put(6, 1, 9),
        Step::Put(8, 1, 9),
        Step::Has(6, [9, 0, 9, 0]),
    ];
    assert!(rt; ends(rt.alloc(), 4, &steps[..4], 0, &[])?);
    assert!(rt; ends(rt.alloc(), 4, &steps, 5, &[])?);
    Ok(())
}

#[test]
fn keeps_what_could_not_be_written(rt: HostRuntime) -> Result<(), Fail> {
    let steps = [
        Step::Put(5, 1, 8),
        Step::Put(0, 1, 8),
        Step::Put(3, 1, 8),
        Step::Put(2, 1, 8),
        // The second of three runs fails: the others leave the buffer, and the disk isn't synced.
        Step::FailsAt(2),
        Step::FailsToSync,
        Step::Has(2, [8, 8, 0, 8]),
        Step::Put(3, 1, 7),
        Step::Has(2, [8, 7, 0, 8]),
        Step::IsOut(false),
        // A write that the buffer has no room for fails with the call that makes room, and puts nothing.
        Step::Put(9, 2, 6),
        Step::FailsAt(1),
        Step::Refuses(12, 1, 9),
        Step::Has(9, [6, 6, 0, 0]),
        Step::Has(2, [8, 7, 0, 8]),
        Step::Syncs,
    ];
    // Three writes for the first sync, two for the write that is refused, and one write and a sync
    // for the last sync, beside four reads.
    let contents = [Step::Has(2, [8, 7, 0, 8]), Step::Has(9, [6, 6, 0, 0])];
    assert!(rt; ends(rt.alloc(), 4, &steps, 11, &contents)?);
    Ok(())
}

#[test]
fn a_bad_sector_holds_no_other_back(rt: HostRuntime) -> Result<(), Fail> {
    // The lowest of three runs can't be written, nor when it is tried again.
    let steps = [
        Step::Put(0, 1, 8),
        Step::Put(2, 2, 8),
        Step::Put(6, 1, 8),
        Step::FailsAt(1),
        Step::FailsToSync,
        Step::FailsAt(1),
        Step::FailsToSync,
    ];
    // The disk has the others after the first sync, and was never synced. A failed write left 0xee.
    let contents = [Step::Has(0, [0xee, 0, 8, 8]), Step::Has(5, [0, 8, 0, 0])];
    assert!(rt; ends(rt.alloc(), 4, &steps[..5], 3, &contents)?);
    assert!(rt; ends(rt.alloc(), 4, &steps, 4, &contents)?);
    // Once it can be, a sync writes it alone.
    let mut store = cached(rt.alloc(), 4)?;
    assert!(rt; all_go(&mut store, &steps) && all_go(&mut store, &[Step::Syncs]));
    let disk = store.close();
    assert!(rt; disk.calls() == 6);
    assert!(rt; all_go(&mut Direct::new(disk), &[Step::Has(0, [8, 0, 8, 8])]));
    Ok(())
}

/// Whether a store of either kind runs, and makes so many calls of its disk.
fn runs(mut store: AnyStore<MemDisk>, calls: u64) -> bool {
    let steps = [
        Step::Put(0, 1, 1),
        Step::Put(1, 1, 2),
        Step::Syncs,
        Step::StopsAt(1),
        Step::Unread(0),
        Step::IsOut(true),
    ];
    let has_gone = all_go(&mut store, &steps);
    let disk = store.close();
    has_gone && disk.calls() == calls
}

#[test]
fn either_store_runs(rt: HostRuntime) -> Result<(), Fail> {
    let direct = Direct::new(MemDisk::new(rt.alloc(), 128)?);
    assert!(rt; runs(AnyStore::Direct(direct), 4));
    assert!(rt; runs(AnyStore::Cached(cached(rt.alloc(), 4)?), 3));
    Ok(())
}
