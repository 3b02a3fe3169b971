use aoe_disk::{Arm, Armed, Disk, Loss, MemDisk};
use std::test::Fail;

/// What is done to a disk, or what it then has.
#[derive(Clone, Copy)]
enum Step {
    /// Fills a sector with a byte, which is done or fails.
    Fills(u64, u8, bool),
    /// The first and the last byte of each half of a sector, where it can be read.
    Has(u64, Option<[u8; 4]>),
    /// Syncs, which is done or fails.
    Syncs(bool),
    /// The call with this number from now on fails, and all later ones.
    StopsAt(u32),
    /// Whether a stop was reached.
    IsOut(bool),
}

/// Fills a sector with one byte, and says whether the write was Ok.
fn fill(disk: &mut MemDisk, at: u64, byte: u8) -> bool {
    at < disk.sectors() && disk.write(at, &[byte; 512]).is_ok()
}

/// The first and last byte of each half of a sector, where the read is Ok.
fn halves(disk: &mut MemDisk, at: u64) -> Option<[u8; 4]> {
    let mut out = [0; 512];
    if at >= disk.sectors() || disk.read(at, &mut out).is_err() {
        return None;
    }
    Some([out[0], out[255], out[256], out[511]])
}

/// Whether a step goes as it is to.
fn goes(disk: &mut MemDisk, step: Step) -> bool {
    match step {
        Step::Fills(at, byte, is_done) => fill(disk, at, byte) == is_done,
        Step::Has(at, bytes) => halves(disk, at) == bytes,
        Step::Syncs(is_done) => disk.sync().is_ok() == is_done,
        Step::StopsAt(k) => {
            disk.arm(Arm::Stop(k.max(1)));
            true
        }
        Step::IsOut(is_out) => disk.is_out() == is_out,
    }
}

/// Whether all steps go as they are to.
fn all_go(disk: &mut MemDisk, steps: &[Step]) -> bool {
    for step in steps {
        if !goes(disk, *step) {
            return false;
        }
    }
    true
}

/// Whether the steps go as they are to with a disk, and make so many calls, and those behind a loss of
/// power too.
fn outlives(mut disk: MemDisk, steps: &[Step], calls: u64, how: Loss, then: &[Step]) -> bool {
    let has_gone = all_go(&mut disk, steps) && disk.calls() == calls;
    let mut disk = disk.crash(how);
    has_gone && all_go(&mut disk, then)
}

#[test]
fn stops_for_good(rt: HostRuntime) -> Result<(), Fail> {
    let steps = [
        Step::StopsAt(2),
        Step::Fills(1, 7, true),
        Step::IsOut(false),
        Step::Syncs(false),
        Step::IsOut(true),
        Step::Syncs(false),
        Step::Has(1, None),
    ];
    let then = [Step::IsOut(false), Step::Has(1, Some([7; 4]))];
    assert!(rt; outlives(MemDisk::new(rt.alloc(), 4)?, &steps, 4, Loss::Keep, &then));
    Ok(())
}

#[test]
fn begins_with_an_image(rt: HostRuntime) -> Result<(), Fail> {
    let mut disk = MemDisk::of(rt.alloc(), &[9; 1024])?;
    assert!(rt; disk.sectors() == 2 && halves(&mut disk, 1) == Some([9; 4]));
    let empty = MemDisk::of(rt.alloc(), &[])?;
    assert!(rt; empty.sectors() == 0);
    Ok(())
}
