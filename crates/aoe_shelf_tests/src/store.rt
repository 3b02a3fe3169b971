use super::cache::{Step, all_go};
use aoe_disk::{Loss, MemDisk};
use aoe_store::{Direct, Store};
use std::test::Fail;

/// The first and the last byte of the second sector, where the read is Ok.
fn ends_of(store: &mut Direct<MemDisk>) -> Option<[u8; 2]> {
    let mut out = [0; 512];
    if store.sectors() < 2 || store.read(1, &mut out).is_err() {
        return None;
    }
    Some([out[0], out[511]])
}

#[test]
fn calls_its_disk_once(rt: HostRuntime) -> Result<(), Fail> {
    let mut store = Direct::new(MemDisk::new(rt.alloc(), 2)?);
    let written = all_go(&mut store, &[Step::Put(1, 1, 3), Step::Syncs]);
    let ends = ends_of(&mut store);
    let steps = [Step::StopsAt(1), Step::FailsToSync, Step::IsOut(true)];
    let stopped = all_go(&mut store, &steps);
    let disk = store.close();
    let calls = disk.calls();
    let is_out = disk.crash(Loss::Keep).is_out();
    assert!(rt; written && ends == Some([3, 3]) && stopped && calls == 4 && !is_out);
    Ok(())
}
