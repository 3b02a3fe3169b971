//! Files and their keeps become the slots of a shelf, and leave it again.
ghost use Rattle.std.specs.Prelude.{◌≡◌, ◌<◌, ◌≤◌, ◌+◌, ◌*◌, ◌/◌, ◌%◌, ◌++◌, [], ◌∷◌, ℕ, List, All, IsSome, None, Some, length, IfErr, IfSome, OnErr, OnOk};
ghost use Rattle.aoe_base.specs.Sizes.{most_cached};
ghost use Rattle.aoe_keep.specs.Keep.{IsRefused};
ghost use Rattle.aoe_serve.specs.Files.{AreBack, AreGivenBack, AreSeated, IsSeated, Leaves, named};
ghost use Rattle.aoe_shelf.specs.Shelf.{refusal_of};

use crate::ExportRefusal;
use crate::backing::{Backing, Most};
use aoe_disk::Disk;
use aoe_keep::{Keep, MountRefusal};
use aoe_shelf::Shelf;
use std::alloc::Global;

/// Takes the file and the keep of a slot out of the disks.
fn take_pair<D: Disk + Drop>(pair: &mut [Option<D>]) -> (D, D)
    requires count { length pair.old ≡ 2 }
    requires there { All IsSome pair.old }
    ensures { pair.old ≡ Some result.0 ∷ Some result.1 ∷ [] }
{
    let (Some(file), Some(keep)) = (pair[0].take(), pair[1].take()) else {
        unreachable!()
    };
    (file, keep)
}

/// Puts the file and the keep back.
fn put_pair<D: Disk + Drop>(pair: &mut [Option<D>], file: D, keep: D)
    requires count { length pair.old ≡ 2 }
    ensures { pair.new ≡ Some file ∷ Some keep ∷ [] }
{
    pair[0] = Some(file);
    pair[1] = Some(keep);
}

/// Mounts the keep, and adds a target over the store and it. Where the keep is refused both are given
/// back.
fn seat<D: Disk + Drop, M: Most>(
    shelf: &mut Shelf<Backing<D, M>, D>,
    minor: u8,
    store: Backing<D, M>,
    keep: D,
) -> Result<(), (MountRefusal, Backing<D, M>, D)>
    requires minor { minor < 255 }
    requires free { refusal_of shelf.old.targets minor ≡ None }
    ensures seated { OnOk result (IsSeated D.state (named shelf.old.major shelf.old.ports shelf.old.mtu minor) store keep shelf.old.targets shelf.new.targets) }
    ensures refused { IfErr result (λ e. IsRefused D.state keep e.0 e.2) }
    ensures store { IfErr result (λ e. e.1 ≡ store) }
    ensures same { OnErr result (shelf.new ≡ shelf.old) }
    ensures rest { shelf.new ≡ record shelf.old { targets = shelf.new.targets } }
{
    let keep = match Keep::mount(keep) {
        Ok(keep) => keep,
        Err((refusal, keep)) => return Err((refusal, store, keep)),
    };
    match shelf.add(minor, store, keep) {
        Ok(()) => Ok(()),
        Err(_) => unreachable!(),
    }
}

/// Takes the slot that was added last, and gives its file and its keep.
fn leave<D: Disk + Drop, M: Most>(shelf: &mut Shelf<Backing<D, M>, D>) -> (D, D)
    requires { 0 < length shelf.old.targets }
    ensures leaves { Leaves D.state M.most result.0 result.1 shelf.old.targets shelf.new.targets }
    ensures rest { shelf.new ≡ record shelf.old { targets = shelf.new.targets } }
{
    let Some((store, keep)) = shelf.take_last() else {
        unreachable!()
    };
    (store.close(), keep.close())
}

/// Adds a slot for each pair of the disks, a file and its keep, which is mounted. The memory of all
/// stores is taken from the last to the first, and then the keeps are mounted from the first to the
/// last. Where there is no memory, or a keep is refused, the slots that were added leave again.
pub(crate) fn mount<D: Disk + Drop, M: Most>(
    alloc: Global,
    shelf: &mut Shelf<Backing<D, M>, D>,
    minor: u8,
    most: Option<u32>,
    disks: &mut [Option<D>],
) -> Result<(), ExportRefusal>
    requires most { most ≡ M.most }
    requires limit { IfSome most (λ n. n ≤ most_cached) }
    requires pairs { length disks.old % 2 ≡ 0 }
    requires there { All IsSome disks.old }
    requires empty { shelf.old.targets ≡ [] }
    requires room { length disks.old ≤ 32 }
    requires minors { minor + length disks.old / 2 ≤ 255 }
    ensures seated { OnOk result (AreSeated D.state M.most
        (named shelf.old.major shelf.old.ports shelf.old.mtu) minor disks.old shelf.new.targets) }
    ensures refused { IfErr result (λ e. AreGivenBack D.state e disks.old disks.new) }
    ensures same { OnErr result (shelf.new.targets ≡ []) }
    ensures there { OnErr result (All IsSome disks.new) }
    ensures count { OnOk result (length disks.old ≡ 2 * length shelf.new.targets) }
    ensures rest { shelf.new ≡ record shelf.old { targets = shelf.new.targets } }
{
    let Some(last) = disks.len().checked_sub(2) else {
        return Ok(());
    };
    let (others, pair) = disks.split_at_mut(last);
    let (file, keep) = take_pair(pair);
    let store = match Backing::<D, M>::new(alloc, file, most) {
        Ok(store) => store,
        Err(file) => {
            put_pair(pair, file, keep);
            return Err(ExportRefusal::NoMemory);
        }
    };
    match mount(alloc, shelf, minor, most, others) {
        Ok(()) => {}
        Err(refusal) => {
            put_pair(pair, store.close(), keep);
            return Err(refusal);
        }
    }
    let slot = shelf.count();
    match seat(shelf, minor + slot as u8, store, keep) {
        Ok(()) => Ok(()),
        Err((refusal, store, keep)) => {
            put_pair(pair, store.close(), keep);
            unmount(shelf, others);
            let slot = slot as u32;
            Err(ExportRefusal::Keep { slot, refusal })
        }
    }
}

/// Takes the slots, one for each pair of the disks, and puts their files and keeps back.
pub(crate) fn unmount<D: Disk + Drop, M: Most>(
    shelf: &mut Shelf<Backing<D, M>, D>,
    disks: &mut [Option<D>],
)
    requires { length disks.old ≡ 2 * length shelf.old.targets }
    ensures back { AreBack D.state M.most disks.new shelf.old.targets }
    ensures left { shelf.new.targets ≡ [] }
    ensures there { All IsSome disks.new }
    ensures rest { shelf.new ≡ record shelf.old { targets = shelf.new.targets } }
{
    let Some(last) = disks.len().checked_sub(2) else {
        return;
    };
    let (others, pair) = disks.split_at_mut(last);
    let (file, keep) = leave(shelf);
    put_pair(pair, file, keep);
    unmount(shelf, others);
}
