//! Disks in memory become a target of a shelf.
ghost use Rattle.std.specs.Prelude.{◌≡◌, ◌≤◌, ◌<◌, ◌++◌, ◌∷◌, [], IfOk, None, Ok, length, true};
ghost use Rattle.std.specs.Option.{option_map};
ghost use Rattle.aoe_cache.specs.Any.{any_state};
ghost use Rattle.aoe_disk.specs.Arming.{number_of};
ghost use Rattle.aoe_disk.specs.Memory.{state_of};
ghost use Rattle.aoe_keep.specs.Calls.{StandsBy};
ghost use Rattle.aoe_keep.specs.Found.{AlwaysFinds, found};
ghost use Rattle.aoe_keep.specs.Keep.{HasMounted};
ghost use Rattle.aoe_keep.specs.Stages.{next_place};
ghost use Rattle.aoe_lists.specs.Settings.{Settings};
ghost use Rattle.aoe_shelf.specs.Shelf.{refusal_of};
ghost use Rattle.aoe_sim_shelves.specs.NewKeep.{IsNewKeep};
ghost use Rattle.aoe_target.specs.Mounted.{station_of};

use aoe_base::{Failed, NoMemory};
use aoe_cache::AnyStore;
use aoe_disk::MemDisk;
use aoe_keep::{KEEP_SECTORS, Keep};
use aoe_shelf::Shelf;
use std::alloc::Global;

/// A shelf over disks in memory.
pub(crate) type MemShelf = Shelf<AnyStore<MemDisk>, MemDisk>;

/// The keep of a disk that has room for lists, on which lists stand, and of which no call fails.
pub(crate) fn mount(disk: MemDisk) -> Keep<MemDisk>
    requires room { 16 ≤ length disk.loose }
    requires lists { (lists : Settings) × (found disk.bytes ≡ Ok lists) }
    requires unarmed { disk.arming ≡ None }
    ensures mounted { HasMounted (state_of disk) (state_of result.disk) result.lists }
    ensures stands { StandsBy (state_of disk) result }
{
    match Keep::mount(disk) {
        Ok(keep) => keep,
        Err(_) => unreachable!(),
    }
}

/// Gives the lists of a keep the read-only mark. No call of its disk fails.
fn mark(keep: &mut Keep<MemDisk>)
    requires unarmed { option_map number_of keep.old.disk.arming ≡ None }
    ensures lists { keep.new.lists ≡ record keep.old.lists { read_only = true } }
    ensures finds { AlwaysFinds (state_of keep.new.disk) keep.new.lists }
    ensures sectors { length keep.new.disk.loose ≡ length keep.old.disk.loose }
    ensures unarmed { option_map number_of keep.new.disk.arming ≡ None }
    ensures place { keep.new.place ≡ next_place keep.old.place }
{
    let next = keep.lists().marked(true);
    match keep.replace(&next) {
        Ok(()) => {}
        Err(Failed) => unreachable!(),
    }
}

/// The keep of a slot to which nothing happened: its lists are empty, with the read-only mark or
/// without it.
pub(crate) fn new_keep(alloc: Global, read_only: bool) -> Result<Keep<MemDisk>, NoMemory>
    ensures { IfOk result (IsNewKeep read_only) }
{
    let Ok(disk) = MemDisk::new(alloc, KEEP_SECTORS) else {
        return Err(NoMemory);
    };
    let mut keep = mount(disk);
    if read_only {
        mark(&mut keep);
    }
    Ok(keep)
}

/// Adds a target behind the others.
pub(crate) fn seat(shelf: &mut MemShelf, minor: u8, store: AnyStore<MemDisk>, keep: Keep<MemDisk>)
    requires minor { minor < 255 }
    requires taken { refusal_of shelf.old.targets minor ≡ None }
    ensures { shelf.new ≡ record shelf.old {
      targets = shelf.old.targets ++ record {
        station = station_of record { major = shelf.old.major; minor = minor } shelf.old.ports shelf.old.mtu (any_state state_of store).sectors;
        keep = keep;
        store = store;
      } ∷ [];
    } }
{
    match shelf.add(minor, store, keep) {
        Ok(()) => {}
        Err(_) => unreachable!(),
    }
}
