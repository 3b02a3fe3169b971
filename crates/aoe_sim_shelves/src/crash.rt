//! The loss of power of a shelf.
ghost use Rattle.std.specs.Prelude.{List, ℕ, ◌≡◌, ◌≤◌, ◌<◌, length, map, replicate, slice_get, take, IsSomeAnd, None, OnErr, OnOk};
ghost use Rattle.aoe_history.specs.declared.entry.Entry.TheVariants.{Crashed};
ghost use Rattle.aoe_history.specs.Groups.{CrashEach, CrashSome};
ghost use Rattle.aoe_history.specs.Lawful.{IsLawful};
ghost use Rattle.aoe_history.specs.Setup.{AreSlots, Setup, SlotSetup};
ghost use Rattle.aoe_sim_shelves.specs.Crash.{with_crashes, Loses, LosesStore, RestartEach};
ghost use Rattle.aoe_sim_shelves.specs.Shelf.{AreTargets, Serves, Stands};
ghost use Rattle.aoe_history.specs.Run.{with_entry};

use crate::seat::{MemShelf, mount, seat};
use crate::{SimShelf, Stops};
use aoe_base::NoMemory;
use aoe_cache::AnyStore;
use aoe_disk::{Disk, Loss, MemDisk};
use aoe_history::Run;
use aoe_shelf::MAX_TARGETS;
use aoe_store::Direct;
use arrayvec::ArrayVec;

/// A disk that lost its power, opened again: it has as many sectors.
fn lose(disk: MemDisk, how: Loss) -> MemDisk
    ensures { Loses how disk result }
{
    let sectors = disk.sectors();
    let disk = disk.crash(how);
    prove_eq!(disk.sectors(), sectors);
    disk
}

/// A store whose disk lost its power, over what is left of it. A cache keeps its room, and nothing
/// that stood in it.
fn reopen(store: AnyStore<MemDisk>, how: Loss) -> AnyStore<MemDisk>
    ensures { LosesStore how store result }
{
    match store {
        AnyStore::Direct(store) => AnyStore::Direct(Direct::new(lose(store.close(), how))),
        AnyStore::Cached(store) => AnyStore::Cached(store.crash(how)),
    }
}

/// Each target loses its power, and is mounted again. The last one leaves the shelf first, and
/// comes back last.
fn restart(shelf: &mut MemShelf, how: Loss)
    requires { AreTargets shelf.old }
    ensures restarts { RestartEach how shelf.old.targets shelf.new.targets }
    ensures rest { shelf.new ≡ record shelf.old { targets = shelf.new.targets } }
{
    let Some(slot) = shelf.count().checked_sub(1) else {
        return;
    };
    let minor = shelf.id(slot).minor;
    let Some((store, keep)) = shelf.take_last() else {
        unreachable!()
    };
    restart(shelf, how);
    let keep = mount(lose(keep.close(), how));
    seat(shelf, minor, reopen(store, how), keep);
}

/// Records that the target at the slot lost its power.
fn note(run: &mut Run, shelf: &MemShelf, slot: usize, how: Loss) -> Result<(), NoMemory>
    requires { slot < length shelf.now.targets }
    ensures ok { OnOk result (IsSomeAnd (slice_get shelf.now.targets slot)
        (λ t. run.new ≡ with_entry run.old (Crashed t.station.id t.keep.lists how))) }
    ensures err { OnErr result (run.new ≡ run.old) }
{
    run.note_crash(shelf.id(slot), shelf.lists(slot).copy(), how)
}

/// Records that each target lost its power, as far as there is memory.
fn note_each(run: &mut Run, shelf: &MemShelf, how: Loss) -> Result<(), NoMemory>
    ensures ok { OnOk result (run.new ≡ record run.old { entries = with_crashes how shelf.now.targets run.old.entries }) }
    ensures err { OnErr result ((n : ℕ) × (run.new
        ≡ record run.old {
          entries = with_crashes how
              (take n shelf.now.targets) run.old.entries;
        })) }
{
    'slots: for slot in 0..shelf.count() {
        note(run, shelf, slot, how)?;
    }
    Ok(())
}

/// No disk of `count` slots is armed with a stop.
fn no_stops(count: usize) -> ArrayVec<Stops, MAX_TARGETS>
    requires { count ≤ 16 }
    ensures { result.items ≡ replicate count (record { store = None; keep = None }) }
{
    let mut stops = ArrayVec::new();
    'slots: for _ in 0..count {
        stops.push(Stops::none());
    }
    stops
}

impl SimShelf {
    /// Each target in turn loses its power, and is mounted again with what `how` leaves.
    pub fn crash(&mut self, run: &mut Run, how: Loss) -> Result<(), NoMemory>
        ensures life { run.new.life ≡ run.old.life }
        ensures restarts { RestartEach how self.old.shelf.targets self.new.shelf.targets }
        ensures found { OnOk result (run.new.entries
            ≡ with_crashes how self.new.shelf.targets run.old.entries) }
        ensures ok { OnOk result ((s : Setup) (slots : List SlotSetup) → AreSlots s slots → Stands slots run.old.entries self.old
            → IsLawful s run.old.entries
            → CrashEach how slots run.old.entries run.new.entries × IsLawful s run.new.entries × Serves slots run.new.entries self.new) }
        ensures err { OnErr result ((s : Setup) (slots : List SlotSetup) → AreSlots s slots → Stands slots run.old.entries self.old
            → IsLawful s run.old.entries → CrashSome how slots run.old.entries run.new.entries × IsLawful s run.new.entries) }
        ensures major { self.new.shelf.major ≡ self.old.shelf.major }
        ensures stations { map (λ t. t.station) self.new.shelf.targets
            ≡ map (λ t. t.station) self.old.shelf.targets }
    {
        restart(&mut self.shelf, how);
        self.stops = no_stops(self.shelf.count());
        note_each(run, &self.shelf, how)
    }
}
