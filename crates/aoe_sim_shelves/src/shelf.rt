//! A shelf over disks in memory.
ghost use Rattle.std.specs.Prelude.{List, ℕ, ◌≡◌, ◌<◌, ◌≤◌, ◌+◌, ◌^◌, ◌==◌, ◌||◌, ◌++◌, ◌∷◌, [], IfOk, IfSome, IsSomeAnd, None, OnErr, OnOk, false, length, map, slice_get};
ghost use Rattle.aoe_base.specs.Sizes.{most_cached};
ghost use Rattle.aoe_disk.specs.Arming.{number_of};
ghost use Rattle.aoe_history.specs.declared.entry.Entry.TheVariants.{Armed};
ghost use Rattle.aoe_history.specs.Setup.{AreApart, slot_over, SlotSetup};
ghost use Rattle.aoe_sim_shelves.specs.Arming.{arm_of, with_stop, ArmsDisk};
ghost use Rattle.aoe_sim_shelves.specs.Shelf.{Serves};
ghost use Rattle.aoe_history.specs.Run.{with_entry};
ghost use Rattle.aoe_shelf.specs.Shelf.{has_minor};
ghost use Rattle.aoe_shelf.specs.Slot.{ChangesAt};
ghost use Rattle.aoe_target.specs.Mounted.{station_of};

use crate::seat::{MemShelf, new_keep, seat};
use aoe_base::{NoMemory, Ports, TargetId};
use aoe_cache::AnyStore;
use aoe_disk::{Arm, Loss, MemDisk};
use aoe_history::{Entry, Run};
use aoe_script::Which;
use aoe_shelf::{MAX_TARGETS, Shelf};
use arrayvec::ArrayVec;
use std::alloc::Global;
use std::marker::Model;

/// What a stop leaves that one of the two disks of a slot is armed with, where it is.
#[derive(Clone, Copy, Default, PartialEq, Eq)]
pub struct Stops {
    pub store: Option<Loss>,
    pub keep: Option<Loss>,
}

/// A shelf over disks in memory, in a run. Each of its steps says what it adds to the history of
/// the run, for every setup of which the disks are what the history says of its slots.
#[derive(Drop)]
pub struct SimShelf {
    pub(crate) major: u16,
    pub(crate) shelf: MemShelf,

    /// For each target, in the order of the shelf.
    pub(crate) stops: ArrayVec<Stops, MAX_TARGETS>,
}

impl Model for SimShelf {
    ghost use Rattle.aoe_sim_shelves.specs.Shelf as model;

    ghost Value = { model.SimShelf };

    ghost view = { λ x. record { shelf = x.shelf; stops = x.stops.items } };

    ghost invariant = { λ x. model.IsSimShelf x.major x.shelf x.stops.items };
}

impl Stops {
    /// Of a slot of which no disk is armed with a stop.
    pub fn none() -> Stops
        ensures { result ≡ record { store = None; keep = None } }
    {
        Stops {
            store: None,
            keep: None,
        }
    }

    /// One of the disks is armed.
    fn with(self, which: Which, mode: Option<Loss>) -> Stops
        ensures { result ≡ with_stop which mode self }
    {
        match which {
            Which::Store => Stops {
                store: mode,
                ..self
            },
            Which::Keep => Stops { keep: mode, ..self },
        }
    }
}

/// The call fails, or the power is lost in it.
fn arm_of(k: u32, mode: Option<Loss>) -> Arm
    ensures { result ≡ arm_of k mode }
{
    match mode {
        None => Arm::Fail(k),
        Some(_) => Arm::Stop(k),
    }
}

/// Arms one of the two disks of the target at the slot.
fn arm_disk(shelf: &mut MemShelf, slot: usize, which: Which, arm: Arm)
    requires slot { slot < length shelf.old.targets }
    requires number { 0 < number_of arm }
    ensures arms { ChangesAt slot (ArmsDisk which arm) shelf.old.targets shelf.new.targets }
    ensures rest { shelf.new ≡ record shelf.old { targets = shelf.new.targets } }
{
    match which {
        Which::Store => shelf.arm_store(slot, arm),
        Which::Keep => shelf.arm_keep(slot, arm),
    }
}

impl SimShelf {
    /// A shelf with the number `major` and no target, whose frames carry up to `mtu` bytes.
    pub fn new(alloc: Global, major: u16, ports: Ports, mtu: u32) -> Result<SimShelf, NoMemory>
        requires shelf { major < 65535 }
        requires ports { 1 ≤ length ports.items }
        requires shortest { 1500 ≤ mtu }
        requires longest { mtu ≤ 9000 }
        ensures value { IfOk result (λ x. x ≡ record {
          shelf = record { major = major; ports = ports.items; mtu = mtu; targets = [] };
          stops = [];
        }) }
        ensures serves { IfOk result (Serves [] []) }
    {
        Ok(SimShelf {
            major,
            shelf: Shelf::new(alloc, major, ports, mtu)?,
            stops: ArrayVec::new(),
        })
    }

    /// Adds a target of zeros behind the others. Its store has a cache for `room` sectors, where
    /// there is a number. Its lists are empty, with the read-only mark where it takes no writes.
    pub fn add(
        &mut self,
        alloc: Global,
        minor: u8,
        sectors: u64,
        room: Option<u32>,
        read_only: bool,
    ) -> Result<(), NoMemory>
        requires minor { minor < 255 }
        requires sectors { sectors ≤ 2 ^ 40 }
        requires room { length self.old.shelf.targets < 16 }
        requires cache { IfSome room (λ (n : ℕ). (1 ≤ n) × (n ≤ most_cached)) }
        requires repeats { has_minor self.old.shelf.targets minor ≡ false }
        ensures serves { OnOk result ((slots : List SlotSetup) → Serves slots [] self.old → Serves (slots ++ slot_over
            (station_of record { major = self.old.shelf.major; minor = minor } self.old.shelf.ports self.old.shelf.mtu sectors)
            room read_only ∷ []) [] self.new) }
        ensures count { OnOk result (length self.new.shelf.targets
            ≡ length self.old.shelf.targets + 1) }
        ensures minors { OnOk result ((m : ℕ) → has_minor self.new.shelf.targets m
            ≡ (has_minor self.old.shelf.targets m || minor == m)) }
        ensures added { OnOk result (map (λ t. t.station) self.new.shelf.targets
            ≡ map (λ t. t.station) self.old.shelf.targets ++ station_of record { major = self.old.shelf.major; minor = minor } self.old.shelf.ports
            self.old.shelf.mtu sectors ∷ []) }
        ensures rest { self.new.shelf ≡ record self.old.shelf { targets = self.new.shelf.targets } }
        ensures err { OnErr result (self.new ≡ self.old) }
    {
        let (Ok(store), Ok(keep)) = (MemDisk::new(alloc, sectors), new_keep(alloc, read_only))
        else {
            return Err(NoMemory);
        };
        let Ok(store) = AnyStore::over(alloc, store, room) else {
            return Err(NoMemory);
        };
        seat(&mut self.shelf, minor, store, keep);
        self.stops.push(Stops::none());
        Ok(())
    }

    /// Its number.
    pub fn major(&self) -> u16
        ensures { result ≡ self.now.shelf.major }
    {
        self.major
    }

    /// How many targets there are.
    pub fn count(&self) -> usize
        ensures count { result ≡ length self.now.shelf.targets }
        ensures bound { result ≤ 16 }
    {
        self.shelf.count()
    }

    /// The name of the target at the slot.
    pub fn id(&self, slot: usize) -> TargetId
        requires { slot < length self.now.shelf.targets }
        ensures { IsSomeAnd (slice_get self.now.shelf.targets slot)
            (λ target. result ≡ target.station.id) }
    {
        self.shelf.id(slot)
    }

    /// Arms one of the two disks of the target at the slot, in place of what was armed before: its
    /// `k`-th device call from now on fails; or, where there is a mode, the power is lost in that
    /// call, and this is what is left then.
    pub fn arm(
        &mut self,
        run: &mut Run,
        slot: usize,
        which: Which,
        k: u64,
        mode: Option<Loss>,
    ) -> Result<(), NoMemory>
        requires slot { slot < length self.old.shelf.targets }
        requires first { 0 < k }
        requires last { k ≤ 1000 }
        ensures ok { OnOk result (IsSomeAnd (slice_get self.old.shelf.targets slot)
            (λ t. run.new ≡ with_entry run.old (Armed t.station.id which k mode))) }
        ensures serves { OnOk result ((slots : List SlotSetup) → AreApart slots → Serves slots run.old.entries self.old
            → Serves slots run.new.entries self.new) }
        ensures err { OnErr result (run.new ≡ run.old) }
        ensures same { OnErr result (self.new ≡ self.old) }
        ensures major { self.new.shelf.major ≡ self.old.shelf.major }
        ensures stations { map (λ t. t.station) self.new.shelf.targets
            ≡ map (λ t. t.station) self.old.shelf.targets }
    {
        let entry = Entry::Armed {
            dev: self.id(slot),
            which,
            k,
            mode,
        };
        run.note(entry)?;
        arm_disk(&mut self.shelf, slot, which, arm_of(k as u32, mode));
        let stops = self.stops[slot];
        self.stops[slot] = stops.with(which, mode);
        Ok(())
    }
}
