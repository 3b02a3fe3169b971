//! The targets of a shelf.
ghost use Rattle.std.specs.Prelude.{◌≡◌, length};
ghost use Rattle.std.specs.List.{list_any};
ghost use Rattle.aoe_shelf.specs.Shelf.{has_minor};

use crate::ShelfRefusal;
use aoe_base::{Failed, NoMemory, Ports, TargetId, copy_of};
use aoe_disk::{Arm, Armed, Disk};
use aoe_frame::Frame;
use aoe_keep::Keep;
use aoe_lists::Lists;
use aoe_store::{ArmedStore, Store};
use aoe_target::{Heard, Target};
use std::alloc::Global;
use std::marker::Model;

/// How many targets a shelf has room for.
pub const MAX_TARGETS: usize = 16;

/// Up to 16 targets behind the same ports. A slot is the place of a target in the order of adding,
/// counted from 0, whatever its minor is.
///
/// All room is made by `new`: no later call takes memory.
#[derive(Drop)]
pub struct Shelf<S: Store, D: Disk> {
    major: u16,
    ports: Ports,

    /// How many bytes an Ethernet frame carries.
    mtu: u32,

    /// The targets in the order of adding.
    targets: Vec<Target<S, D>>,
}

impl<S: Store, D: Disk> Model for Shelf<S, D> {
    ghost use Rattle.std.specs.Prelude.{length, vec_capacity};
    ghost use Rattle.aoe_shelf.specs.Shelf.{ShelfTable, IsShelf};

    ghost Value = { ShelfTable S D };

    ghost view = { λ s. record { major = s.major; ports = s.ports.items; mtu = s.mtu; targets = s.targets.items } };

    ghost invariant = { λ s. IsShelf s.major s.ports.items s.mtu (length s.targets.items) (vec_capacity s.targets) };
}

fn has_minor<S: Store, D: Disk>(targets: &[Target<S, D>], minor: u8) -> bool
    ensures { result ≡ has_minor targets.now minor }
{
    targets.iter().any(|target| target.id().minor == minor)
}

impl<S: Store, D: Disk> Shelf<S, D> {
    ghost use Rattle.std.specs.Prelude.{◌≡◌, ◌*◌, ◌≤◌, ◌<◌, [], ◌∷◌, ◌++◌, None, Some, length, slice_get, IfErr, IfOk, IsSomeAnd, OnErr, OnOk};
    ghost use Rattle.aoe_shelf.specs.Calls.{SyncsStore, TakesLast};
    ghost use Rattle.aoe_shelf.specs.Shelf.{refusal_of};
    ghost use Rattle.aoe_shelf.specs.Slot.{ChangesAt};
    ghost use Rattle.aoe_target.specs.Mounted.{station_of};
    ghost use Rattle.aoe_target.specs.Lasting.{TurnsFirm};
    ghost use Rattle.aoe_target.specs.Turn.{Receives, TurnsDisk};

    /// A shelf with the number `major` and no target, whose frames carry up to `mtu` bytes.
    pub fn new(alloc: Global, major: u16, ports: Ports, mtu: u32) -> Result<Shelf<S, D>, NoMemory>
        requires shelf { major < 65535 }
        requires ports { 1 ≤ length ports.items }
        requires shortest { 1500 ≤ mtu }
        requires longest { mtu ≤ 9000 }
        ensures { IfOk result (λ shelf. shelf ≡ record { major = major; ports = ports.items; mtu = mtu; targets = [] }) }
    {
        let targets = Vec::with_capacity(alloc, MAX_TARGETS)?;
        Ok(Shelf {
            major,
            ports,
            mtu,
            targets,
        })
    }

    /// Adds a target behind the others, with the lists of the keep. Where it isn't added the store
    /// and the keep are given back.
    pub fn add(
        &mut self,
        minor: u8,
        store: S,
        keep: Keep<D>,
    ) -> Result<(), (ShelfRefusal, S, Keep<D>)>
        requires { minor < 255 }
        ensures added { OnOk result (self.new ≡ record self.old {
          targets = self.old.targets ++ record {
            station = station_of record { major = self.old.major; minor = minor } self.old.ports self.old.mtu (S.state store).sectors;
            keep = keep;
            store = store;
          } ∷ [];
        }) }
        ensures taken { OnOk result (refusal_of self.old.targets minor ≡ None) }
        ensures refused { IfErr result (λ e. refusal_of self.old.targets minor ≡ Some e.0) }
        ensures store { IfErr result (λ e. e.1 ≡ store) }
        ensures keep { IfErr result (λ e. e.2 ≡ keep) }
        ensures same { OnErr result (self.new ≡ self.old) }
    {
        if self.targets.len() == MAX_TARGETS {
            return Err((ShelfRefusal::Full, store, keep));
        }
        if has_minor(&self.targets, minor) {
            return Err((ShelfRefusal::Repeated, store, keep));
        }
        let id = TargetId {
            major: self.major,
            minor,
        };
        let target = Target::mount(store, keep, id, copy_of(&self.ports), self.mtu);
        self.targets.push_reserved(target);
        Ok(())
    }

    /// How many targets there are.
    pub fn count(&self) -> usize
        ensures count { result ≡ length self.now.targets }
        ensures bound { result ≤ 16 }
    {
        self.targets.len()
    }

    /// The name of the target at the slot.
    pub fn id(&self, slot: usize) -> TargetId
        requires { slot < length self.now.targets }
        ensures { IsSomeAnd (slice_get self.now.targets slot)
            (λ target. result ≡ target.station.id) }
    {
        self.targets[slot].id()
    }

    /// The lists of the target at the slot.
    pub fn lists(&self, slot: usize) -> &Lists
        requires { slot < length self.now.targets }
        ensures { IsSomeAnd (slice_get self.now.targets slot)
            (λ target. result.now ≡ target.keep.lists) }
    {
        self.targets[slot].lists()
    }

    /// Hands a frame to the target at the slot, which does what it asks for, and makes `out` the
    /// reply; where there is none `out` is empty.
    pub fn receive_slot(&mut self, slot: usize, frame: &[u8], out: &mut Frame) -> Heard
        requires { slot < length self.old.targets }
        ensures receives { ChangesAt slot (λ before after. Receives S.state D.state before after frame.now result out.new.items)
            self.old.targets self.new.targets }
        ensures under { ChangesAt slot
            (TurnsDisk S.state S.under frame.now result) self.old.targets self.new.targets }
        ensures firm { ChangesAt slot (λ before after. TurnsFirm S.lasts S.state result out.new.items after)
            self.old.targets self.new.targets }
        ensures count { length self.new.targets ≡ length self.old.targets }
        ensures rest { self.new ≡ record self.old { targets = self.new.targets } }
    {
        self.targets[slot].receive(frame, out)
    }

    /// Syncs the store of the target at the slot.
    pub fn sync_slot(&mut self, slot: usize) -> Result<(), Failed>
        requires { slot < length self.old.targets }
        ensures syncs { ChangesAt slot
            (SyncsStore S.state result) self.old.targets self.new.targets }
        ensures count { length self.new.targets ≡ length self.old.targets }
        ensures rest { self.new ≡ record self.old { targets = self.new.targets } }
    {
        self.targets[slot].sync()
    }

    /// Takes the target that was added last, and gives its store and its keep.
    pub fn take_last(&mut self) -> Option<(S, Keep<D>)>
        ensures takes { TakesLast result self.old.targets self.new.targets }
        ensures rest { self.new ≡ record self.old { targets = self.new.targets } }
    {
        let target = self.targets.pop()?;
        Some(target.close())
    }
}

impl<S: ArmedStore, D: Armed> Shelf<S, D> {
    ghost use Rattle.std.specs.Prelude.{◌≡◌, ◌<◌, length, slice_get, IfSome, IsSomeAnd};
    ghost use Rattle.aoe_disk.specs.Arming.{number_of};
    ghost use Rattle.aoe_disk.specs.State.{BothTell};
    ghost use Rattle.aoe_store.specs.Under.{ArmsUnder};
    ghost use Rattle.aoe_shelf.specs.Calls.{ArmsKeep, ArmsStore};
    ghost use Rattle.aoe_shelf.specs.Slot.{ChangesAt};

    /// Arms the disk of the store at the slot, in place of what was armed before.
    pub fn arm_store(&mut self, slot: usize, arm: Arm)
        requires slot { slot < length self.old.targets }
        requires number { 0 < number_of arm }
        ensures arms { ChangesAt slot (ArmsStore S.state arm) self.old.targets self.new.targets }
        ensures under { ChangesAt slot (λ before after. BothTell (ArmsUnder arm) (S.under before.store) (S.under after.store))
            self.old.targets self.new.targets }
        ensures count { length self.new.targets ≡ length self.old.targets }
        ensures rest { self.new ≡ record self.old { targets = self.new.targets } }
    {
        self.targets[slot].arm_store(arm);
    }

    /// Arms the disk of the keep at the slot, in place of what was armed before.
    pub fn arm_keep(&mut self, slot: usize, arm: Arm)
        requires slot { slot < length self.old.targets }
        requires number { 0 < number_of arm }
        ensures arms { ChangesAt slot (ArmsKeep D.state arm) self.old.targets self.new.targets }
        ensures count { length self.new.targets ≡ length self.old.targets }
        ensures rest { self.new ≡ record self.old { targets = self.new.targets } }
    {
        self.targets[slot].arm_keep(arm);
    }

    /// Whether the disk of the store at the slot reached a stop.
    pub fn store_is_out(&self, slot: usize) -> bool
        requires { slot < length self.now.targets }
        ensures { IsSomeAnd (slice_get self.now.targets slot)
            (λ target. IfSome (S.state target.store).schedule (λ schedule. result ≡ schedule.out)) }
    {
        self.targets[slot].store_is_out()
    }

    /// Whether the disk of the keep at the slot reached a stop.
    pub fn keep_is_out(&self, slot: usize) -> bool
        requires { slot < length self.now.targets }
        ensures { IsSomeAnd (slice_get self.now.targets slot)
            (λ target. IfSome (D.state target.keep.disk).schedule (λ schedule. result ≡ schedule.out)) }
    {
        self.targets[slot].keep_is_out()
    }
}
