//! A store that writes to its disk later.
ghost use Rattle.std.specs.Prelude.{◌≡◌, ◌≤◌, [], true, length, IfOk, IfErr, IfSome};
ghost use Rattle.aoe_base.specs.Sizes.{most_cached};
ghost use Rattle.aoe_disk.specs.Loss.{IsLeft};
ghost use Rattle.aoe_disk.specs.Memory.{contents_of, fresh};
ghost use Rattle.aoe_disk.specs.State.{BothTell, CanLeave};
ghost use Rattle.aoe_cache.specs.Cache.{seen_contents, state_of};
ghost use Rattle.aoe_cache.specs.Free.{KeepsSettled, free, is_settled};

use crate::write_behind::WriteBehind;
use aoe_base::{Failed, NoMemory};
use aoe_disk::{Arm, Armed, Disk, Loss, MemDisk};
use aoe_store::{ArmedStore, Store};
use std::alloc::Global;
use std::marker::Model;

/// A disk as a store that holds back what was written to it, until its buffer is full or a sync.
#[derive(Drop)]
pub struct Cached<D: Disk> {
    behind: WriteBehind<D>,
}

impl<D: Disk> Model for Cached<D> {
    ghost use Rattle.aoe_cache.specs.Cache.{Cache, IsWriteBehind, cache_of};

    ghost Value = { Cache D };

    ghost view = { λ c. cache_of c.behind };

    ghost invariant = { λ c. IsWriteBehind D.state c.behind };
}

impl<D: Disk> Cached<D> {
    /// The disk as a store that holds back up to `room` sectors. All its memory is taken here, for
    /// `room` sectors or for all of the disk, whichever are fewer.
    pub fn mount(alloc: Global, disk: D, room: u32) -> Result<Cached<D>, (NoMemory, D)>
        requires some { 1 ≤ room }
        requires most { room ≤ most_cached }
        ensures store { IfOk result (λ store. store
            ≡ record { disk = disk; held = []; room = room }) }
        ensures free { IfOk result (λ store. IfSome (D.state disk).contents (λ c.
            is_settled c ≡ true → free D.state store ≡ Some room)) }
        ensures refused { IfErr result (λ e. e.1 ≡ disk) }
    {
        match WriteBehind::new(alloc, disk, room) {
            Ok(behind) => Ok(Cached { behind }),
            Err(refused) => Err(refused),
        }
    }

    /// The disk. What is in the buffer is lost, so sync before.
    pub fn close(self) -> D
        ensures disk { result ≡ self.disk }
        ensures kept { BothTell KeepsSettled (state_of D.state self).contents
            (D.state result).contents }
    {
        self.behind.disk
    }
}

impl Cached<MemDisk> {
    /// The store after a loss of power, mounted again over what that leaves of the disk, in the memory
    /// that it had. What was in the buffer is lost.
    pub fn crash(self, how: Loss) -> Cached<MemDisk>
        ensures image { IsLeft how self.disk.bytes self.disk.settled self.disk.loose result.disk.bytes }
        ensures allowed { CanLeave (contents_of self.disk) result.disk.bytes }
        ensures rest { result ≡ record {
          disk = record (fresh result.disk.bytes) { faults = self.disk.faults; calls = self.disk.calls };
          held = [];
          room = self.room;
        } }
        ensures sectors { length result.disk.loose ≡ length self.disk.loose }
        ensures kept { KeepsSettled (seen_contents self.held (contents_of self.disk))
            (contents_of self.disk) }
    {
        let WriteBehind {
            disk,
            mut buffer,
            room,
            scratch,
        } = self.behind;
        let sectors = disk.sectors();
        let disk = disk.crash(how);
        prove_eq!(disk.sectors(), sectors);
        buffer.clear();
        let behind = WriteBehind {
            disk,
            buffer,
            room,
            scratch,
        };
        Cached { behind }
    }
}

impl<D: Disk> Store for Cached<D> {
    ghost use Rattle.std.specs.Prelude.{◌/◌, Some, false, length, is_err};
    ghost use Rattle.aoe_disk.specs.Calls.{IsRange, Reads, SyncsTo};
    ghost use Rattle.aoe_store.specs.Store.{StoresTo};
    ghost use Rattle.aoe_store.specs.Under.{FreesUnder, ReadsUnder, SpendsUnder};
    ghost use Rattle.aoe_cache.specs.Cache.{CacheReads, CacheSyncs, CacheWrites, state_of};
    ghost use Rattle.aoe_cache.specs.Free.{FreesAll, KeepsFree, SpendsFree, under_of};

    ghost state = { λ s. state_of D.state s };

    ghost lasts = { false };

    ghost under = { λ s. Some (under_of D.state s) };

    fn sectors(&self) -> u64 {
        self.behind.disk.sectors()
    }

    fn read(&mut self, at: u64, out: &mut [u8]) -> Result<(), Failed>
        requires { IsRange at (length out.old) (state_of D.state self.old).sectors }
        ensures reads { Reads at (length out.old) result out.new
            (state_of D.state self.old) (state_of D.state self.new) }
        ensures device { CacheReads D.state at (length out.old) result self.old self.new }
        ensures free { KeepsFree D.state self.old self.new }
        ensures under { ReadsUnder (is_err result) (under_of D.state self.old)
            (under_of D.state self.new) }
    {
        self.behind.read(at, out)
    }

    fn write(&mut self, at: u64, piece: &[u8]) -> Result<(), Failed>
        requires { IsRange at (length piece.now) (state_of D.state self.old).sectors }
        ensures stores { StoresTo at piece.now result (state_of D.state self.old)
            (state_of D.state self.new) }
        ensures device { CacheWrites D.state at piece.now result self.old self.new }
        ensures free { SpendsFree D.state (length piece.now / 512) self.old self.new }
        ensures under { SpendsUnder (length piece.now / 512) (is_err result)
            (under_of D.state self.old) (under_of D.state self.new) }
    {
        self.behind.write(at, piece)
    }

    fn sync(&mut self) -> Result<(), Failed>
        ensures syncs { SyncsTo result (state_of D.state self.old) (state_of D.state self.new) }
        ensures device { CacheSyncs D.state result self.old self.new }
        ensures free { FreesAll D.state result self.old self.new }
        ensures under { FreesUnder (is_err result) (state_of D.state self.old).contents
            (under_of D.state self.old) (under_of D.state self.new) }
    {
        self.behind.sync()
    }
}

impl<D: Armed> ArmedStore for Cached<D> {
    ghost use Rattle.std.specs.Prelude.{◌<◌};
    ghost use Rattle.aoe_disk.specs.Arming.{number_of, ArmsTo};
    ghost use Rattle.aoe_cache.specs.Cache.{CacheArms, state_of};
    ghost use Rattle.aoe_cache.specs.Free.{under_of};
    ghost use Rattle.aoe_store.specs.Under.{ArmsUnder};

    fn arm(&mut self, arm: Arm)
        requires { 0 < number_of arm }
        ensures arms { ArmsTo arm (state_of D.state self.old) (state_of D.state self.new) }
        ensures device { CacheArms D.state arm self.old self.new }
        ensures under { ArmsUnder arm (under_of D.state self.old) (under_of D.state self.new) }
    {
        self.behind.disk.arm(arm);
    }

    fn is_out(&self) -> bool {
        self.behind.disk.is_out()
    }
}
