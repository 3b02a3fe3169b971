//! Either of the two stores.
ghost use Rattle.std.specs.Prelude.{ℕ, ◌≡◌, ◌≤◌, IfErr, IfOk, IfSome};
ghost use Rattle.aoe_base.specs.Sizes.{most_cached};
ghost use Rattle.aoe_cache.specs.Any.{any_disk, over};

use crate::Cached;
use aoe_base::{Failed, NoMemory};
use aoe_disk::{Arm, Armed, Disk};
use aoe_store::{ArmedStore, Direct, Store};
use std::alloc::Global;

/// A store that writes through to its disk, or one that writes to it later.
#[derive(Drop)]
pub enum AnyStore<D: Disk> {
    Direct(Direct<D>),
    Cached(Cached<D>),
}

impl<D: Disk> AnyStore<D> {
    /// The disk as a store, which holds back up to `room` sectors where there is a number. All its
    /// memory is taken here; where there is none the disk is given back.
    pub fn over(alloc: Global, disk: D, room: Option<u32>) -> Result<AnyStore<D>, (NoMemory, D)>
        requires { IfSome room (λ (n : ℕ). (1 ≤ n) × (n ≤ most_cached)) }
        ensures store { IfOk result (λ store. store ≡ over room disk) }
        ensures refused { IfErr result (λ e. e.1 ≡ disk) }
    {
        let Some(room) = room else {
            return Ok(AnyStore::Direct(Direct::new(disk)));
        };
        match Cached::mount(alloc, disk, room) {
            Ok(store) => Ok(AnyStore::Cached(store)),
            Err(refused) => Err(refused),
        }
    }

    /// The disk. What a cached store holds back is lost, so sync before.
    pub fn close(self) -> D
        ensures { result ≡ any_disk self }
    {
        match self {
            AnyStore::Direct(store) => store.close(),
            AnyStore::Cached(store) => store.close(),
        }
    }
}

impl<D: Disk> Store for AnyStore<D> {
    ghost use Rattle.std.specs.Prelude.{◌/◌, false, length, is_err};
    ghost use Rattle.aoe_disk.specs.State.{BothTell};
    ghost use Rattle.aoe_disk.specs.Calls.{IsRange, Reads, SyncsTo};
    ghost use Rattle.aoe_store.specs.Store.{StoresTo};
    ghost use Rattle.aoe_store.specs.Under.{FreesUnder, ReadsUnder, SpendsUnder};
    ghost use Rattle.aoe_cache.specs.Cache.{CacheReads, CacheSyncs, CacheWrites};
    ghost use Rattle.aoe_cache.specs.Any.{StaysWith, any_state, any_under};
    ghost use Rattle.aoe_cache.specs.Free.{FreesAll, KeepsFree, SpendsFree};

    ghost state = { λ s. any_state D.state s };

    ghost lasts = { false };

    ghost under = { λ s. any_under D.state s };

    fn sectors(&self) -> u64 {
        match self {
            AnyStore::Direct(store) => store.sectors(),
            AnyStore::Cached(store) => store.sectors(),
        }
    }

    #[inline(always)]
    fn read(&mut self, at: u64, out: &mut [u8]) -> Result<(), Failed>
        requires { IsRange at (length out.old) (any_state D.state self.old).sectors }
        ensures reads { Reads at (length out.old) result out.new
            (any_state D.state self.old) (any_state D.state self.new) }
        ensures device { StaysWith (CacheReads D.state at
            (length out.old) result) self.old self.new }
        ensures free { StaysWith (KeepsFree D.state) self.old self.new }
        ensures under { BothTell (ReadsUnder (is_err result)) (any_under D.state self.old)
            (any_under D.state self.new) }
    {
        match self {
            AnyStore::Direct(store) => store.read(at, out),
            AnyStore::Cached(store) => store.read(at, out),
        }
    }

    #[inline(always)]
    fn write(&mut self, at: u64, piece: &[u8]) -> Result<(), Failed>
        requires { IsRange at (length piece.now) (any_state D.state self.old).sectors }
        ensures stores { StoresTo at piece.now result (any_state D.state self.old)
            (any_state D.state self.new) }
        ensures device { StaysWith (CacheWrites D.state at piece.now result) self.old self.new }
        ensures free { StaysWith (SpendsFree D.state (length piece.now / 512)) self.old self.new }
        ensures under { BothTell (SpendsUnder (length piece.now / 512) (is_err result))
            (any_under D.state self.old) (any_under D.state self.new) }
    {
        match self {
            AnyStore::Direct(store) => store.write(at, piece),
            AnyStore::Cached(store) => store.write(at, piece),
        }
    }

    fn sync(&mut self) -> Result<(), Failed>
        ensures syncs { SyncsTo result (any_state D.state self.old) (any_state D.state self.new) }
        ensures device { StaysWith (CacheSyncs D.state result) self.old self.new }
        ensures free { StaysWith (FreesAll D.state result) self.old self.new }
        ensures under { BothTell (FreesUnder (is_err result) (any_state D.state self.old).contents)
            (any_under D.state self.old) (any_under D.state self.new) }
    {
        match self {
            AnyStore::Direct(store) => store.sync(),
            AnyStore::Cached(store) => store.sync(),
        }
    }
}

impl<D: Armed> ArmedStore for AnyStore<D> {
    ghost use Rattle.std.specs.Prelude.{◌<◌};
    ghost use Rattle.aoe_disk.specs.Arming.{number_of, ArmsTo};
    ghost use Rattle.aoe_disk.specs.State.{BothTell};
    ghost use Rattle.aoe_store.specs.Under.{ArmsUnder};
    ghost use Rattle.aoe_cache.specs.Cache.{CacheArms};
    ghost use Rattle.aoe_cache.specs.Any.{StaysWith, any_state, any_under};

    fn arm(&mut self, arm: Arm)
        requires { 0 < number_of arm }
        ensures arms { ArmsTo arm (any_state D.state self.old) (any_state D.state self.new) }
        ensures device { StaysWith (CacheArms D.state arm) self.old self.new }
        ensures under { BothTell (ArmsUnder arm) (any_under D.state self.old)
            (any_under D.state self.new) }
    {
        match self {
            AnyStore::Direct(store) => store.arm(arm),
            AnyStore::Cached(store) => store.arm(arm),
        }
    }

    fn is_out(&self) -> bool {
        match self {
            AnyStore::Direct(store) => store.is_out(),
            AnyStore::Cached(store) => store.is_out(),
        }
    }
}
