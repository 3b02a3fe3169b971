//! A store that is a disk.
use crate::{ArmedStore, Store};
use aoe_base::Failed;
use aoe_disk::{Arm, Armed, Disk};
use std::marker::Model;

/// A disk as a store: each call is one call of the disk, and contracts see the disk.
#[derive(Drop)]
pub struct Direct<D: Disk> {
    disk: D,
}

impl<D: Disk> Model for Direct<D> {
    ghost Value = { D };

    ghost view = { λ s. s.disk };
}

impl<D: Disk> Direct<D> {
    ghost use Rattle.std.specs.Prelude.{◌≡◌};

    /// The disk as a store.
    pub fn new(disk: D) -> Self
        ensures { result ≡ disk }
    {
        Direct { disk }
    }

    /// The disk.
    pub fn close(self) -> D
        ensures { result ≡ self }
    {
        self.disk
    }
}

impl<D: Disk> Store for Direct<D> {
    ghost use Rattle.std.specs.Prelude.{None, false, length};
    ghost use Rattle.aoe_disk.specs.Calls.{IsRange, WritesTo};
    ghost use Rattle.aoe_store.specs.Store.{StoresTo};

    ghost state = { λ s. D.state s };

    ghost lasts = { false };

    ghost under = { λ s. None };

    fn sectors(&self) -> u64 {
        self.disk.sectors()
    }

    #[inline(always)]
    fn read(&mut self, at: u64, out: &mut [u8]) -> Result<(), Failed> {
        self.disk.read(at, out)
    }

    #[inline(always)]
    fn write(&mut self, at: u64, piece: &[u8]) -> Result<(), Failed>
        requires { IsRange at (length piece.now) (D.state self.old).sectors }
        ensures stores { StoresTo at piece.now result (D.state self.old) (D.state self.new) }
        ensures writes { WritesTo at piece.now result (D.state self.old) (D.state self.new) }
    {
        self.disk.write(at, piece)
    }

    fn sync(&mut self) -> Result<(), Failed> {
        self.disk.sync()
    }
}

impl<D: Armed> ArmedStore for Direct<D> {
    fn arm(&mut self, arm: Arm) {
        self.disk.arm(arm);
    }

    fn is_out(&self) -> bool {
        self.disk.is_out()
    }
}
