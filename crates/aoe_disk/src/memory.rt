//! A disk in memory.
use crate::bytes::{mark, settle_loose, spoil_at, write_at};
use crate::loss::lose_loose;
use crate::meter::Meter;
use crate::{Arm, Armed, Disk, Loss};
use aoe_base::{Failed, NoMemory, SECTOR_LEN};
use std::alloc::Global;
use std::marker::Model;

/// A disk in memory, which keeps its image now and the image of its last sync.
///
/// A failed write leaves 0xEE in every byte of its first sector and leaves the others; a failed sync
/// does nothing. It fails the calls that it is armed to fail, and no others.
#[derive(Drop)]
pub struct MemDisk {
    bytes: Vec<u8>,
    settled: Vec<u8>,

    // For each sector whether it was written since the last sync.
    loose: Vec<bool>,

    meter: Meter,
}

impl Model for MemDisk {
    ghost use Rattle.std.specs.Prelude.{length};
    ghost use Rattle.aoe_disk.specs.Memory.{Memory, IsMemory};

    ghost Value = { Memory };

    ghost view = { λ d. record {
      bytes = d.bytes.items;
      settled = d.settled.items;
      loose = d.loose.items;
      arming = d.meter.arming;
      out = d.meter.out;
      faults = d.meter.faults;
      calls = d.meter.calls;
    } };

    ghost invariant = { λ d.
        IsMemory d.bytes.items d.settled.items d.loose.items d.meter.arming d.meter.out };
}

impl MemDisk {
    ghost use Rattle.std.specs.Prelude.{◌≡◌, ◌≤◌, ◌<◌, ◌*◌, ◌%◌, ◌^◌, length, replicate, Some, false, IfOk};
    ghost use Rattle.aoe_disk.specs.State.{CanLeave};
    ghost use Rattle.aoe_disk.specs.Loss.{IsLeft};
    ghost use Rattle.aoe_disk.specs.Memory.{contents_of, fresh};

    /// A disk of zeros.
    pub fn new(alloc: Global, sectors: u64) -> Result<MemDisk, NoMemory>
        requires { sectors ≤ 2 ^ 40 }
        ensures { IfOk result (λ disk. disk ≡ fresh (replicate (512 * sectors) 0)) }
    {
        let length = sectors as usize * SECTOR_LEN;
        let bytes = Vec::from_elem(alloc, 0, length)?;
        let settled = Vec::from_elem(alloc, 0, length)?;
        MemDisk::from_images(alloc, bytes, settled)
    }

    /// A disk with this image.
    pub fn of(alloc: Global, image: &[u8]) -> Result<MemDisk, NoMemory>
        requires whole { length image.now % 512 ≡ 0 }
        requires bound { length image.now ≤ 512 * 2 ^ 40 }
        ensures { IfOk result (λ disk. disk ≡ fresh image.now) }
    {
        let bytes = Vec::from_slice(alloc, image)?;
        let settled = Vec::from_slice(alloc, image)?;
        MemDisk::from_images(alloc, bytes, settled)
    }

    // A disk with the same image now and at the last sync.
    fn from_images(alloc: Global, bytes: Vec<u8>, settled: Vec<u8>) -> Result<MemDisk, NoMemory>
        requires same { settled.items ≡ bytes.items }
        requires whole { length bytes.items % 512 ≡ 0 }
        requires bound { length bytes.items ≤ 512 * 2 ^ 40 }
        ensures { IfOk result (λ disk. disk ≡ fresh bytes.items) }
    {
        let loose = Vec::from_elem(alloc, false, bytes.len() / SECTOR_LEN)?;
        Ok(MemDisk {
            bytes,
            settled,
            loose,
            meter: Meter::new(),
        })
    }

    /// The `k`-th device call from now fails, in place of what was armed before.
    pub fn fail_at(&mut self, k: u32)
        requires { 0 < k }
        ensures { self.new ≡ record self.old { arming = Some (Arm.Fail k); out = false } }
    {
        self.meter.arming = Some(Arm::Fail(k));
        self.meter.out = false;
    }

    /// The `k`-th device call from now and all later ones fail, in place of what was armed before.
    pub fn stop_at(&mut self, k: u32)
        requires { 0 < k }
        ensures { self.new ≡ record self.old { arming = Some (Arm.Stop k); out = false } }
    {
        self.meter.arming = Some(Arm::Stop(k));
        self.meter.out = false;
    }

    /// Whether a stop was reached.
    pub fn is_out(&self) -> bool
        ensures { result ≡ self.now.out }
    {
        self.meter.out
    }

    /// How many device calls were made so far: reads, writes and syncs, up to the greatest `u64`.
    pub fn calls(&self) -> u64
        ensures { result ≡ self.now.calls }
    {
        self.meter.calls
    }

    /// The disk after a loss of power, opened again: nothing is loose and nothing is armed.
    pub fn crash(self, how: Loss) -> MemDisk
        ensures image { IsLeft how self.bytes self.settled self.loose result.bytes }
        ensures allowed { CanLeave (contents_of self) result.bytes }
        ensures rest { result
            ≡ record (fresh result.bytes) { faults = self.faults; calls = self.calls } }
    {
        let MemDisk {
            mut bytes,
            mut settled,
            mut loose,
            mut meter,
        } = self;
        lose_loose(&mut bytes, &settled, &loose, how);
        settle_loose(&mut settled, &bytes, &loose);
        loose.fill(false);
        meter.arming = None;
        meter.out = false;
        MemDisk {
            bytes,
            settled,
            loose,
            meter,
        }
    }
}

impl Disk for MemDisk {
    ghost use Rattle.std.specs.Prelude.{◌≡◌, length};
    ghost use Rattle.aoe_disk.specs.Calls.{IsRange, Reads, WritesTo, SyncsTo};
    ghost use Rattle.aoe_disk.specs.Memory.{state_of, next_count};

    ghost state = { state_of };

    fn sectors(&self) -> u64 {
        self.loose.len() as u64
    }

    fn read(&mut self, at: u64, out: &mut [u8]) -> Result<(), Failed>
        requires { IsRange at (length out.old) (length self.old.loose) }
        ensures reads { Reads at (length out.old) result out.new (state_of self.old)
            (state_of self.new) }
        ensures calls { self.new.calls ≡ next_count self.old.calls }
    {
        if self.meter.fails() {
            return Err(Failed);
        }
        let start = SECTOR_LEN * at as usize;
        out.copy_from_slice(&self.bytes[start..start + out.len()]);
        Ok(())
    }

    fn write(&mut self, at: u64, piece: &[u8]) -> Result<(), Failed>
        requires { IsRange at (length piece.now) (length self.old.loose) }
        ensures writes { WritesTo at piece.now result (state_of self.old) (state_of self.new) }
        ensures calls { self.new.calls ≡ next_count self.old.calls }
    {
        let spoils = self.meter.fails();
        let start = SECTOR_LEN * at as usize;
        mark(&mut self.loose, at as usize, piece.len() / SECTOR_LEN);
        if spoils {
            spoil_at(&mut self.bytes, start);
            return Err(Failed);
        }
        write_at(&mut self.bytes, start, piece);
        Ok(())
    }

    fn sync(&mut self) -> Result<(), Failed>
        ensures syncs { SyncsTo result (state_of self.old) (state_of self.new) }
        ensures calls { self.new.calls ≡ next_count self.old.calls }
    {
        let fails = self.meter.fails();
        if fails {
            return Err(Failed);
        }
        settle_loose(&mut self.settled, &self.bytes, &self.loose);
        self.loose.fill(false);
        Ok(())
    }
}

impl Armed for MemDisk {
    ghost use Rattle.std.specs.Prelude.{◌≡◌, ◌<◌, Some, false};
    ghost use Rattle.aoe_disk.specs.Arming.{number_of, ArmsTo};
    ghost use Rattle.aoe_disk.specs.Memory.{state_of};

    fn arm(&mut self, arm: Arm)
        requires { 0 < number_of arm }
        ensures arms { ArmsTo arm (state_of self.old) (state_of self.new) }
        ensures rest { self.new ≡ record self.old { arming = Some arm; out = false } }
    {
        match arm {
            Arm::Fail(k) => self.fail_at(k),
            Arm::Stop(k) => self.stop_at(k),
        }
    }

    fn is_out(&self) -> bool {
        self.is_out()
    }
}
