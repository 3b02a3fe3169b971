//! Sectors that are written behind: they stand in a buffer, and go down to the disk later.
ghost use Rattle.std.specs.Prelude.{◌≡◌, ◌≤◌, ◌<◌, ◌⊎◌, ◌/◌, [], length, take, drop, nat_lt, is_err, IfOk, IfErr};
ghost use Rattle.aoe_base.specs.Sizes.{scratch_bytes};
ghost use Rattle.aoe_disk.specs.State.{IsDisk};
ghost use Rattle.aoe_disk.specs.Calls.{IsRange, Reads, WritesTo};
ghost use Rattle.aoe_cache.specs.Held.{held_of, placed, with_written};
ghost use Rattle.aoe_cache.specs.Down.{IsJoined, WritesDown, WritesPart, bytes_of, first_of};
ghost use Rattle.aoe_cache.specs.Cache.{CacheReads, CacheSyncs, CacheWrites, HasRoom, IsBuffer, IsInOrder, IsWriteBehind, WritesAfter, cache_of, state_of};

use crate::buffer::{Buffer, MOST_JOINED};
use aoe_base::{Failed, NoMemory, SECTOR_LEN};
use aoe_disk::Disk;
use std::alloc::Global;

/// The length of the longest device write of joined sectors.
const JOINED: usize = SECTOR_LEN * MOST_JOINED;

// Writes `count` sectors of the buffer from place `from` on by one device write.
fn write_run<D: Disk>(
    disk: &mut D,
    buffer: &Buffer,
    from: usize,
    count: usize,
    scratch: &mut [u8],
) -> Result<(), Failed>
    requires buffer { IsInOrder (D.state disk.old).sectors from buffer.now }
    requires joined { IsJoined count (drop from (placed buffer.now)) }
    requires scratch { length scratch.old ≡ scratch_bytes }
    requires disk { IsDisk (D.state disk.old) }
    ensures { WritesTo (first_of (drop from (placed buffer.now)))
        (bytes_of (take count (drop from (placed buffer.now)))) result (D.state disk.old) (D.state disk.new) }
{
    let at = buffer.first_from(from);
    if count == 1 {
        return disk.write(at, buffer.bytes_at(from));
    }
    let length = SECTOR_LEN * count;
    buffer.gather(from, count, scratch);
    disk.write(at, &scratch[..length])
}

// Writes the buffer down from the lowest sector on. The sectors of those runs whose write failed go
// to the first places, and it says how many they are.
fn write_runs<D: Disk>(disk: &mut D, buffer: &mut Buffer, scratch: &mut [u8]) -> usize
    requires buffer { IsInOrder (D.state disk.old).sectors 0 buffer.old }
    requires scratch { length scratch.old ≡ scratch_bytes }
    requires disk { IsDisk (D.state disk.old) }
    ensures disk { IsDisk (D.state disk.new) }
    ensures sectors { (D.state disk.new).sectors ≡ (D.state disk.old).sectors }
    ensures has { HasRoom buffer.new }
    ensures places { length buffer.new.places.items ≡ length buffer.old.places.items }
    ensures left { result ≤ length (placed buffer.new) }
    ensures down { WritesDown (nat_lt 0 result)
        (placed buffer.old) (take result (placed buffer.new))
        (D.state disk.old) (D.state disk.new) }
{
    let mut done = 0;
    let mut left = 0;
    'runs: while done < buffer.len() {
        let count = buffer.run_from(done);
        if write_run(disk, buffer, done, count, scratch).is_err() {
            buffer.move_down(done, count, left);
            left += count;
        }
        done += count;
    }
    left
}

// Writes the buffer down. What was written leaves it, and what couldn't be stays.
fn write_down<D: Disk>(disk: &mut D, buffer: &mut Buffer, scratch: &mut [u8]) -> Result<(), Failed>
    requires buffer { IsBuffer (D.state disk.old).sectors buffer.old }
    requires scratch { length scratch.old ≡ scratch_bytes }
    requires disk { IsDisk (D.state disk.old) }
    ensures disk { IsDisk (D.state disk.new) }
    ensures sectors { (D.state disk.new).sectors ≡ (D.state disk.old).sectors }
    ensures buffer { IsBuffer (D.state disk.new).sectors buffer.new }
    ensures places { length buffer.new.places.items ≡ length buffer.old.places.items }
    ensures down { WritesDown (is_err result) (held_of buffer.old) (held_of buffer.new)
        (D.state disk.old) (D.state disk.new) }
{
    buffer.sort();
    let left = write_runs(disk, buffer, scratch);
    buffer.keep_first(left);
    if left == 0 { Ok(()) } else { Err(Failed) }
}

/// A disk and the sectors that are to be written to it.
#[derive(Drop)]
pub(crate) struct WriteBehind<D: Disk> {
    pub(crate) disk: D,
    pub(crate) buffer: Buffer,

    // The most sectors that stand in the buffer.
    pub(crate) room: u32,

    // The bytes of joined sectors on their way to the disk.
    pub(crate) scratch: Vec<u8>,
}

impl<D: Disk> WriteBehind<D> {
    /// Takes all memory that the later calls need.
    pub(crate) fn new(alloc: Global, disk: D, room: u32) -> Result<WriteBehind<D>, (NoMemory, D)>
        ensures behind { IfOk result (λ behind. IsWriteBehind D.state behind) }
        ensures cache { IfOk result (λ behind. cache_of behind
            ≡ record { disk = disk; held = []; room = room }) }
        ensures refused { IfErr result (λ e. e.1 ≡ disk) }
    {
        let places = disk.sectors().min(u64::from(room)) as usize;
        let Ok(buffer) = Buffer::new(alloc, places) else {
            return Err((NoMemory, disk));
        };
        let Ok(scratch) = Vec::from_elem(alloc, 0, JOINED) else {
            return Err((NoMemory, disk));
        };
        Ok(WriteBehind {
            disk,
            buffer,
            room,
            scratch,
        })
    }

    /// Reads the disk, and lays the buffer over what it gave.
    pub(crate) fn read(&mut self, at: u64, out: &mut [u8]) -> Result<(), Failed>
        requires behind { IsWriteBehind D.state self.old }
        requires range { IsRange at (length out.old) (D.state self.old.disk).sectors }
        ensures behind { IsWriteBehind D.state self.new }
        ensures reads { CacheReads D.state at (length out.old) result (cache_of self.old)
            (cache_of self.new) }
        ensures seen { Reads at (length out.old) result out.new
            (state_of D.state (cache_of self.old)) (state_of D.state (cache_of self.new)) }
    {
        if let Err(Failed) = self.disk.read(at, out) {
            return Err(Failed);
        }
        self.buffer.lay_over(at, out);
        Ok(())
    }

    // A write that the buffer has no room for beside what stands there.
    fn write_beyond(&mut self, at: u64, piece: &[u8]) -> Result<(), Failed>
        requires behind { IsWriteBehind D.state self.old }
        requires range { IsRange at (length piece.now) (D.state self.old.disk).sectors }
        ensures behind { IsWriteBehind D.state self.new }
        ensures room { self.new.room ≡ self.old.room }
        ensures writes { WritesPart result (held_of self.old.buffer) (held_of self.new.buffer)
            (D.state self.old.disk) (D.state self.new.disk)
            ⊎ WritesAfter D.state at (length piece.now / 512) piece.now result (cache_of self.old) (cache_of self.new) }
    {
        write_down(&mut self.disk, &mut self.buffer, &mut self.scratch)?;
        if piece.len() / SECTOR_LEN > self.room as usize {
            return self.disk.write(at, piece);
        }
        self.buffer.put(at, piece);
        Ok(())
    }

    /// Puts the piece to the buffer, which is written down first where it hasn't the room. A piece
    /// that is longer than its whole room goes to the disk. Where some of the buffer couldn't be
    /// written, the piece goes nowhere.
    pub(crate) fn write(&mut self, at: u64, piece: &[u8]) -> Result<(), Failed>
        requires behind { IsWriteBehind D.state self.old }
        requires range { IsRange at (length piece.now) (D.state self.old.disk).sectors }
        ensures behind { IsWriteBehind D.state self.new }
        ensures writes { CacheWrites D.state at piece.now result (cache_of self.old)
            (cache_of self.new) }
    {
        let room = self.room as usize;
        if !self.buffer.fits(at, piece.len() / SECTOR_LEN, room) {
            return self.write_beyond(at, piece);
        }
        self.buffer.put(at, piece);
        Ok(())
    }

    /// Writes the buffer down, and syncs the disk if all of it was written.
    pub(crate) fn sync(&mut self) -> Result<(), Failed>
        requires { IsWriteBehind D.state self.old }
        ensures behind { IsWriteBehind D.state self.new }
        ensures syncs { CacheSyncs D.state result (cache_of self.old) (cache_of self.new) }
    {
        write_down(&mut self.disk, &mut self.buffer, &mut self.scratch)?;
        self.disk.sync()
    }
}
