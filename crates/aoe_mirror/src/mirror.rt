//! A mirror: two disks as one store.
ghost use Rattle.std.specs.Prelude.{◌≡◌, ◌≤◌, ◌<◌, ◌^◌, None, Some, IfErr, IfOk, IfSome, IsSome, OnErr, OnOk, false, is_err, length, not, replicate};
ghost use Rattle.aoe_disk.specs.State.{BothTell, IsDisk};
ghost use Rattle.aoe_disk.specs.Calls.{IsRun};
ghost use Rattle.aoe_disk.specs.Sectors.{Calms};
ghost use Rattle.aoe_mirror.specs.Clean.{CrashesTruly, MarksClean, NothingLoose, SaysTruly, TellAlike, clean_in};
ghost use Rattle.aoe_mirror.specs.Marks.{count_of};
ghost use Rattle.aoe_mirror.specs.Sides.{IsMirror, Survives, side_in};
ghost use Rattle.aoe_mirror.specs.Calls.{Blames, CopiesAll, CopiesNext, IsLowest, MirrorReads, MirrorSyncs, MirrorWrites, SyncsAndCopies, copy_blamed, lowest};
ghost use Rattle.aoe_mirror.specs.Mirror.{Mounts, ReadsMark, Refuses, Sees, first_of, found_in, pair, second_of, state_of};

use crate::MirrorRefusal;
use crate::clean::{Found, clean_in};
use crate::marks::{MOST_IN_RUN, Marks};
use crate::sides::{Sides, side_in};
use aoe_base::{Failed, NoMemory, SECTOR_LEN};
use aoe_disk::Disk;
use aoe_store::Store;
use std::alloc::Global;
use std::marker::Model;

// What two sectors say, where both are those of a mark disk.
fn found_in(first: &[u8], second: &[u8]) -> Option<Found>
    requires first { length first.now ≡ 512 }
    requires second { length second.now ≡ 512 }
    ensures found { result ≡ found_in (side_in first.now) (clean_in second.now) }
    ensures side { IfSome result (λ found. found.side ≤ 1) }
{
    let (Some(side), Some(is_clean)) = (side_in(first), clean_in(second)) else {
        return None;
    };
    Some(Found { side, is_clean })
}

// What a mark disk with one sector says.
fn read_one<D: Disk>(disk: &mut D) -> Result<Option<Found>, Failed>
    requires one { (D.state disk.old).sectors ≡ 1 }
    requires disk { IsDisk (D.state disk.old) }
    ensures sees { IfOk result (λ found. Sees found (D.state disk.old)) }
    ensures run { IsRun 1 (is_err result) (D.state disk.old) (D.state disk.new) }
    ensures same { (D.state disk.new).contents ≡ (D.state disk.old).contents }
{
    let mut marked = [0; SECTOR_LEN];
    match disk.read(0, &mut marked) {
        Ok(()) => Ok(found_in(&marked, &[0; SECTOR_LEN])),
        Err(Failed) => Err(Failed),
    }
}

// What a mark disk with two sectors says, or more.
fn read_two<D: Disk>(disk: &mut D) -> Result<Option<Found>, Failed>
    requires two { 1 < (D.state disk.old).sectors }
    requires disk { IsDisk (D.state disk.old) }
    ensures sees { IfOk result (λ found. Sees found (D.state disk.old)) }
    ensures run { IsRun 1 (is_err result) (D.state disk.old) (D.state disk.new) }
    ensures same { (D.state disk.new).contents ≡ (D.state disk.old).contents }
{
    let mut marked = [0; 2 * SECTOR_LEN];
    match disk.read(0, &mut marked) {
        Ok(()) => {
            let (first, second) = marked.split_at(SECTOR_LEN);
            Ok(found_in(first, second))
        }
        Err(Failed) => Err(Failed),
    }
}

/// What a mark disk says, after a sync: nothing where one of its first two sectors is no mark's.
pub fn read_mark<D: Disk>(disk: &mut D) -> Result<Option<Found>, Failed>
    requires room { 0 < (D.state disk.old).sectors }
    requires disk { IsDisk (D.state disk.old) }
    ensures reads { IfOk result (λ found. ReadsMark found (D.state disk.old) (D.state disk.new)) }
    ensures run { IsRun 2 (is_err result) (D.state disk.old) (D.state disk.new) }
    ensures calm { BothTell Calms (D.state disk.old).contents (D.state disk.new).contents }
    ensures quiet { OnOk result (IfSome (D.state disk.new).contents NothingLoose) }
{
    if let Err(Failed) = disk.sync() {
        return Err(Failed);
    }
    if disk.sectors() == 1 {
        return read_one(disk);
    }
    read_two(disk)
}

// The marks of a follower, of which all is stale, or nothing where the mirror is clean.
fn stale_of(alloc: Global, sectors: u64, is_clean: bool) -> Result<Marks, NoMemory>
    requires { sectors ≤ 2 ^ 40 }
    ensures { IfOk result (λ marks. marks ≡ replicate sectors (not is_clean)) }
{
    if is_clean {
        return Marks::none(alloc, sectors as usize);
    }
    Marks::all(alloc, sectors as usize)
}

// The lower of the disk that failed in a sync and the one that failed in the copying after it.
fn lowest(failed: Option<u8>, copied: Result<(), u8>) -> Option<u8>
    ensures { result ≡ lowest failed (copy_blamed copied) }
{
    match (failed, copied) {
        (failed, Ok(())) => failed,
        (None, Err(second)) => Some(second),
        (Some(first), Err(second)) => Some(first.min(second)),
    }
}

/// Two disks with the same sectors as one store, which outlives a failure of either.
#[derive(Drop)]
pub struct Mirror<D: Disk> {
    sides: Sides<D>,

    // The lowest disk that failed in the latest sync.
    failed: Option<u8>,

    // The sector from which on the next copy looks for stale ones.
    next: usize,

    // Whether the mark disk may say that the mirror is clean. Then it is.
    clean: bool,

    // Sectors on their way from one side to the other.
    scratch: Vec<u8>,
}

impl<D: Disk> Model for Mirror<D> {
    ghost use Rattle.aoe_mirror.specs.Mirror.{IsMounted, Mirrored};

    ghost Value = { Mirrored D };

    ghost view = { λ m. record { sides = m.sides; failed = m.failed; next = m.next; clean = m.clean } };

    ghost invariant = { λ m. IsMounted D.state m.sides m.clean m.scratch.items };
}

impl<D: Disk> Mirror<D> {
    /// The two disks as a mirror. The mark disk is synced and its first two sectors read: side 0
    /// leads where the first is zeros, side 1 where it is 0xA7 and zeros. The mirror is clean where
    /// the second is 0xC3 and zeros, and isn't known to be where it is zeros or there is none. What
    /// else the two hold is no mark, and stays. In a clean mirror nothing is stale, else every sector
    /// of the other side is. All memory is taken here: a bit for each sector and 32 kB.
    ///
    /// That a mirror is clean whose mark disk says so can't be looked up: it must be so, as every call
    /// and every crash leaves it (`lead`, `close`).
    pub fn mount(
        alloc: Global,
        one: D,
        two: D,
        mark: D,
    ) -> Result<Mirror<D>, (MirrorRefusal, D, D, D)>
        requires truly { SaysTruly (D.state one) (D.state two) (D.state mark) }
        requires alike { TellAlike (D.state one) (D.state two) (D.state mark) }
        ensures mounts { IfOk result (λ mirror. Mounts D.state one two mark mirror.sides) }
        ensures mirror { IfOk result (λ mirror. IsMirror (pair D.state mirror)) }
        ensures failed { IfOk result (λ mirror. mirror.failed ≡ None) }
        ensures refused { IfErr result
            (λ e. Refuses e.0 (D.state one) (D.state two) (D.state mark) (D.state e.3)) }
        ensures sides { IfErr result (λ e. (e.1 ≡ one) × (e.2 ≡ two)) }
    {
        let first = one.sectors();
        let second = two.sectors();
        if first != second {
            return Err((MirrorRefusal::Unequal { first, second }, one, two, mark));
        }
        if mark.sectors() == 0 {
            return Err((MirrorRefusal::NoMark, one, two, mark));
        }
        let mut mark = mark;
        let Found { side, is_clean } = match read_mark(&mut mark) {
            Ok(Some(found)) => found,
            Ok(None) => return Err((MirrorRefusal::NotMark, one, two, mark)),
            Err(Failed) => return Err((MirrorRefusal::Failed, one, two, mark)),
        };
        let Ok(stale) = stale_of(alloc, first, is_clean) else {
            return Err((MirrorRefusal::NoMemory, one, two, mark));
        };
        let Ok(scratch) = Vec::from_elem(alloc, 0, SECTOR_LEN * MOST_IN_RUN) else {
            return Err((MirrorRefusal::NoMemory, one, two, mark));
        };
        Ok(Mirror {
            sides: Sides::new(one, two, mark, side, stale),
            failed: None,
            next: 0,
            clean: is_clean,
            scratch,
        })
    }

    /// How many sectors of the side that follows may differ from the lead's.
    pub fn stale(&self) -> u64
        ensures { result ≡ count_of self.now.sides.stale }
    {
        self.sides.stale.count() as u64
    }

    /// The side that leads, 0 or 1. A read gives its sectors. Whichever side the mark disk names
    /// after a crash of all three disks, it has the mirror's bytes in each sector that isn't loose.
    /// Where the mark disk says after such a crash that the mirror is clean, both sides are equal.
    pub fn lead(&self) -> u8
        ensures lead { result ≡ self.now.sides.side }
        ensures one { result ≤ 1 }
        ensures crash { Survives (pair D.state self.now) }
        ensures clean { CrashesTruly (pair D.state self.now) }
    {
        self.sides.side
    }

    /// The lowest disk of which a call failed in the latest sync: side 0, side 1, or 2 for the mark
    /// disk. The copying that ends a sync counts too.
    pub fn failed(&self) -> Option<u8>
        ensures { result ≡ self.now.failed }
    {
        self.failed
    }

    /// Copies the next run of stale sectors, of 64 at most, from the lead to the other side, and
    /// syncs that side: the first run behind the one that was tried last, or where none is left
    /// there, the first of all. Says how many sectors are stale then. Where nothing is stale no disk
    /// is called.
    pub fn resync(&mut self) -> Result<u64, Failed>
        ensures copies { CopiesNext self.old.next self.new.next (is_err result)
            (pair D.state self.old) (pair D.state self.new) }
        ensures left { IfOk result (λ left. left ≡ count_of self.new.sides.stale) }
        ensures fewer { IfOk result (λ left. 0 < count_of self.old.sides.stale
            → left < count_of self.old.sides.stale) }
        ensures failed { self.new.failed ≡ self.old.failed }
    {
        let (next, copied) = self.sides.resync(self.next, &mut self.scratch);
        self.next = next;
        match copied {
            Ok(()) => Ok(self.sides.stale.count() as u64),
            Err(_) => Err(Failed),
        }
    }

    /// Copies each run of stale sectors as `resync` does, also behind one of which the copy failed.
    #[tactic(auto, using(crate::proofs::Cleaning::marked_all))]
    pub fn resync_all(&mut self)
        ensures copies { CopiesAll (pair D.state self.old) (pair D.state self.new) }
        ensures failed { self.new.failed ≡ self.old.failed }
    {
        self.sides.resync_all(&mut self.scratch);
    }

    /// Makes the mark disk say that the mirror is clean, so that the next mounting copies nothing.
    /// Nothing is done where a sector is stale, where the mark disk may not name the lead yet, and
    /// where it has one sector. Sync before. Where a call of the mark disk fails, the next mounting may
    /// copy all. The next write makes it say so no more, before it changes a side.
    pub fn mark_clean(&mut self)
        requires { IfSome (state_of D.state self.old).contents NothingLoose }
        ensures marks { MarksClean (pair D.state self.old) (pair D.state self.new) }
        ensures failed { self.new.failed ≡ self.old.failed }
    {
        if self.sides.stale.count() > 0 || !self.sides.settled || self.sides.mark.sectors() < 2 {
            return;
        }
        self.clean = true;
        let _ = self.sides.say(true);
    }

    /// The sides 0 and 1, and the mark disk.
    pub fn close(self) -> (D, D, D)
        ensures one { result.0 ≡ first_of self.sides }
        ensures two { result.1 ≡ second_of self.sides }
        ensures mark { result.2 ≡ self.sides.mark }
        ensures truly { SaysTruly (D.state result.0) (D.state result.1) (D.state result.2) }
    {
        self.sides.close()
    }
}

impl<D: Disk> Store for Mirror<D> {
    ghost use Rattle.std.specs.Prelude.{◌≡◌, None, OnErr, OnOk, IsSome, false, length};
    ghost use Rattle.aoe_disk.specs.Calls.{IsRange, Reads, SyncsTo};
    ghost use Rattle.aoe_store.specs.Store.{StoresTo};
    ghost use Rattle.aoe_mirror.specs.Calls.{Blames, IsLowest, MirrorReads, MirrorSyncs, MirrorWrites, SyncsAndCopies};
    ghost use Rattle.aoe_mirror.specs.Mirror.{pair, state_of};

    ghost state = { λ m. state_of D.state m };

    ghost lasts = { false };

    ghost under = { λ m. None };

    fn sectors(&self) -> u64 {
        self.sides.lead.sectors()
    }

    #[tactic(auto, using(crate::proofs::Cleaning::marked_read))]
    fn read(&mut self, at: u64, out: &mut [u8]) -> Result<(), Failed>
        requires { IsRange at (length out.old) (state_of D.state self.old).sectors }
        ensures reads { Reads at (length out.old) result out.new
            (state_of D.state self.old) (state_of D.state self.new) }
        ensures mirror { MirrorReads at (length out.old) result out.new
            (pair D.state self.old) (pair D.state self.new) }
        ensures failed { self.new.failed ≡ self.old.failed }
    {
        self.sides.read(at, out)
    }

    fn write(&mut self, at: u64, piece: &[u8]) -> Result<(), Failed>
        requires { IsRange at (length piece.now) (state_of D.state self.old).sectors }
        ensures stores { StoresTo at piece.now result
            (state_of D.state self.old) (state_of D.state self.new) }
        ensures mirror { MirrorWrites at piece.now result
            (pair D.state self.old) (pair D.state self.new) }
        ensures failed { self.new.failed ≡ self.old.failed }
    {
        if !self.clean {
            return self.sides.write(at, piece);
        }
        match self.sides.say(false) {
            Ok(()) => {
                self.clean = false;
                self.sides.write(at, piece)
            }
            Err(Failed) => Err(Failed),
        }
    }

    fn sync(&mut self) -> Result<(), Failed>
        ensures syncs { SyncsTo result (state_of D.state self.old) (state_of D.state self.new) }
        ensures mirror { MirrorSyncs result (pair D.state self.old) (pair D.state self.new) }
        ensures blames { Blames self.new.failed (pair D.state self.old) (pair D.state self.new) }
        ensures told { OnErr result (IsSome self.new.failed) }
        ensures lowest { IsLowest self.new.failed (pair D.state self.old) (pair D.state self.new) }
        ensures copied { OnOk result (SyncsAndCopies self.old.next self.new.next self.new.failed
            (pair D.state self.old) (pair D.state self.new)) }
    {
        if self.clean {
            self.failed = None;
            return Ok(());
        }
        match self.sides.sync() {
            Ok(failed) => {
                let (next, copied) = self.sides.resync(self.next, &mut self.scratch);
                self.next = next;
                self.failed = lowest(failed, copied);
                Ok(())
            }
            Err(disk) => {
                self.failed = Some(disk);
                Err(Failed)
            }
        }
    }
}
