//! Two disks that hold the sectors of one slot: one leads, and the other follows.
ghost use Rattle.std.specs.Prelude.{◌≡◌, ◌≤◌, ◌<◌, ◌+◌, ◌-◌, ◌/◌, ◌==◌, ◌⊎◌, ℕ, length, is_err, IfErr, IfSome, MatchOption, None, OnOk, Some, false, replicate, true};
ghost use Rattle.std.specs.List.{list_all};
ghost use Rattle.aoe_base.specs.Sizes.{scratch_bytes};
ghost use Rattle.aoe_disk.specs.State.{BothTell, IsDisk};
ghost use Rattle.aoe_disk.specs.Calls.{IsRange, IsRun};
ghost use Rattle.aoe_disk.specs.Sectors.{Touches};
ghost use Rattle.aoe_mirror.specs.Sides.{IsMark, IsMirror, Names, both, pair_of, side_in};
ghost use Rattle.aoe_mirror.specs.Mirror.{first_of, second_of};
ghost use Rattle.aoe_mirror.specs.Marks.{AreSet, IsNextRun, count_of};
ghost use Rattle.aoe_mirror.specs.Clean.{AreAlike, KeepsWord, Says};
ghost use Rattle.aoe_mirror.specs.Calls.{Blames, Copies, CopiesAll, CopiesNext, CopiesRun, FollowerReads, FollowerSyncs, Follows, Halts, IsLowest, Leads, MirrorReads, MirrorSyncs, MirrorWrites, SettlesLead, StaysLead, StaysWhole, Swaps, TakesLead, WritesCopy, blamed_of, copy_blamed};

use crate::clean::write_clean;
use crate::marks::Marks;
use aoe_base::{Failed, SECTOR_LEN};
use aoe_disk::Disk;
use std::mem;

/// The first byte of a mark that says that side 1 leads. That of one that says side 0 is 0, and all
/// other bytes of both are 0.
const SECOND_LEADS: u8 = 0xa7;

/// The number of the mark disk, behind the two sides.
pub(crate) const MARK: u8 = 2;

/// Whether all bytes are zero.
pub(crate) fn are_zeros(bytes: &[u8]) -> bool
    ensures { result ≡ list_all (λ b. b == 0) bytes.now }
{
    bytes.iter().all(|byte| *byte == 0)
}

/// The side that a sector of the mark disk names, where it is a mark.
#[tactic(auto, unfolding(crate::specs::Sides::side_in))]
pub(crate) fn side_in(marked: &[u8]) -> Option<u8>
    requires { length marked.now ≡ 512 }
    ensures side { result ≡ side_in marked.now }
    ensures either { IfSome result (λ side. side ≤ 1) }
{
    let (_, rest) = marked.split_at(1);
    if !are_zeros(rest) {
        return None;
    }
    if marked[0] == SECOND_LEADS {
        Some(1)
    } else if marked[0] == 0 {
        Some(0)
    } else {
        None
    }
}

// The mark that names a side.
fn mark_of(side: u8) -> [u8; SECTOR_LEN]
    requires { side ≤ 1 }
    ensures side { side_in result ≡ Some side }
    ensures len { length result ≡ 512 }
{
    let mut marked = [0; SECTOR_LEN];
    if side == 1 {
        marked[0] = SECOND_LEADS;
        return marked;
    }
    marked
}

/// Makes the mark disk name this side, so that a crash can't undo it.
pub(crate) fn write_mark<D: Disk>(disk: &mut D, side: u8) -> Result<(), Failed>
    requires room { 0 < (D.state disk.old).sectors }
    requires side { side ≤ 1 }
    requires disk { IsDisk (D.state disk.old) }
    ensures run { IsRun 2 (is_err result) (D.state disk.old) (D.state disk.new) }
    ensures named { OnOk result (IfSome (D.state disk.new).contents (Names side)) }
    ensures word { KeepsWord (D.state disk.old) (D.state disk.new) }
    ensures touches { BothTell (Touches 0 1)
        (D.state disk.old).contents (D.state disk.new).contents }
{
    let marked = mark_of(side);
    match disk.write(0, &marked) {
        Ok(()) => disk.sync(),
        Err(Failed) => Err(Failed),
    }
}

/// The two sides of a mirror and its mark disk.
#[derive(Drop)]
pub struct Sides<D: Disk> {
    pub(crate) lead: D,
    pub(crate) follower: D,

    // Its first sector says which side leads.
    pub(crate) mark: D,

    // The side that leads, 0 or 1.
    pub(crate) side: u8,

    // The sectors of the follower that may differ from the lead's.
    pub(crate) stale: Marks,

    // Whether the mark disk names the lead.
    pub(crate) settled: bool,
}

impl<D: Disk> Sides<D> {
    /// The sides, of which the mark disk names one as the lead. They are alike where the other isn't
    /// stale.
    pub(crate) fn new(one: D, two: D, mark: D, side: u8, stale: Marks) -> Self
        requires one { IsDisk (D.state one) }
        requires two { IsDisk (D.state two) }
        requires size { (D.state two).sectors ≡ (D.state one).sectors }
        requires mark { IsDisk (D.state mark) }
        requires room { 0 < (D.state mark).sectors }
        requires side { side ≤ 1 }
        requires named { IfSome (D.state mark).contents (Names side) }
        requires marks { length stale ≡ (D.state one).sectors }
        requires alike { AreAlike stale (both (D.state one).contents (D.state two).contents) }
        ensures mirror { IsMirror (pair_of D.state result) }
        ensures one { first_of result ≡ one }
        ensures two { second_of result ≡ two }
        ensures mark { result.mark ≡ mark }
        ensures side { result.side ≡ side }
        ensures stale { result.stale ≡ stale }
        ensures settled { result.settled ≡ true }
    {
        let (lead, follower) = if side == 1 { (two, one) } else { (one, two) };
        Sides {
            lead,
            follower,
            mark,
            side,
            stale,
            settled: true,
        }
    }

    /// The sides 0 and 1, and the mark disk.
    pub(crate) fn close(self) -> (D, D, D)
        ensures one { result.0 ≡ first_of self }
        ensures two { result.1 ≡ second_of self }
        ensures mark { result.2 ≡ self.mark }
    {
        if self.side == 1 {
            (self.follower, self.lead, self.mark)
        } else {
            (self.lead, self.follower, self.mark)
        }
    }

    // Makes the mark disk name the lead, where it may not name it yet.
    fn settle(&mut self) -> Result<(), Failed>
        requires { IsMark (pair_of D.state self.old) }
        ensures settles { SettlesLead (is_err result)
            (pair_of D.state self.old) (pair_of D.state self.new) }
        ensures word { KeepsWord (D.state self.old.mark) (D.state self.new.mark) }
    {
        if self.settled {
            return Ok(());
        }
        write_mark(&mut self.mark, self.side)?;
        self.settled = true;
        Ok(())
    }

    /// Makes the mark disk say whether the mirror is clean, under a lead that is settled.
    pub(crate) fn say(&mut self, clean: bool) -> Result<(), Failed>
        requires mark { IsMark (pair_of D.state self.old) }
        requires settled { self.old.settled ≡ true }
        requires room { 1 < (D.state self.old.mark).sectors }
        ensures settles { SettlesLead (is_err result)
            (pair_of D.state self.old) (pair_of D.state self.new) }
        ensures says { OnOk result (IfSome (D.state self.new.mark).contents (Says clean)) }
        ensures is { self.new ≡ record self.old { mark = self.new.mark } }
    {
        write_clean(&mut self.mark, clean)
    }

    // The follower leads from now on, and the mark disk doesn't say so yet.
    fn change_lead(&mut self)
        requires { self.old.side ≤ 1 }
        ensures { self.new ≡ record {
          lead = self.old.follower;
          follower = self.old.lead;
          mark = self.old.mark;
          side = 1 - self.old.side;
          stale = self.old.stale;
          settled = false;
        } }
    {
        mem::swap(&mut self.lead, &mut self.follower);
        self.side = 1 - self.side;
        self.settled = false;
    }

    // The lead's read failed. The follower is read, where nothing is stale.
    fn read_follower(&mut self, at: u64, out: &mut [u8]) -> Result<(), Failed>
        requires range { IsRange at (length out.old) (D.state self.old.follower).sectors }
        requires disk { IsDisk (D.state self.old.follower) }
        requires marks { length self.old.stale ≡ (D.state self.old.follower).sectors }
        ensures { FollowerReads at (length out.old) result out.new
            (pair_of D.state self.old) (pair_of D.state self.new) }
    {
        if self.stale.any_of(at as usize, out.len() / SECTOR_LEN) {
            return Err(Failed);
        }
        self.follower.read(at, out)
    }

    /// Reads the lead, or where that fails the follower, if nothing is stale there.
    pub(crate) fn read(&mut self, at: u64, out: &mut [u8]) -> Result<(), Failed>
        requires mirror { IsMirror (pair_of D.state self.old) }
        requires range { IsRange at (length out.old) (D.state self.old.lead).sectors }
        ensures { MirrorReads at (length out.old) result out.new
            (pair_of D.state self.old) (pair_of D.state self.new) }
    {
        match self.lead.read(at, out) {
            Ok(()) => Ok(()),
            Err(Failed) => self.read_follower(at, out),
        }
    }

    // Writes the follower after the lead. Where that fails, its sectors are stale.
    fn follow(&mut self, at: u64, piece: &[u8])
        requires range { IsRange at (length piece.now) (D.state self.old.follower).sectors }
        requires disk { IsDisk (D.state self.old.follower) }
        requires marks { length self.old.stale ≡ (D.state self.old.follower).sectors }
        ensures { Follows at piece.now (pair_of D.state self.old) (pair_of D.state self.new) }
    {
        let failed = self.follower.write(at, piece).is_err();
        self.stale
            .put_each(at as usize, piece.len() / SECTOR_LEN, failed);
    }

    // The lead's write failed. Where nothing is stale, the follower is written, and leads from then
    // on.
    fn fall_over(&mut self, at: u64, piece: &[u8]) -> Result<(), Failed>
        requires range { IsRange at (length piece.now) (D.state self.old.follower).sectors }
        requires disk { IsDisk (D.state self.old.follower) }
        requires marks { length self.old.stale ≡ (D.state self.old.follower).sectors }
        requires mark { IsMark (pair_of D.state self.old) }
        ensures falls { Halts at piece.now (is_err result)
            (pair_of D.state self.old) (pair_of D.state self.new)
            ⊎ Swaps at piece.now (is_err result)
            (pair_of D.state self.old) (pair_of D.state self.new) }
        ensures word { KeepsWord (D.state self.old.mark) (D.state self.new.mark) }
    {
        let stale = self.stale.count();
        self.stale
            .put_each(at as usize, piece.len() / SECTOR_LEN, true);
        if stale > 0 {
            return Err(Failed);
        }
        if let Err(Failed) = self.follower.write(at, piece) {
            return Err(Failed);
        }
        self.change_lead();
        self.settle()
    }

    // Writes both sides, under a lead that is settled.
    fn write_both(&mut self, at: u64, piece: &[u8]) -> Result<(), Failed>
        requires mirror { IsMirror (pair_of D.state self.old) }
        requires range { IsRange at (length piece.now) (D.state self.old.lead).sectors }
        requires settled { self.old.settled ≡ true }
        ensures writes { MirrorWrites at piece.now result
            (pair_of D.state self.old) (pair_of D.state self.new) }
        ensures word { KeepsWord (D.state self.old.mark) (D.state self.new.mark) }
    {
        match self.lead.write(at, piece) {
            Ok(()) => {
                self.follow(at, piece);
                Ok(())
            }
            Err(Failed) => self.fall_over(at, piece),
        }
    }

    /// Writes both sides, or one of them where the other fails.
    pub(crate) fn write(&mut self, at: u64, piece: &[u8]) -> Result<(), Failed>
        requires mirror { IsMirror (pair_of D.state self.old) }
        requires range { IsRange at (length piece.now) (D.state self.old.lead).sectors }
        ensures writes { MirrorWrites at piece.now result
            (pair_of D.state self.old) (pair_of D.state self.new) }
        ensures word { KeepsWord (D.state self.old.mark) (D.state self.new.mark) }
    {
        match self.settle() {
            Ok(()) => self.write_both(at, piece),
            Err(Failed) => Err(Failed),
        }
    }

    // Syncs the follower after the lead. Where that fails all of it is stale, and its side is told.
    fn sync_follower(&mut self) -> Option<u8>
        requires { self.old.side ≤ 1 }
        ensures { FollowerSyncs result (pair_of D.state self.old) (pair_of D.state self.new) }
    {
        if let Err(Failed) = self.follower.sync() {
            self.stale.set_all();
            return Some(1 - self.side);
        }
        None
    }

    // Syncs a lead that took over. All of the other side is stale from then on.
    fn sync_new_lead(&mut self) -> Result<(), u8>
        ensures { Leads result (pair_of D.state self.old) (pair_of D.state self.new) }
    {
        self.stale.set_all();
        match self.lead.sync() {
            Ok(()) => Ok(()),
            Err(Failed) => Err(0),
        }
    }

    // The lead's sync failed. Where nothing is stale, the follower leads from then on, and is
    // synced. Where that fails the lowest side that failed is told.
    fn sync_other(&mut self) -> Result<(), u8>
        requires { IsMark (pair_of D.state self.old) }
        ensures leads { StaysLead result (pair_of D.state self.old) (pair_of D.state self.new)
            ⊎ TakesLead result (pair_of D.state self.old) (pair_of D.state self.new) }
        ensures word { KeepsWord (D.state self.old.mark) (D.state self.new.mark) }
    {
        let failed = self.side;
        if self.stale.count() > 0 {
            return Err(failed);
        }
        self.change_lead();
        match self.settle() {
            Ok(()) => self.sync_new_lead(),
            Err(Failed) => Err(failed),
        }
    }

    // Syncs both sides, under a lead that is settled.
    fn sync_both(&mut self) -> Result<Option<u8>, u8>
        requires mirror { IsMirror (pair_of D.state self.old) }
        requires settled { self.old.settled ≡ true }
        ensures syncs { MirrorSyncs result (pair_of D.state self.old) (pair_of D.state self.new) }
        ensures blames { Blames (blamed_of result)
            (pair_of D.state self.old) (pair_of D.state self.new) }
        ensures lowest { IsLowest (blamed_of result)
            (pair_of D.state self.old) (pair_of D.state self.new) }
        ensures told { blamed_of result ≡ None
            → StaysWhole (pair_of D.state self.old) (pair_of D.state self.new) }
        ensures word { KeepsWord (D.state self.old.mark) (D.state self.new.mark) }
    {
        match self.lead.sync() {
            Ok(()) => Ok(self.sync_follower()),
            Err(Failed) => {
                let failed = self.side;
                match self.sync_other() {
                    Ok(()) => Ok(Some(failed)),
                    Err(disk) => Err(disk),
                }
            }
        }
    }

    /// Syncs both sides, or one of them where the other fails. The lowest disk that failed is told.
    pub(crate) fn sync(&mut self) -> Result<Option<u8>, u8>
        requires { IsMirror (pair_of D.state self.old) }
        ensures syncs { MirrorSyncs result (pair_of D.state self.old) (pair_of D.state self.new) }
        ensures blames { Blames (blamed_of result)
            (pair_of D.state self.old) (pair_of D.state self.new) }
        ensures lowest { IsLowest (blamed_of result)
            (pair_of D.state self.old) (pair_of D.state self.new) }
        ensures told { blamed_of result ≡ None
            → StaysWhole (pair_of D.state self.old) (pair_of D.state self.new) }
        ensures word { KeepsWord (D.state self.old.mark) (D.state self.new.mark) }
    {
        match self.settle() {
            Ok(()) => self.sync_both(),
            Err(Failed) => Err(MARK),
        }
    }

    // Writes a piece that was read from the lead to the follower, and syncs it.
    fn write_copy(&mut self, at: u64, piece: &[u8]) -> Result<(), u8>
        requires range { IsRange at (length piece.now) (D.state self.old.follower).sectors }
        requires side { self.old.side ≤ 1 }
        ensures { WritesCopy at piece.now result
            (pair_of D.state self.old) (pair_of D.state self.new) }
    {
        if let Err(Failed) = self.follower.write(at, piece) {
            return Err(1 - self.side);
        }
        match self.follower.sync() {
            Ok(()) => Ok(()),
            Err(Failed) => Err(1 - self.side),
        }
    }

    // Reads the lead's sectors, and writes them to the follower.
    fn copy_run(&mut self, at: u64, piece: &mut [u8]) -> Result<(), u8>
        requires lead { IsRange at (length piece.old) (D.state self.old.lead).sectors }
        requires follower { IsRange at (length piece.old) (D.state self.old.follower).sectors }
        requires side { self.old.side ≤ 1 }
        ensures { CopiesRun at (length piece.old) result
            (pair_of D.state self.old) (pair_of D.state self.new) }
    {
        match self.lead.read(at, piece) {
            Ok(()) => self.write_copy(at, piece),
            Err(Failed) => Err(self.side),
        }
    }

    // Copies a run of stale sectors to the follower: they are stale no more, or a side is told that
    // failed.
    fn resync_run(&mut self, at: usize, n: usize, scratch: &mut [u8]) -> Result<(), u8>
        requires mirror { IsMirror (pair_of D.state self.old) }
        requires run { AreSet self.old.stale at n }
        requires scratch { length scratch.old ≡ scratch_bytes }
        ensures copies { Copies at n (is_err result)
            (pair_of D.state self.old) (pair_of D.state self.new) }
        ensures blames { IfErr result
            (λ k. Blames (Some k) (pair_of D.state self.old) (pair_of D.state self.new)) }
        ensures lowest { IsLowest (copy_blamed result)
            (pair_of D.state self.old) (pair_of D.state self.new) }
    {
        if let Err(side) = self.copy_run(at as u64, &mut scratch[..SECTOR_LEN * n]) {
            return Err(side);
        }
        self.stale.put_each(at, n, false);
        Ok(())
    }

    // The run of stale sectors that comes behind sector `from`, or where none is left there, the
    // first of all.
    fn next_run(&self, from: usize) -> Option<(usize, usize)>
        ensures { MatchOption result (count_of self.now.stale ≡ 0)
            (λ run. IsNextRun self.now.stale from run.0 run.1) }
    {
        if self.stale.count() == 0 {
            return None;
        }
        if let Some(run) = self.stale.first_run(from) {
            return Some(run);
        }
        self.stale.first_run(0)
    }

    /// Copies the next run of stale sectors from sector `from` on to the follower. Says where the
    /// copy behind it goes on, and which side failed.
    pub(crate) fn resync(&mut self, from: usize, scratch: &mut [u8]) -> (usize, Result<(), u8>)
        requires mirror { IsMirror (pair_of D.state self.old) }
        requires scratch { length scratch.old ≡ scratch_bytes }
        ensures copies { CopiesNext from result.0 (is_err result.1)
            (pair_of D.state self.old) (pair_of D.state self.new) }
        ensures mirror { IsMirror (pair_of D.state self.new) }
        ensures blames { Blames (copy_blamed result.1)
            (pair_of D.state self.old) (pair_of D.state self.new) }
        ensures lowest { IsLowest (copy_blamed result.1)
            (pair_of D.state self.old) (pair_of D.state self.new) }
    {
        let Some((at, n)) = self.next_run(from) else {
            return (from, Ok(()));
        };
        (at + n, self.resync_run(at, n, scratch))
    }

    /// Copies each run of stale sectors to the follower, also behind one of which the copy failed.
    pub(crate) fn resync_all(&mut self, scratch: &mut [u8])
        requires mirror { IsMirror (pair_of D.state self.old) }
        requires scratch { length scratch.old ≡ scratch_bytes }
        ensures { CopiesAll (pair_of D.state self.old) (pair_of D.state self.new) }
    {
        let mut from = 0;
        'runs: while let Some((at, n)) = self.stale.first_run(from) {
            let _ = self.resync_run(at, n, scratch);
            from = at + n;
        }
    }
}
