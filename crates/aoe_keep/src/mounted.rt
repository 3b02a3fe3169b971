//! The six device calls that replace the lists.
ghost use Rattle.std.specs.Prelude.{◌≡◌, ◌≤◌, ◌<◌, ◌+◌, ◌*◌, ◌==◌, ◌||◌, ℕ, List, [], ◌∷◌, true, false, length, get_or, OnOk, OnErr, is_err, is_ok};
ghost use Rattle.aoe_disk.specs.State.{BothTell, Write, Sync};
ghost use Rattle.aoe_disk.specs.Calls.{IsRun, Logs, Makes};
ghost use Rattle.aoe_keep.specs.Calls as calls;
ghost use Rattle.aoe_keep.specs.Stages.{WritesGate, WritesBody};
ghost use Rattle.aoe_keep.specs.Keep.{IsAtRest, HasCleared, HasStaged, HasOpened, HasHalfOpened, HasReplaced, HasFailed, KeepsOthers};

use crate::body::{WRITTEN, spell};
use crate::place::{Place, spare_slot, spare_turn};
use aoe_base::Failed;
use aoe_disk::Disk;
use aoe_lists::Lists;

/// The first byte of an open gate.
pub(crate) const OPEN: u8 = 0xa7;

/// A disk with lists.
#[derive(Drop)]
pub(crate) struct Mounted<D: Disk> {
    pub(crate) disk: D,
    pub(crate) lists: Lists,

    // The slot that holds the lists; none before the first replacement.
    pub(crate) place: Option<Place>,

    // The gate of the spare slot is known to be closed: it was read so, or the latest write of it
    // was Ok and closed it.
    pub(crate) is_closed: bool,
}

/// The bytes of a gate.
fn gate_of(opens: bool) -> [u8; 512]
    ensures bytes { result ≡ calls.gate opens }
    ensures first { (get_or result 0 0 == 0xa7) ≡ opens }
{
    let mut gate = [0; 512];
    gate[0] = if opens { OPEN } else { 0 };
    gate
}

/// Writes a slot's gate.
fn write_gate<D: Disk>(disk: &mut D, slot: u8, opens: bool) -> Result<(), Failed>
    requires room { 16 ≤ (D.state disk.old).sectors }
    requires slot { slot ≤ 1 }
    ensures call { IsRun 1 (is_err result) (D.state disk.old) (D.state disk.new) }
    ensures gate { BothTell (WritesGate (D.state disk.old).sectors slot opens result)
        (D.state disk.old).contents (D.state disk.new).contents }
    ensures others { KeepsOthers (D.state disk.old) (D.state disk.new) }
    ensures log { Logs (Write (8 * slot) (calls.gate opens) ∷ []) (D.state disk.old)
        (D.state disk.new) }
{
    let gate = gate_of(opens);
    disk.write(8 * u64::from(slot), &gate)
}

/// Writes a slot's body.
fn write_body<D: Disk>(disk: &mut D, slot: u8, body: &[u8]) -> Result<(), Failed>
    requires room { 16 ≤ (D.state disk.old).sectors }
    requires slot { slot ≤ 1 }
    requires len { length body.now ≡ 3584 }
    ensures call { IsRun 1 (is_err result) (D.state disk.old) (D.state disk.new) }
    ensures body { BothTell (WritesBody slot body.now result)
        (D.state disk.old).contents (D.state disk.new).contents }
    ensures others { KeepsOthers (D.state disk.old) (D.state disk.new) }
    ensures log { Logs (Write (8 * slot + 1) body.now ∷ []) (D.state disk.old) (D.state disk.new) }
{
    disk.write(8 * u64::from(slot) + 1, body)
}

impl<D: Disk> Mounted<D> {
    // Call 1: closes the gate of the spare slot. Where it is known to be closed, a sync stands in
    // the place of the write.
    fn close_gate(&mut self, next: &Lists) -> Result<(), Failed>
        requires { IsAtRest D.state self.old }
        ensures closed { OnOk result (self.new.is_closed ≡ true) }
        ensures kept { HasFailed D.state next.now self.old self.new }
        ensures place { self.new.place ≡ self.old.place }
        ensures others { KeepsOthers (D.state self.old.disk) (D.state self.new.disk) }
        ensures run { IsRun 1 (is_err result) (D.state self.old.disk) (D.state self.new.disk) }
        ensures known { self.new.is_closed ≡ (self.old.is_closed || is_ok result) }
        ensures log { Logs (calls.close_gate self.old.place self.old.is_closed ∷ [])
            (D.state self.old.disk) (D.state self.new.disk) }
    {
        if self.is_closed {
            return self.disk.sync();
        }
        let closed = write_gate(&mut self.disk, spare_slot(self.place), false);
        self.is_closed = closed.is_ok();
        closed
    }

    // Calls 1 and 2: the spare slot stays closed.
    fn clear(&mut self, next: &Lists) -> Result<(), Failed>
        requires { IsAtRest D.state self.old }
        ensures ok { OnOk result (HasCleared D.state self.new) }
        ensures err { OnErr result (HasFailed D.state next.now self.old self.new) }
        ensures lists { self.new.lists ≡ self.old.lists }
        ensures place { self.new.place ≡ self.old.place }
        ensures others { KeepsOthers (D.state self.old.disk) (D.state self.new.disk) }
        ensures run { IsRun 2 (is_err result) (D.state self.old.disk) (D.state self.new.disk) }
        ensures calls { calls.Clears D.state (is_err result) self.old self.new }
    {
        self.close_gate(next)?;
        self.disk.sync()
    }

    // Calls 3 and 4: the next lists stand behind the closed gate.
    fn stage(&mut self, next: &Lists) -> Result<(), Failed>
        requires { HasCleared D.state self.old }
        ensures ok { OnOk result (HasStaged D.state next.now self.new) }
        ensures err { OnErr result (HasCleared D.state self.new) }
        ensures lists { self.new.lists ≡ self.old.lists }
        ensures place { self.new.place ≡ self.old.place }
        ensures others { KeepsOthers (D.state self.old.disk) (D.state self.new.disk) }
        ensures run { IsRun 2 (is_err result) (D.state self.old.disk) (D.state self.new.disk) }
        ensures closed { self.new.is_closed ≡ self.old.is_closed }
        ensures calls { Makes (calls.write_body self.old.place next.now ∷ Sync ∷ []) (is_err result)
            (D.state self.old.disk) (D.state self.new.disk) }
    {
        let body = spell(spare_turn(self.place), next);
        write_body(&mut self.disk, spare_slot(self.place), body.as_slice())?;
        self.disk.sync()
    }

    // Calls 5 and 6: the gate is open before the next lists.
    fn open(&mut self, next: &Lists) -> Result<(), Failed>
        requires { HasStaged D.state next.now self.old }
        ensures ok { OnOk result (HasOpened D.state next.now self.new) }
        ensures err { OnErr result (HasHalfOpened D.state next.now self.new) }
        ensures lists { self.new.lists ≡ self.old.lists }
        ensures place { self.new.place ≡ self.old.place }
        ensures others { KeepsOthers (D.state self.old.disk) (D.state self.new.disk) }
        ensures run { IsRun 2 (is_err result) (D.state self.old.disk) (D.state self.new.disk) }
        ensures closed { self.new.is_closed ≡ false }
        ensures calls { Makes (calls.write_gate self.old.place true ∷ Sync ∷ []) (is_err result)
            (D.state self.old.disk) (D.state self.new.disk) }
    {
        self.is_closed = false;
        write_gate(&mut self.disk, spare_slot(self.place), true)?;
        self.disk.sync()
    }

    /// The lists become `next`. Where a device call fails no later one is made, and they stay.
    pub(crate) fn replace(&mut self, next: &Lists) -> Result<(), Failed>
        requires { IsAtRest D.state self.old }
        ensures ok { OnOk result (HasReplaced D.state next.now self.new) }
        ensures err { OnErr result (HasFailed D.state next.now self.old self.new) }
        ensures others { KeepsOthers (D.state self.old.disk) (D.state self.new.disk) }
        ensures run { IsRun 6 (is_err result) (D.state self.old.disk) (D.state self.new.disk) }
        ensures calls { calls.ReplacesBy D.state next.now (is_err result)
            (calls.shown self.old) (calls.shown self.new) }
    {
        self.clear(next)?;
        self.stage(next)?;
        self.open(next)?;
        let (slot, turn) = (spare_slot(self.place), spare_turn(self.place));
        self.is_closed = self.place.is_none();
        self.place = Some(Place {
            slot,
            turn,
            format: WRITTEN,
        });
        self.lists = next.copy();
        Ok(())
    }
}
