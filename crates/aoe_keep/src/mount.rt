//! The lists that stand on a disk.
ghost use Rattle.std.specs.Prelude.{◌≡◌, ◌≤◌, ◌<◌, ◌+◌, ◌*◌, ℕ, length, IfSome, IfOk, IfErr, OnOk, OnErr, MatchResult, Some, true, false, Ok, Err, is_err};
ghost use Rattle.std.specs.Bool.{OnTrue};
ghost use Rattle.aoe_disk.specs.State.{BothTell};
ghost use Rattle.aoe_disk.specs.Calls.{IsRun, Settles};
ghost use Rattle.aoe_disk.specs.Sectors.{Calms};
ghost use Rattle.aoe_keep.specs.Found.{slot, choice, placement};
ghost use Rattle.aoe_keep.specs.Keep.{IsAtRest, Mounts, IsRefused, RunsBetween, ReadsSlots};
ghost use Rattle.aoe_keep.specs.Calls.{MountsBy, ReadsSlot, RefusesBy};

use crate::MountRefusal;
use crate::body::{BODY, Written, read};
use crate::mounted::{Mounted, OPEN};
use crate::place::{Place, turn_following};
use aoe_base::Failed;
use aoe_disk::Disk;
use aoe_lists::Lists;

/// How many sectors a keep has.
pub const KEEP_SECTORS: u64 = 16;

/// What a slot holds: nothing where its gate is closed, else what its body spells.
type Slot = Option<Option<Written>>;

/// The present lists, the slot that holds them, and whether the other one is closed.
#[derive(Drop)]
pub(crate) struct Present {
    lists: Lists,
    place: Option<Place>,
    is_closed: bool,
}

/// What a slot's body spells, and whether the other slot is closed.
fn standing(written: Written, slot: u8, is_closed: bool) -> Present
    ensures lists { result.lists ≡ written.lists }
    ensures place { result.place
        ≡ Some (record { slot = slot; turn = written.turn; format = written.format }) }
    ensures closed { result.is_closed ≡ is_closed }
{
    let Written {
        format,
        turn,
        lists,
    } = written;
    Present {
        lists,
        place: Some(Place { slot, turn, format }),
        is_closed,
    }
}

/// The lists of the two slots, or the slot that is bad.
fn choose(first: Slot, second: Slot) -> Result<Present, u8>
    ensures { MatchResult result
        (λ p. (choice first second ≡ Ok p.lists) × (placement first second ≡ (p.place, p.is_closed)))
        (λ k. choice first second ≡ Err k) }
{
    match (first, second) {
        (None, None) => Ok(Present {
            lists: Lists::new(),
            place: None,
            is_closed: true,
        }),
        (None, Some(Some(second))) => Ok(standing(second, 1, true)),
        (Some(Some(first)), None) => Ok(standing(first, 0, true)),
        (Some(None), _) => Err(0),
        (_, Some(None)) => Err(1),
        (Some(Some(first)), Some(Some(second))) => {
            if first.turn == turn_following(second.turn) {
                Ok(standing(first, 0, false))
            } else if second.turn == turn_following(first.turn) {
                Ok(standing(second, 1, false))
            } else {
                Err(1)
            }
        }
    }
}

/// Reads a slot: its gate, and where that is open its body.
fn read_slot<D: Disk>(disk: &mut D, k: u8) -> Result<Slot, Failed>
    requires room { 16 ≤ (D.state disk.old).sectors }
    requires slot { k ≤ 1 }
    ensures slot { IfOk result (λ held. IfSome (D.state disk.old).contents
        (λ c. slot c.bytes k ≡ held)) }
    ensures same { (D.state disk.new).contents ≡ (D.state disk.old).contents }
    ensures run { RunsBetween 1 2 (is_err result) (D.state disk.old) (D.state disk.new) }
    ensures reads { ReadsSlot k (is_err result) (D.state disk.old) (D.state disk.new) }
{
    let start = 8 * u64::from(k);
    let mut gate = [0; 512];
    disk.read(start, &mut gate)?;
    if gate[0] != OPEN {
        return Ok(None);
    }
    let mut body = [0; BODY];
    disk.read(start + 1, &mut body)?;
    Ok(Some(read(&body)))
}

/// Reads the lists that stand on a disk, or the slot that is bad, after a sync.
fn read_slots<D: Disk>(disk: &mut D) -> Result<Result<Present, u8>, Failed>
    requires { 16 ≤ (D.state disk.old).sectors }
    ensures found { IfOk result (λ read. BothTell (ReadsSlots read) (D.state disk.old).contents
        (D.state disk.new).contents) }
    ensures calm { BothTell Calms (D.state disk.old).contents (D.state disk.new).contents }
    ensures err { OnErr result (RunsBetween 1 5 true (D.state disk.old) (D.state disk.new)) }
    ensures ok { OnOk result (RunsBetween 3 5 false (D.state disk.old) (D.state disk.new)) }
    ensures calls { MountsBy (is_err result) (D.state disk.old) (D.state disk.new) }
{
    disk.sync()?;
    let first = read_slot(disk, 0)?;
    let second = read_slot(disk, 1)?;
    Ok(choose(first, second))
}

/// A disk with the lists that stand on it.
pub(crate) fn mount<D: Disk>(disk: D) -> Result<Mounted<D>, (MountRefusal, D)>
    ensures mounted { IfOk result (λ k. IsAtRest D.state k) }
    ensures ok { IfOk result (λ k. Mounts (D.state disk) (D.state k.disk) k.lists) }
    ensures stands { IfOk result (λ k. IfSome (D.state disk).contents
        (λ c. placement (slot c.bytes 0) (slot c.bytes 1) ≡ (k.place, k.is_closed))) }
    ensures refused { IfErr result (λ e. IsRefused D.state disk e.0 e.1) }
    ensures calls { IfOk result (λ k. MountsBy false (D.state disk) (D.state k.disk)) }
    ensures refused_calls { IfErr result (λ e. RefusesBy D.state disk e.0 e.1) }
{
    let mut disk = disk;
    let sectors = disk.sectors();
    if sectors < KEEP_SECTORS {
        return Err((MountRefusal::TooSmall { sectors }, disk));
    }
    match read_slots(&mut disk) {
        Err(Failed) => Err((MountRefusal::Failed, disk)),
        Ok(Err(slot)) => Err((MountRefusal::BadKeep { slot }, disk)),
        Ok(Ok(present)) => Ok(Mounted {
            disk,
            lists: present.lists,
            place: present.place,
            is_closed: present.is_closed,
        }),
    }
}
