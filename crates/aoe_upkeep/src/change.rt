//! Changes of a keep.
ghost use Rattle.std.specs.Prelude.{◌≡◌, ◌≢◌, OnErr, OnOk, is_err, false, true};
ghost use Rattle.aoe_disk.specs.Calls.{IsRun};
ghost use Rattle.aoe_keep.specs.Found.{AlwaysFinds, AlwaysFindsFormat, FindsOffered};
ghost use Rattle.aoe_keep.specs.Keep.{KeepsOthers};
ghost use Rattle.aoe_lists.specs.Settings.{empty_settings};
ghost use Rattle.aoe_upkeep.specs.Upkeep.{Changes, IsCaused, IsNew, cleared, clearing, creating, ended_by, marked, marking, upgrading};

use crate::UpkeepStop;
use aoe_base::Failed;
use aoe_disk::Disk;
use aoe_keep::Keep;
use aoe_lists::{Lists, same_settings_is_equality};

/// A part of what a device keeps for its hosts.
#[derive(Clone, Copy, Debug, PartialEq, Eq)]
pub enum Part {
    /// The config string.
    Config,

    /// The mask list.
    Masks,

    /// The reserve list.
    Reserves,
}

/// How a change ended whose calls ended so.
fn ended_by(written: Result<(), Failed>) -> Result<(), UpkeepStop>
    ensures { result ≡ ended_by written }
{
    match written {
        Ok(()) => Ok(()),
        Err(Failed) => Err(UpkeepStop::Failed),
    }
}

/// Mounts the keep on a disk and writes its lists in the format that is written now, where they stand
/// in another or nowhere. The disk is given back.
pub fn upgrade<D: Disk>(disk: D) -> (Result<(), UpkeepStop>, D)
    ensures changes { Changes D.state upgrading result.0 disk result.1 }
    ensures causes { IsCaused D.state result.0 disk result.1 }
{
    let mut keep = match Keep::mount(disk) {
        Ok(keep) => keep,
        Err((refusal, disk)) => return (Err(UpkeepStop::Keep(refusal)), disk),
    };
    let written = keep.upgrade();
    (ended_by(written), keep.close())
}

/// Makes these the lists of a keep. Where they are nothing is written.
fn put<D: Disk>(keep: &mut Keep<D>, next: &Lists) -> Result<(), Failed>
    ensures same { keep.old.lists ≡ next.now → (keep.new ≡ keep.old) × (is_err result ≡ false) }
    ensures finds { keep.old.lists ≢ next.now → OnOk result
        (AlwaysFinds (D.state keep.new.disk) next.now
        × AlwaysFindsFormat (D.state keep.new.disk) 2) }
    ensures offered { keep.old.lists ≢ next.now → OnErr result (FindsOffered
        (D.state keep.old.disk) (D.state keep.new.disk) keep.old.lists next.now) }
    ensures others { keep.old.lists ≢ next.now
        → KeepsOthers (D.state keep.old.disk) (D.state keep.new.disk) }
    ensures run { keep.old.lists ≢ next.now
        → IsRun 6 (is_err result) (D.state keep.old.disk) (D.state keep.new.disk) }
{
    same_settings_is_equality();
    if keep.lists() == next {
        return Ok(());
    }
    keep.replace(next)
}

/// Mounts the keep on a disk and sets or clears its read-only mark. Where it stands so nothing is
/// written. The disk is given back.
pub fn mark<D: Disk>(disk: D, read_only: bool) -> (Result<(), UpkeepStop>, D)
    ensures changes { Changes D.state (marking read_only) result.0 disk result.1 }
    ensures causes { IsCaused D.state result.0 disk result.1 }
{
    let mut keep = match Keep::mount(disk) {
        Ok(keep) => keep,
        Err((refusal, disk)) => return (Err(UpkeepStop::Keep(refusal)), disk),
    };
    let next = keep.lists().marked(read_only);
    let written = put(&mut keep, &next);
    (ended_by(written), keep.close())
}

/// A copy of lists in which a part is empty.
fn cleared(lists: &Lists, part: Part) -> Lists
    ensures { result ≡ cleared part lists.now }
{
    let mut next = lists.copy();
    match part {
        Part::Config => next.config.clear(),
        Part::Masks => next.masks.clear(),
        Part::Reserves => next.reserves.clear(),
    }
    next
}

/// Mounts the keep on a disk and empties its config string, its mask list or its reserve list. Where it
/// is empty nothing is written. The disk is given back.
pub fn clear<D: Disk>(disk: D, part: Part) -> (Result<(), UpkeepStop>, D)
    ensures changes { Changes D.state (clearing part) result.0 disk result.1 }
    ensures causes { IsCaused D.state result.0 disk result.1 }
{
    let mut keep = match Keep::mount(disk) {
        Ok(keep) => keep,
        Err((refusal, disk)) => return (Err(UpkeepStop::Keep(refusal)), disk),
    };
    let next = cleared(keep.lists(), part);
    let written = put(&mut keep, &next);
    (ended_by(written), keep.close())
}

/// Makes a keep's lists empty, in the format that is written now. Where they stand so nothing is
/// written.
fn make_empty<D: Disk>(keep: &mut Keep<D>) -> Result<(), Failed>
    ensures same { IsNew keep.old → (keep.new ≡ keep.old) × (is_err result ≡ false) }
    ensures finds { (IsNew keep.old → ⊥) → OnOk result
        (AlwaysFinds (D.state keep.new.disk) empty_settings
        × AlwaysFindsFormat (D.state keep.new.disk) 2) }
    ensures offered { (IsNew keep.old → ⊥) → OnErr result (FindsOffered
        (D.state keep.old.disk) (D.state keep.new.disk) keep.old.lists empty_settings) }
    ensures others { (IsNew keep.old → ⊥)
        → KeepsOthers (D.state keep.old.disk) (D.state keep.new.disk) }
    ensures run { (IsNew keep.old → ⊥)
        → IsRun 6 (is_err result) (D.state keep.old.disk) (D.state keep.new.disk) }
{
    same_settings_is_equality();
    let next = Lists::new();
    if *keep.lists() == next {
        return keep.upgrade();
    }
    keep.replace(&next)
}

/// Makes a new keep of a disk: empty lists, which let every station in. They are written where they
/// don't stand so, also on a disk that holds none yet, and then a crash of a later change finds lists.
/// The disk is given back.
pub fn create<D: Disk>(disk: D) -> (Result<(), UpkeepStop>, D)
    ensures changes { Changes D.state creating result.0 disk result.1 }
    ensures causes { IsCaused D.state result.0 disk result.1 }
{
    let mut keep = match Keep::mount(disk) {
        Ok(keep) => keep,
        Err((refusal, disk)) => return (Err(UpkeepStop::Keep(refusal)), disk),
    };
    let written = make_empty(&mut keep);
    (ended_by(written), keep.close())
}
