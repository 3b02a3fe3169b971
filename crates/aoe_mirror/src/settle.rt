//! What a mark disk is to say before the sides that are named are mounted.
ghost use Rattle.std.specs.Prelude.{◌≡◌, ◌≤◌, ◌<◌, IfErr, IfOk, IfSome, OnOk, false, is_err, true};
ghost use Rattle.aoe_disk.specs.State.{BothTell, DiskState, IsDisk};
ghost use Rattle.aoe_disk.specs.Sectors.{Calms, Touches};
ghost use Rattle.aoe_mirror.specs.Calls.{Later};
ghost use Rattle.aoe_mirror.specs.Clean.{Says, SaysTruly, TellAlike};
ghost use Rattle.aoe_mirror.specs.Names.{AreKnown, Called, CrashesUnclean, HoldsWords, KeepsNames, ReadsWords, RefusesMark, Settled, Spares, SparesOthers, StaysSector, WritesSafely, found_after, is_kept, names_after, other_leads, side_now, words_after};
ghost use Rattle.aoe_mirror.specs.Sides.{Names};

use crate::clean::{Found, write_clean};
use crate::mirror::read_mark;
use crate::names::{Digest, Named, names_after, read_names, write_names};
use crate::sides::write_mark;
use aoe_base::Failed;
use aoe_disk::Disk;
use thiserror::Error;

/// Why a mark disk isn't settled for the sides that are named. It says what it said.
#[derive(Clone, Copy, Debug, PartialEq, Eq, Error)]
pub enum MarkRefusal {
    /// The mark disk has no sector.
    #[error("mirror mark has no sector")]
    NoMark,

    /// The mark disk holds something else than a mark.
    #[error("not a mark")]
    NotMark,

    /// What is named as this side was the other one.
    #[error("mirror sides are named in the other order")]
    Moved { side: u8 },

    /// Something else is named as this side, which led, and what is there may lack some of its sectors.
    #[error("another side than the one that led")]
    Replaced { side: u8 },

    /// The side that led is gone, and what is there may lack some of its sectors.
    #[error("the side that led is gone")]
    Gone,

    /// A call of the mark disk failed.
    #[error("a device call failed")]
    Failed,
}

/// What a mark disk says.
#[derive(Clone, Copy)]
pub struct Words {
    pub(crate) found: Found,
    pub(crate) names: Named,
}

/// What a side is now, beside the one whose name is kept.
#[derive(Clone, Copy)]
pub enum SideNow {
    /// The same, as far as is known.
    Same,
    /// One of another name.
    New,
    /// It isn't named.
    Absent,
}

// Whether what is named is what a name is kept of.
fn is_kept(kept: Option<Digest>, named: Option<Digest>) -> bool
    ensures { result ≡ is_kept kept named }
{
    match (kept, named) {
        (Some(kept), Some(named)) => kept == named,
        _ => false,
    }
}

fn side_now(kept: Option<Digest>, named: Option<Digest>) -> SideNow
    ensures { result ≡ side_now kept named }
{
    match (kept, named) {
        (_, None) => SideNow::Absent,
        (None, Some(_)) => SideNow::Same,
        (Some(kept), Some(named)) => {
            if kept == named {
                SideNow::Same
            } else {
                SideNow::New
            }
        }
    }
}

// The other side leads, where it may.
fn other_leads(found: Found, may: bool, refusal: MarkRefusal) -> Result<Found, MarkRefusal>
    requires { found.side ≤ 1 }
    ensures { result ≡ other_leads found may refusal }
{
    if !may {
        return Err(refusal);
    }
    Ok(Found {
        side: 1 - found.side,
        is_clean: false,
    })
}

// Which side leads from now on, and whether the mirror is clean.
fn found_after(
    found: Found,
    lead: SideNow,
    other: SideNow,
    lead_other: bool,
) -> Result<Found, MarkRefusal>
    requires { found.side ≤ 1 }
    ensures found { result ≡ found_after found lead other lead_other }
    ensures side { IfOk result (λ after. after.side ≤ 1) }
    ensures falls { IfOk result (λ after. after.is_clean ≡ true → found.is_clean ≡ true) }
{
    let may = found.is_clean || lead_other;
    let replaced = MarkRefusal::Replaced { side: found.side };
    match (lead, other) {
        (SideNow::Same, SideNow::Same) => Ok(found),
        (SideNow::New, SideNow::Same) => other_leads(found, may, replaced),
        (SideNow::New, SideNow::Absent) if !lead_other => Err(replaced),
        (SideNow::Absent, SideNow::Same) => other_leads(found, may, MarkRefusal::Gone),
        (SideNow::Absent, SideNow::New) => other_leads(found, lead_other, MarkRefusal::Gone),
        (SideNow::Absent, SideNow::Absent) => Err(MarkRefusal::Gone),
        _ => Ok(Found {
            side: found.side,
            is_clean: false,
        }),
    }
}

// What the mark disk is to say.
fn words_after(words: &Words, named: &Named, lead_other: bool) -> Result<Words, MarkRefusal>
    requires side { words.now.found.side ≤ 1 }
    requires known { AreKnown words.now.names }
    ensures words { result ≡ words_after words.now named.now lead_other }
    ensures side { IfOk result (λ after. after.found.side ≤ 1) }
    ensures falls { IfOk result (λ after. after.found.is_clean ≡ true → words.now.found.is_clean ≡ true) }
    ensures known { IfOk result (λ after. AreKnown after.names) }
{
    let kept = words.names;
    if is_kept(kept.two, named.one) {
        return Err(MarkRefusal::Moved { side: 0 });
    }
    if is_kept(kept.one, named.two) {
        return Err(MarkRefusal::Moved { side: 1 });
    }
    let one = side_now(kept.one, named.one);
    let two = side_now(kept.two, named.two);
    let (lead, other) = if words.found.side == 1 {
        (two, one)
    } else {
        (one, two)
    };
    match found_after(words.found, lead, other, lead_other) {
        Ok(found) => Ok(Words {
            found,
            names: names_after(&kept, named),
        }),
        Err(refusal) => Err(refusal),
    }
}

// What a mark disk says, after a sync.
fn read_words<D: Disk>(disk: &mut D) -> Result<Option<Words>, Failed>
    requires room { 0 < (D.state disk.old).sectors }
    requires disk { IsDisk (D.state disk.old) }
    ensures reads { IfOk result (λ words. ReadsWords words (D.state disk.new)) }
    ensures called { Called (is_err result) (D.state disk.old) (D.state disk.new) }
    ensures calm { BothTell Calms (D.state disk.old).contents (D.state disk.new).contents }
{
    let found = match read_mark(disk) {
        Ok(Some(found)) => found,
        Ok(None) => return Ok(None),
        Err(Failed) => return Err(Failed),
    };
    match read_names(disk) {
        Ok(Some(names)) => Ok(Some(Words { found, names })),
        Ok(None) => Ok(None),
        Err(Failed) => Err(Failed),
    }
}

// Makes the mark disk name this side, where it names another.
fn change_side<D: Disk>(disk: &mut D, was: u8, side: u8) -> Result<(), Failed>
    requires room { 0 < (D.state disk.old).sectors }
    requires side { side ≤ 1 }
    requires disk { IsDisk (D.state disk.old) }
    requires was { IfSome (D.state disk.old).contents (Names was) }
    ensures named { OnOk result (IfSome (D.state disk.new).contents (Names side)) }
    ensures same { side ≡ was → D.state disk.new ≡ D.state disk.old }
    ensures touches { BothTell (Touches 0 1)
        (D.state disk.old).contents (D.state disk.new).contents }
    ensures called { Called (is_err result) (D.state disk.old) (D.state disk.new) }
{
    if side == was {
        return Ok(());
    }
    write_mark(disk, side)
}

// Makes the mark disk say that the mirror isn't clean, where it says that it is.
fn change_clean<D: Disk>(disk: &mut D, was: bool, is_clean: bool) -> Result<(), Failed>
    requires room { was ≡ true → 1 < (D.state disk.old).sectors }
    requires falls { is_clean ≡ true → was ≡ true }
    requires disk { IsDisk (D.state disk.old) }
    requires was { IfSome (D.state disk.old).contents (Says was) }
    ensures says { OnOk result (IfSome (D.state disk.new).contents (Says is_clean)) }
    ensures same { is_clean ≡ was → D.state disk.new ≡ D.state disk.old }
    ensures touches { BothTell (Touches 1 1)
        (D.state disk.old).contents (D.state disk.new).contents }
    ensures called { Called (is_err result) (D.state disk.old) (D.state disk.new) }
{
    if is_clean == was {
        return Ok(());
    }
    write_clean(disk, is_clean)
}

// Makes the mark disk know these names, where it knows others and has the room.
fn change_names<D: Disk>(disk: &mut D, was: &Named, names: &Named) -> Result<(), Failed>
    requires known { AreKnown names.now }
    requires disk { IsDisk (D.state disk.old) }
    requires was { IfSome (D.state disk.old).contents (KeepsNames was.now) }
    ensures names { OnOk result (2 < (D.state disk.old).sectors
        → IfSome (D.state disk.new).contents (KeepsNames names.now)) }
    ensures same { names.now ≡ was.now → D.state disk.new ≡ D.state disk.old }
    ensures touches { BothTell (Touches 2 1)
        (D.state disk.old).contents (D.state disk.new).contents }
    ensures called { Called (is_err result) (D.state disk.old) (D.state disk.new) }
{
    if names == was || disk.sectors() < 3 {
        return Ok(());
    }
    write_names(disk, names)
}

// Makes the mark disk name the side and say whether the mirror is clean.
fn write_found<D: Disk>(disk: &mut D, was: Found, found: Found) -> Result<(), Failed>
    requires room { 0 < (D.state disk.old).sectors }
    requires two { was.is_clean ≡ true → 1 < (D.state disk.old).sectors }
    requires side { found.side ≤ 1 }
    requires falls { found.is_clean ≡ true → was.is_clean ≡ true }
    requires disk { IsDisk (D.state disk.old) }
    requires named { IfSome (D.state disk.old).contents (Names was.side) }
    requires says { IfSome (D.state disk.old).contents (Says was.is_clean) }
    ensures named { OnOk result (IfSome (D.state disk.new).contents (Names found.side)) }
    ensures says { OnOk result (IfSome (D.state disk.new).contents (Says found.is_clean)) }
    ensures unclean { was.is_clean ≡ false
        → IfSome (D.state disk.new).contents (Says false) }
    ensures side_stays { found.side ≡ was.side → BothTell (StaysSector 0)
        (D.state disk.old).contents (D.state disk.new).contents }
    ensures clean_stays { found.is_clean ≡ was.is_clean → BothTell (StaysSector 1)
        (D.state disk.old).contents (D.state disk.new).contents }
    ensures touches { BothTell (Touches 0 2)
        (D.state disk.old).contents (D.state disk.new).contents }
    ensures called { Called (is_err result) (D.state disk.old) (D.state disk.new) }
{
    match change_side(disk, was.side, found.side) {
        Ok(()) => change_clean(disk, was.is_clean, found.is_clean),
        Err(Failed) => Err(Failed),
    }
}

// Makes the mark disk say all this. A name comes last: it is never kept while the mark disk says that
// a mirror is clean which no longer is.
fn write_words<D: Disk>(disk: &mut D, was: &Words, words: &Words) -> Result<(), Failed>
    requires room { 0 < (D.state disk.old).sectors }
    requires two { was.now.found.is_clean ≡ true → 1 < (D.state disk.old).sectors }
    requires side { words.now.found.side ≤ 1 }
    requires falls { words.now.found.is_clean ≡ true → was.now.found.is_clean ≡ true }
    requires known { AreKnown words.now.names }
    requires disk { IsDisk (D.state disk.old) }
    requires named { IfSome (D.state disk.old).contents (Names was.now.found.side) }
    requires says { IfSome (D.state disk.old).contents (Says was.now.found.is_clean) }
    requires names { IfSome (D.state disk.old).contents (KeepsNames was.now.names) }
    ensures holds { OnOk result (IfSome (D.state disk.new).contents
        (HoldsWords (D.state disk.old).sectors words.now)) }
    ensures spares { BothTell (Spares was.now words.now)
        (D.state disk.old).contents (D.state disk.new).contents }
    ensures safe { BothTell (WritesSafely was.now.found.is_clean words.now.found.is_clean)
        (D.state disk.old).contents (D.state disk.new).contents }
    ensures called { Called (is_err result) (D.state disk.old) (D.state disk.new) }
{
    match write_found(disk, was.found, words.found) {
        Ok(()) => change_names(disk, &was.names, &words.names),
        Err(Failed) => Err(Failed),
    }
}

/// Makes the mark disk say what holds of the sides that are named, before they are mounted.
pub fn settle_mark<D: Disk>(
    mark: &mut D,
    named: &Named,
    lead_other: bool,
) -> Result<(), MarkRefusal>
    ensures room { OnOk result (0 < (D.state mark.old).sectors) }
    ensures settles { OnOk result (BothTell
        (Settled named.now lead_other (D.state mark.old).sectors)
        (D.state mark.old).contents (D.state mark.new).contents) }
    ensures refused { IfErr result
        (λ e. RefusesMark e named.now lead_other (D.state mark.old) (D.state mark.new)) }
    ensures disk { Later (D.state mark.old) (D.state mark.new) }
    ensures others { BothTell (Touches 0 3)
        (D.state mark.old).contents (D.state mark.new).contents }
    ensures crash { BothTell (CrashesUnclean named.now lead_other)
        (D.state mark.old).contents (D.state mark.new).contents }
    ensures spares { BothTell (SparesOthers named.now lead_other)
        (D.state mark.old).contents (D.state mark.new).contents }
    ensures truly { (one two : DiskState) → SaysTruly one two (D.state mark.old)
        → SaysTruly one two (D.state mark.new) }
    ensures alike { (one two : DiskState) → TellAlike one two (D.state mark.old)
        → TellAlike one two (D.state mark.new) }
{
    if mark.sectors() == 0 {
        return Err(MarkRefusal::NoMark);
    }
    let words = match read_words(mark) {
        Ok(Some(words)) => words,
        Ok(None) => return Err(MarkRefusal::NotMark),
        Err(Failed) => return Err(MarkRefusal::Failed),
    };
    let after = match words_after(&words, named, lead_other) {
        Ok(after) => after,
        Err(refusal) => return Err(refusal),
    };
    match write_words(mark, &words, &after) {
        Ok(()) => Ok(()),
        Err(Failed) => Err(MarkRefusal::Failed),
    }
}
