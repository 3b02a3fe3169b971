//! The second sector of a mark disk, which says whether both sides are equal.
ghost use Rattle.std.specs.Prelude.{◌≡◌, ◌<◌, IfSome, OnOk, Some, is_err, length};
ghost use Rattle.aoe_disk.specs.State.{BothTell, IsDisk};
ghost use Rattle.aoe_disk.specs.Calls.{IsRun};
ghost use Rattle.aoe_disk.specs.Sectors.{Touches};
ghost use Rattle.aoe_mirror.specs.Clean.{KeepsName, Says, clean_in};

use crate::sides::are_zeros;
use aoe_base::{Failed, SECTOR_LEN};
use aoe_disk::Disk;

/// The first byte of the second sector of a mark disk where the mirror is clean. Where that isn't
/// known it is 0, and all other bytes of both are 0.
const CLEAN: u8 = 0xc3;

/// What was found on a mark disk: the side that leads, and whether the mirror is clean.
#[derive(Clone, Copy)]
pub struct Found {
    pub side: u8,
    pub is_clean: bool,
}

/// What a second sector of a mark disk says, where it is one: whether the mirror is clean.
#[tactic(auto, unfolding(crate::specs::Clean::clean_in))]
pub(crate) fn clean_in(marked: &[u8]) -> Option<bool>
    requires { length marked.now ≡ 512 }
    ensures { result ≡ clean_in marked.now }
{
    let (_, rest) = marked.split_at(1);
    if !are_zeros(rest) {
        return None;
    }
    if marked[0] == CLEAN {
        Some(true)
    } else if marked[0] == 0 {
        Some(false)
    } else {
        None
    }
}

// The sector that says whether the mirror is clean.
fn sector_of(clean: bool) -> [u8; SECTOR_LEN]
    ensures says { clean_in result ≡ Some clean }
    ensures len { length result ≡ 512 }
{
    let mut marked = [0; SECTOR_LEN];
    if clean {
        marked[0] = CLEAN;
        return marked;
    }
    marked
}

/// Makes the mark disk say whether the mirror is clean, so that a crash can't undo it.
pub(crate) fn write_clean<D: Disk>(disk: &mut D, clean: bool) -> Result<(), Failed>
    requires room { 1 < (D.state disk.old).sectors }
    requires disk { IsDisk (D.state disk.old) }
    ensures run { IsRun 2 (is_err result) (D.state disk.old) (D.state disk.new) }
    ensures says { OnOk result (IfSome (D.state disk.new).contents (Says clean)) }
    ensures name { KeepsName (D.state disk.old) (D.state disk.new) }
    ensures touches { BothTell (Touches 1 1)
        (D.state disk.old).contents (D.state disk.new).contents }
{
    let marked = sector_of(clean);
    match disk.write(1, &marked) {
        Ok(()) => disk.sync(),
        Err(Failed) => Err(Failed),
    }
}
