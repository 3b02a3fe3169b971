//! The third sector of a mark disk, which says what the two sides are called.
ghost use Rattle.std.specs.Prelude.{◌≡◌, ◌<◌, IfOk, IfSome, OnOk, Some, is_err, length, replicate};
ghost use Rattle.aoe_disk.specs.State.{BothTell, IsDisk};
ghost use Rattle.aoe_disk.specs.Sectors.{Touches};
ghost use Rattle.aoe_mirror.specs.Names.{AreKnown, Called, IsKnown, KeepsNames, digest_in, is_head, is_third, name_after, names_after, names_at, names_in};

use crate::sides::are_zeros;
use aoe_base::{Failed, SECTOR_LEN};
use aoe_disk::Disk;

/// A digest of a name, such as its SHA-256.
pub type Digest = [u8; DIGEST_LEN];

const DIGEST_LEN: usize = 32;

/// The first byte of a third sector that knows a name.
const NAMED: u8 = 0x5a;

/// The number of the sector.
const THIRD: u64 = 2;

/// Digests of the names of side 0 and side 1. 32 zeros are no digest.
#[derive(Clone, Copy, Debug, PartialEq, Eq)]
pub struct Named {
    pub one: Option<Digest>,
    pub two: Option<Digest>,
}

// The digest that stands in these bytes, where one does.
#[tactic(auto, unfolding(crate::specs::Names::digest_in))]
fn digest_in(bytes: &[u8]) -> Option<Digest>
    requires { length bytes.now ≡ 32 }
    ensures digest { result ≡ digest_in bytes.now }
    ensures known { IsKnown result }
{
    if are_zeros(bytes) {
        return None;
    }
    let mut digest = [0; DIGEST_LEN];
    digest.copy_from_slice(bytes);
    Some(digest)
}

// Whether a third sector begins as one that knows a name does.
#[tactic(auto, unfolding(crate::specs::Names::is_head))]
fn is_head(head: &[u8]) -> bool
    requires { length head.now ≡ 32 }
    ensures { result ≡ is_head head.now }
{
    let (_, rest) = head.split_at(1);
    head[0] == NAMED && are_zeros(rest)
}

// Whether a third sector is one that knows a name.
#[tactic(auto, unfolding(crate::specs::Names::is_third))]
fn is_third(marked: &[u8]) -> bool
    requires { length marked.now ≡ 512 }
    ensures { result ≡ is_third marked.now }
{
    let (head, _) = marked.split_at(DIGEST_LEN);
    let (_, rest) = marked.split_at(3 * DIGEST_LEN);
    is_head(head) && are_zeros(rest)
}

/// The names that a third sector knows, where it is that of a mark disk.
#[tactic(auto, unfolding(crate::specs::Names::names_in))]
pub(crate) fn names_in(marked: &[u8]) -> Option<Named>
    requires { length marked.now ≡ 512 }
    ensures names { result ≡ names_in marked.now }
    ensures known { IfSome result AreKnown }
{
    if are_zeros(marked) {
        return Some(Named {
            one: None,
            two: None,
        });
    }
    if !is_third(marked) {
        return None;
    }
    Some(Named {
        one: digest_in(&marked[DIGEST_LEN..2 * DIGEST_LEN]),
        two: digest_in(&marked[2 * DIGEST_LEN..3 * DIGEST_LEN]),
    })
}

// Makes zeros a third sector that knows these digests, of which zeros are none.
fn put_digests(one: &[u8], two: &[u8], out: &mut [u8])
    requires one { length one.now ≡ 32 }
    requires two { length two.now ≡ 32 }
    requires out { out.old ≡ replicate 512 0 }
    ensures names { names_in out.new
        ≡ Some (record { one = digest_in one.now; two = digest_in two.now }) }
    ensures len { length out.new ≡ 512 }
{
    let (head_place, out) = out.split_at_mut(DIGEST_LEN);
    let (one_place, out) = out.split_at_mut(DIGEST_LEN);
    let (two_place, _) = out.split_at_mut(DIGEST_LEN);
    let mut head = [0; DIGEST_LEN];
    head[0] = NAMED;
    head_place.copy_from_slice(&head);
    one_place.copy_from_slice(one);
    two_place.copy_from_slice(two);
}

// The third sector that knows these names.
fn sector_of(names: &Named) -> [u8; SECTOR_LEN]
    requires { AreKnown names.now }
    ensures names { names_in result ≡ Some names.now }
    ensures len { length result ≡ 512 }
{
    let mut marked = [0; SECTOR_LEN];
    let one = names.one.unwrap_or([0; DIGEST_LEN]);
    let two = names.two.unwrap_or([0; DIGEST_LEN]);
    put_digests(&one, &two, &mut marked);
    marked
}

/// The names that a mark disk knows, where it is one. One with fewer than three sectors knows none.
pub(crate) fn read_names<D: Disk>(disk: &mut D) -> Result<Option<Named>, Failed>
    requires { IsDisk (D.state disk.old) }
    ensures names { IfOk result (λ names. IfSome (D.state disk.old).contents
        (λ c. names ≡ names_at c.bytes)) }
    ensures known { IfOk result (λ names. IfSome names AreKnown) }
    ensures same { (D.state disk.new).contents ≡ (D.state disk.old).contents }
    ensures called { Called (is_err result) (D.state disk.old) (D.state disk.new) }
{
    if disk.sectors() <= THIRD {
        return Ok(Some(Named {
            one: None,
            two: None,
        }));
    }
    let mut marked = [0; SECTOR_LEN];
    match disk.read(THIRD, &mut marked) {
        Ok(()) => Ok(names_in(&marked)),
        Err(Failed) => Err(Failed),
    }
}

/// Makes the mark disk know these names, so that a crash can't undo it.
pub(crate) fn write_names<D: Disk>(disk: &mut D, names: &Named) -> Result<(), Failed>
    requires room { 2 < (D.state disk.old).sectors }
    requires known { AreKnown names.now }
    requires disk { IsDisk (D.state disk.old) }
    ensures names { OnOk result (IfSome (D.state disk.new).contents (KeepsNames names.now)) }
    ensures touches { BothTell (Touches 2 1)
        (D.state disk.old).contents (D.state disk.new).contents }
    ensures called { Called (is_err result) (D.state disk.old) (D.state disk.new) }
{
    let marked = sector_of(names);
    match disk.write(THIRD, &marked) {
        Ok(()) => disk.sync(),
        Err(Failed) => Err(Failed),
    }
}

// The name that is kept of a side from now on.
fn name_after(kept: Option<Digest>, named: Option<Digest>) -> Option<Digest>
    requires { IsKnown kept }
    ensures name { result ≡ name_after kept named }
    ensures known { IsKnown result }
{
    match named {
        Some(named) => digest_in(&named),
        None => kept,
    }
}

/// The names that are kept from now on: those that are named, and of a side that is gone what was
/// kept.
pub(crate) fn names_after(kept: &Named, named: &Named) -> Named
    requires { AreKnown kept.now }
    ensures names { result ≡ names_after kept.now named.now }
    ensures known { AreKnown result }
{
    Named {
        one: name_after(kept.one, named.one),
        two: name_after(kept.two, named.two),
    }
}
