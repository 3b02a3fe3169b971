//! One slot over two disks, which outlives a failure of either.
//!
//! A [`Mirror`] is two disks, its sides 0 and 1, as a [`Store`](aoe_store::Store). One side leads:
//! the mirror has its sectors. The other follows, with a mark for each sector that may differ from
//! the lead's, a *stale* one. A third disk, the mark disk, says by its first sector which side
//! leads: side 0 by 512 zeros, side 1 by 0xA7 and zeros. Its second sector says that the mirror is
//! *clean*, both sides equal and synced, by 0xC3 and zeros; 512 zeros or no second sector, that this
//! isn't known. Its third sector keeps digests of what the sides are called: 0x5A and 31 zeros, 32
//! bytes for side 0, 32 for side 1, and zeros; 32 zeros are no digest, and 512 zeros or no third sector
//! keep none. The calls come in this order:
//!
//! 1. [`settle_mark`] compares the names of the disks that are there with those that are kept, and makes
//!    the mark disk say what follows: which side leads, that the mirror isn't clean where one of them is
//!    new or gone, and the new names. It refuses a side that was the other one; and where the side that
//!    led is new or gone, one that may lack some of its sectors, unless that is told to lead: the other
//!    one if the mirror wasn't clean, and a new one that is there alone. A caller that knows no names
//!    leaves this out. [`read_mark`] only reads what the mark disk says.
//! 2. [`Mirror::mount`] takes the three disks and all the memory that the mirror will ever use.
//!    Every sector of the side that follows is stale then, since nothing tells what it missed; none
//!    of a clean mirror. Where the mirror can't be mounted it returns the disks.
//! 3. [`Mirror::resync_all`] copies each run of stale sectors, also after one of which the copy
//!    fails; [`Mirror::resync`] copies one, and goes round.
//! 4. `read` reads the lead, and the other side where that fails and nothing is stale there.
//!    `write` and `sync` do both sides. Where the follower fails, what it missed is stale. Where
//!    the lead fails and nothing is stale, the other side leads from then on, as soon as the mark
//!    disk says so. A `sync` that is Ok ends with one `resync`.
//! 5. [`note`] tells a [`MirrorWatch`] which side leads and whether the other has all sectors,
//!    where that isn't as it was told: just what changed (`TellsChanges`).
//! 6. [`Mirror::mark_clean`] makes the mark disk say that the mirror is clean, after a sync that
//!    left nothing stale. The next write takes that back, synced, before it changes a side.
//! 7. [`Mirror::close`] returns the disks. Sync before.
//!
//! A bit for each sector is held, so a disk of 1 TB takes 244 MB, and one of 2^40 sectors 128 GB,
//! which an allocator may refuse. A copy of 64 sectors goes through 32 kB that are taken at the
//! mounting.
//!
//! It doesn't keep the stale marks on a disk, so a mounting copies all of the lead unless the mirror is
//! clean. It makes a failed call no second time, doesn't compare the sides, and doesn't tell a side that
//! is wrong from one that is right where both answer. So it can't know of a side that somebody else
//! changed or replaced between two runs under the same name while the mark disk says that the mirror is
//! clean: whoever does that has to zero the second sector. No two of the three disks may be one.
//!
//! Whether the mirror is clean stands in a sector of its own: a takeover writes the first one while the
//! sides differ, and a crash in that call may leave any bytes there. The second is written only while
//! they are equal, and by `settle_mark`, before it keeps another name.
//!
//! Promised: the calls are those of a store over `shown`: the lead's sectors, each of which is the
//! same on both sides where it isn't stale (`Agree`). A sector gets stale only where the side failed
//! that follows then, or the lead while others were stale (`Keeps`). A read fails only by
//! `ReadCause`, a write or a sync only by `Cause`; after Ok the mark disk names the lead. `resync_all` leaves at most 64
//! stale sectors for each failure (`CopiesAll`), and an Ok sync ends with the copy of a run
//! (`SyncsAndCopies`). After a crash of all three disks the side that the mark disk names has the
//! mirror's bytes in each sector that isn't loose (`Survives`), and a mark disk that says that the mirror
//! is clean has equal sides (`CrashesTruly`); so `mount` may ask for that (`SaysTruly`). A disk that `failed` names did fail
//! (`Blames`), and no call of a lower one did (`IsLowest`). A refused mounting names its cause (`Refuses`) and
//! leaves the sides; a mark disk that holds no mark is refused and stays, whatever memory there is, and one that was written holds a mark (`Names`).
//!
//! Of `settle_mark`: what the mark disk says afterwards, also after a crash, or why it is refused, is
//! just what `words_after` says of what it said, of the names and of `lead_other` (`Settled`,
//! `RefusesMark`); a refused one stays. It says that a mirror is clean only where it did, and what a
//! crash leaves amid the call does so only with the names that were kept, where it is to say so no more
//! (`CrashesUnclean`). A sector that is to say what it said isn't written (`Spares`). So it leaves what
//! `mount` asks for (`truly`, `alike`).
//!
//! Only tested: worked runs in which each side fails once, and a loss of power at each call of
//! `settle_mark` (`mirror` and `mark` of aoe_shelf_tests); files that are full, limited or taken away, and
//! losses of power (`tests/mirror`, `tests/power-loss`).
#![tactic(auto)]

mod clean;
mod marks;
mod mirror;
mod names;
mod refusal;
mod settle;
mod sides;
mod watch;

pub use clean::Found;
pub use mirror::{Mirror, read_mark};
pub use names::{Digest, Named};
pub use refusal::MirrorRefusal;
pub use settle::{MarkRefusal, settle_mark};
pub use watch::{MirrorEvent, MirrorWatch, Standing, note};
