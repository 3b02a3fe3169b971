//! What a store does.
ghost use Rattle.std.specs.Prelude.{◌≡◌, ◌/◌, Bool, Option, length, is_err};
ghost use Rattle.aoe_disk.specs.State.{BothTell, DiskState, IsDisk};
ghost use Rattle.aoe_disk.specs.Calls.{IsRange, Reads, SyncsTo};
ghost use Rattle.aoe_store.specs.Lasting.{StoresAs};
ghost use Rattle.aoe_store.specs.Under.{FreesUnder, ReadsUnder, SpendsUnder, Under};

use aoe_base::Failed;
use aoe_disk::Arm;

/// Exported sectors of 512 bytes, numbered from 0, over a disk: its calls are those of a
/// [`Disk`](aoe_disk::Disk), and fail only where the faults of that disk rose.
pub trait Store {
    // Its size and faults, and its contents, its schedule of failures and its calls where it tells them.
    ghost state: { Self → DiskState };

    // Whether a write that is Ok lasts: no crash changes it.
    ghost lasts: { Bool };

    // Of a store that writes later its disk, without what it holds back.
    ghost under: { Self → Option Under };

    /// How many sectors are exported, which never changes. This is no device call: it can't fail.
    fn sectors(&self) -> u64
        ensures count { result ≡ (state self.now).sectors }
        ensures disk { IsDisk (state self.now) };

    /// Fills `out`, whole sectors, with those from `at` on. Where the read fails `out` has any bytes.
    fn read(&mut self, at: u64, out: &mut [u8]) -> Result<(), Failed>
        requires { IsRange at (length out.old) (state self.old).sectors }
        ensures reads { Reads at (length out.old) result out.new (state self.old) (state self.new) }
        ensures under { BothTell (ReadsUnder (is_err result)) (under self.old) (under self.new) };

    /// Writes `piece`, whole sectors, to those from `at` on. Where the write fails each of them has any
    /// bytes and is loose, or is as it was, and all others are as they were. Of a store whose writes last
    /// none of the sectors is loose where it is Ok.
    fn write(&mut self, at: u64, piece: &[u8]) -> Result<(), Failed>
        requires { IsRange at (length piece.now) (state self.old).sectors }
        ensures stores { StoresAs lasts at piece.now result (state self.old) (state self.new) }
        ensures under { BothTell (SpendsUnder (length piece.now / 512) (is_err result)) (under self.old) (under self.new) };

    /// Brings what was written to the medium. Where the sync fails it may have done so in part.
    fn sync(&mut self) -> Result<(), Failed>
        ensures syncs { SyncsTo result (state self.old) (state self.new) }
        ensures under { BothTell (FreesUnder (is_err result) (state self.old).contents) (under self.old) (under self.new) };
}

/// A store whose disk can be armed to fail.
pub trait ArmedStore: Store {
    ghost use Rattle.std.specs.Prelude.{◌≡◌, ◌<◌, IfSome};
    ghost use Rattle.aoe_disk.specs.Arming.{number_of, ArmsTo};
    ghost use Rattle.aoe_disk.specs.State.{BothTell};
    ghost use Rattle.aoe_store.specs.Under.{ArmsUnder};

    /// Arms the disk, in place of what was armed before.
    fn arm(&mut self, arm: Arm)
        requires { 0 < number_of arm }
        ensures arms { ArmsTo arm (Self.state self.old) (Self.state self.new) }
        ensures under { BothTell (ArmsUnder arm) (Self.under self.old) (Self.under self.new) };

    /// Whether a stop was reached.
    fn is_out(&self) -> bool
        ensures { IfSome (Self.state self.now).schedule (λ schedule. result ≡ schedule.out) };
}
