//! What a disk does.
ghost use Rattle.std.specs.Prelude.{◌≡◌, length};
ghost use Rattle.aoe_disk.specs.State.{DiskState, IsDisk};
ghost use Rattle.aoe_disk.specs.Calls.{IsRange, Reads, WritesTo, SyncsTo};

use aoe_base::Failed;

/// A device of sectors of 512 bytes, numbered from 0.
///
/// A sector that was written is *loose* until a sync that is Ok: a loss of power may leave anything
/// in it. A call that fails counts a fault. A loss of power within a call is that this call and all
/// later ones fail, and then a crash.
pub trait Disk {
    // Its size and faults, and its contents, its schedule of failures and its calls where it tells them.
    ghost state: { Self → DiskState };

    /// How many sectors the disk has, which never changes. This is no device call: it can't fail.
    fn sectors(&self) -> u64
        ensures count { result ≡ (state self.now).sectors }
        ensures disk { IsDisk (state self.now) };

    /// Fills `out`, whole sectors, with those from `at` on. Where the read fails `out` has any bytes.
    fn read(&mut self, at: u64, out: &mut [u8]) -> Result<(), Failed>
        requires { IsRange at (length out.old) (state self.old).sectors }
        ensures { Reads at (length out.old) result out.new (state self.old) (state self.new) };

    /// Writes `piece`, whole sectors, to those from `at` on. Where the write fails they have any
    /// bytes, and all others are as they were.
    fn write(&mut self, at: u64, piece: &[u8]) -> Result<(), Failed>
        requires { IsRange at (length piece.now) (state self.old).sectors }
        ensures { WritesTo at piece.now result (state self.old) (state self.new) };

    /// Brings what was written to the medium. Where the sync fails it may have done so in part.
    fn sync(&mut self) -> Result<(), Failed>
        ensures { SyncsTo result (state self.old) (state self.new) };
}
