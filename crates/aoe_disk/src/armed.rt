//! A disk whose failures can be planned.
ghost use Rattle.std.specs.Prelude.{◌<◌, Bool, List};
ghost use Rattle.aoe_disk.specs.State.{DiskState};
ghost use Rattle.aoe_disk.specs.Arming.{number_of, IsArmed, Calls, FailsFrom};
ghost use Rattle.aoe_disk.specs.declared.armed.Arm.{Arm};

use crate::Disk;

/// Which coming device call is to fail, counted from 1.
#[derive(Clone, Copy, PartialEq, Eq)]
pub enum Arm {
    /// This call, and no other.
    Fail(u32),
    /// This call and all later ones, as at a loss of power.
    Stop(u32),
}

/// A disk that can be armed to fail.
pub trait Armed: Disk {
    ghost use Rattle.std.specs.Prelude.{◌≡◌, ◌<◌, IfSome};
    ghost use Rattle.aoe_disk.specs.Arming.{number_of, ArmsTo};

    /// Arms the disk, in place of what was armed before.
    fn arm(&mut self, arm: Arm)
        requires { 0 < number_of arm }
        ensures { ArmsTo arm (Self.state self.old) (Self.state self.new) };

    /// Whether a stop was reached.
    fn is_out(&self) -> bool
        ensures { IfSome (Self.state self.now).schedule (λ schedule. result ≡ schedule.out) };
}

/// A law: an armed disk fails the calls that it is armed to fail, and no others. After `Fail(k)` that
/// is the k-th call alone, after `Stop(k)` the k-th and all later ones.
pub fn armed_calls_fail()
    ensures { (arm : Arm) (calls : List Bool) (old new : DiskState) → 0 < number_of arm → IsArmed arm old
        → Calls calls old new → FailsFrom 1 arm calls }
{}
