//! The device calls of a disk: how many were made, how many failed, and which are to fail.
ghost use Rattle.std.specs.Prelude.{◌≡◌, ◌≤◌, None, false};
ghost use Rattle.std.specs.Bool.{OnTrue};
ghost use Rattle.aoe_base.specs.Faults.{Rose};
ghost use Rattle.aoe_disk.specs.Calls.{MovesOn};
ghost use Rattle.aoe_disk.specs.Memory.{schedule_of, next_count, IsArming, IsAdvance};

use crate::Arm;

/// Counts calls and faults, and fails the calls that it is armed to fail.
#[derive(Drop)]
pub struct Meter {
    /// The coming call that is to fail, counted from 1.
    pub arming: Option<Arm>,
    /// Whether a stop was reached: `Stop(1)` is armed from then on.
    pub out: bool,

    pub faults: u64,
    pub calls: u64,
}

impl Meter {
    /// Nothing was called, and nothing is armed.
    pub fn new() -> Meter
        ensures { result ≡ record { arming = None; out = false; faults = 0; calls = 0 } }
    {
        Meter {
            arming: None,
            out: false,
            faults: 0,
            calls: 0,
        }
    }

    /// Takes one call off what is armed, and says whether that call is to fail.
    fn advance(&mut self) -> bool
        requires { IsArming self.old.arming self.old.out }
        ensures arming { IsArming self.new.arming self.new.out }
        ensures advance { IsAdvance result self.old.arming self.old.out self.new.arming self.new.out }
        ensures faults { self.new.faults ≡ self.old.faults }
        ensures calls { self.new.calls ≡ self.old.calls }
    {
        match self.arming {
            None => false,
            Some(Arm::Fail(1)) => {
                self.arming = None;
                true
            }
            Some(Arm::Fail(k)) => {
                self.arming = Some(Arm::Fail(k - 1));
                false
            }
            Some(Arm::Stop(1)) => {
                self.out = true;
                true
            }
            Some(Arm::Stop(k)) => {
                self.arming = Some(Arm::Stop(k - 1));
                false
            }
        }
    }

    /// Counts one device call, and says whether it fails.
    pub fn fails(&mut self) -> bool
        requires { IsArming self.old.arming self.old.out }
        ensures arming { IsArming self.new.arming self.new.out }
        ensures moves { MovesOn 1 result self.old.faults self.new.faults
            (schedule_of self.old.arming self.old.out) (schedule_of self.new.arming self.new.out) }
        ensures later { self.old.faults ≤ self.new.faults }
        ensures cause { OnTrue result (Rose self.old.faults self.new.faults) }
        ensures calls { self.new.calls ≡ next_count self.old.calls }
    {
        self.calls = self.calls.saturating_add(1);
        let fails = self.advance();
        if fails {
            self.faults = self.faults.saturating_add(1);
        }
        fails
    }
}
