//! A medium as a link.
ghost use Rattle.std.specs.Prelude.{◌≡◌, ◌≤◌, ◌+◌, ◌∷◌, List, [], None, Ok, drop, IfOk, IfSome, OnOk, OnErr};
ghost use Rattle.std.specs.Option.{option_map};
ghost use Rattle.aoe_base.specs.Faults.{Rose};
ghost use Rattle.aoe_io.specs.Link.{Added, GaveTurns, next_of, turn_of};
ghost use Rattle.aoe_io.specs.Memory.{counted};
ghost use Rattle.aoe_wire.specs.Calls.{Giving, Taking};
ghost use Rattle.aoe_wire.specs.Sends.{GivesEach};
ghost use Rattle.aoe_wire.specs.Turns.{IsTurn};

use crate::medium::Medium;
use crate::send::give_each;
use crate::turn::take_turn;
use aoe_base::Failed;
use aoe_frame::Frame;
use aoe_io::{Got, Link};

/// A link over a medium: it sends each frame to all of its peers, and takes frames from anyone.
#[derive(Drop)]
pub struct WireLink<M> {
    medium: M,

    /// How many peers there are.
    peers: usize,

    turns: u64,
    faults: u64,
}

impl<M: Medium> WireLink<M> {
    /// A link over a medium with so many peers.
    pub fn new(medium: M, peers: usize) -> WireLink<M>
        ensures { result ≡ record { medium = medium; peers = peers; turns = 0; faults = 0 } }
    {
        WireLink {
            medium,
            peers,
            turns: 0,
            faults: 0,
        }
    }

    /// What carries its frames.
    pub fn medium(&self) -> &M
        ensures { result.now ≡ self.now.medium }
    {
        &self.medium
    }

    /// Counts a fault.
    fn fail(&mut self) -> Failed
        ensures rose { Rose self.old.faults self.new.faults }
        ensures one { self.new.faults ≤ self.old.faults + 1 }
        ensures count { self.old.faults ≤ self.new.faults }
        ensures turns { self.new.turns ≡ self.old.turns }
        ensures medium { self.new.medium ≡ self.old.medium }
    {
        self.faults = self.faults.saturating_add(1);
        Failed
    }
}

impl<M: Medium> Link for WireLink<M> {
    ghost given = { λ _. None };

    ghost taken = { λ _. None };

    ghost coming = { λ _. None };

    ghost turns = { λ l. l.turns };

    ghost faults = { λ l. l.faults };

    fn send(&mut self, frame: &[u8]) -> Result<(), Failed>
        ensures turns { self.new.turns ≡ self.old.turns }
        ensures count { self.old.faults ≤ self.new.faults }
        ensures cause { OnErr result (Rose self.old.faults self.new.faults) }
        ensures no_fault { OnOk result (self.new.faults ≡ self.old.faults) }
        ensures one_fault { self.new.faults ≤ self.old.faults + 1 }
        ensures gives { (givings : List Giving) × Added (M.givings self.old.medium) (M.givings self.new.medium) givings
            × GivesEach self.old.peers frame.now result givings }
        ensures untaken { M.takings self.new.medium ≡ M.takings self.old.medium }
    {
        match give_each(&mut self.medium, self.peers, frame) {
            Ok(()) => Ok(()),
            Err(Failed) => Err(self.fail()),
        }
    }

    fn recv(&mut self, out: &mut Frame) -> Result<Got, Failed>
        ensures turns { OnOk result (self.new.turns ≡ counted self.old.turns) }
        ensures passing { self.old.turns ≤ self.new.turns }
        ensures err_turns { OnErr result (self.new.turns ≡ self.old.turns) }
        ensures count { self.old.faults ≤ self.new.faults }
        ensures cause { OnErr result (Rose self.old.faults self.new.faults) }
        ensures no_fault { OnOk result (self.new.faults ≡ self.old.faults) }
        ensures one_fault { self.new.faults ≤ self.old.faults + 1 }
        ensures turn { (takings : List Taking) × Added (M.takings self.old.medium) (M.takings self.new.medium) takings
            × IsTurn result out.new.items takings }
        ensures ungiven { M.givings self.new.medium ≡ M.givings self.old.medium }
    {
        match take_turn(&mut self.medium, out) {
            Ok(got) => {
                self.turns = self.turns.saturating_add(1);
                Ok(got)
            }
            Err(Failed) => Err(self.fail()),
        }
    }
}
