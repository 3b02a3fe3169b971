//! Shelves and hosts on one network, and each act in it.
ghost use Rattle.std.specs.Prelude.{◌≡◌, ◌≢◌, ◌+◌, ◌-◌, ◌<◌, ◌≤◌, ◌^◌, ℕ, List, length, Option, Some, slice_get, is_some, nat_eq, position, true, false, IfNone, IfSome, IsSomeAnd, MatchOption};
ghost use Rattle.arrayvec.specs.ArrayVec.{ArrayVec};
ghost use Rattle.aoe_base.specs.Sizes.{longest_frame};
ghost use Rattle.aoe_frame.specs.Header.{fields};
ghost use Rattle.aoe_history.specs.Frames.{arriving, clock};
ghost use Rattle.aoe_history.specs.Groups.{Got, Station};
ghost use Rattle.aoe_history.specs.Groups.Act.{Arm, Crash, Hand, Inject, Lose, Submit, Tick};
ghost use Rattle.aoe_history.specs.Groups.Station.{Shelf as ShelfStation, Host as HostStation};
ghost use Rattle.aoe_history.specs.Setup.{is_port, Setup};
ghost use Rattle.aoe_initiator.specs.HostLaw.{same_id};
ghost use Rattle.aoe_initiator.specs.Op.{CanSubmit};
ghost use Rattle.aoe_world.specs.Acts.{named, CanAct, IsForeign};
ghost use Rattle.aoe_world.specs.Sim.{Does, IsAt, IsEntered, IsInside, IsNetwork, IsReady, IsTurning, Settles};

use crate::act::{Act, At};
use aoe_base::{Blob, FrameNo, TargetId};
use aoe_disk::Loss;
use aoe_frame::{Frame, refill};
use aoe_history::{Entry, Run};
use aoe_initiator::Op;
use aoe_net::NetRefusal;
use aoe_script::Which;
use aoe_sim_hosts::SimHost;
use aoe_sim_shelves::SimShelf;

/// A run, its shelves and its hosts, each in the order of their lines.
#[derive(Drop)]
pub(crate) struct Sim {
    pub(crate) run: Run,
    pub(crate) shelves: Vec<SimShelf>,
    pub(crate) hosts: Vec<SimHost>,

    /// The frame that is handed over.
    pub(crate) frame: Frame,

    /// The frame that a station makes.
    pub(crate) made: Frame,
}

/// The slot with a minor.
fn slot_with(shelf: &SimShelf, minor: u8) -> Option<usize>
    ensures found { IfSome result (λ i. IsSomeAnd (slice_get shelf.now.shelf.targets i)
        (λ t. t.station.id.minor ≡ minor)) }
    ensures none { IfNone result ((i : ℕ) → IfSome (slice_get shelf.now.shelf.targets i)
        (λ t. t.station.id.minor ≢ minor)) }
{
    'slots: for slot in 0..shelf.count() {
        if shelf.id(slot).minor == minor {
            return Some(slot);
        }
    }
    None
}

impl Sim {
    /// Makes an act happen: what it enters into the history, and then the turn of each host.
    pub(crate) fn act(&mut self, act: Act) -> Result<(), NetRefusal>
        requires { CanAct act self.old }
        ensures { (s : Setup) (majors : List ℕ) → IsNetwork s majors → IsReady s majors self.old → IsForeign s act
            → Does result s majors (named s majors act) self.old self.new }
    {
        self.enter(act)?;
        self.settle()
    }

    /// What an act enters into the history.
    fn enter(&mut self, act: Act) -> Result<(), NetRefusal>
        requires { CanAct act self.old }
        ensures { (s : Setup) (majors : List ℕ) → IsNetwork s majors → IsReady s majors self.old → IsForeign s act
            → IsEntered result s majors (named s majors act) self.old self.new }
    {
        match act {
            Act::Submit { host, dev, op } => self.submit(host, dev, op),
            Act::Tick { ms } => self.tick(ms),
            Act::Inject { bytes } => self.inject(&bytes),
            Act::Arm {
                shelf,
                slot,
                which,
                k,
                mode,
            } => self.arm(shelf, slot, which, k, mode),
            Act::Crash { shelf, how } => self.crash(shelf, how),
            Act::Hand { frame, to } => self.hand(frame, to),
            Act::Lose { frame } => self.lose(frame),
        }
    }

    /// The turn of each host in their order.
    fn settle(&mut self) -> Result<(), NetRefusal>
        ensures { (s : Setup) (majors : List ℕ) (got : Option Got) → IsNetwork s majors → IsTurning s majors got 0 self.old
            → Settles result s majors got self.old self.new }
    {
        'hosts: for i in 0..self.hosts.len() {
            match self.hosts[i].turn(&mut self.run, &mut self.made) {
                Ok(()) => {}
                Err(refusal) => return Err(refusal),
            }
        }
        Ok(())
    }

    fn submit(&mut self, host: usize, dev: TargetId, op: Op) -> Result<(), NetRefusal>
        requires there { host < length self.old.hosts.items }
        requires attached { IfSome (slice_get self.old.hosts.items host)
            (λ x. is_some (position (λ d. same_id d.about.id dev) x.core.devices) ≡ true) }
        requires few { IfSome (slice_get self.old.hosts.items host)
            (λ x. x.core.last_ticket < 2 ^ 64 - 1) }
        requires allowed { CanSubmit op }
        ensures { (s : Setup) (majors : List ℕ) (name : ArrayVec ℕ) → IsNetwork s majors → IsReady s majors self.old
            → IsAt s majors (At.Host host) (HostStation name) → IsEntered result s majors (Submit name dev op) self.old self.new }
    {
        self.hosts[host].submit(&mut self.run, dev, op)?;
        Ok(())
    }

    fn tick(&mut self, ms: u64) -> Result<(), NetRefusal>
        requires { clock self.old.run.entries + ms < 2 ^ 64 }
        ensures { (s : Setup) (majors : List ℕ) → IsNetwork s majors → IsReady s majors self.old
            → IsEntered result s majors (Tick ms) self.old self.new }
    {
        self.run.tick(ms)?;
        Ok(())
    }

    fn inject(&mut self, frame: &Blob) -> Result<(), NetRefusal>
        requires { length frame.now ≤ longest_frame }
        ensures { (s : Setup) (majors : List ℕ) → IsNetwork s majors → IsReady s majors self.old → is_port s (fields frame.now).src ≡ false
            → IsEntered result s majors (Inject frame.now) self.old self.new }
    {
        self.run.inject(frame.bytes())
    }

    fn arm(
        &mut self,
        shelf: usize,
        slot: usize,
        which: Which,
        k: u64,
        mode: Option<Loss>,
    ) -> Result<(), NetRefusal>
        requires shelf { shelf < length self.old.shelves.items }
        requires slot { IfSome (slice_get self.old.shelves.items shelf)
            (λ x. slot < length x.shelf.targets) }
        requires from_one { 0 < k }
        requires most { k ≤ 1000 }
        ensures { (s : Setup) (majors : List ℕ) → IsNetwork s majors → IsReady s majors self.old
            → IfSome (slice_get self.old.shelves.items shelf) (λ x. IfSome (slice_get x.shelf.targets slot)
            (λ t. IsEntered result s majors (Arm t.station.id which k mode) self.old self.new)) }
    {
        self.shelves[shelf].arm(&mut self.run, slot, which, k, mode)?;
        Ok(())
    }

    fn crash(&mut self, shelf: usize, how: Loss) -> Result<(), NetRefusal>
        requires { shelf < length self.old.shelves.items }
        ensures { (s : Setup) (majors : List ℕ) (major : ℕ) → IsNetwork s majors → IsReady s majors self.old
            → slice_get majors shelf ≡ Some major → IsEntered result s majors (Crash major how) self.old self.new }
    {
        self.shelves[shelf].crash(&mut self.run, how)?;
        Ok(())
    }

    fn lose(&mut self, frame: FrameNo) -> Result<(), NetRefusal>
        ensures { (s : Setup) (majors : List ℕ) → IsNetwork s majors → IsReady s majors self.old
            → IsEntered result s majors (Lose frame.0) self.old self.new }
    {
        self.run.note(Entry::Lost {
            frame: u64::from(frame.0),
        })?;
        Ok(())
    }

    /// Hands a frame over, or loses it where it can't be handed over any more.
    fn hand(&mut self, frame: FrameNo, to: At) -> Result<(), NetRefusal>
        requires { IsInside to self.old }
        ensures { (s : Setup) (majors : List ℕ) (station : Station) → IsNetwork s majors → IsReady s majors self.old → IsAt s majors to station
            → IsEntered result s majors (Hand frame.0 station) self.old self.new }
    {
        if !self.fetch(frame) {
            return self.lose(frame);
        }
        match to {
            At::Shelf(i) => self.hand_to_shelf(frame, i),
            At::Host(i) => self.hand_to_host(frame, i),
        }
    }

    /// Makes the frame with a number the one that is handed over, where it can be.
    fn fetch(&mut self, number: FrameNo) -> bool
        ensures fetched { result ≡ true → arriving self.old.run.life self.old.run.entries number.0
            ≡ Some self.new.frame.items }
        ensures none { result ≡ false → arriving self.old.run.life self.old.run.entries number.0
            ≡ None }
        ensures same { self.new ≡ record self.old { frame = self.new.frame } }
    {
        let Some(frame) = self.run.fetch(number) else {
            return false;
        };
        refill(&mut self.frame, frame);
        true
    }

    fn hand_to_shelf(&mut self, number: FrameNo, i: usize) -> Result<(), NetRefusal>
        requires { i < length self.old.shelves.items }
        ensures { (s : Setup) (majors : List ℕ) (major : ℕ) → IsNetwork s majors → IsReady s majors self.old → slice_get majors i ≡ Some major
            → arriving self.old.run.life self.old.run.entries number.0 ≡ Some self.old.frame.items
            → IsEntered result s majors (Hand number.0 (ShelfStation major)) self.old self.new }
    {
        self.shelves[i].arrive(&mut self.run, number, &self.frame, &mut self.made)
    }

    fn hand_to_host(&mut self, number: FrameNo, i: usize) -> Result<(), NetRefusal>
        requires { i < length self.old.hosts.items }
        ensures { (s : Setup) (majors : List ℕ) (name : ArrayVec ℕ) → IsNetwork s majors → IsReady s majors self.old
            → IsAt s majors (At.Host i) (HostStation name)
            → arriving self.old.run.life self.old.run.entries number.0 ≡ Some self.old.frame.items
            → IsEntered result s majors (Hand number.0 (HostStation name)) self.old self.new }
    {
        self.hosts[i].take(&mut self.run, number, &self.frame)?;
        Ok(())
    }

    /// The place of the shelf with a number.
    fn shelf_with(&self, major: u16) -> Option<usize>
        ensures { result ≡ position
            (λ shelf. nat_eq shelf.shelf.major major) self.now.shelves.items }
    {
        self.shelves.iter().position(|shelf| shelf.major() == major)
    }

    /// The place of the shelf of a slot, and in it that of the slot.
    pub(crate) fn slot_of(&self, dev: TargetId) -> Option<(usize, usize)>
        ensures shelf { IfSome result (λ at. position
            (λ shelf. nat_eq shelf.shelf.major dev.major) self.now.shelves.items ≡ Some at.0) }
        ensures slot { IfSome result (λ at. IsSomeAnd (slice_get self.now.shelves.items at.0)
            (λ x. IsSomeAnd (slice_get x.shelf.targets at.1) (λ t. t.station.id.minor ≡ dev.minor))) }
        ensures none { IfNone result (MatchOption (position (λ shelf. nat_eq shelf.shelf.major dev.major) self.now.shelves.items) (Unit {0})
            (λ i. IfSome (slice_get self.now.shelves.items i) (λ x. (j : ℕ) → IfSome (slice_get x.shelf.targets j) (λ t. t.station.id.minor ≢ dev.minor)))) }
    {
        let Some(shelf) = self.shelf_with(dev.major) else {
            return None;
        };
        let Some(slot) = slot_with(&self.shelves[shelf], dev.minor) else {
            return None;
        };
        Some((shelf, slot))
    }
}
