//! A world whose lines are recorded, and whose frames go out on links.
ghost use Rattle.std.specs.Prelude.{ℕ, ◌≡◌, ◌≤◌, ◌+◌, ◌-◌, ◌++◌, ◌∷◌, [], drop, length, option_map, true, Err, IfErr, IfSome, None, OnErr, OnOk, Ok};
ghost use Rattle.std.specs.Option.{option_to_list};
ghost use Rattle.aoe_base.specs.Faults.{Rose};
ghost use Rattle.aoe_io.specs.Link.{Added};
ghost use Rattle.aoe_script.specs.Rules.{event_why};
ghost use Rattle.aoe_live.specs.Frames.{frame_by};
ghost use Rattle.aoe_live.specs.Lines.{is_recorded, Carries, LineComes};
ghost use Rattle.aoe_live.specs.Recorder.{is_link, refusal_of, Fails, Follows, IsKept, IsShort};
ghost use Rattle.aoe_live.specs.Stations.{stations};
ghost use Rattle.aoe_live.specs.Steps.{links, Blames, Steps};
ghost use Rattle.aoe_live.specs.Tally.{tally_of};

use crate::frames::{Sender, frame_by};
use crate::refusal::LiveRefusal;
use crate::tally::Tally;
use aoe_base::{Failed, NoMemory};
use aoe_history::Entry;
use aoe_io::Link;
use aoe_script::{Event, MAX_EVENTS, Script};
use aoe_world::{World, WorldRefusal};

/// A world and the script of its steps. The link `one` is that of the shelf, `two` that of the host.
#[derive(Drop)]
pub(crate) struct Recorder<'a> {
    pub(crate) sectors: u64,

    /// How many commands stand before the flush.
    pub(crate) commands: u32,

    /// The lines that were recorded.
    pub(crate) script: Script,

    pub(crate) world: World<'a>,

    /// How many entries of the history were looked at, and what they say.
    pub(crate) told: usize,
    pub(crate) tally: Tally,
}

/// Why a run ends whose world goes no further.
fn stopped(refusal: WorldRefusal) -> LiveRefusal
    ensures { result ≡ refusal_of refusal }
{
    match refusal {
        WorldRefusal::NoMemory => LiveRefusal::NoMemory,
        WorldRefusal::NetFull {
            limit,
            frames,
            bytes,
        } => LiveRefusal::Full {
            limit,
            frames,
            bytes,
        },
    }
}

/// Sends the frame of an entry, where it is one of this sender.
fn send_of<L: Link>(sender: Sender, entry: &Entry, link: &mut L) -> Result<(), Failed>
    ensures took { OnOk result (Added (L.taken link.old) (L.taken link.new)
        (option_to_list (option_map (λ f. f.bytes) (frame_by sender entry.now)))) }
    ensures given { L.given link.new ≡ L.given link.old }
    ensures turns { L.turns link.new ≡ L.turns link.old }
    ensures count { L.faults link.old ≤ L.faults link.new }
    ensures cause { OnErr result (Rose (L.faults link.old) (L.faults link.new)) }
    ensures no_fault { OnOk result (L.faults link.new ≡ L.faults link.old) }
    ensures one_fault { L.faults link.new ≤ L.faults link.old + 1 }
{
    match frame_by(sender, entry) {
        Some(frame) => link.send(frame),
        None => Ok(()),
    }
}

impl Recorder<'_> {
    /// Records a line with which nothing is wrong, and lets it come.
    fn record(&mut self, event: Event) -> Result<(), LiveRefusal>
        requires follows { Follows self.old.sectors self.old.script self.old.world }
        requires good { event_why (stations self.old.sectors) event ≡ None }
        requires recorded { is_recorded event ≡ true }
        requires short { IsShort event }
        ensures follows { OnOk result (Follows self.old.sectors self.new.script self.new.world) }
        ensures comes { OnOk result
            (LineComes self.old.sectors event self.old.world.entries self.new.world.entries) }
        ensures line { OnOk result (self.new.script.events ≡ self.old.script.events ++ event ∷ []) }
        ensures fails { IfErr result (λ refusal. Fails self.old.sectors refusal self.old.script.events event self.old.world.entries self.new.world.entries) }
        ensures stopped { IfSome self.new.world.refused
            (λ refusal. result ≡ Err (refusal_of refusal)) }
        ensures no_fault { (link : ℕ) → result ≡ Err (LiveRefusal.LinkFault link) → ⊥ }
        ensures rest { self.new
            ≡ record self.old { script = self.new.script; world = self.new.world } }
    {
        if self.script.count() >= MAX_EVENTS {
            return Err(LiveRefusal::TooMany);
        }
        match self.world.step(&event) {
            Ok(()) => {}
            Err(refusal) => return Err(stopped(refusal)),
        }
        match self.script.push(event) {
            Ok(()) => Ok(()),
            Err(refusal) => match refusal.memory_alone() {
                NoMemory => Err(LiveRefusal::NoMemory),
            },
        }
    }

    /// Sends the frames of the entries that came since it was called last.
    fn pass_on<L: Link>(&mut self, one: &mut L, two: &mut L) -> Result<(), LiveRefusal>
        requires told { self.old.told ≤ length self.old.world.entries }
        requires tally { self.old.tally ≡ tally_of
            (drop (length self.old.world.entries - self.old.told) self.old.world.entries) }
        ensures told { OnOk result (self.new.told ≡ length self.old.world.entries) }
        ensures tally { OnOk result (self.new.tally ≡ tally_of self.old.world.entries) }
        ensures one { OnOk result (Carries Sender.Shelf (drop (length self.old.world.entries - self.old.told) self.old.world.entries) self.old.world.entries (L.taken one.old) (L.taken one.new)) }
        ensures two { OnOk result (Carries Sender.Host (drop (length self.old.world.entries - self.old.told) self.old.world.entries) self.old.world.entries (L.taken two.old) (L.taken two.new)) }
        ensures link_alone { IfErr result (λ refusal. is_link refusal ≡ true) }
        ensures given_one { L.given one.new ≡ L.given one.old }
        ensures given_two { L.given two.new ≡ L.given two.old }
        ensures turns_one { L.turns one.new ≡ L.turns one.old }
        ensures turns_two { L.turns two.new ≡ L.turns two.old }
        ensures faults_one { Blames result 0 (L.faults one.old) (L.faults one.new) }
        ensures faults_two { Blames result 1 (L.faults two.old) (L.faults two.new) }
        ensures rest { self.new ≡ record self.old { told = self.new.told; tally = self.new.tally } }
    {
        'entries: for i in self.told..self.world.history().count() {
            let entry = self.world.history().entry(i);
            self.tally.note(entry);
            match send_of(Sender::Shelf, entry, one) {
                Ok(()) => {}
                Err(Failed) => return Err(LiveRefusal::LinkFault { link: 0 }),
            }
            match send_of(Sender::Host, entry, two) {
                Ok(()) => {}
                Err(Failed) => return Err(LiveRefusal::LinkFault { link: 1 }),
            }
        }
        self.told = self.world.history().count();
        Ok(())
    }

    /// Records a line, lets it come, and sends the frames that come of it.
    pub(crate) fn line<L: Link>(
        &mut self,
        event: Event,
        one: &mut L,
        two: &mut L,
    ) -> Result<(), LiveRefusal>
        requires kept { IsKept self.old }
        requires good { event_why (stations self.old.sectors) event ≡ None }
        requires recorded { is_recorded event ≡ true }
        requires short { IsShort event }
        ensures kept { OnOk result (IsKept self.new) }
        ensures steps { Steps (event ∷ []) result self.old self.new
            (links L.turns L.given L.taken one.old two.old)
            (links L.turns L.given L.taken one.new two.new) }
        ensures faults_one { Blames result 0 (L.faults one.old) (L.faults one.new) }
        ensures faults_two { Blames result 1 (L.faults two.old) (L.faults two.new) }
    {
        match self.record(event) {
            Ok(()) => {}
            Err(refusal) => return Err(refusal),
        }
        self.pass_on(one, two)
    }
}
