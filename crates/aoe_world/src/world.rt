//! A world: a run of a script's events through its shelves and its hosts.
ghost use Rattle.std.specs.Prelude.{ℕ, ◌≡◌, ◌+◌, ◌<◌, ◌≤◌, suc, length, [], List, All, None, Some, Err, true, IfErr, IfNone, IfOk, IfSome, OnErr, OnOk};
ghost use Rattle.aoe_history.specs.Lawful.{IsLawful};
ghost use Rattle.aoe_history.specs.Reading.{HasReadLaw};
ghost use Rattle.aoe_history.specs.Setup.{IsSetup, Setup};
ghost use Rattle.aoe_history.specs.Frames.{frames};
ghost use Rattle.aoe_sim_setup.specs.Layout.{setup_of};
ghost use Rattle.aoe_sim_setup.specs.Stations.{CanCome};
ghost use Rattle.aoe_history.specs.Run.{IsWithin};
ghost use Rattle.aoe_script.specs.declared.setup.Setup.{Setup as Line};
ghost use Rattle.aoe_script.specs.Lines.{most_events};
ghost use Rattle.aoe_script.specs.Rules.{event_why, is_event};
ghost use Rattle.aoe_transcript.specs.Print.{CanPrint};
ghost use Rattle.aoe_world.specs.Schedule.{Comes, ComesSome};
ghost use Rattle.aoe_world.specs.Plan.{Goes, Knows};
ghost use Rattle.aoe_world.specs.World.{refused_with, IsCounted, IsRefusedAt, Runs};

use crate::build::Builder;
use crate::place::Place;
use crate::plan::{Plan, plan_of};
use crate::refusal::WorldRefusal;
use crate::sim::Sim;
use aoe_base::{FrameNo, NoMemory};
use aoe_history::{History, Run, read_law};
use aoe_net::NetRefusal;
use aoe_script::{Event, Script};
use aoe_sim_setup::events_law;
use aoe_transcript::lawful_histories_print;
use std::alloc::Global;
use std::marker::Model;

/// Why a world goes no further, where its run does.
fn refusal_of(run: &Run, refusal: NetRefusal) -> WorldRefusal
    ensures { result ≡ refused_with run.now refusal }
{
    match refusal {
        NetRefusal::NoMemory => WorldRefusal::NoMemory,
        NetRefusal::Full(limit) => WorldRefusal::NetFull {
            limit,
            frames: run.frames(),
            bytes: run.total_bytes(),
        },
    }
}

/// Runs an event line in which nothing is wrong.
fn run(
    alloc: Global,
    sim: &mut Sim,
    places: &[Place],
    cursor: &mut u32,
    event: &Event,
) -> Result<(), NetRefusal>
    requires goes { Goes places.now sim.old event.now }
    requires range { is_event event.now ≡ true }
    requires from_one { 1 ≤ cursor.old }
    ensures { (lines : List Line) → Knows lines places.now sim.old → CanCome lines (setup_of lines) event.now → cursor.old ≤ suc (length (frames sim.old.run.entries))
        → Runs result lines event.now cursor.old cursor.new sim.old sim.new }
{
    match plan_of(alloc, sim, places, event) {
        Ok(Some(Plan::One(act))) => sim.act(act),
        Ok(Some(Plan::Pass(n))) => sim.pass(places, cursor, n),
        Ok(Some(Plan::Skip(n))) => sim.skip(cursor, n),
        Ok(Some(Plan::Again)) => sim.hand_over(FrameNo(*cursor - 1), places),
        Ok(None) => Ok(()),
        Err(NoMemory) => Err(NetRefusal::NoMemory),
    }
}

/// A run of the events of a script, each after the one before it, through shelves with disks in
/// memory and hosts.
#[derive(Drop)]
pub struct World<'a> {
    alloc: Global,
    script: &'a Script,
    sim: Sim,

    /// The stations in the order of their lines.
    places: Vec<Place>,

    /// The number of the frame that is passed or skipped next.
    cursor: u32,

    /// How many events were stepped.
    events: u32,

    /// Why it goes no further.
    refusal: Option<WorldRefusal>,
}

impl<'a> Model for World<'a> {
    ghost use Rattle.aoe_world.specs.World.{IsWorld, Stepped};

    ghost Value = { Stepped };

    ghost view = { λ w. record {
      lines = w.script.now.setups;
      entries = w.sim.run.entries;
      cursor = w.cursor;
      events = w.events;
      refused = w.refusal;
    } };

    ghost invariant = { λ w. IsWorld w.script.now w.places.items w.sim w.cursor w.events w.refusal };
}

impl<'a> World<'a> {
    /// A world of the stations that a script declares: disks of zeros, empty lists, an empty
    /// network, and a clock at 0.
    pub fn new(alloc: Global, script: &'a Script) -> Result<World<'a>, NoMemory>
        ensures new { IfOk result (λ world. world ≡ record { lines = script.now.setups; entries = []; cursor = 1; events = 0; refused = None }) }
        ensures setup { IsSetup (setup_of script.now.setups) }
    {
        let Builder { sim, places, .. } = Builder::new(alloc, script)?;
        Ok(World {
            alloc,
            script,
            sim,
            places,
            cursor: 1,
            events: 0,
            refusal: None,
        })
    }
}

impl World<'_> {
    /// How many events were stepped.
    pub fn events(&self) -> u32
        ensures { result ≡ self.now.events }
    {
        self.events
    }

    /// What happened. Each line of it can be printed.
    pub fn history(&self) -> &History
        ensures history { result.now ≡ self.now.entries }
        ensures lawful { IsLawful (setup_of self.now.lines) self.now.entries }
        ensures reading { HasReadLaw (setup_of self.now.lines) self.now.entries }
        ensures room { IsWithin (frames self.now.entries) }
        ensures printable { All CanPrint self.now.entries }
    {
        read_law();
        lawful_histories_print();
        self.sim.run.history()
    }

    /// Runs an event. After a refusal every step answers that refusal, and nothing more happens. The
    /// event that was refused isn't counted, and where the cursor stands behind it doesn't matter.
    pub fn step(&mut self, event: &Event) -> Result<(), WorldRefusal>
        requires good { event_why self.old.lines event.now ≡ None }
        requires few { self.old.events < most_events }
        ensures refused { IfSome self.old.refused
            (λ refusal. (result ≡ Err refusal) × (self.new ≡ self.old)) }
        ensures comes { OnOk result (Comes (setup_of self.old.lines) self.old.lines event.now self.old.cursor self.old.entries self.new.cursor self.new.entries) }
        ensures begins { IfNone self.old.refused (OnErr result (ComesSome (setup_of self.old.lines) self.old.lines event.now self.old.cursor self.old.entries self.new.entries)) }
        ensures why { IfNone self.old.refused (IfErr result (λ refusal. IsRefusedAt (setup_of self.old.lines) (ComesSome (setup_of self.old.lines) self.old.lines event.now self.old.cursor self.old.entries) self.new.entries refusal)) }
        ensures stays { IfErr result (λ refusal. (self.new.refused ≡ Some refusal)
            × IsCounted (setup_of self.new.lines) self.new.entries refusal) }
        ensures lawful { IsLawful (setup_of self.new.lines) self.new.entries }
        ensures reading { HasReadLaw (setup_of self.new.lines) self.new.entries }
        ensures room { IsWithin (frames self.new.entries) }
        ensures events { OnOk result ((self.new.events ≡ self.old.events + 1)
            × (self.new.refused ≡ None)) }
        ensures uncounted { OnErr result (self.new.events ≡ self.old.events) }
        ensures lines { self.new.lines ≡ self.old.lines }
    {
        read_law();
        events_law();
        if let Some(refusal) = self.refusal {
            return Err(refusal);
        }
        let ran = run(
            self.alloc,
            &mut self.sim,
            self.places.as_slice(),
            &mut self.cursor,
            event,
        );
        // A look that does nothing: it hands the prover what holds of the history, however the event ended.
        let _ = self.sim.run.history();
        match ran {
            Ok(()) => {
                self.events += 1;
                Ok(())
            }
            Err(refusal) => {
                let refusal = refusal_of(&self.sim.run, refusal);
                self.refusal = Some(refusal);
                Err(refusal)
            }
        }
    }
}
