//! What an event line of a script comes to.
ghost use Rattle.std.specs.Prelude.{ℕ, ◌≡◌, ◌≤◌, List, Some, true, IfOk, IfSome, IsSomeAnd, OnErr};
ghost use Rattle.aoe_history.specs.declared.entry.Entry.{Entry};
ghost use Rattle.aoe_history.specs.Asks.{submission_in};
ghost use Rattle.aoe_history.specs.Groups.Act.{Arm, Crash, Hand, Submit};
ghost use Rattle.aoe_initiator.specs.Op.{CanSubmit};
ghost use Rattle.aoe_script.specs.declared.setup.Setup.{Setup as Line};
ghost use Rattle.aoe_script.specs.Rules.{is_event};
ghost use Rattle.aoe_sim_setup.specs.Layout.{setup_of};
ghost use Rattle.aoe_sim_setup.specs.Stations.{CanCome, IsAsked, IsShelf, IsStation, IsThere};
ghost use Rattle.aoe_world.specs.declared.place.Place.{Place as Placed};
ghost use Rattle.aoe_world.specs.declared.sim.Sim.{Sim as Simulator};
ghost use Rattle.aoe_world.specs.Plan.{Gives, IsPlanned, Knows};
ghost use Rattle.aoe_world.specs.Schedule.{major_of, station_called, ComesSome};

use crate::act::{Act, At};
use crate::asks::op_of;
use crate::place::{Place, place_of};
use crate::sim::Sim;
use aoe_base::{Blob, FrameNo, NoMemory, TargetId};
use aoe_disk::Loss;
use aoe_initiator::Op;
use aoe_script::{Event, Name, Which};
use std::alloc::Global;

/// What an event line comes to.
#[derive(Drop)]
pub(crate) enum Plan {
    /// One act.
    One(Act),

    /// This many frames from the cursor on are handed to their addressees.
    Pass(u64),

    /// This many frames from the cursor on are lost.
    Skip(u64),

    /// The frame before the cursor is handed to its addressees once more.
    Again,
}

/// A frame is handed to the station with a name.
fn hand(places: &[Place], frame: u64, station: &Name) -> Option<Plan>
    requires { frame ≤ 4294967295 }
    ensures { (lines : List Line) (sim : Simulator) → Knows lines places.now sim → IsStation lines station.now
        → IsSomeAnd result (Gives lines sim (Hand frame (station_called lines station.now))) }
{
    match place_of(places, station) {
        Some(to) => Some(Plan::One(Act::Hand {
            frame: FrameNo(frame as u32),
            to,
        })),
        None => None,
    }
}

/// The shelf with a name loses its power.
fn crash(places: &[Place], shelf: &Name, how: Loss) -> Option<Plan>
    ensures { (lines : List Line) (sim : Simulator) → Knows lines places.now sim → IsShelf lines shelf.now
        → IsSomeAnd result (Gives lines sim (Crash (major_of (station_called lines shelf.now)) how)) }
{
    match place_of(places, shelf) {
        Some(At::Shelf(shelf)) => Some(Plan::One(Act::Crash { shelf, how })),
        Some(At::Host(_)) => None,
        None => None,
    }
}

/// A disk of a slot is armed.
fn arm(sim: &Sim, dev: TargetId, which: Which, k: u64, mode: Option<Loss>) -> Option<Plan>
    ensures { (lines : List Line) (places : List Placed) → Knows lines places sim.now → IsThere lines (setup_of lines) dev → 1 ≤ k → k ≤ 1000
        → IsSomeAnd result (Gives lines sim.now (Arm dev which k mode)) }
{
    match sim.slot_of(dev) {
        Some((shelf, slot)) => Some(Plan::One(Act::Arm {
            shelf,
            slot,
            which,
            k,
            mode,
        })),
        None => None,
    }
}

/// A frame of no station comes into the network.
fn inject(alloc: Global, bytes: &Blob) -> Result<Option<Plan>, NoMemory>
    ensures { IfOk result (λ plan. plan ≡ Some (Plan.One (Act.Inject bytes.now))) }
{
    match Blob::of(alloc, bytes.bytes()) {
        Ok(bytes) => Ok(Some(Plan::One(Act::Inject { bytes }))),
        Err(NoMemory) => Err(NoMemory),
    }
}

/// The host with a name submits a command.
fn submit(places: &[Place], host: &Name, dev: TargetId, op: Op) -> Option<Plan>
    ensures { (lines : List Line) (sim : Simulator) → Knows lines places.now sim → IsAsked lines (setup_of lines) host.now dev → CanSubmit op
        → IsSomeAnd result (Gives lines sim (Submit host.now dev op)) }
{
    match place_of(places, host) {
        Some(At::Host(host)) => Some(Plan::One(Act::Submit { host, dev, op })),
        Some(At::Shelf(_)) => None,
        None => None,
    }
}

/// The host with a name submits what an event line asks of it.
fn ask(
    alloc: Global,
    places: &[Place],
    host: &Name,
    dev: TargetId,
    event: &Event,
) -> Result<Option<Plan>, NoMemory>
    requires submits { IsSomeAnd (submission_in event.now) (λ x. x.dev ≡ dev) }
    requires range { is_event event.now ≡ true }
    ensures { IfOk result (λ plan. (lines : List Line) (sim : Simulator) → Knows lines places.now sim → IsAsked lines (setup_of lines) host.now dev
        → IfSome (submission_in event.now) (λ x. IsSomeAnd plan (Gives lines sim (Submit host.now x.dev x.op)))) }
{
    match op_of(alloc, event) {
        Ok(Some(op)) => Ok(submit(places, host, dev, op)),
        Ok(None) => Ok(None),
        Err(NoMemory) => Err(NoMemory),
    }
}

/// What an event line comes to, where its names are known.
pub(crate) fn plan_of(
    alloc: Global,
    sim: &Sim,
    places: &[Place],
    event: &Event,
) -> Result<Option<Plan>, NoMemory>
    requires range { is_event event.now ≡ true }
    ensures planned { IfOk result (λ plan. (lines : List Line) → Knows lines places.now sim.now → CanCome lines (setup_of lines) event.now
        → IsSomeAnd plan (IsPlanned lines sim.now event.now)) }
    ensures memory { OnErr result ((lines : List Line) (cursor : ℕ) (h : List Entry)
        → ComesSome (setup_of lines) lines event.now cursor h h) }
{
    match event {
        Event::Tick { ms } => Ok(Some(Plan::One(Act::Tick { ms: *ms }))),
        Event::Deliver { frame, station } => Ok(hand(places, *frame, station)),
        Event::Pass { n } => Ok(Some(Plan::Pass(*n))),
        Event::Skip { n } => Ok(Some(Plan::Skip(*n))),
        Event::Again => Ok(Some(Plan::Again)),
        Event::Inject { bytes } => inject(alloc, bytes),
        Event::Fail { dev, which, k } => Ok(arm(sim, *dev, *which, *k, None)),
        Event::Stop {
            dev,
            which,
            k,
            mode,
        } => Ok(arm(sim, *dev, *which, *k, Some(*mode))),
        Event::Crash { shelf, mode } => Ok(crash(places, shelf, *mode)),
        Event::Read { host, dev, .. }
        | Event::Write { host, dev, .. }
        | Event::Flush { host, dev }
        | Event::Identify { host, dev }
        | Event::Config { host, dev, .. }
        | Event::Masks { host, dev, .. }
        | Event::Reserve { host, dev, .. } => ask(alloc, places, host, *dev, event),
    }
}
