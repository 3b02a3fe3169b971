//! A whole run.
ghost use Rattle.std.specs.Prelude.{◌≡◌, ◌≢◌, ◌≤◌, ◌+◌, [], Err, IfErr, IfOk, List, None, Ok};
ghost use Rattle.aoe_base.specs.Faults.{Rose};
ghost use Rattle.aoe_base.specs.Sizes.{most_simulated};
ghost use Rattle.aoe_script.specs.declared.event.Event.{Event};
ghost use Rattle.aoe_script.specs.Lines.{refusal, script_of};
ghost use Rattle.aoe_script.specs.Print.{script_text};
ghost use Rattle.aoe_live.specs.Recorder.{IsFresh};
ghost use Rattle.aoe_live.specs.Rounds.{wire};
ghost use Rattle.aoe_live.specs.Stations.{stations};
ghost use Rattle.aoe_live.specs.Whole.{outside, Lives};

use crate::recorder::Recorder;
use crate::refusal::LiveRefusal;
use crate::stations::stations;
use crate::tally::Tally;
use aoe_base::{Blob, NoMemory};
use aoe_io::{Clock, Link};
use aoe_script::{Script, print_script};
use aoe_world::World;
use std::alloc::Global;

/// A recorder of a world in which nothing happened yet.
fn recorder(
    alloc: Global,
    sectors: u64,
    commands: u32,
    stations_of: &Script,
) -> Result<Recorder<'_>, NoMemory>
    requires some { 1 ≤ sectors }
    requires most { sectors ≤ most_simulated }
    requires stations { stations_of.now ≡ record { setups = stations sectors; events = [] } }
    ensures fresh { IfOk result (λ r. IsFresh r) }
    ensures of { IfOk result (λ r. (r.sectors ≡ sectors) × (r.commands ≡ commands)) }
{
    let script = stations(alloc, sectors)?;
    let world = World::new(alloc, stations_of)?;
    Ok(Recorder {
        sectors,
        commands,
        script,
        world,
        told: 0,
        tally: Tally::new(),
    })
}

/// Lets a host write, read and flush a device of so many sectors over two links, by `n` commands and
/// a flush, and gives the script of what happened.
pub fn live<L: Link, C: Clock>(
    alloc: Global,
    sectors: u64,
    n: u32,
    turns: u32,
    one: &mut L,
    two: &mut L,
    clock: &mut C,
) -> Result<Blob, LiveRefusal>
    requires some { 1 ≤ sectors }
    requires most { sectors ≤ most_simulated }
    ensures script { IfOk result (λ text. (events : List Event) × (text ≡ script_text (record { setups = stations sectors; events = events }))
        × (script_of text ≡ record { setups = stations sectors; events = events })
        × (refusal text ≡ None)
        × Lives sectors n turns (Ok events)
        (outside (wire (L.turns one.old) (L.given one.old) (L.taken one.old)) (wire (L.turns two.old) (L.given two.old) (L.taken two.old)) (C.answers clock.old))
        (outside (wire (L.turns one.new) (L.given one.new) (L.taken one.new)) (wire (L.turns two.new) (L.given two.new) (L.taken two.new)) (C.answers clock.new))) }
    ensures refused { IfErr result (λ refusal. Lives sectors n turns (Err refusal)
        (outside (wire (L.turns one.old) (L.given one.old) (L.taken one.old)) (wire (L.turns two.old) (L.given two.old) (L.taken two.old)) (C.answers clock.old))
        (outside (wire (L.turns one.new) (L.given one.new) (L.taken one.new)) (wire (L.turns two.new) (L.given two.new) (L.taken two.new)) (C.answers clock.new))) }
    ensures count_one { L.faults one.old ≤ L.faults one.new }
    ensures count_two { L.faults two.old ≤ L.faults two.new }
    ensures cause_one { result ≡ Err (LiveRefusal.LinkFault 0)
        → Rose (L.faults one.old) (L.faults one.new) }
    ensures cause_two { result ≡ Err (LiveRefusal.LinkFault 1)
        → Rose (L.faults two.old) (L.faults two.new) }
    ensures no_fault_one { result ≢ Err (LiveRefusal.LinkFault 0)
        → L.faults one.new ≡ L.faults one.old }
    ensures no_fault_two { result ≢ Err (LiveRefusal.LinkFault 1)
        → L.faults two.new ≡ L.faults two.old }
    ensures one_fault_one { L.faults one.new ≤ L.faults one.old + 1 }
    ensures one_fault_two { L.faults two.new ≤ L.faults two.old + 1 }
{
    let Ok(setup) = stations(alloc, sectors) else {
        return Err(LiveRefusal::NoMemory);
    };
    let Ok(mut recorder) = recorder(alloc, sectors, n, &setup) else {
        return Err(LiveRefusal::NoMemory);
    };
    match recorder.run(turns, one, two, clock) {
        Ok(()) => {}
        Err(refusal) => return Err(refusal),
    }
    match print_script(alloc, &recorder.script) {
        Ok(text) => Ok(text),
        Err(NoMemory) => Err(LiveRefusal::NoMemory),
    }
}
