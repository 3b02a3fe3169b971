//! The events of a script, run through a world.
ghost use Rattle.std.specs.Prelude.{◌≡◌, [], None, IfErr, OnOk};
ghost use Rattle.aoe_sim_setup.specs.Layout.{setup_of};
ghost use Rattle.aoe_world.specs.Replay.{end_of, Plays, Stops};

use crate::end::{ReplayEnd, ReplayLimit};
use crate::refusal::WorldRefusal;
use crate::world::World;
use aoe_script::Script;

/// How a replay ends whose world goes no further.
fn end_of(refusal: WorldRefusal) -> ReplayEnd
    ensures { result ≡ end_of refusal }
{
    match refusal {
        WorldRefusal::NoMemory => ReplayEnd::NoMemory,
        WorldRefusal::NetFull { limit, .. } => ReplayEnd::Limit(ReplayLimit::Net(limit)),
    }
}

/// Runs all events of a script through its world, in which nothing happened so far.
pub fn run_events(world: &mut World, script: &Script) -> Result<(), ReplayEnd>
    requires { world.old ≡ record { lines = script.now.setups; entries = []; cursor = 1; events = 0; refused = None } }
    ensures plays { OnOk result (Plays (setup_of script.now.setups) script.now.setups script.now.events 1 [] world.new.cursor world.new.entries) }
    ensures lines { world.new.lines ≡ script.now.setups }
    ensures stops { IfErr result (λ end. Stops end script.now) }
{
    'events: for i in 0..script.count() {
        match world.step(script.event(i)) {
            Ok(()) => {}
            Err(refusal) => return Err(end_of(refusal)),
        }
    }
    Ok(())
}
