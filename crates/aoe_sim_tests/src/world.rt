//! A run by the calls of its world, what a soak writes, and why a world stops. Transcripts of whole
//! scripts are compared on the built program: `examples/replay` and `examples/schedules` have them.
ghost use Rattle.std.specs.Prelude.{◌≡◌, ◌≤◌};

use aoe_base::{Blob, NoMemory};
use aoe_io::MemSink;
use aoe_net::NetLimit;
use aoe_script::{Script, ScriptRefusal, read_script};
use aoe_transcript::print_run;
use aoe_world::{ReplayEnd, World, WorldRefusal, soak};
use std::alloc::{AllocError, Global};
use std::test::Fail;

/// A write that isn't answered: it is given up.
const UNANSWERED: &str = "\
life 2000
shelf s 1 02:00:00:00:00:01 1500
slot s 0 16
host a 02:00:00:00:00:0a
attach a s 0
write a e1.0 0 1 01
tick 180000
";

const GIVEN_UP: &str = "\
submit a 1 write e1.0 0 1 01
sent a 1 1
tick 180000
done a 1 gave-up
summary events 2 frames 1 sent 1 again 0 arrived 0 done 1 lost 0 crashed 0
";

/// Runs all events of a script through its world.
fn run_all(world: &mut World, script: &Script) -> Result<(), Fail>
    requires lines { world.old.lines ≡ script.now.setups }
    requires first { world.old.events ≡ 0 }
{
    'events: for i in 0..script.count() {
        world.step(script.event(i))?;
    }
    Ok(())
}

/// The text of what happened in a world.
fn text_of(alloc: Global, world: &World) -> Result<Blob, NoMemory> {
    print_run(alloc, u64::from(world.events()), world.history())
}

/// What a script's run prints.
fn ran(alloc: Global, script: &Script) -> Result<Blob, Fail> {
    let mut world = World::new(alloc, script)?;
    run_all(&mut world, script)?;
    Ok(text_of(alloc, &world)?)
}

/// The script that a text spells, without what is proved of it.
fn read(alloc: Global, text: &str) -> Result<Script, ScriptRefusal> {
    read_script(alloc, text.as_bytes())
}

#[test]
fn prints_a_run(rt: HostRuntime) -> Result<(), Fail> {
    let script = read(rt.alloc(), UNANSWERED)?;
    let printed = ran(rt.alloc(), &script)?;
    assert!(rt; printed.bytes() == GIVEN_UP.as_bytes());
    Ok(())
}

/// Whether this is the text of a refusal.
fn is_told(alloc: Global, refusal: WorldRefusal, text: &str) -> Result<bool, AllocError> {
    let told = format!(in alloc; "{refusal}")?;
    Ok(told.as_str() == text)
}

#[test]
fn tells_why_it_stops(rt: HostRuntime) -> Result<(), Fail> {
    let full = WorldRefusal::NetFull {
        limit: NetLimit::Frames,
        frames: 200_000,
        bytes: 7,
    };
    let text = "the network is full: 200000 frames, 7 bytes";
    assert!(rt; is_told(rt.alloc(), full, text)?);
    assert!(rt; is_told(rt.alloc(), WorldRefusal::NoMemory, "out of memory")?);
    Ok(())
}

const TEN: &str =
    "summary events 31 frames 27 sent 13 again 1 arrived 14 done 12 lost 1 crashed 1\n";

const THOUSANDS: &str =
    "summary events 5006 frames 4604 sent 2202 again 200 arrived 2402 done 2002 lost 200 crashed 1\n";

/// Whether a soak of so many commands writes this.
fn writes(alloc: Global, count: u32, written: &str) -> Result<bool, Fail>
    requires some { 1 ≤ count }
    requires most { count ≤ 16000 }
{
    let mut sink = MemSink::new(alloc, 1000)?;
    let ended = soak(alloc, 0, count, &mut sink);
    Ok(ended == ReplayEnd::Ended && sink.bytes() == written.as_bytes())
}

#[test]
fn writes_how_much_happened(rt: HostRuntime) -> Result<(), Fail> {
    assert!(rt; writes(rt.alloc(), 10, TEN)?);
    assert!(rt; writes(rt.alloc(), 2_000, THOUSANDS)?);
    Ok(())
}
