//! Whole runs: the text of a script or a number comes in, and the text of the run goes out, or its
//! last line.
ghost use Rattle.std.specs.Prelude.{ℕ, ◌≡◌, ◌≢◌, ◌≤◌, ◌+◌, All, List, None, Some};
ghost use Rattle.aoe_base.specs.Faults.{Rose};
ghost use Rattle.aoe_world.specs.Replay.{HasRun, IsFaultless, LeavesSink, Replayed, RunsTo, Sums, TakesText, part_text};
ghost use Rattle.aoe_script.specs.Lines.{refusal, script_of};
ghost use Rattle.aoe_soak.specs.Soak.{soaked};
ghost use Rattle.aoe_transcript.specs.Print.{CanPrint};

use crate::end::ReplayEnd;
use crate::events::run_events;
use crate::part::{Part, print_part};
use crate::text::{read_text, script_in};
use crate::world::World;
use aoe_base::{Failed, NoMemory};
use aoe_history::History;
use aoe_io::{Sink, Source, give_all};
use aoe_script::Script;
use std::alloc::Global;

/// Writes this part of the text of the run of a script of `script_events` events.
fn write_run<K: Sink>(
    alloc: Global,
    part: Part,
    script_events: u64,
    history: &History,
    sink: &mut K,
) -> ReplayEnd
    requires { All CanPrint history.now }
    ensures writes { TakesText result (K.held sink.old) (K.held sink.new)
        (part_text part script_events history.now) }
    ensures leaves { LeavesSink result sink.old sink.new }
    ensures count { K.faults sink.old ≤ K.faults sink.new }
    ensures sink_fault { result ≡ ReplayEnd.SinkFault
        → Rose (K.faults sink.old) (K.faults sink.new) }
    ensures sink_no_fault { result ≢ ReplayEnd.SinkFault → K.faults sink.new ≡ K.faults sink.old }
    ensures sink_one_fault { K.faults sink.new ≤ K.faults sink.old + 1 }
{
    let text = match print_part(alloc, part, script_events, history) {
        Ok(text) => text,
        Err(NoMemory) => return ReplayEnd::NoMemory,
    };
    match give_all(sink, text.bytes()) {
        Ok(()) => ReplayEnd::Ended,
        Err(Failed) => ReplayEnd::SinkFault,
    }
}

/// Runs a script, and writes this part of the text of the run.
fn run_script<K: Sink>(alloc: Global, part: Part, script: &Script, sink: &mut K) -> ReplayEnd
    ensures runs { RunsTo part result script.now (K.held sink.old) (K.held sink.new) }
    ensures leaves { LeavesSink result sink.old sink.new }
    ensures count { K.faults sink.old ≤ K.faults sink.new }
    ensures sink_fault { result ≡ ReplayEnd.SinkFault
        → Rose (K.faults sink.old) (K.faults sink.new) }
    ensures sink_no_fault { result ≢ ReplayEnd.SinkFault → K.faults sink.new ≡ K.faults sink.old }
    ensures sink_one_fault { K.faults sink.new ≤ K.faults sink.old + 1 }
{
    let mut world = match World::new(alloc, script) {
        Ok(world) => world,
        Err(NoMemory) => return ReplayEnd::NoMemory,
    };
    match run_events(&mut world, script) {
        Ok(()) => write_run(alloc, part, script.count() as u64, world.history(), sink),
        Err(end) => end,
    }
}

/// Reads a script from the source, to its end, and runs it.
fn replay_script<S: Source, K: Sink>(alloc: Global, source: &mut S, sink: &mut K) -> ReplayEnd
    ensures replayed { Replayed result (S.left source.old) (S.left source.new) (K.held sink.old)
        (K.held sink.new) }
    ensures unwritten { LeavesSink result sink.old sink.new }
    ensures source_count { S.faults source.old ≤ S.faults source.new }
    ensures sink_count { K.faults sink.old ≤ K.faults sink.new }
    ensures source_fault { result ≡ ReplayEnd.SourceFault
        → Rose (S.faults source.old) (S.faults source.new) }
    ensures sink_fault { result ≡ ReplayEnd.SinkFault
        → Rose (K.faults sink.old) (K.faults sink.new) }
    ensures source_no_fault { result ≢ ReplayEnd.SourceFault
        → S.faults source.new ≡ S.faults source.old }
    ensures source_one_fault { S.faults source.new ≤ S.faults source.old + 1 }
    ensures sink_no_fault { result ≢ ReplayEnd.SinkFault → K.faults sink.new ≡ K.faults sink.old }
    ensures sink_one_fault { K.faults sink.new ≤ K.faults sink.old + 1 }
{
    let text = match read_text(alloc, source) {
        Ok(text) => text,
        Err(end) => return end,
    };
    match script_in(alloc, text.as_slice()) {
        Ok(script) => run_script(alloc, Part::Whole, &script, sink),
        Err(refusal) => refusal,
    }
}

/// Reads the source to its end as the text of a script of at most 16,777,216 bytes, runs the script,
/// and writes the text of the run to the sink when the last event is done.
pub fn replay<S: Source, K: Sink>(alloc: Global, source: &mut S, sink: &mut K) -> ReplayEnd
    ensures replayed { Replayed result (S.left source.old) (S.left source.new) (K.held sink.old)
        (K.held sink.new) }
    ensures unwritten { LeavesSink result sink.old sink.new }
    ensures source_count { S.faults source.old ≤ S.faults source.new }
    ensures sink_count { K.faults sink.old ≤ K.faults sink.new }
    ensures source_fault { result ≡ ReplayEnd.SourceFault
        → Rose (S.faults source.old) (S.faults source.new) }
    ensures sink_fault { result ≡ ReplayEnd.SinkFault
        → Rose (K.faults sink.old) (K.faults sink.new) }
    ensures source_no_fault { result ≢ ReplayEnd.SourceFault
        → S.faults source.new ≡ S.faults source.old }
    ensures source_one_fault { S.faults source.new ≤ S.faults source.old + 1 }
    ensures sink_no_fault { result ≢ ReplayEnd.SinkFault → K.faults sink.new ≡ K.faults sink.old }
    ensures sink_one_fault { K.faults sink.new ≤ K.faults sink.old + 1 }
    ensures replays { (text : List ℕ) → S.left source.old ≡ Some text → refusal text ≡ None
        → IsFaultless (S.faults source.old) (S.faults source.new)
        → IsFaultless (K.faults sink.old) (K.faults sink.new) → HasRun result (script_of text) }
{
    replay_script(alloc, source, sink)
}

/// Runs the script of a seed and a count of commands, and writes the last line of the text of the run
/// to the sink when the last event is done. The same seed and count have the same script each time.
pub fn soak<K: Sink>(alloc: Global, seed: u16, count: u32, sink: &mut K) -> ReplayEnd
    requires some { 1 ≤ count }
    requires most { count ≤ 16000 }
    ensures sums { Sums result (soaked seed count) (K.held sink.old) (K.held sink.new) }
    ensures unwritten { LeavesSink result sink.old sink.new }
    ensures sink_count { K.faults sink.old ≤ K.faults sink.new }
    ensures sink_fault { result ≡ ReplayEnd.SinkFault
        → Rose (K.faults sink.old) (K.faults sink.new) }
    ensures sink_no_fault { result ≢ ReplayEnd.SinkFault → K.faults sink.new ≡ K.faults sink.old }
    ensures sink_one_fault { K.faults sink.new ≤ K.faults sink.old + 1 }
    ensures runs { IsFaultless (K.faults sink.old) (K.faults sink.new)
        → HasRun result (soaked seed count) }
{
    match aoe_soak::soak(alloc, seed, count) {
        Ok(script) => run_script(alloc, Part::Summary, &script, sink),
        Err(NoMemory) => ReplayEnd::NoMemory,
    }
}
