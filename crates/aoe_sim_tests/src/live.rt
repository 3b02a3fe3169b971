use crate::checks::holds;
use aoe_base::Blob;
use aoe_io::{JoinedLink, MemSink, MemSource, SetClock};
use aoe_live::{LiveRefusal, live};
use aoe_net::NetLimit;
use aoe_world::{ReplayEnd, replay};
use std::alloc::{AllocError, Global};
use std::test::Fail;

/// What comes of so many commands over two links.
fn run(
    alloc: Global,
    n: u32,
    turns: u32,
    one: &mut JoinedLink,
    two: &mut JoinedLink,
    clock: &mut SetClock,
) -> Result<Blob, LiveRefusal> {
    live(alloc, 16, n, turns, one, two, clock)
}

/// The script that is recorded over two links that are joined.
fn recorded(alloc: Global) -> Result<Blob, Fail> {
    let (mut one, mut two) = JoinedLink::pair(alloc, 64)?;
    let mut clock = SetClock::new(0, 10);
    Ok(run(alloc, 10, 5000, &mut one, &mut two, &mut clock)?)
}

/// The text of the run of a script, where it is replayed to its end.
fn replayed(alloc: Global, script: &[u8]) -> Result<Option<MemSink>, Fail> {
    let mut source = MemSource::of(alloc, script)?;
    let mut sink = MemSink::new(alloc, 1_000_000)?;
    let end = replay(alloc, &mut source, &mut sink);
    Ok((end == ReplayEnd::Ended).then_some(sink))
}

/// How many commands were done behind the first line of a text.
fn count_done(text: &[u8]) -> u32 {
    let mut done: u32 = 0;
    for i in 0..text.len() {
        if text[i..].starts_with(b"\ndone ") {
            done = done.saturating_add(1);
        }
    }
    done
}

#[test]
fn a_replay_of_what_was_recorded_finishes_all_commands(rt: HostRuntime) -> Result<(), Fail> {
    let script = recorded(rt.alloc())?;
    let text = replayed(rt.alloc(), script.bytes())?;
    assert!(rt; text.is_some_and(|text| count_done(text.bytes()) == 11));
    Ok(())
}

/// Whether this is the text of a refusal.
fn is_told(alloc: Global, refusal: LiveRefusal, text: &str) -> Result<bool, AllocError> {
    let told = format!(in alloc; "{refusal}")?;
    Ok(told.as_str() == text)
}

#[test]
fn says_why_there_is_no_script(rt: HostRuntime) -> Result<(), Fail> {
    let full = LiveRefusal::Full {
        limit: NetLimit::Frames,
        frames: 200_000,
        bytes: 7,
    };
    let cases = [
        (LiveRefusal::NoMemory, "out of memory"),
        (LiveRefusal::LinkFault { link: 1 }, "link 1 failed"),
        (
            LiveRefusal::Unanswered { turns: 5000 },
            "no answer in 5000 turns",
        ),
        (full, "the network is full: 200000 frames, 7 bytes"),
        (LiveRefusal::TooMany, "more than 50000 lines"),
    ];
    for (refusal, text) in &cases {
        holds(&rt, is_told(rt.alloc(), *refusal, text)?, text);
    }
    Ok(())
}
