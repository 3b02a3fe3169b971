//! The lines of a command.
ghost use Rattle.std.specs.Prelude.{◌≡◌, ◌+◌, ◌≤◌, [], ◌∷◌, OnOk, length};
ghost use Rattle.aoe_script.specs.declared.event.Event.TheVariants.{Flush};
ghost use Rattle.aoe_script.specs.Lines.{most_events};
ghost use Rattle.aoe_soak.specs.Adds.{with_events};
ghost use Rattle.aoe_soak.specs.Soak.{before, command, crash, device, first_line, following, host, stations};

use crate::add::{add, add_all};
use crate::setup::named;
use aoe_base::{NoMemory, TargetId};
use aoe_disk::Loss;
use aoe_script::{Event, Name, Script};

const DEVICE: TargetId = TargetId { major: 1, minor: 0 };

/// The host of command `i`.
fn host(i: u32) -> Name
    ensures { result ≡ host i }
{
    named(if i % 2 == 0 { b'a' } else { b'b' })
}

/// The line that asks for command `i`.
fn first_line(seed: u16, i: u32) -> Event
    requires { i ≤ 16000 }
    ensures { result ≡ first_line seed i }
{
    let pair = i / 2;
    let turn = u32::from(seed) + pair / 2;
    let at = u64::from(turn % 2048 + if i % 2 == 0 { 0 } else { 2048 });
    if pair % 2 == 0 {
        Event::Write {
            host: host(i),
            dev: DEVICE,
            at,
            count: 1,
            fill: (turn % 256) as u8,
        }
    } else {
        Event::Read {
            host: host(i),
            dev: DEVICE,
            at,
            count: 1,
        }
    }
}

/// Adds the lines behind the first of command `i`: its answer is lost, its request comes twice, or
/// nothing goes wrong.
fn put_following(script: &mut Script, i: u32) -> Result<(), NoMemory>
    requires stations { script.old.setups ≡ stations }
    requires room { length script.old.events + 4 ≤ most_events }
    ensures { OnOk result (script.new ≡ with_events script.old (following i)) }
{
    match i % 10 {
        3 => add_all(
            script,
            [
                Event::Pass { n: 1 },
                Event::Skip { n: 1 },
                Event::Tick { ms: 1000 },
                Event::Pass { n: 2 },
            ],
        ),
        6 => add_all(
            script,
            [Event::Pass { n: 1 }, Event::Again, Event::Pass { n: 2 }],
        ),
        _ => add(script, Event::Pass { n: 2 }),
    }
}

/// The flush of the host of this name.
fn flush(letter: u8) -> Event
    ensures { result ≡ Flush (record { items = letter ∷ [] }) device }
{
    Event::Flush {
        host: named(letter),
        dev: DEVICE,
    }
}

/// Adds the lines between the two halves: both hosts flush, and the shelf loses power.
fn put_crash(script: &mut Script) -> Result<(), NoMemory>
    requires stations { script.old.setups ≡ stations }
    requires room { length script.old.events + 6 ≤ most_events }
    ensures { OnOk result (script.new ≡ with_events script.old crash) }
{
    add_all(
        script,
        [
            Event::Tick { ms: 2001 },
            flush(b'a'),
            Event::Pass { n: 2 },
            flush(b'b'),
            Event::Pass { n: 2 },
            Event::Crash {
                shelf: named(b's'),
                mode: Loss::Torn,
            },
        ],
    )
}

/// Adds the lines that stand before command `i` of `count`.
fn put_before(script: &mut Script, count: u32, i: u32) -> Result<(), NoMemory>
    requires stations { script.old.setups ≡ stations }
    requires room { length script.old.events + 6 ≤ most_events }
    ensures { OnOk result (script.new ≡ with_events script.old (before count i)) }
{
    if i == count / 2 {
        put_crash(script)
    } else {
        Ok(())
    }
}

/// Adds the lines of command `i` of `count`.
pub(crate) fn put_command(
    script: &mut Script,
    seed: u16,
    count: u32,
    i: u32,
) -> Result<(), NoMemory>
    requires stations { script.old.setups ≡ stations }
    requires room { length script.old.events + 11 ≤ most_events }
    requires few { i ≤ 16000 }
    ensures { OnOk result (script.new ≡ with_events script.old (command seed count i)) }
{
    put_before(script, count, i)?;
    add(script, first_line(seed, i))?;
    put_following(script, i)
}
