//! What a host sends and hears in a turn, frame by frame.
ghost use Rattle.std.specs.Prelude.{◌≡◌, ◌≤◌, IfOk, OnErr, is_err, true};
ghost use Rattle.aoe_base.specs.Faults.{Blamed};
ghost use Rattle.aoe_block.specs.Exchange.{IsHeld, IsUnused};
ghost use Rattle.aoe_nbd_serve.specs.Window.{HearsTurn, SendsOne};

use aoe_base::Failed;
use aoe_frame::Frame;
use aoe_initiator::{Initiator, Taken};
use aoe_io::{Got, Link};

/// The most commands that fly.
pub const MOST_COMMANDS: u64 = 64;

/// The most sectors that fly: what a socket of Linux holds as responses.
pub const MOST_SECTORS: u64 = 136;

/// The most frames that are sent again, sent for the first time, or taken in one turn.
pub(crate) const FRAMES: u64 = 64;

/// How many commands of `max` sectors may be sent for the first time.
pub(crate) fn room(host: &Initiator, max: u32) -> u64
    ensures { result ≤ 64 }
{
    let flying = host.flying();
    let sectors = MOST_SECTORS.saturating_sub(flying.sectors) / u64::from(max.max(1));
    let commands = MOST_COMMANDS.saturating_sub(flying.commands);
    sectors.min(commands)
}

/// Sends a repeat that is due: whether there was one.
pub(crate) fn send_again<L: Link>(
    host: &mut Initiator,
    link: &mut L,
    frame: &mut Frame,
) -> Result<bool, Failed>
    ensures sends { SendsOne result host.old host.new (L.taken link.old) (L.taken link.new) }
    ensures held { IsHeld host.old host.new }
    ensures given { L.given link.new ≡ L.given link.old }
    ensures turns { L.turns link.new ≡ L.turns link.old }
    ensures count { L.faults link.old ≤ L.faults link.new }
    ensures link { Blamed (is_err result ≡ true) (L.faults link.old) (L.faults link.new) }
{
    if host.pull_again(frame).is_none() {
        return Ok(false);
    }
    match link.send(frame.as_slice()) {
        Ok(()) => Ok(true),
        Err(Failed) => Err(Failed),
    }
}

/// Sends what is next, a repeat or a command for the first time: whether there was something.
pub(crate) fn send_next<L: Link>(
    host: &mut Initiator,
    link: &mut L,
    frame: &mut Frame,
) -> Result<bool, Failed>
    ensures sends { SendsOne result host.old host.new (L.taken link.old) (L.taken link.new) }
    ensures held { IsHeld host.old host.new }
    ensures given { L.given link.new ≡ L.given link.old }
    ensures turns { L.turns link.new ≡ L.turns link.old }
    ensures count { L.faults link.old ≤ L.faults link.new }
    ensures link { Blamed (is_err result ≡ true) (L.faults link.old) (L.faults link.new) }
{
    if host.pull(frame).is_none() {
        return Ok(false);
    }
    match link.send(frame.as_slice()) {
        Ok(()) => Ok(true),
        Err(Failed) => Err(Failed),
    }
}

/// Takes what one turn of the link brings.
pub(crate) fn hear<L: Link>(
    host: &mut Initiator,
    link: &mut L,
    frame: &mut Frame,
) -> Result<Got, Failed>
    ensures turn { IfOk result (λ got. HearsTurn got host.old host.new (L.turns link.old)
        (L.turns link.new) (L.given link.old) (L.given link.new)) }
    ensures err { OnErr result (IsUnused (L.turns link.old) (L.turns link.new)
        (L.given link.old) (L.given link.new)) }
    ensures held { IsHeld host.old host.new }
    ensures taken { L.taken link.new ≡ L.taken link.old }
    ensures count { L.faults link.old ≤ L.faults link.new }
    ensures link { Blamed (is_err result ≡ true) (L.faults link.old) (L.faults link.new) }
{
    match link.recv(frame) {
        Ok(Got::Frame) => {
            let _: Taken = host.receive(frame.as_slice());
            Ok(Got::Frame)
        }
        Ok(Got::Quiet) => Ok(Got::Quiet),
        Ok(Got::Ended) => Ok(Got::Ended),
        Err(Failed) => Err(Failed),
    }
}
