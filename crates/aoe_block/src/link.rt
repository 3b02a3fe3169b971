//! One host at one device over a link: the frames that go out in a turn, and the one that comes.
ghost use Rattle.std.specs.Prelude.{◌≡◌, ◌<◌, ◌≤◌, ◌^◌, ◌∷◌, [], IfOk, OnErr, is_err, true};
ghost use Rattle.aoe_base.specs.Faults.{Blamed};
ghost use Rattle.aoe_base.specs.Sizes.{longest_lifetime};
ghost use Rattle.aoe_initiator.specs.Host.{Matches};
ghost use Rattle.aoe_block.specs.Exchange.{Exchanges, HearsOne, IsUnused, SendsSome};
ghost use Rattle.aoe_block.specs.Turns.{host_of};

use aoe_base::{DeviceNo, Failed, Lifetimes, Mac, NoMemory, Ports, TargetId};
use aoe_frame::Frame;
use aoe_initiator::{DEAD, FlushCommand, Initiator, MOST_ROOM, Taken};
use aoe_io::{Got, Link};
use std::alloc::Global;

/// The one device of a host that [`attach`] makes.
pub const DEVICE: DeviceNo = DeviceNo(0);

/// A list of one port.
fn one_port(port: Mac) -> Ports
    ensures { result.items ≡ port ∷ [] }
{
    let mut ports = Ports::new();
    ports.push(port);
    ports
}

/// A host with one port, attached to a device of `total` sectors at the port `remote`, which takes
/// at most `max` of them in one command and is flushed by `flush`.
pub fn attach(
    alloc: Global,
    port: Mac,
    life: Lifetimes,
    id: TargetId,
    remote: Mac,
    total: u64,
    max: u32,
    flush: FlushCommand,
) -> Result<Initiator, NoMemory>
    requires requests { life.requests.0 ≤ longest_lifetime }
    requires responses { life.responses.0 ≤ longest_lifetime }
    requires total { total ≤ 2 ^ 48 }
    requires some { 0 < max }
    requires max { max ≤ 17 }
    ensures host { IfOk result (λ host. host ≡ host_of port life id remote total max flush) }
    ensures matches { IfOk result (λ host. Matches [] host) }
{
    let mut host = Initiator::new(alloc, &one_port(port), life, MOST_ROOM, DEAD)?;
    match host.attach(id, &one_port(remote), total, max, flush) {
        Ok(_) => Ok(host),
        Err(_) => Err(NoMemory),
    }
}

/// Sends frames as long as one may be sent, up to `most`.
fn send_due<L: Link>(
    host: &mut Initiator,
    link: &mut L,
    frame: &mut Frame,
    most: u64,
) -> Result<(), Failed>
    ensures sends { SendsSome result most host.old host.new (L.taken link.old) (L.taken link.new) }
    ensures given { L.given link.new ≡ L.given link.old }
    ensures turns { L.turns link.new ≡ L.turns link.old }
    ensures count { L.faults link.old ≤ L.faults link.new }
    ensures link { Blamed (is_err result ≡ true) (L.faults link.old) (L.faults link.new) }
{
    'frames: for _ in 0..most {
        if host.pull(frame).is_none() {
            return Ok(());
        }
        match link.send(frame.as_slice()) {
            Ok(()) => {}
            Err(Failed) => return Err(Failed),
        }
    }
    Ok(())
}

/// Takes what one turn of the link brings: whether it ended a command.
fn hear<L: Link>(host: &mut Initiator, link: &mut L, frame: &mut Frame) -> Result<bool, Failed>
    ensures one { IfOk result (λ finished. HearsOne finished host.old host.new (L.turns link.old)
        (L.turns link.new) (L.given link.old) (L.given link.new)) }
    ensures taken { L.taken link.new ≡ L.taken link.old }
    ensures err { OnErr result (IsUnused (L.turns link.old) (L.turns link.new)
        (L.given link.old) (L.given link.new)) }
    ensures count { L.faults link.old ≤ L.faults link.new }
    ensures link { Blamed (is_err result ≡ true) (L.faults link.old) (L.faults link.new) }
{
    match link.recv(frame) {
        Ok(Got::Frame) => match host.receive(frame.as_slice()) {
            Taken::Finished(_) => Ok(true),
            Taken::Stale => Ok(false),
        },
        Ok(Got::Quiet) => Ok(false),
        Ok(Got::Ended) => Ok(false),
        Err(Failed) => Err(Failed),
    }
}

/// Sends the frames of a host that are due, at most `most`, and takes what one turn of the link
/// brings: whether that ended a command. `frame` is room for one frame.
pub fn exchange<L: Link>(
    host: &mut Initiator,
    link: &mut L,
    frame: &mut Frame,
    most: u64,
) -> Result<bool, Failed>
    ensures exchanges { Exchanges result most host.old host.new (L.turns link.old)
        (L.turns link.new) (L.given link.old) (L.given link.new)
        (L.taken link.old) (L.taken link.new) }
    ensures count { L.faults link.old ≤ L.faults link.new }
    ensures link { Blamed (is_err result ≡ true) (L.faults link.old) (L.faults link.new) }
{
    match send_due(host, link, frame, most) {
        Ok(()) => hear(host, link, frame),
        Err(Failed) => Err(Failed),
    }
}
