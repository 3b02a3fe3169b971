//! A host over UDP: reads sector 0 of the device e1.0, whose shelf is at 127.0.0.1:7001. A frame that is lost is sent
//! again. It needs no file of proofs.
//!
//! Promised: nothing of its own. It tries the calls of `aoe_initiator` over a link of `aoe_udp`.
//!
//! Only tested: that it prints the line in the file `stdout` of this crate where no shelf answers.
#![tactic(auto)]

ghost use Rattle.std.specs.Prelude.{◌≡◌, ◌<◌, length};
ghost use Rattle.aoe_initiator.specs.Op.{CanSubmit};
ghost use Rattle.aoe_base.specs.Addresses.{IsDistinct};

use aoe_base::{DeviceNo, Mac, Millis, Ports, Span, TargetId};
use aoe_frame::Frame;
use aoe_initiator::{DEAD, FlushCommand, Initiator, LIFETIMES, Op, Outcome, ROOM};
use aoe_io::{Got, Link};
use aoe_udp::UdpMedium;
use aoe_wire::WireLink;
use std::io;

const LOCAL: &[u8] = b"127.0.0.1:7002";

const PEERS: &[u8] = b"127.0.0.1:7001";

const HOST: Mac = Mac([2, 0, 0, 0, 0, 0x0a]);

const SHELF: Mac = Mac([2, 0, 0, 0, 0, 1]);

const DEVICE: TargetId = TargetId { major: 1, minor: 0 };

fn one(port: Mac) -> Ports
    ensures one { length result.items ≡ 1 }
    ensures differ { IsDistinct result.items }
{
    let mut ports = Ports::new();
    ports.push(port);
    ports
}

/// Asks, and waits for about 10 milliseconds at a time until the answer is there.
fn ask<L: Link>(
    host: &mut Initiator,
    device: DeviceNo,
    op: Op,
    link: &mut L,
    waits: u64,
) -> Option<Outcome>
    requires few { host.old.last_ticket < 100 }
    requires attached { device.0 < length host.old.devices }
    requires op { CanSubmit op }
{
    let Ok(_) = host.submit(device, op) else {
        return None;
    };
    let mut frame = Frame::new();
    for wait in 0..waits {
        host.advance(Millis(wait.saturating_mul(10)));
        for _ in 0..64 {
            if host.pull(&mut frame).is_none() {
                break;
            }
            link.send(frame.as_slice()).ok()?;
        }
        match link.recv(&mut frame) {
            Ok(Got::Frame) => {
                host.receive(&frame);
            }
            Ok(Got::Quiet) => {}
            _ => return None,
        }
        if let Some(done) = host.take_done() {
            return Some(done.outcome);
        }
    }
    None
}

/// Opens the link, attaches the device of 16 sectors, and reads the first: its first byte.
fn first_byte(rt: &HostRuntime) -> Option<u8> {
    let medium = UdpMedium::open(rt, rt.alloc(), LOCAL, PEERS, None).ok()?;
    let peers = medium.peers();
    let mut link = WireLink::new(medium, peers);
    let mut host = Initiator::new(rt.alloc(), &one(HOST), LIFETIMES, ROOM, DEAD).ok()?;
    let device = host
        .attach(DEVICE, &one(SHELF), 16, 2, FlushCommand::CacheExt)
        .ok()?;
    match ask(
        &mut host,
        device,
        Op::Read(Span { at: 0, count: 1 }),
        &mut link,
        200,
    )? {
        Outcome::Read(data) => data.bytes().first().copied(),
        _ => None,
    }
}

fn main(rt: HostRuntime) -> io::Result<()> {
    match first_byte(&rt) {
        Some(byte) => println!(rt; "sector 0 begins with {byte:02x}"),
        None => println!(rt; "nothing was read"),
    }
}
