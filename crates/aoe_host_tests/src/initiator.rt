ghost use Rattle.std.specs.Prelude.{◌≡◌, ◌≢◌, ◌<◌, ◌≤◌, [], length, IfOk};
ghost use Rattle.aoe_base.specs.Addresses.{IsDistinct};

use aoe_base::{DeviceNo, Mac, Millis, PathNo, Ports, Span, TargetId, Ticket};
use aoe_frame::Frame;
use aoe_initiator::{
    AttachRefusal, DEAD, Done, FlushCommand, InFlight, Initiator, LIFETIMES, MAX_HELD, Op, Outcome,
    ROOM, Sent, SubmitRefusal, Taken,
};
use std::alloc::Global;
use std::test::Fail;

const A: Mac = Mac([2, 0, 0, 0, 0, 0x0a]);

const SHELF: Mac = Mac([2, 0, 0, 0, 0, 1]);

const DEVICE: TargetId = TargetId { major: 1, minor: 0 };

/// The command by which the device is flushed.
const FLUSH: FlushCommand = FlushCommand::CacheExt;

/// What a host calls the device that is attached first.
const FIRST_DEVICE: DeviceNo = DeviceNo(0);

/// The response to a flush with tag 1.
const FLUSHED: [u8; 36] = [
    2, 0, 0, 0, 0, 0x0a, 2, 0, 0, 0, 0, 1, 0x88, 0xa2, 0x18, 0, 0, 1, 0, 0, 0, 0, 0, 1, 0x40, 0, 0,
    0x40, 0, 0, 0, 0, 0, 0, 0, 0,
];

fn one(port: Mac) -> Ports
    ensures one { length result.items ≡ 1 }
    ensures differ { IsDistinct result.items }
{
    let mut ports = Ports::new();
    ports.push(port);
    ports
}

pub(super) fn two(first: u8, second: u8) -> Ports
    requires { first ≢ second }
    ensures two { length result.items ≡ 2 }
    ensures differ { IsDistinct result.items }
{
    let mut ports = Ports::new();
    ports.push(Mac([2, 0, 0, 0, 0, first]));
    ports.push(Mac([2, 0, 0, 0, 0, second]));
    ports
}

fn no_port() -> Ports
    ensures none { result.items ≡ [] }
    ensures differ { IsDistinct result.items }
{
    Ports::new()
}

/// A host with one port, attached to the device.
fn attached(alloc: Global, remotes: &Ports) -> Result<Initiator, Fail>
    requires differ { IsDistinct remotes.now.items }
    ensures tickets { IfOk result (λ host. host.last_ticket ≡ 0) }
    ensures devices { IfOk result (λ host. 0 < length host.devices) }
    ensures few { IfOk result (λ host. length host.devices < 2) }
{
    let mut host = Initiator::new(alloc, &one(A), LIFETIMES, ROOM, DEAD)?;
    match host.attach(DEVICE, remotes, 16, 2, FLUSH) {
        Ok(_) => Ok(host),
        Err(_) => Err(Fail::new("the device wasn't attached")),
    }
}

/// What a host sends first.
const FIRST: Sent = Sent {
    ticket: Ticket(1),
    tag: 1,
    path: PathNo(0),
    again: false,
};

const REPEAT: Sent = Sent {
    again: true,
    ..FIRST
};

/// Whether the host sends this at each of the times, or nothing.
fn sends(host: &mut Initiator, steps: &[(u64, Option<Sent>)]) -> bool {
    let mut out = Frame::new();
    for (now, sent) in steps {
        host.advance(Millis(*now));
        if host.pull(&mut out) != *sent {
            return false;
        }
    }
    true
}

#[test]
fn a_read_is_repeated_by_its_waits(rt: HostRuntime) -> Result<(), Fail> {
    let mut host = attached(rt.alloc(), &one(SHELF))?;
    let submitted = host.submit(FIRST_DEVICE, Op::Read(Span { at: 0, count: 1 }));
    assert!(rt; matches!(submitted, Ok(Ticket(1))));
    let steps = [
        (0, Some(FIRST)),
        (0, None),
        (999, None),
        (1000, Some(REPEAT)),
        (2999, None),
        (3000, Some(REPEAT)),
    ];
    assert!(rt; sends(&mut host, &steps));
    Ok(())
}

#[test]
fn a_path_that_doesnt_answer_is_avoided(rt: HostRuntime) -> Result<(), Fail> {
    let mut host = attached(rt.alloc(), &two(1, 2))?;
    let submitted = host.submit(FIRST_DEVICE, Op::Read(Span { at: 0, count: 1 }));
    assert!(rt; submitted.is_ok());
    let other = Sent {
        path: PathNo(1),
        ..REPEAT
    };
    let steps = [
        (0, Some(FIRST)),
        (1000, Some(other)),
        (2999, None),
        (3000, Some(REPEAT)),
    ];
    assert!(rt; sends(&mut host, &steps));
    Ok(())
}

#[test]
fn a_response_ends_its_command_once(rt: HostRuntime) -> Result<(), Fail> {
    let mut host = attached(rt.alloc(), &one(SHELF))?;
    let submitted = host.submit(FIRST_DEVICE, Op::Flush);
    assert!(rt; submitted.is_ok());
    assert!(rt; sends(&mut host, &[(0, Some(FIRST))]));
    assert!(rt; host.receive(&FLUSHED[..35]) == Taken::Stale);
    assert!(rt; host.receive(&FLUSHED) == Taken::Finished(Ticket(1)));
    assert!(rt; host.receive(&FLUSHED) == Taken::Stale);
    let done = host.take_done();
    assert!(rt;
        matches!(
            done,
            Some(Done {
                ticket: Ticket(1),
                outcome: Outcome::Flushed
            })
        )
    );
    Ok(())
}

#[test]
fn attachments_are_refused(rt: HostRuntime) -> Result<(), Fail> {
    let mut host = attached(rt.alloc(), &one(SHELF))?;
    let again = host.attach(DEVICE, &one(SHELF), 16, 2, FLUSH);
    assert!(rt; again == Err(AttachRefusal::Already));
    let other = TargetId { major: 1, minor: 1 };
    let nowhere = host.attach(other, &no_port(), 16, 2, FLUSH);
    assert!(rt; nowhere == Err(AttachRefusal::NoPort));
    Ok(())
}

/// Submits so many flushes, or fewer where no memory is there.
fn fill(host: &mut Initiator, device: DeviceNo, count: u32) -> bool
    requires new { host.old.last_ticket ≡ 0 }
    requires attached { device.0 < length host.old.devices }
    ensures last { host.new.last_ticket ≤ count }
    ensures attached { device.0 < length host.new.devices }
{
    'held: for i in 0..count {
        let Ok(_) = host.submit(device, Op::Flush) else {
            return false;
        };
    }
    true
}

#[test]
fn a_backlog_is_refused(rt: HostRuntime) -> Result<(), Fail> {
    let mut host = attached(rt.alloc(), &one(SHELF))?;
    let filled = fill(&mut host, FIRST_DEVICE, MAX_HELD);
    assert!(rt; filled);
    let refused = host.submit(FIRST_DEVICE, Op::Flush);
    let backlog = SubmitRefusal::Backlog { held: 65_536 };
    assert!(rt; matches!(refused, Err((refusal, Op::Flush)) if refusal == backlog));
    Ok(())
}

#[test]
fn repeats_are_pulled_alone(rt: HostRuntime) -> Result<(), Fail> {
    let mut host = attached(rt.alloc(), &one(SHELF))?;
    let filled = fill(&mut host, FIRST_DEVICE, 1);
    assert!(rt; filled);
    let read = host.submit(FIRST_DEVICE, Op::Read(Span { at: 4, count: 2 }));
    assert!(rt; read.is_ok());
    let started = Sent {
        ticket: Ticket(2),
        tag: 2,
        ..FIRST
    };
    let mut out = Frame::new();
    assert!(rt; host.pull_again(&mut out).is_none());
    assert!(rt; host.pull(&mut out) == Some(FIRST));
    host.advance(Millis(1000));
    assert!(rt; host.pull_again(&mut out) == Some(REPEAT));
    assert!(rt; host.pull_again(&mut out).is_none());
    assert!(rt; host.pull(&mut out) == Some(started));
    let flying = InFlight {
        commands: 2,
        sectors: 2,
    };
    assert!(rt; host.flying() == flying);
    Ok(())
}

#[test]
fn the_next_time_is_told(rt: HostRuntime) -> Result<(), Fail> {
    let mut host = attached(rt.alloc(), &one(SHELF))?;
    assert!(rt; host.next_time().is_none());
    let submitted = host.submit(FIRST_DEVICE, Op::Flush);
    assert!(rt; submitted.is_ok());
    assert!(rt; host.next_time() == Some(Millis(0)));
    assert!(rt; sends(&mut host, &[(0, Some(FIRST))]));
    assert!(rt; host.next_time() == Some(Millis(1000)));
    assert!(rt; host.receive(&FLUSHED) == Taken::Finished(Ticket(1)));
    assert!(rt; host.next_time().is_none());
    Ok(())
}
