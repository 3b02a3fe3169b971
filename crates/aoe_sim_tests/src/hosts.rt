ghost use Rattle.std.specs.Prelude.{◌≡◌, true, is_some, length, position, IfOk};
ghost use Rattle.aoe_initiator.specs.HostLaw.{same_id};
ghost use Rattle.aoe_initiator.specs.Op.{CanSubmit};
ghost use Rattle.aoe_base.specs.Addresses.{IsDistinct};
ghost use Rattle.aoe_script.specs.Classes.{is_name};

use aoe_base::{FrameNo, Mac, NoMemory, Ports, Span, TargetId};
use aoe_frame::Frame;
use aoe_history::{Entry, History, Run};
use aoe_initiator::{DEAD, FlushCommand, LIFETIMES, Op, Outcome, SubmitRefusal};
use aoe_net::NetRefusal;
use aoe_script::Name;
use aoe_sim_hosts::SimHost;
use std::alloc::Global;
use std::test::Fail;

const A: Mac = Mac([2, 0, 0, 0, 0, 0x0a]);

const SHELF: Mac = Mac([2, 0, 0, 0, 0, 1]);

const DEVICE: TargetId = TargetId { major: 1, minor: 0 };

/// The response to a flush with tag 1.
const FLUSHED: [u8; 36] = [
    2, 0, 0, 0, 0, 0x0a, 2, 0, 0, 0, 0, 1, 0x88, 0xa2, 0x18, 0, 0, 1, 0, 0, 0, 0, 0, 1, 0x40, 0, 0,
    0x40, 0, 0, 0, 0, 0, 0, 0, 0,
];

fn name() -> Name
    ensures { is_name result ≡ true }
{
    let mut name = Name::new();
    name.push(b'a');
    name
}

fn one(port: Mac) -> Ports
    ensures one { length result.items ≡ 1 }
    ensures differ { IsDistinct result.items }
{
    let mut ports = Ports::new();
    ports.push(port);
    ports
}

/// The host, attached to the device.
fn attached(alloc: Global) -> Result<SimHost, NoMemory>
    ensures device { IfOk result (λ x. is_some
        (position (λ d. same_id d.about.id DEVICE) x.core.devices) ≡ true) }
    ensures tickets { IfOk result (λ x. x.core.last_ticket ≡ 0) }
{
    let mut host = SimHost::new(alloc, name(), &one(A), LIFETIMES, 4, DEAD)?;
    host.attach(DEVICE, &one(SHELF), 16, 2, FlushCommand::CacheExt)?;
    Ok(host)
}

/// Submits the host's first command.
fn submit(host: &mut SimHost, run: &mut Run, op: Op) -> Result<(), NoMemory>
    requires can { CanSubmit op }
    requires device { is_some (position (λ d. same_id d.about.id DEVICE) host.old.core.devices)
        ≡ true }
    requires tickets { host.old.core.last_ticket ≡ 0 }
{
    host.submit(run, DEVICE, op)
}

fn turn(host: &mut SimHost, run: &mut Run) -> Result<(), NetRefusal> {
    let mut out = Frame::new();
    host.turn(run, &mut out)
}

fn take(host: &mut SimHost, run: &mut Run) -> Result<(), NoMemory> {
    host.take(run, FrameNo(2), &FLUSHED)
}

fn is_submitted(entry: &Entry) -> bool {
    matches!(entry, Entry::Submitted { ticket: 1, .. })
}

fn is_sent(entry: &Entry) -> bool {
    matches!(
        entry,
        Entry::Sent {
            ticket: 1,
            frame: 1,
            ..
        }
    )
}

/// Whether the host took the response, as a stale one or not.
fn is_taken(entry: &Entry, was_stale: bool) -> bool {
    matches!(entry, Entry::Took { frame: 2, stale, .. } if *stale == was_stale)
}

/// Whether the first command has the outcome of a flush.
fn is_flushed(entry: &Entry) -> bool {
    matches!(
        entry,
        Entry::Done {
            ticket: 1,
            outcome,
            ..
        } if matches!(outcome.get(), Outcome::Flushed)
    )
}

/// The host asks for a flush, and gets its response twice.
fn flush(host: &mut SimHost, run: &mut Run) -> Result<(), Fail>
    requires device { is_some (position (λ d. same_id d.about.id DEVICE) host.old.core.devices)
        ≡ true }
    requires tickets { host.old.core.last_ticket ≡ 0 }
{
    submit(host, run, Op::Flush)?;
    turn(host, run)?;
    run.inject(&FLUSHED)?;
    take(host, run)?;
    turn(host, run)?;
    take(host, run)?;
    Ok(())
}

/// Whether the flush was sent, and ended by the first of two responses.
fn has_one_end(history: &History) -> bool {
    history.count() == 6
        && is_submitted(history.entry(0))
        && is_sent(history.entry(1))
        && is_taken(history.entry(3), false)
        && is_flushed(history.entry(4))
        && is_taken(history.entry(5), true)
}

/// Whether two responses to a flush end it once.
fn ends_once(host: &mut SimHost, run: &mut Run) -> Result<bool, Fail>
    requires device { is_some (position (λ d. same_id d.about.id DEVICE) host.old.core.devices)
        ≡ true }
    requires tickets { host.old.core.last_ticket ≡ 0 }
{
    flush(host, run)?;
    Ok(has_one_end(run.history()))
}

/// Whether all that happened is that a command was refused because it was empty.
fn has_empty(history: &History) -> bool {
    let empty = SubmitRefusal::Empty;
    history.count() == 1
        && matches!(history.entry(0), Entry::Refused { refusal, .. } if *refusal == empty)
}

/// Whether an empty read is refused.
fn refuses_empty(host: &mut SimHost, run: &mut Run) -> Result<bool, Fail>
    requires device { is_some (position (λ d. same_id d.about.id DEVICE) host.old.core.devices)
        ≡ true }
    requires tickets { host.old.core.last_ticket ≡ 0 }
{
    submit(host, run, Op::Read(Span { at: 0, count: 0 }))?;
    Ok(has_empty(run.history()))
}

/// What a host does here.
#[derive(Clone, Copy)]
enum Course {
    EndsOnce,
    RefusesEmpty,
}

/// Whether a new host does so.
fn does(alloc: Global, course: Course) -> Result<bool, Fail> {
    let mut host = attached(alloc)?;
    let mut run = Run::new(alloc, LIFETIMES);
    match course {
        Course::EndsOnce => ends_once(&mut host, &mut run),
        Course::RefusesEmpty => refuses_empty(&mut host, &mut run),
    }
}

#[test]
fn a_response_ends_its_command_once(rt: HostRuntime) -> Result<(), Fail> {
    assert!(rt; does(rt.alloc(), Course::EndsOnce)?);
    Ok(())
}

#[test]
fn an_empty_read_is_refused(rt: HostRuntime) -> Result<(), Fail> {
    assert!(rt; does(rt.alloc(), Course::RefusesEmpty)?);
    Ok(())
}
