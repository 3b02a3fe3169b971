//! A host and a shelf in one process, to show the order of the library's calls: the host writes a sector,
//! flushes, and reads the sector back. Between two processes something carries the frames; here they are
//! handed over at once.
//!
//! Promised: nothing of its own. It tries the calls of `aoe_initiator` and `aoe_shelf` in their
//! order.
//!
//! Only tested: that it prints the line in the file `stdout` of this crate.
#![tactic(auto)]

ghost use Rattle.std.specs.Prelude.{◌≡◌, ◌+◌, ◌<◌, ◌≤◌, IfOk, length};
ghost use Rattle.aoe_initiator.specs.Op.{CanSubmit};
ghost use Rattle.aoe_base.specs.Addresses.{IsDistinct};

use aoe_base::{Blob, DeviceNo, Mac, Millis, NoMemory, Ports, Span, TargetId};
use aoe_disk::MemDisk;
use aoe_frame::Frame;
use aoe_initiator::{DEAD, FlushCommand, Initiator, LIFETIMES, Op, Outcome, ROOM};
use aoe_keep::Keep;
use aoe_shelf::Shelf;
use aoe_store::Direct;
use std::alloc::Global;
use std::io;

type MemShelf = Shelf<Direct<MemDisk>, MemDisk>;

const HOST: Mac = Mac([2, 0, 0, 0, 0, 0x0a]);

const SHELF: Mac = Mac([2, 0, 0, 0, 0, 1]);

const DEVICE: TargetId = TargetId { major: 1, minor: 0 };

fn one(port: Mac) -> Ports
    ensures one { length result.items ≡ 1 }
    ensures differ { IsDistinct result.items }
{
    let mut ports = Ports::new();
    ports.push(port);
    ports
}

/// The shelf 1 with the target 1.0: 16 zero sectors, and a keep without lists.
fn shelf_of_one(alloc: Global) -> Result<MemShelf, NoMemory>
    ensures { IfOk result (λ shelf. length shelf.targets ≡ 1) }
{
    let mut shelf = Shelf::new(alloc, DEVICE.major, one(SHELF), 1500)?;
    let store = Direct::new(MemDisk::new(alloc, 16)?);
    let Ok(keep) = Keep::mount(MemDisk::new(alloc, 16)?) else {
        return Err(NoMemory);
    };
    match shelf.add(DEVICE.minor, store, keep) {
        Ok(()) => Ok(shelf),
        Err(_) => Err(NoMemory),
    }
}

/// Submits an operation, carries its frame to the shelf and the reply to the host, and gives the outcome.
fn ask(host: &mut Initiator, device: DeviceNo, op: Op, shelf: &mut MemShelf) -> Option<Outcome>
    requires few { host.old.last_ticket < 100 }
    requires attached { device.0 < length host.old.devices }
    requires op { CanSubmit op }
    requires slot { 0 < length shelf.old.targets }
    ensures few { host.new.last_ticket ≤ host.old.last_ticket + 1 }
    ensures attached { length host.new.devices ≡ length host.old.devices }
    ensures slot { length shelf.new.targets ≡ length shelf.old.targets }
{
    let Ok(_) = host.submit(device, op) else {
        return None;
    };
    let mut request = Frame::new();
    let mut reply = Frame::new();
    host.pull(&mut request)?;
    shelf.receive_slot(0, &request, &mut reply);
    host.receive(&reply);
    Some(host.take_done()?.outcome)
}

/// Writes sector 3, flushes, and reads the sector: its first byte.
fn use_device(
    alloc: Global,
    host: &mut Initiator,
    device: DeviceNo,
    shelf: &mut MemShelf,
) -> Option<u8>
    requires new { host.old.last_ticket ≡ 0 }
    requires attached { device.0 < length host.old.devices }
    requires slot { 0 < length shelf.old.targets }
{
    let bytes = Blob::of(alloc, &[0x5a; 512]).ok()?;
    ask(host, device, Op::Write { at: 3, bytes }, shelf)?;
    // A flush is held back until no frame of the write can arrive any more.
    host.advance(Millis(LIFETIMES.requests.0 + 1));
    ask(host, device, Op::Flush, shelf)?;
    match ask(host, device, Op::Read(Span { at: 3, count: 1 }), shelf)? {
        Outcome::Read(data) => data.bytes().first().copied(),
        _ => None,
    }
}

/// Makes both ends, and uses the one by the other.
fn first_byte(alloc: Global) -> Option<u8> {
    let mut shelf = shelf_of_one(alloc).ok()?;
    let mut host = Initiator::new(alloc, &one(HOST), LIFETIMES, ROOM, DEAD).ok()?;
    let device = host
        .attach(DEVICE, &one(SHELF), 16, 2, FlushCommand::CacheExt)
        .ok()?;
    use_device(alloc, &mut host, device, &mut shelf)
}

fn main(rt: HostRuntime) -> io::Result<()> {
    match first_byte(rt.alloc()) {
        Some(byte) => println!(rt; "sector 3 begins with {byte:02x}"),
        None => println!(rt; "nothing was read"),
    }
}
