//! A device as a disk for the clients of a socket.
ghost use Rattle.std.specs.Prelude.{◌≡◌, ◌<◌, ◌≤◌, ◌^◌, ℕ, false, true};
ghost use Rattle.aoe_args.specs.Tools.{CanNbd};
ghost use Rattle.aoe_base.specs.Faults.{Blamed};
ghost use Rattle.aoe_base.specs.Names.{device_text};
ghost use Rattle.aoe_base.specs.Sizes.{longest_lifetime};
ghost use Rattle.aoe_tools.specs.Runs.{told};
ghost use Rattle.aoe.specs.Serving.{IsServedTo, MayServe, door_seen, is_served_status, serve_terms, served_as, unflushed_status};

use crate::door::Door;
use crate::status::Status;
use crate::tools::{MOST_SECTORS, ask_of, lifetimes, tool_status};
use aoe_args::Nbd;
use aoe_base::{Millis, NoMemory, SECTOR_LEN, TargetId, append};
use aoe_block::attach;
use aoe_clients::{Bell, Clients};
use aoe_copy::Watch;
use aoe_initiator::Outcome;
use aoe_io::{Clock, Link};
use aoe_nbd::{Export, ExportName};
use aoe_nbd_serve::{Ending, ServeEnd, Terms, serve};
use aoe_tools::{Device, Refusal, look_up};
use itoa::Buffer;
use std::alloc::Global;

/// The name of a device, as `e1.0`.
fn name_of(id: TargetId) -> ExportName
    ensures { result.items ≡ device_text id }
{
    let mut name = ExportName::new();
    let mut digits = Buffer::new();
    append(&mut name, b"e");
    append(&mut name, digits.format(id.major).as_bytes());
    append(&mut name, b".");
    append(&mut name, digits.format(id.minor).as_bytes());
    name
}

/// How a device is served. Its first command comes when no frame of an earlier run can arrive any more.
fn terms_of(asked: &Nbd, device: &Device) -> Terms
    requires lifetime { asked.now.lifetime ≤ longest_lifetime }
    requires total { device.now.total < 2 ^ 48 }
    ensures { result ≡ serve_terms asked.now device.now }
{
    let export = Export {
        name: name_of(asked.id),
        size: device.total * SECTOR_LEN as u64,
        read_only: asked.read_only,
        flushes: asked.flushes,
    };
    Terms {
        export,
        total: device.total,
        max: device.max,
        quarantine: Millis(2 * u64::from(asked.lifetime)),
        once: asked.once,
        idle: asked.idle.map_or(0, u64::from),
    }
}

/// The status where the last flush had this outcome, of a run whose requests wait for so many turns.
fn unflushed_status(outcome: &Outcome, turns: u32) -> Status
    ensures { result ≡ unflushed_status turns outcome.now }
{
    match outcome {
        Outcome::AoeError(error) => Status::Refused(Refusal::Aoe(*error)),
        Outcome::AtaError { status, error } => Status::Refused(Refusal::Ata {
            status: *status,
            error: *error,
        }),
        Outcome::GaveUp { .. }
        | Outcome::Read(_)
        | Outcome::Written
        | Outcome::Flushed
        | Outcome::Told(_) => Status::Unanswered { turns },
    }
}

/// The status of a run that ended so.
fn served_as(end: &ServeEnd, turns: u32) -> Status
    ensures { result ≡ served_as turns end.now }
{
    match end {
        ServeEnd::Ended(_) => Status::Ok,
        ServeEnd::Unflushed(outcome) => unflushed_status(outcome, turns),
        ServeEnd::NoMemory => Status::NoMemory,
        ServeEnd::LinkFault => Status::LinkFault { link: 0 },
        ServeEnd::LinkEnded => Status::Unanswered { turns },
        ServeEnd::ClientFault => Status::ClientFault,
    }
}

/// Serves a device that was found.
fn serve_device<L: Link, C: Clock, P: Clients, B: Bell, E: Ending>(
    alloc: Global,
    asked: &Nbd,
    device: &Device,
    link: &mut L,
    clock: &mut C,
    door: &mut Door<P, B, E>,
) -> Status
    requires lifetime { asked.now.lifetime ≤ longest_lifetime }
    requires total { device.now.total < 2 ^ 48 }
    requires some { 0 < device.now.max }
    requires max { device.now.max ≤ 17 }
    requires nobody { P.connected door.old.clients ≡ false }
    ensures serves { MayServe (door_seen P.told P.connected B.waits E.answers) asked.now result device.now door.old door.new
        (record { turns = L.turns link.old; given = L.given link.old; taken = L.taken link.old })
        (record { turns = L.turns link.new; given = L.given link.new; taken = L.taken link.new })
        (C.answers clock.old) (C.answers clock.new) }
    ensures status { is_served_status result ≡ true }
    ensures count { L.faults link.old ≤ L.faults link.new }
    ensures link { Blamed (result ≡ Status.LinkFault 0) (L.faults link.old) (L.faults link.new) }
    ensures alone { (port : ℕ) → result ≡ Status.LinkFault port → port ≡ 0 }
    ensures clients { Blamed (result ≡ Status.ClientFault) (P.faults door.old.clients)
        (P.faults door.new.clients) }
{
    let host = match attach(
        alloc,
        asked.asking.port,
        lifetimes(asked.lifetime),
        asked.id,
        device.port,
        device.total,
        device.max,
        device.flush,
    ) {
        Ok(host) => host,
        Err(NoMemory) => return Status::NoMemory,
    };
    let terms = terms_of(asked, device);
    let (end, _) = serve(
        alloc,
        &terms,
        host,
        link,
        clock,
        &mut door.clients,
        &mut door.bell,
        &mut door.ending,
    );
    served_as(&end, asked.asking.turns)
}

/// Finds a device, and serves it to clients until the end is asked for. The watch is told how many
/// sectors it has.
pub(crate) fn run_nbd<L: Link, C: Clock, W: Watch, P: Clients, B: Bell, E: Ending>(
    alloc: Global,
    asked: &Nbd,
    link: &mut L,
    clock: &mut C,
    watch: &mut W,
    door: &mut Door<P, B, E>,
) -> Status
    requires range { CanNbd asked.now }
    requires nobody { P.connected door.old.clients ≡ false }
    ensures run { IsServedTo (door_seen P.told P.connected B.waits E.answers) asked.now result door.old door.new
        (told C.least C.answers L.turns L.given L.taken clock.old clock.new link.old link.new) }
    ensures status { is_served_status result ≡ true }
    ensures link { Blamed (result ≡ Status.LinkFault 0) (L.faults link.old) (L.faults link.new) }
    ensures alone { (port : ℕ) → result ≡ Status.LinkFault port → port ≡ 0 }
    ensures clients { Blamed (result ≡ Status.ClientFault) (P.faults door.old.clients)
        (P.faults door.new.clients) }
{
    let ask = ask_of(asked.asking);
    let first = clock.now();
    let device = match look_up(&ask, asked.id, first, MOST_SECTORS, link) {
        Ok(device) => device,
        Err(refusal) => return tool_status(refusal),
    };
    if device.total == 0 {
        return Status::Refused(Refusal::Range);
    }
    watch.planned(device.total);
    serve_device(alloc, asked, &device, link, clock, door)
}
