//! Devices that a host is attached to, with the order of the commands there and the paths to them.
ghost use Rattle.std.specs.Prelude.{◌≡◌, ◌≢◌, ◌^◌, ◌<◌, ◌≤◌, ℕ, List, [], length, map, nat_le, nat_lt, slice_get, All, IfOk, IfSome};
ghost use Rattle.aoe_base.specs.Addresses.{IsDistinct};
ghost use Rattle.aoe_hold.specs.HoldTable.{no_commands};
ghost use Rattle.aoe_paths.specs.PathTable.{new_paths};
ghost use Rattle.aoe_initiator.specs.Devices.{after_arrival, after_choice, all_clear, change_at, device_at, device_finished, device_sent, lower_of, marks_after, IsLowest, IsRoute};
ghost use Rattle.aoe_initiator.specs.Host.{RecallAll};
ghost use Rattle.aoe_initiator.specs.HostLog.{HostCommand};

use crate::counted::{clear_from, first_clear};
use crate::op::FlushCommand;
use aoe_base::{DeviceNo, Mac, Millis, NoMemory, PathNo, Ports, TargetId, Ticket};
use aoe_hold::Holds;
use aoe_paths::Paths;
use std::alloc::Global;

/// What a host knows of a device.
#[derive(Drop)]
pub struct Attached {
    pub id: TargetId,

    /// The ports of its shelf, at least one and none twice.
    pub remotes: Ports,

    /// How many sectors it has.
    pub total: u64,

    /// The most sectors of one command.
    pub max: u32,

    /// The command by which it is flushed.
    pub flush: FlushCommand,
}

/// A device, the order of the commands there, and the paths to it.
#[derive(Drop)]
pub(crate) struct Device {
    pub about: Attached,
    pub holds: Holds,
    pub paths: Paths,
}

/// The way of a frame to a device.
#[derive(Clone, Copy)]
pub(crate) struct Route {
    pub path: PathNo,
    pub target: TargetId,

    /// The command by which the device is flushed.
    pub flush: FlushCommand,

    /// The ports at the two ends of the path.
    pub local: Mac,
    pub remote: Mac,

    /// How long an answer on the path is waited for.
    pub timeout: Millis,
}

/// A response that came.
#[derive(Clone, Copy)]
pub(crate) struct Arrival {
    pub path: PathNo,

    /// Its round trip, where it is known.
    pub trip: Option<Millis>,
}

/// Marks the path on which an answer was missed, if there is one.
fn mark(paths: &mut Paths, missed: Option<PathNo>)
    ensures { paths.new ≡ record paths.old { marks = marks_after missed paths.old.marks } }
{
    if let Some(missed) = missed {
        paths.missed(missed);
    }
}

impl Device {
    /// A device with no commands, and the paths to it from these ports. A request can arrive as long
    /// as `requests` after it was sent.
    pub(crate) fn new(
        alloc: Global,
        about: Attached,
        ports: &Ports,
        requests: Millis,
    ) -> Result<Device, NoMemory>
        requires local { ports.now.items ≢ [] }
        requires remote { about.remotes.items ≢ [] }
        requires locals_differ { IsDistinct ports.now.items }
        requires remotes_differ { IsDistinct about.remotes.items }
        ensures { IfOk result (λ d. d ≡ record { about = about; holds = no_commands requests.0; paths = new_paths ports.now.items about.remotes.items }) }
    {
        let paths = Paths::new(alloc, ports, &about.remotes)?;
        Ok(Device {
            about,
            holds: Holds::new(alloc, requests),
            paths,
        })
    }

    /// Chooses the path of a frame. The path on which an answer was missed is marked before.
    fn route(&mut self, missed: Option<PathNo>) -> Route
        ensures route { IsRoute self.old missed result }
        ensures chosen { self.new
            ≡ record self.old { paths = after_choice missed result.path self.old.paths } }
    {
        mark(&mut self.paths, missed);
        let path = self.paths.choose();
        let (local, remote) = self.paths.pair(path);
        Route {
            path,
            target: self.about.id,
            flush: self.about.flush,
            local,
            remote,
            timeout: self.paths.timeout(path),
        }
    }
}

/// The lower of two tickets.
fn lower(a: Option<Ticket>, b: Option<Ticket>) -> Option<Ticket>
    ensures { result ≡ lower_of a b }
{
    match (a, b) {
        (Some(a), Some(b)) => Some(if b < a { b } else { a }),
        (Some(a), None) => Some(a),
        (None, b) => b,
    }
}

/// The lowest ticket, over all devices, of a command that may be sent for the first time.
pub(crate) fn next_clear(devices: &mut Vec<Device>, now: Millis) -> Option<Ticket>
    requires { All (λ d. d.holds.latest ≤ now.0) devices.old.items }
    ensures value { devices.new.items ≡ map (device_at now.0) devices.old.items }
    ensures lowest { (life : ℕ) (cs : List HostCommand) → RecallAll life cs 0 devices.old.items
        → IsLowest (all_clear life now.0 cs 0 devices.old.items) result }
{
    let mut lowest = None;
    'devices: for device in devices.iter_mut() {
        lowest = lower(lowest, first_clear(&mut device.holds, now));
    }
    lowest
}

/// The time from which on a command at one of the devices may be sent for the first time.
pub(crate) fn any_clear_from(devices: &[Device]) -> u128
    ensures { (life : ℕ) (cs : List HostCommand) → RecallAll life cs 0 devices.now
        → (now : ℕ) → All (λ d. d.holds.latest ≤ now) devices.now → now < 2 ^ 64
        → nat_lt 0 (length (all_clear life now cs 0 devices.now)) ≡ nat_le result now }
{
    let mut from = u128::MAX;
    'devices: for device in devices {
        from = from.min(clear_from(&device.holds));
    }
    from
}

/// Takes note that a frame of a command is sent, and chooses its path. A repeat comes with the path
/// of the frame before it, on which an answer was missed.
pub(crate) fn note_sent(
    devices: &mut Vec<Device>,
    device: DeviceNo,
    ticket: Ticket,
    now: Millis,
    missed: Option<PathNo>,
) -> Route
    requires inside { device.0 < length devices.old.items }
    requires time { All (λ d. d.holds.latest ≤ now.0) devices.old.items }
    ensures route { IfSome (slice_get devices.old.items device.0) (λ d. IsRoute d missed result) }
    ensures value { devices.new.items ≡ change_at device.0
        (device_sent ticket now missed result.path) devices.old.items }
{
    let device = &mut devices[device.0 as usize];
    device.holds.sent(ticket, now);
    device.route(missed)
}

/// Takes note of a response that came, if one did.
fn note_arrival(paths: &mut Paths, came: Option<Arrival>)
    ensures { paths.new ≡ after_arrival came paths.old }
{
    if let Some(Arrival { path, trip }) = came {
        paths.answered(path, trip);
    }
}

/// Takes note that a command has its outcome, by a response if one came.
pub(crate) fn note_finished(
    devices: &mut Vec<Device>,
    device: DeviceNo,
    ticket: Ticket,
    came: Option<Arrival>,
)
    requires { device.0 < length devices.old.items }
    ensures { devices.new.items ≡ change_at device.0
        (device_finished ticket came) devices.old.items }
{
    let device = &mut devices[device.0 as usize];
    device.holds.finished(ticket);
    note_arrival(&mut device.paths, came);
}
