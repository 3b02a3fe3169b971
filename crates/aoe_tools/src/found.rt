//! The devices that a tool found.
ghost use Rattle.std.specs.Prelude.{◌≡◌, ◌<◌, [], OnOk, OnErr, Some, slice_get, slice_set, length};
ghost use Rattle.aoe_tools.specs.Found.{noted, ports_in, with_port};
ghost use Rattle.aoe_tools.specs.Page.{with_known};

use aoe_base::{Mac, NoMemory, Ports, TargetId};
use aoe_lists::Args;
use indexmap::IndexMap;
use std::alloc::Global;
use std::marker::Model;

/// What is known of a device.
#[derive(Clone, Copy, PartialEq, Eq)]
pub enum State {
    /// It answered.
    Found,

    /// Its page came, and declares a number of sectors.
    Up,

    /// Other stations reserve it.
    Reserved,

    /// It didn't answer when it was asked for its page.
    Silent,

    /// It answered otherwise.
    Error,
}

/// What a device said of itself when it was asked for its page.
#[derive(Clone, Copy)]
pub(crate) struct Known {
    pub(crate) total: Option<u64>,
    pub(crate) state: State,
}

/// A device that was found.
#[derive(Drop)]
pub struct Seen {
    pub id: TargetId,

    /// The addresses that its responses came from, in the order of the first from each, up to four.
    pub ports: Ports,

    /// The arguments of its latest response. Its config string stands behind eight bytes of them
    /// (AoEr11, "Query Config Information").
    pub args: Args,

    /// How many sectors it has, where its page came and says so.
    pub total: Option<u64>,

    pub state: State,
}

/// The devices that were found, in the order of the first response of each. Contracts see them as a
/// list of `Seen`.
#[derive(Drop)]
pub struct Found {
    devices: IndexMap<TargetId, Seen>,
}

impl Model for Found {
    ghost use Rattle.std.specs.Prelude.{◌≡◌, List, map};
    ghost use Rattle.aoe_tools.specs.declared.found.Seen.{Seen};
    ghost use Rattle.aoe_tools.specs.Found.{AreNamed};

    ghost Value = { List Seen };

    ghost view = { λ f. map (λ e. e.1) f.devices.entries };

    ghost invariant = { λ f. AreNamed f.devices.entries };
}

/// A copy of ports.
fn copied(ports: &Ports) -> Ports
    ensures { result.items ≡ ports.now.items }
{
    let mut copy = Ports::new();
    let _ = copy.try_extend_from_slice(ports.as_slice());
    copy
}

/// Adds a port, unless it is there or there are four.
fn add_port(ports: &mut Ports, port: Mac)
    ensures { ports.new.items ≡ with_port ports.old.items port }
{
    if !ports.is_full() && !ports.contains(&port) {
        ports.push(port);
    }
}

impl Found {
    /// No device.
    pub(crate) fn new(alloc: Global) -> Found
        ensures { result ≡ [] }
    {
        Found {
            devices: IndexMap::new(alloc),
        }
    }

    /// The ports of a device, none where it isn't there.
    fn ports_of(&self, id: TargetId) -> Ports
        ensures { result.items ≡ ports_in self.now id }
    {
        match self.devices.get(&id) {
            Some(seen) => copied(&seen.ports),
            None => Ports::new(),
        }
    }

    /// Notes that a response of this device came from this port, with these arguments.
    pub(crate) fn note(&mut self, id: TargetId, port: Mac, args: Args) -> Result<(), NoMemory>
        ensures noted { OnOk result (self.new ≡ noted self.old id port args) }
        ensures err { OnErr result (self.new ≡ self.old) }
    {
        let mut ports = self.ports_of(id);
        add_port(&mut ports, port);
        let seen = Seen {
            id,
            ports,
            args,
            total: None,
            state: State::Found,
        };
        match self.devices.insert(id, seen) {
            Ok(_) => Ok(()),
            Err(_) => Err(NoMemory),
        }
    }

    /// Notes what a device said.
    pub(crate) fn learn(&mut self, i: usize, known: Known)
        requires { i < length self.old }
        ensures { (s : Seen) × (slice_get self.old i ≡ Some s)
            × (self.new ≡ slice_set self.old i (with_known s known)) }
    {
        match self.devices.get_index_mut(i) {
            Some(seen) => {
                seen.total = known.total;
                seen.state = known.state;
            }
            None => unreachable!(),
        }
    }

    /// How many devices there are.
    pub fn count(&self) -> usize
        ensures { result ≡ length self.now }
    {
        self.devices.len()
    }

    /// A device: they are numbered from 0, in their order.
    pub fn device(&self, i: usize) -> &Seen
        requires { i < length self.now }
        ensures { slice_get self.now i ≡ Some result.now }
    {
        match self.devices.get_index(i) {
            Some((_, seen)) => seen,
            None => unreachable!(),
        }
    }
}
