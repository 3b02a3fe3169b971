//! The stations that the setup lines of a script declare.
ghost use Rattle.std.specs.Prelude.{ℕ, ◌≡◌, ◌+◌, ◌<◌, ◌≤◌, ◌++◌, ◌∷◌, [], List, length, map, slice_get, Option, None, Some, false, option_map, IfOk, IfSome, MatchOption, OnOk};
ghost use Rattle.std.specs.List.{find};
ghost use Rattle.std.specs.Option.{option_to_list};
ghost use Rattle.aoe_base.specs.declared.address.Mac.{Mac};
ghost use Rattle.aoe_history.specs.Setup.{shelf_of, SlotSetup};
ghost use Rattle.aoe_sim_hosts.specs.Host.{IsSettled};
ghost use Rattle.aoe_initiator.specs.Host.{Matches};
ghost use Rattle.aoe_initiator.specs.HostLog.{Event as LogEvent};
ghost use Rattle.aoe_sim_setup.specs.Stations.{IsCache};
ghost use Rattle.aoe_sim_setup.specs.Layout.{about, attached_to, host_of, life_in, majors_of, setup_of, slot_named, slot_of_shelf, slot_with};
ghost use Rattle.aoe_sim_shelves.specs.Shelf.{Serves};
ghost use Rattle.aoe_script.specs.Rules.{is_shelf_named, is_slot, same};
ghost use Rattle.aoe_world.specs.Build.{CanAdd, CanAttach, IsBuilt};
ghost use Rattle.aoe_world.specs.Sim.{IsNetwork, IsReady};
ghost use Rattle.aoe_world.specs.World.{IsStaged};

use crate::act::At;
use crate::place::Place;
use crate::sim::Sim;
use aoe_base::{Lifetimes, Millis, NoMemory, Ports, TargetId, copy_of};
use aoe_frame::Frame;
use aoe_history::Run;
use aoe_initiator::{Attached, DEAD, FlushCommand, LIFETIMES, ROOM};
use aoe_script::{Name, Script, Setup};
use aoe_sim_hosts::SimHost;
use aoe_sim_setup::layout_law;
use aoe_sim_shelves::SimShelf;
use aoe_target::max_sectors;
use std::alloc::Global;

/// The words of a shelf line behind its name.
#[derive(Drop)]
struct ShelfLine {
    major: u64,
    ports: Ports,
    mtu: u64,
}

/// The words of a slot line behind the name of its shelf.
#[derive(Clone, Copy)]
struct SlotLine {
    minor: u64,
    sectors: u64,
    room: Option<u64>,
}

/// A slot to be added to a shelf: the words of its line behind the name of the shelf, and whether a
/// line marks it as read-only.
#[derive(Clone, Copy)]
struct NewSlot {
    minor: u64,
    sectors: u64,
    room: Option<u64>,
    read_only: bool,
}

/// The words of a host line.
#[derive(Drop)]
struct HostLine {
    name: Name,
    ports: Ports,
    room: Option<u64>,
    dead: Option<u64>,
}

/// Whether two names are one.
fn same(a: &Name, b: &Name) -> bool
    ensures { result ≡ same a.now b.now }
{
    a.as_slice() == b.as_slice()
}

/// How long frames can be handed over, where the line says it.
fn life_in(line: &Setup) -> Option<Lifetimes>
    ensures { result ≡ life_in line.now }
{
    match line {
        Setup::Life {
            requests,
            responses,
        } => Some(Lifetimes {
            requests: Millis(*requests),
            responses: Millis(responses.unwrap_or(*requests)),
        }),
        _ => None,
    }
}

/// How long frames can be handed over.
fn life_of(script: &Script) -> Lifetimes
    ensures { result ≡ (setup_of script.now.setups).life }
{
    'lines: for i in 0..script.setups() {
        if let Some(life) = life_in(script.setup(i)) {
            return life;
        }
    }
    LIFETIMES
}

/// What a line says of the shelf with a name.
fn shelf_in(line: &Setup, wanted: &Name) -> Option<ShelfLine>
    ensures { MatchOption result (is_shelf_named wanted.now line.now ≡ false)
        (λ x. line.now ≡ Setup.Shelf wanted.now x.major x.ports x.mtu) }
{
    match line {
        Setup::Shelf {
            name,
            major,
            ports,
            mtu,
        } => {
            if same(name, wanted) {
                Some(ShelfLine {
                    major: *major,
                    ports: copy_of(ports),
                    mtu: *mtu,
                })
            } else {
                None
            }
        }
        _ => None,
    }
}

/// What the first line of the shelf with a name says.
fn shelf_named(script: &Script, wanted: &Name) -> Option<ShelfLine>
    ensures found { find (is_shelf_named wanted.now) script.now.setups
        ≡ option_map (λ x. Setup.Shelf wanted.now x.major x.ports x.mtu) result }
    ensures words { IfSome result (λ x. (x.major ≤ 65534) × (1500 ≤ x.mtu) × (x.mtu ≤ 9000)) }
{
    'lines: for i in 0..script.setups() {
        if let Some(line) = shelf_in(script.setup(i), wanted) {
            return Some(line);
        }
    }
    None
}

/// What a line says of the slot with a number.
fn slot_at(line: &Setup, wanted: &Name, number: u64) -> Option<SlotLine>
    ensures { MatchOption result (is_slot wanted.now number line.now ≡ false)
        (λ x. line.now ≡ Setup.Slot wanted.now number x.sectors x.room) }
{
    match line {
        Setup::Slot {
            shelf,
            minor,
            sectors,
            room,
        } => {
            if *minor == number && same(shelf, wanted) {
                Some(SlotLine {
                    minor: *minor,
                    sectors: *sectors,
                    room: *room,
                })
            } else {
                None
            }
        }
        _ => None,
    }
}

/// What the line of a shelf's slot with a number says.
fn slot_numbered(script: &Script, wanted: &Name, number: u64) -> Option<SlotLine>
    ensures found { find (is_slot wanted.now number) script.now.setups
        ≡ option_map (λ x. Setup.Slot wanted.now number x.sectors x.room) result }
    ensures number { IfSome result (λ x. number ≤ 254) }
{
    'lines: for i in 0..script.setups() {
        if let Some(slot) = slot_at(script.setup(i), wanted, number) {
            return Some(slot);
        }
    }
    None
}

/// What a host knows of the slot of a shelf.
fn known_of(script: &Script, shelf: &Name, minor: u64) -> Option<Attached>
    ensures { result ≡ option_map about (slot_named script.now.setups shelf.now minor) }
{
    let line = shelf_named(script, shelf)?;
    let slot = slot_numbered(script, shelf, minor)?;
    Some(Attached {
        id: TargetId {
            major: line.major as u16,
            minor: minor as u8,
        },
        remotes: line.ports,
        total: slot.sectors,
        max: max_sectors(line.mtu as u32),
        flush: FlushCommand::CacheExt,
    })
}

/// What a host knows of the slot that a line attaches it to.
fn attached_to(script: &Script, host: &Name, line: &Setup) -> Option<Attached>
    ensures { result ≡ attached_to script.now.setups host.now line.now }
{
    match line {
        Setup::Attach {
            host: other,
            shelf,
            minor,
        } => {
            if same(other, host) {
                known_of(script, shelf, *minor)
            } else {
                None
            }
        }
        _ => None,
    }
}

/// Attaches a host to a device, where there is one.
fn attach(host: &mut SimHost, known: Option<Attached>) -> Result<(), NoMemory>
    requires can { IfSome known (λ d. CanAttach d host.old.core.devices) }
    ensures devices { OnOk result (map (λ d. d.about) host.new.core.devices
        ≡ map (λ d. d.about) host.old.core.devices ++ option_to_list known) }
    ensures rest { OnOk result (host.new ≡ record host.old { core = record host.old.core { devices = host.new.core.devices } }) }
    ensures matches { OnOk result ((log : List LogEvent) → Matches log host.old.core
        → Matches log host.new.core) }
{
    match known {
        Some(d) => host.attach(d.id, &d.remotes, d.total, d.max, d.flush),
        None => Ok(()),
    }
}

fn host_line(name: &Name, ports: &Ports, room: Option<u64>, dead: Option<u64>) -> HostLine
    ensures { result ≡ record { name = name.now; ports = ports.now; room = room; dead = dead } }
{
    HostLine {
        name: copy_of(name),
        ports: copy_of(ports),
        room,
        dead,
    }
}

/// The host of a line, attached to its devices.
fn build_host(alloc: Global, script: &Script, line: HostLine) -> Result<SimHost, NoMemory>
    requires { (k : ℕ) × (slice_get script.now.setups k
        ≡ Some (Setup.Host line.name line.ports line.room line.dead)) }
    ensures { IfOk result (λ x. IsSettled (setup_of script.now.setups)
        (host_of script.now.setups line.name line.ports.items line.room line.dead) [] x) }
{
    let count = script.setups();
    let life = life_of(script);
    let room = line.room.unwrap_or(u64::from(ROOM)) as u32;
    let dead = Millis(line.dead.unwrap_or(DEAD.0));
    let mut host = SimHost::new(alloc, copy_of(&line.name), &line.ports, life, room, dead)?;
    'lines: for i in 0..count {
        attach(&mut host, attached_to(script, &line.name, script.setup(i)))?;
    }
    Ok(host)
}

/// What the lines of a script say of the slot of a line, where it is one of the shelf with a name.
fn slot_in(script: &Script, line: &Setup, wanted: &Name) -> Option<NewSlot>
    ensures line { IfSome result (λ x. line.now ≡ Setup.Slot wanted.now x.minor x.sectors x.room) }
    ensures slot { (major : ℕ) (ports : List Mac) (mtu : ℕ) → slot_of_shelf script.now.setups wanted.now major ports mtu line.now
        ≡ option_map (λ x. slot_with major ports mtu x.minor x.sectors x.room x.read_only) result }
{
    match line {
        Setup::Slot {
            shelf,
            minor,
            sectors,
            room,
        } => {
            if same(shelf, wanted) {
                Some(NewSlot {
                    minor: *minor,
                    sectors: *sectors,
                    room: *room,
                    read_only: script.is_read_only(wanted, *minor),
                })
            } else {
                None
            }
        }
        _ => None,
    }
}

/// The room of a cache, in 32 bits.
fn small_room(room: Option<u64>) -> Option<u32>
    requires { IsCache room }
    ensures { result ≡ room }
{
    match room {
        Some(room) => Some(room as u32),
        None => None,
    }
}

/// Adds a slot to a shelf, where there is one.
fn add_slot(shelf: &mut SimShelf, alloc: Global, slot: Option<NewSlot>) -> Result<(), NoMemory>
    requires can { IfSome slot (λ x. CanAdd x.minor x.sectors x.room shelf.old) }
    ensures serves { OnOk result ((slots : List SlotSetup) → Serves slots [] shelf.old → Serves (slots
        ++ option_to_list (option_map (λ x. slot_with shelf.old.shelf.major shelf.old.shelf.ports shelf.old.shelf.mtu x.minor x.sectors x.room x.read_only) slot)) [] shelf.new) }
    ensures stations { OnOk result (map (λ t. t.station) shelf.new.shelf.targets ≡ map (λ t. t.station) shelf.old.shelf.targets
        ++ map (λ s. s.station) (option_to_list (option_map (λ x. slot_with shelf.old.shelf.major shelf.old.shelf.ports shelf.old.shelf.mtu x.minor x.sectors x.room x.read_only) slot))) }
    ensures rest { OnOk result (shelf.new.shelf
        ≡ record shelf.old.shelf { targets = shelf.new.shelf.targets }) }
{
    match slot {
        Some(x) => {
            let room = small_room(x.room);
            shelf.add(alloc, x.minor as u8, x.sectors, room, x.read_only)
        }
        None => Ok(()),
    }
}

/// The shelf of a line, with its slots.
fn build_shelf(
    alloc: Global,
    script: &Script,
    name: &Name,
    line: ShelfLine,
) -> Result<SimShelf, NoMemory>
    requires { (k : ℕ) × (slice_get script.now.setups k
        ≡ Some (Setup.Shelf name.now line.major line.ports line.mtu)) }
    ensures number { IfOk result (λ x. x.shelf.major ≡ line.major) }
    ensures serves { IfOk result (λ x. Serves (shelf_of
        (setup_of script.now.setups) line.major) [] x) }
{
    let count = script.setups();
    let ports = copy_of(&line.ports);
    let mut shelf = SimShelf::new(alloc, line.major as u16, ports, line.mtu as u32)?;
    'lines: for i in 0..count {
        add_slot(&mut shelf, alloc, slot_in(script, script.setup(i), name))?;
    }
    Ok(shelf)
}

/// The stations of the first lines of a script.
#[derive(Drop)]
pub(crate) struct Builder<'a> {
    script: &'a Script,
    pub(crate) sim: Sim,

    /// In the order of their lines.
    pub(crate) places: Vec<Place>,
}

impl Builder<'_> {
    /// Records the place of a station.
    fn place(&mut self, name: &Name, ports: &Ports, at: At) -> Result<(), NoMemory>
        ensures places { OnOk result (self.new.places.items ≡ self.old.places.items
            ++ record { name = name.now; ports = ports.now; at = at } ∷ []) }
        ensures sim { self.new.sim ≡ self.old.sim }
        ensures script { self.new.script ≡ self.old.script }
    {
        let name = copy_of(name);
        let ports = copy_of(ports);
        match self.places.push(Place { name, ports, at }) {
            Ok(()) => Ok(()),
            Err(_) => Err(NoMemory),
        }
    }

    /// Adds a shelf behind the others.
    fn add_shelf(&mut self, name: &Name, ports: &Ports, shelf: SimShelf) -> Result<(), NoMemory>
        ensures shelves { OnOk result (self.new.sim.shelves.items ≡ self.old.sim.shelves.items
            ++ shelf ∷ []) }
        ensures places { OnOk result (self.new.places.items ≡ self.old.places.items
            ++ record { name = name.now; ports = ports.now; at = At.Shelf (length self.old.sim.shelves.items) } ∷ []) }
        ensures hosts { self.new.sim.hosts ≡ self.old.sim.hosts }
        ensures run { self.new.sim.run ≡ self.old.sim.run }
        ensures script { self.new.script ≡ self.old.script }
    {
        let at = At::Shelf(self.sim.shelves.len());
        match self.sim.shelves.push(shelf) {
            Ok(()) => self.place(name, ports, at),
            Err(_) => Err(NoMemory),
        }
    }

    /// Adds a host behind the others.
    fn add_host(&mut self, name: &Name, ports: &Ports, host: SimHost) -> Result<(), NoMemory>
        ensures hosts { OnOk result (self.new.sim.hosts.items ≡ self.old.sim.hosts.items
            ++ host ∷ []) }
        ensures places { OnOk result (self.new.places.items ≡ self.old.places.items
            ++ record { name = name.now; ports = ports.now; at = At.Host (length self.old.sim.hosts.items) } ∷ []) }
        ensures shelves { self.new.sim.shelves ≡ self.old.sim.shelves }
        ensures run { self.new.sim.run ≡ self.old.sim.run }
        ensures script { self.new.script ≡ self.old.script }
    {
        let at = At::Host(self.sim.hosts.len());
        match self.sim.hosts.push(host) {
            Ok(()) => self.place(name, ports, at),
            Err(_) => Err(NoMemory),
        }
    }

    /// Builds the station of a line, where it declares one.
    fn build(&mut self, alloc: Global, i: usize) -> Result<(), NoMemory>
        requires there { i < length self.old.script.now.setups }
        requires built { IsBuilt self.old.script.now.setups i self.old.sim self.old.places.items }
        ensures built { OnOk result (IsBuilt self.old.script.now.setups
            (i + 1) self.new.sim self.new.places.items) }
        ensures script { self.new.script ≡ self.old.script }
    {
        let script = self.script;
        match script.setup(i) {
            Setup::Shelf {
                name,
                major,
                ports,
                mtu,
            } => {
                let line = ShelfLine {
                    major: *major,
                    ports: copy_of(ports),
                    mtu: *mtu,
                };
                let shelf = build_shelf(alloc, script, name, line)?;
                self.add_shelf(name, ports, shelf)
            }
            Setup::Host {
                name,
                ports,
                room,
                dead,
            } => {
                let line = host_line(name, ports, *room, *dead);
                let host = build_host(alloc, script, line)?;
                self.add_host(name, ports, host)
            }
            Setup::Life { .. }
            | Setup::Slot { .. }
            | Setup::Attach { .. }
            | Setup::Readonly { .. } => Ok(()),
        }
    }
}

impl<'a> Builder<'a> {
    /// No station, before anything happens.
    fn empty(alloc: Global, script: &'a Script) -> Builder<'a>
        ensures built { IsBuilt script.now.setups 0 result.sim result.places.items }
        ensures script { result.script.now ≡ script.now }
    {
        let sim = Sim {
            run: Run::new(alloc, life_of(script)),
            shelves: Vec::new(alloc),
            hosts: Vec::new(alloc),
            frame: Frame::new(),
            made: Frame::new(),
        };
        Builder {
            script,
            sim,
            places: Vec::new(alloc),
        }
    }

    /// The stations of a script, before anything happens.
    pub(crate) fn new(alloc: Global, script: &'a Script) -> Result<Builder<'a>, NoMemory>
        ensures network { IsNetwork (setup_of script.now.setups) (majors_of script.now.setups) }
        ensures staged { IfOk result (λ r. IsStaged script.now r.places.items r.sim 1) }
        ensures ready { IfOk result (λ r. IsReady (setup_of script.now.setups)
            (majors_of script.now.setups) r.sim) }
        ensures entries { IfOk result (λ r. r.sim.run.entries ≡ []) }
        ensures script { IfOk result (λ r. r.script.now ≡ script.now) }
    {
        layout_law();
        let count = script.setups();
        let mut builder = Builder::empty(alloc, script);
        'lines: for i in 0..count {
            builder.build(alloc, i)?;
        }
        Ok(builder)
    }
}
