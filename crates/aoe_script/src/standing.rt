//! What stands by the setup lines so far. There are a few thousand of them at most, so each
//! question goes over all of them.
ghost use Rattle.std.specs.Prelude.{◌≡◌, ◌+◌, ◌||◌, count_by, sum_by};
ghost use Rattle.std.specs.List.{list_any};
ghost use Rattle.aoe_script.specs.Rules.{are_too_many, attaches, has_attached, has_device, has_major, has_port, is_attached, is_full, is_host, is_host_named, is_known, is_life, is_shelf, is_shelf_named, is_slot, is_slot_of, is_station_named, is_taken, marks, same, sectors_of};
ghost use Rattle.aoe_base.specs.Addresses.{holds};
ghost use Rattle.aoe_script.specs.Kinds.{is_of};

use crate::setup::{Name, Setup};
use aoe_base::{Mac, TargetId};

/// The most shelves, hosts, and slots of one shelf.
const MOST_OF_A_KIND: usize = 16;

/// The most sectors of all slots.
const MOST_SECTORS: u64 = 262_144;

/// Whether two names are one.
fn same(a: &Name, b: &Name) -> bool
    ensures { result ≡ same a.now b.now }
{
    a.as_slice() == b.as_slice()
}

/// Whether an address stands in a list.
fn holds(list: &[Mac], mac: &Mac) -> bool
    ensures { result ≡ holds list.now mac.now }
{
    list.contains(mac)
}

impl Setup {
    fn is_life(&self) -> bool
        ensures { result ≡ is_life self.now }
    {
        matches!(self, Setup::Life { .. })
    }

    fn is_shelf(&self) -> bool
        ensures { result ≡ is_shelf self.now }
    {
        matches!(self, Setup::Shelf { .. })
    }

    fn is_host(&self) -> bool
        ensures { result ≡ is_host self.now }
    {
        matches!(self, Setup::Host { .. })
    }

    fn is_shelf_named(&self, name: &Name) -> bool
        ensures { result ≡ is_shelf_named name.now self.now }
    {
        match self {
            Setup::Shelf { name: other, .. } => same(other, name),
            _ => false,
        }
    }

    fn is_host_named(&self, name: &Name) -> bool
        ensures { result ≡ is_host_named name.now self.now }
    {
        match self {
            Setup::Host { name: other, .. } => same(other, name),
            _ => false,
        }
    }

    fn is_station_named(&self, name: &Name) -> bool
        ensures { result ≡ is_station_named name.now self.now }
    {
        self.is_shelf_named(name) || self.is_host_named(name)
    }

    fn has_major(&self, major: u64) -> bool
        ensures { result ≡ has_major major self.now }
    {
        match self {
            Setup::Shelf { major: other, .. } => *other == major,
            _ => false,
        }
    }

    fn has_port(&self, mac: &Mac) -> bool
        ensures { result ≡ has_port mac.now self.now }
    {
        match self {
            Setup::Shelf { ports, .. } => holds(ports.as_slice(), mac),
            Setup::Host { ports, .. } => holds(ports.as_slice(), mac),
            _ => false,
        }
    }

    fn is_slot_of(&self, shelf: &Name) -> bool
        ensures { result ≡ is_slot_of shelf.now self.now }
    {
        match self {
            Setup::Slot { shelf: other, .. } => same(other, shelf),
            _ => false,
        }
    }

    fn is_slot(&self, shelf: &Name, minor: u64) -> bool
        ensures { result ≡ is_slot shelf.now minor self.now }
    {
        match self {
            Setup::Slot {
                shelf: other,
                minor: number,
                ..
            } => *number == minor && same(other, shelf),
            _ => false,
        }
    }

    fn sectors(&self) -> u64
        ensures { result ≡ sectors_of self.now }
    {
        match self {
            Setup::Slot { sectors, .. } => *sectors,
            _ => 0,
        }
    }

    fn attaches(&self, host: &Name, shelf: &Name, minor: u64) -> bool
        ensures { result ≡ attaches host.now shelf.now minor self.now }
    {
        match self {
            Setup::Attach {
                host: a,
                shelf: b,
                minor: number,
            } => *number == minor && same(a, host) && same(b, shelf),
            _ => false,
        }
    }

    fn marks(&self, shelf: &Name, minor: u64) -> bool
        ensures { result ≡ marks shelf.now minor self.now }
    {
        match self {
            Setup::Readonly {
                shelf: other,
                minor: number,
            } => *number == minor && same(other, shelf),
            _ => false,
        }
    }

    fn has_device(&self, setups: &[Setup], dev: &TargetId) -> bool
        ensures { result ≡ has_device setups.now dev.now self.now }
    {
        match self {
            Setup::Shelf { name, major, .. } => {
                *major == u64::from(dev.major)
                    && any(setups, &Kind::Slot(name, u64::from(dev.minor)))
            }
            _ => false,
        }
    }

    fn has_attached(&self, setups: &[Setup], host: &Name, dev: &TargetId) -> bool
        ensures { result ≡ has_attached setups.now host.now dev.now self.now }
    {
        match self {
            Setup::Shelf { name, major, .. } => {
                *major == u64::from(dev.major)
                    && any(setups, &Kind::Attached(host, name, u64::from(dev.minor)))
            }
            _ => false,
        }
    }
}

/// What a setup line may declare.
#[derive(Clone, Copy)]
pub(crate) enum Kind<'a> {
    Life,
    Shelf,
    Host,
    ShelfNamed(&'a Name),
    HostNamed(&'a Name),
    StationNamed(&'a Name),
    Major(u64),
    Port(&'a Mac),
    SlotOf(&'a Name),
    Slot(&'a Name, u64),
    Attached(&'a Name, &'a Name, u64),
    Marked(&'a Name, u64),
}

impl Setup {
    /// Whether it declares something of this kind.
    fn is(&self, kind: &Kind) -> bool
        ensures { result ≡ is_of kind.now self.now }
    {
        match kind {
            Kind::Life => self.is_life(),
            Kind::Shelf => self.is_shelf(),
            Kind::Host => self.is_host(),
            Kind::ShelfNamed(name) => self.is_shelf_named(name),
            Kind::HostNamed(name) => self.is_host_named(name),
            Kind::StationNamed(name) => self.is_station_named(name),
            Kind::Major(major) => self.has_major(*major),
            Kind::Port(mac) => self.has_port(mac),
            Kind::SlotOf(shelf) => self.is_slot_of(shelf),
            Kind::Slot(shelf, minor) => self.is_slot(shelf, *minor),
            Kind::Attached(host, shelf, minor) => self.attaches(host, shelf, *minor),
            Kind::Marked(shelf, minor) => self.marks(shelf, *minor),
        }
    }
}

/// Whether something of this kind is declared.
pub(crate) fn any(setups: &[Setup], kind: &Kind) -> bool
    ensures { result ≡ list_any (is_of kind.now) setups.now }
{
    setups.iter().any(|setup| setup.is(kind))
}

/// Whether there is as much of this kind as there may be.
pub(crate) fn is_full(setups: &[Setup], kind: &Kind) -> bool
    ensures { result ≡ is_full (is_of kind.now) setups.now }
{
    setups.iter().filter(|setup| setup.is(kind)).count() >= MOST_OF_A_KIND
}

/// Whether a station has one of these addresses.
fn any_port_of(setups: &[Setup], macs: &[Mac]) -> bool
    ensures { result ≡ list_any (λ mac. list_any (has_port mac) setups.now) macs.now }
{
    macs.iter().any(|mac| any(setups, &Kind::Port(mac)))
}

/// Whether a station's name or one of its addresses stands already.
pub(crate) fn is_taken(setups: &[Setup], name: &Name, ports: &[Mac]) -> bool
    ensures { result ≡ is_taken setups.now name.now ports.now }
{
    any(setups, &Kind::StationNamed(name)) || any_port_of(setups, ports)
}

/// Whether a device stands.
pub(crate) fn is_known(setups: &[Setup], dev: &TargetId) -> bool
    ensures { result ≡ is_known setups.now dev.now }
{
    setups.iter().any(|setup| setup.has_device(setups, dev))
}

/// Whether a host is attached to a device.
pub(crate) fn is_attached(setups: &[Setup], host: &Name, dev: &TargetId) -> bool
    ensures { result ≡ is_attached setups.now host.now dev.now }
{
    setups
        .iter()
        .any(|setup| setup.has_attached(setups, host, dev))
}

/// Whether there are too many sectors with so many more.
pub(crate) fn are_too_many(setups: &[Setup], sectors: u64) -> bool
    ensures { result ≡ are_too_many setups.now sectors }
{
    let mut total = sectors;
    'sectors: for setup in setups {
        total = total.saturating_add(setup.sectors());
    }
    total > MOST_SECTORS
}
