//! The stations.
ghost use Rattle.std.specs.Prelude.{◌≡◌, [], ◌∷◌, IfOk, None};
ghost use Rattle.aoe_script.specs.declared.setup.Setup.TheVariants.{Attach, Host};
ghost use Rattle.aoe_soak.specs.Soak.{shelf_s, stations, two_ports};

use aoe_base::{Mac, NoMemory, Ports};
use aoe_script::{Name, Script, Setup};
use std::alloc::Global;

/// A name of one letter.
pub(crate) fn named(letter: u8) -> Name
    ensures { result ≡ record { items = letter ∷ [] } }
{
    let mut name = Name::new();
    name.push(letter);
    name
}

/// The two addresses of a station, told from other stations by the last byte but one.
fn ports(station: u8) -> Ports
    ensures { result ≡ two_ports station }
{
    let mut ports = Ports::new();
    ports.push(Mac([2, 0, 0, 0, station, 0]));
    ports.push(Mac([2, 0, 0, 0, station, 1]));
    ports
}

/// The line of a host.
fn host(letter: u8, station: u8) -> Setup
    ensures { result ≡ Host (record { items = letter ∷ [] }) (two_ports station) None None }
{
    Setup::Host {
        name: named(letter),
        ports: ports(station),
        room: None,
        dead: None,
    }
}

/// The line of a host that knows the device.
fn attach(letter: u8) -> Setup
    ensures { result ≡ Attach (record { items = letter ∷ [] }) shelf_s 0 }
{
    Setup::Attach {
        host: named(letter),
        shelf: named(b's'),
        minor: 0,
    }
}

/// The setup lines.
fn setups() -> [Setup; 7]
    ensures { result ≡ stations }
{
    let life = Setup::Life {
        requests: 2000,
        responses: None,
    };
    let shelf = Setup::Shelf {
        name: named(b's'),
        major: 1,
        ports: ports(1),
        mtu: 1500,
    };
    let slot = Setup::Slot {
        shelf: named(b's'),
        minor: 0,
        sectors: 4096,
        room: None,
    };
    let (a, b) = (host(b'a', 10), host(b'b', 11));
    [life, shelf, slot, a, b, attach(b'a'), attach(b'b')]
}

/// A script of the stations, without an event.
pub(crate) fn stations(alloc: Global) -> Result<Script, NoMemory>
    ensures { IfOk result (λ script. script ≡ record { setups = stations; events = [] }) }
{
    Script::of_setups(alloc, setups())
}
