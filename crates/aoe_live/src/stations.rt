//! The stations: one shelf with one slot, and one host that is attached to it.
ghost use Rattle.std.specs.Prelude.{◌≡◌, ◌≤◌, [], ◌∷◌, IfOk};
ghost use Rattle.aoe_base.specs.Sizes.{most_simulated};
ghost use Rattle.aoe_live.specs.Stations.{stations};

use aoe_base::{Mac, NoMemory, Ports, TargetId};
use aoe_script::{Name, Script, Setup};
use std::alloc::Global;

pub(crate) const DEVICE: TargetId = TargetId { major: 1, minor: 0 };

/// A name of one letter.
pub(crate) fn named(letter: u8) -> Name
    ensures { result ≡ record { items = letter ∷ [] } }
{
    let mut name = Name::new();
    name.push(letter);
    name
}

/// The address of a station, told from other stations by its last byte.
fn port(last: u8) -> Ports
    ensures { result ≡ record { items = (record { 0 = 2 ∷ 0 ∷ 0 ∷ 0 ∷ 0 ∷ last ∷ [] }) ∷ [] } }
{
    let mut ports = Ports::new();
    ports.push(Mac([2, 0, 0, 0, 0, last]));
    ports
}

/// The setup lines, where the slot has so many sectors.
fn setups(sectors: u64) -> [Setup; 5]
    ensures { result ≡ stations sectors }
{
    let life = Setup::Life {
        requests: 2000,
        responses: None,
    };
    let shelf = Setup::Shelf {
        name: named(b's'),
        major: 1,
        ports: port(1),
        mtu: 1500,
    };
    let slot = Setup::Slot {
        shelf: named(b's'),
        minor: 0,
        sectors,
        room: None,
    };
    let host = Setup::Host {
        name: named(b'a'),
        ports: port(10),
        room: None,
        dead: None,
    };
    let attach = Setup::Attach {
        host: named(b'a'),
        shelf: named(b's'),
        minor: 0,
    };
    [life, shelf, slot, host, attach]
}

/// A script of the stations, without an event.
pub(crate) fn stations(alloc: Global, sectors: u64) -> Result<Script, NoMemory>
    requires some { 1 ≤ sectors }
    requires most { sectors ≤ most_simulated }
    ensures { IfOk result (λ script. script ≡ record { setups = stations sectors; events = [] }) }
{
    Script::of_setups(alloc, setups(sectors))
}
