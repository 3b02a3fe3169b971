//! Where the stations of a world stand, and which frames they get.
ghost use Rattle.std.specs.Prelude.{◌≡◌, ℕ, List, option_map, IfSome, IsSomeAnd};
ghost use Rattle.std.specs.List.{find};
ghost use Rattle.aoe_base.specs.Addresses.{holds};
ghost use Rattle.aoe_history.specs.Setup.{Setup};
ghost use Rattle.aoe_script.specs.Rules.{same};
ghost use Rattle.aoe_sim_setup.specs.Layout.{Placed};
ghost use Rattle.aoe_world.specs.Schedule.{is_for};
ghost use Rattle.aoe_world.specs.Sim.{ArePlaces, IsAt};

use crate::act::At;
use aoe_base::{BROADCAST, Mac, Ports};
use aoe_script::Name;

/// A station by its name and its ports.
#[derive(Drop)]
pub(crate) struct Place {
    pub(crate) name: Name,
    pub(crate) ports: Ports,
    pub(crate) at: At,
}

/// Whether these bytes are one of the addresses.
fn has(ports: &[Mac], address: &[u8]) -> bool
    ensures { result ≡ holds ports.now (record { 0 = address.now }) }
{
    ports.iter().any(|port| port.0.as_slice() == address)
}

impl Place {
    /// Whether the station gets a frame with this destination and this source. Both are shorter
    /// than an address where the frame ends there.
    pub(crate) fn gets(&self, destination: &[u8], source: &[u8]) -> bool
        ensures { result ≡ is_for (record { 0 = destination.now })
            (record { 0 = source.now }) self.now.ports.items }
    {
        if destination == BROADCAST.0.as_slice() {
            !has(&self.ports, source)
        } else {
            has(&self.ports, destination)
        }
    }
}

fn place_named<'a>(places: &'a [Place], name: &Name) -> Option<&'a Place>
    ensures { option_map (λ place. place.now) result
        ≡ find (λ place. same place.name name.now) places.now }
{
    places.iter().find(|place| place.name == *name)
}

/// Where the station with a name stands.
pub(crate) fn place_of(places: &[Place], name: &Name) -> Option<At>
    ensures { (s : Setup) (majors : List ℕ) (stations : List Placed) → ArePlaces s majors stations places.now
        → IfSome (find (λ p. same p.name name.now) stations) (λ p. IsSomeAnd result (λ at. IsAt s majors at p.station)) }
{
    match place_named(places, name) {
        Some(place) => Some(place.at),
        None => None,
    }
}
