//! The kinds of ports.
ghost use Rattle.std.specs.Prelude.{◌≡◌};
ghost use Rattle.aoe_vlan.specs.Tag.{carries, vlan_by, vlan_of};

use crate::tag::{is_frame, tag_number};
use aoe_base::copy_of;
use arrayvec::ArrayVec;

/// The most VLANs of a trunk.
pub const MAX_VLANS: usize = 64;

/// Of which VLANs a port is, by their numbers, 1 to 4094.
#[derive(Drop, PartialEq, Eq)]
pub enum PortKind {
    /// One VLAN, whose frames have no tag here, or one with number 0.
    Access(u16),

    /// Several VLANs, whose frames have the tag of theirs.
    Trunk(ArrayVec<u16, MAX_VLANS>),
}

impl Default for PortKind {
    /// A port of VLAN 1, the default VLAN (IEEE 802.1Q, "Reserved VID values").
    fn default() -> PortKind {
        PortKind::Access(1)
    }
}

impl PortKind {
    /// Whether the port is of a VLAN.
    pub fn carries(&self, vid: u16) -> bool
        ensures { result ≡ carries vid self.now }
    {
        match self {
            PortKind::Access(number) => *number == vid,
            PortKind::Trunk(numbers) => numbers.contains(&vid),
        }
    }

    /// A copy, which takes no memory.
    pub fn copy(&self) -> PortKind
        ensures { result ≡ self.now }
    {
        match self {
            PortKind::Access(number) => PortKind::Access(*number),
            PortKind::Trunk(numbers) => PortKind::Trunk(copy_of(numbers)),
        }
    }

    // The VLAN of a frame whose tag has this number, or that has no tag.
    fn vlan_by(&self, number: Option<u16>) -> Option<u16>
        ensures { result ≡ vlan_by self.now number }
    {
        match (self, number) {
            (PortKind::Access(vid), None | Some(0)) => Some(*vid),
            (PortKind::Trunk(_), Some(number)) if self.carries(number) => Some(number),
            _ => None,
        }
    }

    /// The VLAN of a frame that comes in at the port, where it has one.
    pub fn vlan_of(&self, frame: &[u8]) -> Option<u16>
        ensures { result ≡ vlan_of self.now frame.now }
    {
        if !is_frame(frame) {
            return None;
        }
        self.vlan_by(tag_number(frame))
    }
}
