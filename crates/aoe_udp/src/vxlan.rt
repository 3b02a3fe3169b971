//! What a datagram is: a frame, or a frame of a network behind the header of VXLAN.
ghost use Rattle.std.specs.Prelude.{◌≡◌, ◌≢◌, ◌≤◌, ℕ, List, None, Some, true, option_map, OnOk, IfSome};
ghost use Rattle.aoe_wire.specs.Frames.{is_aoe};
ghost use Rattle.aoe_udp.specs.Vxlan.{datagram_of, frame_of, is_of, vxlan_head};

use aoe_base::NoMemory;
use aoe_wire::is_frame;

/// The greatest number of a network: it has 24 bits (RFC 7348, section 5).
pub const LAST_VNI: u32 = 0xff_ffff;

/// How many bytes of VXLAN stand before a frame.
pub(crate) const HEAD_LEN: usize = 8;

/// The flag I, which says that the header has the number of a network.
const HAS_VNI: u8 = 0x08;

/// The header before the frames of a network: the flags and three reserved bytes, then the number in
/// three bytes and one reserved.
fn head(vni: u32) -> [u8; HEAD_LEN]
    requires { vni ≤ 16777215 }
    ensures { result ≡ vxlan_head vni }
{
    let (high, middle, low) = (vni / 65536, vni / 256 % 256, vni % 256);
    [HAS_VNI, 0, 0, 0, high as u8, middle as u8, low as u8, 0]
}

/// Makes `datagram` what is sent for a frame on a network.
pub(crate) fn wrap(datagram: &mut Vec<u8>, vni: u32, frame: &[u8]) -> Result<(), NoMemory>
    requires { vni ≤ 16777215 }
    ensures { OnOk result (datagram.new.items ≡ datagram_of (Some vni) frame.now) }
{
    datagram.clear();
    datagram.extend_from_slice(&head(vni))?;
    datagram.extend_from_slice(frame)?;
    Ok(())
}

/// Whether a datagram has the flag and the number of the network. What is reserved isn't looked at.
fn is_of(vni: u32, datagram: &[u8]) -> bool
    ensures { result ≡ is_of vni datagram.now }
{
    datagram.len() >= HEAD_LEN
        && datagram[0] / HAS_VNI % 2 == 1
        && u32::from(datagram[4]) * 65536 + u32::from(datagram[5]) * 256 + u32::from(datagram[6])
            == vni
}

/// The frame of AoE that a datagram brings: the datagram itself, or what stands behind the header of
/// the network.
pub(crate) fn frame_of(vxlan: Option<u32>, datagram: &[u8]) -> Option<&[u8]>
    ensures frame { option_map (λ frame. frame.now) result ≡ frame_of vxlan datagram.now }
    ensures aoe { IfSome result (λ frame. is_aoe frame.now ≡ true) }
{
    let frame = match vxlan {
        None => datagram,
        Some(vni) if is_of(vni, datagram) => &datagram[HEAD_LEN..],
        Some(_) => return None,
    };
    if is_frame(frame) { Some(frame) } else { None }
}

/// A law: what is sent for a frame on a network is that frame on this network, and nothing on any
/// other.
pub fn vxlan_reads_back()
    ensures same { (vni : ℕ) (frame : List ℕ) → vni ≤ 16777215 → is_aoe frame ≡ true
        → frame_of (Some vni) (datagram_of (Some vni) frame) ≡ Some frame }
    ensures other { (vni vni' : ℕ) (frame : List ℕ) → vni ≤ 16777215 → vni' ≢ vni
        → frame_of (Some vni') (datagram_of (Some vni) frame) ≡ None }
{}
