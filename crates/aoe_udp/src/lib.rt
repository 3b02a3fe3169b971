//! Frames in UDP datagrams: alone, as virtual machines send them, or behind the header of VXLAN.
//!
//! [`UdpMedium::open`] binds the local address, and reads those of the peers, which take each frame
//! that is sent. Over it `aoe_wire` makes a `Link` of as many peers as [`UdpMedium::peers`] says:
//! its `recv` waits 10 milliseconds for a frame, and its `send` gives one to every peer. Behind
//! [`UdpMedium::make_nonblocking`] `recv` waits for nothing: a program waits by the descriptor
//! (`AsRawFd`) once a turn was quiet.
//!
//! With the number of a network each datagram is eight bytes of VXLAN (RFC 7348) and one frame, so
//! that a machine with a VXLAN device of that number is on the wire. Nothing is encrypted.
//!
//! A frame may come from any address. What isn't one of AoE, or not of the network, is dropped.
//! What a peer didn't get isn't sent again, and nothing tells contracts which bytes came.
//!
//! Promised: what is sent for a frame of AoE on a network is that frame there, and nothing on any
//! other (`vxlan_reads_back`). `UdpMedium::open`, if Ok, read texts that are addresses
//! (`IsAddress`, `ArePeers`), and has as many peers as the text has pieces, of the family of the
//! local address, none twice (`AreEnds`, `are_of_family`, `all_different`); a refusal of the
//! network's number, the peers, the local address, a peer that is named twice or an end of another
//! family comes only where that is wrong, and `Unbound` only where both texts are addresses. Inside,
//! what a datagram brings is `frame_of`, and which errors are silence, a lost frame or a fault is
//! `is_silence` and `is_lost_sending`.
//!
//! Only tested: that the socket takes and sends just these datagrams, and binds the address
//! (`aoe_program_tests`, udp; tests/datagrams, tests/wire, tests/adapters), that a non-blocking one
//! waits for nothing, and the texts of refusals. No clause says that a call waits 10 ms, and nothing
//! tries that a send waits for room.
#![tactic(auto)]

mod address;
mod errors;
mod medium;
mod vxlan;

pub use errors::OpenRefusal;
pub use medium::UdpMedium;
pub use vxlan::{LAST_VNI, vxlan_reads_back};
