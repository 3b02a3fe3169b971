//! Links over UDP on the loopback.
use crate::checks::holds;
use aoe_frame::{Frame, MAX_FRAME};
use aoe_io::{Got, Link};
use aoe_udp::{LAST_VNI, OpenRefusal, UdpMedium};
use aoe_wire::WireLink;
use std::net::{SocketAddr, UdpSocket};
use std::test::Fail;

/// A query config read from all shelves and slots, by 02:00:00:00:00:0a.
const QUERY: &[u8] =
    b"\xff\xff\xff\xff\xff\xff\x02\0\0\0\0\x0a\x88\xa2\x10\0\xff\xff\xff\x01\0\0\0\x07\0\0\0\0\0\0\0\0";

/// Any port of the loopback.
const ANY: &[u8] = b"127.0.0.1:0";

/// A link over UDP.
type UdpLink = WireLink<UdpMedium>;

/// A link between these addresses, of a VXLAN where it has a number.
fn open(
    rt: &HostRuntime,
    local: &[u8],
    peers: &[u8],
    vxlan: Option<u32>,
) -> Result<UdpLink, OpenRefusal> {
    let medium = UdpMedium::open(rt, rt.alloc(), local, peers, vxlan)?;
    let count = medium.peers();
    Ok(WireLink::new(medium, count))
}

/// A link on a port that the system chose, and the text of its address, from which its peer got a
/// frame.
fn bound(rt: &HostRuntime, vxlan: Option<u32>) -> Result<(UdpLink, String), Fail> {
    let Ok(any) = SocketAddr::parse_ascii(ANY) else {
        return Err(Fail::from("no address"));
    };
    let peer = UdpSocket::bind(rt, any)?;
    let at = peer.local_addr()?;
    let text = format!(in rt.alloc(); "{at}")?;
    let mut link = open(rt, ANY, text.as_bytes(), vxlan)?;
    link.send(QUERY)?;
    let (_, address) = peer.recv_from(&mut [0; 60])?;
    Ok((link, format!(in rt.alloc(); "{address}")?))
}

/// Whether the next call of the link brings these bytes as a frame.
fn brings(link: &mut UdpLink, bytes: &[u8]) -> bool {
    let mut frame = Frame::new();
    link.recv(&mut frame) == Ok(Got::Frame) && frame.as_slice() == bytes
}

/// Whether the link brings these bytes as a frame, and then nothing.
fn brings_last(link: &mut UdpLink, bytes: &[u8]) -> bool {
    brings(link, bytes) && link.recv(&mut Frame::new()) == Ok(Got::Quiet)
}

#[test]
fn hands_a_frame_to_every_peer(rt: HostRuntime) -> Result<(), Fail> {
    let (mut one, first) = bound(&rt, None)?;
    let (mut two, second) = bound(&rt, None)?;
    // Nobody listens on the discard port: a frame to it is lost.
    let peers = format!(in rt.alloc(); "127.0.0.1:9,{first},{second}")?;
    let mut three = open(&rt, ANY, peers.as_bytes(), None)?;
    let is_sent = three.send(QUERY).is_ok();
    assert!(rt; is_sent && brings_last(&mut one, QUERY) && brings_last(&mut two, QUERY));
    Ok(())
}

/// Whether a link sends a frame of so many bytes.
fn sends(link: &mut UdpLink, bytes: &[u8]) -> bool {
    link.send(bytes).is_ok()
}

#[test]
fn drops_what_is_no_frame(rt: HostRuntime) -> Result<(), Fail> {
    let (mut one, address) = bound(&rt, None)?;
    let mut two = open(&rt, ANY, address.as_bytes(), None)?;
    // The longest frame; a datagram that is too long, one of another type, one that is too short
    // for a type, and an empty one, which are no silence; and a frame again.
    let (mut frame, mut long) = ([7u8; MAX_FRAME], [7u8; MAX_FRAME + 1]);
    frame[12..14].copy_from_slice(b"\x88\xa2");
    long[12..14].copy_from_slice(b"\x88\xa2");
    let are_sent = sends(&mut two, &frame)
        && sends(&mut two, &long)
        && sends(
            &mut two,
            b"\xff\xff\xff\xff\xff\xff\x02\0\0\0\0\x0a\x08\x06",
        )
        && sends(&mut two, b"\xff\xff\xff\xff\xff\xff\x02\0\0\0\0\x0a\x88")
        && sends(&mut two, b"")
        && sends(&mut two, QUERY);
    assert!(rt; are_sent && brings(&mut one, &frame) && brings_last(&mut one, QUERY));
    Ok(())
}

/// Why a link between these addresses isn't open.
fn refusal_of(
    rt: &HostRuntime,
    local: &str,
    peers: &str,
    vxlan: Option<u32>,
) -> Option<OpenRefusal> {
    match open(rt, local.as_bytes(), peers.as_bytes(), vxlan) {
        Ok(_) => None,
        Err(refusal) => Some(refusal),
    }
}

#[test]
fn reads_addresses(rt: HostRuntime) {
    let cases = [
        ("127.0.0.1:0", "127.0.0.1:7000", None),
        ("127.0.0.1:0", "127.0.0.1:7000,127.0.0.1:7001", None),
        (
            "127.0.0.1:0",
            "127.0.0.1:7000,[::1]:7001",
            Some(OpenRefusal::Families),
        ),
        ("[::1]:0", "127.0.0.1:7000", Some(OpenRefusal::Families)),
        (
            "127.0.0.1:0",
            "127.0.0.1:7000,127.0.0.1:7001,127.0.0.1:7000",
            Some(OpenRefusal::Repeated),
        ),
        ("127.0.0.1:0", "127.0.0.1:7000,", Some(OpenRefusal::Peers)),
        ("127.0.0.1:0", "127.0.0.1", Some(OpenRefusal::Peers)),
        ("x", "127.0.0.1:7000", Some(OpenRefusal::Local)),
        (
            "127.0.0.1:65536",
            "127.0.0.1:7000",
            Some(OpenRefusal::Local),
        ),
        ("127.0.0.1:0", "y", Some(OpenRefusal::Peers)),
        ("x", "127.0.0.1:7000,y", Some(OpenRefusal::Peers)),
    ];
    for (local, peers, refusal) in &cases {
        holds(&rt, refusal_of(&rt, local, peers, None) == *refusal, peers);
    }
}

#[test]
fn takes_a_frame_of_its_network_alone(rt: HostRuntime) -> Result<(), Fail> {
    let (mut one, address) = bound(&rt, Some(LAST_VNI))?;
    let mut same = open(&rt, ANY, address.as_bytes(), Some(LAST_VNI))?;
    let mut other = open(&rt, ANY, address.as_bytes(), Some(0))?;
    let mut plain = open(&rt, ANY, address.as_bytes(), None)?;
    let are_sent = sends(&mut other, QUERY) && sends(&mut plain, QUERY) && sends(&mut same, QUERY);
    assert!(rt; are_sent && brings_last(&mut one, QUERY));
    Ok(())
}

#[test]
fn refuses_a_network_of_more_than_24_bits(rt: HostRuntime) {
    let cases = [
        (0, None),
        (LAST_VNI, None),
        (LAST_VNI + 1, Some(OpenRefusal::Vxlan)),
    ];
    for (vni, refusal) in &cases {
        let refused = refusal_of(&rt, "127.0.0.1:0", "127.0.0.1:7000", Some(*vni));
        holds(&rt, refused == *refusal, "network");
    }
}

#[test]
fn says_why_a_link_is_not_open(rt: HostRuntime) -> Result<(), Fail> {
    let cases = [
        (OpenRefusal::NoMemory, "no memory"),
        (OpenRefusal::Peers, "no addresses of peers"),
        (OpenRefusal::Local, "no local address"),
        (OpenRefusal::Unbound(Some(98)), "no local socket"),
        (OpenRefusal::Vxlan, "no number of a network"),
        (OpenRefusal::Repeated, "a peer is named twice"),
        (OpenRefusal::Families, "ends of two families"),
    ];
    for (refusal, told) in &cases {
        let text = format!(in rt.alloc(); "{refusal}")?;
        holds(&rt, text.as_str() == *told, told);
    }
    Ok(())
}
