//! A switch between two ports of VLAN 10, one of VLAN 20, and a trunk of both.
ghost use Rattle.std.specs.Prelude.{◌≡◌, ◌<◌, length, true};
ghost use Rattle.std.specs.List.{list_all};
ghost use Rattle.aoe_vlan.specs.Tag.{is_numbered};

use crate::checks::holds;
use aoe_io::{MemSink, MemSource};
use aoe_vlan::{PortKind, Switch, SwitchEnd, run};
use arrayvec::ArrayVec;
use std::test::Fail;

/// From station 0a to all.
const FROM_A: &[u8] = b"\xff\xff\xff\xff\xff\xff\x02\0\0\0\0\x0a\x88\xa2\x10";

/// From station 0b to 0a, with priority 5 on VLAN 10.
const B_TO_A: &[u8] = b"\x02\0\0\0\0\x0a\x02\0\0\0\0\x0b\x81\0\xa0\x0a\x88\xa2\x11";

/// From station 0b to all, on VLAN 30, which is none of the trunk's.
const OTHER_VLAN: &[u8] = b"\xff\xff\xff\xff\xff\xff\x02\0\0\0\0\x0b\x81\0\0\x1e\x88\xa2\x11";

/// With the number 4095, which is no VLAN's.
const RESERVED: &[u8] = b"\xff\xff\xff\xff\xff\xff\x02\0\0\0\0\x0b\x81\0\x0f\xff\x88\xa2\x11";

/// With a tag that ends within it.
const CUT: &[u8] = b"\xff\xff\xff\xff\xff\xff\x02\0\0\0\0\x0b\x81\0\0\x0a\x88";

/// One byte shorter than the shortest frame.
const SHORT: &[u8] = b"\xff\xff\xff\xff\xff\xff\x02\0\0\0\0\x0b\x88";

/// From a group.
const FROM_GROUP: &[u8] = b"\xff\xff\xff\xff\xff\xff\x03\0\0\0\0\x0b\x88\xa2\x11";

/// With a second tag, which is bytes like others behind the first.
const NESTED: &[u8] = b"\xff\xff\xff\xff\xff\xff\x02\0\0\0\0\x0b\x81\0\0\x0a\x81\0\0\x14\x88\xa2";

/// Whether a frame that comes in at a port is of this VLAN and goes to these ports.
fn goes(switch: &mut Switch, port: usize, frame: &[u8], vid: Option<u16>, ports: &[u8]) -> bool
    requires { port < length switch.old.ports }
    ensures { switch.new.ports ≡ switch.old.ports }
{
    let going = switch.take(port, frame);
    going.vid == vid && going.ports.as_slice() == ports
}

/// Two ports of VLAN 10, one of VLAN 20, and a trunk of both.
fn ports() -> [PortKind; 4]
    ensures length { length result ≡ 4 }
    ensures numbers { list_all is_numbered result ≡ true }
{
    let mut both = ArrayVec::new();
    both.push(10);
    both.push(20);
    [
        PortKind::Access(10),
        PortKind::Access(10),
        PortKind::Access(20),
        PortKind::Trunk(both),
    ]
}

#[test]
fn frames_go_where_their_vlan_is(rt: HostRuntime) -> Result<(), Fail> {
    let ports = ports();
    let mut switch = Switch::new(rt.alloc(), &ports)?;
    let floods = goes(&mut switch, 0, FROM_A, Some(10), &[1, 3]);
    let finds = goes(&mut switch, 3, B_TO_A, Some(10), &[0]);
    let drops = goes(&mut switch, 3, OTHER_VLAN, None, &[])
        && goes(&mut switch, 3, RESERVED, None, &[])
        && goes(&mut switch, 3, CUT, None, &[])
        && goes(&mut switch, 0, SHORT, None, &[])
        && goes(&mut switch, 0, FROM_GROUP, None, &[])
        && goes(&mut switch, 0, B_TO_A, None, &[])
        && goes(&mut switch, 3, FROM_A, None, &[]);
    let moves = goes(&mut switch, 1, FROM_A, Some(10), &[0, 3])
        && goes(&mut switch, 3, B_TO_A, Some(10), &[1]);
    let nests = goes(&mut switch, 3, NESTED, Some(10), &[0, 1]);
    holds(
        &rt,
        floods,
        "a frame to all goes to the other ports of its VLAN",
    );
    holds(&rt, finds, "a frame to a station goes to its port");
    holds(&rt, drops, "a frame of no VLAN goes nowhere");
    holds(&rt, moves, "a station is found where it was last");
    holds(&rt, nests, "a second tag is bytes like others");
    Ok(())
}

/// From station 0a to all, at port 0.
const AT_0: &[u8] = b"\0\0\x0f\xff\xff\xff\xff\xff\xff\x02\0\0\0\0\x0a\x88\xa2\x10";

/// What it gives: the frame at port 1, and with a tag at port 3.
const FROM_0: &[u8] =
    b"\x01\0\x0f\xff\xff\xff\xff\xff\xff\x02\0\0\0\0\x0a\x88\xa2\x10\x03\0\x13\xff\xff\xff\xff\xff\xff\x02\0\0\0\0\x0a\x81\0\0\x0a\x88\xa2\x10";

/// From station 0b to 0a, with priority 5 on VLAN 10, at port 3.
const AT_3: &[u8] = b"\x03\0\x13\x02\0\0\0\0\x0a\x02\0\0\0\0\x0b\x81\0\xa0\x0a\x88\xa2\x11";

/// What it gives once 0a is learnt at port 0.
const FROM_3: &[u8] = b"\0\0\x0f\x02\0\0\0\0\x0a\x02\0\0\0\0\x0b\x88\xa2\x11";

/// From station 0b to all on VLAN 30, at port 3.
const OTHER_AT_3: &[u8] =
    b"\x03\0\x13\xff\xff\xff\xff\xff\xff\x02\0\0\0\0\x0b\x81\0\0\x1e\x88\xa2\x11";

#[test]
fn frames_of_a_stream_go_where_their_vlan_is(rt: HostRuntime) -> Result<(), Fail> {
    // What comes in, how the run ends, and what goes out.
    let runs: [(&[u8], SwitchEnd, &[u8]); 9] = [
        (AT_0, SwitchEnd::Ended, FROM_0),
        (AT_3, SwitchEnd::Ended, FROM_3),
        (OTHER_AT_3, SwitchEnd::Ended, b""),
        (b"", SwitchEnd::Ended, b""),
        (b"\x04", SwitchEnd::Stream { offset: 0 }, b""),
        (
            b"\x04\0\x0e..............",
            SwitchEnd::Stream { offset: 0 },
            b"",
        ),
        (
            b"\0\0\x0d.............",
            SwitchEnd::Stream { offset: 0 },
            b"",
        ),
        (
            b"\0\x23\x3f...............",
            SwitchEnd::Stream { offset: 0 },
            b"",
        ),
        (
            b"\0\0\x0f..............",
            SwitchEnd::Stream { offset: 0 },
            b"",
        ),
    ];
    let mut switch = Switch::new(rt.alloc(), &ports())?;
    for (input, end, output) in &runs {
        let mut source = MemSource::of(rt.alloc(), input)?;
        let mut sink = MemSink::new(rt.alloc(), 100)?;
        assert!(rt; run(&mut switch, &mut source, &mut sink) == *end);
        assert!(rt; sink.bytes() == *output);
    }
    Ok(())
}
