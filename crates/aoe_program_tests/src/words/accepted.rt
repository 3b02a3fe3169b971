//! The lines that spell a command.

use super::*;

#[test]
fn reads_answer_and_capture(rt: HostRuntime) -> Result<(), Fail> {
    let cases = [
        ("answer 1 0 disk keep", answer(1, 0, mac(1), 1500, 0)),
        (
            "answer 65534 254 d k --port 02:00:00:00:00:ff --mtu 9000",
            answer(65534, 254, mac(255), 9000, 0),
        ),
        (
            "answer --cache=65536 1 0 d k",
            answer(1, 0, mac(1), 1500, 65536),
        ),
        (
            "capture 1 0 d k --cache 65536",
            capture(1, 0, mac(1), 1500, 65536),
        ),
        (
            "capture 65534 254 d k --port 02:00:00:00:00:ff --mtu 9000",
            capture(65534, 254, mac(255), 9000, 0),
        ),
    ];
    reads(&rt, rt.alloc(), "", &cases)
}

#[test]
fn reads_serve(rt: HostRuntime) -> Result<(), Fail> {
    let four = [mac(1), mac(2), mac(3), mac(4)];
    let cases = [
        (
            "serve 1 d0 k0 d1 k1 --local x --peers y",
            serve(1, 2, &[mac(1)], 1500, 0, None, None),
        ),
        (
            "serve 0 d k --local x --peers y,z --idle 1 --frames=4294967295 --ports 02:00:00:00:00:01,02:00:00:00:00:02,02:00:00:00:00:03,02:00:00:00:00:04",
            serve(0, 1, &four, 1500, 0, Some(4294967295), Some(1)),
        ),
        (
            "serve 1 d k --local x --peers y --idle 0 --stop s",
            serve(1, 1, &[mac(1)], 1500, 0, None, None),
        ),
    ];
    reads(&rt, rt.alloc(), "", &cases)
}

#[test]
fn reads_mirror(rt: HostRuntime) -> Result<(), Fail> {
    let cases = [
        (
            "mirror 1 0 one two mark keep",
            mirror(1, 0, mac(1), 1500, None),
        ),
        (
            "mirror 1 0 one two mark keep --lead-other",
            mirror(1, 0, mac(1), 1500, None),
        ),
        (
            "mirror 65534 254 one two mark keep --port 02:00:00:00:00:ff --mtu 9000 --tap t",
            mirror(65534, 254, mac(255), 9000, Some(None)),
        ),
        (
            "mirror 1 0 one two mark keep --local x --peers y --vxlan 1 --idle 7 --stop s",
            mirror(1, 0, mac(1), 1500, Some(Some(7))),
        ),
        ("mirror --check one two mark", Command::Compare),
        ("mirror 1 2 --check mark", Command::Compare),
    ];
    reads(&rt, rt.alloc(), "", &cases)
}

#[test]
fn reads_mirror_with_one_side_gone(rt: HostRuntime) -> Result<(), Fail> {
    let cases = [
        (
            "mirror 1 2 - two mark keep --lead-other",
            answer(1, 2, mac(1), 1500, 0),
        ),
        (
            "mirror 1 2 one - mark keep --port 02:00:00:00:00:ff --mtu 9000",
            answer(1, 2, mac(255), 9000, 0),
        ),
        (
            "mirror 65534 254 - two mark keep --local x --peers y --idle 7 --port 02:00:00:00:00:ff",
            serve_alone(65534, 254, mac(255), 1500, Some(7)),
        ),
        (
            "mirror 1 2 one --tap t - mark keep --idle 0 --mtu 9000",
            serve_alone(1, 2, mac(1), 9000, None),
        ),
    ];
    reads(&rt, rt.alloc(), "", &cases)
}

#[test]
fn reads_audit(rt: HostRuntime) -> Result<(), Fail> {
    let cases = [
        ("audit 1 0 16 keep", audit(1, 0, &[mac(1)], 1500, 16)),
        (
            "audit 65534 254 1099511627776 k --mtu 9000 --ports 02:00:00:00:00:ff,02:00:00:00:00:01",
            audit(65534, 254, &[mac(255), mac(1)], 9000, 1099511627776),
        ),
        ("audit 0 0 0 k", audit(0, 0, &[mac(1)], 1500, 0)),
    ];
    reads(&rt, rt.alloc(), "", &cases)
}

#[test]
fn reads_replay_live_and_soak(rt: HostRuntime) -> Result<(), Fail> {
    let cases = [
        ("replay", Command::Replay),
        ("live 16 10 --one x --two y", live(16, 10, 5000)),
        (
            "live 65536 10000 --one x --two y --turns 1000000",
            live(65536, 10000, 1_000_000),
        ),
        ("soak 65535 16000", soak(65535, 16000)),
    ];
    reads(&rt, rt.alloc(), "", &cases)
}

#[test]
fn reads_switch(rt: HostRuntime) -> Result<(), Fail> {
    let cases = [
        (
            "switch access:1 access:4094",
            switch(PortKind::Access(1), PortKind::Access(4094)),
        ),
        (
            "switch trunk:10,20 trunk:20",
            switch(trunk(&[10, 20]), trunk(&[20])),
        ),
    ];
    reads(&rt, rt.alloc(), "", &cases)
}

#[test]
fn reads_discover_and_stat(rt: HostRuntime) -> Result<(), Fail> {
    let other = Asking {
        port: mac(0xff),
        turns: 1_000_000,
    };
    let cases = [
        ("discover", discover(asking(), false)),
        ("discover --long", discover(asking(), true)),
        (
            "stat --turns=1000000 --port 02:00:00:00:00:ff",
            stat(other, false),
        ),
        ("stat --sectors", stat(asking(), true)),
    ];
    reads(&rt, rt.alloc(), ENDS, &cases)
}

#[test]
fn reads_cfg(rt: HostRuntime) -> Result<(), Fail> {
    let cases = [
        ("cfg e1.2 read", cfg(0, b"")),
        ("cfg e1.2 set a=b", cfg(3, b"a=b")),
        ("cfg e1.2 clear", cfg(4, b"")),
    ];
    reads(&rt, rt.alloc(), ENDS, &cases)
}

#[test]
fn reads_mask(rt: HostRuntime) -> Result<(), Fail> {
    let add = Dir {
        add: true,
        mac: mac(0xfe),
    };
    let delete = Dir {
        add: false,
        mac: Mac([0xff; 6]),
    };
    let cases = [
        ("mask e1.2 read", mask(None)),
        (
            "mask e1.2 edit add=02:00:00:00:00:fe del=ff:ff:ff:ff:ff:ff add=02:00:00:00:00:fe",
            mask(Some(&[add, delete, add])),
        ),
    ];
    reads(&rt, rt.alloc(), ENDS, &cases)
}

#[test]
fn reads_reserve(rt: HostRuntime) -> Result<(), Fail> {
    let cases = [
        ("reserve e1.2 read", reserve(0, &[])),
        (
            "reserve e1.2 force 02:00:00:00:00:01 02:00:00:00:00:01",
            reserve(2, &[mac(1), mac(1)]),
        ),
    ];
    reads(&rt, rt.alloc(), ENDS, &cases)
}

#[test]
fn reads_flush_get_and_put(rt: HostRuntime) -> Result<(), Fail> {
    let cases = [
        ("flush e1.2", flush(2000)),
        ("flush --lifetime 1 e1.2", flush(1)),
        (
            "get e1.2 281474976710655 1 --turns 1",
            get(281474976710655, Some(1), 1, 2000),
        ),
        ("get e1.2", get(0, None, 5000, 2000)),
        ("get e1.2 7 --lifetime 600000", get(7, None, 5000, 600000)),
        (
            "get e1.2 0 281474976710656",
            get(0, Some(281474976710656), 5000, 2000),
        ),
        ("put e1.2 7", put(7, 5000, 2000, false, false)),
        (
            "put e1.2 --verify 7 --turns=1 --no-flush --lifetime=50",
            put(7, 1, 50, true, true),
        ),
        ("put e1.2 --no-flush 7", put(7, 5000, 2000, false, true)),
    ];
    reads(&rt, rt.alloc(), ENDS, &cases)
}

#[test]
fn reads_nbd(rt: HostRuntime) -> Result<(), Fail> {
    let other = Nbd {
        asking: Asking {
            port: mac(0xff),
            turns: 1,
        },
        lifetime: 50,
        read_only: true,
        flushes: false,
        once: true,
        idle: Some(1_000_000),
        ..nbd()
    };
    let cases = [
        ("nbd e1.2 --socket s", Command::Nbd(nbd())),
        ("nbd --idle 0 --socket=s e1.2", Command::Nbd(nbd())),
        (
            "nbd e1.2 --socket s --port 02:00:00:00:00:ff --turns 1 --lifetime 50 --read-only --no-flush --once --idle 1000000",
            Command::Nbd(other),
        ),
    ];
    reads(&rt, rt.alloc(), ENDS, &cases)
}

#[test]
fn reads_a_path_that_has_room(rt: HostRuntime) -> Result<(), Fail> {
    let longest = long_line(rt.alloc(), "nbd e1.2 --tap t --socket ", "s", 107)?;
    let longer = long_line(rt.alloc(), "nbd e1.2 --tap t --socket ", "s", 108)?;
    let read = spells(rt.alloc(), longest.as_str(), "", &Command::Nbd(nbd()))?;
    let refused = is_refused(rt.alloc(), longer.as_str(), "")?;
    assert!(rt; read && refused);
    Ok(())
}
