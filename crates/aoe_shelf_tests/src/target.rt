use aoe_base::{Mac, Ports, Span, TargetId};
use aoe_disk::{Disk, Loss, MemDisk};
use aoe_frame::{Frame, pad};
use aoe_keep::Keep;
use aoe_lists::Lists;
use aoe_store::{Direct, Store};
use aoe_target::{Effect, Heard, Target};
use std::alloc::Global;
use std::test::Fail;

const PORT: [u8; 6] = [2, 0, 0, 0, 0, 1];

const A: [u8; 6] = [2, 0, 0, 0, 0, 0x0a];

const B: [u8; 6] = [2, 0, 0, 0, 0, 0x0b];

const C: [u8; 6] = [2, 0, 0, 0, 0, 0x0c];

const DONE: Heard = Heard::Replied {
    effect: Effect::None,
};

/// The target 1.0, behind one port.
fn target_of<S: Store, D: Disk>(store: S, keep: Keep<D>) -> Target<S, D> {
    let mut ports = Ports::new();
    ports.push(Mac(PORT));
    let id = TargetId { major: 1, minor: 0 };
    Target::mount(store, keep, id, ports, 1500)
}

type MemTarget = Target<Direct<MemDisk>, MemDisk>;

/// The target of 16 zero sectors, with the lists of a disk.
fn target_over(alloc: Global, keep: MemDisk) -> Result<MemTarget, Fail> {
    let disk = MemDisk::new(alloc, 16)?;
    let Ok(keep) = Keep::mount(keep) else {
        return Err(Fail::from("no keep"));
    };
    Ok(target_of(Direct::new(disk), keep))
}

/// The target with a keep of 16 zero sectors.
fn target(alloc: Global) -> Result<MemTarget, Fail> {
    target_over(alloc, MemDisk::new(alloc, 16)?)
}

fn joined(pieces: &[&[u8]]) -> Frame {
    let mut frame = Frame::new();
    for piece in pieces {
        let _ = frame.try_extend_from_slice(piece);
    }
    frame
}

/// A frame of the station to the target, with the tag 7. `version` is byte 14.
fn request(station: &[u8; 6], version: u8, command: u8, args: &[u8]) -> Frame {
    let middle = [0x88, 0xa2, version, 0, 0, 1, 0, command, 0, 0, 0, 7];
    joined(&[&PORT, station, &middle, args])
}

/// The reply to it. `error` is byte 15.
fn reply(station: &[u8; 6], error: u8, command: u8, args: &[u8]) -> Frame {
    let flags = if error == 0 { 0x18 } else { 0x1c };
    let middle = [0x88, 0xa2, flags, error, 0, 1, 0, command, 0, 0, 0, 7];
    let mut frame = joined(&[station, &PORT, &middle, args]);
    pad(&mut frame);
    frame
}

/// What becomes of a frame, and the reply.
fn hear<S: Store, D: Disk>(target: &mut Target<S, D>, frame: &Frame) -> (Heard, Frame) {
    let mut out = Frame::new();
    let heard = target.receive(frame.as_slice(), &mut out);
    (heard, out)
}

/// What becomes of a request of version 1, and its reply.
fn exchange<S: Store, D: Disk>(
    target: &mut Target<S, D>,
    station: &[u8; 6],
    command: u8,
    args: &[u8],
) -> (Heard, Frame) {
    hear(target, &request(station, 0x10, command, args))
}

/// Whether a request of version 1 has this effect.
fn has_effect<S: Store, D: Disk>(
    target: &mut Target<S, D>,
    command: u8,
    args: &[u8],
    effect: Effect,
) -> bool {
    let (heard, _) = exchange(target, &A, command, args);
    heard == Heard::Replied { effect }
}

/// Whether this becomes of a frame, and the reply is this one.
fn is_heard(target: &mut MemTarget, frame: &Frame, wanted: Heard, told: &[u8]) -> bool {
    let (heard, out) = hear(target, frame);
    heard == wanted && out.as_slice() == told
}

/// Whether a request of version 1 has this effect, and the reply this error and these arguments.
fn answers(
    target: &mut MemTarget,
    station: &[u8; 6],
    command: u8,
    args: &[u8],
    effect: Effect,
    error: u8,
    told: &[u8],
) -> bool {
    let frame = request(station, 0x10, command, args);
    let told = reply(station, error, command, told);
    is_heard(target, &frame, Heard::Replied { effect }, told.as_slice())
}

/// Whether the config string is `ab`.
fn is_set(target: &MemTarget) -> bool {
    target.lists().config.as_slice() == b"ab".as_slice()
}

#[test]
fn the_last_sector_and_behind_it(rt: HostRuntime) -> Result<(), Fail> {
    let mut target = target(rt.alloc())?;
    let one = joined(&[b"\x41\0\x01\x34\x0f\0\0\0\0\0\0\0", &[7; 512]]);
    let two = joined(&[b"\x41\0\x02\x34\x0f\0\0\0\0\0\0\0", &[8; 1024]]);
    let told = joined(&[b"\x40\0\0\x40\x0f\0\0\0\0\0\0\0", &[7; 512]]);
    let wrote = Effect::Wrote(Span { at: 15, count: 1 });
    let cases: [(&[u8], Effect, &[u8]); 3] = [
        (one.as_slice(), wrote, b"\x41\0\0\x40\x0f\0\0\0\0\0\0\0"),
        (
            two.as_slice(),
            Effect::None,
            b"\x41\x10\0\x41\x0f\0\0\0\0\0\0\0",
        ),
        (
            b"\x40\0\x01\x24\x0f\0\0\0\0\0\0\0",
            Effect::None,
            told.as_slice(),
        ),
    ];
    for (args, effect, told) in &cases {
        assert!(rt; answers(&mut target, &A, 0, args, *effect, 0, told));
    }
    let (store, _) = target.close();
    assert!(rt; store.close().calls() == 2);
    Ok(())
}

/// Whether the lists are empty, and nothing was called but what mounted the keep.
fn is_untouched(target: MemTarget) -> bool {
    let is_kept = *target.lists() == Lists::new();
    let (store, keep) = target.close();
    let calls = (store.close().calls(), keep.close().calls());
    is_kept && calls == (0, 3)
}

/// Whether a request is answered by an error reply of 60 bytes, and nothing is changed or called.
fn refuses(mut target: MemTarget, version: u8, command: u8, args: &[u8], error: u8) -> bool {
    let (heard, out) = hear(&mut target, &request(&A, version, command, args));
    let told = reply(&A, error, command, args.get(..36).unwrap_or(args));
    is_untouched(target) && heard == DONE && out.as_slice() == told.as_slice() && out.len() == 60
}

#[test]
fn malformed_arguments(rt: HostRuntime) -> Result<(), Fail> {
    // The version, the command, the begin of its arguments, the rest of them, and the error.
    let cases: [(u8, u8, &[u8], &[u8], u8); 12] = [
        (0x10, 1, b"", b"", 2),
        (0x10, 1, b"\0\0\0\0\0\x03\x04\0", b"", 2),
        (0x10, 1, b"\0\0\0\0\0\x03\x04\x01", &[b'a'; 1025], 2),
        (0x10, 1, b"\0\0\0\0\0\x05\0\0", b"", 2),
        (0x10, 2, b"\0\x01\0\xff", &[0; 2039], 2),
        (0x10, 3, b"\x01\xb5", &[2; 1086], 2),
        (0x10, 3, b"\x03\0", b"", 2),
        (
            0x10,
            0,
            b"\x40\0\0\x24",
            b"\x01\x02\x03\x04\x05\x06\x07\x08",
            2,
        ),
        (
            0x10,
            0,
            b"\x40\0\x03\x24",
            b"\x01\x02\x03\x04\x05\x06\x07\x08",
            2,
        ),
        (0x10, 0, b"\x41\0\x02\x34\0\0\0\0\0\0\0\0", &[7; 1023], 2),
        (0x10, 255, b"", b"", 1),
        (0x20, 255, b"", b"", 5),
    ];
    for (version, command, begin, rest, error) in &cases {
        let args = joined(&[*begin, *rest]);
        assert!(rt;
            refuses(
                target(rt.alloc())?,
                *version,
                *command,
                args.as_slice(),
                *error
            )
        );
    }
    Ok(())
}

#[test]
fn malformed_values(rt: HostRuntime) -> Result<(), Fail> {
    let mut target = target(rt.alloc())?;
    // The edit's second command is unknown; the read begins behind all sectors.
    let cases: [(u8, &[u8], &[u8]); 2] = [
        (2, b"\0\x01\0\x01\0\x03\x02\0\0\0\0\x0a", b"\0\x01\x02\0"),
        (
            0,
            b"\x40\0\x01\x24\xff\xff\xff\xff\xff\xff\0\0",
            b"\x40\x10\0\x41\xff\xff\xff\xff\xff\xff\0\0",
        ),
    ];
    for (command, args, told) in &cases {
        assert!(rt; answers(&mut target, &A, *command, args, Effect::None, 0, told));
    }
    assert!(rt; *target.lists() == Lists::new());
    Ok(())
}

#[test]
fn whom_a_request_is_for(rt: HostRuntime) -> Result<(), Fail> {
    let mut target = target(rt.alloc())?;
    let told = reply(&A, 0, 1, b"\0\x10\0\x01\x02\x10\0\0");
    // The destination, the shelf and the slot, and what becomes of it.
    let cases = [
        (PORT, [0, 1, 255], DONE),
        (PORT, [255, 255, 0], DONE),
        ([255; 6], [255, 255, 255], DONE),
        (C, [0, 1, 0], Heard::Ignored),
        (PORT, [0, 2, 0], Heard::Ignored),
        (PORT, [0, 1, 1], Heard::Ignored),
    ];
    for (destination, [high, low, minor], wanted) in cases {
        let middle = [0x88, 0xa2, 0x10, 0, high, low, minor, 1, 0, 0, 0, 7];
        let frame = joined(&[&destination, &A, &middle, &[0; 8]]);
        let reply = if wanted == DONE { told.as_slice() } else { b"" };
        assert!(rt; is_heard(&mut target, &frame, wanted, reply));
    }
    Ok(())
}

#[test]
fn checks_in_their_order(rt: HostRuntime) -> Result<(), Fail> {
    let mut target = target(rt.alloc())?;
    let edit = joined(&[&[0, 1, 0, 1, 0, 1], &C]);
    let told = joined(&[&[0, 1, 0, 1, 0, 0], &C]);
    let (edit, told) = (edit.as_slice(), told.as_slice());
    assert!(rt; answers(&mut target, &C, 2, edit, Effect::Edited, 0, told));
    let refused = reply(&C, 5, 1, &[0; 8]);
    // The station, the version, the command, its arguments, what becomes of it, and the reply.
    let cases: [(&[u8; 6], u8, u8, &[u8], Heard, &[u8]); 4] = [
        (&A, 0x10, 2, &[0; 4], Heard::Silent, b""),
        (
            &A,
            0x10,
            0,
            b"\x40\0\x01\x24\0\0\0\0\0\0\0\0",
            Heard::Silent,
            b"",
        ),
        (&A, 0x20, 1, &[0; 8], Heard::Silent, b""),
        (&C, 0x20, 1, &[0; 8], DONE, refused.as_slice()),
    ];
    for (station, version, command, args, wanted, told) in &cases {
        let frame = request(station, *version, *command, args);
        assert!(rt; is_heard(&mut target, &frame, *wanted, told));
    }
    Ok(())
}

#[test]
fn reservations(rt: HostRuntime) -> Result<(), Fail> {
    let mut target = target(rt.alloc())?;
    let read = b"\x40\0\x01\x24\0\0\0\0\0\0\0\0".as_slice();
    let to_a = b"\x01\x01\x02\0\0\0\0\x0a".as_slice();
    let to_b = b"\x01\x01\x02\0\0\0\0\x0b".as_slice();
    let by_force = b"\x02\x01\x02\0\0\0\0\x0b".as_slice();
    // The station, the command, its arguments, the effect and the error.
    let steps = [
        (A, 3, to_a, Effect::Edited, 0),
        (B, 0, read, Effect::None, 6),
        (B, 3, to_b, Effect::None, 6),
        (B, 3, by_force, Effect::Edited, 0),
        (A, 0, read, Effect::None, 6),
    ];
    for (station, command, args, effect, error) in &steps {
        assert!(rt; answers(&mut target, station, *command, args, *effect, *error, args));
    }
    Ok(())
}

/// How many calls of its keep a target has made, and the target that is mounted after a loss of power.
fn mounted_again(alloc: Global, target: MemTarget) -> Result<(u64, MemTarget), Fail> {
    let (_, keep) = target.close();
    let disk = keep.close();
    let calls = disk.calls();
    Ok((calls, target_over(alloc, disk.crash(Loss::Old))?))
}

#[test]
fn config_strings(rt: HostRuntime) -> Result<(), Fail> {
    let mut target = target(rt.alloc())?;
    let set = b"\0\0\0\0\0\x03\0\x02ab".as_slice();
    let other = b"\0\0\0\0\0\x03\0\x02cd".as_slice();
    let told = b"\0\x10\0\x01\x02\x13\0\x02ab";
    let steps = [
        (set, Effect::Edited, 0),
        (set, Effect::None, 0),
        (other, Effect::None, 4),
    ];
    for (args, effect, error) in &steps {
        assert!(rt; answers(&mut target, &A, 1, args, *effect, *error, told));
    }
    assert!(rt; is_set(&target));
    // A mounting with both gates closed makes 3 calls, and the one change of the lists 6.
    let (calls, target) = mounted_again(rt.alloc(), target)?;
    assert!(rt; calls == 9 && is_set(&target));
    Ok(())
}

/// An edit that adds 180 stations, of which A is the first.
fn full_list() -> Frame {
    let mut edit = joined(&[&[0, 1, 0, 180, 0, 1], &A]);
    for last in 0x10..0xc3 {
        let _ = edit.try_extend_from_slice(&[0, 1, 2, 0, 0, 0, 0, last]);
    }
    edit
}

#[test]
fn an_edit_that_does_not_fit(rt: HostRuntime) -> Result<(), Fail> {
    let mut target = target(rt.alloc())?;
    assert!(rt; has_effect(&mut target, 2, full_list().as_slice(), Effect::Edited));
    let too_many = [
        0, 1, 0, 3, 0, 2, 2, 0, 0, 0, 0, 0x10, 0, 1, 2, 0, 0, 0, 0, 0x0b, 0, 1, 2, 0, 0, 0, 0, 0x0c,
    ];
    assert!(rt;
        answers(
            &mut target,
            &A,
            2,
            &too_many,
            Effect::None,
            0,
            &[0, 1, 3, 0]
        )
    );
    let masks = &target.lists().masks;
    assert!(rt; masks.len() == 180 && masks.contains(&Mac([2, 0, 0, 0, 0, 0x10])));
    Ok(())
}

/// Whether a reply is a page whose words 10 and 60 are these.
fn is_page(out: &Frame, serial: &[u8], sectors: &[u8]) -> bool {
    out.len() == 548
        && out.as_slice().get(56..60) == Some(serial)
        && out.as_slice().get(156..160) == Some(sectors)
}

#[test]
fn identify_and_short_addresses(rt: HostRuntime) -> Result<(), Fail> {
    let mut target = target(rt.alloc())?;
    let (heard, out) = exchange(&mut target, &A, 0, b"\0\0\x01\xec\0\0\0\xa0\0\0\0\0");
    assert!(rt; heard == DONE && is_page(&out, b"1e0.", b"\x10\0\0\0"));
    let write = joined(&[b"\0\0\x02\x30\x05\0\0\xe0\0\0\0\0", &[5; 512], &[6; 512]]);
    let (_, _) = exchange(&mut target, &A, 0, write.as_slice());
    let read = b"\0\0\x02\x20\x05\0\0\xe0\0\0\0\0";
    let told = joined(&[b"\0\0\0\x40\x05\0\0\xe0\0\0\0\0", &[5; 512], &[6; 512]]);
    assert!(rt; answers(&mut target, &A, 0, read, Effect::None, 0, told.as_slice()));
    Ok(())
}
