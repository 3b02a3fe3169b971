use aoe_base::NoMemory;
use aoe_disk::MemDisk;
use aoe_io::MemSink;
use aoe_upkeep::{CompareStop, compare};
use std::alloc::Global;
use std::test::Fail;

/// The first line of a scene whose mark disk has zeros, and the same with a run that was told.
const HEAD_TOLD: &[u8] = b"first leads, not clean\n";

const RUN_TOLD: &[u8] = b"first leads, not clean\nsector 5 differs\n";

/// Three disks and a sink.
#[derive(Drop)]
struct Sides {
    one: MemDisk,
    two: MemDisk,
    mark: MemDisk,
    sink: MemSink,
}

/// A disk of zeros but for the last byte of some sectors.
fn disk(alloc: Global, sectors: usize, others: &[usize]) -> Result<MemDisk, NoMemory> {
    let mut bytes = Vec::from_elem(alloc, 0, 512 * sectors.min(400))?;
    for s in others {
        if *s < sectors.min(400) {
            bytes[512 * s + 511] = 1;
        }
    }
    MemDisk::of(alloc, bytes.as_slice())
}

/// A mark disk whose first two sectors begin with these bytes.
fn mark(alloc: Global, first: [u8; 2]) -> Result<MemDisk, NoMemory> {
    let mut bytes = [0; 1024];
    bytes[0] = first[0];
    bytes[512] = first[1];
    MemDisk::of(alloc, &bytes)
}

/// Two sides of as many sectors, of which some differ, a mark disk and a sink.
fn scene(
    alloc: Global,
    sectors: usize,
    others: &[usize],
    first: [u8; 2],
) -> Result<Sides, NoMemory> {
    Ok(Sides {
        one: disk(alloc, sectors, &[])?,
        two: disk(alloc, sectors, others)?,
        mark: mark(alloc, first)?,
        sink: MemSink::new(alloc, 1000)?,
    })
}

/// How the comparison of a scene ends.
fn ends(alloc: Global, scene: &mut Sides) -> Result<u64, CompareStop> {
    compare(
        alloc,
        &mut scene.one,
        &mut scene.two,
        &mut scene.mark,
        &mut scene.sink,
    )
}

/// Whether the comparison of these sides is Ok, and tells this number and this text.
fn tells(
    alloc: Global,
    sectors: usize,
    others: &[usize],
    first: [u8; 2],
    text: &[u8],
) -> Result<bool, Fail> {
    let mut scene = scene(alloc, sectors, others, first)?;
    let ended = ends(alloc, &mut scene);
    Ok(ended == Ok(others.len() as u64) && scene.sink.bytes() == text)
}

#[test]
fn tells_equal_sides(rt: HostRuntime) -> Result<(), Fail> {
    let text = b"first leads, not clean\n0 of 130 sectors differ\n";
    let empty = b"first leads, not clean\n0 of 0 sectors differ\n";
    assert!(rt; tells(rt.alloc(), 130, &[], [0, 0], text)?);
    assert!(rt; tells(rt.alloc(), 0, &[], [0, 0], empty)?);
    Ok(())
}

#[test]
fn tells_sectors_that_differ(rt: HostRuntime) -> Result<(), Fail> {
    let one = b"first leads, clean\nsector 5 differs\n1 of 130 sectors differ\n";
    let last = b"second leads, not clean\nsector 129 differs\n1 of 130 sectors differ\n";
    let border = b"second leads, clean\nsectors 62 to 65 differ\n4 of 130 sectors differ\n";
    let two =
        b"first leads, not clean\nsectors 0 to 1 differ\nsector 3 differs\n3 of 4 sectors differ\n";
    assert!(rt; tells(rt.alloc(), 130, &[5], [0, 0xc3], one)?);
    assert!(rt; tells(rt.alloc(), 130, &[129], [0xa7, 0], last)?);
    assert!(rt; tells(rt.alloc(), 130, &[62, 63, 64, 65], [0xa7, 0xc3], border)?);
    assert!(rt; tells(rt.alloc(), 4, &[0, 1, 3], [0, 0], two)?);
    Ok(())
}

#[test]
fn ends_a_run_before_an_equal_piece(rt: HostRuntime) -> Result<(), Fail> {
    let text =
        b"first leads, not clean\nsector 63 differs\nsector 128 differs\n2 of 192 sectors differ\n";
    assert!(rt; tells(rt.alloc(), 192, &[63, 128], [0, 0], text)?);
    Ok(())
}

#[test]
fn refuses_what_is_no_mirror(rt: HostRuntime) -> Result<(), Fail> {
    let mut unequal = scene(rt.alloc(), 4, &[], [0, 0])?;
    unequal.two = disk(rt.alloc(), 3, &[])?;
    unequal.mark = disk(rt.alloc(), 0, &[])?;
    let mut no_mark = scene(rt.alloc(), 4, &[], [0, 0])?;
    no_mark.mark = disk(rt.alloc(), 0, &[])?;
    let mut not_mark = scene(rt.alloc(), 4, &[], [0x5a, 0])?;
    let sizes = CompareStop::Unequal {
        first: 4,
        second: 3,
    };
    assert!(rt; ends(rt.alloc(), &mut unequal) == Err(sizes));
    assert!(rt; ends(rt.alloc(), &mut no_mark) == Err(CompareStop::NoMark));
    assert!(rt; ends(rt.alloc(), &mut not_mark) == Err(CompareStop::NotMark));
    assert!(rt; not_mark.sink.bytes().is_empty() && not_mark.one.calls() == 0);
    Ok(())
}

#[test]
fn stops_where_a_disk_fails(rt: HostRuntime) -> Result<(), Fail> {
    let mut mark = scene(rt.alloc(), 130, &[5], [0, 0])?;
    mark.mark.fail_at(2);
    let mut one = scene(rt.alloc(), 130, &[5], [0, 0])?;
    one.one.fail_at(1);
    let mut two = scene(rt.alloc(), 130, &[5], [0, 0])?;
    two.two.fail_at(3);
    assert!(rt; ends(rt.alloc(), &mut mark) == Err(CompareStop::MarkFailed));
    assert!(rt; mark.sink.bytes().is_empty());
    assert!(rt; ends(rt.alloc(), &mut one) == Err(CompareStop::FirstFailed));
    assert!(rt; one.sink.bytes() == HEAD_TOLD && one.two.calls() == 0);
    assert!(rt; ends(rt.alloc(), &mut two) == Err(CompareStop::SecondFailed));
    assert!(rt; two.sink.bytes() == RUN_TOLD);
    Ok(())
}

#[test]
fn stops_where_the_sink_fails(rt: HostRuntime) -> Result<(), Fail> {
    let mut first = scene(rt.alloc(), 130, &[5], [0, 0])?;
    first.sink.fail_at(1);
    let mut run = scene(rt.alloc(), 130, &[5], [0, 0])?;
    run.sink.fail_at(2);
    let mut last = scene(rt.alloc(), 130, &[5], [0, 0])?;
    last.sink.fail_at(3);
    assert!(rt; ends(rt.alloc(), &mut first) == Err(CompareStop::SinkFault));
    assert!(rt; first.sink.bytes().is_empty());
    assert!(rt; ends(rt.alloc(), &mut run) == Err(CompareStop::SinkFault));
    assert!(rt; run.sink.bytes() == HEAD_TOLD);
    assert!(rt; ends(rt.alloc(), &mut last) == Err(CompareStop::SinkFault));
    assert!(rt; last.sink.bytes() == RUN_TOLD);
    Ok(())
}
