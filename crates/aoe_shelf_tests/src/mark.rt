use aoe_disk::{Disk, Loss, MemDisk};
use aoe_mirror::{MarkRefusal, Named, settle_mark};
use std::alloc::Global;
use std::test::Fail;

/// What a mark disk says: the side that leads, whether the mirror is clean, and of which two names it
/// keeps digests, each of which is 32 times one byte.
type Says = (u8, bool, [u8; 2]);

/// The names that are given: 0 where a side is gone.
type Given = [u8; 2];

/// The three sectors of a mark disk.
fn image_of(says: Says) -> [u8; 1536] {
    let (side, is_clean, kept) = says;
    let mut image = [0; 1536];
    if side == 1 {
        image[0] = 0xa7;
    }
    if is_clean {
        image[512] = 0xc3;
    }
    if kept != [0, 0] {
        image[1024] = 0x5a;
        image[1056..1088].copy_from_slice(&[kept[0]; 32]);
        image[1088..1120].copy_from_slice(&[kept[1]; 32]);
    }
    image
}

fn named(given: Given) -> Named {
    let name = |byte: u8| if byte == 0 { None } else { Some([byte; 32]) };
    Named {
        one: name(given[0]),
        two: name(given[1]),
    }
}

/// What a mark disk of three sectors holds, where it can be read.
fn held(disk: &mut MemDisk) -> Option<[u8; 1536]> {
    let mut image = [0; 1536];
    if disk.sectors() != 3 || disk.read(0, &mut image).is_err() {
        return None;
    }
    Some(image)
}

/// Whether a mark disk is settled, or refused, as it is to be.
fn settles(
    alloc: Global,
    says: Says,
    given: Given,
    lead_other: bool,
    then: Result<Says, MarkRefusal>,
) -> Result<bool, Fail> {
    let mut disk = MemDisk::of(alloc, &image_of(says))?;
    let settled = settle_mark(&mut disk, &named(given), lead_other);
    let image = held(&mut disk);
    Ok(match then {
        Ok(then) => settled == Ok(()) && image == Some(image_of(then)),
        Err(refusal) => settled == Err(refusal) && image == Some(image_of(says)),
    })
}

#[test]
fn settles_by_what_is_named(rt: HostRuntime) -> Result<(), Fail> {
    let moved = |side: u8| Err(MarkRefusal::Moved { side });
    let replaced = |side: u8| Err(MarkRefusal::Replaced { side });
    let gone = Err(MarkRefusal::Gone);
    let rows: [(Says, Given, bool, Result<Says, MarkRefusal>); 29] = [
        // The names are learned.
        ((0, false, [0, 0]), [7, 8], false, Ok((0, false, [7, 8]))),
        ((1, true, [0, 0]), [7, 8], false, Ok((1, true, [7, 8]))),
        ((1, true, [0, 8]), [7, 8], false, Ok((1, true, [7, 8]))),
        // Nothing changes.
        ((1, true, [7, 8]), [7, 8], false, Ok((1, true, [7, 8]))),
        ((0, false, [7, 8]), [7, 8], true, Ok((0, false, [7, 8]))),
        // The two are named in the other order.
        ((0, true, [7, 8]), [8, 7], true, moved(0)),
        ((0, true, [7, 8]), [9, 7], true, moved(1)),
        ((0, true, [7, 8]), [8, 0], true, moved(0)),
        ((1, true, [7, 0]), [0, 7], true, moved(1)),
        // The one that follows is new, or gone.
        ((0, true, [7, 8]), [7, 9], false, Ok((0, false, [7, 9]))),
        ((1, false, [7, 8]), [9, 8], true, Ok((1, false, [9, 8]))),
        ((0, true, [7, 8]), [7, 0], false, Ok((0, false, [7, 8]))),
        ((1, false, [0, 0]), [0, 8], false, Ok((1, false, [0, 8]))),
        // The one that led is new.
        ((0, true, [7, 8]), [9, 8], false, Ok((1, false, [9, 8]))),
        ((0, false, [7, 8]), [9, 8], false, replaced(0)),
        ((1, false, [7, 8]), [7, 9], false, replaced(1)),
        ((1, false, [7, 8]), [7, 9], true, Ok((0, false, [7, 9]))),
        ((0, false, [7, 0]), [9, 8], false, replaced(0)),
        // The one that led is gone.
        ((0, true, [7, 8]), [0, 8], false, Ok((1, false, [7, 8]))),
        ((0, false, [7, 8]), [0, 8], false, gone),
        ((1, false, [0, 0]), [7, 0], false, gone),
        ((1, false, [0, 0]), [7, 0], true, Ok((0, false, [7, 0]))),
        // Both are new.
        ((1, true, [7, 8]), [5, 6], false, Ok((1, false, [5, 6]))),
        ((0, false, [7, 8]), [5, 6], false, Ok((0, false, [5, 6]))),
        // A new one is there alone.
        ((0, true, [7, 8]), [5, 0], false, replaced(0)),
        ((0, true, [7, 8]), [5, 0], true, Ok((0, false, [5, 8]))),
        ((0, true, [7, 8]), [0, 9], false, gone),
        ((0, false, [7, 8]), [0, 9], true, Ok((1, false, [7, 9]))),
        // Neither is named.
        ((0, true, [7, 8]), [0, 0], true, gone),
    ];
    for (says, given, lead_other, then) in rows {
        assert!(rt; settles(rt.alloc(), says, given, lead_other, then)?);
    }
    Ok(())
}

/// Whether a mark disk with this image is refused so, and stays.
fn refuses(alloc: Global, image: &[u8; 1536], refusal: MarkRefusal) -> Result<bool, Fail> {
    let mut disk = MemDisk::of(alloc, image)?;
    let refused = settle_mark(&mut disk, &named([7, 8]), true) == Err(refusal);
    Ok(refused && held(&mut disk) == Some(*image))
}

#[test]
fn refuses_what_is_no_mark(rt: HostRuntime) -> Result<(), Fail> {
    for at in [0, 1, 511, 512, 1023, 1024, 1025, 1055, 1056, 1120, 1535] {
        let mut image = image_of((0, false, [0, 0]));
        image[at] = 1;
        assert!(rt; refuses(rt.alloc(), &image, MarkRefusal::NotMark)?);
    }
    Ok(())
}

#[test]
fn knows_no_names_on_two_sectors(rt: HostRuntime) -> Result<(), Fail> {
    for sectors in [1, 2] {
        let mut disk = MemDisk::new(rt.alloc(), sectors)?;
        let calls = disk.calls();
        assert!(rt; settle_mark(&mut disk, &named([7, 8]), false) == Ok(()));
        assert!(rt; disk.calls() == calls + 2);
        let alone = settle_mark(&mut disk, &named([0, 8]), false);
        assert!(rt; alone == Err(MarkRefusal::Gone));
    }
    let mut disk = MemDisk::new(rt.alloc(), 0)?;
    let refused = settle_mark(&mut disk, &named([7, 8]), false);
    assert!(rt; refused == Err(MarkRefusal::NoMark));
    Ok(())
}

/// Whether a loss of power at a call of a settling leaves no clean mark with a new name.
fn leaves_no_clean_mark(alloc: Global, k: u32, how: Loss) -> Result<bool, Fail> {
    let before = image_of((0, true, [7, 8]));
    let mut disk = MemDisk::of(alloc, &before)?;
    disk.stop_at(k.max(1));
    let settled = settle_mark(&mut disk, &named([9, 8]), false);
    let Some(image) = held(&mut disk.crash(how)) else {
        return Ok(false);
    };
    let is_old = image[512] != 0xc3 || image[1024..] == before[1024..];
    Ok(
        is_old
            && settled
                == (if k > 9 {
                    Ok(())
                } else {
                    Err(MarkRefusal::Failed)
                }),
    )
}

#[test]
fn is_never_clean_with_a_new_name(rt: HostRuntime) -> Result<(), Fail> {
    for k in [1, 2, 3, 4, 5, 6, 7, 8, 9, 10] {
        for how in [Loss::Keep, Loss::Old, Loss::Torn, Loss::Mix(1)] {
            assert!(rt; leaves_no_clean_mark(rt.alloc(), k, how)?);
        }
    }
    Ok(())
}
