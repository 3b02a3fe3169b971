ghost use Rattle.std.specs.Prelude.{◌≡◌, ◌*◌, ◌<◌, ℕ, IfOk, None, length};
ghost use Rattle.aoe_block.specs.Calls.{part_of};

use aoe_base::{Blob, Span, Ticket};
use aoe_block::{Block, Took};
use aoe_initiator::{Done, Op, Outcome};
use std::test::Fail;

fn ended(ticket: u64, outcome: Outcome) -> Done {
    Done {
        ticket: Ticket(ticket),
        outcome,
    }
}

/// `count` sectors, each byte of which is `fill`.
fn sectors(rt: &HostRuntime, fill: u8, count: usize) -> Result<Blob, Fail>
    requires { count < 17 }
    ensures { IfOk result (λ blob. length blob ≡ 512 * count) }
{
    Ok(Blob::from_vec(Vec::from_elem(rt.alloc(), fill, 512 * count)?))
}

fn is_read(op: &Option<Op>, at: u64, count: u32) -> bool {
    matches!(op, Some(Op::Read(span)) if *span == Span { at, count })
}

/// Whether the next part of a read is this one, which is handed then.
fn hands(block: &mut Block, ticket: u64, at: u64, count: u32) -> bool
    requires { part_of ticket block.old.parts ≡ None }
    ensures { (later : ℕ) → ticket < later → part_of later block.old.parts ≡ None
        → part_of later block.new.parts ≡ None }
{
    let Ok(part) = block.pending() else {
        return false;
    };
    if part.is_none() {
        return false;
    }
    block.handed(Ticket(ticket));
    is_read(&part, at, count)
}

/// Whether no further part is to be handed.
fn is_handed(block: &Block) -> bool {
    matches!(block.pending(), Ok(None))
}

/// What comes of a read that ended, each byte of which is `fill`.
fn takes(
    rt: &HostRuntime,
    block: &mut Block,
    ticket: u64,
    fill: u8,
    count: usize,
) -> Result<Took, Fail>
    requires { count < 17 }
{
    let read = sectors(rt, fill, count)?;
    Ok(block.take(ended(ticket, Outcome::Read(read))))
}

/// Whether a command that the block never handed comes back.
fn is_not_mine(block: &mut Block) -> bool {
    matches!(
        block.take(ended(4, Outcome::Written)),
        Took::NotMine(Done {
            ticket: Ticket(4),
            outcome: Outcome::Written
        })
    )
}

/// Whether the three parts end as they are to, the last first.
fn ends(rt: &HostRuntime, block: &mut Block) -> Result<bool, Fail> {
    let last = takes(rt, block, 3, 3, 1)?;
    let front = takes(rt, block, 1, 1, 2)?;
    let middle = takes(rt, block, 2, 2, 2)?;
    Ok(matches!((last, front, middle), (Took::More, Took::More, Took::Whole)))
}

/// Whether there are 2560 bytes, with these at these places.
fn has(blob: &Blob, places: &[(usize, u8)]) -> bool {
    for (i, fill) in places {
        if blob.bytes().get(*i) != Some(fill) {
            return false;
        }
    }
    blob.bytes().len() == 2560
}

#[test]
fn a_read_is_its_parts_in_order(rt: HostRuntime) -> Result<(), Fail> {
    let Ok(mut block) = Block::read(rt.alloc(), 16, 2, 3, 5) else {
        return Err(Fail::new("the range was refused"));
    };
    let handed = [
        hands(&mut block, 1, 3, 2),
        hands(&mut block, 2, 5, 2),
        hands(&mut block, 3, 7, 1),
    ];
    assert!(rt; handed == [true, true, true] && is_handed(&block));
    assert!(rt; is_not_mine(&mut block));
    let ended = ends(&rt, &mut block)?;
    let places = [
        (0, 1),
        (1023, 1),
        (1024, 2),
        (2047, 2),
        (2048, 3),
        (2559, 3),
    ];
    assert!(rt; ended && has(&block.into_bytes(), &places));
    Ok(())
}

#[test]
fn a_range_is_within_the_device(rt: HostRuntime) {
    let cases = [
        (16, 12, 5, false),
        (16, 12, 4, true),
        (16, 16, 0, true),
        (16, 17, 0, false),
        (16, u64::MAX, 2, false),
        (u64::MAX, u64::MAX, 1, false),
    ];
    for (total, at, count, is_within) in cases {
        let block = Block::read(rt.alloc(), total, 2, at, count);
        assert!(rt; block.is_ok() == is_within);
    }
}
