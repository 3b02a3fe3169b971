//! The desk of an NBD server: requests that become operations of a host, and outcomes that become
//! replies.
ghost use Rattle.std.specs.Prelude.{◌≡◌, ◌*◌, ◌%◌, ◌<◌, ◌≤◌, IfOk, length};
ghost use Rattle.aoe_base.specs.Sizes.{most_copied};

use crate::checks::holds;
use aoe_base::{Blob, Millis, Span, Ticket};
use aoe_desk::{Desk, MAX_OPEN};
use aoe_initiator::{Done, Op, Outcome};
use aoe_nbd::NbdError;
use std::test::Fail;

/// `count` sectors, each byte of which is `fill`.
fn sectors(rt: &HostRuntime, fill: u8, count: usize) -> Result<Blob, Fail>
    requires some { 0 < count }
    requires few { count < 17 }
    ensures { IfOk result (λ blob. length blob ≡ 512 * count) }
{
    Ok(Blob::from_vec(Vec::from_elem(rt.alloc(), fill, 512 * count)?))
}

/// A desk at a device of 65,536 sectors that takes two in one command.
fn desk(rt: &HostRuntime) -> Result<Desk, Fail>
    ensures { IfOk result (λ desk. desk.last ≡ 0) }
{
    match Desk::new(rt.alloc(), 65_536, 2) {
        Ok(desk) => Ok(desk),
        Err(_) => Err(Fail::new("no memory")),
    }
}

/// Whether there is room for a read, which is taken then.
fn read(desk: &mut Desk, handle: u64, at: u64, count: u32) -> bool
    requires some { 0 < count }
    requires short { count ≤ most_copied }
    ensures { desk.new.last ≡ desk.old.last }
{
    let has_room = desk.has_room(512 * count);
    if has_room {
        desk.read(handle, Span { at, count });
    }
    has_room
}

/// Whether there is room for a write, which is taken then.
fn write(desk: &mut Desk, handle: u64, at: u64, bytes: Blob, lasts: bool) -> bool
    requires some { 0 < length bytes }
    requires whole { length bytes % 512 ≡ 0 }
    requires short { length bytes ≤ 512 * 17 }
    ensures { desk.new.last ≡ desk.old.last }
{
    let has_room = desk.has_room(bytes.bytes().len() as u32);
    if has_room {
        desk.write(handle, at, bytes, lasts);
    }
    has_room
}

/// Whether there is room for a flush, which is taken then.
fn flush(desk: &mut Desk, handle: u64) -> bool
    ensures { desk.new.last ≡ desk.old.last }
{
    let has_room = desk.has_room(0);
    if has_room {
        desk.flush(handle);
    }
    has_room
}

/// Whether there is room for a request that is refused, which is taken then.
fn refuse(desk: &mut Desk, handle: u64) -> bool
    ensures { desk.new.last ≡ desk.old.last }
{
    let has_room = desk.has_room(0);
    if has_room {
        desk.refuse(handle, NbdError::Invalid);
    }
    has_room
}

/// What the next operation is.
#[derive(Clone, Copy, PartialEq, Eq)]
enum Next {
    Read(u64, u32),
    Write(u64, usize),
    Flush,
    Nothing,
}

fn name_of(op: &Op) -> Next {
    match op {
        Op::Read(span) => Next::Read(span.at, span.count),
        Op::Write { at, bytes } => Next::Write(*at, bytes.bytes().len() / 512),
        Op::Flush => Next::Flush,
        Op::Identify | Op::Config { .. } | Op::Masks { .. } | Op::Reserve { .. } => Next::Nothing,
    }
}

/// The next operation, which is handed with this ticket.
fn hand(desk: &mut Desk, ticket: u64) -> Next
    requires { desk.old.last < ticket }
    ensures { desk.new.last ≤ ticket }
{
    match desk.next_op() {
        Ok(Some(op)) => {
            desk.handed(Ticket(ticket));
            name_of(&op)
        }
        Ok(None) | Err(_) => Next::Nothing,
    }
}

/// Whether so many operations are handed, with the tickets from 1 on.
fn hand_all(desk: &mut Desk, count: u64) -> bool
    requires none { desk.old.last ≡ 0 }
    requires few { count < 1_000_000 }
    ensures { desk.new.last ≤ count }
{
    let mut are_there = true;
    'tickets: for before in 0..count {
        are_there = are_there && hand(desk, before + 1) != Next::Nothing;
    }
    are_there
}

/// Whether a command with this ticket was one of the desk's.
fn ends(desk: &mut Desk, ticket: u64, outcome: Outcome) -> bool
    ensures { desk.new.last ≡ desk.old.last }
{
    let done = Done {
        ticket: Ticket(ticket),
        outcome,
    };
    desk.settle(done).is_none()
}

/// Whether the first reply is this one, with so many bytes of data; it is written then.
fn replies(desk: &mut Desk, handle: u64, error: Option<NbdError>, len: usize) -> bool
    ensures { desk.new.last ≡ desk.old.last }
{
    let is_so = match desk.next_reply() {
        Some(reply) => {
            reply.handle == handle && reply.error == error && reply.payload.bytes().len() == len
        }
        None => false,
    };
    desk.reply_written();
    is_so
}

/// Whether the first reply has these bytes at these places.
fn has(desk: &Desk, places: &[(usize, u8)]) -> bool {
    let Some(reply) = desk.next_reply() else {
        return false;
    };
    for (place, byte) in places {
        if reply.payload.bytes().get(*place) != Some(byte) {
            return false;
        }
    }
    true
}

#[test]
fn a_read_gives_its_parts_in_order(rt: HostRuntime) -> Result<(), Fail> {
    let mut desk = desk(&rt)?;
    holds(&rt, read(&mut desk, 7, 3, 5), "room");
    let parts = [hand(&mut desk, 1), hand(&mut desk, 2), hand(&mut desk, 3)];
    let is_cut = parts == [Next::Read(3, 2), Next::Read(5, 2), Next::Read(7, 1)];
    holds(
        &rt,
        is_cut && hand(&mut desk, 4) == Next::Nothing,
        "three parts",
    );
    let last = ends(&mut desk, 3, Outcome::Read(sectors(&rt, 3, 1)?));
    let first = ends(&mut desk, 1, Outcome::Read(sectors(&rt, 1, 2)?));
    holds(
        &rt,
        last && first && desk.next_reply().is_none(),
        "one part is missing",
    );
    let middle = ends(&mut desk, 2, Outcome::Read(sectors(&rt, 2, 2)?));
    let places = [
        (0, 1),
        (1023, 1),
        (1024, 2),
        (2047, 2),
        (2048, 3),
        (2559, 3),
    ];
    holds(&rt, middle && has(&desk, &places), "the bytes");
    holds(&rt, replies(&mut desk, 7, None, 2560), "the reply");
    holds(
        &rt,
        desk.next_reply().is_none() && desk.is_finished(),
        "it is the only one",
    );
    Ok(())
}

#[test]
fn a_write_that_lasts_is_flushed(rt: HostRuntime) -> Result<(), Fail> {
    let mut desk = desk(&rt)?;
    let bytes = sectors(&rt, 9, 3)?;
    let are_taken = write(&mut desk, 1, 0, bytes, true) && flush(&mut desk, 2);
    holds(&rt, are_taken, "room");
    let ops = [
        hand(&mut desk, 1),
        hand(&mut desk, 2),
        hand(&mut desk, 3),
        hand(&mut desk, 4),
    ];
    let in_order = [
        Next::Write(0, 2),
        Next::Write(2, 1),
        Next::Flush,
        Next::Flush,
    ];
    holds(&rt, ops == in_order, "the flushes come last");
    let parts = ends(&mut desk, 2, Outcome::Written) && ends(&mut desk, 1, Outcome::Written);
    holds(
        &rt,
        parts && desk.next_reply().is_none(),
        "the flush is missing",
    );
    let flushes = ends(&mut desk, 4, Outcome::Flushed) && ends(&mut desk, 3, Outcome::Flushed);
    let both = replies(&mut desk, 2, None, 0) && replies(&mut desk, 1, None, 0);
    holds(&rt, flushes && both, "in the order of completion");
    Ok(())
}

#[test]
fn the_first_failure_decides(rt: HostRuntime) -> Result<(), Fail> {
    let rows = [
        (Outcome::AoeError(6), NbdError::NotPermitted),
        (Outcome::AoeError(2), NbdError::Failed),
        (
            Outcome::AtaError {
                status: 0x41,
                error: 0x04,
            },
            NbdError::Failed,
        ),
        (
            Outcome::GaveUp {
                first: Millis(0),
                now: Millis(180_000),
            },
            NbdError::Failed,
        ),
    ];
    for (outcome, error) in rows {
        let mut desk = desk(&rt)?;
        holds(&rt, read(&mut desk, 5, 0, 6), "room");
        let _ = [hand(&mut desk, 1), hand(&mut desk, 2), hand(&mut desk, 3)];
        let second = ends(&mut desk, 2, outcome);
        let first = ends(&mut desk, 1, Outcome::AoeError(6));
        holds(
            &rt,
            second && first && desk.next_reply().is_none(),
            "one is missing",
        );
        let third = ends(&mut desk, 3, Outcome::Read(sectors(&rt, 1, 2)?));
        holds(
            &rt,
            third && replies(&mut desk, 5, Some(error), 0),
            "the error",
        );
    }
    Ok(())
}

#[test]
fn requests_are_answered_as_they_end(rt: HostRuntime) -> Result<(), Fail> {
    let mut desk = desk(&rt)?;
    let are_taken = read(&mut desk, 1, 0, 4) && refuse(&mut desk, 2) && read(&mut desk, 1, 8, 2);
    holds(&rt, are_taken, "room");
    let ops = [hand(&mut desk, 5), hand(&mut desk, 6), hand(&mut desk, 7)];
    let in_order = [Next::Read(0, 2), Next::Read(2, 2), Next::Read(8, 2)];
    holds(&rt, ops == in_order, "in the order in which they came");
    holds(
        &rt,
        !ends(&mut desk, 4, Outcome::Written),
        "none of the desk's",
    );
    let second = ends(&mut desk, 7, Outcome::Read(sectors(&rt, 7, 2)?));
    holds(
        &rt,
        second && replies(&mut desk, 2, Some(NbdError::Invalid), 0),
        "the refusal",
    );
    holds(
        &rt,
        has(&desk, &[(0, 7)]) && replies(&mut desk, 1, None, 1024),
        "the second",
    );
    let first = ends(&mut desk, 6, Outcome::Read(sectors(&rt, 6, 2)?))
        && ends(&mut desk, 5, Outcome::Read(sectors(&rt, 5, 2)?));
    let bytes = has(&desk, &[(0, 5), (1024, 6)]);
    holds(
        &rt,
        first && bytes && replies(&mut desk, 1, None, 2048),
        "the first",
    );
    Ok(())
}

#[test]
fn a_client_that_left_is_not_answered(rt: HostRuntime) -> Result<(), Fail> {
    let mut desk = desk(&rt)?;
    let bytes = sectors(&rt, 1, 3)?;
    let are_taken = write(&mut desk, 1, 0, bytes, false) && refuse(&mut desk, 2);
    let first = hand(&mut desk, 1);
    desk.leave();
    let bytes = sectors(&rt, 2, 1)?;
    holds(
        &rt,
        are_taken && write(&mut desk, 3, 4, bytes, false),
        "room",
    );
    let ops = [first, hand(&mut desk, 2), hand(&mut desk, 3)];
    let all = [Next::Write(0, 2), Next::Write(2, 1), Next::Write(4, 1)];
    holds(&rt, ops == all && !desk.is_answered(), "it is carried out");
    let old = ends(&mut desk, 1, Outcome::Written) && ends(&mut desk, 2, Outcome::Written);
    holds(&rt, old && desk.next_reply().is_none(), "and not answered");
    let new = ends(&mut desk, 3, Outcome::Written);
    holds(
        &rt,
        new && replies(&mut desk, 3, None, 0),
        "the next client",
    );
    holds(
        &rt,
        desk.is_answered() && desk.is_finished(),
        "nothing is left",
    );
    Ok(())
}

#[test]
fn a_desk_is_bounded(rt: HostRuntime) -> Result<(), Fail> {
    let mut requests = desk(&rt)?;
    'requests: for _ in 0..MAX_OPEN {
        holds(&rt, refuse(&mut requests, 1), "a request");
    }
    holds(&rt, !requests.has_room(0), "the 129th request");
    requests.reply_written();
    holds(&rt, requests.has_room(0), "after a reply");

    let mut bytes = desk(&rt)?;
    let are_taken = read(&mut bytes, 1, 0, 32_768) && read(&mut bytes, 2, 0, 32_768);
    let is_full = bytes.has_room(0) && !bytes.has_room(512);
    holds(&rt, are_taken && is_full, "32 MiB");
    holds(&rt, hand_all(&mut bytes, 4_096), "the operations");
    holds(
        &rt,
        hand(&mut bytes, 5_000) == Next::Nothing,
        "the 4097th operation",
    );
    let one = ends(&mut bytes, 17, Outcome::AoeError(2));
    holds(
        &rt,
        one && hand(&mut bytes, 5_001) == Next::Read(8_192, 2),
        "after an outcome",
    );
    Ok(())
}

#[test]
fn a_request_is_given_up(rt: HostRuntime) -> Result<(), Fail> {
    let mut desk = desk(&rt)?;
    let bytes = sectors(&rt, 1, 4)?;
    let are_taken = write(&mut desk, 1, 0, bytes, true) && flush(&mut desk, 2);
    holds(&rt, are_taken, "room");
    let first = hand(&mut desk, 1);
    desk.give_up();
    let second = hand(&mut desk, 2);
    holds(
        &rt,
        first == Next::Write(0, 2) && second == Next::Flush,
        "the next request",
    );
    let is_done = ends(&mut desk, 1, Outcome::Written);
    holds(
        &rt,
        is_done && replies(&mut desk, 1, Some(NbdError::NoMemory), 0),
        "no memory",
    );
    Ok(())
}
