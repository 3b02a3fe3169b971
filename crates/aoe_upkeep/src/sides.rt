//! The comparison of a mirror's sides.
ghost use Rattle.std.specs.Prelude.{◌≡◌, ◌≤◌, ◌+◌, ◌/◌, ◌^◌, Err, IfErr, IfOk, OnOk, Some, length, true, false};
ghost use Rattle.aoe_base.specs.Faults.{Blamed};
ghost use Rattle.aoe_disk.specs.State.{IsDisk};
ghost use Rattle.aoe_disk.specs.Calls.{IsRange};
ghost use Rattle.aoe_upkeep.specs.Comparing.{Finds, Refuses, Reports, Tells, head_line, is_refused, scene};
ghost use Rattle.aoe_upkeep.specs.Scanning.{ComparesOn, IsScan, PassesOn};

use crate::CompareStop;
use crate::scan::{Scan, last_line};
use aoe_base::{Failed, SECTOR_LEN};
use aoe_disk::Disk;
use aoe_io::{Sink, give_all};
use aoe_mirror::{Found, read_mark};
use std::alloc::Global;

/// How many sectors of each side are read at once.
const PIECE: usize = 64;

/// The line with the side that leads, and whether the mirror is clean.
fn head_line(found: Found) -> &'static [u8]
    requires { found.side ≤ 1 }
    ensures { result.now ≡ head_line found }
{
    match (found.side, found.is_clean) {
        (0, true) => b"first leads, clean\n",
        (0, false) => b"first leads, not clean\n",
        (_, true) => b"second leads, clean\n",
        (_, false) => b"second leads, not clean\n",
    }
}

/// What the mark disk of two sides says.
fn find_mark<D: Disk>(one: &D, two: &D, mark: &mut D) -> Result<Found, CompareStop>
    ensures finds { IfOk result (λ found. Finds (Some found) (D.state one.now) (D.state two.now)
        (D.state mark.old) (D.state mark.new)) }
    ensures refuses { IfErr result (λ why. Refuses why (D.state one.now) (D.state two.now)
        (D.state mark.old) (D.state mark.new)) }
    ensures disks { OnOk result (IsDisk (D.state one.now) × IsDisk (D.state two.now)) }
{
    let first = one.sectors();
    let second = two.sectors();
    if first != second {
        return Err(CompareStop::Unequal { first, second });
    }
    if mark.sectors() == 0 {
        return Err(CompareStop::NoMark);
    }
    match read_mark(mark) {
        Ok(Some(found)) => Ok(found),
        Ok(None) => Err(CompareStop::NotMark),
        Err(Failed) => Err(CompareStop::MarkFailed),
    }
}

/// Reads the next sectors of both sides, as many as a piece has room for, and passes them.
fn compare_piece<D: Disk, K: Sink>(
    one: &mut D,
    two: &mut D,
    scan: &mut Scan,
    first: &mut [u8],
    second: &mut [u8],
    sink: &mut K,
) -> Result<(), CompareStop>
    requires range { IsRange scan.old.at (length first.old) (D.state one.old).sectors }
    requires size { (D.state two.old).sectors ≡ (D.state one.old).sectors }
    requires bound { (D.state one.old).sectors ≤ 2 ^ 40 }
    requires long { length second.old ≡ length first.old }
    requires scan { IsScan scan.old }
    ensures scan { IsScan scan.new }
    ensures at { OnOk result (scan.new.at ≡ scan.old.at + length first.old / 512) }
    ensures passes { PassesOn result (length first.old / 512) scan.old scan.new
        (scene D.state K.held one.old two.old sink.old)
        (scene D.state K.held one.new two.new sink.new) }
    ensures sink { Blamed (result ≡ Err CompareStop.SinkFault) (K.faults sink.old)
        (K.faults sink.new) }
{
    match one.read(scan.at, first) {
        Ok(()) => {}
        Err(Failed) => return Err(CompareStop::FirstFailed),
    }
    match two.read(scan.at, second) {
        Ok(()) => {}
        Err(Failed) => return Err(CompareStop::SecondFailed),
    }
    match scan.pass(first, second, sink) {
        Ok(()) => Ok(()),
        Err(Failed) => Err(CompareStop::SinkFault),
    }
}

/// Compares both sides and tells each run of sectors that differ. How many differ.
fn compare_sides<D: Disk, K: Sink>(
    one: &mut D,
    two: &mut D,
    first: &mut [u8],
    second: &mut [u8],
    sink: &mut K,
) -> Result<u64, CompareStop>
    requires size { (D.state two.old).sectors ≡ (D.state one.old).sectors }
    requires disk { IsDisk (D.state two.old) }
    requires first { length first.old ≡ 32768 }
    requires second { length second.old ≡ 32768 }
    ensures compares { ComparesOn result (scene D.state K.held one.old two.old sink.old)
        (scene D.state K.held one.new two.new sink.new) }
    ensures sink { Blamed (result ≡ Err CompareStop.SinkFault) (K.faults sink.old)
        (K.faults sink.new) }
{
    let sectors = one.sectors();
    let mut scan = Scan::new();
    'pieces: while scan.at < sectors {
        let len = SECTOR_LEN * PIECE.min((sectors - scan.at) as usize);
        match compare_piece(
            one,
            two,
            &mut scan,
            &mut first[..len],
            &mut second[..len],
            sink,
        ) {
            Ok(()) => {}
            Err(stop) => return Err(stop),
        }
    }
    match scan.close(sink) {
        Ok(()) => Ok(scan.count),
        Err(Failed) => Err(CompareStop::SinkFault),
    }
}

/// Tells what the mark disk said and what the sides have.
fn tell<D: Disk, K: Sink>(
    found: Found,
    one: &mut D,
    two: &mut D,
    first: &mut [u8],
    second: &mut [u8],
    sink: &mut K,
) -> Result<u64, CompareStop>
    requires side { found.side ≤ 1 }
    requires size { (D.state two.old).sectors ≡ (D.state one.old).sectors }
    requires one { IsDisk (D.state one.old) }
    requires two { IsDisk (D.state two.old) }
    requires first { length first.old ≡ 32768 }
    requires second { length second.old ≡ 32768 }
    ensures tells { Tells result found (scene D.state K.held one.old two.old sink.old)
        (scene D.state K.held one.new two.new sink.new) }
    ensures sink { Blamed (result ≡ Err CompareStop.SinkFault) (K.faults sink.old)
        (K.faults sink.new) }
{
    match give_all(sink, head_line(found)) {
        Ok(()) => {}
        Err(Failed) => return Err(CompareStop::SinkFault),
    }
    let count = match compare_sides(one, two, first, second, sink) {
        Ok(count) => count,
        Err(stop) => return Err(stop),
    };
    match give_all(sink, last_line(count, one.sectors()).as_slice()) {
        Ok(()) => Ok(count),
        Err(Failed) => Err(CompareStop::SinkFault),
    }
}

/// Compares the two sides of a mirror, and writes what it finds: a line with the side that leads by the
/// mark disk and whether the mirror is clean by it, a line for each greatest run of sectors that differ,
/// in their order, and a line with the number of them. Each side is read once, in pieces of 64 sectors,
/// for which 64 kB are taken; the mark disk is synced and read. How many sectors differ. Nothing is
/// written before there was memory.
pub fn compare<D: Disk, K: Sink>(
    alloc: Global,
    one: &mut D,
    two: &mut D,
    mark: &mut D,
    sink: &mut K,
) -> Result<u64, CompareStop>
    ensures reports { is_refused result ≡ false
        → Reports result (D.state mark.old) (D.state mark.new)
        (scene D.state K.held one.old two.old sink.old)
        (scene D.state K.held one.new two.new sink.new) }
    ensures refuses { IfErr result (λ why. is_refused result ≡ true
        → Refuses why (D.state one.old) (D.state two.old) (D.state mark.old)
        (D.state mark.new)) }
    ensures unread { is_refused result ≡ true → (one.new ≡ one.old) × (two.new ≡ two.old) }
    ensures unwritten { is_refused result ≡ true → sink.new ≡ sink.old }
    ensures sink { Blamed (result ≡ Err CompareStop.SinkFault) (K.faults sink.old)
        (K.faults sink.new) }
{
    let found = match find_mark(one, two, mark) {
        Ok(found) => found,
        Err(stop) => return Err(stop),
    };
    let Ok(mut pieces) = Vec::from_elem(alloc, 0, 2 * SECTOR_LEN * PIECE) else {
        return Err(CompareStop::NoMemory);
    };
    let (first, second) = pieces.as_mut_slice().split_at_mut(SECTOR_LEN * PIECE);
    tell(found, one, two, first, second, sink)
}
