//! The copy of an input into a device whose sectors are read again and compared, part by part.
ghost use Rattle.std.specs.Prelude.{◌≡◌, ◌≢◌, ◌+◌, ◌*◌, ◌/◌, ◌%◌, ◌<◌, ◌≤◌, ◌^◌, ℕ, List, [], Err, IfNone, IfOk, IfSome, OnOk, length, true};
ghost use Rattle.aoe_base.specs.Faults.{Blamed};
ghost use Rattle.aoe_base.specs.Sizes.{longest_lifetime};
ghost use Rattle.aoe_tools.specs.Runs.{told};
ghost use Rattle.aoe_block.specs.Answered.{IsStart};
ghost use Rattle.aoe_block.specs.Steps.{Start};
ghost use Rattle.aoe_initiator.specs.HostLog.{Event};
ghost use Rattle.aoe_copy.specs.Again.{Checks, IsBack, IsCompared, IsFirstOther, MayCheck, PutsAgain};
ghost use Rattle.aoe_copy.specs.Checking.{left_of, GoesOn, IsCourse, IsFit, IsFree, PartEnds, ReadsInto, SoFar};
ghost use Rattle.aoe_copy.specs.PutRuns.{PutSeen};

use crate::copying::Copying;
use crate::end::CopyRefusal;
use crate::feed::Feed;
use crate::nothing::Nothing;
use crate::plan::{Plan, plan_of};
use crate::putting::Putting;
use crate::terms::Terms;
use crate::watch::{Onward, Unwatched, Watch};
use aoe_base::{NoMemory, SECTOR_LEN, TargetId};
use aoe_block::attach;
use aoe_initiator::Initiator;
use aoe_io::{Clock, Link, MemSink, Source};
use aoe_tools::{Device, Refusal, ToolRefusal, look_up};
use std::alloc::Global;

/// The most bytes of a part: whole commands of 17 sectors, and at least as many bytes as are read of
/// an input before anything is sent.
const PART_BYTES: usize = 16_781_312;

/// Where an input goes, and how.
#[derive(Clone, Copy)]
pub(crate) struct Course {
    /// The sectors that it may have.
    plan: Plan,

    /// Whether each part is flushed before it is read again.
    flush: bool,

    /// After how many quiet turns the device is given up.
    turns: u32,
}

/// A copy between two parts of its input.
#[derive(Drop)]
pub(crate) struct Between<'a> {
    /// The host that is attached to the device.
    host: Initiator,

    /// How many tickets it gave.
    asked: u64,

    /// What is left of the input.
    feed: Feed<'a>,

    /// How many sectors came back as they were sent.
    reached: u64,

    /// Whether there may be more of the input.
    goes_on: bool,
}

/// The first sector that came back with other bytes than it was sent with, counted from 0.
fn first_other(sent: &[u8], back: &[u8]) -> Option<usize>
    requires whole { length sent.now % 512 ≡ 0 }
    requires long { length back.now ≡ length sent.now }
    ensures some { IfSome result (λ k. IsFirstOther 0 sent.now back.now k) }
    ensures none { IfNone result (back.now ≡ sent.now) }
{
    'sectors: for k in 0..sent.len() / SECTOR_LEN {
        let start = SECTOR_LEN * k;
        if back[start..start + SECTOR_LEN] != sent[start..start + SECTOR_LEN] {
            return Some(k);
        }
    }
    None
}

/// Whether the sectors from `at` on came back as they were sent.
fn compare(at: u64, sent: &[u8], back: &[u8]) -> Result<(), CopyRefusal>
    requires whole { length sent.now % 512 ≡ 0 }
    requires long { length back.now ≡ length sent.now }
    requires range { at + length sent.now / 512 < 2 ^ 48 }
    ensures compared { IsCompared at sent.now back.now result }
    ensures source { result ≢ Err CopyRefusal.SourceFault }
    ensures sink { result ≢ Err CopyRefusal.SinkFault }
    ensures link { result ≢ Err (CopyRefusal.Tool ToolRefusal.LinkFault) }
{
    match first_other(sent, back) {
        Some(k) => {
            let sector = at + k as u64;
            Err(CopyRefusal::Tool(ToolRefusal::Refused(Refusal::Differs { sector })))
        }
        None => Ok(()),
    }
}

/// How it ends that sectors were read again into memory: as they compare, where all came.
fn end_back(
    read: Result<(), CopyRefusal>,
    at: u64,
    sent: &[u8],
    back: &[u8],
) -> Result<(), CopyRefusal>
    requires whole { length sent.now % 512 ≡ 0 }
    requires long { OnOk read (length back.now ≡ length sent.now) }
    requires range { at + length sent.now / 512 < 2 ^ 48 }
    requires source { read ≢ Err CopyRefusal.SourceFault }
    ensures back { IsBack read at sent.now back.now result }
    ensures source { result ≢ Err CopyRefusal.SourceFault }
    ensures sink { result ≢ Err CopyRefusal.SinkFault }
    ensures link { result ≡ Err (CopyRefusal.Tool ToolRefusal.LinkFault)
        → read ≡ Err (CopyRefusal.Tool ToolRefusal.LinkFault) }
    ensures blamed { read ≡ Err (CopyRefusal.Tool ToolRefusal.LinkFault)
        → result ≡ Err (CopyRefusal.Tool ToolRefusal.LinkFault) }
{
    match read {
        Ok(()) => compare(at, sent, back),
        Err(CopyRefusal::SinkFault) => Err(CopyRefusal::Tool(ToolRefusal::NoMemory)),
        Err(CopyRefusal::Tool(refusal)) => Err(CopyRefusal::Tool(refusal)),
        Err(CopyRefusal::Stream { offset }) => Err(CopyRefusal::Stream { offset }),
        Err(CopyRefusal::SourceFault) => Err(CopyRefusal::SourceFault),
    }
}

/// Reads the sectors of a part again, by a host that gave so many tickets before, into memory that has
/// room for them, and compares them with those that were sent. The host, and how many tickets it gave.
fn read_back<L: Link, C: Clock>(
    alloc: Global,
    host: Initiator,
    before: u64,
    plan: Plan,
    turns: u32,
    sent: &[u8],
    back: &mut MemSink,
    link: &mut L,
    clock: &mut C,
) -> Result<(Initiator, u64), CopyRefusal>
    requires free { IsFree host before }
    requires few { before ≤ 2 ^ 62 }
    requires begins { (log : List Event) × IsStart (record { host = host; log = log }) }
    requires some { 0 < plan.max }
    requires max { plan.max ≤ 17 }
    requires range { plan.at + plan.count < 2 ^ 48 }
    requires whole { length sent.now % 512 ≡ 0 }
    requires count { plan.count ≡ length sent.now / 512 }
    requires empty { back.old.held ≡ [] }
    ensures free { IfOk result (λ r. IsFree r.0 r.1) }
    ensures few { IfOk result (λ r. r.1 ≤ before + plan.count) }
    ensures reads { (log : List Event) → IsStart (record { host = host; log = log })
        → ReadsInto result (record { host = host; log = log }) plan turns sent.now
        (record { turns = L.turns link.old; given = L.given link.old; taken = L.taken link.old; answers = C.answers clock.old })
        (record { turns = L.turns link.new; given = L.given link.new; taken = L.taken link.new; answers = C.answers clock.new }) }
    ensures source { result ≢ Err CopyRefusal.SourceFault }
    ensures sink { result ≢ Err CopyRefusal.SinkFault }
    ensures count { L.faults link.old ≤ L.faults link.new }
    ensures link { Blamed (result ≡ Err (CopyRefusal.Tool ToolRefusal.LinkFault))
        (L.faults link.old) (L.faults link.new) }
{
    let mut copying = Copying::new(alloc, host, before, plan);
    let read = copying.run(turns, back, link, clock, &mut Unwatched);
    match end_back(read, plan.at, sent, back.bytes()) {
        Ok(()) => Ok(copying.into_host()),
        Err(refusal) => Err(refusal),
    }
}

/// Writes a part behind so many sectors, flushes it where that is asked for, and reads it again. The
/// host, and how many tickets it gave.
fn check_part<L: Link, C: Clock, W: Watch>(
    alloc: Global,
    course: &Course,
    host: Initiator,
    before: u64,
    reached: u64,
    part: &[u8],
    link: &mut L,
    clock: &mut C,
    watch: &mut W,
) -> Result<(Initiator, u64), CopyRefusal>
    requires course { IsCourse course.now }
    requires free { IsFree host before }
    requires few { before ≤ 2 ^ 60 }
    requires begins { (log : List Event) × IsStart (record { host = host; log = log }) }
    requires whole { length part.now % 512 ≡ 0 }
    requires within { reached + length part.now / 512 ≤ course.now.plan.count }
    ensures free { IfOk result (λ r. IsFree r.0 r.1) }
    ensures few { IfOk result (λ r. r.1 ≤ before + 2 * (length part.now / 512) + 1) }
    ensures part { (log : List Event) → IsStart (record { host = host; log = log })
        → PartEnds result course.now (record { host = host; log = log }) reached part.now
        (record { turns = L.turns link.old; given = L.given link.old; taken = L.taken link.old; answers = C.answers clock.old })
        (record { turns = L.turns link.new; given = L.given link.new; taken = L.taken link.new; answers = C.answers clock.new }) }
    ensures source { result ≢ Err CopyRefusal.SourceFault }
    ensures sink { result ≢ Err CopyRefusal.SinkFault }
    ensures count { L.faults link.old ≤ L.faults link.new }
    ensures link { Blamed (result ≡ Err (CopyRefusal.Tool ToolRefusal.LinkFault))
        (L.faults link.old) (L.faults link.new) }
{
    let Ok(mut back) = MemSink::new(alloc, part.len()) else {
        return Err(CopyRefusal::Tool(ToolRefusal::NoMemory));
    };
    let plan = Plan {
        at: course.plan.at + reached,
        count: (part.len() / SECTOR_LEN) as u64,
        max: course.plan.max,
    };
    let mut putting = Putting::new(alloc, host, before, plan, course.flush, part);
    let mut onward = Onward {
        watch,
        before: reached,
    };
    match putting.run(course.turns, &mut Nothing, link, clock, &mut onward) {
        Ok(()) => {}
        Err(refusal) => return Err(refusal),
    }
    let (host, asked) = putting.into_host();
    read_back(
        alloc,
        host,
        asked,
        plan,
        course.turns,
        part,
        &mut back,
        link,
        clock,
    )
}

/// Takes the next part of the input and checks it. A part that isn't whole sectors, or goes on behind
/// the device's last sector, isn't sent.
fn check_next<'a, S: Source, L: Link, C: Clock, W: Watch>(
    alloc: Global,
    course: &Course,
    between: Between<'a>,
    source: &mut S,
    link: &mut L,
    clock: &mut C,
    watch: &mut W,
) -> Result<Between<'a>, CopyRefusal>
    requires course { IsCourse course.now }
    requires fit { IsFit course.now between }
    requires more { between.goes_on ≡ true }
    requires begins { (log : List Event) × IsStart (record { host = between.host; log = log }) }
    ensures fit { IfOk result (λ next. IsFit course.now next) }
    ensures less { IfOk result (λ next. left_of course.now next < left_of course.now between.entry) }
    ensures goes { (b : Start) (front : List ℕ) (before : PutSeen)
        → SoFar course.now b front before
        (record { link = record { turns = L.turns link.old; given = L.given link.old; taken = L.taken link.old; answers = C.answers clock.old }; left = S.left source.old })
        between.entry
        → GoesOn result course.now b front before
        (record { link = record { turns = L.turns link.new; given = L.given link.new; taken = L.taken link.new; answers = C.answers clock.new }; left = S.left source.new }) }
    ensures sink { result ≢ Err CopyRefusal.SinkFault }
    ensures count { L.faults link.old ≤ L.faults link.new }
    ensures link { Blamed (result ≡ Err (CopyRefusal.Tool ToolRefusal.LinkFault))
        (L.faults link.old) (L.faults link.new) }
    ensures source_count { S.faults source.old ≤ S.faults source.new }
    ensures source { Blamed (result ≡ Err CopyRefusal.SourceFault) (S.faults source.old)
        (S.faults source.new) }
{
    let Between {
        host,
        asked,
        mut feed,
        reached,
        ..
    } = between;
    let (part, rest) = match feed.piece(alloc, source, PART_BYTES) {
        Ok(piece) => piece,
        Err(refusal) => return Err(refusal),
    };
    let bytes = part.bytes();
    let next = reached + (bytes.len() / SECTOR_LEN) as u64;
    if rest > 0 {
        let offset = SECTOR_LEN as u64 * next;
        return Err(CopyRefusal::Stream { offset });
    }
    if next > course.plan.count {
        return Err(CopyRefusal::Tool(ToolRefusal::Refused(Refusal::Range)));
    }
    if bytes.is_empty() && reached > 0 {
        return Ok(Between {
            host,
            asked,
            feed,
            reached,
            goes_on: false,
        });
    }
    match check_part(
        alloc, course, host, asked, reached, bytes, link, clock, watch,
    ) {
        Ok((host, asked)) => Ok(Between {
            host,
            asked,
            feed,
            reached: next,
            goes_on: bytes.len() == PART_BYTES,
        }),
        Err(refusal) => Err(refusal),
    }
}

/// Writes an input with this front and reads it again, part by part, by a host that is attached to the
/// device and did nothing yet.
fn check_all<S: Source, L: Link, C: Clock, W: Watch>(
    alloc: Global,
    course: &Course,
    host: Initiator,
    front: &[u8],
    source: &mut S,
    link: &mut L,
    clock: &mut C,
    watch: &mut W,
) -> Result<(), CopyRefusal>
    requires course { IsCourse course.now }
    requires free { IsFree host 0 }
    requires begins { IsStart (record { host = host; log = [] }) }
    ensures checks { Checks result course.now (record { host = host; log = [] }) front.now
        (record { link = record { turns = L.turns link.old; given = L.given link.old; taken = L.taken link.old; answers = C.answers clock.old }; left = S.left source.old })
        (record { link = record { turns = L.turns link.new; given = L.given link.new; taken = L.taken link.new; answers = C.answers clock.new }; left = S.left source.new }) }
    ensures sink { result ≢ Err CopyRefusal.SinkFault }
    ensures count { L.faults link.old ≤ L.faults link.new }
    ensures link { Blamed (result ≡ Err (CopyRefusal.Tool ToolRefusal.LinkFault))
        (L.faults link.old) (L.faults link.new) }
    ensures source_count { S.faults source.old ≤ S.faults source.new }
    ensures source { Blamed (result ≡ Err CopyRefusal.SourceFault) (S.faults source.old)
        (S.faults source.new) }
{
    let mut between = Between {
        host,
        asked: 0,
        feed: Feed::new(front),
        reached: 0,
        goes_on: true,
    };
    'parts: while between.goes_on {
        between = match check_next(alloc, course, between, source, link, clock, watch) {
            Ok(next) => next,
            Err(refusal) => return Err(refusal),
        };
    }
    Ok(())
}

/// Writes an input with this front to a device that was found, and reads it again.
fn check_in<S: Source, L: Link, C: Clock, W: Watch>(
    alloc: Global,
    terms: &Terms,
    id: TargetId,
    device: &Device,
    plan: Plan,
    flush: bool,
    front: &[u8],
    source: &mut S,
    link: &mut L,
    clock: &mut C,
    watch: &mut W,
) -> Result<(), CopyRefusal>
    requires requests { terms.now.life.requests.0 ≤ longest_lifetime }
    requires responses { terms.now.life.responses.0 ≤ longest_lifetime }
    requires total { device.now.total < 2 ^ 48 }
    requires some { 0 < device.now.max }
    requires max { device.now.max ≤ 17 }
    requires same { plan.max ≡ device.now.max }
    requires within { plan.at + plan.count ≤ device.now.total }
    ensures checks { MayCheck result terms.now id device.now plan flush front.now
        (record { link = record { turns = L.turns link.old; given = L.given link.old; taken = L.taken link.old; answers = C.answers clock.old }; left = S.left source.old })
        (record { link = record { turns = L.turns link.new; given = L.given link.new; taken = L.taken link.new; answers = C.answers clock.new }; left = S.left source.new }) }
    ensures unwritten { result ≢ Err CopyRefusal.SinkFault }
    ensures count { L.faults link.old ≤ L.faults link.new }
    ensures link { Blamed (result ≡ Err (CopyRefusal.Tool ToolRefusal.LinkFault))
        (L.faults link.old) (L.faults link.new) }
    ensures source_count { S.faults source.old ≤ S.faults source.new }
    ensures source { Blamed (result ≡ Err CopyRefusal.SourceFault) (S.faults source.old)
        (S.faults source.new) }
{
    let host = match attach(
        alloc,
        terms.ask.port,
        terms.life,
        id,
        device.port,
        device.total,
        device.max,
        device.flush,
    ) {
        Ok(host) => host,
        Err(NoMemory) => return Err(CopyRefusal::Tool(ToolRefusal::NoMemory)),
    };
    let course = Course {
        plan,
        flush,
        turns: terms.ask.turns,
    };
    check_all(alloc, &course, host, front, source, link, clock, watch)
}

/// Writes an input with this front to a device from `at` on, once it is found, part by part: each is
/// written, flushed where `flush` is set, and read again and compared with what was sent, before more
/// of the input is read.
pub(crate) fn put_again<S: Source, L: Link, C: Clock, W: Watch>(
    alloc: Global,
    terms: &Terms,
    id: TargetId,
    at: u64,
    flush: bool,
    front: &[u8],
    source: &mut S,
    link: &mut L,
    clock: &mut C,
    watch: &mut W,
) -> Result<(), CopyRefusal>
    requires some { 0 < terms.now.most }
    requires few { terms.now.most ≤ 17 }
    requires requests { terms.now.life.requests.0 ≤ longest_lifetime }
    requires responses { terms.now.life.responses.0 ≤ longest_lifetime }
    ensures run { PutsAgain result terms.now id at flush front.now
        (told C.least C.answers L.turns L.given L.taken clock.old clock.new link.old link.new)
        (S.left source.old) (S.left source.new) }
    ensures unwritten { result ≢ Err CopyRefusal.SinkFault }
    ensures count { L.faults link.old ≤ L.faults link.new }
    ensures link { Blamed (result ≡ Err (CopyRefusal.Tool ToolRefusal.LinkFault))
        (L.faults link.old) (L.faults link.new) }
    ensures source_count { S.faults source.old ≤ S.faults source.new }
    ensures source { Blamed (result ≡ Err CopyRefusal.SourceFault) (S.faults source.old)
        (S.faults source.new) }
{
    let first = clock.now();
    let device = match look_up(&terms.ask, id, first, terms.most, link) {
        Ok(device) => device,
        Err(refusal) => return Err(CopyRefusal::Tool(refusal)),
    };
    match plan_of(&device, at, None) {
        Some(plan) => check_in(
            alloc, terms, id, &device, plan, flush, front, source, link, clock, watch,
        ),
        None => Err(CopyRefusal::Tool(ToolRefusal::Refused(Refusal::Range))),
    }
}
