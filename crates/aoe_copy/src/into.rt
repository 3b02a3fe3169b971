//! The copy of an input into a device, and its flush.
ghost use Rattle.std.specs.Prelude.{◌≡◌, ◌≢◌, ◌+◌, ◌/◌, ◌<◌, ◌≤◌, ◌^◌, Err, false, length};
ghost use Rattle.aoe_base.specs.Faults.{Blamed};
ghost use Rattle.aoe_base.specs.Sizes.{longest_lifetime};
ghost use Rattle.aoe_tools.specs.Runs.{told};
ghost use Rattle.aoe_copy.specs.PutRuns.{Copies, MayRun};
ghost use Rattle.aoe_copy.specs.Puts.{Flushes, IsToolEnd, Puts};
ghost use Rattle.aoe_copy.specs.declared.end.CopyRefusal.{CopyRefusal as Refused};
ghost use Rattle.aoe_tools.specs.declared.end.ToolRefusal.{ToolRefusal as ToolRefused};

use crate::again::put_again;
use crate::end::CopyRefusal;
use crate::input::{Input, read_input};
use crate::nothing::Nothing;
use crate::plan::{Plan, plan_of};
use crate::putting::Putting;
use crate::terms::Terms;
use crate::watch::{Unwatched, Watch};
use aoe_base::{NoMemory, SECTOR_LEN, TargetId};
use aoe_block::attach;
use aoe_io::{Clock, Link, Source};
use aoe_tools::{Device, Refusal, ToolRefusal, look_up};
use std::alloc::Global;

/// Copies an input with this front into a device that was found.
fn copy_in<S: Source, L: Link, C: Clock, W: Watch>(
    alloc: Global,
    terms: &Terms,
    id: TargetId,
    device: &Device,
    plan: Plan,
    flush: bool,
    front: &[u8],
    source: &mut S,
    link: &mut L,
    clock: &mut C,
    watch: &mut W,
) -> Result<(), CopyRefusal>
    requires requests { terms.now.life.requests.0 ≤ longest_lifetime }
    requires responses { terms.now.life.responses.0 ≤ longest_lifetime }
    requires total { device.now.total < 2 ^ 48 }
    requires some { 0 < device.now.max }
    requires max { device.now.max ≤ 17 }
    requires same { plan.max ≡ device.now.max }
    requires within { plan.at + plan.count ≤ device.now.total }
    ensures runs { MayRun result terms.now id device.now plan flush front.now
        (record { link = record { turns = L.turns link.old; given = L.given link.old; taken = L.taken link.old; answers = C.answers clock.old }; left = S.left source.old })
        (record { link = record { turns = L.turns link.new; given = L.given link.new; taken = L.taken link.new; answers = C.answers clock.new }; left = S.left source.new }) }
    ensures unwritten { result ≢ Err CopyRefusal.SinkFault }
    ensures count { L.faults link.old ≤ L.faults link.new }
    ensures link { Blamed (result ≡ Err (CopyRefusal.Tool ToolRefusal.LinkFault))
        (L.faults link.old) (L.faults link.new) }
    ensures source_count { S.faults source.old ≤ S.faults source.new }
    ensures source { Blamed (result ≡ Err CopyRefusal.SourceFault) (S.faults source.old)
        (S.faults source.new) }
{
    match attach(
        alloc,
        terms.ask.port,
        terms.life,
        id,
        device.port,
        device.total,
        device.max,
        device.flush,
    ) {
        Ok(host) => Putting::new(alloc, host, 0, plan, flush, front).run(
            terms.ask.turns,
            source,
            link,
            clock,
            watch,
        ),
        Err(NoMemory) => Err(CopyRefusal::Tool(ToolRefusal::NoMemory)),
    }
}

/// Copies an input with this front into a device, once it is found.
fn put_front<S: Source, L: Link, C: Clock, W: Watch>(
    alloc: Global,
    terms: &Terms,
    id: TargetId,
    at: u64,
    flush: bool,
    front: &[u8],
    source: &mut S,
    link: &mut L,
    clock: &mut C,
    watch: &mut W,
) -> Result<(), CopyRefusal>
    requires some { 0 < terms.now.most }
    requires few { terms.now.most ≤ 17 }
    requires requests { terms.now.life.requests.0 ≤ longest_lifetime }
    requires responses { terms.now.life.responses.0 ≤ longest_lifetime }
    ensures run { Copies result terms.now id at flush front.now
        (told C.least C.answers L.turns L.given L.taken clock.old clock.new link.old link.new)
        (S.left source.old) (S.left source.new) }
    ensures unwritten { result ≢ Err CopyRefusal.SinkFault }
    ensures count { L.faults link.old ≤ L.faults link.new }
    ensures link { Blamed (result ≡ Err (CopyRefusal.Tool ToolRefusal.LinkFault))
        (L.faults link.old) (L.faults link.new) }
    ensures source_count { S.faults source.old ≤ S.faults source.new }
    ensures source { Blamed (result ≡ Err CopyRefusal.SourceFault) (S.faults source.old)
        (S.faults source.new) }
{
    let first = clock.now();
    let device = match look_up(&terms.ask, id, first, terms.most, link) {
        Ok(device) => device,
        Err(refusal) => return Err(CopyRefusal::Tool(refusal)),
    };
    let front_count = (front.len() / SECTOR_LEN) as u64;
    let plan = match plan_of(&device, at, None) {
        Some(plan) => plan,
        None => return Err(CopyRefusal::Tool(ToolRefusal::Refused(Refusal::Range))),
    };
    if front_count > plan.count {
        return Err(CopyRefusal::Tool(ToolRefusal::Refused(Refusal::Range)));
    }
    copy_in(
        alloc, terms, id, &device, plan, flush, front, source, link, clock, watch,
    )
}

/// Writes what the source gives to the sectors of a device from `at` on, and where `flush` is set
/// flushes the device once all is acknowledged. The first 16,777,216 bytes are read before anything
/// is sent, and what follows them as commands are acknowledged. A command has as many sectors as the
/// device takes, but at most as many as the terms say. Where `verify` is set the input is written in
/// parts of 16,781,312 bytes, and each is flushed, and read again and compared with what was sent,
/// before the next is read: `Differs` names the first sector that came back with other bytes. A part
/// that isn't whole sectors, or goes on behind the device's last sector, isn't sent then.
pub fn put<S: Source, L: Link, C: Clock, W: Watch>(
    alloc: Global,
    terms: &Terms,
    id: TargetId,
    at: u64,
    flush: bool,
    verify: bool,
    source: &mut S,
    link: &mut L,
    clock: &mut C,
    watch: &mut W,
) -> Result<(), CopyRefusal>
    requires some { 0 < terms.now.most }
    requires few { terms.now.most ≤ 17 }
    requires requests { terms.now.life.requests.0 ≤ longest_lifetime }
    requires responses { terms.now.life.responses.0 ≤ longest_lifetime }
    ensures run { Puts result terms.now id at flush verify
        (told C.least C.answers L.turns L.given L.taken clock.old clock.new link.old link.new)
        (S.left source.old) (S.left source.new) }
    ensures unwritten { result ≢ Err CopyRefusal.SinkFault }
    ensures count { L.faults link.old ≤ L.faults link.new }
    ensures link { Blamed (result ≡ Err (CopyRefusal.Tool ToolRefusal.LinkFault))
        (L.faults link.old) (L.faults link.new) }
    ensures source_count { S.faults source.old ≤ S.faults source.new }
    ensures source { Blamed (result ≡ Err CopyRefusal.SourceFault) (S.faults source.old)
        (S.faults source.new) }
{
    match read_input(alloc, source) {
        Ok(Input::Sectors(front) | Input::Longer(front)) if verify => put_again(
            alloc,
            terms,
            id,
            at,
            flush,
            front.bytes(),
            source,
            link,
            clock,
            watch,
        ),
        Ok(Input::Sectors(front) | Input::Longer(front)) => put_front(
            alloc,
            terms,
            id,
            at,
            flush,
            front.bytes(),
            source,
            link,
            clock,
            watch,
        ),
        Err(refusal) => Err(refusal),
    }
}

/// How a copy of nothing ends: as a tool ends.
fn as_tool(ended: Result<(), CopyRefusal>) -> Result<(), ToolRefusal>
    requires { (e : Refused) → ended ≡ Err e → (r : ToolRefused) × (e ≡ CopyRefusal.Tool r) }
    ensures { IsToolEnd ended result }
{
    match ended {
        Ok(()) => Ok(()),
        Err(CopyRefusal::Tool(refusal)) => Err(refusal),
        Err(CopyRefusal::Stream { .. }) => unreachable!(),
        Err(CopyRefusal::SourceFault) => unreachable!(),
        Err(CopyRefusal::SinkFault) => unreachable!(),
    }
}

/// Flushes a device, so that what was written to it and acknowledged before lasts a loss of power of
/// its shelf (ATA, FLUSH CACHE).
pub fn flush<L: Link, C: Clock>(
    alloc: Global,
    terms: &Terms,
    id: TargetId,
    link: &mut L,
    clock: &mut C,
) -> Result<(), ToolRefusal>
    requires some { 0 < terms.now.most }
    requires few { terms.now.most ≤ 17 }
    requires requests { terms.now.life.requests.0 ≤ longest_lifetime }
    requires responses { terms.now.life.responses.0 ≤ longest_lifetime }
    ensures run { Flushes result terms.now id
        (told C.least C.answers L.turns L.given L.taken clock.old clock.new link.old link.new) }
    ensures count { L.faults link.old ≤ L.faults link.new }
    ensures link { Blamed (result ≡ Err ToolRefusal.LinkFault) (L.faults link.old)
        (L.faults link.new) }
{
    as_tool(put_front(
        alloc,
        terms,
        id,
        0,
        true,
        &[],
        &mut Nothing,
        link,
        clock,
        &mut Unwatched,
    ))
}
