//! A copy into a device, turn by turn.
ghost use Rattle.std.specs.Prelude.{◌≡◌, ◌≢◌, ◌+◌, ◌*◌, ◌/◌, ◌%◌, ◌<◌, ◌≤◌, ◌^◌, ◌∷◌, ℕ, List, [], Option, Ok, Err, IfErr, IfOk, OnErr, OnOk, IfSome, length, false, true};
ghost use Rattle.aoe_base.specs.Faults.{Blamed};
ghost use Rattle.aoe_block.specs.Answered.{IsStart};
ghost use Rattle.aoe_block.specs.Steps.{has_ticked, outcomes, Drives, GoesOn, Seen};
ghost use Rattle.aoe_initiator.specs.declared.outcome.Done.{Done};
ghost use Rattle.aoe_initiator.specs.Host.{Matches};
ghost use Rattle.aoe_initiator.specs.HostLog.{Event};
ghost use Rattle.aoe_io.specs.Bytes.{GaveSome};
ghost use Rattle.aoe_io.specs.Link.{Added};
ghost use Rattle.aoe_copy.specs.Copying.{InOrder, Takes};
ghost use Rattle.aoe_copy.specs.Feed.{ahead};
ghost use Rattle.aoe_copy.specs.PutRuns.{PutSeen, PutSetting, Runs};
ghost use Rattle.aoe_copy.specs.PutSteps.{PutStep};
ghost use Rattle.aoe_copy.specs.Putting.{end_of, may_flush, may_read, reads_left, room_of, stage_behind, stage_past, Begins, Collects, FlushesOne, IsFit, Keeps, MayBegin, ReadsOn, Setting, Stands, Turns, WritesOne, WritesSome};
ghost use Rattle.aoe_copy.specs.Window.{most_open};

use crate::copying::Passed;
use crate::end::{CopyRefusal, failure};
use crate::feed::Feed;
use crate::flying::Flying;
use crate::plan::Plan;
use crate::watch::Watch;
use crate::window::MAX_OPEN;
use aoe_base::{Blob, Failed, Millis, NoMemory, SECTOR_LEN};
use aoe_block::{DEVICE, exchange};
use aoe_frame::Frame;
use aoe_initiator::{Initiator, Op};
use aoe_io::{Clock, Link, Source};
use aoe_tools::{Refusal, ToolRefusal};
use std::alloc::Global;

/// What is left to do.
#[derive(Clone, Copy)]
pub(crate) enum Stage {
    /// To read the input on.
    Reading,

    /// The input ended: to flush, once all is acknowledged, where that is asked for.
    Ended,

    /// It ended within a sector: to say so, once all before it is acknowledged.
    Broken,

    /// It goes on after the last sector of the device: to say so, once all is acknowledged.
    Beyond,

    /// The flush is under way.
    Flushing,
}

/// What is left to do where the input ended with so many bytes behind its whole sectors.
fn stage_behind(rest: usize) -> Stage
    ensures { result ≡ stage_behind rest }
{
    if rest == 0 {
        Stage::Ended
    } else {
        Stage::Broken
    }
}

/// What is left to do where the input has so many bytes behind the last sector of the device.
fn stage_past(rest: usize) -> Stage
    ensures { result ≡ stage_past rest }
{
    if rest == 0 {
        Stage::Ended
    } else {
        Stage::Beyond
    }
}

/// A host that writes to sectors of one device in their order.
#[derive(Drop)]
pub(crate) struct Putting<'a> {
    alloc: Global,
    host: Initiator,
    plan: Plan,

    /// Whether the device is flushed at the end.
    flush: bool,

    feed: Feed<'a>,

    /// The ticket that the host gave last before.
    before: u64,

    /// The ticket that it gave last.
    asked: u64,

    /// How many sectors were submitted.
    reached: u64,

    stage: Stage,

    flying: Flying,
}

impl<'a> Putting<'a> {
    /// A copy of an input with this front by a host that is attached to the one device, and gave so
    /// many tickets before.
    pub(crate) fn new(
        alloc: Global,
        host: Initiator,
        before: u64,
        plan: Plan,
        flush: bool,
        front: &'a [u8],
    ) -> Putting<'a>
        requires attached { length host.devices ≡ 1 }
        requires given { before ≡ host.last_ticket }
        requires few { before ≤ 2 ^ 62 }
        requires small { plan.at + plan.count ≤ 2 ^ 48 }
        requires some { 0 < plan.max }
        requires max { plan.max ≤ 17 }
        ensures fit { IsFit result }
        ensures host { result.host ≡ host }
        ensures begins { (log : List Event) (turns : ℕ) → IsStart (record { host = host; log = log })
            → Begins (record { start = record { host = host; log = log }; plan = plan; flush = flush; turns = turns; front = front.now }) result }
    {
        Putting {
            alloc,
            host,
            plan,
            flush,
            feed: Feed::new(front),
            before,
            asked: before,
            reached: 0,
            stage: Stage::Reading,
            flying: Flying::new(),
        }
    }

    /// The host, and how many tickets it gave.
    pub(crate) fn into_host(self) -> (Initiator, u64)
        requires { IsFit self }
        ensures host { result.0 ≡ self.entry.host }
        ensures asked { result.1 ≡ self.entry.host.last_ticket }
        ensures attached { length self.entry.host.devices ≡ 1 }
    {
        let Putting { host, asked, .. } = self;
        (host, asked)
    }

    /// Takes the outcomes that wait, up to the first that ends the copy.
    fn take_all(&mut self, turns: u32) -> Result<(), ToolRefusal>
        requires { IsFit self.old }
        ensures fit { IsFit self.new }
        ensures takes { (outs : List Done) → InOrder self.old.host.waiting outs
            → Takes result turns outs self.new.host.waiting }
        ensures none { OnOk result (self.new.host.waiting ≡ []) }
        ensures link { result ≢ Err ToolRefusal.LinkFault }
        ensures host { self.new.host ≡ record self.old.host { waiting = self.new.host.waiting } }
        ensures same { self.new ≡ record self.old { host = self.new.host; flying = self.new.flying } }
        ensures matches { (log : List Event) → Matches log self.old.host
            → Matches log self.new.host }
    {
        'outcomes: while let Some(done) = self.host.take_done() {
            if let Some(refusal) = failure(&done.outcome, turns) {
                return Err(refusal);
            }
            self.flying.remove(done.ticket);
        }
        Ok(())
    }

    /// Whether all is written and flushed; or why it isn't and won't be.
    fn end(&self) -> Result<bool, CopyRefusal>
        requires { IsFit self.now }
        ensures end { result ≡ end_of self.now }
        ensures link { result ≢ Err (CopyRefusal.Tool ToolRefusal.LinkFault) }
        ensures source { result ≢ Err CopyRefusal.SourceFault }
    {
        if self.host.unfinished() > 0 {
            return Ok(false);
        }
        match self.stage {
            Stage::Reading => Ok(false),
            Stage::Ended => Ok(!self.flush),
            Stage::Broken => Err(CopyRefusal::Stream {
                offset: SECTOR_LEN as u64 * self.reached,
            }),
            Stage::Beyond => Err(CopyRefusal::Tool(ToolRefusal::Refused(Refusal::Range))),
            Stage::Flushing => Ok(true),
        }
    }

    /// Whether more of the input may be read.
    fn may_read(&self) -> bool
        ensures { result ≡ may_read self.now }
    {
        match self.stage {
            Stage::Reading => self.host.unfinished() < MAX_OPEN,
            Stage::Ended | Stage::Broken | Stage::Beyond | Stage::Flushing => false,
        }
    }

    /// Whether the flush may be submitted.
    fn may_flush(&self) -> bool
        ensures { result ≡ may_flush self.now }
    {
        match self.stage {
            Stage::Ended => self.flush && self.host.unfinished() == 0,
            Stage::Reading | Stage::Broken | Stage::Beyond | Stage::Flushing => false,
        }
    }

    /// How many sectors the next command may have.
    fn room(&self) -> u32
        requires { IsFit self.now }
        ensures value { result ≡ room_of self.now }
        ensures few { result ≤ 17 }
    {
        let left = self.plan.count - self.reached;
        u64::from(self.plan.max).min(left) as u32
    }

    /// Submits the next write.
    fn submit_write(&mut self, bytes: Blob) -> Result<(), CopyRefusal>
        requires fit { IsFit self.old }
        requires whole { length bytes % 512 ≡ 0 }
        requires some { 0 < length bytes }
        requires most { length bytes ≤ 512 * room_of self.old }
        requires reading { self.old.stage ≡ Stage.Reading }
        ensures fit { OnOk result (IsFit self.new) }
        ensures writes { OnOk result (WritesOne bytes self.old self.new) }
        ensures memory { IfErr result (λ e. e ≡ CopyRefusal.Tool ToolRefusal.NoMemory) }
    {
        let at = self.plan.at + self.reached;
        let count = bytes.bytes().len() / SECTOR_LEN;
        match self.host.submit(DEVICE, Op::Write { at, bytes }) {
            Ok(ticket) => self.flying.add(ticket),
            Err(_) => return Err(CopyRefusal::Tool(ToolRefusal::NoMemory)),
        }
        self.asked += 1;
        self.reached += count as u64;
        Ok(())
    }

    /// Submits the last write, where there are sectors for one.
    fn submit_last(&mut self, bytes: Blob) -> Result<(), CopyRefusal>
        requires fit { IsFit self.old }
        requires whole { length bytes % 512 ≡ 0 }
        requires most { length bytes ≤ 512 * room_of self.old }
        requires reading { self.old.stage ≡ Stage.Reading }
        ensures fit { OnOk result (IsFit self.new) }
        ensures writes { OnOk result (WritesSome bytes self.old self.new) }
        ensures memory { IfErr result (λ e. e ≡ CopyRefusal.Tool ToolRefusal.NoMemory) }
    {
        if bytes.bytes().is_empty() {
            return Ok(());
        }
        self.submit_write(bytes)
    }

    /// Notes that the input has ended, with so many bytes behind its whole sectors, the last of which
    /// are submitted.
    fn write_last(&mut self, sectors: Blob, rest: usize) -> Result<(), CopyRefusal>
        requires fit { IsFit self.old }
        requires whole { length sectors % 512 ≡ 0 }
        requires most { length sectors ≤ 512 * room_of self.old }
        requires reading { self.old.stage ≡ Stage.Reading }
        ensures fit { OnOk result (IsFit self.new) }
        ensures writes { OnOk result
            (WritesSome sectors self.old (record self.new { stage = self.old.stage })) }
        ensures stage { OnOk result (self.new.stage ≡ stage_behind rest) }
        ensures memory { IfErr result (λ e. e ≡ CopyRefusal.Tool ToolRefusal.NoMemory) }
    {
        match self.submit_last(sectors) {
            Ok(()) => {}
            Err(refusal) => return Err(refusal),
        }
        self.stage = stage_behind(rest);
        Ok(())
    }

    /// Reads the bytes of the next command, and submits its write, where they are at least a sector.
    fn write_next<S: Source>(&mut self, source: &mut S, room: u32) -> Result<(), CopyRefusal>
        requires fit { IsFit self.old }
        requires may { may_read self.old ≡ true }
        requires room { room ≡ room_of self.old }
        requires some { 0 < room }
        ensures fit { OnOk result (IsFit self.new) }
        ensures waiting { OnOk result (self.new.host.waiting ≡ self.old.host.waiting) }
        ensures less { OnOk result (reads_left self.new < reads_left self.old) }
        ensures reads { (c : Setting) (seen : Seen) (steps : List PutStep)
            → Stands c (record { link = seen; left = S.left source.old }) (ahead self.old.feed) steps
            → Keeps c steps self.old → GoesOn steps → has_ticked steps ≡ true
            → ReadsOn result c (record { link = seen; left = S.left source.new }) steps self.new }
        ensures link { result ≢ Err (CopyRefusal.Tool ToolRefusal.LinkFault) }
        ensures count { S.faults source.old ≤ S.faults source.new }
        ensures source { Blamed (result ≡ Err CopyRefusal.SourceFault) (S.faults source.old)
            (S.faults source.new) }
    {
        let want = SECTOR_LEN * room as usize;
        match self.feed.piece(self.alloc, source, want) {
            Ok((sectors, rest)) if sectors.bytes().len() < want => self.write_last(sectors, rest),
            Ok((sectors, _)) => self.submit_write(sectors),
            Err(refusal) => Err(refusal),
        }
    }

    /// Reads on behind the last sector of the device, where the input should end.
    fn look_behind<S: Source>(&mut self, source: &mut S) -> Result<(), CopyRefusal>
        requires fit { IsFit self.old }
        requires may { may_read self.old ≡ true }
        requires none { room_of self.old ≡ 0 }
        ensures fit { OnOk result (IsFit self.new) }
        ensures waiting { OnOk result (self.new.host.waiting ≡ self.old.host.waiting) }
        ensures less { OnOk result (reads_left self.new < reads_left self.old) }
        ensures reads { (c : Setting) (seen : Seen) (steps : List PutStep)
            → Stands c (record { link = seen; left = S.left source.old }) (ahead self.old.feed) steps
            → Keeps c steps self.old → GoesOn steps → has_ticked steps ≡ true
            → ReadsOn result c (record { link = seen; left = S.left source.new }) steps self.new }
        ensures link { result ≢ Err (CopyRefusal.Tool ToolRefusal.LinkFault) }
        ensures count { S.faults source.old ≤ S.faults source.new }
        ensures source { Blamed (result ≡ Err CopyRefusal.SourceFault) (S.faults source.old)
            (S.faults source.new) }
    {
        match self.feed.piece(self.alloc, source, SECTOR_LEN) {
            Ok((sectors, rest)) => {
                self.stage = stage_past(sectors.bytes().len() + rest);
                Ok(())
            }
            Err(refusal) => Err(refusal),
        }
    }

    /// Reads the input on.
    fn read_next<S: Source>(&mut self, source: &mut S) -> Result<(), CopyRefusal>
        requires fit { IsFit self.old }
        requires may { may_read self.old ≡ true }
        ensures fit { OnOk result (IsFit self.new) }
        ensures waiting { OnOk result (self.new.host.waiting ≡ self.old.host.waiting) }
        ensures less { OnOk result (reads_left self.new < reads_left self.old) }
        ensures reads { (c : Setting) (seen : Seen) (steps : List PutStep)
            → Stands c (record { link = seen; left = S.left source.old }) (ahead self.old.feed) steps
            → Keeps c steps self.old → GoesOn steps → has_ticked steps ≡ true
            → ReadsOn result c (record { link = seen; left = S.left source.new }) steps self.new }
        ensures link { result ≢ Err (CopyRefusal.Tool ToolRefusal.LinkFault) }
        ensures count { S.faults source.old ≤ S.faults source.new }
        ensures source { Blamed (result ≡ Err CopyRefusal.SourceFault) (S.faults source.old)
            (S.faults source.new) }
    {
        match self.room() {
            0 => self.look_behind(source),
            room => self.write_next(source, room),
        }
    }

    /// Submits the flush.
    fn flush(&mut self) -> Result<(), NoMemory>
        requires fit { IsFit self.old }
        requires may { may_flush self.old ≡ true }
        ensures fit { OnOk result (IsFit self.new) }
        ensures flushes { OnOk result (FlushesOne self.old self.new) }
    {
        match self.host.submit(DEVICE, Op::Flush) {
            Ok(ticket) => self.flying.add(ticket),
            Err(_) => return Err(NoMemory),
        }
        self.asked += 1;
        self.stage = Stage::Flushing;
        Ok(())
    }

    /// Reads the input and submits its writes, as long as it goes on and fewer than a window are under
    /// way.
    fn read_all<S: Source>(&mut self, source: &mut S) -> Result<(), CopyRefusal>
        requires fit { IsFit self.old }
        ensures fit { OnOk result (IsFit self.new) }
        ensures waiting { OnOk result (self.new.host.waiting ≡ self.old.host.waiting) }
        ensures done { OnOk result (may_read self.new ≢ true) }
        ensures reads { (c : Setting) (seen : Seen) (steps : List PutStep)
            → Stands c (record { link = seen; left = S.left source.old }) (ahead self.old.feed) steps
            → Keeps c steps self.old → GoesOn steps → has_ticked steps ≡ true
            → ReadsOn result c (record { link = seen; left = S.left source.new }) steps self.new }
        ensures link { result ≢ Err (CopyRefusal.Tool ToolRefusal.LinkFault) }
        ensures count { S.faults source.old ≤ S.faults source.new }
        ensures source { Blamed (result ≡ Err CopyRefusal.SourceFault) (S.faults source.old)
            (S.faults source.new) }
    {
        'parts: while self.may_read() {
            match self.read_next(source) {
                Ok(()) => {}
                Err(refusal) => return Err(refusal),
            }
        }
        Ok(())
    }

    /// Submits commands, as many as may be: writes of what the source gives, and the flush after
    /// them.
    fn ask_all<S: Source>(&mut self, source: &mut S) -> Result<(), CopyRefusal>
        requires fit { IsFit self.old }
        ensures fit { OnOk result (IsFit self.new) }
        ensures waiting { OnOk result (self.new.host.waiting ≡ self.old.host.waiting) }
        ensures read { OnOk result (may_read self.new ≢ true) }
        ensures flushed { OnOk result (may_flush self.new ≡ false) }
        ensures asks { (c : Setting) (seen : Seen) (steps : List PutStep)
            → Stands c (record { link = seen; left = S.left source.old }) (ahead self.old.feed) steps
            → Keeps c steps self.old → GoesOn steps → has_ticked steps ≡ true
            → ReadsOn result c (record { link = seen; left = S.left source.new }) steps self.new }
        ensures link { result ≢ Err (CopyRefusal.Tool ToolRefusal.LinkFault) }
        ensures count { S.faults source.old ≤ S.faults source.new }
        ensures source { Blamed (result ≡ Err CopyRefusal.SourceFault) (S.faults source.old)
            (S.faults source.new) }
    {
        match self.read_all(source) {
            Ok(()) => {}
            Err(refusal) => return Err(refusal),
        }
        if !self.may_flush() {
            return Ok(());
        }
        match self.flush() {
            Ok(()) => Ok(()),
            Err(NoMemory) => Err(CopyRefusal::Tool(ToolRefusal::NoMemory)),
        }
    }

    /// The last part of a turn: frames go out, and one may come.
    fn exchange<L: Link>(&mut self, link: &mut L, frame: &mut Frame) -> Result<Passed, CopyRefusal>
        requires fit { IsFit self.old }
        requires waiting { self.old.host.waiting ≡ [] }
        requires read { may_read self.old ≢ true }
        requires flushed { may_flush self.old ≡ false }
        requires more { end_of self.old ≡ Ok false }
        ensures fit { OnOk result (IsFit self.new) }
        ensures source { result ≢ Err CopyRefusal.SourceFault }
        ensures exchanges { (c : Setting) (answers left : Option (List ℕ)) (steps : List PutStep)
            → Stands c (record { link = record { turns = L.turns link.old; given = L.given link.old; taken = L.taken link.old; answers = answers }; left = left }) (ahead self.old.feed) steps
            → Keeps c steps self.old → GoesOn steps → has_ticked steps ≡ true
            → Turns result c (record { link = record { turns = L.turns link.new; given = L.given link.new; taken = L.taken link.new; answers = answers }; left = left }) steps self.new }
        ensures count { L.faults link.old ≤ L.faults link.new }
        ensures link { Blamed (result ≡ Err (CopyRefusal.Tool ToolRefusal.LinkFault))
            (L.faults link.old) (L.faults link.new) }
    {
        match exchange(&mut self.host, link, frame, MAX_OPEN) {
            Ok(true) => Ok(Passed::Answered),
            Ok(false) => Ok(Passed::Quiet),
            Err(Failed) => Err(CopyRefusal::Tool(ToolRefusal::LinkFault)),
        }
    }

    /// The first part of a turn, which begins at a time: outcomes are taken.
    fn collect(&mut self, now: u64, turns: u32) -> Result<(), CopyRefusal>
        requires fit { IsFit self.old }
        ensures fit { OnOk result (IsFit self.new) }
        ensures waiting { OnOk result (self.new.host.waiting ≡ []) }
        ensures link { result ≢ Err (CopyRefusal.Tool ToolRefusal.LinkFault) }
        ensures source { result ≢ Err CopyRefusal.SourceFault }
        ensures collects { (c : Setting) (seen : Seen) (left later : Option (List ℕ))
            (steps : List PutStep) → IfSome later (λ _. Added seen.answers later (now ∷ []))
            → Stands c (record { link = seen; left = left }) (ahead self.old.feed) steps
            → Keeps c steps self.old → InOrder self.old.host.waiting (outcomes steps)
            → MayBegin c turns steps
            → Collects result c (record { link = record seen { answers = later }; left = left }) steps self.new }
    {
        self.host.advance(Millis(now));
        match self.take_all(turns) {
            Ok(()) => Ok(()),
            Err(refusal) => Err(CopyRefusal::Tool(refusal)),
        }
    }

    /// The rest of a turn: commands are submitted, and unless all is done frames go out, and one may
    /// come.
    fn go_on<S: Source, L: Link>(
        &mut self,
        source: &mut S,
        link: &mut L,
        frame: &mut Frame,
    ) -> Result<Passed, CopyRefusal>
        requires fit { IsFit self.old }
        requires waiting { self.old.host.waiting ≡ [] }
        ensures fit { OnOk result (IsFit self.new) }
        ensures goes { (c : Setting) (answers : Option (List ℕ)) (steps : List PutStep)
            → Stands c (record { link = record { turns = L.turns link.old; given = L.given link.old; taken = L.taken link.old; answers = answers }; left = S.left source.old }) (ahead self.old.feed) steps
            → Keeps c steps self.old → GoesOn steps → has_ticked steps ≡ true
            → Turns result c (record { link = record { turns = L.turns link.new; given = L.given link.new; taken = L.taken link.new; answers = answers }; left = S.left source.new }) steps self.new }
        ensures count { L.faults link.old ≤ L.faults link.new }
        ensures link { Blamed (result ≡ Err (CopyRefusal.Tool ToolRefusal.LinkFault))
            (L.faults link.old) (L.faults link.new) }
        ensures source_count { S.faults source.old ≤ S.faults source.new }
        ensures source { Blamed (result ≡ Err CopyRefusal.SourceFault) (S.faults source.old)
            (S.faults source.new) }
    {
        match self.ask_all(source) {
            Ok(()) => {}
            Err(refusal) => return Err(refusal),
        }
        match self.end() {
            Ok(true) => Ok(Passed::Over),
            Ok(false) => self.exchange(link, frame),
            Err(refusal) => Err(refusal),
        }
    }

    /// How many sectors are acknowledged, from the first one on. A command that was refused counts as
    /// under way.
    fn acknowledged(&self) -> u64 {
        match self.flying.first() {
            Some(ticket) => {
                let done = ticket.saturating_sub(self.before).saturating_sub(1);
                done.saturating_mul(u64::from(self.plan.max))
                    .min(self.reached)
            }
            None => self.reached,
        }
    }

    /// A turn that begins at a time.
    fn turn<S: Source, L: Link, W: Watch>(
        &mut self,
        now: u64,
        turns: u32,
        source: &mut S,
        link: &mut L,
        frame: &mut Frame,
        watch: &mut W,
    ) -> Result<Passed, CopyRefusal>
        requires fit { IsFit self.old }
        ensures fit { OnOk result (IsFit self.new) }
        ensures turn { (c : Setting) (answers later : Option (List ℕ))
            (steps : List PutStep) → IfSome later (λ _. Added answers later (now ∷ []))
            → Stands c (record { link = record { turns = L.turns link.old; given = L.given link.old; taken = L.taken link.old; answers = answers }; left = S.left source.old }) (ahead self.old.feed) steps
            → Keeps c steps self.old → InOrder self.old.host.waiting (outcomes steps)
            → MayBegin c turns steps
            → Turns result c (record { link = record { turns = L.turns link.new; given = L.given link.new; taken = L.taken link.new; answers = later }; left = S.left source.new }) steps self.new }
        ensures count { L.faults link.old ≤ L.faults link.new }
        ensures link { Blamed (result ≡ Err (CopyRefusal.Tool ToolRefusal.LinkFault))
            (L.faults link.old) (L.faults link.new) }
        ensures source_count { S.faults source.old ≤ S.faults source.new }
        ensures source { Blamed (result ≡ Err CopyRefusal.SourceFault) (S.faults source.old)
            (S.faults source.new) }
    {
        let before = self.acknowledged();
        let collected = self.collect(now, turns);
        let reached = self.acknowledged();
        if reached != before {
            watch.reached(reached);
        }
        match collected {
            Ok(()) => self.go_on(source, link, frame),
            Err(refusal) => Err(refusal),
        }
    }

    /// Takes turns until all is written and flushed, or `turns` consecutive ones ended no command.
    pub(crate) fn run<S: Source, L: Link, C: Clock, W: Watch>(
        &mut self,
        turns: u32,
        source: &mut S,
        link: &mut L,
        clock: &mut C,
        watch: &mut W,
    ) -> Result<(), CopyRefusal>
        requires fit { IsFit self.old }
        requires begins { (c : PutSetting) × Begins c self.old × (c.turns ≡ turns) }
        requires waiting { self.old.host.waiting ≡ [] }
        ensures fit { OnOk result (IsFit self.new) }
        ensures run { (c : PutSetting) → Begins c self.old → c.turns ≡ turns → Runs result c
            (record { link = record { turns = L.turns link.old; given = L.given link.old; taken = L.taken link.old; answers = C.answers clock.old }; left = S.left source.old })
            (record { link = record { turns = L.turns link.new; given = L.given link.new; taken = L.taken link.new; answers = C.answers clock.new }; left = S.left source.new }) }
        ensures ran { OnOk result ((c : PutSetting) → Begins c self.old → c.turns ≡ turns → (r : Runs (Ok record {}) c
            (record { link = record { turns = L.turns link.old; given = L.given link.old; taken = L.taken link.old; answers = C.answers clock.old }; left = S.left source.old })
            (record { link = record { turns = L.turns link.new; given = L.given link.new; taken = L.taken link.new; answers = C.answers clock.new }; left = S.left source.new }))
            × Drives c.start r.steps self.new.host × (self.new.host.waiting ≡ [])) }
        ensures sink { result ≢ Err CopyRefusal.SinkFault }
        ensures count { L.faults link.old ≤ L.faults link.new }
        ensures link { Blamed (result ≡ Err (CopyRefusal.Tool ToolRefusal.LinkFault))
            (L.faults link.old) (L.faults link.new) }
        ensures source_count { S.faults source.old ≤ S.faults source.new }
        ensures source { Blamed (result ≡ Err CopyRefusal.SourceFault) (S.faults source.old)
            (S.faults source.new) }
    {
        let mut frame = Frame::new();
        let mut quiet = 0;
        'turns: while quiet < turns {
            match self.turn(clock.now(), turns, source, link, &mut frame, watch) {
                Ok(Passed::Over) => return Ok(()),
                Ok(Passed::Answered) => quiet = 0,
                Ok(Passed::Quiet) => quiet += 1,
                Err(refusal) => return Err(refusal),
            }
        }
        Err(CopyRefusal::Tool(ToolRefusal::Unanswered { turns }))
    }
}
