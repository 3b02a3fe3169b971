//! The tools: what each says over a link and a clock, and what becomes of it.
ghost use Rattle.std.specs.Prelude.{◌≡◌, ◌≢◌, ◌≤◌, ℕ, Err, true, length, option_copied};
ghost use Rattle.aoe_tools.specs.One.{edits_by};
ghost use Rattle.aoe_tools.specs.Runs.{told};
ghost use Rattle.aoe_args.specs.Tools.{CanGet, CanPut};
ghost use Rattle.aoe_base.specs.Faults.{Blamed};
ghost use Rattle.aoe_lists.specs.Settings.{max_directives};
ghost use Rattle.aoe_base.specs.Sizes.{longest_lifetime};
ghost use Rattle.aoe.specs.Tools.{CanAsk, CopiesIn, CopiesOut, RunsTool, Says, SaysConfig, SaysFlush, SaysFound, SaysMasks, SaysReserves, SaysStat, ask_of, copy_status, dirs_of, is_copy_status, is_tool_status, lifetimes, said, terms_of, tool_status};

use crate::status::Status;
use aoe_args::{Asking, Cfg, Discover, Flush, Get, Mask, Put, Reserve, Stat, Tool};
use aoe_base::{Blob, Failed, Lifetimes, Millis, NoMemory};
use aoe_copy::{CopyRefusal, Terms, Watch, flush, get, put};
use aoe_io::{Clock, Link, Sink, Source, give_all};
use aoe_lists::Dir;
use aoe_tools::{
    Ask, ToolRefusal, cfg, discover, mask, print_config, print_found, print_masks, print_reserves,
    print_stat, reserve, stat,
};
use std::alloc::Global;

/// The most sectors of a command of a copy: as many as a frame of 9018 bytes has room for.
pub(crate) const MOST_SECTORS: u32 = 17;

/// Who asks, and how long it listens.
pub(crate) fn ask_of(asking: Asking) -> Ask
    ensures { result ≡ ask_of asking }
{
    Ask {
        port: asking.port,
        turns: asking.turns,
    }
}

/// How long a frame can be on its way, whatever it is.
pub(crate) fn lifetimes(lifetime: u32) -> Lifetimes
    ensures { result ≡ lifetimes lifetime }
{
    let lifetime = Millis(u64::from(lifetime));
    Lifetimes {
        requests: lifetime,
        responses: lifetime,
    }
}

/// Who copies, how long it waits, and how long a frame can be on its way.
fn terms_of(asking: Asking, lifetime: u32) -> Terms
    ensures { result ≡ terms_of asking lifetime }
{
    Terms {
        ask: ask_of(asking),
        life: lifetimes(lifetime),
        most: MOST_SECTORS,
    }
}

/// A text, or that there is no memory for it.
fn said(text: Result<Blob, NoMemory>) -> Result<Blob, ToolRefusal>
    ensures { result ≡ said text }
{
    match text {
        Ok(text) => Ok(text),
        Err(NoMemory) => Err(ToolRefusal::NoMemory),
    }
}

/// The directives of an edit.
fn dirs_of(asked: &Mask) -> Option<&[Dir]>
    ensures dirs { option_copied result ≡ dirs_of asked.now }
    ensures few { length (edits_by (option_copied result)).1 ≤ max_directives }
{
    match &asked.dirs {
        Some(dirs) => Some(dirs.as_slice()),
        None => None,
    }
}

/// What `discover` says.
fn say_found<L: Link, C: Clock>(
    alloc: Global,
    asked: &Discover,
    link: &mut L,
    clock: &mut C,
) -> Result<Blob, ToolRefusal>
    ensures run { SaysFound asked.now result
        (told C.least C.answers L.turns L.given L.taken clock.old clock.new link.old link.new) }
    ensures link { Blamed (result ≡ Err ToolRefusal.LinkFault) (L.faults link.old)
        (L.faults link.new) }
{
    let given = discover(alloc, &ask_of(asked.asking), link, clock)?;
    said(print_found(alloc, &given, asked.long))
}

/// What `stat` says.
fn say_stat<L: Link, C: Clock>(
    alloc: Global,
    asked: &Stat,
    link: &mut L,
    clock: &mut C,
) -> Result<Blob, ToolRefusal>
    ensures run { SaysStat asked.now result
        (told C.least C.answers L.turns L.given L.taken clock.old clock.new link.old link.new) }
    ensures link { Blamed (result ≡ Err ToolRefusal.LinkFault) (L.faults link.old)
        (L.faults link.new) }
{
    let given = stat(alloc, &ask_of(asked.asking), link, clock)?;
    said(print_stat(alloc, &given, asked.sectors))
}

/// What `cfg` says.
fn say_config<L: Link, C: Clock>(
    alloc: Global,
    asked: &Cfg,
    link: &mut L,
    clock: &mut C,
) -> Result<Blob, ToolRefusal>
    requires { asked.now.ccmd ≤ 4 }
    ensures run { SaysConfig asked.now result
        (told C.least C.answers L.turns L.given L.taken clock.old clock.new link.old link.new) }
    ensures link { Blamed (result ≡ Err ToolRefusal.LinkFault) (L.faults link.old)
        (L.faults link.new) }
{
    let given = cfg(
        &ask_of(asked.asking),
        asked.id,
        asked.ccmd,
        asked.text.as_slice(),
        link,
        clock,
    )?;
    said(print_config(alloc, &given))
}

/// What `mask` says.
fn say_masks<L: Link, C: Clock>(
    alloc: Global,
    asked: &Mask,
    link: &mut L,
    clock: &mut C,
) -> Result<Blob, ToolRefusal>
    ensures run { SaysMasks asked.now result
        (told C.least C.answers L.turns L.given L.taken clock.old clock.new link.old link.new) }
    ensures link { Blamed (result ≡ Err ToolRefusal.LinkFault) (L.faults link.old)
        (L.faults link.new) }
{
    let given = mask(
        &ask_of(asked.asking),
        asked.id,
        dirs_of(asked),
        asked.anyway,
        link,
        clock,
    )?;
    said(print_masks(alloc, &given))
}

/// What `reserve` says.
fn say_reserves<L: Link, C: Clock>(
    alloc: Global,
    asked: &Reserve,
    link: &mut L,
    clock: &mut C,
) -> Result<Blob, ToolRefusal>
    requires { asked.now.rcmd ≤ 2 }
    ensures run { SaysReserves asked.now result
        (told C.least C.answers L.turns L.given L.taken clock.old clock.new link.old link.new) }
    ensures link { Blamed (result ≡ Err ToolRefusal.LinkFault) (L.faults link.old)
        (L.faults link.new) }
{
    let given = reserve(
        &ask_of(asked.asking),
        asked.id,
        asked.rcmd,
        asked.list.as_slice(),
        link,
        clock,
    )?;
    said(print_reserves(alloc, &given))
}

/// What `flush` says, which is nothing.
fn say_flush<L: Link, C: Clock>(
    alloc: Global,
    asked: &Flush,
    link: &mut L,
    clock: &mut C,
) -> Result<Blob, ToolRefusal>
    requires { asked.now.lifetime ≤ longest_lifetime }
    ensures run { SaysFlush asked.now result
        (told C.least C.answers L.turns L.given L.taken clock.old clock.new link.old link.new) }
    ensures link { Blamed (result ≡ Err ToolRefusal.LinkFault) (L.faults link.old)
        (L.faults link.new) }
{
    let terms = terms_of(asked.asking, asked.lifetime);
    flush(alloc, &terms, asked.id, link, clock)?;
    Ok(Blob::from_vec(Vec::new(alloc)))
}

/// What a tool says.
fn say<L: Link, C: Clock>(
    alloc: Global,
    tool: &Tool,
    link: &mut L,
    clock: &mut C,
) -> Result<Blob, ToolRefusal>
    requires { CanAsk tool.now }
    ensures run { Says tool.now result
        (told C.least C.answers L.turns L.given L.taken clock.old clock.new link.old link.new) }
    ensures link { Blamed (result ≡ Err ToolRefusal.LinkFault) (L.faults link.old)
        (L.faults link.new) }
{
    match tool {
        Tool::Discover(asked) => say_found(alloc, asked, link, clock),
        Tool::Stat(asked) => say_stat(alloc, asked, link, clock),
        Tool::Cfg(asked) => say_config(alloc, asked, link, clock),
        Tool::Mask(asked) => say_masks(alloc, asked, link, clock),
        Tool::Reserve(asked) => say_reserves(alloc, asked, link, clock),
        Tool::Flush(asked) => say_flush(alloc, asked, link, clock),
    }
}

/// The status of a tool that ended without its answer.
pub(crate) fn tool_status(refusal: ToolRefusal) -> Status
    ensures { result ≡ tool_status refusal }
{
    match refusal {
        ToolRefusal::LinkFault => Status::LinkFault { link: 0 },
        ToolRefusal::NoMemory => Status::NoMemory,
        ToolRefusal::Unanswered { turns } => Status::Unanswered { turns },
        ToolRefusal::Refused(refusal) => Status::Refused(refusal),
    }
}

/// Runs a tool over a link, and writes what it says.
pub(crate) fn run_tool<K: Sink, L: Link, C: Clock>(
    alloc: Global,
    tool: &Tool,
    sink: &mut K,
    link: &mut L,
    clock: &mut C,
) -> Status
    requires { CanAsk tool.now }
    ensures run { RunsTool tool.now result (K.held sink.old) (K.held sink.new)
        (told C.least C.answers L.turns L.given L.taken clock.old clock.new link.old link.new) }
    ensures leaves { result ≢ Status.Ok → result ≢ Status.SinkFault → sink.new ≡ sink.old }
    ensures status { is_tool_status result ≡ true }
    ensures sink { Blamed (result ≡ Status.SinkFault) (K.faults sink.old) (K.faults sink.new) }
    ensures link { Blamed (result ≡ Status.LinkFault 0) (L.faults link.old) (L.faults link.new) }
    ensures alone { (port : ℕ) → result ≡ Status.LinkFault port → port ≡ 0 }
{
    let text = match say(alloc, tool, link, clock) {
        Ok(text) => text,
        Err(refusal) => return tool_status(refusal),
    };
    match give_all(sink, text.bytes()) {
        Ok(()) => Status::Ok,
        Err(Failed) => Status::SinkFault,
    }
}

/// The status of a tool that ended without having copied sectors.
fn copy_status(refusal: CopyRefusal) -> Status
    ensures { result ≡ copy_status refusal }
{
    match refusal {
        CopyRefusal::Tool(refusal) => tool_status(refusal),
        CopyRefusal::Stream { offset } => Status::Stream { offset },
        CopyRefusal::SourceFault => Status::SourceFault,
        CopyRefusal::SinkFault => Status::SinkFault,
    }
}

/// Copies sectors of a device to the sink, each as soon as all before it came.
pub(crate) fn run_get<K: Sink, L: Link, C: Clock, W: Watch>(
    alloc: Global,
    asked: &Get,
    sink: &mut K,
    link: &mut L,
    clock: &mut C,
    watch: &mut W,
) -> Status
    requires { CanGet asked.now }
    ensures run { CopiesOut asked.now result (K.held sink.old) (K.held sink.new)
        (told C.least C.answers L.turns L.given L.taken clock.old clock.new link.old link.new) }
    ensures status { is_copy_status result ≡ true }
    ensures unread { result ≢ Status.SourceFault }
    ensures sink { Blamed (result ≡ Status.SinkFault) (K.faults sink.old) (K.faults sink.new) }
    ensures link { Blamed (result ≡ Status.LinkFault 0) (L.faults link.old) (L.faults link.new) }
    ensures alone { (port : ℕ) → result ≡ Status.LinkFault port → port ≡ 0 }
{
    let terms = terms_of(asked.asking, asked.lifetime);
    match get(
        alloc,
        &terms,
        asked.id,
        asked.at,
        asked.count,
        sink,
        link,
        clock,
        watch,
    ) {
        Ok(()) => Status::Ok,
        Err(refusal) => copy_status(refusal),
    }
}

/// Copies what the source gives to sectors of a device.
pub(crate) fn run_put<S: Source, L: Link, C: Clock, W: Watch>(
    alloc: Global,
    asked: &Put,
    source: &mut S,
    link: &mut L,
    clock: &mut C,
    watch: &mut W,
) -> Status
    requires { CanPut asked.now }
    ensures run { CopiesIn asked.now result (S.left source.old) (S.left source.new)
        (told C.least C.answers L.turns L.given L.taken clock.old clock.new link.old link.new) }
    ensures status { is_copy_status result ≡ true }
    ensures unwritten { result ≢ Status.SinkFault }
    ensures source { Blamed (result ≡ Status.SourceFault) (S.faults source.old)
        (S.faults source.new) }
    ensures link { Blamed (result ≡ Status.LinkFault 0) (L.faults link.old) (L.faults link.new) }
    ensures alone { (port : ℕ) → result ≡ Status.LinkFault port → port ≡ 0 }
{
    let terms = terms_of(asked.asking, asked.lifetime);
    match put(
        alloc,
        &terms,
        asked.id,
        asked.at,
        !asked.no_flush,
        asked.verify,
        source,
        link,
        clock,
        watch,
    ) {
        Ok(()) => Status::Ok,
        Err(refusal) => copy_status(refusal),
    }
}
