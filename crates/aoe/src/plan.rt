//! What each command exports, and the status of a run that ended.
ghost use Rattle.std.specs.Prelude.{◌≡◌, ◌≤◌, ◌*◌, [], ◌∷◌, IfSome};
ghost use Rattle.aoe_args.specs.Words.{CanAnswer, CanMirror, CanServe, link_count};
ghost use Rattle.aoe_args.specs.declared.command.Command.TheVariants.{Mirror as Asked};
ghost use Rattle.aoe_serve.specs.Exporting.{CanExport};
ghost use Rattle.aoe.specs.Commands.{answer_plan, format_of, limit, mirror_options, mirror_plan, serve_plan};
ghost use Rattle.aoe.specs.Ending.{after_sync, after_syncs, ended_by, excess_of, kept_out, left_stale, mirrored_as, net_excess, refused_as, replayed_as, stale_or_ok, status_of, stopped_by};

use crate::status::{Status, What};
use aoe_args::{Answer, Mirror, Serve};
use aoe_base::{Mac, Ports, TargetId, copy_of};
use aoe_keep::MountRefusal;
use aoe_mirror::MirrorRefusal;
use aoe_net::NetLimit;
use aoe_serve::{
    AnswerEnd, ExportOptions, Exported, Format, MirrorEnd, MirrorStop, Plan, RunEnd, ServeEnd,
};
use aoe_world::{ReplayEnd, ReplayLimit};

/// The number of the disk that says which side of a mirror leads, behind the two sides.
const MARK: u32 = 2;

/// The number of a mirror's keep.
const KEEP: u32 = 3;

/// A list of one port.
fn one_port(port: Mac) -> Ports
    ensures { result.items ≡ port ∷ [] }
{
    let mut ports = Ports::new();
    ports.push(port);
    ports
}

/// What a run writes: `capture`, or else `answer`.
fn format_of(captures: bool) -> Format
    ensures { result ≡ format_of captures }
{
    if captures {
        Format::Capture
    } else {
        Format::Replies
    }
}

/// The slot of `answer` or `capture`, and what is done with it.
pub(crate) fn answer_plan(answer: Answer) -> (ExportOptions, Plan)
    requires { CanAnswer answer }
    ensures plan { result ≡ answer_plan answer }
    ensures possible { CanExport result.0 result.1 2 0 }
{
    let options = ExportOptions {
        first: answer.id,
        ports: one_port(answer.port),
        mtu: answer.mtu,
        cache: answer.cache,
        durable: answer.durable,
    };
    (options, Plan::Answer(format_of(answer.captures)))
}

/// The number of frames or turns that ends a run; where none does, more than ever come.
fn limit(number: Option<u32>) -> u64
    ensures { result ≡ limit number }
{
    number.map_or(u64::MAX, u64::from)
}

/// The slots of `serve`, and what is done with them.
pub(crate) fn serve_plan(serve: &Serve) -> (ExportOptions, Plan)
    requires { CanServe serve.now }
    ensures plan { result ≡ serve_plan serve.now }
    ensures possible { CanExport result.0 result.1 (2 * serve.now.slots) 1 }
{
    let options = ExportOptions {
        first: TargetId {
            major: serve.shelf,
            minor: serve.slot,
        },
        ports: copy_of(&serve.ports),
        mtu: serve.mtu,
        cache: serve.cache,
        durable: serve.durable,
    };
    let plan = Plan::Serve {
        frames: limit(serve.frames),
        idle: limit(serve.idle),
    };
    (options, plan)
}

/// The slot of `mirror`, and what is done with it.
pub(crate) fn mirror_plan(mirror: Mirror) -> (ExportOptions, Plan)
    requires { CanMirror mirror }
    ensures options { result.0 ≡ mirror_options mirror }
    ensures plan { result.1 ≡ mirror_plan mirror }
    ensures possible { CanExport result.0 result.1 2 (link_count (Asked mirror)) }
{
    let options = ExportOptions {
        first: mirror.id,
        ports: one_port(mirror.port),
        mtu: mirror.mtu,
        cache: 0,
        durable: false,
    };
    let plan = if mirror.is_served {
        Plan::Serve {
            frames: limit(None),
            idle: limit(mirror.idle),
        }
    } else {
        Plan::Answer(Format::Replies)
    };
    (options, plan)
}

/// The status of a run whose slot's keep was refused.
pub(crate) fn refused_as(slot: u32, refusal: MountRefusal) -> Status
    requires { slot ≤ 15 }
    ensures { result ≡ refused_as slot refusal }
{
    let disk = 2 * slot + 1;
    match refusal {
        MountRefusal::Failed => Status::DiskFault { disk },
        MountRefusal::TooSmall { sectors } => Status::KeepSmall { disk, sectors },
        MountRefusal::BadKeep { slot } => Status::KeepBad { disk, slot },
    }
}

/// The status of a run over a mirror whose keep was refused.
fn kept_out(refusal: MountRefusal) -> Status
    ensures { result ≡ kept_out refusal }
{
    match refusal {
        MountRefusal::Failed => Status::DiskFault { disk: KEEP },
        MountRefusal::TooSmall { sectors } => Status::KeepSmall {
            disk: KEEP,
            sectors,
        },
        MountRefusal::BadKeep { slot } => Status::KeepBad { disk: KEEP, slot },
    }
}

/// The status where a mirror wasn't run.
fn stopped_by(why: MirrorStop) -> Status
    ensures { result ≡ stopped_by why }
{
    match why {
        MirrorStop::NoMemory | MirrorStop::Mirror(MirrorRefusal::NoMemory) => Status::NoMemory,
        MirrorStop::Keep(refusal) => kept_out(refusal),
        MirrorStop::Mirror(MirrorRefusal::Unequal { first, second }) => {
            Status::MirrorSides { first, second }
        }
        MirrorStop::Mirror(MirrorRefusal::NoMark) => Status::MirrorMark,
        MirrorStop::Mirror(MirrorRefusal::NotMark) => Status::NotMark,
        MirrorStop::Mirror(MirrorRefusal::Failed) => Status::DiskFault { disk: MARK },
    }
}

/// The status of a run over a mirror: a disk that failed in the last sync is told where nothing else
/// is.
fn after_sync(status: Status, unsynced: Option<u8>) -> Status
    ensures { result ≡ after_sync status unsynced }
{
    match (status, unsynced) {
        (Status::Ok, Some(disk)) => Status::DiskFault {
            disk: u32::from(disk),
        },
        (status, _) => status,
    }
}

/// The status where nothing failed and so many sectors of this side are stale.
fn stale_or_ok(file: u8, sectors: u64) -> Status
    ensures { result ≡ stale_or_ok file sectors }
{
    if sectors == 0 {
        Status::Ok
    } else {
        Status::Stale {
            file: u32::from(file),
            sectors,
        }
    }
}

/// The status of a run that left so many sectors of this side stale, which are told where nothing
/// failed.
fn left_stale(status: Status, file: u8, sectors: u64) -> Status
    ensures { result ≡ left_stale status file sectors }
{
    match status {
        Status::Ok => stale_or_ok(file, sectors),
        status => status,
    }
}

/// The status of a run over a mirror.
pub(crate) fn mirrored_as(answer: Result<MirrorEnd, MirrorStop>) -> Status
    ensures { result ≡ mirrored_as answer }
{
    match answer {
        Ok(ended) => {
            let status = after_sync(ended_by(ended.end), ended.unsynced);
            left_stale(status, ended.follower, ended.stale)
        }
        Err(why) => stopped_by(why),
    }
}

/// The status of a run whose frames ended so.
fn ended_by(end: RunEnd) -> Status
    ensures { result ≡ ended_by end }
{
    match end {
        RunEnd::Answered(AnswerEnd::Ended) | RunEnd::Served(ServeEnd::Ended) => Status::Ok,
        RunEnd::Answered(AnswerEnd::SourceFault) => Status::SourceFault,
        RunEnd::Answered(AnswerEnd::SinkFault) => Status::SinkFault,
        RunEnd::Answered(AnswerEnd::Stream { offset }) => Status::Stream { offset },
        RunEnd::Answered(AnswerEnd::Limit) => Status::Limit(What::Frames),
        RunEnd::Served(ServeEnd::LinkFault) => Status::LinkFault { link: 0 },
    }
}

/// The limit by which a network has no room.
pub(crate) fn net_excess(limit: NetLimit) -> What
    ensures { result ≡ net_excess limit }
{
    match limit {
        NetLimit::Frames => What::Frames,
        NetLimit::Bytes => What::FrameBytes,
    }
}

/// The limit that a replay exceeded.
fn excess_of(limit: ReplayLimit) -> What
    ensures { result ≡ excess_of limit }
{
    match limit {
        ReplayLimit::ScriptBytes => What::ScriptBytes,
        ReplayLimit::Events => What::Events,
        ReplayLimit::Net(limit) => net_excess(limit),
    }
}

/// The status of a replay that ended so.
pub(crate) fn replayed_as(end: ReplayEnd) -> Status
    ensures { result ≡ replayed_as end }
{
    match end {
        ReplayEnd::Ended => Status::Ok,
        ReplayEnd::SourceFault => Status::SourceFault,
        ReplayEnd::SinkFault => Status::SinkFault,
        ReplayEnd::NoMemory => Status::NoMemory,
        ReplayEnd::Script { line, why } => Status::Script { line, why },
        ReplayEnd::Limit(limit) => Status::Limit(excess_of(limit)),
    }
}

/// The status of a run that ended so.
pub(crate) fn status_of(exported: Exported) -> Status
    requires { IfSome exported.unsynced (λ slot. slot ≤ 15) }
    ensures { result ≡ status_of exported }
{
    match (ended_by(exported.end), exported.unsynced) {
        (Status::Ok, Some(slot)) => Status::DiskFault { disk: 2 * slot },
        (status, _) => status,
    }
}
