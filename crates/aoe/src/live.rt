//! A run over two links: its script on the sink.
ghost use Rattle.std.specs.Prelude.{◌≡◌, ◌≢◌, true};
ghost use Rattle.aoe_args.specs.Words.{CanLive};
ghost use Rattle.aoe_base.specs.Faults.{Blamed};
ghost use Rattle.aoe.specs.Live.{AreBlamed, RunsLive, ends, is_live_status, live_status};

use crate::plan::net_excess;
use crate::status::{Status, What};
use aoe_args::Live;
use aoe_base::Failed;
use aoe_io::{Clock, Link, Sink, give_all};
use aoe_live::{LiveRefusal, live};
use std::alloc::Global;

/// The status of a run that gave no script.
fn live_status(refusal: LiveRefusal) -> Status
    ensures { result ≡ live_status refusal }
{
    match refusal {
        LiveRefusal::NoMemory => Status::NoMemory,
        LiveRefusal::LinkFault { link } => Status::LinkFault { link },
        LiveRefusal::Unanswered { turns } => Status::Unanswered { turns },
        LiveRefusal::Full { limit, .. } => Status::Limit(net_excess(limit)),
        LiveRefusal::TooMany => Status::Limit(What::Events),
    }
}

/// Runs a shelf and a host over two links, and writes the script of what happened.
pub(crate) fn run_live<K: Sink, L: Link, C: Clock>(
    alloc: Global,
    asked: &Live,
    sink: &mut K,
    one: &mut L,
    two: &mut L,
    clock: &mut C,
) -> Status
    requires { CanLive asked.now }
    ensures run { RunsLive asked.now result (K.held sink.old) (K.held sink.new)
        (ends C.answers L.turns L.given L.taken one.old two.old clock.old) (ends C.answers L.turns L.given L.taken one.new two.new clock.new) }
    ensures leaves { result ≢ Status.Ok → result ≢ Status.SinkFault → sink.new ≡ sink.old }
    ensures status { is_live_status result ≡ true }
    ensures links { AreBlamed result (L.faults one.old) (L.faults one.new) (L.faults two.old)
        (L.faults two.new) }
    ensures sink { Blamed (result ≡ Status.SinkFault) (K.faults sink.old) (K.faults sink.new) }
{
    let sectors = u64::from(asked.sectors);
    let text = match live(alloc, sectors, asked.count, asked.turns, one, two, clock) {
        Ok(text) => text,
        Err(refusal) => return live_status(refusal),
    };
    match give_all(sink, text.bytes()) {
        Ok(()) => Status::Ok,
        Err(Failed) => Status::SinkFault,
    }
}
