//! The call that exports files.
ghost use Rattle.std.specs.Prelude.{◌≡◌, ◌≤◌, ℕ, All, Err, IfErr, IfOk, IsSome, OnErr, length};
ghost use Rattle.aoe_base.specs.Faults.{Blamed};
ghost use Rattle.aoe_serve.specs.Backing.{held_back};
ghost use Rattle.aoe_serve.specs.Exporting.{AtFirst, CanExport, EndsAs, IsExported};
ghost use Rattle.aoe_serve.specs.Files.{AreGivenBack, GivesBack, named};
ghost use Rattle.aoe_keep.specs.declared.refusal.MountRefusal.{MountRefusal};

use crate::backing::{Backing, Most, held_back};
use crate::mount::{mount, unmount};
use crate::{AnswerEnd, ExportRefusal, Exported, Plan, RunEnd, ServeEnd, run_slots};
use aoe_base::{NoMemory, Ports, TargetId};
use aoe_disk::Disk;
use aoe_io::{Link, Sink, Source};
use aoe_keep::MountRefusal;
use aoe_shelf::Shelf;
use std::alloc::Global;
use std::marker::Brand;

/// What the slots have in common.
#[derive(Drop)]
pub struct ExportOptions {
    /// The name of the first slot. Those of the others have the same major, and count up its minor.
    pub first: TargetId,
    pub ports: Ports,

    /// How many bytes an Ethernet frame carries.
    pub mtu: u32,

    /// How many sectors that were written a store holds back at most, until a flush or the last sync;
    /// 0 where each write goes to its file at once.
    pub cache: u32,

    /// Whether each write is synced before it is answered; then nothing is held back.
    pub durable: bool,
}

/// Exports each pair of the disks, a file and its keep, as a slot of a shelf, for one run.
///
/// The memory of all stores is taken first, and then all keeps are mounted, in order. Where there is
/// no memory or a keep is refused, nothing is read or sent. Else the plan is run over the slots, and at
/// the end the stores are synced in order, however the run ended. Each disk is given back, also where
/// nothing was run.
///
/// Where writes are to last, each sector of a write that was answered as done survives a loss of power
/// from then on, until a later write to it. With a cache a loss of power takes the writes since the last flush, of as many sectors as the cache
/// holds back at most. A host that flushes what it must not lose is as safe as without.
pub fn export<D: Disk + Drop, S: Source, K: Sink, L: Link>(
    alloc: Global,
    options: ExportOptions,
    plan: Plan,
    source: &mut S,
    sink: &mut K,
    disks: &mut [Option<D>],
    links: &mut [L],
) -> Result<Exported, ExportRefusal>
    requires possible { CanExport options plan (length disks.old) (length links.old) }
    requires there { All IsSome disks.old }
    ensures ran { IfOk result (λ e. IsExported D.state (held_back options.durable options.cache) (named options.first.major options.ports.items options.mtu) options.first.minor
        record { left = S.left; held = K.held; turns = L.turns; given = L.given; taken = L.taken } plan e
        record { source = source.old; sink = sink.old; links = links.old } record { source = source.new; sink = sink.new; links = links.new }
        disks.old disks.new) }

    // Nothing was run: where a keep was refused, those in front of it were mounted, and those behind it weren't.
    ensures refused { (slot : ℕ) (refusal : MountRefusal)
        → result ≡ Err (ExportRefusal.Keep slot refusal)
        → GivesBack D.state slot refusal disks.old disks.new }
    ensures memory { result ≡ Err ExportRefusal.NoMemory → disks.new ≡ disks.old }
    ensures source { OnErr result (source.new ≡ source.old) }
    ensures sink { OnErr result (sink.new ≡ sink.old) }
    ensures links { OnErr result (links.new ≡ links.old) }

    ensures there { All IsSome disks.new }
    ensures source_count { S.faults source.old ≤ S.faults source.new }
    ensures sink_count { K.faults sink.old ≤ K.faults sink.new }
    ensures link_count { AtFirst (λ a b. L.faults a ≤ L.faults b) links.old links.new }
    ensures source_blame { Blamed (EndsAs result (RunEnd.Answered AnswerEnd.SourceFault))
        (S.faults source.old) (S.faults source.new) }
    ensures sink_blame { Blamed (EndsAs result (RunEnd.Answered AnswerEnd.SinkFault))
        (K.faults sink.old) (K.faults sink.new) }
    ensures link_blame { AtFirst (λ a b. Blamed (EndsAs result (RunEnd.Served ServeEnd.LinkFault))
        (L.faults a) (L.faults b)) links.old links.new }
{
    export_at::<Brand, D, S, K, L>(alloc, options, plan, source, sink, disks, links)
}

/// The same, where `M` says how many sectors a store holds back at most.
fn export_at<M: Most, D: Disk + Drop, S: Source, K: Sink, L: Link>(
    alloc: Global,
    options: ExportOptions,
    plan: Plan,
    source: &mut S,
    sink: &mut K,
    disks: &mut [Option<D>],
    links: &mut [L],
) -> Result<Exported, ExportRefusal>
    requires most { held_back options.durable options.cache ≡ M.most }
    requires possible { CanExport options plan (length disks.old) (length links.old) }
    requires there { All IsSome disks.old }
    ensures ran { IfOk result (λ e. IsExported D.state (held_back options.durable options.cache) (named options.first.major options.ports.items options.mtu) options.first.minor
        record { left = S.left; held = K.held; turns = L.turns; given = L.given; taken = L.taken } plan e
        record { source = source.old; sink = sink.old; links = links.old } record { source = source.new; sink = sink.new; links = links.new }
        disks.old disks.new) }

    ensures refused { IfErr result (λ e. AreGivenBack D.state e disks.old disks.new) }
    ensures source { OnErr result (source.new ≡ source.old) }
    ensures sink { OnErr result (sink.new ≡ sink.old) }
    ensures links { OnErr result (links.new ≡ links.old) }

    ensures there { All IsSome disks.new }
    ensures source_count { S.faults source.old ≤ S.faults source.new }
    ensures sink_count { K.faults sink.old ≤ K.faults sink.new }
    ensures link_count { AtFirst (λ a b. L.faults a ≤ L.faults b) links.old links.new }
    ensures source_blame { Blamed (EndsAs result (RunEnd.Answered AnswerEnd.SourceFault))
        (S.faults source.old) (S.faults source.new) }
    ensures sink_blame { Blamed (EndsAs result (RunEnd.Answered AnswerEnd.SinkFault))
        (K.faults sink.old) (K.faults sink.new) }
    ensures link_blame { AtFirst (λ a b. Blamed (EndsAs result (RunEnd.Served ServeEnd.LinkFault))
        (L.faults a) (L.faults b)) links.old links.new }
{
    let ExportOptions {
        first,
        ports,
        mtu,
        cache,
        durable,
    } = options;
    let mut shelf: Shelf<Backing<D, M>, D> = match Shelf::new(alloc, first.major, ports, mtu) {
        Ok(shelf) => shelf,
        Err(NoMemory) => return Err(ExportRefusal::NoMemory),
    };
    match mount(
        alloc,
        &mut shelf,
        first.minor,
        held_back(durable, cache),
        disks,
    ) {
        Ok(()) => {}
        Err(refusal) => return Err(refusal),
    }
    let exported = run_slots(&mut shelf, plan, source, sink, links);
    unmount(&mut shelf, disks);
    Ok(exported)
}
