//! The run over the slots of a shelf, and the last syncs.
ghost use Rattle.std.specs.Prelude.{◌≡◌, ◌≤◌, ◌<◌, List, Result, length, true};
ghost use Rattle.aoe_base.specs.Faults.{Blamed};
ghost use Rattle.aoe_base.specs.declared.failure.Failed.{Failed};
ghost use Rattle.aoe_serve.specs.Exporting.{AtFirst, HasRun, RanSlots, SyncsEach, first_failed, first_of, is_served};
ghost use Rattle.aoe_serve.specs.Slots.{slots_of};

use crate::over_stream::answer_as;
use crate::{AnswerEnd, Exported, Plan, RunEnd, ServeEnd, serve};
use aoe_base::Failed;
use aoe_disk::Disk;
use aoe_io::{Link, Sink, Source};
use aoe_shelf::Shelf;
use aoe_store::Store;

/// Syncs the store of each slot in order, and gives the first slot whose sync failed.
pub(crate) fn sync_each<S: Store, D: Disk>(shelf: &mut Shelf<S, D>) -> Option<u32>
    ensures syncs { (results : List (Result (Unit {0}) Failed)) × SyncsEach results (slots_of S.lasts S.state D.state shelf.old.targets) (slots_of S.lasts S.state D.state shelf.new.targets)
        × (result ≡ first_failed results) }
    ensures rest { shelf.new ≡ record shelf.old { targets = shelf.new.targets } }
    ensures count { length shelf.new.targets ≡ length shelf.old.targets }
{
    let mut first = None;
    'slots: for slot in 0..shelf.count() {
        let synced = shelf.sync_slot(slot);
        first = first_of(first, synced, slot as u32);
    }
    first
}

/// The first slot that failed of those up to this one.
fn first_of(first: Option<u32>, synced: Result<(), Failed>, slot: u32) -> Option<u32>
    ensures { result ≡ first_of first synced slot }
{
    match (first, synced) {
        (None, Err(Failed)) => Some(slot),
        _ => first,
    }
}

/// Runs the plan over the slots of a shelf.
pub(crate) fn run<T: Store, D: Disk, S: Source, K: Sink, L: Link>(
    shelf: &mut Shelf<T, D>,
    plan: Plan,
    source: &mut S,
    sink: &mut K,
    links: &mut [L],
) -> RunEnd
    requires { is_served plan ≡ true → 0 < length links.old }
    ensures run { HasRun record { left = S.left; held = K.held; turns = L.turns; given = L.given; taken = L.taken } plan result
        record { source = source.old; sink = sink.old; links = links.old } record { source = source.new; sink = sink.new; links = links.new }
        (slots_of T.lasts T.state D.state shelf.old.targets) (slots_of T.lasts T.state D.state shelf.new.targets) }
    ensures rest { shelf.new ≡ record shelf.old { targets = shelf.new.targets } }
    ensures source_count { S.faults source.old ≤ S.faults source.new }
    ensures sink_count { K.faults sink.old ≤ K.faults sink.new }
    ensures link_count { AtFirst (λ a b. L.faults a ≤ L.faults b) links.old links.new }
    ensures source_blame { Blamed (result ≡ RunEnd.Answered AnswerEnd.SourceFault)
        (S.faults source.old) (S.faults source.new) }
    ensures sink_blame { Blamed (result ≡ RunEnd.Answered AnswerEnd.SinkFault) (K.faults sink.old)
        (K.faults sink.new) }
    ensures link_blame { AtFirst (λ a b. Blamed (result ≡ RunEnd.Served ServeEnd.LinkFault)
        (L.faults a) (L.faults b)) links.old links.new }
{
    match plan {
        Plan::Answer(format) => RunEnd::Answered(answer_as(format, shelf, source, sink)),
        Plan::Serve { frames, idle } => RunEnd::Served(serve(shelf, &mut links[0], frames, idle)),
    }
}

/// Runs the plan over the slots of a shelf, whatever their stores are, and then syncs each store in
/// order, however the run ended.
///
/// It is what [`export`](crate::export) does between mounting files and giving them back, for stores
/// of another kind. The shelf keeps its slots.
pub fn run_slots<T: Store, D: Disk, S: Source, K: Sink, L: Link>(
    shelf: &mut Shelf<T, D>,
    plan: Plan,
    source: &mut S,
    sink: &mut K,
    links: &mut [L],
) -> Exported
    requires { is_served plan ≡ true → 0 < length links.old }
    ensures ran { RanSlots record { left = S.left; held = K.held; turns = L.turns; given = L.given; taken = L.taken } plan result
        record { source = source.old; sink = sink.old; links = links.old } record { source = source.new; sink = sink.new; links = links.new }
        (slots_of T.lasts T.state D.state shelf.old.targets) (slots_of T.lasts T.state D.state shelf.new.targets) }
    ensures count { length shelf.new.targets ≡ length shelf.old.targets }
    ensures rest { shelf.new ≡ record shelf.old { targets = shelf.new.targets } }
    ensures source_count { S.faults source.old ≤ S.faults source.new }
    ensures sink_count { K.faults sink.old ≤ K.faults sink.new }
    ensures link_count { AtFirst (λ a b. L.faults a ≤ L.faults b) links.old links.new }
    ensures source_blame { Blamed (result.end ≡ RunEnd.Answered AnswerEnd.SourceFault)
        (S.faults source.old) (S.faults source.new) }
    ensures sink_blame { Blamed (result.end ≡ RunEnd.Answered AnswerEnd.SinkFault)
        (K.faults sink.old) (K.faults sink.new) }
    ensures link_blame { AtFirst (λ a b. Blamed (result.end ≡ RunEnd.Served ServeEnd.LinkFault)
        (L.faults a) (L.faults b)) links.old links.new }
{
    let end = run(shelf, plan, source, sink, links);
    let unsynced = sync_each(shelf);
    Exported { end, unsynced }
}
