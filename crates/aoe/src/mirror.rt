//! The command that exports a mirror.
ghost use Rattle.std.specs.Prelude.{◌≡◌, [], ◌∷◌, All, IsSome, Some, length, true};
ghost use Rattle.aoe_base.specs.Faults.{Blamed};
ghost use Rattle.aoe_serve.specs.Exporting.{AtFirst};
ghost use Rattle.aoe_args.specs.Words.{CanMirror, link_count};
ghost use Rattle.aoe_args.specs.declared.command.Command.TheVariants.{Mirror as Asked};
ghost use Rattle.aoe.specs.Commands.{mirror_plan};
ghost use Rattle.aoe.specs.Mirror.{AreTold, LeavesOthers, RunsMirror, four_of, is_mirror_status};

use crate::plan::{mirror_plan, mirrored_as};
use crate::status::Status;
use aoe_args::Mirror;
use aoe_disk::Disk;
use aoe_io::{Link, Sink, Source};
use aoe_mirror::MirrorWatch;
use aoe_serve::{MirrorDisks, export_mirror};
use std::alloc::Global;

/// Takes two disks.
pub(crate) fn take_pair<D: Disk + Drop>(pair: &mut [Option<D>]) -> (D, D)
    requires count { length pair.old ≡ 2 }
    requires there { All IsSome pair.old }
    ensures taken { pair.old ≡ Some result.0 ∷ Some result.1 ∷ [] }
    ensures count { length pair.new ≡ 2 }
{
    let (Some(first), Some(second)) = (pair[0].take(), pair[1].take()) else {
        unreachable!()
    };
    (first, second)
}

/// Takes the disks of a mirror, in the order of the files' names.
fn take_four<D: Disk + Drop>(disks: &mut [Option<D>]) -> MirrorDisks<D>
    requires count { length disks.old ≡ 4 }
    requires there { All IsSome disks.old }
    ensures taken { disks.old ≡ four_of result }
    ensures count { length disks.new ≡ 4 }
{
    let (sides, others) = disks.split_at_mut(2);
    let (one, two) = take_pair(sides);
    let (mark, keep) = take_pair(others);
    MirrorDisks {
        one,
        two,
        mark,
        keep,
    }
}

/// Puts them back.
fn put_four<D: Disk + Drop>(disks: &mut [Option<D>], given: MirrorDisks<D>)
    requires { length disks.old ≡ 4 }
    ensures { disks.new ≡ four_of given }
{
    let MirrorDisks {
        one,
        two,
        mark,
        keep,
    } = given;
    disks[0] = Some(one);
    disks[1] = Some(two);
    disks[2] = Some(mark);
    disks[3] = Some(keep);
}

/// Answers the frames of a source or a link as one target over two sides. What becomes of the sides the
/// watch is told.
pub(crate) fn run_mirror<S: Source, K: Sink, D: Disk + Drop, L: Link, M: MirrorWatch + Drop>(
    alloc: Global,
    asked: Mirror,
    source: &mut S,
    sink: &mut K,
    disks: &mut [Option<D>],
    links: &mut [L],
    watch: M,
) -> Status
    requires range { CanMirror asked }
    requires count { length disks.old ≡ 4 }
    requires there { All IsSome disks.old }
    requires links { length links.old ≡ link_count (Asked asked) }
    requires told { AreTold D.state disks.old }
    ensures runs { RunsMirror D.state asked
        record { left = S.left; held = K.held; turns = L.turns; given = L.given; taken = L.taken } result
        record { source = source.old; sink = sink.old; links = links.old } record { source = source.new; sink = sink.new; links = links.new }
        disks.old disks.new }
    ensures status { is_mirror_status asked.is_served result ≡ true }
    ensures leaves { LeavesOthers (mirror_plan asked)
        record { source = source.old; sink = sink.old; links = links.old } record { source = source.new; sink = sink.new; links = links.new } }
    ensures memory { result ≡ Status.NoMemory → (source.new ≡ source.old) × (sink.new ≡ sink.old)
        × (links.new ≡ links.old) }
    ensures there { All IsSome disks.new }
    ensures source { Blamed (result ≡ Status.SourceFault) (S.faults source.old)
        (S.faults source.new) }
    ensures sink { Blamed (result ≡ Status.SinkFault) (K.faults sink.old) (K.faults sink.new) }
    ensures first { AtFirst (λ a b. Blamed (result ≡ Status.LinkFault 0) (L.faults a)
        (L.faults b)) links.old links.new }
{
    let (options, plan) = mirror_plan(asked);
    let given = take_four(disks);
    let (answer, back, _) = export_mirror(alloc, options, plan, source, sink, given, links, watch);
    put_four(disks, back);
    mirrored_as(answer)
}
