//! The command that compares the sides of a mirror.
ghost use Rattle.std.specs.Prelude.{◌≡◌, All, IsSome, length, true};
ghost use Rattle.aoe_base.specs.Faults.{Blamed};
ghost use Rattle.aoe.specs.Comparing.{RunsCompare, compared_as, differ_or_ok, is_compare_status, three_of};

use crate::mirror::take_pair;
use crate::status::Status;
use crate::upkeep::take_one;
use aoe_disk::Disk;
use aoe_io::Sink;
use aoe_upkeep::{CompareStop, compare};
use std::alloc::Global;

/// The numbers of the disks: the sides, and the one that says which of them leads.
const FIRST: u32 = 0;

const SECOND: u32 = 1;

const MARK: u32 = 2;

/// The sides of a mirror, and the disk that says which of them leads.
#[derive(Drop)]
pub struct Compared<D> {
    pub one: D,
    pub two: D,
    pub mark: D,
}

/// The status where so many sectors differ and nothing failed.
fn differ_or_ok(sectors: u64) -> Status
    ensures { result ≡ differ_or_ok sectors }
{
    if sectors == 0 {
        Status::Ok
    } else {
        Status::Differ { sectors }
    }
}

/// The status of a comparison that ended so.
fn compared_as(ended: Result<u64, CompareStop>) -> Status
    ensures { result ≡ compared_as ended }
{
    match ended {
        Ok(sectors) => differ_or_ok(sectors),
        Err(CompareStop::Unequal { first, second }) => Status::MirrorSides { first, second },
        Err(CompareStop::NoMark) => Status::MirrorMark,
        Err(CompareStop::NotMark) => Status::NotMark,
        Err(CompareStop::FirstFailed) => Status::DiskFault { disk: FIRST },
        Err(CompareStop::SecondFailed) => Status::DiskFault { disk: SECOND },
        Err(CompareStop::MarkFailed) => Status::DiskFault { disk: MARK },
        Err(CompareStop::SinkFault) => Status::SinkFault,
        Err(CompareStop::NoMemory) => Status::NoMemory,
    }
}

/// Takes the disks of a comparison, in the order of the files' names.
fn take_three<D: Disk + Drop>(disks: &mut [Option<D>]) -> Compared<D>
    requires count { length disks.old ≡ 3 }
    requires there { All IsSome disks.old }
    ensures taken { disks.old ≡ three_of result }
    ensures count { length disks.new ≡ 3 }
{
    let (sides, others) = disks.split_at_mut(2);
    let (one, two) = take_pair(sides);
    let mark = take_one(others);
    Compared { one, two, mark }
}

/// Puts them back.
fn put_three<D: Disk + Drop>(disks: &mut [Option<D>], given: Compared<D>)
    requires { length disks.old ≡ 3 }
    ensures { disks.new ≡ three_of given }
{
    let Compared { one, two, mark } = given;
    disks[0] = Some(one);
    disks[1] = Some(two);
    disks[2] = Some(mark);
}

/// Compares the first two disks as the sides of a mirror, and says on the sink what it finds.
pub(crate) fn run_compare<K: Sink, D: Disk + Drop>(
    alloc: Global,
    sink: &mut K,
    disks: &mut [Option<D>],
) -> Status
    requires count { length disks.old ≡ 3 }
    requires there { All IsSome disks.old }
    ensures runs { RunsCompare D.state result (K.held sink.old) (K.held sink.new) disks.old disks.new }
    ensures status { is_compare_status result ≡ true }
    ensures memory { result ≡ Status.NoMemory → sink.new ≡ sink.old }
    ensures there { All IsSome disks.new }
    ensures sink { Blamed (result ≡ Status.SinkFault) (K.faults sink.old) (K.faults sink.new) }
{
    let mut given = take_three(disks);
    let ended = compare(alloc, &mut given.one, &mut given.two, &mut given.mark, sink);
    put_three(disks, given);
    compared_as(ended)
}
