//! The line that shows a keep.
ghost use Rattle.std.specs.Prelude.{◌≡◌, ◌≢◌, ◌++◌, Err, IfErr, OnOk, IfOk};
ghost use Rattle.aoe_base.specs.Faults.{Blamed};
ghost use Rattle.aoe_keep.specs.Found.{format_at};
ghost use Rattle.aoe_upkeep.specs.Upkeep.{IsCaused, Says, Shows, line};

use crate::UpkeepStop;
use aoe_base::{Failed, NoMemory, put};
use aoe_disk::Disk;
use aoe_io::{Sink, give_all};
use aoe_keep::Keep;
use aoe_lists::Lists;
use aoe_script::spelling::{put_count, put_lists};
use std::alloc::Global;

/// Adds the line of lists that stand in a format.
fn put_line(out: &mut Vec<u8>, format: u8, lists: &Lists) -> Result<(), NoMemory>
    ensures { OnOk result (out.new.items ≡ out.old.items ++ line format lists.now) }
{
    put_count(out, b"format", u64::from(format))?;
    put_lists(out, lists)?;
    put(out, b"\n")
}

/// The line of a keep.
fn line_of<D: Disk>(alloc: Global, keep: &Keep<D>) -> Result<Vec<u8>, NoMemory>
    ensures { IfOk result (λ text. text.items ≡ line (format_at keep.now.place) keep.now.lists) }
{
    let mut text = Vec::new(alloc);
    put_line(&mut text, keep.format(), keep.lists())?;
    Ok(text)
}

/// Writes the line of a keep.
fn say<D: Disk, K: Sink>(alloc: Global, keep: &Keep<D>, sink: &mut K) -> Result<(), UpkeepStop>
    ensures says { Says result (K.held sink.old) (K.held sink.new)
        (line (format_at keep.now.place) keep.now.lists) }
    ensures unwritten { IfErr result (λ why. why ≢ UpkeepStop.SinkFault → sink.new ≡ sink.old) }
    ensures sink { Blamed (result ≡ Err UpkeepStop.SinkFault) (K.faults sink.old)
        (K.faults sink.new) }
{
    let text = match line_of(alloc, keep) {
        Ok(text) => text,
        Err(NoMemory) => return Err(UpkeepStop::NoMemory),
    };
    match give_all(sink, text.as_slice()) {
        Ok(()) => Ok(()),
        Err(Failed) => Err(UpkeepStop::SinkFault),
    }
}

/// Mounts the keep on a disk and writes its line: `format`, the number of the format and the lists, which
/// are spelled as in a transcript. The disk is given back. No sector of it is changed.
pub fn show<D: Disk, K: Sink>(alloc: Global, disk: D, sink: &mut K) -> (Result<(), UpkeepStop>, D)
    ensures shows { Shows D.state result.0 (K.held sink.old) (K.held sink.new) disk result.1 }
    ensures causes { IsCaused D.state result.0 disk result.1 }
    ensures unwritten { IfErr result.0 (λ why. why ≢ UpkeepStop.SinkFault → sink.new ≡ sink.old) }
    ensures sink { Blamed (result.0 ≡ Err UpkeepStop.SinkFault) (K.faults sink.old)
        (K.faults sink.new) }
{
    let keep = match Keep::mount(disk) {
        Ok(keep) => keep,
        Err((refusal, disk)) => return (Err(UpkeepStop::Keep(refusal)), disk),
    };
    let ended = say(alloc, &keep, sink);
    (ended, keep.close())
}
