//! The loop of `serve`: a frame from the link, its replies to the link.
ghost use Rattle.std.specs.Prelude.{◌≡◌, ◌≤◌, List, Ok, Err, is_err, true};
ghost use Rattle.aoe_base.specs.Faults.{Blamed};
ghost use Rattle.aoe_io.specs.Link.{Turn, Turned};
ghost use Rattle.aoe_serve.specs.Serving.{Served, Waited};
ghost use Rattle.aoe_serve.specs.Slots.{slots_of};

use crate::outlet::AsFrames;
use crate::rounds::round;
use aoe_base::Failed;
use aoe_disk::Disk;
use aoe_frame::Frame;
use aoe_io::{Got, Link};
use aoe_shelf::Shelf;
use aoe_store::Store;

/// How a run of `serve` ended.
#[derive(Clone, Copy, PartialEq, Eq)]
pub enum ServeEnd {
    /// As many frames came or as many consecutive turns were quiet as was asked for, or the link ended.
    Ended,

    /// The link failed.
    LinkFault,
}

/// Waits for a frame for up to `idle` turns, and says what the last turn was.
fn wait<L: Link>(link: &mut L, idle: u64, out: &mut Frame) -> Result<Got, Failed>
    ensures waited { (turns : List Turn) × Waited result idle out.new.items turns
        × Turned (L.turns link.old) (L.turns link.new) (L.given link.old) (L.given link.new) turns }
    ensures taken { L.taken link.new ≡ L.taken link.old }
    ensures count { L.faults link.old ≤ L.faults link.new }
    ensures link_blame { Blamed (is_err result ≡ true) (L.faults link.old) (L.faults link.new) }
{
    'turns: for turn in 0..idle {
        match link.recv(out) {
            Ok(Got::Quiet) => {}
            Ok(Got::Frame) => return Ok(Got::Frame),
            Ok(Got::Ended) => return Ok(Got::Ended),
            Err(Failed) => return Err(Failed),
        }
    }
    Ok(Got::Quiet)
}

/// Gives each frame of the link to every slot in turn, and the replies to the link, until `frames`
/// frames came or `idle` consecutive turns were quiet, or the link ends or fails. Where it fails to take
/// a reply, the slots behind still get the frame, and the link isn't called again. Takes no memory.
pub fn serve<S: Store, D: Disk, L: Link>(
    shelf: &mut Shelf<S, D>,
    link: &mut L,
    frames: u64,
    idle: u64,
) -> ServeEnd
    ensures run { Served result frames idle (L.turns link.old) (L.turns link.new) (L.given link.old) (L.given link.new) (L.taken link.old) (L.taken link.new)
        (slots_of S.lasts S.state D.state shelf.old.targets) (slots_of S.lasts S.state D.state shelf.new.targets) }
    ensures rest { shelf.new ≡ record shelf.old { targets = shelf.new.targets } }
    ensures count { L.faults link.old ≤ L.faults link.new }
    ensures link_blame { Blamed (result ≡ ServeEnd.LinkFault) (L.faults link.old)
        (L.faults link.new) }
{
    let mut request = Frame::new();
    let mut reply = Frame::new();
    'frames: for count in 0..frames {
        match wait(link, idle, &mut request) {
            Ok(Got::Frame) => {}
            Ok(Got::Quiet) => return ServeEnd::Ended,
            Ok(Got::Ended) => return ServeEnd::Ended,
            Err(Failed) => return ServeEnd::LinkFault,
        }
        match round::<S, D, AsFrames, L>(shelf, request.as_slice(), &mut reply, link, Ok(())) {
            Ok(()) => {}
            Err(Failed) => return ServeEnd::LinkFault,
        }
    }
    ServeEnd::Ended
}
