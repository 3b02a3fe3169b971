//! A frame that is sent: to each peer, once.
ghost use Rattle.std.specs.Prelude.{◌≡◌, List};
ghost use Rattle.aoe_io.specs.Link.{Added};
ghost use Rattle.aoe_wire.specs.Calls.{Giving};
ghost use Rattle.aoe_wire.specs.Sends.{GivesOne, GivesEach};

use crate::medium::{Given, Medium};
use aoe_base::Failed;

/// How often a call that came to nothing is made again: as often as std does for files.
const TRIES: u64 = u64::MAX;

/// Gives a frame to a peer. It may be lost.
fn give_one<M: Medium>(medium: &mut M, peer: usize, frame: &[u8]) -> Result<(), Failed>
    ensures gives { (givings : List Giving) × Added (M.givings medium.old) (M.givings medium.new) givings
        × GivesOne peer frame.now result givings }
    ensures took { M.takings medium.new ≡ M.takings medium.old }
{
    'tries: for _ in 0..TRIES {
        match medium.give(peer, frame) {
            Given::Sent => return Ok(()),
            Given::Lost => return Ok(()),
            Given::Fault => return Err(Failed),
            Given::Interrupted => {}
        }
    }
    Err(Failed)
}

/// Gives a frame to each of so many peers, in their order, until the medium fails.
pub(crate) fn give_each<M: Medium>(medium: &mut M, peers: usize, frame: &[u8]) -> Result<(), Failed>
    ensures gives { (givings : List Giving) × Added (M.givings medium.old) (M.givings medium.new) givings
        × GivesEach peers frame.now result givings }
    ensures took { M.takings medium.new ≡ M.takings medium.old }
{
    'peers: for peer in 0..peers {
        match give_one(medium, peer, frame) {
            Ok(()) => {}
            Err(Failed) => return Err(Failed),
        }
    }
    Ok(())
}
