//! A turn of a link: calls that take, until one ends it.
ghost use Rattle.std.specs.Prelude.{◌≡◌, List};
ghost use Rattle.aoe_io.specs.Link.{Added};
ghost use Rattle.aoe_wire.specs.Calls.{Taking};
ghost use Rattle.aoe_wire.specs.Turns.{IsTurn, goes_on};

use crate::medium::{Medium, Taken};
use aoe_base::Failed;
use aoe_frame::Frame;
use aoe_io::Got;

/// How long a turn waits for a frame, in microseconds.
const SILENCE: u64 = 10_000;

/// The most calls of a turn.
const TRIES: u64 = u64::MAX;

/// When the first thing was dropped in a turn that goes on after one was dropped at this time, and
/// the first before. It is over where as much time has passed as a call waits, and where the clock
/// can't be read.
fn goes_on(begun: Option<u64>, at: Option<u64>) -> Option<u64>
    ensures { result ≡ goes_on begun at }
{
    let at = at?;
    match begun {
        None => Some(at),
        Some(first) if at.saturating_sub(first) < SILENCE => Some(first),
        Some(_) => None,
    }
}

/// Makes `out` the next frame, or says that none came for as long as a call waits. What is dropped
/// ends no turn at once, and no turn goes on for it longer than three times as long.
pub(crate) fn take_turn<M: Medium>(medium: &mut M, out: &mut Frame) -> Result<Got, Failed>
    ensures turn { (takings : List Taking) × Added (M.takings medium.old) (M.takings medium.new) takings
        × IsTurn result out.new.items takings }
    ensures gave { M.givings medium.new ≡ M.givings medium.old }
{
    let mut begun = None;
    'tries: for _ in 0..TRIES {
        match medium.take(out) {
            Taken::Frame => return Ok(Got::Frame),
            Taken::Silence => return Ok(Got::Quiet),
            Taken::Fault => return Err(Failed),
            Taken::Dropped(at) => match goes_on(begun, at) {
                Some(first) => begun = Some(first),
                None => return Ok(Got::Quiet),
            },
        }
    }
    Ok(Got::Quiet)
}
