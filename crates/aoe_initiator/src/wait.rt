//! How long the host waits for responses.
ghost use Rattle.std.specs.Prelude.{◌≡◌, ◌+◌, min};
ghost use Rattle.aoe_initiator.specs.Devices.{trip_from};
ghost use Rattle.aoe_initiator.specs.HostLog.{wait_of};

use aoe_base::Millis;
use aoe_flight::Flying;
use aoe_paths::MAX_TIMEOUT;

/// The wait doesn't grow any more after so many frames: the least timeout, of 100 ms, doubled ten
/// times is above a minute already, and `aoe_flight` counts no more frames than these.
const MOST_DOUBLINGS: u32 = 32;

/// How long the host waits for the response to a frame that is sent after `sends` others of its
/// command: as long as for an answer on its path, twice as long with each frame, up to a minute.
pub(crate) fn wait_after(timeout: Millis, sends: u32) -> Millis
    ensures { result.0 ≡ wait_of timeout.0 (min sends 32 + 1) }
{
    let wait = timeout.0.saturating_mul(1u64 << sends.min(MOST_DOUBLINGS));
    Millis(wait.min(MAX_TIMEOUT.0))
}

/// The round trip of a response to a flying command. It isn't known which of several frames a
/// response answers.
pub(crate) fn trip_at(now: Millis, flying: &Flying) -> Option<Millis>
    ensures { result ≡ trip_from now.0 flying.now }
{
    if flying.sends == 1 {
        Some(Millis(now.0.saturating_sub(flying.first.0)))
    } else {
        None
    }
}
