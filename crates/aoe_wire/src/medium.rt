//! What carries frames.
ghost use Rattle.std.specs.Prelude.{◌≡◌, ◌∷◌, List, [], Option};
ghost use Rattle.aoe_io.specs.Link.{Added};
ghost use Rattle.aoe_wire.specs.Frames.{is_aoe};
ghost use Rattle.aoe_wire.specs.Calls.{Giving, Taking};

use aoe_frame::{AOE_TYPE, Frame, MAX_FRAME};
use std::time::Clock;

/// How many bytes of a frame stand up to the end of its type.
const TYPE_END: usize = 14;

/// What a call that takes came to.
#[derive(Clone, Copy, PartialEq, Eq)]
pub enum Taken {
    /// A frame of AoE came.
    Frame,

    /// What came is no frame of AoE, or only a signal or word of a loss did: with the time after it,
    /// in microseconds from any beginning, where the clock can be read.
    Dropped(Option<u64>),

    /// Nothing came as long as a call waits.
    Silence,

    /// The medium failed.
    Fault,
}

/// What a call that gives a frame to a peer came to.
#[derive(Clone, Copy, PartialEq, Eq)]
pub enum Given {
    /// The medium took the frame.
    Sent,

    /// The frame is lost, as a frame may be on any wire.
    Lost,

    /// The call came to nothing, and is to be made again.
    Interrupted,

    /// The medium failed.
    Fault,
}

/// What carries frames, to and from peers that are numbered from 0.
pub trait Medium {
    // What the calls of `take` came to, the latest first, where the medium tells it.
    ghost takings: { Self → Option (List Taking) };

    // What the calls of `give` came to, the latest first, where the medium tells it.
    ghost givings: { Self → Option (List Giving) };

    /// Takes what is there, or waits for it; `out` is the frame where one came, and may else hold any
    /// bytes.
    fn take(&mut self, out: &mut Frame) -> Taken
        ensures took { Added (takings self.old) (takings self.new)
            (record { what = result; frame = out.new.items } ∷ []) }
        ensures gave { givings self.new ≡ givings self.old };

    /// Gives a frame to a peer.
    fn give(&mut self, peer: usize, frame: &[u8]) -> Given
        ensures gave { Added (givings self.old) (givings self.new)
            (record { peer = peer; frame = frame.now; came = result } ∷ []) }
        ensures took { takings self.new ≡ takings self.old };
}

/// Whether these bytes are a frame of AoE: they are no more than a frame has, and have its type.
pub fn is_frame(bytes: &[u8]) -> bool
    ensures { result ≡ is_aoe bytes.now }
{
    bytes.len() <= MAX_FRAME
        && bytes.len() >= TYPE_END
        && bytes[12] == AOE_TYPE[0]
        && bytes[13] == AOE_TYPE[1]
}

/// The time in microseconds from any beginning, where the clock can be read.
pub fn time_of<C: Clock>(clock: &C) -> Option<u64> {
    match clock.monotonic() {
        Ok(time) => Some(time.as_micros().min(u128::from(u64::MAX)) as u64),
        Err(_) => None,
    }
}
