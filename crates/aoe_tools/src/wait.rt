//! How long a request has waited.
ghost use Rattle.std.specs.Prelude.{◌≡◌, ◌<◌, ◌-◌, ◌^◌, ◌≤◌, ◌*◌, ℕ, List, length};
ghost use Rattle.aoe_io.specs.Link.{Turn};
ghost use Rattle.aoe_tools.specs.Listening.{after_frame, after_silence, begun, longer};
ghost use Rattle.aoe_tools.specs.One.{GoesOn};
ghost use Rattle.aoe_tools.specs.Waiting.{Lasts, frames_per_turn};
ghost use Rattle.aoe_tools.specs.declared.question.Question.{Question};

/// After how many turns a request that isn't answered is sent again: a tenth of a second over a silent
/// UDP link, which is this program's own choice.
const TURNS_BETWEEN: u32 = 10;

/// How many frames are as much as one turn without a frame, so that no flood of frames holds a tool up
/// for ever. This is this program's own choice.
const FRAMES_PER_TURN: u32 = 64;

/// How long a request has waited for its response.
#[derive(Clone, Copy)]
pub(crate) struct Wait {
    /// How many turns: one for each turn of the link without a frame, and one for each 64 with one.
    pub(crate) turns: u32,

    /// How many frames came behind those that are counted in `turns`.
    frames: u32,

    /// Whether the request is sent before the next turn of the link.
    pub(crate) is_due: bool,
}

impl Wait {
    /// The wait of a request that wasn't sent yet.
    pub(crate) fn new() -> Wait
        ensures { result ≡ begun }
    {
        Wait {
            turns: 0,
            frames: 0,
            is_due: true,
        }
    }

    /// The wait that has just become one turn longer.
    fn longer(turns: u32, frames: u32) -> Wait
        ensures { result ≡ longer turns frames }
    {
        Wait {
            turns,
            frames,
            is_due: turns % TURNS_BETWEEN == 0,
        }
    }

    /// The wait after a turn of the link without a frame.
    pub(crate) fn after_silence(self) -> Wait
        requires { self.turns < 2 ^ 32 - 1 }
        ensures { result ≡ after_silence self }
    {
        Wait::longer(self.turns + 1, self.frames)
    }

    /// The wait after a turn of the link that brought a frame.
    pub(crate) fn after_frame(self) -> Wait
        requires { self.turns < 2 ^ 32 - 1 }
        ensures { result ≡ after_frame self }
    {
        if self.frames < FRAMES_PER_TURN - 1 {
            return Wait {
                turns: self.turns,
                frames: self.frames + 1,
                is_due: false,
            };
        }
        Wait::longer(self.turns + 1, 0)
    }
}

/// A law: whatever comes, a request has no more turns of the link than 64 for each of the turns that
/// it may wait.
pub fn requests_end()
    ensures one { (q : Question) (limit : ℕ) (turns : List Turn) → GoesOn q limit turns
        → length turns ≤ frames_per_turn * limit }
    ensures all { (limit : ℕ) (turns : List Turn) → Lasts limit turns
        → length turns ≤ frames_per_turn * limit }
{}
