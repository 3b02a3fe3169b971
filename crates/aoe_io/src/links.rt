//! Frames that come in and go out.
ghost use Rattle.std.specs.Prelude.{◌≡◌, ◌<◌, ◌≤◌, ◌+◌, ◌∷◌, ℕ, List, [], Option, Some, None, Ok, drop, IfOk, IfSome, OnOk, OnErr};
ghost use Rattle.std.specs.Option.{option_map};
ghost use Rattle.aoe_base.specs.Faults.{Rose};
ghost use Rattle.aoe_io.specs.Link.{Added, GaveTurns, Turn, next_of, turn_of};
ghost use Rattle.aoe_io.specs.Memory.{counted};

use aoe_base::Failed;
use aoe_frame::Frame;

/// What a link gave in one turn.
#[derive(Clone, Copy, PartialEq, Eq)]
pub enum Got {
    Frame,

    /// No frame came.
    Quiet,

    /// No frame will come any more.
    Ended,
}

/// Frames that come in and go out. A link may lose what it took.
pub trait Link {
    // What each Ok `recv` gave, the latest first, where the link tells it.
    ghost given: { Self → Option (List Turn) };

    // The frames taken, the latest first, where the link tells them.
    ghost taken: { Self → Option (List (List ℕ)) };

    // The turns that are still to come whatever is sent, each with its frame or quiet, where the
    // link tells them. After the last of them the link has ended.
    ghost coming: { Self → Option (List (Option (List ℕ))) };

    // The Ok calls of `recv`, up to the greatest u64.
    ghost turns: { Self → ℕ };

    // How many calls of the link have failed.
    ghost faults: { Self → ℕ };

    /// Takes a frame.
    fn send(&mut self, frame: &[u8]) -> Result<(), Failed>
        ensures took { OnOk result (Added (taken self.old) (taken self.new) (frame.now ∷ [])) }
        ensures err { OnErr result (taken self.new ≡ taken self.old) }
        ensures given { given self.new ≡ given self.old }
        ensures coming { coming self.new ≡ coming self.old }
        ensures turns { turns self.new ≡ turns self.old }
        ensures count { faults self.old ≤ faults self.new }
        ensures cause { OnErr result (Rose (faults self.old) (faults self.new)) }
        ensures no_fault { OnOk result (faults self.new ≡ faults self.old) }
        ensures one_fault { faults self.new ≤ faults self.old + 1 };

    /// Gives what this turn brings; `out` is the frame where one came, and may else hold any bytes.
    fn recv(&mut self, out: &mut Frame) -> Result<Got, Failed>
        ensures gave { IfOk result (λ got. GaveTurns (turns self.new) (given self.old)
            (given self.new) (turn_of got out.new.items ∷ [])) }
        ensures passed { OnOk result (coming self.new ≡ option_map (drop 1) (coming self.old)) }
        ensures frame { result ≡ Ok Got.Frame → IfSome (coming self.old)
            (λ turns. next_of turns ≡ Some out.new.items) }
        ensures quiet { result ≡ Ok Got.Quiet → IfSome (coming self.old)
            (λ turns. next_of turns ≡ None) }
        ensures ended { result ≡ Ok Got.Ended → IfSome (coming self.old) (λ turns. turns ≡ []) }
        ensures turns { OnOk result (turns self.new ≡ counted (turns self.old)) }
        ensures passing { turns self.old ≤ turns self.new }
        ensures err_given { OnErr result (given self.new ≡ given self.old) }
        ensures err_coming { OnErr result (coming self.new ≡ coming self.old) }
        ensures err_turns { OnErr result (turns self.new ≡ turns self.old) }
        ensures taken { taken self.new ≡ taken self.old }
        ensures count { faults self.old ≤ faults self.new }
        ensures cause { OnErr result (Rose (faults self.old) (faults self.new)) }
        ensures no_fault { OnOk result (faults self.new ≡ faults self.old) }
        ensures one_fault { faults self.new ≤ faults self.old + 1 };
}
