//! Clocks.
ghost use Rattle.std.specs.Prelude.{◌≡◌, ◌≤◌, ◌∷◌, ℕ, List, [], Option, Some, IfSome};
ghost use Rattle.aoe_io.specs.Link.{Added};
ghost use Rattle.aoe_io.specs.Ticking.{ticked};

use std::marker::Model;

/// What says the time, in milliseconds from any beginning.
pub trait Clock {
    // The answers so far, the latest first, where the clock tells them.
    ghost answers: { Self → Option (List ℕ) };

    // The least that the next answer can be.
    ghost least: { Self → ℕ };

    /// The time, which never falls.
    fn now(&mut self) -> u64
        ensures least { least self.old ≤ result }
        ensures later { result ≤ least self.new }
        ensures told { IfSome (answers self.new) (λ _. Added (answers self.old) (answers self.new) (result ∷ [])) };
}

/// A clock that goes by steps, and stands still at the greatest time.
#[derive(Drop)]
pub struct SetClock {
    start: u64,
    step: u64,
    coming: u64,
    count: u64,
}

impl Model for SetClock {
    ghost use Rattle.std.specs.Prelude.{◌≡◌, ◌<◌, ◌-◌, ◌+◌, ◌*◌, ◌^◌, min};
    ghost use Rattle.aoe_io.specs.Ticking.{Ticking, told_of};

    ghost Value = { Ticking };

    ghost view = { λ c. record { coming = c.coming; step = c.step; answers = told_of c.start c.step c.count } };

    ghost invariant = { λ c. c.count < 2 ^ 64 - 1 → c.coming ≡ min (c.start + c.count * c.step) (2 ^ 64 - 1) };
}

impl SetClock {
    /// A clock whose first answer is `start`, and each later one `step` more.
    pub fn new(start: u64, step: u64) -> SetClock
        ensures { result ≡ record { coming = start; step = step; answers = Some [] } }
    {
        SetClock {
            start,
            step,
            coming: start,
            count: 0,
        }
    }
}

impl Clock for SetClock {
    ghost answers = { λ c. c.answers };

    ghost least = { λ c. c.coming };

    fn now(&mut self) -> u64
        ensures least { self.old.coming ≤ result }
        ensures later { result ≤ self.new.coming }
        ensures told { IfSome self.new.answers
            (λ _. Added self.old.answers self.new.answers (result ∷ [])) }
        ensures exact { result ≡ self.old.coming }
        ensures ticked { self.new ≡ ticked self.old }
    {
        let answer = self.coming;
        self.coming = answer.saturating_add(self.step);
        self.count = self.count.saturating_add(1);
        answer
    }
}
