//! Steps that contracts count, and that cost nothing when the code runs.
ghost use Rattle.std.specs.Prelude.{◌≡◌, ◌+◌, ◌<◌};

use std::marker::Model;
use std::sync::ledger::{Blank, Book, Ledger, Share};

/// A counter of steps without bytes, which contracts see as a number.
///
/// Code counts a step by `tick` wherever it looks at one thing, and by `add` where it hands out
/// many to look at; a contract bounds how far the number rises. A counter of its own is made from
/// a blank ledger: a function over any ledger `L` that is handed a `Steps<L>` and no blank can make
/// no second one.
#[derive(Drop)]
pub struct Steps<L: Ledger> {
    taken: Book<L>,
    share: Share<L>,
}

impl<L: Ledger> Model for Steps<L> {
    ghost use Rattle.std.specs.Prelude.{ℕ, ◌<◌};

    ghost Value = { ℕ };

    ghost view = { λ steps. steps.taken.total };

    ghost invariant = { λ steps. 0 < steps.share.parts };
}

impl<L: Ledger> Steps<L> {
    /// A counter of no step.
    pub fn new(blank: Blank) -> Steps<L>
        requires name { blank.name ≡ L.name }
        requires parts { blank.parts ≡ L.parts }
        requires some { 0 < blank.parts }
        ensures { result ≡ 0 }
    {
        let (taken, share) = blank.open::<L>();
        Steps { taken, share }
    }

    /// Counts one step.
    pub fn tick(&mut self)
        ensures { self.new ≡ self.old + 1 }
    {
        self.taken.add(&mut self.share, 1);
    }

    /// Counts so many steps at once.
    pub fn add(&mut self, steps: usize)
        ensures { self.new ≡ self.old + steps }
    {
        self.taken.add(&mut self.share, steps as u64);
    }
}
