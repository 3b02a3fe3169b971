//! What things are ordered by.
ghost use Rattle.std.specs.Prelude.{◌≡◌};
ghost use Rattle.aoe_sorted.specs.Order.{before};
ghost use Rattle.aoe_sorted.specs.declared.rank.Rank.{Rank as RankValue};

/// What a thing is ordered by.
#[derive(Clone, Copy)]
pub struct Rank {
    /// A sum of two times needs more than 64 bits.
    pub at: u128,

    /// What goes where that is equal.
    pub tie: u64,

    /// What goes where both are.
    pub rest: u64,
}

impl Rank {
    /// Whether what has this rank stands before what has another.
    pub fn is_before(&self, other: &Rank) -> bool
        ensures { result ≡ before self.now other.now }
    {
        self.at < other.at
            || self.at == other.at
                && (self.tie < other.tie || self.tie == other.tie && self.rest < other.rest)
    }
}

/// A thing that has a rank.
pub trait Ranked: Copy {
    ghost rank: { Self → RankValue };

    fn rank(&self) -> Rank
        ensures { result ≡ rank self.now };
}
