//! What a command that ended is to a block.
ghost use Rattle.std.specs.Prelude.{◌≡◌, if◌then◌else◌};

use aoe_initiator::{Done, Outcome};

/// What a command that ended is to a block.
#[derive(Drop)]
pub enum Took {
    /// It is none of the block's parts under way.
    NotMine(Done),

    /// It is a part that was read or written, and there are others that weren't.
    More,

    /// It is the part by which all of the block is read or written.
    Whole,

    /// It is a part that wasn't read or written, by this outcome.
    Part(Outcome),
}

impl Took {
    /// Of a part that was read or written: whether all were.
    pub(crate) fn success(all: bool) -> Took
        ensures { result ≡ (if all then Took.Whole else Took.More) }
    {
        if all { Took::Whole } else { Took::More }
    }
}
