//! Things in an order, in room that is made ahead.
//!
//! Each thing has a `Rank`, three numbers by which it is ordered. `Sorted` keeps them so: it finds
//! the first from a rank on by halves, and moves no more than half of them to add or take out one.
//!
//! Promised: `Sorted` is in order at all times (`AreInOrder`), and `front` is its first thing.
//! `first_from` returns the first thing that isn't before a rank, with its place, or nothing where
//! each is before it. `insert` adds just one thing and `remove_at` takes just one out, `pop_front`
//! takes the first, `drop_tie` those with one tie. No call but `reserve` changes the room, which
//! never becomes less.
//!
//! Only tested: nothing. That a search goes by halves, and how many things a call moves, is read
//! off the code.
#![tactic(auto)]

mod rank;
mod sorted;

pub use rank::{Rank, Ranked};
pub use sorted::Sorted;
