//! Things in the order of their ranks.
ghost use Rattle.std.specs.Prelude.{◌≡◌, ◌<◌, ◌≤◌, ◌∷◌, ◌++◌, length, not, nat_eq, false, true, All, IfNone, IfOk, IfSome, OnOk, Some, option_copied, slice_get};
ghost use Rattle.std.specs.List.{filter, AllWithin};
ghost use Rattle.std.specs.List.Sorted.{IsPermutation};
ghost use Rattle.std.specs.Option.{option_to_list};
ghost use Rattle.aoe_sorted.specs.Order.{before, nothing, AreInOrder};

use crate::rank::{Rank, Ranked};
use aoe_base::NoMemory;
use std::alloc::Global;
use std::collections::VecDeque;
use std::marker::Model;

/// Things in the order of their ranks.
#[derive(Drop)]
pub struct Sorted<T: Ranked> {
    /// For how many there is room.
    room: usize,

    items: VecDeque<T>,
}

impl<T: Ranked> Model for Sorted<T> {
    ghost use Rattle.std.specs.VecDeque.{deque_capacity};
    ghost use Rattle.aoe_sorted.specs.Order.{IsInRoom, SortedTable};

    ghost Value = { SortedTable T };

    ghost view = { λ s. record { room = s.room; items = s.items.items } };

    ghost invariant = { λ s. IsInRoom T.rank s.room (deque_capacity s.items) s.items.items };
}

impl<T: Ranked> Sorted<T> {
    /// Nothing, and no room.
    pub fn new(alloc: Global) -> Sorted<T>
        ensures { result ≡ nothing 0 }
    {
        Sorted {
            room: 0,
            items: VecDeque::new(alloc),
        }
    }

    /// Nothing, and room for so many.
    pub fn with_room(alloc: Global, room: usize) -> Result<Sorted<T>, NoMemory>
        ensures { IfOk result (λ sorted. sorted ≡ nothing room) }
    {
        let items = VecDeque::with_capacity(alloc, room)?;
        Ok(Sorted { room, items })
    }

    /// Makes room for so many.
    pub fn reserve(&mut self, room: usize) -> Result<(), NoMemory>
        requires { length self.old.items ≤ room }
        ensures items { self.new.items ≡ self.old.items }
        ensures room { OnOk result (room ≤ self.new.room) }
        ensures more { self.old.room ≤ self.new.room }
    {
        let more = room - self.items.len();
        self.items.reserve(more)?;
        self.room = self.room.max(room);
        Ok(())
    }

    /// How many there are.
    pub fn len(&self) -> usize
        ensures { result ≡ length self.now.items }
    {
        self.items.len()
    }

    /// The first.
    pub fn front(&self) -> Option<&T>
        ensures value { option_copied result ≡ slice_get self.now.items 0 }
        ensures order { AreInOrder T.rank self.now.items }
    {
        self.items.front()
    }

    /// How many stand before a rank.
    fn place(&self, rank: &Rank) -> usize
        ensures bound { result ≤ length self.now.items }
        ensures low { AllWithin (λ x. before (T.rank x) rank.now ≡ true) self.now.items 0 result }
        ensures high { AllWithin (λ x. before (T.rank x) rank.now ≡ false) self.now.items result
            (length self.now.items) }
    {
        self.items.partition_point(|x| x.rank().is_before(rank))
    }

    /// The first that doesn't stand before a rank, with its place.
    pub fn first_from(&self, rank: &Rank) -> Option<(usize, T)>
        ensures there { IfSome result (λ found. slice_get self.now.items found.0 ≡ Some found.1) }
        ensures from { IfSome result (λ found. before (T.rank found.1) rank.now ≡ false) }
        ensures first { IfSome result (λ found. All (λ x. before (T.rank x) rank.now ≡ false
            → before (T.rank x) (T.rank found.1) ≡ false) self.now.items) }
        ensures none { IfNone result (All (λ x. before (T.rank x) rank.now ≡ true)
            self.now.items) }
    {
        let place = self.place(rank);
        let first = self.items.get(place)?;
        Some((place, *first))
    }

    /// Adds one, for which there is room.
    pub fn insert(&mut self, x: T)
        requires { length self.old.items < self.old.room }
        ensures items { IsPermutation (x ∷ self.old.items) self.new.items }
        ensures room { self.new.room ≡ self.old.room }
    {
        let place = self.place(&x.rank());
        let _ = self.items.insert(place, x);
    }

    /// Takes the first out.
    pub fn pop_front(&mut self) -> Option<T>
        ensures items { self.old.items ≡ option_to_list result ++ self.new.items }
        ensures none { IfNone result (length self.old.items ≡ 0) }
        ensures room { self.new.room ≡ self.old.room }
    {
        self.items.pop_front()
    }

    /// Takes the one at a place out.
    pub fn remove_at(&mut self, place: usize) -> T
        requires { place < length self.old.items }
        ensures there { slice_get self.old.items place ≡ Some result }
        ensures items { IsPermutation self.old.items (result ∷ self.new.items) }
        ensures room { self.new.room ≡ self.old.room }
    {
        self.items.remove(place).unwrap()
    }

    /// Takes those out that have this tie.
    pub fn drop_tie(&mut self, tie: u64)
        ensures items { self.new.items ≡ filter
            (λ x. not (nat_eq (T.rank x).tie tie)) self.old.items }
        ensures room { self.new.room ≡ self.old.room }
    {
        self.items.retain(|x| x.rank().tie != tie);
    }
}
