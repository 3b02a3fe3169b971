//! Places of commands in an order: by their times, their tickets or their tags.
ghost use Rattle.std.specs.Prelude.{◌≡◌, ◌≢◌, ◌<◌, ◌≤◌, ◌∷◌, ℕ, false, true, All, Contains, IfNone, IfSome};
ghost use Rattle.std.specs.List.Sorted.{IsPermutation};
ghost use Rattle.aoe_sorted.specs.Order.{before};
ghost use Rattle.aoe_flight.specs.declared.order.Entry.{Entry as EntryValue};
ghost use Rattle.aoe_flight.specs.Order.{entry_at, rank_of};

use aoe_sorted::{Rank, Ranked, Sorted};

/// A command in an order, which stands in a slot.
#[derive(Clone, Copy)]
pub struct Entry {
    /// What the order goes by: a sum of two times needs more than 64 bits.
    pub at: u128,

    /// What it goes by where that is equal.
    pub tie: u64,

    pub slot: usize,
}

impl Ranked for Entry {
    ghost use Rattle.aoe_flight.specs.Order.{rank_of};

    ghost rank = { rank_of };

    fn rank(&self) -> Rank {
        Rank {
            at: self.at,
            tie: self.tie,
            rest: self.slot as u64,
        }
    }
}

/// Entries in their order.
pub type Order = Sorted<Entry>;

/// The first entry that doesn't stand before another.
pub fn first_from(order: &Order, from: Entry) -> Option<Entry>
    ensures there { IfSome result (λ e. Contains order.now.items e) }
    ensures from { IfSome result (λ e. before (rank_of e) (rank_of from) ≡ false) }
    ensures first { IfSome result (λ e. All (λ other. before (rank_of other) (rank_of from) ≡ false
        → before (rank_of other) (rank_of e) ≡ false) order.now.items) }
    ensures none { IfNone result (All
        (λ other. before (rank_of other) (rank_of from) ≡ true) order.now.items) }
{
    let (_, first) = order.first_from(&from.rank())?;
    Some(first)
}

/// The first slot from `from` on with an entry at a number and without a tie.
pub fn find(order: &Order, at: u128, from: usize) -> Option<usize>
    ensures there { IfSome result (λ slot. Contains order.now.items (entry_at at slot)) }
    ensures from { IfSome result (λ slot. from ≤ slot) }
    ensures first { IfSome result (λ slot. (k : ℕ) → from ≤ k → k < slot
        → ¬ (Contains order.now.items (entry_at at k))) }
    ensures none { IfNone result ((k : ℕ) → from ≤ k
        → ¬ (Contains order.now.items (entry_at at k))) }
{
    let entry = Entry {
        at,
        tie: 0,
        slot: from,
    };
    let first = first_from(order, entry)?;
    if first.at == at && first.tie == 0 {
        Some(first.slot)
    } else {
        None
    }
}

/// Whether an entry stands at a number.
pub fn has(order: &Order, at: u128) -> bool
    ensures some { result ≡ true → (e : EntryValue) × Contains order.now.items e × (e.at ≡ at) }
    ensures none { result ≡ false → (e : EntryValue) → Contains order.now.items e → e.at ≢ at }
{
    let entry = Entry {
        at,
        tie: 0,
        slot: 0,
    };
    match first_from(order, entry) {
        Some(first) => first.at == at,
        None => false,
    }
}

/// Takes an entry out, where it stands there.
pub fn remove(order: &mut Order, entry: Entry)
    ensures taken { Contains order.old.items entry
        → IsPermutation order.old.items (entry ∷ order.new.items) }
    ensures none { ¬ (Contains order.old.items entry) → order.new.items ≡ order.old.items }
    ensures room { order.new.room ≡ order.old.room }
{
    let rank = entry.rank();
    if let Some((place, first)) = order.first_from(&rank)
        && !rank.is_before(&first.rank())
    {
        let _ = order.remove_at(place);
    }
}
