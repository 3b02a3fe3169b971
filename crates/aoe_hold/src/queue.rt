//! Commands that wait, in the order of what they wait for.
//!
//! Each call that lets one be seen takes a counter of steps, and counts one for each. The others
//! change the queue.
ghost use Rattle.std.specs.Prelude.{◌≡◌, ◌+◌, ◌<◌, ◌≤◌, ◌∷◌, ◌++◌, length, not, nat_eq, false, true, All, IfNone, IfSome, OnOk, option_copied, slice_get};
ghost use Rattle.std.specs.List.{filter};
ghost use Rattle.std.specs.List.Sorted.{IsPermutation};
ghost use Rattle.aoe_sorted.specs.Order.{nothing};
ghost use Rattle.aoe_hold.specs.Queue.{IsInOrder};

use crate::command::Command;
use aoe_base::{Millis, NoMemory, Steps, Ticket};
use aoe_sorted::{Rank, Ranked, Sorted};
use std::alloc::Global;
use std::marker::Model;
use std::sync::ledger::Ledger;

/// What keeps a command back.
#[derive(Clone, Copy)]
pub enum Keeper {
    /// An earlier one in conflict that is unfinished.
    Blocker(Ticket),

    /// There is none, and from this time on no frame can arrive that the command waits for.
    Clear(u128),
}

/// A command that was never sent.
#[derive(Clone, Copy)]
pub struct Waiter {
    pub command: Command,

    /// What the command waits for: the ticket of an earlier one in conflict that is unfinished, or,
    /// where there is none, the time from which no frame can arrive that it waits for. A sum of
    /// two times and one needs more than 64 bits.
    pub from: u128,
}

impl Ranked for Waiter {
    ghost use Rattle.aoe_hold.specs.Queue.{rank_of};

    ghost rank = { rank_of };

    fn rank(&self) -> Rank {
        Rank {
            at: self.from,
            tie: self.command.ticket.0,
            rest: 0,
        }
    }
}

/// Such commands, in the order of what they wait for and of their tickets.
#[derive(Drop)]
pub struct Queue {
    waiters: Sorted<Waiter>,
}

impl Model for Queue {
    ghost use Rattle.aoe_hold.specs.Queue.{QueueTable};

    ghost Value = { QueueTable };

    ghost view = { λ q. q.waiters };
}

impl Queue {
    /// No command waits.
    pub fn new(alloc: Global) -> Queue
        ensures { result ≡ nothing 0 }
    {
        Queue {
            waiters: Sorted::new(alloc),
        }
    }

    /// Makes room for so many commands.
    pub fn reserve(&mut self, room: u32) -> Result<(), NoMemory>
        requires { length self.old.items ≤ room }
        ensures waiters { self.new.items ≡ self.old.items }
        ensures room { OnOk result (room ≤ self.new.room) }
        ensures more { self.old.room ≤ self.new.room }
    {
        self.waiters.reserve(room as usize)
    }

    /// Looks at the first command: one step.
    pub fn look<L: Ledger>(&self, steps: &mut Steps<L>) -> Option<&Waiter>
        ensures value { option_copied result ≡ slice_get self.now.items 0 }
        ensures order { IsInOrder self.now.items }
        ensures step { steps.new ≡ steps.old + 1 }
    {
        steps.tick();
        self.waiters.front()
    }

    /// Takes the first command out, where its time is past: one step.
    pub fn pop_past<L: Ledger>(&mut self, now: Millis, steps: &mut Steps<L>) -> Option<Waiter>
        ensures some { IfSome result (λ w. (w.from ≤ now.0)
            × (self.old.items ≡ w ∷ self.new.items)) }
        ensures none { IfNone result (self.new.items ≡ self.old.items) }
        ensures late { IfNone result (All (λ w. now.0 < w.from) self.old.items) }
        ensures room { self.new.room ≡ self.old.room }
        ensures step { steps.new ≡ steps.old + 1 }
    {
        match self.look(steps) {
            Some(first) if first.from <= u128::from(now.0) => self.waiters.pop_front(),
            Some(_) | None => None,
        }
    }

    /// Takes the first command out, where it has this ticket: one step.
    pub fn pop_ticket<L: Ledger>(&mut self, ticket: Ticket, steps: &mut Steps<L>) -> Option<Waiter>
        ensures some { IfSome result (λ w. (nat_eq w.command.ticket.0 ticket.0 ≡ true)
            × (self.old.items ≡ w ∷ self.new.items)) }
        ensures none { IfNone result (self.new.items ≡ self.old.items) }
        ensures room { self.new.room ≡ self.old.room }
        ensures step { steps.new ≡ steps.old + 1 }
    {
        steps.tick();
        if self.waiters.front()?.command.ticket != ticket {
            return None;
        }
        self.waiters.pop_front()
    }

    /// Takes a command out that waits for this: one step.
    pub fn pop_from<L: Ledger>(&mut self, from: u128, steps: &mut Steps<L>) -> Option<Waiter>
        ensures some { IfSome result (λ w. (w.from ≡ from)
            × IsPermutation self.old.items (w ∷ self.new.items)) }
        ensures none { IfNone result (self.new.items ≡ self.old.items) }
        ensures out { IfNone result (All (λ w. nat_eq w.from from ≡ false) self.old.items) }
        ensures room { self.new.room ≡ self.old.room }
        ensures step { steps.new ≡ steps.old + 1 }
    {
        steps.tick();
        let (place, first) = self.waiters.first_from(&Rank {
            at: from,
            tie: 0,
            rest: 0,
        })?;
        if first.from != from {
            return None;
        }
        Some(self.waiters.remove_at(place))
    }

    /// Adds a command, for which there is room.
    pub fn insert(&mut self, waiter: Waiter)
        requires { length self.old.items < self.old.room }
        ensures waiters { IsPermutation (waiter ∷ self.old.items) self.new.items }
        ensures room { self.new.room ≡ self.old.room }
    {
        self.waiters.insert(waiter);
    }

    /// Takes a command out: a step for each that waits.
    pub fn remove<L: Ledger>(&mut self, ticket: Ticket, steps: &mut Steps<L>)
        ensures waiters { self.new.items ≡ filter
            (λ w. not (nat_eq w.command.ticket.0 ticket.0)) self.old.items }
        ensures room { self.new.room ≡ self.old.room }
        ensures steps { steps.new ≡ steps.old + length self.old.items }
    {
        steps.add(self.waiters.len());
        self.waiters.drop_tie(ticket.0);
    }
}
