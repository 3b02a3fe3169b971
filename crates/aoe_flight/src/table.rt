//! The commands that were sent, each in a slot, and the orders by which they are found.
//!
//! Each call that lets a command be seen takes a counter of steps, and counts one for each that it
//! gives. The others change the table.
ghost use Rattle.std.specs.Prelude.{◌≡◌, ◌+◌, ◌-◌, ◌^◌, ◌<◌, ◌≤◌, ◌∷◌, ℕ, [], false, true, length, map, None, Some, All, IfNone, IfOk, IfSome, slice_set};
ghost use Rattle.std.specs.List.{find};
ghost use Rattle.std.specs.List.Sorted.{IsPermutation};
ghost use Rattle.slab.specs.Slab.{get, slab_len, values, with_value};
ghost use Rattle.aoe_flight.specs.declared.outstanding.Outstanding.{Outstanding};
ghost use Rattle.aoe_sorted.specs.Order.{nothing};
ghost use Rattle.aoe_flight.specs.Outstanding.{after_finish, after_repeat, change_of, flies_above, flies_as, flies_with, is_earlier, is_older, is_over, is_taken, launched, live, lower, precedes, tag_after, IsFirst, IsNextTag};
ghost use Rattle.aoe_flight.specs.Table.{flies, rests, IsFirstSlot};

use crate::order::{Entry, Order, find, first_from, has, remove};
use crate::outstanding::Outstanding;
use aoe_base::{Millis, NoMemory, PathNo, Steps, Ticket};
use slab::Slab;
use std::alloc::Global;
use std::marker::Model;
use std::sync::ledger::Ledger;

/// The greatest tag: a frame has 32 bits for it (AoEr11, "Tag"). Tags go from 1 to it and round.
const MAX_TAG: u32 = u32::MAX;

/// The commands that fly or rest. A tag is found by its place in an order of all tags, a ticket in
/// one of the flying tickets, and that order names the slot. All room is made by `new`.
#[derive(Drop)]
pub struct Table {
    slots: Slab<Outstanding>,

    /// All of them, by their tags.
    tags: Order,

    /// The flying ones, by their tickets.
    tickets: Order,

    /// The flying ones, by the times at which they are due.
    dues: Order,

    /// The flying ones, by the times of their first sends.
    firsts: Order,

    /// The resting ones, by the times of their last sends.
    rests: Order,
}

impl Model for Table {
    ghost use Rattle.slab.specs.Slab.{Slab};
    ghost use Rattle.aoe_flight.specs.declared.outstanding.Outstanding.{Outstanding};
    ghost use Rattle.aoe_flight.specs.Table.{IsIndexed};

    ghost Value = { Slab Outstanding };

    ghost view = { λ t. t.slots };

    ghost invariant = { λ t. IsIndexed t.slots t.tags t.tickets t.dues t.firsts t.rests };
}

impl Table {
    /// No command, and room for so many.
    pub fn new(alloc: Global, room: usize) -> Result<Table, NoMemory>
        ensures empty { IfOk result (λ table. values table ≡ []) }
        ensures room { IfOk result (λ table. room ≤ table.capacity) }
    {
        let slots = Slab::with_capacity(alloc, room)?;
        let room = slots.capacity();
        let tags = Order::with_room(alloc, room)?;
        let rests = Order::with_room(alloc, room)?;
        let (tickets, dues, firsts) = flying_orders(alloc, room)?;
        Ok(Table {
            slots,
            tags,
            tickets,
            dues,
            firsts,
            rests,
        })
    }

    /// How many commands fly or rest.
    pub fn len(&self) -> usize
        ensures { result ≡ length (values self.now) }
    {
        self.slots.len()
    }

    /// The first slot from `from` on whose command flies and has the ticket.
    fn flying_slot(&self, ticket: Ticket, from: usize) -> Option<(usize, Outstanding)>
        ensures some { IfSome result (λ found. IsFirstSlot
            (flies_as ticket.0) self.now from found.0 found.1) }
        ensures none { IfNone result ((k : ℕ) (c : Outstanding) → from ≤ k → get self.now k ≡ Some c
            → flies_as ticket.0 c ≡ false) }
    {
        let slot = find(&self.tickets, u128::from(ticket.0), from)?;
        let command = self.slots.get(slot)?;
        Some((slot, *command))
    }

    /// Looks at the flying command with a ticket: one step.
    pub fn look_ticket<L: Ledger>(
        &self,
        ticket: Ticket,
        steps: &mut Steps<L>,
    ) -> Option<Outstanding>
        ensures value { result ≡ find (flies_as ticket.0) (values self.now) }
        ensures step { steps.new ≡ steps.old + 1 }
    {
        steps.tick();
        match self.flying_slot(ticket, 0) {
            Some((_, command)) => Some(command),
            None => None,
        }
    }

    /// Looks at the flying command with a tag: one step.
    pub fn look_tag<L: Ledger>(&self, tag: u32, steps: &mut Steps<L>) -> Option<Outstanding>
        ensures value { result ≡ find (flies_with tag) (values self.now) }
        ensures step { steps.new ≡ steps.old + 1 }
    {
        steps.tick();
        let slot = find(&self.tags, u128::from(tag), 0)?;
        self.slots.get(slot).copied()
    }

    /// Looks at the flying command that is due first: one step.
    pub fn look_due<L: Ledger>(&self, steps: &mut Steps<L>) -> Option<&Outstanding>
        ensures first { IfSome result (λ c. IsFirst flies precedes (values self.now) c.now) }
        ensures none { IfNone result (All (λ c. flies c ≡ false) (values self.now)) }
        ensures step { steps.new ≡ steps.old + 1 }
    {
        steps.tick();
        let first = self.dues.front()?;
        let command = self.slots.get(first.slot)?;
        Some(command)
    }

    /// Looks at the command that flies for longest: one step.
    pub fn look_oldest<L: Ledger>(&self, steps: &mut Steps<L>) -> Option<&Outstanding>
        ensures first { IfSome result (λ c. IsFirst flies is_older (values self.now) c.now) }
        ensures none { IfNone result (All (λ c. flies c ≡ false) (values self.now)) }
        ensures step { steps.new ≡ steps.old + 1 }
    {
        steps.tick();
        let first = self.firsts.front()?;
        let command = self.slots.get(first.slot)?;
        Some(command)
    }

    /// Looks at the resting command that was sent longest ago: one step.
    pub fn look_rested<L: Ledger>(&self, steps: &mut Steps<L>) -> Option<&Outstanding>
        ensures first { IfSome result (λ c. IsFirst rests is_earlier (values self.now) c.now) }
        ensures none { IfNone result (All (λ c. rests c ≡ false) (values self.now)) }
        ensures step { steps.new ≡ steps.old + 1 }
    {
        steps.tick();
        let first = self.rests.front()?;
        let command = self.slots.get(first.slot)?;
        Some(command)
    }

    /// Looks at the flying command with the lowest ticket above another: one step.
    pub fn look_above<L: Ledger>(&self, above: Ticket, steps: &mut Steps<L>) -> Option<&Outstanding>
        ensures first { IfSome result (λ c. IsFirst (flies_above above.0) lower (values self.now) c.now) }
        ensures none { IfNone result (All (λ c. flies_above above.0 c ≡ false) (values self.now)) }
        ensures step { steps.new ≡ steps.old + 1 }
    {
        steps.tick();
        let from = Entry {
            at: u128::from(above.0) + 1,
            tie: 0,
            slot: 0,
        };
        let first = first_from(&self.tickets, from)?;
        let command = self.slots.get(first.slot)?;
        Some(command)
    }

    /// Gives all commands to look at: a step for each.
    pub fn look_all<L: Ledger>(&self, steps: &mut Steps<L>) -> &Slab<Outstanding>
        ensures value { result.now ≡ self.now }
        ensures steps { steps.new ≡ steps.old + length (values self.now) }
    {
        steps.add(self.len());
        &self.slots
    }

    /// Whether a flying or resting command has the tag.
    fn is_taken(&self, tag: u32) -> bool
        ensures { result ≡ is_taken (values self.now) tag }
    {
        has(&self.tags, u128::from(tag))
    }

    /// A command that rested out.
    fn over_slot(&self, rest: Millis, now: Millis) -> Option<(usize, Outstanding)>
        ensures some { IfSome result (λ found. (get self.now found.0 ≡ Some found.1)
            × (is_over rest.0 now.0 found.1 ≡ true)) }
        ensures none { IfNone result (All (λ c. is_over rest.0 now.0 c ≡ false) (values self.now)) }
    {
        let first = self.rests.front()?;
        let command = self.slots.get(first.slot)?;
        if command.is_over(rest, now) {
            Some((first.slot, *command))
        } else {
            None
        }
    }

    /// Looks whether a command rested out: one step.
    pub fn is_any_over<L: Ledger>(&self, rest: Millis, now: Millis, steps: &mut Steps<L>) -> bool
        ensures some { result ≡ true → length (live rest.0 now.0 (values self.now)) < length
            (values self.now) }
        ensures none { result ≡ false → live rest.0 now.0 (values self.now) ≡ values self.now }
        ensures step { steps.new ≡ steps.old + 1 }
    {
        steps.tick();
        self.over_slot(rest, now).is_some()
    }

    /// Takes the command out of a slot in which it rested out.
    fn drop_slot(&mut self, slot: usize, command: Outstanding)
        requires there { get self.old slot ≡ Some command }
        requires rests { command.finished ≡ true }
        ensures slots { self.new.slots ≡ slice_set self.old.slots slot None }
        ensures capacity { self.new.capacity ≡ self.old.capacity }
        ensures len { slab_len self.new + 1 ≡ slab_len self.old }
    {
        let _ = self.slots.remove(slot);
        remove(&mut self.tags, command.by_tag(slot));
        remove(&mut self.rests, command.by_last(slot));
    }

    /// Drops the commands that rested out.
    pub fn forget(&mut self, rest: Millis, now: Millis)
        ensures values { values self.new ≡ live rest.0 now.0 (values self.old) }
        ensures capacity { self.new.capacity ≡ self.old.capacity }
    {
        'over: while let Some((slot, command)) = self.over_slot(rest, now) {
            self.drop_slot(slot, command);
        }
    }

    /// The slots end before this number. A walk over them asks for it since its proof counts by it.
    fn end(&self) -> usize
        ensures { length self.now.slots ≤ result }
    {
        self.slots.capacity()
    }

    /// Ends the flying command in a slot.
    fn finish_slot(&mut self, slot: usize, command: Outstanding)
        requires there { get self.old slot ≡ Some command }
        requires flies { command.finished ≡ false }
        ensures { self.new ≡ with_value self.old slot (after_finish command) }
    {
        let finished = Outstanding {
            finished: true,
            ..command
        };
        self.slots[slot] = finished;
        remove(&mut self.tags, command.by_tag(slot));
        remove(&mut self.tickets, command.by_ticket(slot));
        remove(&mut self.dues, command.by_due(slot));
        remove(&mut self.firsts, command.by_first(slot));
        self.tags.insert(finished.by_tag(slot));
        self.rests.insert(finished.by_last(slot));
    }

    /// Ends the flying command with a ticket.
    pub fn finish(&mut self, ticket: Ticket)
        ensures values { values self.new
            ≡ map (change_of ticket.0 after_finish) (values self.old) }
        ensures capacity { self.new.capacity ≡ self.old.capacity }
    {
        let end = self.end();
        let mut from = 0;
        'flying: while let Some((slot, command)) = self.flying_slot(ticket, from) {
            self.finish_slot(slot, command);
            from = slot + 1;
        }
    }

    /// Takes note that the flying command in a slot was sent again.
    fn repeat_slot(
        &mut self,
        slot: usize,
        command: Outstanding,
        now: Millis,
        path: PathNo,
        wait: Millis,
    )
        requires there { get self.old slot ≡ Some command }
        requires flies { command.finished ≡ false }
        ensures { self.new ≡ with_value self.old slot (after_repeat now path wait command) }
    {
        let repeated = command.repeated(now, path, wait);
        self.slots[slot] = repeated;
        remove(&mut self.dues, command.by_due(slot));
        self.dues.insert(repeated.by_due(slot));
    }

    /// Takes note that the flying command with a ticket was sent again.
    pub fn repeat(&mut self, ticket: Ticket, now: Millis, path: PathNo, wait: Millis)
        ensures values { values self.new
            ≡ map (change_of ticket.0 (after_repeat now path wait)) (values self.old) }
        ensures capacity { self.new.capacity ≡ self.old.capacity }
    {
        let end = self.end();
        let mut from = 0;
        'flying: while let Some((slot, command)) = self.flying_slot(ticket, from) {
            self.repeat_slot(slot, command, now, path, wait);
            from = slot + 1;
        }
    }

    /// The first tag after `last` that no flying or resting command has.
    fn next_tag(&self, last: u32) -> u32
        requires { length (values self.now) < 2 ^ 32 - 1 }
        ensures { IsNextTag (values self.now) last result }
    {
        let mut steps = 0;
        let mut tag = tag_after(last, steps);
        'passed: while self.is_taken(tag) {
            steps += 1;
            tag = tag_after(last, steps);
        }
        tag
    }

    /// Adds a flying command, for which there is room.
    fn insert(&mut self, command: Outstanding)
        requires flies { command.finished ≡ false }
        requires room { length (values self.old) < self.old.capacity }
        ensures values { IsPermutation (command ∷ values self.old) (values self.new) }
        ensures capacity { self.new.capacity ≡ self.old.capacity }
    {
        let slot = self.slots.insert_reserved(command);
        self.tags.insert(command.by_tag(slot));
        self.tickets.insert(command.by_ticket(slot));
        self.dues.insert(command.by_due(slot));
        self.firsts.insert(command.by_first(slot));
    }

    /// Adds a flying command, for which there is room, at its first send. Gives its tag, the first
    /// after `last` that is free.
    pub fn launch(
        &mut self,
        ticket: Ticket,
        last: u32,
        now: Millis,
        path: PathNo,
        wait: Millis,
    ) -> u32
        requires room { length (values self.old) < self.old.capacity }
        requires tags { length (values self.old) < 2 ^ 32 - 1 }
        ensures tag { IsNextTag (values self.old) last result }
        ensures values { IsPermutation (launched ticket result now path wait ∷ values self.old)
            (values self.new) }
        ensures capacity { self.new.capacity ≡ self.old.capacity }
    {
        let tag = self.next_tag(last);
        let command = Outstanding::launched(ticket, tag, now, path, wait);
        self.insert(command);
        tag
    }
}

/// The orders in which no command flies: by tickets, by the times at which commands are due, and by
/// those of their first sends.
fn flying_orders(alloc: Global, room: usize) -> Result<(Order, Order, Order), NoMemory>
    ensures { IfOk result (λ orders. orders ≡ (nothing room, nothing room, nothing room)) }
{
    let tickets = Order::with_room(alloc, room)?;
    let dues = Order::with_room(alloc, room)?;
    let firsts = Order::with_room(alloc, room)?;
    Ok((tickets, dues, firsts))
}

/// The tag that comes `steps` steps after the next of `last`.
fn tag_after(last: u32, steps: u32) -> u32
    requires { steps < 2 ^ 32 - 1 }
    ensures { result ≡ tag_after last steps }
{
    let tag = u64::from(last) + u64::from(steps) + 1;
    if tag <= u64::from(MAX_TAG) {
        tag as u32
    } else {
        (tag - u64::from(MAX_TAG)) as u32
    }
}
