//! The held commands.
//!
//! Each call that lets one be seen takes a counter of steps, and counts one for each. So does `Near`
//! for the keys of those that lie near a span. The others change them.
ghost use Rattle.std.specs.Prelude.{◌≡◌, ◌+◌, ◌<◌, ◌≤◌, true, [], ◌∷◌, ◌++◌, length, nat_eq, slice_index_or, slice_set, OnErr, OnOk};
ghost use Rattle.std.specs.BTreeSet.{IsOrdered};
ghost use Rattle.std.specs.List.{filter, find};
ghost use Rattle.aoe_hold.specs.declared.command.Command.{Command};
ghost use Rattle.aoe_hold.specs.Commands.{live};
ghost use Rattle.aoe_hold.specs.Extents.{key_cmp, lies_between, AddsOnly, AreAmong, AreKeysOf, AreLeft, HasKey, IsNonePast};
ghost use Rattle.aoe_hold.specs.HoldTable.{is_ascending, NonePastBefore, OnePastFrom};

use crate::command::{Command, Stage};
use crate::keys::{Key, Near, add_key, drop_past, place_of};
use aoe_base::{Millis, NoMemory, Steps, Ticket};
use std::alloc::Global;
use std::collections::BTreeSet;
use std::marker::Model;
use std::sync::ledger::Ledger;

/// The time before which none of the commands is past, and from which on one is.
fn first_past(commands: &[Command], life: Millis) -> u128
    ensures before { NonePastBefore life.0 result commands.now }
    ensures from { OnePastFrom life.0 result commands.now }
{
    let mut from = u128::MAX;
    'looked: for command in commands {
        from = from.min(command.past_from(life));
    }
    from
}

/// The commands of a device, in the order of their tickets, and the keys by which they are found.
#[derive(Drop)]
pub struct HeldCommands {
    items: Vec<Command>,
    keys: BTreeSet<Key>,
}

impl Model for HeldCommands {
    ghost use Rattle.std.specs.Vec.{vec_capacity};
    ghost use Rattle.aoe_hold.specs.Held.{HeldTable};

    ghost Value = { HeldTable };

    ghost view = { λ held. record { items = held.items.items; keys = held.keys; capacity = vec_capacity held.items } };
}

impl HeldCommands {
    /// No command.
    pub fn new(alloc: Global) -> HeldCommands
        ensures items { result.items ≡ [] }
        ensures keys { AreKeysOf result.keys [] }
    {
        HeldCommands {
            items: Vec::new(alloc),
            keys: BTreeSet::new(alloc),
        }
    }

    /// Gives all commands to look at: a step for each.
    pub fn look_all<L: Ledger>(&self, steps: &mut Steps<L>) -> &[Command]
        ensures value { result.now ≡ self.now.items }
        ensures steps { steps.new ≡ steps.old + length self.now.items }
    {
        steps.add(self.items.len());
        &self.items
    }

    /// Looks at the command with a ticket, which it finds by halves: one step.
    pub fn look_ticket<L: Ledger>(&self, ticket: Ticket, steps: &mut Steps<L>) -> Option<Command>
        requires { is_ascending self.now.items ≡ true }
        ensures value { result ≡ find (λ c. nat_eq c.ticket.0 ticket.0) self.now.items }
        ensures step { steps.new ≡ steps.old + 1 }
    {
        steps.tick();
        let at = place_of(&self.items, ticket)?;
        Some(self.items[at])
    }

    /// The keys of the commands that write, or of the others, whose first sector lies from `first`
    /// on and ahead of `until`.
    pub fn near(&self, writes: bool, first: u128, until: u128) -> Near<'_>
        requires { first ≤ until }
        ensures keys { result.keys ≡ filter (lies_between writes first until) self.now.keys.keys }
        ensures ordered { IsOrdered key_cmp self.now.keys }
    {
        Near::new(&self.keys, writes, first, until)
    }

    /// Whether there is no command.
    pub fn is_empty(&self) -> bool
        ensures { result ≡ nat_eq (length self.now.items) 0 }
    {
        self.items.is_empty()
    }

    /// Makes room for one more command, and adds its key.
    pub fn reserve(&mut self, command: &Command) -> Result<(), NoMemory>
        ensures items { self.new.items ≡ self.old.items }
        ensures place { OnOk result (length self.new.items < self.new.capacity) }
        ensures key { OnOk result (HasKey self.new.keys command.now) }
        ensures keys { AreAmong self.old.keys self.new.keys }
        ensures only { OnOk result (AddsOnly self.old.keys self.new.keys command.now) }
        ensures err { OnErr result (AreAmong self.new.keys self.old.keys) }
    {
        self.items.reserve(1)?;
        add_key(&mut self.keys, command)
    }

    /// Adds a command, for which there is room.
    pub fn push(&mut self, command: Command)
        requires { length self.old.items < self.old.capacity }
        ensures items { self.new.items ≡ self.old.items ++ command ∷ [] }
        ensures keys { self.new.keys ≡ self.old.keys }
    {
        self.items.push_reserved(command);
    }

    /// The stage of the command at a place changes.
    pub fn set_stage(&mut self, at: usize, stage: Stage)
        requires { at < length self.old.items }
        ensures items { (d : Command) → self.new.items
            ≡ slice_set self.old.items at (record
            (slice_index_or self.old.items at d) { stage = stage }) }
        ensures keys { self.new.keys ≡ self.old.keys }
    {
        self.items[at].stage = stage;
    }

    /// Drops the commands that no later answer can go by, with their keys: before `past_from` there
    /// is none, and none is looked at. Returns the time before which none of the others is past.
    pub fn forget<L: Ledger>(
        &mut self,
        life: Millis,
        now: Millis,
        past_from: u128,
        steps: &mut Steps<L>,
    ) -> u128
        requires { NonePastBefore life.0 past_from self.old.items }
        ensures keys { (c : Command) → IsNonePast life.0 now.0 self.old.items c
            → HasKey self.old.keys c → HasKey self.new.keys c }
        ensures left { AreLeft life.0 now.0 self.old.items self.old.keys self.new.keys }
        ensures live { self.new.items ≡ live life.0 now.0 self.old.items }
        ensures none { NonePastBefore life.0 result self.new.items }
        ensures one { OnePastFrom life.0 past_from self.old.items
            → OnePastFrom life.0 result self.new.items }
        ensures fewer { length self.new.items ≤ length self.old.items }
        ensures capacity { self.new.capacity ≡ self.old.capacity }
        ensures steps { steps.new ≤ steps.old + length self.old.items }
        ensures quiet { now.0 < past_from → steps.new ≡ steps.old }
    {
        if u128::from(now.0) < past_from {
            return past_from;
        }
        steps.add(self.items.len());
        drop_past(&mut self.keys, &self.items, life, now);
        self.items.retain(|command| !command.is_past(life, now));
        first_past(&self.items, life)
    }
}
