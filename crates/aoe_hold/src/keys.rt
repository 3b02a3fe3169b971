//! Where the held commands lie, so that a new one meets those alone that its span may overlap.
ghost use Rattle.std.specs.Prelude.{◌≡◌, ◌+◌, ◌≤◌, true, [], ◌∷◌, ◌++◌, nat_eq, position, IfNone, IfSome, OnErr, OnOk};
ghost use Rattle.std.specs.BTreeSet.{IsOrdered};
ghost use Rattle.std.specs.List.{filter};
ghost use Rattle.aoe_hold.specs.declared.command.Command.{Command as CommandValue};
ghost use Rattle.aoe_hold.specs.declared.keys.Key.{Key as KeyValue};
ghost use Rattle.aoe_hold.specs.Extents.{key_cmp, key_of, lies_between, AddsOnly, AreAmong, AreLeft, HasKey, IsNonePast};
ghost use Rattle.aoe_hold.specs.HoldTable.{is_ascending};

use crate::command::Command;
use aoe_base::{Millis, NoMemory, Steps, Ticket};
use std::collections::BTreeSet;
use std::collections::btree_set::Range;
use std::sync::ledger::Ledger;

/// What a held command is found by.
#[derive(Clone, Copy, PartialEq, Eq, PartialOrd, Ord)]
pub struct Key {
    writes: bool,

    /// Its first sector. That behind its last one needs more than 64 bits.
    first: u128,

    ticket: Ticket,
}

impl Key {
    fn of(command: &Command) -> Key
        ensures { result ≡ key_of command.now }
    {
        Key {
            writes: command.kind.is_write(),
            first: u128::from(command.span.at),
            ticket: command.ticket,
        }
    }
}

/// Adds the key of a command.
pub fn add_key(keys: &mut BTreeSet<Key>, command: &Command) -> Result<(), NoMemory>
    ensures added { OnOk result (HasKey keys.new command.now) }
    ensures more { AreAmong keys.old keys.new }
    ensures only { OnOk result (AddsOnly keys.old keys.new command.now) }
    ensures err { OnErr result (AreAmong keys.new keys.old) }
{
    keys.insert(Key::of(command))?;
    Ok(())
}

/// Drops the keys of the commands that are past, and no others.
pub fn drop_past(keys: &mut BTreeSet<Key>, commands: &[Command], life: Millis, now: Millis)
    ensures kept { (c : CommandValue) → IsNonePast life.0 now.0 commands.now c → HasKey keys.old c
        → HasKey keys.new c }
    ensures left { AreLeft life.0 now.0 commands.now keys.old keys.new }
{
    'held: for command in commands {
        if command.is_past(life, now) {
            keys.remove(&Key::of(command));
        }
    }
}

/// The keys of a range that weren't looked at yet.
#[derive(Drop)]
pub struct Near<'a> {
    keys: Range<'a, Key>,
}

impl<'a> Near<'a> {
    /// Those of the commands that write, or of the others, whose first sector lies from `first` on
    /// and ahead of `until`.
    pub fn new(keys: &'a BTreeSet<Key>, writes: bool, first: u128, until: u128) -> Near<'a>
        requires { first ≤ until }
        ensures keys { result.keys ≡ filter (lies_between writes first until) keys.now.keys }
        ensures ordered { IsOrdered key_cmp keys.now }
    {
        let low = Key {
            writes,
            first,
            ticket: Ticket(0),
        };
        let high = Key {
            writes,
            first: until,
            ticket: Ticket(0),
        };
        Near {
            keys: keys.range(low..high),
        }
    }

    /// Looks at the last of them, and gives the ticket of its command: one step.
    pub fn look_last<L: Ledger>(&mut self, steps: &mut Steps<L>) -> Option<Ticket>
        ensures some { IfSome result (λ ticket. (key : KeyValue) × (key.ticket ≡ ticket)
            × (self.old.keys ≡ self.new.keys ++ key ∷ [])) }
        ensures none { IfNone result (self.old.keys ≡ []) }
        ensures step { steps.new ≡ steps.old + 1 }
    {
        steps.tick();
        let key = self.keys.next_back()?;
        Some(key.ticket)
    }
}

/// Where the command with a ticket stands.
pub fn place_of(commands: &[Command], ticket: Ticket) -> Option<usize>
    requires { is_ascending commands.now ≡ true }
    ensures { result ≡ position (λ c. nat_eq c.ticket.0 ticket.0) commands.now }
{
    let at = commands.partition_point(|command| command.ticket < ticket);
    match commands.get(at) {
        Some(command) if command.ticket == ticket => Some(at),
        _ => None,
    }
}
