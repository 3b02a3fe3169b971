//! What keeps a new command back that conflicts only with such whose span overlaps its own.
ghost use Rattle.std.specs.Prelude.{◌≡◌, ◌+◌, ◌*◌, ◌≤◌, ◌&&◌, ℕ, List, true, length, nat_eq};
ghost use Rattle.std.specs.List.{count_by, list_any};
ghost use Rattle.std.specs.Bool.{beq};
ghost use Rattle.aoe_hold.specs.declared.command.Command.{Command as CommandValue};
ghost use Rattle.aoe_hold.specs.Commands.{is_write};
ghost use Rattle.aoe_hold.specs.Extents.{goes_by_span, AreKeysOf, Covers};
ghost use Rattle.aoe_hold.specs.HoldTable.{is_ascending};
ghost use Rattle.aoe_hold.specs.Looks.{begins_near, is_near};
ghost use Rattle.aoe_hold.specs.Queue.{IsKeeper, IsKeeperOf};

use crate::command::Command;
use crate::extent::Extent;
use crate::held::HeldCommands;
use crate::keys::Near;
use crate::queue::Keeper;
use aoe_base::{Millis, Steps, Ticket};
use std::sync::ledger::Ledger;

/// What keeps a command back of the one with this ticket, if that is held.
fn keeper_of_one<L: Ledger>(
    commands: &HeldCommands,
    ticket: Ticket,
    command: &Command,
    life: Millis,
    steps: &mut Steps<L>,
) -> Keeper
    requires { is_ascending commands.now.items ≡ true }
    ensures keeper { IsKeeperOf life.0
        (λ e. nat_eq e.ticket.0 ticket.0) commands.now.items command.now result }
    ensures step { steps.new ≡ steps.old + 1 }
{
    let Some(earlier) = commands.look_ticket(ticket, steps) else {
        return Keeper::Clear(0);
    };
    if earlier.blocks(command) {
        return Keeper::Blocker(ticket);
    }
    Keeper::Clear(earlier.lingers_until(command, life))
}

/// The same of those whose keys are left.
fn keeper_of_some<L: Ledger>(
    near: &mut Near<'_>,
    commands: &HeldCommands,
    command: &Command,
    life: Millis,
    steps: &mut Steps<L>,
) -> Keeper
    requires { is_ascending commands.now.items ≡ true }
    ensures keeper { IsKeeperOf life.0 (λ e. list_any
        (λ k. nat_eq e.ticket.0 k.ticket.0) near.old.keys) commands.now.items command.now result }
    ensures steps { steps.new ≤ steps.old + 1 + 2 * length near.old.keys }
{
    let mut from = 0;
    'keys: while let Some(ticket) = near.look_last(steps) {
        match keeper_of_one(commands, ticket, command, life, steps) {
            Keeper::Blocker(ticket) => return Keeper::Blocker(ticket),
            Keeper::Clear(time) => from = from.max(time),
        }
    }
    Keeper::Clear(from)
}

/// The same of those that write, or of the others.
fn keeper_of_sort<L: Ledger>(
    commands: &HeldCommands,
    extent: Extent,
    writes: bool,
    command: &Command,
    life: Millis,
    steps: &mut Steps<L>,
) -> Keeper
    requires ascending { is_ascending commands.now.items ≡ true }
    requires covers { Covers extent commands.now.keys commands.now.items }
    requires spans { goes_by_span extent command.now.kind ≡ true }
    ensures keeper { IsKeeperOf life.0
        (λ e. beq (is_write e.kind) writes) commands.now.items command.now result }
    ensures steps { (held : List CommandValue) → AreKeysOf commands.now.keys held
        → steps.new ≤ steps.old + 1 + 2 * count_by
        (λ e. beq (is_write e.kind) writes && begins_near extent command.now e) held }
{
    let at = u128::from(command.span.at);
    let first = at.saturating_sub(u128::from(extent.reach()));
    let until = at + u128::from(command.span.count);
    let mut near = commands.near(writes, first, until);
    keeper_of_some(&mut near, commands, command, life, steps)
}

/// What keeps a command back that goes by its span and is entered after those that are held.
pub fn keeper_by_span<L: Ledger>(
    commands: &HeldCommands,
    extent: Extent,
    command: &Command,
    life: Millis,
    steps: &mut Steps<L>,
) -> Keeper
    requires ascending { is_ascending commands.now.items ≡ true }
    requires covers { Covers extent commands.now.keys commands.now.items }
    requires spans { goes_by_span extent command.now.kind ≡ true }
    ensures keeper { (latest : ℕ) → IsKeeper life.0 latest commands.now.items command.now result }
    ensures steps { (held : List CommandValue) → AreKeysOf commands.now.keys held
        → steps.new ≤ steps.old + 2 + 2 * count_by (is_near extent command.now) held }
{
    match keeper_of_sort(commands, extent, true, command, life, steps) {
        Keeper::Blocker(ticket) => Keeper::Blocker(ticket),
        Keeper::Clear(from) => {
            if !command.kind.is_write() {
                return Keeper::Clear(from);
            }
            match keeper_of_sort(commands, extent, false, command, life, steps) {
                Keeper::Blocker(ticket) => Keeper::Blocker(ticket),
                Keeper::Clear(time) => Keeper::Clear(from.max(time)),
            }
        }
    }
}
