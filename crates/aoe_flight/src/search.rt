//! Which command is due or expired, and from when on one is, by counted looks at the commands.
ghost use Rattle.std.specs.Prelude.{◌≡◌, ◌+◌, ◌^◌, ◌<◌, ◌≤◌, ℕ, false, length, nat_le, None, All, IfNone, IfSome};
ghost use Rattle.std.specs.List.{list_any};
ghost use Rattle.slab.specs.Slab.{values};
ghost use Rattle.aoe_flight.specs.declared.outstanding.Outstanding.{Outstanding};
ghost use Rattle.aoe_flight.specs.Outstanding.{best, is_better, is_due, is_expired, is_over, lower, precedes, IsFirst};

use crate::outstanding::Outstanding;
use crate::table::Table;
use aoe_base::{Millis, Steps, Ticket};
use slab::Slab;
use std::sync::ledger::Ledger;

/// The command that is due first, where it is due: one step.
pub fn first_due<L: Ledger>(commands: &Table, now: Millis, steps: &mut Steps<L>) -> Option<Ticket>
    requires { All (λ c. c.flying.last.0 ≤ now.0) (values commands.now) }
    ensures first { IfSome result (λ ticket. (c : Outstanding) × (c.ticket ≡ ticket)
        × IsFirst (is_due now.0) precedes (values commands.now) c) }
    ensures none { IfNone result (All (λ c. is_due now.0 c ≡ false) (values commands.now)) }
    ensures step { steps.new ≡ steps.old + 1 }
{
    let command = commands.look_due(steps)?;
    if command.is_due(now) {
        Some(command.ticket)
    } else {
        None
    }
}

/// The expired command with the lowest ticket. Where the command that flies for longest isn't
/// expired, none is: one step.
pub fn first_expired<L: Ledger>(
    commands: &Table,
    dead: Millis,
    now: Millis,
    steps: &mut Steps<L>,
) -> Option<Outstanding>
    ensures value { result ≡ best (is_expired dead.0 now.0) lower None (values commands.now) }
    ensures one { IfNone result (steps.new ≡ steps.old + 1) }
    ensures steps { steps.new ≤ steps.old + 1 + length (values commands.now) }
{
    let oldest = commands.look_oldest(steps)?;
    if !oldest.is_expired(dead, now) {
        return None;
    }
    lowest_expired(commands.look_all(steps), dead, now)
}

/// The expired command with the lowest ticket.
fn lowest_expired(commands: &Slab<Outstanding>, dead: Millis, now: Millis) -> Option<Outstanding>
    ensures { result ≡ best (is_expired dead.0 now.0) lower None (values commands.now) }
{
    let mut first: Option<Outstanding> = None;
    'commands: for (_, command) in commands.iter() {
        if command.is_expired(dead, now) && is_lower(first, *command) {
            first = Some(*command);
        }
    }
    first
}

fn is_lower(first: Option<Outstanding>, command: Outstanding) -> bool
    ensures { result ≡ is_better lower command first }
{
    match first {
        Some(first) => command.ticket < first.ticket,
        None => true,
    }
}

/// The time from which on a command is due: one step.
pub fn due_from<L: Ledger>(commands: &Table, steps: &mut Steps<L>) -> u128
    ensures time { (now : ℕ) → now < 2 ^ 64 → All (λ c. c.flying.last.0 ≤ now) (values commands.now)
        → list_any (is_due now) (values commands.now) ≡ nat_le result now }
    ensures step { steps.new ≡ steps.old + 1 }
{
    match commands.look_due(steps) {
        Some(command) => command.due_from(),
        None => u128::MAX,
    }
}

/// The time from which on a command is expired: one step.
pub fn expired_from<L: Ledger>(commands: &Table, dead: Millis, steps: &mut Steps<L>) -> u128
    requires { 0 < dead.0 }
    ensures time { (now : ℕ) → now < 2 ^ 64
        → list_any (is_expired dead.0 now) (values commands.now) ≡ nat_le result now }
    ensures step { steps.new ≡ steps.old + 1 }
{
    match commands.look_oldest(steps) {
        Some(command) => command.expired_from(dead),
        None => u128::MAX,
    }
}

/// The time from which on a command has rested out: one step.
pub fn over_from<L: Ledger>(commands: &Table, rest: Millis, steps: &mut Steps<L>) -> u128
    ensures time { (now : ℕ) → now < 2 ^ 64
        → list_any (is_over rest.0 now) (values commands.now) ≡ nat_le result now }
    ensures step { steps.new ≡ steps.old + 1 }
{
    match commands.look_rested(steps) {
        Some(command) => command.over_from(rest),
        None => u128::MAX,
    }
}
