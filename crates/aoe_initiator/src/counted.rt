//! Searches in the tables of a host. No bound on their steps is claimed here: each has a counter of
//! its own.
ghost use Rattle.std.specs.Prelude.{◌≡◌, ◌^◌, ◌<◌, ◌≤◌, ℕ, List, [], false, length, nat_le, nat_lt, All, Contains, IfNone, IfSome};
ghost use Rattle.std.specs.List.{list_any};
ghost use Rattle.aoe_flight.specs.declared.outstanding.Outstanding.{Outstanding};
ghost use Rattle.aoe_flight.specs.FlightTable.{Recalls};
ghost use Rattle.aoe_flight.specs.Outstanding.{flies_above, is_due, is_expired, live, lower, precedes, IsFirst};
ghost use Rattle.aoe_hold.specs.declared.command.Command.{Command};
ghost use Rattle.aoe_hold.specs.Commands.{clear_tickets};
ghost use Rattle.aoe_hold.specs.HoldTable.{at_time, Recalls as RecallsEntered};

use aoe_base::{Millis, Steps, Ticket};
use aoe_flight::{Flight, Times};
use aoe_hold::Holds;
use std::marker::Brand;
use std::sync::ledger::{Blank, Ledger};

fn counted_due<L: Ledger>(flight: &Flight, now: Millis, blank: Blank) -> Option<Ticket>
    requires time { flight.now.latest ≤ now.0 }
    requires name { blank.name ≡ L.name }
    requires parts { blank.parts ≡ L.parts }
    requires some { 0 < blank.parts }
    ensures first { IfSome result (λ ticket.
        (c : Outstanding) × (c.ticket ≡ ticket)
        × IsFirst (is_due now.0) precedes flight.now.commands c) }
    ensures first_sent { IfSome result (λ ticket.
        (sent : List Outstanding) → Recalls flight.now sent
        → (c : Outstanding) × (c.ticket ≡ ticket) × IsFirst (is_due now.0) precedes sent c) }
    ensures none_sent { IfNone result ((sent : List Outstanding) → Recalls flight.now sent
        → All (λ c. is_due now.0 c ≡ false) sent) }
{
    let mut steps = Steps::<L>::new(blank);
    flight.due(now, &mut steps)
}

/// The command to be sent again, if there is one.
pub(crate) fn first_due(flight: &Flight, now: Millis) -> Option<Ticket>
    requires { flight.now.latest ≤ now.0 }
    ensures first { IfSome result (λ ticket.
        (c : Outstanding) × (c.ticket ≡ ticket)
        × IsFirst (is_due now.0) precedes flight.now.commands c) }
    ensures first_sent { IfSome result (λ ticket.
        (sent : List Outstanding) → Recalls flight.now sent
        → (c : Outstanding) × (c.ticket ≡ ticket) × IsFirst (is_due now.0) precedes sent c) }
    ensures none_sent { IfNone result ((sent : List Outstanding) → Recalls flight.now sent
        → All (λ c. is_due now.0 c ≡ false) sent) }
{
    counted_due::<Brand>(flight, now, Blank::new(1))
}

fn counted_expired<L: Ledger>(flight: &Flight, now: Millis, blank: Blank) -> Option<Ticket>
    requires name { blank.name ≡ L.name }
    requires parts { blank.parts ≡ L.parts }
    requires some { 0 < blank.parts }
    ensures first { IfSome result (λ ticket.
        (c : Outstanding) × (c.ticket ≡ ticket)
        × IsFirst (is_expired flight.now.dead now.0) lower flight.now.commands c) }
    ensures first_sent { IfSome result (λ ticket.
        (sent : List Outstanding) → Recalls flight.now sent
        → (c : Outstanding) × (c.ticket ≡ ticket)
        × IsFirst (is_expired flight.now.dead now.0) lower sent c) }
    ensures none_sent { IfNone result ((sent : List Outstanding) → Recalls flight.now sent
        → All (λ c. is_expired flight.now.dead now.0 c ≡ false) sent) }
{
    let mut steps = Steps::<L>::new(blank);
    flight.expired(now, &mut steps)
}

/// The command to be given up, if there is one.
pub(crate) fn first_expired(flight: &Flight, now: Millis) -> Option<Ticket>
    ensures first { IfSome result (λ ticket.
        (c : Outstanding) × (c.ticket ≡ ticket)
        × IsFirst (is_expired flight.now.dead now.0) lower flight.now.commands c) }
    ensures first_sent { IfSome result (λ ticket.
        (sent : List Outstanding) → Recalls flight.now sent
        → (c : Outstanding) × (c.ticket ≡ ticket)
        × IsFirst (is_expired flight.now.dead now.0) lower sent c) }
    ensures none_sent { IfNone result ((sent : List Outstanding) → Recalls flight.now sent
        → All (λ c. is_expired flight.now.dead now.0 c ≡ false) sent) }
{
    counted_expired::<Brand>(flight, now, Blank::new(1))
}

fn counted_clear<L: Ledger>(holds: &mut Holds, now: Millis, blank: Blank) -> Option<Ticket>
    requires time { holds.old.latest ≤ now.0 }
    requires name { blank.name ≡ L.name }
    requires parts { blank.parts ≡ L.parts }
    requires some { 0 < blank.parts }
    ensures clear { IfSome result (λ ticket.
        (entered : List Command) → RecallsEntered holds.old entered
        → Contains (clear_tickets holds.old.life now.0 entered) ticket.0) }
    ensures lowest { IfSome result (λ ticket.
        (entered : List Command) → RecallsEntered holds.old entered
        → All (λ other. ticket.0 ≤ other) (clear_tickets holds.old.life now.0 entered)) }
    ensures none { IfNone result ((entered : List Command) → RecallsEntered holds.old entered
        → clear_tickets holds.old.life now.0 entered ≡ []) }
    ensures same { holds.new ≡ at_time holds.old now.0 }
{
    let mut steps = Steps::<L>::new(blank);
    holds.next_clear(now, &mut steps)
}

/// The command at a device that may be sent next for the first time, if there is one.
pub(crate) fn first_clear(holds: &mut Holds, now: Millis) -> Option<Ticket>
    requires { holds.old.latest ≤ now.0 }
    ensures clear { IfSome result (λ ticket.
        (entered : List Command) → RecallsEntered holds.old entered
        → Contains (clear_tickets holds.old.life now.0 entered) ticket.0) }
    ensures lowest { IfSome result (λ ticket.
        (entered : List Command) → RecallsEntered holds.old entered
        → All (λ other. ticket.0 ≤ other) (clear_tickets holds.old.life now.0 entered)) }
    ensures none { IfNone result ((entered : List Command) → RecallsEntered holds.old entered
        → clear_tickets holds.old.life now.0 entered ≡ []) }
    ensures same { holds.new ≡ at_time holds.old now.0 }
{
    counted_clear::<Brand>(holds, now, Blank::new(1))
}

fn counted_times<L: Ledger>(flight: &Flight, blank: Blank) -> Times
    requires name { blank.name ≡ L.name }
    requires parts { blank.parts ≡ L.parts }
    requires some { 0 < blank.parts }
    ensures due { (sent : List Outstanding) → Recalls flight.now sent
        → (now : ℕ) → flight.now.latest ≤ now → now < 2 ^ 64
        → list_any (is_due now) sent ≡ nat_le result.due now }
    ensures expired { (sent : List Outstanding) → Recalls flight.now sent
        → (now : ℕ) → flight.now.latest ≤ now → now < 2 ^ 64
        → list_any (is_expired flight.now.dead now) sent ≡ nat_le result.expired now }
    ensures room { (sent : List Outstanding) → Recalls flight.now sent
        → (now : ℕ) → flight.now.latest ≤ now → now < 2 ^ 64
        → nat_lt (length (live flight.now.rest now sent)) flight.now.room ≡ nat_le result.room now }
{
    let mut steps = Steps::<L>::new(blank);
    flight.times(&mut steps)
}

/// From when on there is something to do with the commands that were sent.
pub(crate) fn flight_times(flight: &Flight) -> Times
    ensures due { (sent : List Outstanding) → Recalls flight.now sent
        → (now : ℕ) → flight.now.latest ≤ now → now < 2 ^ 64
        → list_any (is_due now) sent ≡ nat_le result.due now }
    ensures expired { (sent : List Outstanding) → Recalls flight.now sent
        → (now : ℕ) → flight.now.latest ≤ now → now < 2 ^ 64
        → list_any (is_expired flight.now.dead now) sent ≡ nat_le result.expired now }
    ensures room { (sent : List Outstanding) → Recalls flight.now sent
        → (now : ℕ) → flight.now.latest ≤ now → now < 2 ^ 64
        → nat_lt (length (live flight.now.rest now sent)) flight.now.room ≡ nat_le result.room now }
{
    counted_times::<Brand>(flight, Blank::new(1))
}

fn counted_clear_from<L: Ledger>(holds: &Holds, blank: Blank) -> u128
    requires name { blank.name ≡ L.name }
    requires parts { blank.parts ≡ L.parts }
    requires some { 0 < blank.parts }
    ensures time { (entered : List Command) → RecallsEntered holds.now entered
        → (now : ℕ) → holds.now.latest ≤ now → now < 2 ^ 64
        → nat_lt 0 (length (clear_tickets holds.now.life now entered)) ≡ nat_le result now }
{
    let mut steps = Steps::<L>::new(blank);
    holds.clear_from(&mut steps)
}

/// The time from which on a command at a device may be sent for the first time.
pub(crate) fn clear_from(holds: &Holds) -> u128
    ensures time { (entered : List Command) → RecallsEntered holds.now entered
        → (now : ℕ) → holds.now.latest ≤ now → now < 2 ^ 64
        → nat_lt 0 (length (clear_tickets holds.now.life now entered)) ≡ nat_le result now }
{
    counted_clear_from::<Brand>(holds, Blank::new(1))
}

fn counted_flying<L: Ledger>(flight: &Flight, above: Ticket, blank: Blank) -> Option<Ticket>
    requires name { blank.name ≡ L.name }
    requires parts { blank.parts ≡ L.parts }
    requires some { 0 < blank.parts }
    ensures above { IfSome result (λ ticket. above.0 < ticket.0) }
    ensures first_sent { IfSome result (λ ticket.
        (sent : List Outstanding) → Recalls flight.now sent
        → (c : Outstanding) × (c.ticket ≡ ticket) × IsFirst (flies_above above.0) lower sent c) }
    ensures none_sent { IfNone result ((sent : List Outstanding) → Recalls flight.now sent
        → All (λ c. flies_above above.0 c ≡ false) sent) }
{
    let mut steps = Steps::<L>::new(blank);
    flight.next_flying(above, &mut steps)
}

/// The flying command with the lowest ticket above another.
pub(crate) fn next_flying(flight: &Flight, above: Ticket) -> Option<Ticket>
    ensures above { IfSome result (λ ticket. above.0 < ticket.0) }
    ensures first_sent { IfSome result (λ ticket.
        (sent : List Outstanding) → Recalls flight.now sent
        → (c : Outstanding) × (c.ticket ≡ ticket) × IsFirst (flies_above above.0) lower sent c) }
    ensures none_sent { IfNone result ((sent : List Outstanding) → Recalls flight.now sent
        → All (λ c. flies_above above.0 c ≡ false) sent) }
{
    counted_flying::<Brand>(flight, above, Blank::new(1))
}
