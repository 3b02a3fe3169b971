//! The commands of a host that fly or rest.
ghost use Rattle.std.specs.Prelude.{◌≡◌, ◌+◌, ◌↔◌, ◌^◌, ◌<◌, ◌≤◌, ◌∷◌, length, map, nat_le, nat_lt, ℕ, List, [], false, true, All, Contains, IsTrue, IsSome, IfNone, IfOk, IfSome, OnSome, Some, option_map};
ghost use Rattle.std.specs.List.{find, list_any};
ghost use Rattle.std.specs.List.Sorted.{IsPermutation};
ghost use Rattle.aoe_base.specs.Sizes.{longest_lifetime, most_room};
ghost use Rattle.aoe_flight.specs.declared.outstanding.Outstanding.{Outstanding};
ghost use Rattle.aoe_flight.specs.FlightTable.{after_change, at_time, live_at, no_commands, Recalls};
ghost use Rattle.aoe_flight.specs.Outstanding.{after_finish, after_repeat, change_of, flies_above, flies_as, flies_with, is_due, is_expired, is_taken, launched, live, lower, precedes, tag_count, IsFirst, IsNextTag};

use crate::counted::{find_tag, find_ticket, is_any_over};
use crate::outstanding::Flying;
use crate::search::{due_from, expired_from, first_due, first_expired, over_from};
use crate::table::Table;
use aoe_base::{Lifetimes, Millis, NoMemory, PathNo, Steps, Ticket};
use std::alloc::Global;
use std::marker::Model;
use std::sync::ledger::Ledger;

/// From when on there is something to do with the commands of a host, where nothing else happens
/// before. A time that no clock of 64 bits reaches stands for never.
#[derive(Clone, Copy)]
pub struct Times {
    /// A command is due to be sent again.
    pub due: u128,

    /// A command has to be given up.
    pub expired: u128,

    /// There is room for one more.
    pub room: u128,
}

/// The commands of a host that fly or rest.
///
/// A command flies from its first send to its outcome, and rests until no response to one of its
/// frames can arrive any more, so that its tag isn't given to another before. All room is made by
/// `new`: no later call takes memory.
#[derive(Drop)]
pub struct Flight {
    /// The most commands that fly or rest.
    room: u32,

    /// How long a finished command rests after its last send.
    rest: Millis,

    /// How long a command flies at most.
    dead: Millis,

    /// The latest time that was told.
    latest: Millis,

    /// The tag that was given last.
    last_tag: u32,

    commands: Table,
}

impl Model for Flight {
    ghost use Rattle.std.specs.Prelude.{◌<◌, ◌≤◌, All};
    ghost use Rattle.slab.specs.Slab.{values};
    ghost use Rattle.aoe_flight.specs.FlightTable.{FlightTable, FitsRoom};
    ghost use Rattle.aoe_flight.specs.Outstanding.{live};

    ghost Value = { FlightTable };

    ghost view = { λ flight. record {
      room = flight.room;
      rest = flight.rest.0;
      dead = flight.dead.0;
      latest = flight.latest.0;
      last_tag = flight.last_tag;
      commands = live flight.rest.0 flight.latest.0 (values flight.commands);
    } };

    ghost invariant = { λ flight.
        FitsRoom flight.room flight.commands.capacity (values flight.commands)
        × All (λ c. c.flying.last.0 ≤ flight.latest.0) (values flight.commands)
        × (0 < flight.dead.0) };
}

impl Flight {
    /// No command was sent. A frame can arrive as long as `life` has it for its kind, so a finished
    /// command rests for the sum of both: its last request may come as late as can be, and then the
    /// response to it. A command is given up after `dead`. The limit of the room is this program's
    /// own, since all of it is made here.
    pub fn new(alloc: Global, room: u32, life: Lifetimes, dead: Millis) -> Result<Flight, NoMemory>
        requires some_room { 0 < room }
        requires room { room ≤ most_room }
        requires requests { life.requests.0 ≤ longest_lifetime }
        requires responses { life.responses.0 ≤ longest_lifetime }
        requires dead { 0 < dead.0 }
        ensures value { IfOk result (λ flight. flight ≡ no_commands room life dead.0) }
        ensures recalls { IfOk result (λ flight. Recalls flight []) }
    {
        Ok(Flight {
            room,
            rest: Millis(life.requests.0 + life.responses.0),
            dead,
            latest: Millis(0),
            last_tag: 0,
            commands: Table::new(alloc, room as usize)?,
        })
    }

    /// Takes note of the first send of a command that doesn't fly, and gives its tag.
    pub fn launch(&mut self, ticket: Ticket, now: Millis, path: PathNo, wait: Millis) -> Option<u32>
        requires { self.old.latest ≤ now.0 }
        ensures full { IfNone result (self.old.room ≤ length (live_at self.old now.0)) }
        ensures room { OnSome result (length (live_at self.old now.0) < self.old.room) }
        ensures tag { IfSome result (λ tag. IsNextTag
            (live_at self.old now.0) self.old.last_tag tag) }
        ensures command { IfSome result (λ tag.
            IsPermutation
            (launched ticket tag now path wait ∷ live_at self.old now.0)
            self.new.commands) }
        ensures flies { OnSome result (IsSome (find (flies_as ticket.0) self.new.commands)) }
        ensures same { IfSome result (λ tag.
            self.new ≡ record self.old { latest = now.0; last_tag = tag; commands = self.new.commands }) }
        ensures unchanged { IfNone result (self.new ≡ at_time self.old now.0) }
        ensures distinct { (tag : ℕ) → tag_count self.new.commands tag ≤ 1 }
        ensures recalls { IfSome result (λ tag.
            (sent : List Outstanding) → Recalls self.old sent
            → Recalls self.new (launched ticket tag now path wait ∷ sent)) }
        ensures free { IfSome result (λ tag.
            (sent : List Outstanding) → Recalls self.old sent
            → is_taken (live self.old.rest now.0 sent) tag ≡ false) }
    {
        self.latest = now;
        self.commands.forget(self.rest, now);
        if self.commands.len() >= self.room as usize {
            return None;
        }
        let tag = self.commands.launch(ticket, self.last_tag, now, path, wait);
        self.last_tag = tag;
        Some(tag)
    }

    /// Whether no further command can be sent.
    pub fn is_full(&self, now: Millis) -> bool
        requires { self.now.latest ≤ now.0 }
        ensures value { IsTrue result ↔ (self.now.room ≤ length (live_at self.now now.0)) }
        ensures sent { (sent : List Outstanding) → Recalls self.now sent
            → IsTrue result ↔ (self.now.room ≤ length (live self.now.rest now.0 sent)) }
    {
        let room = self.room as usize;
        self.commands.len() >= room && !is_any_over(&self.commands, self.rest, now)
    }

    /// What is known of a flying command.
    pub fn flying(&self, ticket: Ticket) -> Flying
        requires { IsSome (find (flies_as ticket.0) self.now.commands) }
        ensures value { option_map (λ c. c.flying) (find (flies_as ticket.0) self.now.commands)
            ≡ Some result }
        ensures sent { (sent : List Outstanding) → Recalls self.now sent
            → (c : Outstanding) × Contains sent c × (flies_as ticket.0 c ≡ true) × (c.flying ≡ result) }
    {
        find_ticket(&self.commands, ticket).unwrap().flying
    }

    /// The command to be sent again: of the flying ones that waited for their response long
    /// enough, the one that was due first.
    pub fn due<L: Ledger>(&self, now: Millis, steps: &mut Steps<L>) -> Option<Ticket>
        requires { self.now.latest ≤ now.0 }
        ensures first { IfSome result (λ ticket.
            (c : Outstanding) × (c.ticket ≡ ticket)
            × IsFirst (is_due now.0) precedes self.now.commands c) }
        ensures none { IfNone result (All (λ c. is_due now.0 c ≡ false) self.now.commands) }
        ensures first_sent { IfSome result (λ ticket.
            (sent : List Outstanding) → Recalls self.now sent
            → (c : Outstanding) × (c.ticket ≡ ticket) × IsFirst (is_due now.0) precedes sent c) }
        ensures none_sent { IfNone result ((sent : List Outstanding) → Recalls self.now sent
            → All (λ c. is_due now.0 c ≡ false) sent) }
        ensures bound { steps.new ≤ steps.old + 1 }
    {
        first_due(&self.commands, now, steps)
    }

    /// Takes note that a flying command was sent again.
    pub fn repeat(&mut self, ticket: Ticket, now: Millis, path: PathNo, wait: Millis)
        requires { self.old.latest ≤ now.0 }
        ensures value { self.new ≡ after_change self.old ticket.0
            (after_repeat now path wait) now.0 }
        ensures recalls { (sent : List Outstanding) → Recalls self.old sent
            → Recalls self.new (map (change_of ticket.0 (after_repeat now path wait)) sent) }
    {
        self.latest = now;
        self.commands.repeat(ticket, now, path, wait);
    }

    /// The flying command with a tag.
    pub fn match_tag(&self, tag: u32) -> Option<Ticket>
        ensures flying { result ≡ option_map (λ c. c.ticket)
            (find (flies_with tag) self.now.commands) }
        ensures only { tag_count self.now.commands tag ≤ 1 }
        ensures flying_sent { IfSome result (λ ticket.
            (sent : List Outstanding) → Recalls self.now sent
            → (c : Outstanding) × (c.ticket ≡ ticket) × Contains sent c × (flies_with tag c ≡ true)) }
        ensures none_sent { IfNone result ((sent : List Outstanding) → Recalls self.now sent
            → All (λ c. flies_with tag c ≡ false) sent) }
    {
        find_tag(&self.commands, tag).map(|command| command.ticket)
    }

    /// Takes note that a flying command has its outcome: it rests from now on.
    pub fn finish(&mut self, ticket: Ticket)
        ensures value { self.new ≡ after_change self.old ticket.0 after_finish self.old.latest }
        ensures recalls { (sent : List Outstanding) → Recalls self.old sent
            → Recalls self.new (map (change_of ticket.0 after_finish) sent) }
    {
        self.commands.finish(ticket);
    }

    /// The flying command with the lowest ticket that has to be given up.
    pub fn expired<L: Ledger>(&self, now: Millis, steps: &mut Steps<L>) -> Option<Ticket>
        ensures first { IfSome result (λ ticket.
            (c : Outstanding) × (c.ticket ≡ ticket)
            × IsFirst (is_expired self.now.dead now.0) lower self.now.commands c) }
        ensures none { IfNone result (All (λ c. is_expired self.now.dead now.0 c
            ≡ false) self.now.commands) }
        ensures first_sent { IfSome result (λ ticket.
            (sent : List Outstanding) → Recalls self.now sent
            → (c : Outstanding) × (c.ticket ≡ ticket)
            × IsFirst (is_expired self.now.dead now.0) lower sent c) }
        ensures none_sent { IfNone result ((sent : List Outstanding) → Recalls self.now sent
            → All (λ c. is_expired self.now.dead now.0 c ≡ false) sent) }
        ensures one { IfNone result (steps.new ≤ steps.old + 1) }
        ensures bound { steps.new ≤ steps.old + 1 + self.now.room }
    {
        first_expired(&self.commands, self.dead, now, steps).map(|command| command.ticket)
    }

    /// The time from which on there is room for one more command.
    fn room_from<L: Ledger>(&self, steps: &mut Steps<L>) -> u128
        ensures room { (now : ℕ) → self.now.latest ≤ now → now < 2 ^ 64
            → nat_lt (length (live_at self.now now)) self.now.room ≡ nat_le result now }
        ensures bound { steps.new ≤ steps.old + 1 }
    {
        if self.commands.len() < self.room as usize {
            return 0;
        }
        over_from(&self.commands, self.rest, steps)
    }

    /// From when on a command is due, one has to be given up, and there is room for one more.
    pub fn times<L: Ledger>(&self, steps: &mut Steps<L>) -> Times
        ensures due { (sent : List Outstanding) → Recalls self.now sent
            → (now : ℕ) → self.now.latest ≤ now → now < 2 ^ 64
            → list_any (is_due now) sent ≡ nat_le result.due now }
        ensures expired { (sent : List Outstanding) → Recalls self.now sent
            → (now : ℕ) → self.now.latest ≤ now → now < 2 ^ 64
            → list_any (is_expired self.now.dead now) sent ≡ nat_le result.expired now }
        ensures room { (sent : List Outstanding) → Recalls self.now sent
            → (now : ℕ) → self.now.latest ≤ now → now < 2 ^ 64
            → nat_lt (length (live self.now.rest now sent)) self.now.room ≡ nat_le result.room now }
        ensures bound { steps.new ≤ steps.old + 3 }
    {
        let due = due_from(&self.commands, steps);
        let expired = expired_from(&self.commands, self.dead, steps);
        let room = self.room_from(steps);
        Times { due, expired, room }
    }

    /// The flying command with the lowest ticket above another: a walk from ticket 0 on gives each
    /// that flies.
    pub fn next_flying<L: Ledger>(&self, above: Ticket, steps: &mut Steps<L>) -> Option<Ticket>
        ensures above { IfSome result (λ ticket. above.0 < ticket.0) }
        ensures first_sent { IfSome result (λ ticket.
            (sent : List Outstanding) → Recalls self.now sent
            → (c : Outstanding) × (c.ticket ≡ ticket) × IsFirst (flies_above above.0) lower sent c) }
        ensures none_sent { IfNone result ((sent : List Outstanding) → Recalls self.now sent
            → All (λ c. flies_above above.0 c ≡ false) sent) }
        ensures step { steps.new ≡ steps.old + 1 }
    {
        let command = self.commands.look_above(above, steps)?;
        Some(command.ticket)
    }

    /// Drops the commands that rested out.
    pub fn forget(&mut self, now: Millis)
        requires { self.old.latest ≤ now.0 }
        ensures value { self.new ≡ at_time self.old now.0 }
        ensures recalls { (sent : List Outstanding) → Recalls self.old sent
            → Recalls self.new sent }
    {
        self.latest = now;
        self.commands.forget(self.rest, now);
    }
}
