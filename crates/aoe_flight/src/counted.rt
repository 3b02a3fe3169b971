//! Searches of which no bound is claimed: each has a counter of its own.
ghost use Rattle.std.specs.Prelude.{◌≡◌, ◌<◌, false, true, length};
ghost use Rattle.std.specs.List.{find};
ghost use Rattle.slab.specs.Slab.{values};
ghost use Rattle.aoe_flight.specs.Outstanding.{flies_as, flies_with, live};

use crate::outstanding::Outstanding;
use crate::table::Table;
use aoe_base::{Millis, Steps, Ticket};
use std::marker::Brand;
use std::sync::ledger::{Blank, Ledger};

fn counted_ticket<L: Ledger>(commands: &Table, ticket: Ticket, blank: Blank) -> Option<Outstanding>
    requires name { blank.name ≡ L.name }
    requires parts { blank.parts ≡ L.parts }
    requires some { 0 < blank.parts }
    ensures { result ≡ find (flies_as ticket.0) (values commands.now) }
{
    let mut steps = Steps::<L>::new(blank);
    commands.look_ticket(ticket, &mut steps)
}

/// The flying command with a ticket.
pub fn find_ticket(commands: &Table, ticket: Ticket) -> Option<Outstanding>
    ensures { result ≡ find (flies_as ticket.0) (values commands.now) }
{
    counted_ticket::<Brand>(commands, ticket, Blank::new(1))
}

fn counted_tag<L: Ledger>(commands: &Table, tag: u32, blank: Blank) -> Option<Outstanding>
    requires name { blank.name ≡ L.name }
    requires parts { blank.parts ≡ L.parts }
    requires some { 0 < blank.parts }
    ensures { result ≡ find (flies_with tag) (values commands.now) }
{
    let mut steps = Steps::<L>::new(blank);
    commands.look_tag(tag, &mut steps)
}

/// The flying command with a tag.
pub fn find_tag(commands: &Table, tag: u32) -> Option<Outstanding>
    ensures { result ≡ find (flies_with tag) (values commands.now) }
{
    counted_tag::<Brand>(commands, tag, Blank::new(1))
}

fn counted_over<L: Ledger>(commands: &Table, rest: Millis, now: Millis, blank: Blank) -> bool
    requires name { blank.name ≡ L.name }
    requires parts { blank.parts ≡ L.parts }
    requires some { 0 < blank.parts }
    ensures some { result ≡ true → length (live rest.0 now.0 (values commands.now)) < length
        (values commands.now) }
    ensures none { result ≡ false → live rest.0 now.0 (values commands.now) ≡ values commands.now }
{
    let mut steps = Steps::<L>::new(blank);
    commands.is_any_over(rest, now, &mut steps)
}

/// Whether a command rested out.
pub fn is_any_over(commands: &Table, rest: Millis, now: Millis) -> bool
    ensures some { result ≡ true → length (live rest.0 now.0 (values commands.now)) < length
        (values commands.now) }
    ensures none { result ≡ false → live rest.0 now.0 (values commands.now) ≡ values commands.now }
{
    counted_over::<Brand>(commands, rest, now, Blank::new(1))
}
