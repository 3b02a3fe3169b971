ghost use Rattle.std.specs.Prelude.{◌≡◌, ◌<◌, ◌≤◌};

use aoe_base::{Lifetimes, Millis, PathNo, Steps, Ticket};
use aoe_flight::{Flight, Flying};
use std::marker::Brand;
use std::sync::ledger::{Blank, Ledger};
use std::test::Fail;

/// The lifetimes: responses live shorter.
const LIFE: Lifetimes = Lifetimes {
    requests: Millis(2000),
    responses: Millis(500),
};

fn due_counted<L: Ledger>(flight: &Flight, now: Millis, blank: Blank) -> Option<Ticket>
    requires time { flight.now.latest ≤ now.0 }
    requires name { blank.name ≡ L.name }
    requires parts { blank.parts ≡ L.parts }
    requires some { 0 < blank.parts }
{
    let mut steps = Steps::<L>::new(blank);
    flight.due(now, &mut steps)
}

fn due(flight: &Flight, now: u64) -> Option<Ticket>
    requires { flight.now.latest ≤ now }
{
    due_counted::<Brand>(flight, Millis(now), Blank::new(1))
}

/// The tag of a command that is sent by the only path and waits so long.
fn launch(flight: &mut Flight, ticket: u64, now: u64, wait: u64) -> Option<u32>
    requires { flight.old.latest ≤ now }
    ensures { flight.new.latest ≡ now }
{
    flight.launch(Ticket(ticket), Millis(now), PathNo(0), Millis(wait))
}

/// Whether a command is sent with the tag 1, and flies as it is to.
fn flies(flight: &mut Flight, ticket: u64, now: u64, wait: u64) -> bool
    requires { flight.old.latest ≤ now }
    ensures { flight.new.latest ≡ now }
{
    let Some(tag) = flight.launch(Ticket(ticket), Millis(now), PathNo(0), Millis(wait)) else {
        return false;
    };
    let sent = Flying {
        tag: 1,
        first: Millis(now),
        last: Millis(now),
        path: PathNo(0),
        sends: 1,
    };
    tag == 1 && flight.flying(Ticket(ticket)) == sent
}

/// A command is sent again, and waits so long.
fn repeat(flight: &mut Flight, ticket: u64, now: u64, wait: u64)
    requires { flight.old.latest ≤ now }
    ensures { flight.new.latest ≡ now }
{
    flight.repeat(Ticket(ticket), Millis(now), PathNo(0), Millis(wait));
}

fn expired_counted<L: Ledger>(flight: &Flight, now: Millis, blank: Blank) -> Option<Ticket>
    requires name { blank.name ≡ L.name }
    requires parts { blank.parts ≡ L.parts }
    requires some { 0 < blank.parts }
{
    let mut steps = Steps::<L>::new(blank);
    flight.expired(now, &mut steps)
}

/// Which command is given up at a time.
fn expired(flight: &Flight, now: u64) -> Option<Ticket> {
    expired_counted::<Brand>(flight, Millis(now), Blank::new(1))
}

#[test]
fn a_command_is_due_by_its_waits(rt: HostRuntime) -> Result<(), Fail> {
    let mut flight = Flight::new(rt.alloc(), 16, LIFE, Millis(30_000))?;
    let sent = flies(&mut flight, 1, 0, 1000);
    let first = [due(&flight, 999), due(&flight, 1000)];
    repeat(&mut flight, 1, 1000, 2000);
    let second = [due(&flight, 2999), due(&flight, 3000)];
    let last = [expired(&flight, 29_999), expired(&flight, 30_000)];
    let wanted = [None, Some(Ticket(1))];
    assert!(rt; sent && first == wanted && second == wanted && last == wanted);
    assert!(rt; flight.match_tag(1) == Some(Ticket(1)));
    Ok(())
}

/// Whether a command that has its outcome isn't known by its tag.
fn finishes(flight: &mut Flight, ticket: u64, tag: u32) -> bool
    ensures { flight.new.latest ≡ flight.old.latest }
{
    flight.finish(Ticket(ticket));
    flight.match_tag(tag).is_none()
}

/// Whether there is no room at a time, where what rested out before is dropped.
fn is_full(flight: &mut Flight, now: u64) -> bool
    requires { flight.old.latest ≤ now }
    ensures { flight.new.latest ≡ now }
{
    flight.forget(Millis(now));
    flight.is_full(Millis(now))
}

#[test]
fn a_finished_command_rests_for_both_lifetimes(rt: HostRuntime) -> Result<(), Fail> {
    let mut flight = Flight::new(rt.alloc(), 1, LIFE, Millis(30_000))?;
    let first = launch(&mut flight, 5, 0, 1000);
    let finished = finishes(&mut flight, 5, 1);
    let full = is_full(&mut flight, 2500);
    let rested = !flight.is_full(Millis(2501));
    let next = launch(&mut flight, 6, 2501, 1000);
    assert!(rt; first.is_some() && finished && full && rested && next == Some(2));
    Ok(())
}
