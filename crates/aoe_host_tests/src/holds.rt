ghost use Rattle.std.specs.Prelude.{◌≡◌, ◌<◌, ◌≤◌, None};
ghost use Rattle.aoe_hold.specs.Commands.{unsent_count};
ghost use Rattle.aoe_hold.specs.HoldTable.{at_time};

use aoe_base::{Millis, Span, Steps, Ticket};
use aoe_hold::{Holds, Kind};
use std::marker::Brand;
use std::sync::ledger::{Blank, Ledger};

fn next_counted<L: Ledger>(holds: &mut Holds, now: Millis, blank: Blank) -> Option<Ticket>
    requires time { holds.old.latest ≤ now.0 }
    requires name { blank.name ≡ L.name }
    requires parts { blank.parts ≡ L.parts }
    requires some { 0 < blank.parts }
    ensures { holds.new ≡ at_time holds.old now.0 }
{
    let mut steps = Steps::<L>::new(blank);
    holds.next_clear(now, &mut steps)
}

fn next_clear(holds: &mut Holds, now: u64) -> Option<Ticket>
    requires { holds.old.latest ≤ now }
    ensures { holds.new ≡ at_time holds.old now }
{
    next_counted::<Brand>(holds, Millis(now), Blank::new(1))
}

fn span(first: u64, sectors: u32) -> Span
    ensures { result ≡ record { at = first; count = sectors } }
{
    Span {
        at: first,
        count: sectors,
    }
}

/// Enters so many writes of one sector, with the tickets from 1 on.
fn enter_writes(holds: &mut Holds, count: u32) -> bool
    requires greatest { holds.old.greatest ≡ None }
    requires unsent { unsent_count holds.old.commands ≡ 0 }
    ensures latest { holds.new.latest ≡ holds.old.latest }
{
    'entered: for i in 0..count {
        let Ok(()) = holds.enter(Ticket(u64::from(i) + 1), Kind::Write, span(7, 1)) else {
            return false;
        };
    }
    true
}

fn sent(holds: &mut Holds, ticket: u64, now: u64)
    requires { holds.old.latest ≤ now }
    ensures greatest { holds.new.greatest ≡ holds.old.greatest }
    ensures latest { holds.new.latest ≡ now }
{
    holds.sent(Ticket(ticket), Millis(now));
}

fn finished(holds: &mut Holds, ticket: u64)
    ensures greatest { holds.new.greatest ≡ holds.old.greatest }
    ensures latest { holds.new.latest ≡ holds.old.latest }
{
    holds.finished(Ticket(ticket));
}

/// Whether this ticket is the next at a time, or none is.
fn is_next(holds: &mut Holds, now: u64, ticket: Option<Ticket>) -> bool
    requires { holds.old.latest ≤ now }
    ensures greatest { holds.new.greatest ≡ holds.old.greatest }
    ensures latest { holds.new.latest ≡ now }
{
    next_clear(holds, now) == ticket
}

#[test]
fn a_thousand_writes_of_a_sector_go_one_by_one(rt: HostRuntime) {
    let mut holds = Holds::new(rt.alloc(), Millis(2000));
    let entered = enter_writes(&mut holds, 1000);
    let first = is_next(&mut holds, 0, Some(Ticket(1)));
    sent(&mut holds, 1, 0);
    let waits = is_next(&mut holds, 5000, None);
    finished(&mut holds, 1);
    let second = is_next(&mut holds, 5000, Some(Ticket(2)));
    assert!(rt; entered && first && waits && second && holds.held() == 999);
}
