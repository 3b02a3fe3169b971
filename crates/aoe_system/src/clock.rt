//! The system's monotonic clock. It tells nothing of its answers.
ghost use Rattle.std.specs.Prelude.{◌≡◌, ◌≤◌, ◌+◌, ◌/◌, ◌-◌, ◌^◌, IfNone, IfSome, None, Some, max, min};
ghost use Rattle.std.specs.Duration.{as_nanos};

use aoe_io::Clock;
use std::time::{Clock as HostClock, Duration};

/// By how many milliseconds an answer is greater than the one before it at most.
const LONGEST_STEP: u64 = 1000;

/// A time in whole milliseconds, up to the greatest u64.
fn millis_of(time: Duration) -> u64
    ensures { result ≡ min (as_nanos time / 1000000) (2 ^ 64 - 1) }
{
    time.as_millis().min(u128::from(u64::MAX)) as u64
}

/// The answer behind another, where the system's clock stands at `time`, and stood at `seen` when it was
/// looked at last.
fn later(latest: u64, seen: Option<u64>, time: u64) -> u64
    ensures first { IfNone seen (result ≡ max latest time) }
    ensures step { IfSome seen
        (λ s. result ≡ min (latest + min (time - s) 1000) (2 ^ 64 - 1)) }
    ensures slow { IfSome seen (λ _. result ≤ latest + 1000) }
    ensures least { latest ≤ result }
{
    match seen {
        None => latest.max(time),
        Some(seen) => latest.saturating_add(time.saturating_sub(seen).min(LONGEST_STEP)),
    }
}

/// A clock of the system, in milliseconds since the machine started: so a program that starts later
/// begins with a later time. Where it can't be read, the time stands still.
///
/// Between two looks no more than a second goes by: while the program waits for its input or for what
/// takes its output, or is stopped, nobody looks, and what came in that time hasn't been heard. So no
/// command is given up for it. This clock is never faster than the system's: what is waited for lasts at
/// least as long.
#[derive(Drop)]
pub struct SystemClock<C> {
    clock: C,
    latest: u64,

    /// The time of the system at the last look.
    seen: Option<u64>,
}

impl<C: HostClock> SystemClock<C> {
    pub fn new(clock: C) -> SystemClock<C>
        ensures latest { result.latest ≡ 0 }
        ensures seen { result.seen ≡ None }
    {
        SystemClock {
            clock,
            latest: 0,
            seen: None,
        }
    }

    /// Goes on to a time of the system.
    fn go_on(&mut self, time: u64)
        ensures first { IfNone self.old.seen (self.new.latest ≡ max self.old.latest time) }
        ensures step { IfSome self.old.seen (λ s. self.new.latest
            ≡ min (self.old.latest + min (time - s) 1000) (2 ^ 64 - 1)) }
        ensures slow { IfSome self.old.seen (λ _. self.new.latest ≤ self.old.latest + 1000) }
        ensures least { self.old.latest ≤ self.new.latest }
        ensures seen { self.new.seen ≡ Some time }
    {
        self.latest = later(self.latest, self.seen, time);
        self.seen = Some(time);
    }
}

impl<C: HostClock> Clock for SystemClock<C> {
    ghost answers = { λ _. None };

    ghost least = { λ c. c.latest };

    fn now(&mut self) -> u64
        ensures least { self.old.latest ≤ result }
        ensures later { result ≤ self.new.latest }
        ensures exact { result ≡ self.new.latest }
        ensures step { IfSome self.old.seen (λ _. result ≤ self.old.latest + 1000) }
    {
        if let Ok(time) = self.clock.monotonic() {
            self.go_on(millis_of(time));
        }
        self.latest
    }
}
