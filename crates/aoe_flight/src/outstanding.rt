//! One command that was sent.
ghost use Rattle.std.specs.Prelude.{◌≡◌, ◌+◌};
ghost use Rattle.aoe_flight.specs.Outstanding.{after_repeat, deadline, is_due, is_expired, is_over, launched};
ghost use Rattle.aoe_flight.specs.Table.{by_due, by_first, by_last, by_tag, by_ticket};

use crate::order::Entry;
use aoe_base::{Millis, PathNo, Ticket};

/// The most sends of a command that are counted: long before, its wait has grown to a minute and
/// grows no more.
const MAX_SENDS: u32 = 32;

/// What is known of a command that waits for its response.
#[derive(Clone, Copy, PartialEq, Eq)]
pub struct Flying {
    pub tag: u32,

    /// The time of the first send.
    pub first: Millis,

    /// The time of the last send.
    pub last: Millis,

    /// The path of the last send.
    pub path: PathNo,

    /// The number of sends, which stays at 32 where there are more.
    pub sends: u32,
}

/// A command that was sent.
#[derive(Clone, Copy, PartialEq, Eq)]
pub struct Outstanding {
    pub ticket: Ticket,
    pub flying: Flying,

    /// How long the response to the last send is waited for.
    pub wait: Millis,

    /// Whether the command has its outcome, and only rests.
    pub finished: bool,
}

impl Outstanding {
    /// A command at its first send.
    pub fn launched(
        ticket: Ticket,
        tag: u32,
        now: Millis,
        path: PathNo,
        wait: Millis,
    ) -> Outstanding
        ensures { result ≡ launched ticket tag now path wait }
    {
        let flying = Flying {
            tag,
            first: now,
            last: now,
            path,
            sends: 1,
        };
        Outstanding {
            ticket,
            flying,
            wait,
            finished: false,
        }
    }

    /// Whether the command is finished and rested for longer than `rest`.
    pub fn is_over(&self, rest: Millis, now: Millis) -> bool
        ensures { result ≡ is_over rest.0 now.0 self.now }
    {
        self.finished && now.0.saturating_sub(self.flying.last.0) > rest.0
    }

    /// Whether the command flies for as long as commands are waited for at most.
    pub fn is_expired(&self, dead: Millis, now: Millis) -> bool
        ensures { result ≡ is_expired dead.0 now.0 self.now }
    {
        !self.finished && now.0.saturating_sub(self.flying.first.0) >= dead.0
    }

    /// Whether the command waited for its response long enough.
    pub fn is_due(&self, now: Millis) -> bool
        ensures { result ≡ is_due now.0 self.now }
    {
        !self.finished && now.0.saturating_sub(self.flying.last.0) >= self.wait.0
    }

    /// The time from which on the command is due. A sum of times needs more than 64 bits.
    pub fn due_from(&self) -> u128
        ensures { result ≡ deadline self.now }
    {
        u128::from(self.flying.last.0) + u128::from(self.wait.0)
    }

    /// The time from which on the command, where it flies, is to be given up.
    pub fn expired_from(&self, dead: Millis) -> u128
        ensures { result ≡ self.now.flying.first.0 + dead.0 }
    {
        u128::from(self.flying.first.0) + u128::from(dead.0)
    }

    /// The time from which on the command, where it rests, rested for longer than `rest`.
    pub fn over_from(&self, rest: Millis) -> u128
        ensures { result ≡ self.now.flying.last.0 + rest.0 + 1 }
    {
        u128::from(self.flying.last.0) + u128::from(rest.0) + 1
    }

    /// Its place by tags: the flying command with a tag ahead of those that rest.
    pub fn by_tag(&self, slot: usize) -> Entry
        ensures { result ≡ by_tag slot self.now }
    {
        Entry {
            at: u128::from(self.flying.tag),
            tie: if self.finished { 1 } else { 0 },
            slot,
        }
    }

    pub fn by_ticket(&self, slot: usize) -> Entry
        ensures { result ≡ by_ticket slot self.now }
    {
        Entry {
            at: u128::from(self.ticket.0),
            tie: 0,
            slot,
        }
    }

    /// Its place by the time at which it is due.
    pub fn by_due(&self, slot: usize) -> Entry
        ensures { result ≡ by_due slot self.now }
    {
        Entry {
            at: self.due_from(),
            tie: self.ticket.0,
            slot,
        }
    }

    pub fn by_first(&self, slot: usize) -> Entry
        ensures { result ≡ by_first slot self.now }
    {
        Entry {
            at: u128::from(self.flying.first.0),
            tie: self.ticket.0,
            slot,
        }
    }

    pub fn by_last(&self, slot: usize) -> Entry
        ensures { result ≡ by_last slot self.now }
    {
        Entry {
            at: u128::from(self.flying.last.0),
            tie: self.ticket.0,
            slot,
        }
    }

    /// The command after it was sent again.
    pub fn repeated(self, now: Millis, path: PathNo, wait: Millis) -> Outstanding
        ensures { result ≡ after_repeat now path wait self }
    {
        let flying = Flying {
            last: now,
            path,
            sends: (self.flying.sends.saturating_add(1)).min(MAX_SENDS),
            ..self.flying
        };
        Outstanding {
            flying,
            wait,
            ..self
        }
    }
}
