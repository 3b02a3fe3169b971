//! How far a host is with its commands.
ghost use Rattle.std.specs.Prelude.{◌≡◌, ◌||◌};
ghost use Rattle.aoe_live.specs.Tally.{is_given_up, no_commands, noted};

use aoe_history::Entry;
use aoe_initiator::Outcome;

/// How far a host is with its commands, which have the tickets from 1 on.
#[derive(Clone, Copy, PartialEq, Eq)]
pub(crate) struct Tally {
    /// How many were submitted.
    pub(crate) begun: u64,

    /// The ticket of the one whose outcome came last, 0 before the first.
    pub(crate) ended: u64,

    /// Whether one was given up.
    pub(crate) gave_up: bool,
}

impl Tally {
    /// Before any command.
    pub(crate) fn new() -> Tally
        ensures { result ≡ no_commands }
    {
        Tally {
            begun: 0,
            ended: 0,
            gave_up: false,
        }
    }

    /// Counts what an entry says.
    pub(crate) fn note(&mut self, entry: &Entry)
        ensures { self.new ≡ noted entry.now self.old }
    {
        match entry {
            Entry::Submitted { .. } => self.begun = self.begun.saturating_add(1),
            Entry::Done {
                ticket,
                outcome,
                ..
            } => {
                self.ended = *ticket;
                self.gave_up = self.gave_up || is_given_up(outcome.get());
            }
            _ => {}
        }
    }
}

/// Whether a command was given up.
fn is_given_up(outcome: &Outcome) -> bool
    ensures { result ≡ is_given_up outcome.now }
{
    match outcome {
        Outcome::GaveUp { .. } => true,
        _ => false,
    }
}
