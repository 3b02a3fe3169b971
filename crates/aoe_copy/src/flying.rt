//! Which commands of a copy into a device are under way.
use aoe_base::Ticket;
use arrayvec::ArrayVec;

/// The tickets of the commands that aren't done, in their order, from which it is told how far a
/// copy has come. No clause rests on it.
#[derive(Drop)]
pub(crate) struct Flying {
    tickets: ArrayVec<u64, 8>,
}

impl Flying {
    /// No command.
    pub(crate) fn new() -> Flying {
        Flying {
            tickets: ArrayVec::new(),
        }
    }

    /// One more command.
    pub(crate) fn add(&mut self, ticket: Ticket) {
        let _ = self.tickets.try_push(ticket.0);
    }

    /// A command is done.
    pub(crate) fn remove(&mut self, ticket: Ticket) {
        let place = self.tickets.iter().position(|own| *own == ticket.0);
        if let Some(place) = place {
            let _ = self.tickets.pop_at(place);
        }
    }

    /// The command that was submitted first of these.
    pub(crate) fn first(&self) -> Option<u64> {
        self.tickets.first().copied()
    }
}
