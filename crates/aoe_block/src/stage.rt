//! How far a part is.
ghost use Rattle.std.specs.Prelude.{◌≡◌};
ghost use Rattle.aoe_block.specs.Stages.{is_handed, is_under_way};

use aoe_base::Ticket;

/// How far a part is.
#[derive(Clone, Copy)]
pub enum Stage {
    /// It wasn't handed to a host.
    Pending,

    /// It is under way, as the command with this ticket.
    Handed(Ticket),

    /// It was read or written.
    Ended,

    /// It had another outcome.
    Failed,
}

impl Stage {
    /// Whether the part is under way with a ticket.
    pub fn is_handed(&self, ticket: Ticket) -> bool
        ensures { result ≡ is_handed ticket.0 self.now }
    {
        match self {
            Stage::Handed(own) => *own == ticket,
            Stage::Pending | Stage::Ended | Stage::Failed => false,
        }
    }

    /// Whether the part is under way.
    pub fn is_under_way(&self) -> bool
        ensures { result ≡ is_under_way self.now }
    {
        match self {
            Stage::Handed(_) => true,
            Stage::Pending | Stage::Ended | Stage::Failed => false,
        }
    }
}
