//! How far the flush of a request is.
ghost use Rattle.std.specs.Prelude.{◌≡◌, if◌then◌else◌};
ghost use Rattle.aoe_desk.specs.Requests.{is_flush_handed, is_flush_waiting, without_waiting};

use aoe_base::Ticket;

/// How far the flush of a request is.
#[derive(Clone, Copy)]
pub enum Flush {
    /// There is none, or it was given up.
    No,

    /// It wasn't handed to a host.
    Waiting,

    /// It is under way, as the command with this ticket.
    Handed(Ticket),

    /// What was written before is on the medium.
    Ended,

    /// It had another outcome.
    Failed,
}

impl Flush {
    /// One that waits where it is wanted.
    pub fn wanted(lasts: bool) -> Flush
        ensures { result ≡ (if lasts then Flush.Waiting else Flush.No) }
    {
        if lasts { Flush::Waiting } else { Flush::No }
    }

    /// One that has its outcome.
    pub fn ended(is_done: bool) -> Flush
        ensures { result ≡ (if is_done then Flush.Ended else Flush.Failed) }
    {
        if is_done { Flush::Ended } else { Flush::Failed }
    }

    /// Whether it wasn't handed.
    pub fn is_waiting(&self) -> bool
        ensures { result ≡ is_flush_waiting self.now }
    {
        match self {
            Flush::Waiting => true,
            Flush::No | Flush::Handed(_) | Flush::Ended | Flush::Failed => false,
        }
    }

    /// Whether it is under way with a ticket.
    pub fn is_handed(&self, ticket: Ticket) -> bool
        ensures { result ≡ is_flush_handed ticket.0 self.now }
    {
        match self {
            Flush::Handed(own) => *own == ticket,
            Flush::No | Flush::Waiting | Flush::Ended | Flush::Failed => false,
        }
    }

    /// The same once its request was given up.
    pub fn given_up(self) -> Flush
        ensures { result ≡ without_waiting self }
    {
        match self {
            Flush::Waiting => Flush::No,
            Flush::No | Flush::Handed(_) | Flush::Ended | Flush::Failed => self,
        }
    }
}
