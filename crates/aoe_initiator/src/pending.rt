//! Commands that have no outcome yet.
ghost use Rattle.std.specs.Prelude.{◌≡◌, nat_eq, position};
ghost use Rattle.aoe_initiator.specs.Host.{IsInOrder};

use crate::op::Op;
use aoe_base::{Blob, DeviceNo, Ticket};
use std::collections::VecDeque;

/// A command without its outcome.
#[derive(Drop)]
pub(crate) struct Pending {
    pub ticket: Ticket,
    pub device: DeviceNo,
    pub op: Op,

    /// Room for the data of its response.
    pub room: Blob,
}

/// The place of the command with a ticket, where the tickets ascend.
pub(crate) fn place_of(pending: &VecDeque<Pending>, ticket: Ticket) -> Option<usize>
    requires { IsInOrder pending.now.items }
    ensures { result ≡ position (λ p. nat_eq p.ticket.0 ticket.0) pending.now.items }
{
    let at = pending.partition_point(|command| command.ticket < ticket);
    match pending.get(at) {
        Some(command) if command.ticket == ticket => Some(at),
        _ => None,
    }
}
