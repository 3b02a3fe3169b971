//! What is said to a client in the handshake.
ghost use Rattle.std.specs.Prelude.{◌≡◌, ◌==◌, ◌<◌, ◌≤◌, length, true};
ghost use Rattle.aoe_clients.specs.Clients.{stays};
ghost use Rattle.aoe_nbd.specs.Handshakes.{LeadsTo, Proceeds, Talk};
ghost use Rattle.aoe_nbd.specs.Options.{greeting};
ghost use Rattle.aoe_nbd_serve.specs.Moves.{SendsOn};

use aoe_base::append;
use aoe_clients::{Clients, Moved};
use aoe_nbd::{Export, Handshake, HandshakeTaken, OptionReply, greeting};
use std::marker::Model;

/// What is said to a client in the handshake. Contracts see what wasn't sent of it.
#[derive(Drop)]
pub(crate) struct Answer {
    bytes: OptionReply,

    /// How many of them were sent.
    sent: usize,
}

impl Model for Answer {
    ghost use Rattle.std.specs.Prelude.{ℕ, ◌≤◌, List, drop, length};

    ghost Value = { List ℕ };

    ghost view = { λ a. drop a.sent a.bytes.items };

    ghost invariant = { λ a. a.sent ≤ length a.bytes.items };
}

impl Answer {
    /// The greeting.
    pub(crate) fn greeting() -> Answer
        ensures { result ≡ greeting }
    {
        let mut bytes = OptionReply::new();
        append(&mut bytes, &greeting());
        Answer { bytes, sent: 0 }
    }

    /// Whether all was sent.
    pub(crate) fn is_sent(&self) -> bool
        ensures { result ≡ (length self.now == 0) }
    {
        self.sent == self.bytes.len()
    }

    /// Takes an option, or the client's flags, and becomes what is said to it.
    pub(crate) fn take(
        &mut self,
        handshake: &mut Handshake,
        export: &Export,
        bytes: &[u8],
    ) -> HandshakeTaken
        ensures len { result.len ≤ length bytes.now }
        ensures proceeds { (talk : Talk) → LeadsTo export.now talk handshake.old
            → Proceeds export.now talk handshake.old bytes.now result.len result.event self.new
            handshake.new }
    {
        self.sent = 0;
        handshake.take(export, bytes, &mut self.bytes)
    }

    /// Sends some of what is left.
    pub(crate) fn send_to<C: Clients>(&mut self, clients: &mut C) -> Moved
        requires connected { C.connected clients.old ≡ true }
        requires some { 0 < length self.old }
        ensures sends { SendsOn (C.told clients.old) (C.told clients.new) result self.old self.new }
        ensures connected { C.connected clients.new ≡ stays result }
        ensures no_fault { C.faults clients.new ≡ C.faults clients.old }
    {
        let moved = clients.write(&self.bytes.as_slice()[self.sent..]);
        if let Moved::Bytes(n) = moved {
            self.sent += n;
        }
        moved
    }
}
