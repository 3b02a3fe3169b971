//! What passed between clients in memory and a program.
ghost use Rattle.std.specs.Prelude.{◌≡◌, ◌<◌, ◌≤◌, ◌∷◌, [], length, IfOk};
ghost use Rattle.aoe_clients.specs.ClientMemory.{has_room};
ghost use Rattle.aoe_clients.specs.Transcripts.{event_of};

use aoe_base::{NoMemory, append};
use arrayvec::ArrayVec;
use std::alloc::Global;
use std::marker::Model;

/// The most bytes that a call of clients in memory moves.
pub const MAX_MOVE: usize = 1024;

/// The bytes that one call moved.
pub(crate) type Piece = ArrayVec<u8, MAX_MOVE>;

/// What happened to a connection.
#[derive(Drop)]
pub(crate) enum Passed {
    Accepted,
    Received(Piece),
    Sent(Piece),
    Left,
    Closed,
}

/// A copy of so many bytes at most.
pub(crate) fn piece_of(bytes: &[u8]) -> Piece
    requires { length bytes.now ≤ 1024 }
    ensures { result.items ≡ bytes.now }
{
    let mut piece = Piece::new();
    append(&mut piece, bytes);
    piece
}

/// What passed, in room that was made before.
#[derive(Drop)]
pub(crate) struct Transcript {
    passed: Vec<Passed>,
    room: usize,
}

impl Model for Transcript {
    ghost use Rattle.std.specs.Prelude.{◌≤◌, length, map, reverse, vec_capacity};
    ghost use Rattle.aoe_clients.specs.ClientMemory.{Told};
    ghost use Rattle.aoe_clients.specs.Transcripts.{event_of};

    ghost Value = { Told };

    ghost view = { λ t. record { events = reverse (map event_of t.passed.items); room = t.room } };

    ghost invariant = { λ t. t.room ≤ vec_capacity t.passed };
}

impl Transcript {
    /// An empty one with room for so much.
    pub(crate) fn new(alloc: Global, room: usize) -> Result<Transcript, NoMemory>
        ensures { IfOk result (λ t. t ≡ record { events = []; room = room }) }
    {
        let passed = Vec::with_capacity(alloc, room)?;
        Ok(Transcript { passed, room })
    }

    /// Whether there is room for one thing more, and for the end of the client behind it.
    pub(crate) fn has_room(&self) -> bool
        ensures { result ≡ has_room self.now.room self.now.events }
    {
        self.room > 1 && self.passed.len() < self.room - 1
    }

    /// Puts what passed last behind the rest.
    pub(crate) fn push(&mut self, passed: Passed)
        requires { length self.old.events < self.old.room }
        ensures { self.new ≡ record self.old { events = event_of passed ∷ self.old.events } }
    {
        let _ = self.passed.push(passed);
    }
}
