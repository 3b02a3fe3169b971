//! What a program waits by.
ghost use Rattle.std.specs.Prelude.{◌≡◌, ◌∷◌, ℕ, List, [], Option, Some, IfOk, IfSome};
ghost use Rattle.aoe_io.specs.Link.{Added};
ghost use Rattle.aoe_clients.specs.Waits.{waited};

use aoe_base::{Millis, NoMemory};
use std::alloc::Global;
use std::marker::Model;

/// What a program waits by, once each of its sides had nothing for it.
pub trait Bell {
    // How long each wait was to last at most, the latest first, where the bell tells it.
    ghost waits: { Self → Option (List ℕ) };

    /// Waits until a frame, a client or bytes of the client may have come, or room for bytes to the client
    /// behind a write that moved nothing; but no longer than `most`. It says nothing of what came, and
    /// may end early.
    fn wait(&mut self, most: Millis)
        ensures { IfSome (waits self.new)
            (λ _. Added (waits self.old) (waits self.new) (most.0 ∷ [])) };
}

/// A bell in memory, which doesn't wait. Its calls take no memory.
#[derive(Drop)]
pub struct MemBell {
    waits: Vec<Millis>,
    room: usize,

    /// There were more waits than there is room for.
    is_over: bool,
}

impl Model for MemBell {
    ghost use Rattle.std.specs.Prelude.{◌≤◌, Some, None, length, map, reverse, vec_capacity, if◌then◌else◌};
    ghost use Rattle.aoe_clients.specs.Waits.{Waiting};

    ghost Value = { Waiting };

    ghost view = { λ b. record {
      waits = if b.is_over then None else Some (reverse (map (λ most. most.0) b.waits.items));
      room = b.room;
    } };

    ghost invariant = { λ b. b.room ≤ vec_capacity b.waits };
}

impl MemBell {
    /// A bell that tells `room` waits; after one more it tells nothing.
    pub fn new(alloc: Global, room: usize) -> Result<MemBell, NoMemory>
        ensures { IfOk result (λ b. b ≡ record { waits = Some []; room = room }) }
    {
        let waits = Vec::with_capacity(alloc, room)?;
        Ok(MemBell {
            waits,
            room,
            is_over: false,
        })
    }
}

impl Bell for MemBell {
    ghost waits = { λ b. b.waits };

    fn wait(&mut self, most: Millis)
        ensures told { IfSome self.new.waits
            (λ _. Added self.old.waits self.new.waits (most.0 ∷ [])) }
        ensures exact { self.new ≡ waited self.old most.0 }
    {
        if self.waits.len() >= self.room || self.waits.push(most).is_err() {
            self.is_over = true;
        }
    }
}
