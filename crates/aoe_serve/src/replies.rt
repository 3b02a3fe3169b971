//! The replies that wait to be given.
ghost use Rattle.std.specs.Prelude.{◌≡◌, ◌≤◌, ◌++◌, [], ◌∷◌, drop, false, length, true, IfOk};
ghost use Rattle.aoe_serve.specs.Rounds.{Keeps};
ghost use Rattle.aoe_serve.specs.ShelfLink.{with_room};
ghost use Rattle.aoe_serve.specs.OutletLaws.{keeps_more, keeps_none, keeps_over};

use crate::outlet::Outlet;
use aoe_base::{Failed, NoMemory};
use aoe_frame::{Frame, refill};
use circular_buffer::HeapCircularBuffer;
use std::alloc::Global;
use std::marker::Model;

/// The most replies that wait.
const MAX_WAITING: usize = 64;

/// The replies that wait, the first of them to be given first. All room is made by `new`.
#[derive(Drop)]
pub(crate) struct Replies {
    frames: HeapCircularBuffer<Frame>,
}

impl Model for Replies {
    ghost use Rattle.std.specs.Prelude.{◌≡◌, ◌≤◌, ℕ, List, length, map};

    ghost Value = { List (List ℕ) };

    ghost view = { λ replies. map (λ frame. frame.items) replies.frames.items };

    ghost invariant = { λ replies. (replies.frames.capacity ≡ 64) × (length replies.frames.items ≤ 64) };
}

impl Replies {
    /// None that wait.
    pub(crate) fn new(alloc: Global) -> Result<Replies, NoMemory>
        ensures { IfOk result (λ replies. replies ≡ []) }
    {
        let frames = HeapCircularBuffer::with_capacity(alloc, MAX_WAITING)?;
        Ok(Replies { frames })
    }

    /// Lets a reply wait behind the others, or loses it where there is no room.
    fn push(&mut self, reply: &Frame)
        ensures { self.new ≡ with_room (self.old ++ reply.now.items ∷ []) }
    {
        if self.frames.len() >= MAX_WAITING {
            return;
        }
        let mut copy = Frame::new();
        refill(&mut copy, reply.as_slice());
        let _ = self.frames.try_push_back(copy);
    }

    /// Makes `out` the first reply, and waits with it no longer: false where none waits.
    pub(crate) fn pop(&mut self, out: &mut Frame) -> bool
        ensures first { result ≡ true → self.old ≡ out.new.items ∷ self.new }
        ensures empty { result ≡ false → self.old ≡ [] }
        ensures left { self.new ≡ drop 1 self.old }
    {
        match self.frames.pop_front() {
            Some(reply) => {
                *out = reply;
                true
            }
            None => false,
        }
    }
}

/// The replies wait in a queue.
pub(crate) struct Queued;

impl Outlet<Queued> for Replies {
    ghost took = { Keeps };

    fn give(&mut self, reply: &Frame) -> Result<(), Failed> {
        self.push(reply);
        Ok(())
    }

    ghost none = { keeps_none };

    ghost more = { keeps_more };

    ghost over = { keeps_over };
}
