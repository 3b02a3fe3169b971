//! A link to a shelf in the same process.
ghost use Rattle.std.specs.Prelude.{◌≡◌, ◌≤◌, ◌∷◌, [], None, Ok, drop, IfErr, IfOk};
ghost use Rattle.aoe_io.specs.Memory.{counted};
ghost use Rattle.aoe_serve.specs.ShelfLink.{Hands, got_of};
ghost use Rattle.aoe_serve.specs.Slots.{slots_of};

use crate::replies::{Queued, Replies};
use crate::rounds::round;
use aoe_base::{Failed, NoMemory};
use aoe_disk::Disk;
use aoe_frame::Frame;
use aoe_io::{Got, Link};
use aoe_shelf::Shelf;
use aoe_store::Store;
use std::alloc::Global;
use std::marker::Model;

/// A link to a shelf in the same process: a frame that is sent goes to every slot in turn, and what
/// the link gives is the replies, the first one first. 64 replies wait at most, and a further one is
/// lost.
///
/// It never fails and never ends. All room is made by `new`: no later call takes memory. As a `Link`
/// it tells nothing of what passed, which would take memory: its own clauses say what a call does.
#[derive(Drop)]
pub struct ShelfLink<S: Store, D: Disk> {
    shelf: Shelf<S, D>,
    waiting: Replies,

    /// Room for a reply, which is made in the call that sends.
    reply: Frame,

    /// The turns so far, up to the greatest u64.
    turns: u64,
}

impl<S: Store, D: Disk> Model for ShelfLink<S, D> {
    ghost use Rattle.std.specs.Prelude.{◌≤◌, length};
    ghost use Rattle.aoe_serve.specs.ShelfLink.{Linked};

    ghost Value = { Linked S D };

    ghost view = { λ l. record { shelf = l.shelf; waiting = l.waiting; turns = l.turns } };

    ghost invariant = { λ l. length l.waiting ≤ 64 };
}

impl<S: Store, D: Disk> ShelfLink<S, D> {
    /// A link to the shelf. Where there is no memory the shelf is given back.
    pub fn new(
        alloc: Global,
        shelf: Shelf<S, D>,
    ) -> Result<ShelfLink<S, D>, (NoMemory, Shelf<S, D>)>
        ensures link { IfOk result (λ l. l ≡ record { shelf = shelf; waiting = []; turns = 0 }) }
        ensures back { IfErr result (λ e. e.1 ≡ shelf) }
    {
        match Replies::new(alloc) {
            Ok(waiting) => Ok(ShelfLink {
                shelf,
                waiting,
                reply: Frame::new(),
                turns: 0,
            }),
            Err(NoMemory) => Err((NoMemory, shelf)),
        }
    }

    /// Gives the shelf back. The replies that wait are lost.
    pub fn close(self) -> Shelf<S, D>
        ensures { result ≡ self.shelf }
    {
        self.shelf
    }
}

impl<S: Store, D: Disk> Link for ShelfLink<S, D> {
    ghost given = { λ l. None };

    ghost taken = { λ l. None };

    ghost coming = { λ l. None };

    ghost turns = { λ l. l.turns };

    ghost faults = { λ l. 0 };

    fn send(&mut self, frame: &[u8]) -> Result<(), Failed>
        ensures never_fails { result ≡ Ok tt }
        ensures hands { Hands frame.now self.old.waiting self.new.waiting
            (slots_of S.lasts S.state D.state self.old.shelf.targets) (slots_of S.lasts S.state D.state self.new.shelf.targets) }
        ensures rest { self.new ≡ record self.old {
          shelf = record self.old.shelf { targets = self.new.shelf.targets };
          waiting = self.new.waiting;
        } }
    {
        round::<S, D, Queued, Replies>(
            &mut self.shelf,
            frame,
            &mut self.reply,
            &mut self.waiting,
            Ok(()),
        )
    }

    fn recv(&mut self, out: &mut Frame) -> Result<Got, Failed>
        ensures passing { self.old.turns ≤ self.new.turns }
        ensures answer { result ≡ Ok (got_of self.old.waiting) }
        ensures first { result ≡ Ok Got.Frame → self.old.waiting
            ≡ out.new.items ∷ self.new.waiting }
        ensures left { self.new ≡ record self.old { waiting = drop 1 self.old.waiting; turns = counted self.old.turns } }
    {
        self.turns = self.turns.saturating_add(1);
        if self.waiting.pop(out) {
            Ok(Got::Frame)
        } else {
            Ok(Got::Quiet)
        }
    }
}
