//! Two links in memory that are joined end to end.
ghost use Rattle.std.specs.Prelude.{◌≡◌, ◌<◌, ◌≤◌, ◌+◌, ◌∷◌, [], length, Err, None, Ok, IfOk, OnErr, OnOk};
ghost use Rattle.aoe_base.specs.Faults.{Rose};
ghost use Rattle.aoe_base.specs.Sizes.{longest_frame};
ghost use Rattle.aoe_io.specs.Memory.{counted};

use crate::{Got, Link};
use aoe_base::{Failed, NoMemory};
use aoe_frame::Frame;
use std::alloc::Global;
use std::cell::RefCell;
use std::collections::VecDeque;
use std::marker::Model;
use std::rc::Rc;

/// The frames that one end sent and the other wasn't asked for yet, the first of them in front.
type Waiting = Rc<RefCell<VecDeque<Frame>>>;

/// An end of two links that are joined: it gives what the other end sent, in order. Its calls take
/// no memory. It tells nothing of what passed.
#[derive(Drop)]
pub struct JoinedLink {
    coming: Waiting,
    going: Waiting,

    /// How many frames wait at most in each direction.
    room: usize,

    turns: u64,
    faults: u64,
}

impl Model for JoinedLink {
    ghost use Rattle.aoe_io.specs.Joined.{Joined};

    ghost Value = { Joined };

    ghost view = { λ l. record { room = l.room; turns = l.turns; faults = l.faults } };
}

/// An empty queue with room for so many frames.
fn queue(alloc: Global, room: usize) -> Result<Waiting, NoMemory> {
    let frames = VecDeque::with_capacity(alloc, room)?;
    Ok(Rc::new(alloc, RefCell::new(frames))?)
}

/// The same queue, for the other end.
fn share(waiting: &Waiting) -> Result<Waiting, NoMemory> {
    Ok(Rc::clone(waiting)?)
}

/// Puts a copy of a frame behind those that wait, where it isn't too long and has room.
fn put(waiting: &Waiting, room: usize, frame: &[u8]) -> Result<(), Failed>
    ensures long { longest_frame < length frame.now → result ≡ Err record {} }
    ensures full { room ≡ 0 → result ≡ Err record {} }
{
    let mut copy = Frame::new();
    if copy.try_extend_from_slice(frame).is_err() {
        return Err(Failed);
    }
    let Ok(mut frames) = waiting.try_borrow_mut() else {
        return Err(Failed);
    };
    if frames.len() >= room || frames.push_back(copy).is_err() {
        return Err(Failed);
    }
    Ok(())
}

/// Makes `out` the first frame that waits, and lets it wait no longer: false where none waits.
fn get(waiting: &Waiting, out: &mut Frame) -> bool {
    let Ok(mut frames) = waiting.try_borrow_mut() else {
        return false;
    };
    match frames.pop_front() {
        Some(frame) => {
            *out = frame;
            true
        }
        None => false,
    }
}

impl JoinedLink {
    /// Both ends of two joined links. At each, `room` frames wait at most: a send of one more, or of
    /// more than 9018 bytes, counts a fault and is lost.
    pub fn pair(alloc: Global, room: usize) -> Result<(JoinedLink, JoinedLink), NoMemory>
        ensures { IfOk result (λ ends. (ends.0 ≡ record { room = room; turns = 0; faults = 0 })
            × (ends.1 ≡ record { room = room; turns = 0; faults = 0 })) }
    {
        let there = queue(alloc, room)?;
        let back = queue(alloc, room)?;
        let one = JoinedLink {
            coming: share(&back)?,
            going: share(&there)?,
            room,
            turns: 0,
            faults: 0,
        };
        let two = JoinedLink {
            coming: there,
            going: back,
            room,
            turns: 0,
            faults: 0,
        };
        Ok((one, two))
    }
}

impl Link for JoinedLink {
    ghost given = { λ l. None };

    ghost taken = { λ l. None };

    ghost coming = { λ l. None };

    ghost turns = { λ l. l.turns };

    ghost faults = { λ l. l.faults };

    fn send(&mut self, frame: &[u8]) -> Result<(), Failed>
        ensures count { self.old.faults ≤ self.new.faults }
        ensures cause { OnErr result (Rose self.old.faults self.new.faults) }
        ensures one_fault { self.new.faults ≤ self.old.faults + 1 }
        ensures ok { OnOk result (self.new ≡ self.old) }
        ensures err { OnErr result
            (self.new ≡ record self.old { faults = counted self.old.faults }) }
        ensures long { longest_frame < length frame.now → result ≡ Err record {} }
        ensures no_room { self.old.room ≡ 0 → result ≡ Err record {} }
    {
        match put(&self.going, self.room, frame) {
            Ok(()) => Ok(()),
            Err(Failed) => {
                self.faults = self.faults.saturating_add(1);
                Err(Failed)
            }
        }
    }

    fn recv(&mut self, out: &mut Frame) -> Result<Got, Failed>
        ensures passing { self.old.turns ≤ self.new.turns }
        ensures never_fails { OnErr result ⊥ }
        ensures turned { self.new ≡ record self.old { turns = counted self.old.turns } }
    {
        self.turns = self.turns.saturating_add(1);
        if get(&self.coming, out) {
            Ok(Got::Frame)
        } else {
            Ok(Got::Quiet)
        }
    }
}
