//! A link in memory.
ghost use Rattle.std.specs.Prelude.{◌≡◌, ◌==◌, ◌<◌, ◌≤◌, ◌+◌, ◌-◌, ◌++◌, ◌∷◌, ℕ, List, [], All, Option, Some, None, Ok, drop, get_or, length, map, reverse, vec_capacity, vec_len, IfOk, IfSome, IsOk, OnOk, OnErr};
ghost use Rattle.std.specs.Option.{option_map};
ghost use Rattle.aoe_base.specs.Faults.{Rose};
ghost use Rattle.aoe_base.specs.Sizes.{longest_frame};
ghost use Rattle.aoe_io.specs.Link.{Added, GaveTurns, Turn, next_of, turn_of};
ghost use Rattle.aoe_io.specs.LinkMemory.{got_of, passed, recv_of, send_of, turn_next, IsShort};
ghost use Rattle.aoe_io.specs.Memory.{counted};

use crate::{Got, Link};
use aoe_base::{Blob, Failed, NoMemory, append};
use aoe_frame::Frame;
use std::alloc::Global;
use std::marker::Model;

/// A link in memory: it brings turns that are known before, and keeps what is sent. Its calls take
/// no memory.
#[derive(Drop)]
pub struct MemLink {
    coming: Vec<Option<Blob>>,

    /// How many of the coming turns have passed.
    at: usize,

    taken: Vec<Frame>,
    room: usize,
    turns: u64,
    faults: u64,
    due: u32,
}

impl Model for MemLink {
    ghost use Rattle.std.specs.Prelude.{◌≤◌, All, drop, length, map, reverse, vec_capacity};
    ghost use Rattle.aoe_io.specs.LinkMemory.{Linking, given_of, IsShort, IsTurned};

    ghost Value = { Linking };

    ghost view = { λ l. record {
      coming = drop l.at l.coming.items;
      given = given_of l.coming.items l.at l.turns;
      taken = reverse (map (λ frame. frame.items) l.taken.items);
      room = l.room;
      turns = l.turns;
      faults = l.faults;
      due = l.due;
    } };

    ghost invariant = { λ l. IsTurned (length l.coming.items) l.at l.turns × All IsShort l.coming.items × (length l.taken.items ≤ l.room) × (l.room ≤ vec_capacity l.taken) };
}

/// Gives the first of the coming turns: `out` is its frame where it has one.
fn give_turn(coming: &[Option<Blob>], out: &mut Frame) -> Got
    requires { All IsShort coming.now }
    ensures got { result ≡ got_of coming.now }
    ensures turn { turn_of result out.new.items ≡ turn_next coming.now }
    ensures frame { result ≡ Got.Frame → next_of coming.now ≡ Some out.new.items }
{
    match coming.first() {
        None => Got::Ended,
        Some(None) => Got::Quiet,
        Some(Some(frame)) => {
            out.clear();
            append(out, frame.bytes());
            Got::Frame
        }
    }
}

/// Appends a copy of a frame that isn't too long, for which there is room.
fn keep(taken: &mut Vec<Frame>, frame: &[u8]) -> Result<(), Failed>
    requires { vec_len taken.old < vec_capacity taken.old }
    ensures fits { length frame.now ≤ longest_frame → IsOk result }
    ensures short { OnOk result (length frame.now ≤ longest_frame) }
    ensures took { OnOk result (map (λ f. f.items) taken.new.items
        ≡ map (λ f. f.items) taken.old.items ++ frame.now ∷ []) }
    ensures err { OnErr result (taken.new.items ≡ taken.old.items) }
    ensures capacity { vec_capacity taken.old ≤ vec_capacity taken.new }
{
    let mut copy = Frame::new();
    if copy.try_extend_from_slice(frame).is_err() || taken.push(copy).is_err() {
        return Err(Failed);
    }
    Ok(())
}

impl MemLink {
    /// A link that brings these turns, each with its frame or quiet, and then has ended. It takes
    /// `room` frames; none of its calls fails before.
    pub fn of(alloc: Global, coming: Vec<Option<Blob>>, room: usize) -> Result<MemLink, NoMemory>
        requires { All IsShort coming.items }
        ensures { IfOk result (λ l. l ≡ record { coming = coming.items; given = []; taken = []; room = room; turns = 0; faults = 0; due = 0 }) }
    {
        let taken = Vec::with_capacity(alloc, room)?;
        Ok(MemLink {
            coming,
            at: 0,
            taken,
            room,
            turns: 0,
            faults: 0,
            due: 0,
        })
    }

    /// Lets the `k`-th call of `send` or `recv` from now fail; none where `k` is 0. A send past the
    /// room or of more than 9018 bytes fails in any case.
    pub fn fail_at(&mut self, k: u32)
        ensures { self.new ≡ record self.old { due = k } }
    {
        self.due = k;
    }

    /// How many frames were taken.
    pub fn count(&self) -> usize
        ensures { result ≡ length self.now.taken }
    {
        self.taken.len()
    }

    /// A frame that was taken: they are numbered from 0, in their order.
    pub fn frame(&self, i: usize) -> &[u8]
        requires { i < length self.now.taken }
        ensures { result.now ≡ get_or (reverse self.now.taken) i [] }
    {
        self.taken[i].as_slice()
    }

    /// Lets the next turn pass; a link that has no more stays ended.
    fn pass(&mut self)
        ensures turn { self.new ≡ passed self.old }
        ensures count { self.old.turns ≤ self.new.turns }
    {
        self.at = self.at.saturating_add(1).min(self.coming.len());
        self.turns = self.turns.saturating_add(1);
    }

    /// Counts a call towards the one that is to fail, and says whether this is it.
    fn is_due(&mut self) -> bool
        ensures due { result ≡ (self.old.due == 1) }
        ensures counted { self.new ≡ record self.old { due = self.old.due - 1 } }
    {
        let due = self.due;
        self.due = due.saturating_sub(1);
        due == 1
    }

    /// Counts a fault.
    fn fail(&mut self) -> Failed
        ensures fault { self.new ≡ record self.old { faults = counted self.old.faults } }
        ensures count { self.old.faults ≤ self.new.faults }
    {
        self.faults = self.faults.saturating_add(1);
        Failed
    }
}

impl Link for MemLink {
    ghost given = { λ l. Some l.given };

    ghost taken = { λ l. Some l.taken };

    ghost coming = { λ l. Some l.coming };

    ghost turns = { λ l. l.turns };

    ghost faults = { λ l. l.faults };

    fn send(&mut self, frame: &[u8]) -> Result<(), Failed>
        ensures took { OnOk result (Added (Some self.old.taken) (Some self.new.taken)
            (frame.now ∷ [])) }
        ensures err { OnErr result (Some self.new.taken ≡ Some self.old.taken) }
        ensures given { Some self.new.given ≡ Some self.old.given }
        ensures coming { Some self.new.coming ≡ Some self.old.coming }
        ensures turns { self.new.turns ≡ self.old.turns }
        ensures count { self.old.faults ≤ self.new.faults }
        ensures cause { OnErr result (Rose self.old.faults self.new.faults) }
        ensures no_fault { OnOk result (self.new.faults ≡ self.old.faults) }
        ensures one_fault { self.new.faults ≤ self.old.faults + 1 }
        ensures exact { (result, self.new) ≡ send_of self.old frame.now }
    {
        let due = self.is_due();
        if due || self.taken.len() >= self.room || keep(&mut self.taken, frame).is_err() {
            return Err(self.fail());
        }
        Ok(())
    }

    fn recv(&mut self, out: &mut Frame) -> Result<Got, Failed>
        ensures gave { IfOk result (λ got. GaveTurns self.new.turns (Some self.old.given)
            (Some self.new.given) (turn_of got out.new.items ∷ [])) }
        ensures passed { OnOk result (Some self.new.coming
            ≡ option_map (drop 1) (Some self.old.coming)) }
        ensures frame { result ≡ Ok Got.Frame → IfSome (Some self.old.coming)
            (λ turns. next_of turns ≡ Some out.new.items) }
        ensures quiet { result ≡ Ok Got.Quiet → IfSome (Some self.old.coming)
            (λ turns. next_of turns ≡ None) }
        ensures ended { result ≡ Ok Got.Ended → IfSome (Some self.old.coming)
            (λ turns. turns ≡ []) }
        ensures turns { OnOk result (self.new.turns ≡ counted self.old.turns) }
        ensures passing { self.old.turns ≤ self.new.turns }
        ensures err_given { OnErr result (Some self.new.given ≡ Some self.old.given) }
        ensures err_coming { OnErr result (Some self.new.coming ≡ Some self.old.coming) }
        ensures err_turns { OnErr result (self.new.turns ≡ self.old.turns) }
        ensures taken { Some self.new.taken ≡ Some self.old.taken }
        ensures count { self.old.faults ≤ self.new.faults }
        ensures cause { OnErr result (Rose self.old.faults self.new.faults) }
        ensures no_fault { OnOk result (self.new.faults ≡ self.old.faults) }
        ensures one_fault { self.new.faults ≤ self.old.faults + 1 }
        ensures exact { (result, self.new) ≡ recv_of self.old }
    {
        if self.is_due() {
            return Err(self.fail());
        }
        let got = give_turn(&self.coming[self.at..], out);
        self.pass();
        Ok(got)
    }
}
