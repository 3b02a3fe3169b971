//! Sources and sinks in memory.
ghost use Rattle.std.specs.Prelude.{◌≡◌, ◌<◌, ◌≤◌, ◌+◌, ◌-◌, ◌++◌, ℕ, List, Option, Some, [], drop, take, length, min, IfOk, OnErr, OnOk};
ghost use Rattle.aoe_base.specs.Faults.{Rose};
ghost use Rattle.aoe_io.specs.Bytes.{Gave, Took, IsEnded};
ghost use Rattle.aoe_io.specs.Memory.{read_of, write_of};

use crate::{Sink, Source};
use aoe_base::{Failed, NoMemory};
use std::alloc::Global;
use std::marker::Model;

/// Bytes in memory that are read from the front on.
#[derive(Drop)]
pub struct MemSource {
    bytes: Vec<u8>,
    at: usize,
    faults: u64,
    due: u32,
}

impl Model for MemSource {
    ghost use Rattle.std.specs.Prelude.{◌≤◌, drop, length};
    ghost use Rattle.aoe_io.specs.Memory.{Reading};

    ghost Value = { Reading };

    ghost view = { λ s. record { left = drop s.at s.bytes.items; faults = s.faults; due = s.due } };

    ghost invariant = { λ s. s.at ≤ length s.bytes.items };
}

impl MemSource {
    /// A source of a copy of the bytes, none of whose calls fails.
    pub fn of(alloc: Global, bytes: &[u8]) -> Result<MemSource, NoMemory>
        ensures { IfOk result (λ s. s ≡ record { left = bytes.now; faults = 0; due = 0 }) }
    {
        let bytes = Vec::from_slice(alloc, bytes)?;
        Ok(MemSource {
            bytes,
            at: 0,
            faults: 0,
            due: 0,
        })
    }

    /// Lets the `k`-th call of `read` from now fail, and no other; none where `k` is 0.
    pub fn fail_at(&mut self, k: u32)
        ensures { self.new ≡ record self.old { due = k } }
    {
        self.due = k;
    }
}

impl Source for MemSource {
    ghost left = { λ s. Some s.left };

    ghost faults = { λ s. s.faults };

    ghost buffered = { λ _. [] };

    fn buffer(&self) -> &[u8] {
        &[]
    }

    fn consume(&mut self, count: usize) {}

    fn read(&mut self, buf: &mut [u8]) -> Result<usize, Failed>
        requires { 0 < length buf.old }
        ensures within { IfOk result (λ n. n ≤ length buf.old) }
        ensures gave { IfOk result (λ n. Gave (Some self.old.left) (Some self.new.left)
            (take n buf.new)) }
        ensures end { IfOk result (λ n. n ≡ 0 → IsEnded (Some self.old.left)) }
        ensures err { OnErr result (Some self.new.left ≡ Some self.old.left) }
        ensures count { self.old.faults ≤ self.new.faults }
        ensures cause { OnErr result (Rose self.old.faults self.new.faults) }
        ensures no_fault { OnOk result (self.new.faults ≡ self.old.faults) }
        ensures one_fault { self.new.faults ≤ self.old.faults + 1 }
        ensures exact { (result, self.new) ≡ read_of self.old (length buf.old) }
    {
        let due = self.due;
        self.due = due.saturating_sub(1);
        if due == 1 {
            self.faults = self.faults.saturating_add(1);
            return Err(Failed);
        }
        let n = copy_front(&self.bytes.as_slice()[self.at..], buf);
        self.at += n;
        Ok(n)
    }
}

/// Copies as much of a front as there is room for, and says how much.
fn copy_front(from: &[u8], buf: &mut [u8]) -> usize
    ensures count { result ≡ min (length from.now) (length buf.old) }
    ensures front { take result buf.new ≡ take result from.now }
{
    let n = from.len().min(buf.len());
    buf[..n].copy_from_slice(&from[..n]);
    n
}

/// What is written, in memory.
#[derive(Drop)]
pub struct MemSink {
    bytes: Vec<u8>,
    room: usize,
    faults: u64,
    due: u32,
}

impl Model for MemSink {
    ghost use Rattle.std.specs.Prelude.{◌≤◌, length, vec_capacity};
    ghost use Rattle.aoe_io.specs.Memory.{Writing};

    ghost Value = { Writing };

    ghost view = { λ s. record { held = s.bytes.items; room = s.room; faults = s.faults; due = s.due } };

    ghost invariant = { λ s. s.room ≤ vec_capacity s.bytes };
}

impl MemSink {
    /// An empty sink that takes `room` bytes, none of whose calls fails before.
    pub fn new(alloc: Global, room: usize) -> Result<MemSink, NoMemory>
        ensures { IfOk result (λ s. s ≡ record { held = []; room = room; faults = 0; due = 0 }) }
    {
        let bytes = Vec::with_capacity(alloc, room)?;
        Ok(MemSink {
            bytes,
            room,
            faults: 0,
            due: 0,
        })
    }

    /// Lets the `k`-th call of `write` from now fail; none where `k` is 0. A write past the room
    /// fails in any case.
    pub fn fail_at(&mut self, k: u32)
        ensures { self.new ≡ record self.old { due = k } }
    {
        self.due = k;
    }

    /// What was written.
    pub fn bytes(&self) -> &[u8]
        ensures { result.now ≡ self.now.held }
    {
        self.bytes.as_slice()
    }
}

impl Sink for MemSink {
    ghost held = { λ s. Some s.held };

    ghost faults = { λ s. s.faults };

    fn write(&mut self, piece: &[u8]) -> Result<usize, Failed>
        requires { 0 < length piece.now }
        ensures some { IfOk result (λ n. 0 < n) }
        ensures within { IfOk result (λ n. n ≤ length piece.now) }
        ensures took { IfOk result (λ n. Took (Some self.old.held) (Some self.new.held)
            (take n piece.now)) }
        ensures err { OnErr result (Some self.new.held ≡ Some self.old.held) }
        ensures count { self.old.faults ≤ self.new.faults }
        ensures cause { OnErr result (Rose self.old.faults self.new.faults) }
        ensures no_fault { OnOk result (self.new.faults ≡ self.old.faults) }
        ensures one_fault { self.new.faults ≤ self.old.faults + 1 }
        ensures exact { (result, self.new) ≡ write_of self.old piece.now }
    {
        let due = self.due;
        self.due = due.saturating_sub(1);
        let fits = self.bytes.len() <= self.room && piece.len() <= self.room - self.bytes.len();
        if due == 1 || !fits || self.bytes.extend_from_slice(piece).is_err() {
            self.faults = self.faults.saturating_add(1);
            return Err(Failed);
        }
        Ok(piece.len())
    }
}
