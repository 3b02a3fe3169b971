//! What was read ahead of a client.
ghost use Rattle.std.specs.Prelude.{◌≡◌, ◌≤◌, [], length, drop, true, IfOk};
ghost use Rattle.aoe_clients.specs.Clients.{stays};
ghost use Rattle.aoe_nbd_serve.specs.Moves.{ReadsOn};

use aoe_base::NoMemory;
use aoe_clients::{Clients, Moved};
use std::alloc::Global;
use std::marker::Model;

/// How many bytes are read ahead: more than the longest option has.
const INPUT: usize = 65_536;

/// What was read of a client and wasn't taken yet. Contracts see these bytes.
#[derive(Drop)]
pub(crate) struct Input {
    bytes: Vec<u8>,

    /// From where on, and up to where, they stand there.
    begin: usize,
    end: usize,
}

impl Model for Input {
    ghost use Rattle.std.specs.Prelude.{ℕ, ◌≡◌, ◌≤◌, List, length, slice_range};

    ghost Value = { List ℕ };

    ghost view = { λ i. slice_range i.bytes.items i.begin i.end };

    ghost invariant = { λ i. (i.begin ≤ i.end) × (i.end ≤ length i.bytes.items) };
}

impl Input {
    pub(crate) fn new(alloc: Global) -> Result<Input, NoMemory>
        ensures { IfOk result (λ input. input ≡ []) }
    {
        Ok(Input {
            bytes: Vec::from_elem(alloc, 0, INPUT)?,
            begin: 0,
            end: 0,
        })
    }

    /// The bytes.
    pub(crate) fn bytes(&self) -> &[u8]
        ensures { result.now ≡ self.now }
    {
        &self.bytes.as_slice()[self.begin..self.end]
    }

    /// Takes so many of them off the front.
    pub(crate) fn drop_front(&mut self, len: usize)
        requires { len ≤ length self.old }
        ensures { self.new ≡ drop len self.old }
    {
        self.begin += len;
    }

    /// Moves them to the front of the room.
    fn move_front(&mut self)
        ensures { self.new ≡ self.old }
    {
        let (begin, end) = (self.begin, self.end);
        self.bytes.as_mut_slice().copy_within(begin..end, 0);
        self.begin = 0;
        self.end = end - begin;
    }

    /// Reads what there is room for.
    pub(crate) fn read_from<C: Clients>(&mut self, clients: &mut C) -> Moved
        requires { C.connected clients.old ≡ true }
        ensures reads { ReadsOn (C.told clients.old) (C.told clients.new) result self.old self.new }
        ensures connected { C.connected clients.new ≡ stays result }
        ensures no_fault { C.faults clients.new ≡ C.faults clients.old }
    {
        self.move_front();
        if self.end == self.bytes.len() {
            return Moved::Nothing;
        }
        match clients.read(&mut self.bytes.as_mut_slice()[self.end..]) {
            Moved::Bytes(n) => {
                self.end += n;
                Moved::Bytes(n)
            }
            Moved::Nothing => Moved::Nothing,
            Moved::Left => Moved::Left,
        }
    }
}
