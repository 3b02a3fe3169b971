//! Clients in memory.
ghost use Rattle.std.specs.Prelude.{◌≡◌, ◌≢◌, ◌==◌, ◌<◌, ◌≤◌, ◌+◌, ◌-◌, ◌∷◌, true, false, [], Some, None, length, take, min, is_some, IfOk, IfSome, OnErr, OnOk};
ghost use Rattle.aoe_base.specs.Faults.{Rose};
ghost use Rattle.aoe_io.specs.Bytes.{Gave};
ghost use Rattle.aoe_io.specs.Link.{Added};
ghost use Rattle.aoe_io.specs.Memory.{counted};
ghost use Rattle.aoe_clients.specs.Clients.{IfBytes, accepted_of, closed, front_of, left, received_of, sent_of, stays};
ghost use Rattle.aoe_clients.specs.ClientMemory.{Calling, accept_of, coming_of, read_from, read_of, without_client, write_of, write_to};
ghost use Rattle.aoe_clients.specs.Transcripts.{event_of};

use crate::clients::{Clients, Moved};
use crate::mem_client::MemClient;
use crate::transcript::{MAX_MOVE, Passed, Transcript, piece_of};
use aoe_base::{Failed, NoMemory};
use std::alloc::Global;
use std::collections::VecDeque;
use std::marker::Model;

/// Clients in memory, which come one after another, each once the one before has left or was closed. Their
/// calls take no memory.
#[derive(Drop)]
pub struct MemClients {
    coming: VecDeque<MemClient>,
    here: Option<MemClient>,
    transcript: Transcript,

    /// The most bytes that a call moves.
    most: usize,

    faults: u64,
    due: u32,
}

impl Model for MemClients {
    ghost use Rattle.std.specs.Prelude.{◌≡◌, ◌<◌, ◌≤◌, true, length, is_some};
    ghost use Rattle.aoe_clients.specs.ClientMemory.{Calling};

    ghost Value = { Calling };

    ghost view = { λ c. record {
      coming = c.coming.items;
      here = c.here;
      told = c.transcript.events;
      most = c.most;
      room = c.transcript.room;
      faults = c.faults;
      due = c.due;
    } };

    ghost invariant = { λ c. (c.most ≤ 1024) × (is_some c.here ≡ true → length c.transcript.events < c.transcript.room) };
}

impl MemClients {
    /// These clients. `room` is how much may pass in all, each of an accept, a call that moves bytes, and
    /// the end of a client; when it is used up nothing passes but the end of the client that is there. No
    /// call fails before.
    pub fn of(
        alloc: Global,
        coming: VecDeque<MemClient>,
        room: usize,
    ) -> Result<MemClients, NoMemory>
        ensures { IfOk result (λ c. c ≡ record { coming = coming.items; here = None; told = []; most = 1024; room = room; faults = 0; due = 0 }) }
    {
        let transcript = Transcript::new(alloc, room)?;
        Ok(MemClients {
            coming,
            here: None,
            transcript,
            most: MAX_MOVE,
            faults: 0,
            due: 0,
        })
    }

    /// Lets no call move more than so many bytes.
    pub fn cut(&mut self, most: usize)
        requires { most ≤ 1024 }
        ensures { self.new ≡ record self.old { most = most } }
    {
        self.most = most;
    }

    /// Lets the `k`-th call of `accept`, `read` or `write` from now fail, and no other; none where `k` is
    /// 0. A `read` or `write` that fails breaks the connection: the client leaves.
    pub fn fail_at(&mut self, k: u32)
        ensures { self.new ≡ record self.old { due = k } }
    {
        self.due = k;
    }

    /// Counts a call towards the one that is to fail, and says whether this is it.
    fn is_due(&mut self) -> bool
        ensures due { result ≡ (self.old.due == 1) }
        ensures counted { self.new ≡ record self.old { due = self.old.due - 1 } }
    {
        let due = self.due;
        self.due = due.saturating_sub(1);
        due == 1
    }
}

impl MemClients {
    /// Nobody is there any more.
    fn end(&mut self, reason: Passed)
        requires { is_some self.old.here ≡ true }
        ensures { self.new ≡ without_client self.old (event_of reason) }
    {
        self.here = None;
        self.transcript.push(reason);
    }

    /// Reads from the client that is there.
    fn read_from(&mut self, out: &mut [u8]) -> Moved
        requires here { is_some self.old.here ≡ true }
        requires room { 0 < length out.old }
        ensures exact { IfSome self.old.here (λ client. (result, self.new)
            ≡ read_from self.old client (min (length client.says) (min (length out.old) self.old.most))) }
        ensures bytes { IfSome self.old.here (λ client. front_of result out.new
            ≡ front_of result client.says) }
    {
        let has_room = self.transcript.has_room();
        let Some(client) = &mut self.here else {
            return Moved::Left;
        };
        if client.is_leaving() {
            self.end(Passed::Left);
            return Moved::Left;
        }
        if !has_room {
            return Moved::Nothing;
        }
        let n = client.say(self.most, out);
        if n == 0 {
            return Moved::Nothing;
        }
        self.transcript.push(Passed::Received(piece_of(&out[..n])));
        Moved::Bytes(n)
    }

    /// Writes to the client that is there.
    fn write_to(&mut self, piece: &[u8]) -> Moved
        requires here { is_some self.old.here ≡ true }
        ensures exact { IfSome self.old.here (λ client. (result, self.new)
            ≡ write_to self.old client (take (min client.takes self.old.most) piece.now)) }
    {
        let has_room = self.transcript.has_room();
        let Some(client) = &mut self.here else {
            return Moved::Left;
        };
        if !has_room {
            return Moved::Nothing;
        }
        let n = client.take(self.most, piece);
        if n == 0 {
            return Moved::Nothing;
        }
        self.transcript.push(Passed::Sent(piece_of(&piece[..n])));
        Moved::Bytes(n)
    }
}

impl Clients for MemClients {
    ghost told = { λ c. Some c.told };

    ghost coming = { λ c. Some (coming_of c.here) };

    ghost connected = { λ c. is_some c.here };

    ghost faults = { λ c. c.faults };

    fn is_connected(&self) -> bool
        ensures { result ≡ is_some self.now.here }
    {
        self.here.is_some()
    }

    fn accept(&mut self) -> Result<bool, Failed>
        requires { is_some self.old.here ≡ false }
        ensures told { IfOk result
            (λ came. Added (Some self.old.told) (Some self.new.told) (accepted_of came)) }
        ensures connected { IfOk result (λ came. is_some self.new.here ≡ came) }
        ensures err_told { OnErr result (Some self.new.told ≡ Some self.old.told) }
        ensures err_connected { OnErr result (is_some self.new.here ≡ false) }
        ensures count { self.old.faults ≤ self.new.faults }
        ensures cause { OnErr result (Rose self.old.faults self.new.faults) }
        ensures no_fault { OnOk result (self.new.faults ≡ self.old.faults) }
        ensures one_fault { self.new.faults ≤ self.old.faults + 1 }
        ensures exact { (result, self.new) ≡ accept_of self.old }
    {
        if self.is_due() {
            self.faults = self.faults.saturating_add(1);
            return Err(Failed);
        }
        if !self.transcript.has_room() {
            return Ok(false);
        }
        let Some(client) = self.coming.pop_front() else {
            return Ok(false);
        };
        self.here = Some(client);
        self.transcript.push(Passed::Accepted);
        Ok(true)
    }

    fn read(&mut self, out: &mut [u8]) -> Moved
        requires connected { is_some self.old.here ≡ true }
        requires room { 0 < length out.old }
        ensures some { IfBytes result (λ n. 0 < n) }
        ensures within { IfBytes result (λ n. n ≤ length out.old) }
        ensures told { Added (Some self.old.told) (Some self.new.told) (received_of result out.new) }
        ensures gave { result ≢ Moved.Left → Gave (Some (coming_of self.old.here))
            (Some (coming_of self.new.here)) (front_of result out.new) }
        ensures connected { is_some self.new.here ≡ stays result }
        ensures no_fault { self.new.faults ≡ self.old.faults }
        ensures exact { (result, self.new) ≡ read_of self.old self.old.here (length out.old) }
    {
        if self.is_due() {
            self.end(Passed::Left);
            return Moved::Left;
        }
        self.read_from(out)
    }

    fn write(&mut self, piece: &[u8]) -> Moved
        requires connected { is_some self.old.here ≡ true }
        requires piece { 0 < length piece.now }
        ensures some { IfBytes result (λ n. 0 < n) }
        ensures within { IfBytes result (λ n. n ≤ length piece.now) }
        ensures told { Added (Some self.old.told) (Some self.new.told) (sent_of result piece.now) }
        ensures coming { result ≢ Moved.Left → Some (coming_of self.new.here)
            ≡ Some (coming_of self.old.here) }
        ensures connected { is_some self.new.here ≡ stays result }
        ensures no_fault { self.new.faults ≡ self.old.faults }
        ensures exact { (result, self.new) ≡ write_of self.old self.old.here piece.now }
    {
        if self.is_due() {
            self.end(Passed::Left);
            return Moved::Left;
        }
        self.write_to(piece)
    }

    fn close(&mut self)
        requires { is_some self.old.here ≡ true }
        ensures told { Added (Some self.old.told) (Some self.new.told) (closed ∷ []) }
        ensures connected { is_some self.new.here ≡ false }
        ensures no_fault { self.new.faults ≡ self.old.faults }
        ensures exact { self.new ≡ without_client self.old closed }
    {
        self.end(Passed::Closed);
    }
}
