//! What stands between the requests of NBD clients and the operations of a host.
ghost use Rattle.std.specs.Prelude.{ℕ, List, [], ◌≡◌, ◌≢◌, ◌+◌, ◌*◌, ◌/◌, ◌%◌, ◌<◌, ◌≤◌, ◌↔◌, Err, IfErr, IfOk, IfNone, IfSome, IsSome, IsTrue, None, Some, drop, false, length, not, replicate, slice_get, true};
ghost use Rattle.std.specs.List.{position, All};
ghost use Rattle.std.specs.VecDeque.{deque_capacity};
ghost use Rattle.aoe_base.specs.Sizes.{most_copied};
ghost use Rattle.aoe_block.specs.Parts.{IsCut};
ghost use Rattle.aoe_initiator.specs.Op.{CanSubmit};
ghost use Rattle.aoe_desk.specs.Desks.{change_at, close, gave_up, hand, left, next_op, outside, owner, refused, settle, DeskState, HasRoom, IsDesk, IsTaken};
ghost use Rattle.aoe_desk.specs.Requests.{is_waiting, owns, settle as settle_request, IsOpen};

use crate::Reply;
use crate::flush::Flush;
use crate::request::OpenRequest;
use aoe_base::{Blob, NoMemory, SECTOR_LEN, Span, Ticket};
use aoe_block::{Block, BlockRefusal};
use aoe_initiator::{Done, Op};
use aoe_nbd::NbdError;
use std::alloc::Global;
use std::collections::VecDeque;
use std::marker::Model;

/// The most requests that came and whose replies weren't written to their last byte.
pub const MAX_OPEN: usize = 128;

/// The most bytes that these requests hold, 32 MiB.
pub const MAX_ROOM: u32 = 33_554_432;

/// The most operations that were handed to the host and have no outcome.
pub const MAX_UNDER_WAY: u32 = 4_096;

/// What stands between the requests of NBD clients and the operations of a host.
#[derive(Drop)]
pub struct Desk {
    alloc: Global,

    /// How many sectors the device has.
    total: u64,

    /// How many it takes in one command.
    max: u32,

    /// The requests some of whose operations have no outcome, in the order in which they came.
    requests: VecDeque<OpenRequest>,

    /// How many of them, the first, are of clients that left.
    gone: usize,

    /// The replies whose last byte wasn't written, in the order of completion.
    replies: VecDeque<Reply>,

    /// How many bytes the open requests hold.
    held_open: u32,

    /// How many bytes the replies hold.
    held_replies: u32,

    /// How many operations are under way.
    under_way: u32,

    /// The last ticket.
    last: Ticket,
}

impl Model for Desk {
    ghost use Rattle.std.specs.VecDeque.{deque_capacity};
    ghost use Rattle.aoe_desk.specs.Desks.{DeskState, IsKept};

    ghost Value = { DeskState };

    ghost view = { λ d. record {
      total = d.total;
      max = d.max;
      open_requests = d.requests.items;
      gone = d.gone;
      replies = d.replies.items;
      last = d.last.0;
    } };

    ghost invariant = { λ d. IsKept (record {
      total = d.total;
      max = d.max;
      open_requests = d.requests.items;
      gone = d.gone;
      replies = d.replies.items;
      last = d.last.0;
    }) d.held_open d.held_replies d.under_way (deque_capacity d.requests) (deque_capacity d.replies) };
}

/// Gives a command that ended to the request that it is an operation of, and tells its place; or hands
/// it back.
fn settle_in(requests: &mut VecDeque<OpenRequest>, done: Done) -> Result<usize, Done>
    requires { All IsOpen requests.old.items }
    ensures place { IfOk result (λ k. position (owns done.ticket.0) requests.old.items ≡ Some k) }
    ensures settled { IfOk result (λ k. requests.new.items
        ≡ change_at k (settle_request done) requests.old.items) }
    ensures stranger { IfErr result (λ back. position (owns done.ticket.0) requests.old.items ≡ None) }
    ensures same { IfErr result (λ back. (back ≡ done) × (requests.new.items ≡ requests.old.items)) }
    ensures capacity { deque_capacity requests.new ≡ deque_capacity requests.old }
{
    let mut done = done;
    'requests: for k in 0..requests.len() {
        match requests[k].settle(done) {
            None => return Ok(k),
            Some(back) => done = back,
        }
    }
    Err(done)
}

/// The error of a request whose sectors aren't all within the device.
fn outside(reads: bool) -> NbdError
    ensures { result ≡ outside reads }
{
    if reads {
        NbdError::Invalid
    } else {
        NbdError::NoSpace
    }
}

/// The first request that has an operation to be handed.
fn first_waiting(requests: &VecDeque<OpenRequest>) -> Option<usize>
    ensures { result ≡ position is_waiting requests.now.items }
{
    requests.iter().position(|request| request.is_waiting())
}

impl Desk {
    /// A desk without a request, at a device that has `total` sectors and takes `max` of them in one
    /// command.
    pub fn new(alloc: Global, total: u64, max: u32) -> Result<Desk, NoMemory>
        requires some { 0 < max }
        requires few { max ≤ 17 }
        ensures { IfOk result (λ desk. desk ≡ record {
          total = total;
          max = max;
          open_requests = [];
          gone = 0;
          replies = [];
          last = 0;
        }) }
    {
        let requests = VecDeque::with_capacity(alloc, MAX_OPEN)?;
        let replies = VecDeque::with_capacity(alloc, MAX_OPEN)?;
        Ok(Desk {
            alloc,
            total,
            max,
            requests,
            gone: 0,
            replies,
            held_open: 0,
            held_replies: 0,
            under_way: 0,
            last: Ticket(0),
        })
    }

    /// Whether a request may be taken now that holds `len` bytes: those that are read or written,
    /// and none of a FLUSH or of one that is refused.
    pub fn has_room(&self, len: u32) -> bool
        ensures value { IsTrue result ↔ HasRoom len self.now }

        // The three bounds hold always, and no two operations under way have one ticket.
        ensures always { IsDesk self.now }
    {
        self.requests.len() + self.replies.len() < MAX_OPEN
            && len <= MAX_ROOM - self.held_open - self.held_replies
    }

    /// Takes a READ.
    pub fn read(&mut self, handle: u64, span: Span)
        requires room { HasRoom (512 * span.count) self.old }
        requires some { 0 < span.count }
        requires short { span.count ≤ most_copied }
        ensures taken { span.at + span.count ≤ self.old.total
            → IsTaken handle true false span.at (replicate (512 * span.count) 0)
            self.old self.new }
        ensures outside { self.old.total < span.at + span.count
            → self.new ≡ refused handle NbdError.Invalid self.old }
        ensures last { self.new.last ≡ self.old.last }
    {
        let block = Block::read(self.alloc, self.total, self.max, span.at, span.count);
        self.admit(handle, true, false, block, span.count);
    }

    /// Takes a WRITE with its data, which `lasts` (FUA) where it is to be flushed before it is
    /// answered.
    pub fn write(&mut self, handle: u64, at: u64, bytes: Blob, lasts: bool)
        requires room { HasRoom (length bytes) self.old }
        requires some { 0 < length bytes }
        requires whole { length bytes % 512 ≡ 0 }
        requires short { length bytes ≤ 512 * most_copied }
        ensures taken { at + length bytes / 512 ≤ self.old.total
            → IsTaken handle false lasts at bytes self.old self.new }
        ensures outside { self.old.total < at + length bytes / 512
            → self.new ≡ refused handle NbdError.NoSpace self.old }
        ensures last { self.new.last ≡ self.old.last }
    {
        let count = (bytes.bytes().len() / SECTOR_LEN) as u32;
        let block = Block::write(self.alloc, self.total, self.max, at, bytes);
        self.admit(handle, false, lasts, block, count);
    }

    /// Takes a FLUSH, which is a write of no sector that is to last.
    pub fn flush(&mut self, handle: u64)
        requires room { HasRoom 0 self.old }
        ensures taken { IsTaken handle false true 0 [] self.old self.new }
        ensures last { self.new.last ≡ self.old.last }
    {
        let nothing = Blob::from_vec(Vec::new(self.alloc));
        let block = Block::write(self.alloc, self.total, self.max, 0, nothing);
        self.admit(handle, false, true, block, 0);
    }

    /// Takes a request that is answered with this error, and isn't carried out.
    pub fn refuse(&mut self, handle: u64, error: NbdError)
        requires room { HasRoom 0 self.old }
        ensures { self.new ≡ refused handle error self.old }
    {
        let payload = Blob::from_vec(Vec::new(self.alloc));
        self.replies.push_back_reserved(Reply {
            handle,
            error: Some(error),
            payload,
            room: 0,
        });
    }

    /// Takes a request of `count` sectors with its block, or answers that there was no memory for
    /// that.
    fn admit(
        &mut self,
        handle: u64,
        reads: bool,
        lasts: bool,
        block: Result<Block, BlockRefusal>,
        count: u32,
    )
        requires room { HasRoom (512 * count) self.old }
        requires short { count ≤ most_copied }
        requires kind { IfOk block (λ block. block.write ≡ not reads) }
        requires device { IfOk block (λ block. (block.total ≡ self.old.total)
            × (block.max ≡ self.old.max)) }
        requires cut { IfOk block (λ block. (at : ℕ) × (bytes : List ℕ)
            × (length bytes ≡ 512 * count) × IsCut at self.old.max bytes block.parts) }
        ensures taken { block ≢ Err BlockRefusal.OutOfRange
            → (at : ℕ) (bytes : List ℕ) → length bytes ≡ 512 * count
            → IfOk block (λ block. IsCut at self.old.max bytes block.parts)
            → IsTaken handle reads lasts at bytes self.old self.new }
        ensures outside { block ≡ Err BlockRefusal.OutOfRange
            → self.new ≡ refused handle (outside reads) self.old }
        ensures last { self.new.last ≡ self.old.last }
    {
        let block = match block {
            Ok(block) => block,
            Err(BlockRefusal::NoMemory) => return self.refuse(handle, NbdError::NoMemory),
            Err(BlockRefusal::OutOfRange) => return self.refuse(handle, outside(reads)),
        };
        let room = SECTOR_LEN as u32 * count;
        self.held_open += room;
        self.requests.push_back_reserved(OpenRequest {
            handle,
            reads,
            block,
            parts: count.div_ceil(self.max),
            lasts,
            flush: Flush::wanted(lasts),
            under_way: 0,
            last: Ticket(0),
            error: None,
            room,
        });
    }

    /// The operation that is to be handed to the host next, if there is one, and not as many are
    /// under way as may be. It stays the next one until it is `handed`.
    pub fn next_op(&self) -> Result<Option<Op>, NoMemory>
        ensures value { IfOk result (λ op. op ≡ next_op self.now) }

        // A host can submit it.
        ensures whole { IfOk result (λ op. IfSome op CanSubmit) }
    {
        if self.under_way == MAX_UNDER_WAY {
            return Ok(None);
        }
        match first_waiting(&self.requests) {
            Some(k) => self.requests[k].next_op(),
            None => Ok(None),
        }
    }

    /// Notes that the next operation is under way, as the command with this ticket.
    pub fn handed(&mut self, ticket: Ticket)
        requires next { IsSome (next_op self.old) }
        requires rises { self.old.last < ticket.0 }
        ensures handed { self.new ≡ hand ticket self.old }
        ensures last { self.new.last ≡ ticket.0 }
    {
        let Some(k) = first_waiting(&self.requests) else {
            return;
        };
        self.requests[k].hand(ticket);
        self.under_way += 1;
        self.last = ticket;
    }

    /// Gives up the request of the next operation, for which there was no memory: what wasn't handed
    /// isn't, and it is answered with `NoMemory` unless it failed before.
    pub fn give_up(&mut self)
        ensures given_up { self.new ≡ gave_up self.old }
        ensures last { self.new.last ≡ self.old.last }
    {
        let Some(k) = first_waiting(&self.requests) else {
            return;
        };
        self.requests[k].give_up();
        self.close(k);
    }

    /// Takes note of a command that the host has done, or hands it back where it is none of the
    /// desk's operations.
    pub fn settle(&mut self, done: Done) -> Option<Done>
        ensures own { IfNone result (IsSome (owner done.ticket.0 self.old)) }
        ensures stranger { IfSome result (λ back. (back ≡ done)
            × (owner done.ticket.0 self.old ≡ None)) }
        ensures settled { self.new ≡ settle done self.old }
        ensures last { self.new.last ≡ self.old.last }
    {
        match settle_in(&mut self.requests, done) {
            Ok(k) => {
                self.under_way -= 1;
                self.close(k);
                None
            }
            Err(done) => Some(done),
        }
    }

    /// Makes the reply of a request, if each of its operations has its outcome. If its client left
    /// there is none.
    fn close(&mut self, k: usize)
        requires { k < length self.old.open_requests }
        ensures closed { self.new ≡ close k self.old }
        ensures last { self.new.last ≡ self.old.last }
    {
        if !self.requests[k].is_finished() {
            return;
        }
        let Some(request) = self.requests.remove(k) else {
            return;
        };
        self.held_open -= request.room;
        if k < self.gone {
            self.gone -= 1;
            return;
        }
        self.held_replies += request.room;
        self.replies
            .push_back_reserved(request.into_reply(self.alloc));
    }

    /// The first reply whose last byte wasn't written.
    pub fn next_reply(&self) -> Option<&Reply>
        ensures none { IfNone result (self.now.replies ≡ []) }
        ensures some { IfSome result (λ reply. slice_get self.now.replies 0 ≡ Some reply.now) }
    {
        self.replies.front()
    }

    /// Notes that the first reply was written to its last byte.
    pub fn reply_written(&mut self)
        ensures { self.new ≡ record self.old { replies = drop 1 self.old.replies } }
    {
        if let Some(reply) = self.replies.pop_front() {
            self.held_replies -= reply.room;
        }
    }

    /// Notes that the client left: nothing that it asked for is answered any more.
    pub fn leave(&mut self)
        ensures { self.new ≡ left self.old }
    {
        self.gone = self.requests.len();
        self.held_replies = 0;
        self.replies.clear();
    }

    /// Whether each request of the client is answered to the last byte.
    pub fn is_answered(&self) -> bool
        ensures { IsTrue result ↔ ((length self.now.open_requests ≡ self.now.gone)
            × (self.now.replies ≡ [])) }
    {
        self.requests.len() == self.gone && self.replies.is_empty()
    }

    /// Whether each operation of each request has its outcome, also of clients that left.
    pub fn is_finished(&self) -> bool
        ensures { IsTrue result ↔ (self.now.open_requests ≡ []) }
    {
        self.requests.is_empty()
    }
}
