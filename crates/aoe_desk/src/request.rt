//! A request some of whose operations have no outcome.
ghost use Rattle.std.specs.Prelude.{◌≡◌, ◌<◌, ◌≤◌, IfNone, IfOk, IfSome, None, false, true};
ghost use Rattle.aoe_initiator.specs.HostLaw.{op_refusal};
ghost use Rattle.aoe_initiator.specs.Op.{CanSubmit};
ghost use Rattle.aoe_initiator.specs.declared.device.Attached.{Attached};
ghost use Rattle.aoe_desk.specs.Requests.{ended, failed, gave_up, hand, is_finished, is_waiting, next_op, owns, reply_of, settle, IsOpen};

use crate::Reply;
use crate::flush::Flush;
use crate::reply::{error_of, flush_error};
use aoe_base::{Blob, NoMemory, Ticket};
use aoe_block::{Block, Took};
use aoe_initiator::{Done, Op};
use aoe_nbd::NbdError;
use std::alloc::Global;

/// A request some of whose operations have no outcome.
#[derive(Drop)]
pub(crate) struct OpenRequest {
    /// What the client knows it by.
    pub handle: u64,

    /// Whether it is answered with data.
    pub reads: bool,

    /// Its sectors: none of a FLUSH.
    pub block: Block,

    /// How many parts of them are still to be handed.
    pub parts: u32,

    /// Whether there is a flush behind them.
    pub lasts: bool,

    /// How far it is.
    pub flush: Flush,

    /// How many of its operations are under way.
    pub under_way: u32,

    /// The last ticket that one of them got.
    pub last: Ticket,

    /// The error of the first that failed.
    pub error: Option<NbdError>,

    /// How many bytes it holds.
    pub room: u32,
}

impl OpenRequest {
    /// Whether an operation is still to be handed.
    pub(crate) fn is_waiting(&self) -> bool
        ensures { result ≡ is_waiting self.now }
    {
        self.parts > 0 || self.flush.is_waiting()
    }

    /// Whether each operation has its outcome.
    pub(crate) fn is_finished(&self) -> bool
        ensures { result ≡ is_finished self.now }
    {
        !self.is_waiting() && self.under_way == 0
    }

    /// The operation that is to be handed next.
    pub(crate) fn next_op(&self) -> Result<Option<Op>, NoMemory>
        ensures value { IfOk result (λ op. op ≡ next_op self.now) }
        ensures whole { IfOk result (λ op. IfSome op CanSubmit) }
        ensures admitted { IfOk result (λ op. IfSome op (λ op. (about : Attached) → about.total ≡ self.now.block.total
            → self.now.block.max ≤ about.max → op_refusal about op ≡ None)) }
    {
        if self.parts > 0 {
            return self.block.pending();
        }
        Ok(if self.flush.is_waiting() {
            Some(Op::Flush)
        } else {
            None
        })
    }

    /// Notes that the next operation is under way with this ticket.
    pub(crate) fn hand(&mut self, ticket: Ticket)
        requires waiting { is_waiting self.old ≡ true }
        requires kept { IsOpen self.old }
        requires rises { self.old.last.0 < ticket.0 }
        requires few { self.old.under_way < 4096 }
        ensures { self.new ≡ hand ticket self.old }
    {
        if self.parts > 0 {
            self.block.handed(ticket);
            self.parts -= 1;
        } else {
            self.flush = Flush::Handed(ticket);
        }
        self.under_way += 1;
        self.last = ticket;
    }

    /// Gives up what wasn't handed, for want of memory.
    pub(crate) fn give_up(&mut self)
        ensures { self.new ≡ gave_up self.old }
    {
        self.parts = 0;
        self.flush = self.flush.given_up();
        self.fail(Some(NbdError::NoMemory));
    }

    /// Takes note of a command that ended, or hands it back where it is none of these operations.
    pub(crate) fn settle(&mut self, done: Done) -> Option<Done>
        requires { IsOpen self.old }
        ensures owner { IfNone result (owns done.ticket.0 self.old ≡ true) }
        ensures settled { IfNone result (self.new ≡ settle done self.old) }
        ensures stranger { IfSome result (λ back. owns done.ticket.0 self.old ≡ false) }
        ensures same { IfSome result (λ back. (back ≡ done) × (self.new ≡ self.old)) }
    {
        if self.last.0 < done.ticket.0 {
            return Some(done);
        }
        if self.flush.is_handed(done.ticket) {
            let error = flush_error(&done.outcome);
            self.flush = Flush::ended(error.is_none());
            self.end(error);
            return None;
        }
        match self.block.take(done) {
            Took::NotMine(done) => Some(done),
            Took::More => {
                self.end(None);
                None
            }
            Took::Whole => {
                self.end(None);
                None
            }
            Took::Part(outcome) => {
                self.end(Some(error_of(&outcome)));
                None
            }
        }
    }

    /// One of the operations has its outcome.
    fn end(&mut self, error: Option<NbdError>)
        requires { 0 < self.old.under_way }
        ensures { self.new ≡ ended error self.old }
    {
        self.under_way -= 1;
        self.fail(error);
    }

    /// Takes note of an error, if it is the first.
    fn fail(&mut self, error: Option<NbdError>)
        ensures { self.new ≡ failed error self.old }
    {
        if self.error.is_none() {
            self.error = error;
        }
    }

    /// The reply, once each operation has its outcome.
    pub(crate) fn into_reply(self, alloc: Global) -> Reply
        ensures { result ≡ reply_of self }
    {
        let OpenRequest {
            handle,
            reads,
            block,
            error,
            room,
            ..
        } = self;
        let payload = if reads && error.is_none() {
            block.into_bytes()
        } else {
            Blob::from_vec(Vec::new(alloc))
        };
        Reply {
            handle,
            error,
            payload,
            room,
        }
    }
}
