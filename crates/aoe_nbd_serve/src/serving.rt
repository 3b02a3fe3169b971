//! What a server keeps while it runs, and what it does with outcomes, operations and its end.
ghost use Rattle.std.specs.Prelude.{◌≡◌, ◌≢◌, ◌+◌, ◌-◌, ◌*◌, ◌<◌, ◌≤◌, ◌^◌, ◌∷◌, ◌||◌, ◌&&◌, ◌↔◌, ℕ, List, [], Option, Some, None, Ok, Err, IfErr, IfOk, IfSome, OnErr, IsTrue, length, true, is_some};
ghost use Rattle.aoe_desk.specs.Desks.{next_op, DeskState};
ghost use Rattle.aoe_initiator.specs.Op.{CanSubmit};
ghost use Rattle.aoe_initiator.specs.declared.outcome.Outcome.{Outcome as OutcomeOf};
ghost use Rattle.aoe_io.specs.Link.{Added};
ghost use Rattle.aoe_block.specs.Steps.{new_start, owns};
ghost use Rattle.aoe_nbd_serve.specs.Account.{IsOver, LastEnded, ServeSeen, Setting};
ghost use Rattle.aoe_nbd_serve.specs.Deeds.{is_written};
ghost use Rattle.aoe_nbd_serve.specs.Ends.{IsNew, IsServed};
ghost use Rattle.aoe_nbd_serve.specs.Serving.{GoesOn, IsFit, IsSettled, Serves};

use crate::conversation::Conversation;
use crate::terms::{Asked, ServeEnd, Served, Terms};
use aoe_base::{Millis, NoMemory, Ticket};
use aoe_block::DEVICE;
use aoe_desk::Desk;
use aoe_frame::Frame;
use aoe_initiator::{Done, Initiator, Op, Outcome, SubmitRefusal};
use std::alloc::Global;

/// How many outcomes are taken, and operations submitted, in one turn.
const MOST: u32 = 4_096;

/// What a server keeps while it runs.
#[derive(Drop)]
pub(crate) struct Serving<'a> {
    pub(crate) alloc: Global,
    pub(crate) terms: &'a Terms,
    pub(crate) host: Initiator,
    pub(crate) desk: Desk,

    /// With the client that is there.
    pub(crate) conversation: Option<Conversation<'a>>,

    /// Room for a frame.
    pub(crate) frame: Frame,

    /// What the clock said first and last.
    pub(crate) first: Millis,
    pub(crate) time: Millis,

    /// When it is asked next whether to end.
    pub(crate) look: u64,

    /// Whether a write was acknowledged.
    pub(crate) has_written: bool,

    /// Why the end was asked for.
    pub(crate) asked: Option<Asked>,

    /// The last flush, once it is under way.
    pub(crate) last: Option<Ticket>,

    /// How many waits there were since a client was there.
    pub(crate) waits: u64,

    pub(crate) served: Served,
}

/// Whether a write was acknowledged, by this outcome or before.
fn has_written(before: bool, outcome: &Outcome) -> bool
    ensures { result ≡ (is_written outcome.now || before) }
{
    match outcome {
        Outcome::Written => true,
        Outcome::Read(_)
        | Outcome::Flushed
        | Outcome::Told(_)
        | Outcome::AtaError { .. }
        | Outcome::AoeError(_)
        | Outcome::GaveUp { .. } => before,
    }
}

/// Whether a flush was acknowledged.
fn is_flushed(outcome: &Outcome) -> bool
    ensures { IsTrue result ↔ (outcome.now ≡ Outcome.Flushed) }
{
    match outcome {
        Outcome::Flushed => true,
        Outcome::Read(_)
        | Outcome::Written
        | Outcome::Told(_)
        | Outcome::AtaError { .. }
        | Outcome::AoeError(_)
        | Outcome::GaveUp { .. } => false,
    }
}

/// What came of the next outcome.
#[derive(Drop)]
pub(crate) enum Settled {
    /// There was none.
    Nothing,

    /// It was an operation's.
    Operation,

    /// It was the last flush's.
    Last(Outcome),
}

impl<'a> Serving<'a> {
    /// A server that begins, behind the first look at the clock.
    pub(crate) fn new(
        alloc: Global,
        terms: &'a Terms,
        host: Initiator,
        desk: Desk,
        first: Millis,
    ) -> Serving<'a>
        requires new { IsNew terms.now host }
        requires desk { desk ≡ record { total = terms.now.total; max = terms.now.max; open_requests = []; gone = 0; replies = []; last = 0 } }
        requires some { 0 < terms.now.max }
        requires most { terms.now.max ≤ 17 }
        requires size { terms.now.export.size ≡ 512 * terms.now.total }
        ensures fit { IsFit result }
        ensures nobody { result.conversation ≡ None }
        ensures serves { (seen : ServeSeen) (later : Option (List ℕ))
            → IfSome later (λ _. Added seen.link.answers later (first.0 ∷ []))
            → Serves (record { start = new_start host; terms = terms.now; before = seen })
            (record seen { link = record seen.link { answers = later } }) 0 result }
    {
        let mut host = host;
        host.advance(first);
        Serving {
            alloc,
            terms,
            host,
            desk,
            conversation: None,
            frame: Frame::new(),
            first,
            time: first,
            look: 0,
            has_written: false,
            asked: None,
            last: None,
            waits: 0,
            served: Served {
                clients: 0,
                commands: 0,
            },
        }
    }
}

impl Serving<'_> {
    /// Whether the last flush is under way with this ticket.
    fn is_last(&self, ticket: Ticket) -> bool
        ensures { IsTrue result ↔ (self.now.last ≡ Some ticket) }
    {
        match self.last {
            Some(own) => own == ticket,
            None => false,
        }
    }

    /// Takes the next outcome, and gives it to the desk.
    fn settle_next(&mut self) -> Settled
        requires { IsFit self.old }
        ensures fit { IsFit self.new }
        ensures conversation { self.new.conversation ≡ self.old.conversation }
        ensures settles { (c : Setting) (seen : ServeSeen) (most : ℕ) → Serves c seen most self.old
            → IsSettled result c seen most self.new }
    {
        let Some(done) = self.host.take_done() else {
            return Settled::Nothing;
        };
        self.has_written = has_written(self.has_written, &done.outcome);
        let Some(back) = self.desk.settle(done) else {
            return Settled::Operation;
        };
        if self.is_last(back.ticket) {
            Settled::Last(back.outcome)
        } else {
            Settled::Operation
        }
    }

    /// Takes the outcomes that wait, a turn's at most: whether there were some, or the one of the last
    /// flush.
    pub(crate) fn settle_some(&mut self) -> Result<bool, Outcome>
        requires { IsFit self.old }
        ensures fit { IsFit self.new }
        ensures conversation { self.new.conversation ≡ self.old.conversation }
        ensures settles { (c : Setting) (seen : ServeSeen) (most : ℕ) → Serves c seen most self.old
            → (s : Serves c seen most self.new) × IfErr result (λ says. LastEnded (owns s.steps) says) }
    {
        let mut is_settled = false;
        'outcomes: for _ in 0..MOST {
            match self.settle_next() {
                Settled::Nothing => return Ok(is_settled),
                Settled::Operation => is_settled = true,
                Settled::Last(outcome) => return Err(outcome),
            }
        }
        Ok(is_settled)
    }

    /// Whether no frame of an earlier run can arrive any more.
    fn is_rested(&self) -> bool
        ensures { IsTrue result ↔ (self.now.first.0 + self.now.terms.now.quarantine.0 ≤ self.now.time.0) }
    {
        self.time >= self.first && self.time.0 - self.first.0 >= self.terms.quarantine.0
    }

    /// Whether there is a ticket for one more command.
    fn has_ticket(&self) -> bool
        ensures { IsTrue result ↔ (self.now.served.commands < 2 ^ 64 - 2) }
    {
        self.served.commands < u64::MAX - 1
    }

    /// Submits the desk's next operation: whether it could be. Where there is no memory for it, or no
    /// ticket, its request is given up.
    fn submit(&mut self, op: Op) -> bool
        requires fit { IsFit self.old }
        requires op { CanSubmit op }
        requires next { next_op self.old.desk ≡ Some op }
        requires open { self.old.last ≡ None }
        requires rested { self.old.first.0 + self.old.terms.now.quarantine.0 ≤ self.old.time.0 }
        ensures fit { IsFit self.new }
        ensures conversation { self.new.conversation ≡ self.old.conversation }
        ensures submits { (c : Setting) (seen : ServeSeen) (most : ℕ) → Serves c seen most self.old
            → Serves c seen most self.new }
    {
        if !self.has_ticket() {
            self.desk.give_up();
            return true;
        }
        match self.host.submit(DEVICE, op) {
            Ok(ticket) => {
                self.desk.handed(ticket);
                self.served.commands += 1;
                true
            }
            Err((SubmitRefusal::NoMemory, _)) => {
                self.desk.give_up();
                true
            }
            // The most commands wait there already.
            Err(_) => false,
        }
    }

    /// Submits the operation that is next: whether there was one, and it could be.
    fn submit_next(&mut self) -> bool
        requires { IsFit self.old }
        ensures fit { IsFit self.new }
        ensures conversation { self.new.conversation ≡ self.old.conversation }
        ensures submits { (c : Setting) (seen : ServeSeen) (most : ℕ) → Serves c seen most self.old
            → Serves c seen most self.new }
    {
        if self.last.is_some() {
            return false;
        }
        if !self.is_rested() {
            return false;
        }
        match self.desk.next_op() {
            Ok(Some(op)) => self.submit(op),
            Ok(None) => false,
            Err(NoMemory) => {
                self.desk.give_up();
                true
            }
        }
    }

    /// Submits what the requests ask for, a turn's at most: whether that was something.
    pub(crate) fn submit_some(&mut self) -> bool
        requires { IsFit self.old }
        ensures fit { IsFit self.new }
        ensures conversation { self.new.conversation ≡ self.old.conversation }
        ensures submits { (c : Setting) (seen : ServeSeen) (most : ℕ) → Serves c seen most self.old
            → Serves c seen most self.new }
    {
        let mut is_submitted = false;
        'operations: for _ in 0..MOST {
            if !self.submit_next() {
                return is_submitted;
            }
            is_submitted = true;
        }
        is_submitted
    }

    /// Why the end was asked for, once no client is there and no request is open.
    fn over(&self) -> Option<Asked>
        ensures { (c : Setting) (seen : ServeSeen) (most : ℕ) (s : Serves c seen most self.now)
            → IfSome result (λ why. IsOver c.terms why (owns s.steps)) }
    {
        if self.conversation.is_some() || !self.desk.is_finished() {
            return None;
        }
        self.asked
    }

    /// Whether a flush is wanted at the end.
    fn is_flush_wanted(&self) -> bool
        ensures { result ≡ (self.now.terms.now.export.flushes && self.now.has_written) }
    {
        self.terms.export.flushes && self.has_written
    }

    /// Goes on towards the end that was asked for: it is there, or the last flush is submitted first.
    pub(crate) fn end(&mut self) -> Result<(), ServeEnd>
        requires { IsFit self.old }
        ensures fit { IsFit self.new }
        ensures conversation { self.new.conversation ≡ self.old.conversation }
        ensures ends { (c : Setting) (seen : ServeSeen) (most : ℕ) → Serves c seen most self.old
            → GoesOn result c seen most self.new }
        ensures link { result ≢ Err ServeEnd.LinkFault }
        ensures clients { result ≢ Err ServeEnd.ClientFault }
    {
        let Some(why) = self.over() else {
            return Ok(());
        };
        if self.last.is_some() {
            return Ok(());
        }
        if !self.is_flush_wanted() {
            return Err(ServeEnd::Ended(why));
        }
        if !self.is_rested() {
            return Ok(());
        }
        self.flush()
    }

    /// Submits the last flush.
    fn flush(&mut self) -> Result<(), ServeEnd>
        requires fit { IsFit self.old }
        requires open { self.old.last ≡ None }
        requires wanted { (self.old.terms.now.export.flushes && self.old.has_written) ≡ true }
        requires rested { self.old.first.0 + self.old.terms.now.quarantine.0 ≤ self.old.time.0 }
        ensures fit { IsFit self.new }
        ensures conversation { self.new.conversation ≡ self.old.conversation }
        ensures flushes { (c : Setting) (seen : ServeSeen) (most : ℕ) (s : Serves c seen most self.old)
            → ((why : Asked) × IsOver c.terms why (owns s.steps))
            → GoesOn result c seen most self.new }
        ensures memory { IfErr result (λ end. end ≡ ServeEnd.NoMemory) }
    {
        if !self.has_ticket() {
            return Err(ServeEnd::NoMemory);
        }
        let ticket = match self.host.submit(DEVICE, Op::Flush) {
            Ok(ticket) => ticket,
            Err(_) => return Err(ServeEnd::NoMemory),
        };
        self.last = Some(ticket);
        Ok(())
    }

    /// How the serving ended, where the last flush had this outcome.
    pub(crate) fn end_of(&self, outcome: Outcome) -> ServeEnd
        ensures ends { (c : Setting) (seen : ServeSeen) (most : ℕ) (s : Serves c seen most self.now)
            → LastEnded (owns s.steps) outcome → IsServed result self.now.served (is_some self.now.conversation) c seen }
        ensures link { result ≢ ServeEnd.LinkFault }
        ensures clients { result ≢ ServeEnd.ClientFault }
    {
        if is_flushed(&outcome)
            && let Some(why) = self.asked
        {
            return ServeEnd::Ended(why);
        }
        ServeEnd::Unflushed(outcome)
    }

    /// Looks at the clock: commands that nobody answered for too long are given up.
    pub(crate) fn tick(&mut self, time: Millis)
        requires { IsFit self.old }
        ensures fit { IsFit self.new }
        ensures conversation { self.new.conversation ≡ self.old.conversation }
        ensures ticks { (c : Setting) (seen : ServeSeen) (later : Option (List ℕ)) (most : ℕ)
            → IfSome later (λ _. Added seen.link.answers later (time.0 ∷ []))
            → Serves c seen most self.old
            → Serves c (record seen { link = record seen.link { answers = later } }) 0 self.new }
    {
        self.time = time;
        self.host.advance(time);
    }
}
