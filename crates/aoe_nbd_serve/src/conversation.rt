//! The conversation with the client that is there.
ghost use Rattle.std.specs.Prelude.{◌≡◌, ◌<◌, ◌≤◌, ◌*◌, ◌||◌, [], Ok, Err, IfErr, IfOk, OnErr, OnOk, is_ok, length, true};
ghost use Rattle.aoe_clients.specs.Clients.{stays};
ghost use Rattle.aoe_desk.specs.Desks.{DeskState};
ghost use Rattle.aoe_nbd_serve.specs.Conversations.{begins, end_of, greeted, is_reading, limit_in, phase_behind, phase_ended, phase_past, timed, Converses, Leads, LeadsOn, Turns};

use crate::answer::Answer;
use crate::input::Input;
use crate::phase::{Ended, Phase};
use crate::replies::{len_of, send_piece};
use crate::requests::Coming;
use aoe_base::{Millis, NoMemory};
use aoe_clients::{Clients, Moved};
use aoe_desk::Desk;
use aoe_nbd::{Event, Export, Handshake, HandshakeEvent, Transmission};
use std::alloc::Global;
use std::marker::Model;

/// The most pieces that are written, and the most options and requests that are taken, in one turn.
const MOST: u32 = 128;

/// How long a client may take for its handshake, and for what is left for it at the end, in
/// milliseconds.
const LIMIT: u64 = 10_000;

/// The conversation with the client that is there.
#[derive(Drop)]
pub struct Conversation<'a> {
    export: &'a Export,
    phase: Phase,
    input: Input,
    answer: Answer,
    coming: Coming,

    /// How many bytes of the desk's first reply were sent.
    replied: usize,

    /// Whether its transmission has begun.
    is_through: bool,

    /// When it has to be through with its handshake, or with what is left for it.
    limit: u64,
}

impl<'a> Model for Conversation<'a> {
    ghost use Rattle.aoe_nbd_serve.specs.Asking.{IsKeptIn};
    ghost use Rattle.aoe_nbd_serve.specs.Conversations.{ConversationState};

    ghost Value = { ConversationState };

    ghost view = { λ c. record {
      export = c.export.now;
      phase = c.phase;
      unread = c.input;
      unsent = c.answer;
      payload = c.coming.payload.items;
      replied = c.replied;
      is_through = c.is_through;
      limit = c.limit;
    } };

    ghost invariant = { λ c. IsKeptIn c.export.now c.phase c.coming };
}

/// Whether what the client says is still read.
fn is_reading(phase: &Phase) -> bool
    ensures { result ≡ is_reading phase.now }
{
    match phase {
        Phase::Handshake(_) | Phase::Transmission(_) => true,
        Phase::Leaving | Phase::BadOption | Phase::BadRequest => false,
    }
}

/// Whether the transmission has begun, behind an option.
fn has_begun(before: bool, event: HandshakeEvent) -> bool
    ensures { result ≡ (before || begins event) }
{
    before || event == HandshakeEvent::Begins
}

/// What comes next behind an option.
fn note_heard(phase: &mut Phase, event: HandshakeEvent)
    ensures { phase.new ≡ phase_behind event phase.old }
{
    match event {
        HandshakeEvent::More | HandshakeEvent::Flags | HandshakeEvent::Answered => {}
        HandshakeEvent::Begins => *phase = Phase::Transmission(Transmission::new()),
        HandshakeEvent::Leaves => *phase = Phase::Leaving,
        HandshakeEvent::Unknown | HandshakeEvent::Broken | HandshakeEvent::Ended => {
            *phase = Phase::BadOption;
        }
    }
}

/// What comes next behind a request, or a piece of one.
fn note_asked(phase: &mut Phase, event: Event)
    ensures { phase.new ≡ phase_past event phase.old }
{
    match event {
        Event::More
        | Event::Begins(_)
        | Event::Data
        | Event::Skipped
        | Event::Came(_)
        | Event::Refused { .. } => {}
        Event::Disconnected => *phase = Phase::Leaving,
        Event::BadMagic | Event::Ended => *phase = Phase::BadRequest,
    }
}

impl<'a> Conversation<'a> {
    /// With a client that came at this time, and is greeted.
    pub fn new(alloc: Global, export: &'a Export, now: Millis) -> Result<Conversation<'a>, NoMemory>
        ensures { IfOk result (λ conversation. conversation ≡ greeted export.now now.0) }
    {
        Ok(Conversation {
            export,
            phase: Phase::Handshake(Handshake::new()),
            input: Input::new(alloc)?,
            answer: Answer::greeting(),
            coming: Coming::new(alloc),
            replied: 0,
            is_through: false,
            limit: now.0.saturating_add(LIMIT),
        })
    }
}

impl Conversation<'_> {
    /// Reads nothing more. What was asked for is still answered.
    pub fn end(&mut self)
        ensures { self.new ≡ record self.old { phase = phase_ended self.old.phase } }
    {
        match self.phase {
            Phase::Handshake(_) | Phase::Transmission(_) => self.phase = Phase::Leaving,
            Phase::Leaving | Phase::BadOption | Phase::BadRequest => {}
        }
    }

    /// Whether the client came through its handshake.
    pub fn is_through(&self) -> bool
        ensures { result ≡ self.now.is_through }
    {
        self.is_through
    }

    /// When it may end for want of time, in milliseconds of the clock.
    pub fn limit(&self) -> Option<u64>
        ensures { result ≡ limit_in self.now.phase self.now.limit }
    {
        match self.phase {
            Phase::Handshake(_) | Phase::Leaving => Some(self.limit),
            Phase::Transmission(_) | Phase::BadOption | Phase::BadRequest => None,
        }
    }

    /// Moves the limit on, unless the client is to be through by then.
    fn move_limit(&mut self, desk: &Desk, now: Millis)
        ensures { self.new ≡ timed now.0 desk.now self.old }
    {
        let is_timed = match self.phase {
            Phase::Handshake(_) | Phase::BadOption | Phase::BadRequest => true,
            Phase::Transmission(_) => false,
            Phase::Leaving => desk.is_finished(),
        };
        if !is_timed {
            self.limit = now.0.saturating_add(LIMIT);
        }
    }

    /// Sends some of what is left of the answer.
    fn send_answer<C: Clients>(&mut self, clients: &mut C) -> Moved
        requires connected { C.connected clients.old ≡ true }
        requires some { 0 < length self.old.unsent }
        ensures leads { (d : DeskState) → Leads (C.told clients.old) (C.told clients.new) result
            self.old d self.new d }
        ensures connected { C.connected clients.new ≡ stays result }
        ensures no_fault { C.faults clients.new ≡ C.faults clients.old }
        ensures export { self.new.export ≡ self.old.export }
    {
        self.answer.send_to(clients)
    }

    /// Sends some of what is left of the first reply.
    fn send_reply<C: Clients>(&mut self, clients: &mut C, desk: &mut Desk) -> Moved
        requires connected { C.connected clients.old ≡ true }
        requires behind { self.old.unsent ≡ [] }
        ensures leads { Leads (C.told clients.old) (C.told clients.new) result self.old desk.old
            self.new desk.new }
        ensures connected { C.connected clients.new ≡ stays result }
        ensures no_fault { C.faults clients.new ≡ C.faults clients.old }
    {
        let Some(reply) = desk.next_reply() else {
            return Moved::Nothing;
        };
        let moved = send_piece(reply, &mut self.replied, clients);
        if self.replied < len_of(reply) {
            return moved;
        }
        self.replied = 0;
        desk.reply_written();
        moved
    }

    /// Writes a piece of what is to be said.
    fn write_next<C: Clients>(&mut self, clients: &mut C, desk: &mut Desk) -> Moved
        requires { C.connected clients.old ≡ true }
        ensures leads { Leads (C.told clients.old) (C.told clients.new) result self.old desk.old
            self.new desk.new }
        ensures connected { C.connected clients.new ≡ stays result }
        ensures no_fault { C.faults clients.new ≡ C.faults clients.old }
    {
        if self.answer.is_sent() {
            self.send_reply(clients, desk)
        } else {
            self.send_answer(clients)
        }
    }

    /// Writes what the client takes: whether that was something, or that it has left.
    fn write_some<C: Clients>(&mut self, clients: &mut C, desk: &mut Desk) -> Result<bool, Ended>
        requires { C.connected clients.old ≡ true }
        ensures turns { Turns (C.told clients.old) (C.told clients.new) result self.old desk.old
            self.new desk.new }
        ensures connected { C.connected clients.new ≡ is_ok result }
        ensures closed { IfErr result (λ ended. ended ≡ Ended.Closed) }
        ensures no_fault { C.faults clients.new ≡ C.faults clients.old }
    {
        let mut is_written = false;
        'pieces: for _ in 0..MOST {
            match self.write_next(clients, desk) {
                Moved::Bytes(_) => is_written = true,
                Moved::Nothing => return Ok(is_written),
                Moved::Left => return Err(Ended::Closed),
            }
        }
        Ok(is_written)
    }

    /// Takes an option, once the answers before were sent: whether one was there.
    fn take_option(&mut self) -> bool
        ensures leads { (d : DeskState) → LeadsOn self.old d self.new d }
    {
        if !self.answer.is_sent() {
            return false;
        }
        let Phase::Handshake(handshake) = &mut self.phase else {
            return false;
        };
        let taken = self.answer.take(handshake, self.export, self.input.bytes());
        self.input.drop_front(taken.len);
        self.is_through = has_begun(self.is_through, taken.event);
        note_heard(&mut self.phase, taken.event);
        taken.event != HandshakeEvent::More
    }

    /// Takes a request, or a piece of the data of a write: whether there was one, and room for it.
    fn take_request(&mut self, desk: &mut Desk) -> bool
        requires { self.old.export.size ≤ 512 * desk.old.total }
        ensures leads { LeadsOn self.old desk.old self.new desk.new }
    {
        let Phase::Transmission(transmission) = &mut self.phase else {
            return false;
        };
        let event = self
            .coming
            .take(transmission, self.export, &mut self.input, desk);
        note_asked(&mut self.phase, event);
        event != Event::More
    }

    /// Takes what comes next: whether there was something.
    fn take_next(&mut self, desk: &mut Desk) -> bool
        requires { self.old.export.size ≤ 512 * desk.old.total }
        ensures leads { LeadsOn self.old desk.old self.new desk.new }
    {
        match self.phase {
            Phase::Handshake(_) => self.take_option(),
            Phase::Transmission(_) => self.take_request(desk),
            Phase::Leaving | Phase::BadOption | Phase::BadRequest => false,
        }
    }

    /// Takes what it can of the input: whether that was something.
    fn take_some(&mut self, desk: &mut Desk) -> bool
        requires { self.old.export.size ≤ 512 * desk.old.total }
        ensures leads { LeadsOn self.old desk.old self.new desk.new }
    {
        let mut is_taken = false;
        'messages: for _ in 0..MOST {
            if !self.take_next(desk) {
                return is_taken;
            }
            is_taken = true;
        }
        is_taken
    }

    /// Reads what the client says, if that is wanted: whether it said something, or that it has left.
    fn read_some<C: Clients>(&mut self, clients: &mut C) -> Result<bool, Ended>
        requires { C.connected clients.old ≡ true }
        ensures turns { (d : DeskState) → Turns (C.told clients.old) (C.told clients.new) result
            self.old d self.new d }
        ensures connected { C.connected clients.new ≡ is_ok result }
        ensures closed { IfErr result (λ ended. ended ≡ Ended.Closed) }
        ensures no_fault { C.faults clients.new ≡ C.faults clients.old }
    {
        if !is_reading(&self.phase) {
            return Ok(false);
        }
        match self.input.read_from(clients) {
            Moved::Bytes(_) => return Ok(true),
            Moved::Nothing => return Ok(false),
            Moved::Left => return Err(Ended::Closed),
        }
    }

    /// How the conversation ends now, if it does, with a client that hasn't left.
    fn end_of(&self, desk: &Desk, now: Millis) -> Option<Ended>
        ensures { result ≡ end_of now.0 desk.now self.now }
    {
        let is_late = now.0 >= self.limit;
        match self.phase {
            Phase::Handshake(_) if is_late => Some(Ended::BadOption),
            Phase::Handshake(_) | Phase::Transmission(_) => None,
            Phase::Leaving if self.answer.is_sent() && desk.is_answered() => Some(Ended::Done),
            Phase::Leaving if is_late => Some(Ended::Late),
            Phase::Leaving => None,
            Phase::BadOption => Some(Ended::BadOption),
            Phase::BadRequest => Some(Ended::BadRequest),
        }
    }

    /// Writes, takes and reads what there is: whether that was something, or that the client has left.
    fn talk<C: Clients>(&mut self, clients: &mut C, desk: &mut Desk) -> Result<bool, Ended>
        requires connected { C.connected clients.old ≡ true }
        requires size { self.old.export.size ≤ 512 * desk.old.total }
        ensures turns { Turns (C.told clients.old) (C.told clients.new) result self.old desk.old
            self.new desk.new }
        ensures connected { C.connected clients.new ≡ is_ok result }
        ensures closed { IfErr result (λ ended. ended ≡ Ended.Closed) }
        ensures no_fault { C.faults clients.new ≡ C.faults clients.old }
    {
        let is_written = match self.write_some(clients, desk) {
            Ok(is_written) => is_written,
            Err(_) => return Err(Ended::Closed),
        };
        let is_taken = self.take_some(desk);
        match self.read_some(clients) {
            Ok(is_read) => Ok(is_written | is_taken | is_read),
            Err(_) => Err(Ended::Closed),
        }
    }

    /// One turn with the client: whether something was written, taken or read, or how the conversation
    /// ended. Then the client isn't there any more.
    pub fn converse<C: Clients>(
        &mut self,
        clients: &mut C,
        desk: &mut Desk,
        now: Millis,
    ) -> Result<bool, Ended>
        requires connected { C.connected clients.old ≡ true }

        // What is served lies on the desk's device.
        requires size { self.old.export.size ≤ 512 * desk.old.total }
        ensures converses { Converses now.0 (C.told clients.old) (C.told clients.new) self.old
            desk.old result self.new desk.new }
        ensures connected { C.connected clients.new ≡ is_ok result }
        ensures no_fault { C.faults clients.new ≡ C.faults clients.old }
        ensures export { self.new.export ≡ self.old.export }
        ensures last { desk.new.last ≡ desk.old.last }
        ensures total { desk.new.total ≡ desk.old.total }
        ensures max { desk.new.max ≡ desk.old.max }
    {
        self.move_limit(desk, now);
        let has_moved = match self.talk(clients, desk) {
            Ok(has_moved) => has_moved,
            Err(_) => return Err(Ended::Closed),
        };
        let Some(ended) = self.end_of(desk, now) else {
            return Ok(has_moved);
        };
        clients.close();
        Err(ended)
    }
}
