//! The core of a host: which frame it may send next, and which response ends a command.
ghost use Rattle.std.specs.Prelude.{Option, ◌≡◌, ◌≢◌, ◌+◌, ◌-◌, ◌^◌, ◌<◌, ◌≤◌, ◌⊎◌, ◌∷◌, ◌++◌, ℕ, List, [], false, true, length, map, max, position, nat_eq, reverse, All, Contains, Err, IfErr, IfNone, IfOk, IfSome, IsSome, MatchOption, None, OnErr, OnOk, OnSome, Some, drop, option_map, slice_get, slice_index_or, if◌then◌else◌};
ghost use Rattle.std.specs.List.{find, remove};
ghost use Rattle.std.specs.Option.{option_and_then, option_to_list};
ghost use Rattle.std.specs.VecDeque.{deque_capacity};
ghost use Rattle.aoe_base.specs.declared.counted.Ticket.{Ticket};
ghost use Rattle.aoe_base.specs.Addresses.{IsDistinct};
ghost use Rattle.aoe_base.specs.Sizes.{longest_lifetime, most_room};
ghost use Rattle.aoe_flight.specs.declared.outstanding.Flying.{Flying};
ghost use Rattle.aoe_flight.specs.declared.outstanding.Outstanding.{Outstanding};
ghost use Rattle.aoe_flight.specs.FlightTable.{after_change, Recalls};
ghost use Rattle.aoe_flight.specs.Outstanding.{after_finish, change_of, flies_as, is_due, is_expired, is_taken, launched, live};
ghost use Rattle.aoe_paths.specs.PathTable.{pair_of};
ghost use Rattle.aoe_initiator.specs.declared.device.Device.{Device};
ghost use Rattle.aoe_initiator.specs.declared.outcome.Done.{Done};
ghost use Rattle.aoe_initiator.specs.declared.pending.Pending.{Pending};
ghost use Rattle.aoe_initiator.specs.Devices.{all_clear, change_at, device_at, device_finished, trip_from, IsLowest};
ghost use Rattle.aoe_initiator.specs.Host.{new_device, new_host, with_device, Closes, IsSame, Matches, RecallAll};
ghost use Rattle.aoe_initiator.specs.HostLaw.{answer_to, attach_refusal, ended, flying_of, has_id, held_at, is_from, is_response_to, most_held, submit_refusal, CameOn, GaveUpInTurn, IsFrameOf, IsNext, IsNextTime, IsOnNextPath, IsQuiet, IsRepeat, Takes};
ghost use Rattle.aoe_initiator.specs.HostLog.{clock, commands, sent_of, Event, HostCommand};
ghost use Rattle.aoe_initiator.specs.HostLog.Event.{Advances, Ends, Sends, Submits};
ghost use Rattle.aoe_initiator.specs.Op.{data_len, CanSubmit};
ghost use Rattle.aoe_initiator.specs.Request.{CanSpell};
ghost use Rattle.aoe_initiator.specs.Response.{outcome_of, CanFill};
ghost use Rattle.aoe_initiator.specs.Steps.{is_flying_above, is_full, place, GivesTag, HasWorkFrom, InTime, IsNextAbove, Launches, Repeats};

use crate::counted::{first_due, first_expired, flight_times, next_flying};
use crate::device::{
    Arrival, Attached, Device, any_clear_from, next_clear, note_finished, note_sent,
};
use crate::op::{FlushCommand, Op, op_refusal};
use crate::outcome::{Done, Outcome};
use crate::pending::{Pending, place_of};
use crate::refusal::{AttachRefusal, SubmitRefusal};
use crate::request::write_request;
use crate::response::{Answer, read_answer};
use crate::step::{InFlight, Sent, Taken};
use crate::wait::{trip_at, wait_after};
use aoe_base::{
    Blob, DeviceNo, Lifetimes, Mac, Millis, NoMemory, PathNo, Ports, TargetId, Ticket, copy_of,
};
use aoe_flight::Flight;
use aoe_frame::{Frame, HEADER_LEN, Header, RESPONSE_FLAG, read_header};
use std::alloc::Global;
use std::collections::VecDeque;
use std::marker::Model;

/// The most commands that wait at a device for their first send: a limit of this program, so that
/// what a host holds is bounded.
pub const MAX_HELD: u32 = 65_536;

/// The core of a host. It asks no clock and sends nothing: its user tells it the time, sends the
/// frames that it gives, and hands it those that come.
///
/// Contracts speak of the log of what the host did: each step is true of every log that what the
/// host keeps matches, and says which entry comes to it. Only `new`, `attach` and `submit` take
/// memory: they make the room for all that follows, the outcome of each command among it.
#[derive(Drop)]
pub struct Initiator {
    alloc: Global,
    ports: Ports,

    /// How long a frame can arrive after it was sent.
    life: Lifetimes,

    /// The most commands that fly or rest.
    room: u32,

    /// How long a command flies at most.
    dead: Millis,

    clock: Millis,
    last_ticket: Ticket,

    /// The commands that were sent.
    flight: Flight,

    devices: Vec<Device>,

    /// The commands without an outcome, in the order of their tickets.
    pending: VecDeque<Pending>,

    /// The outcomes that wait to be taken. There is room for one of each pending command.
    done: VecDeque<Done>,
}

impl Model for Initiator {
    ghost use Rattle.std.specs.VecDeque.{deque_capacity};
    ghost use Rattle.aoe_initiator.specs.Host.{Host, IsConsistent};

    ghost Value = { Host };

    ghost view = { λ i. record {
      ports = i.ports.items;
      life = i.life;
      room = i.room;
      dead = i.dead.0;
      clock = i.clock.0;
      last_ticket = i.last_ticket.0;
      flight = i.flight;
      devices = i.devices.items;
      pending = i.pending.items;
      waiting = i.done.items;
    } };

    ghost invariant = { λ i. IsConsistent i.ports.items i.clock.0 i.last_ticket.0 i.flight i.devices.items i.pending.items i.done.items (deque_capacity i.done) };
}

/// A response to a pending command.
#[derive(Clone, Copy)]
struct Heard {
    ticket: Ticket,

    /// The place of the command.
    at: usize,

    /// The path on which it came.
    path: PathNo,

    answer: Answer,
}

/// Whether a device has the name.
fn is_attached(devices: &[Device], id: TargetId) -> bool
    ensures { result ≡ has_id id devices.now }
{
    devices.iter().any(|device| device.about.id == id)
}

/// Makes room for one more pending command, for an outcome of each, and for the data of its
/// response.
fn make_room(
    alloc: Global,
    pending: &mut VecDeque<Pending>,
    done: &mut VecDeque<Done>,
    len: usize,
) -> Result<Blob, NoMemory>
    ensures pending { pending.new.items ≡ pending.old.items }
    ensures done { done.new.items ≡ done.old.items }
    ensures capacity { deque_capacity done.old ≤ deque_capacity done.new }
    ensures place { OnOk result (length pending.new.items < deque_capacity pending.new) }
    ensures outcomes { OnOk result
        (length done.new.items + length pending.new.items + 1 ≤ deque_capacity done.new) }
    ensures room { IfOk result (λ room. length room ≡ len) }
{
    pending.reserve(1)?;
    done.reserve(pending.len() + 1)?;
    Blob::zeros(alloc, len)
}

/// Ends the pending command at a place, by a response if one came: it rests from now on.
fn close(
    flight: &mut Flight,
    devices: &mut Vec<Device>,
    pending: &mut VecDeque<Pending>,
    at: usize,
    came: Option<Arrival>,
) -> Pending
    requires there { at < length pending.old.items }
    requires inside { All (λ p. p.device.0 < length devices.old.items) pending.old.items }
    ensures command { result ≡ slice_index_or pending.old.items at result }
    ensures pending { pending.new.items ≡ remove pending.old.items at }
    ensures flight { flight.new
        ≡ after_change flight.old result.ticket.0 after_finish flight.old.latest }
    ensures sent { (sent : List Outstanding) → Recalls flight.old sent
        → Recalls flight.new (map (change_of result.ticket.0 after_finish) sent) }
    ensures devices { devices.new.items ≡ change_at result.device.0
        (device_finished result.ticket came) devices.old.items }
{
    let command = pending.remove(at).unwrap();
    flight.finish(command.ticket);
    note_finished(devices, command.device, command.ticket, came);
    command
}

impl Initiator {
    /// A host with these ports, attached to no device. A frame can arrive as long after it was sent
    /// as `life` has it for its kind, at most `room` commands fly or rest, and a command is given up
    /// after `dead`.
    pub fn new(
        alloc: Global,
        ports: &Ports,
        life: Lifetimes,
        room: u32,
        dead: Millis,
    ) -> Result<Initiator, NoMemory>
        requires port { 0 < length ports.now.items }
        requires differ { IsDistinct ports.now.items }
        requires requests { life.requests.0 ≤ longest_lifetime }
        requires responses { life.responses.0 ≤ longest_lifetime }
        requires some_room { 0 < room }
        requires room { room ≤ most_room }
        requires dead { 0 < dead.0 }
        ensures value { IfOk result (λ host. host ≡ new_host ports.now.items life room dead.0) }
        ensures matches { IfOk result (λ host. Matches [] host) }
    {
        let flight = Flight::new(alloc, room, life, dead)?;
        Ok(Initiator {
            alloc,
            ports: copy_of(ports),
            life,
            room,
            dead,
            clock: Millis(0),
            last_ticket: Ticket(0),
            flight,
            devices: Vec::new(alloc),
            pending: VecDeque::new(alloc),
            done: VecDeque::new(alloc),
        })
    }

    /// Attaches a device of `total` sectors that takes at most `max` of them in one command, is
    /// flushed by `flush`, and whose shelf has the ports `remotes`.
    pub fn attach(
        &mut self,
        id: TargetId,
        remotes: &Ports,
        total: u64,
        max: u32,
        flush: FlushCommand,
    ) -> Result<DeviceNo, AttachRefusal>
        requires differ { IsDistinct remotes.now.items }
        requires total { total ≤ 2 ^ 48 }
        requires some { 0 < max }
        requires max { max ≤ 17 }
        requires few { length self.old.devices < 2 ^ 32 - 1 }
        ensures refused { IfSome (attach_refusal id remotes.now.items self.old.devices)
            (λ refusal. result ≡ Err refusal) }
        ensures no_memory { IfNone (attach_refusal id remotes.now.items self.old.devices)
            (IfErr result (λ refusal. refusal ≡ AttachRefusal.NoMemory)) }
        ensures number { IfOk result (λ device. device.0 ≡ length self.old.devices) }
        ensures device { OnOk result (self.new
            ≡ with_device self.old
            (new_device self.old.ports id remotes.now.items total max flush self.old.life.requests.0)) }
        ensures matches { OnOk result ((log : List Event) → Matches log self.old
            → Matches log self.new) }
        ensures unchanged { OnErr result (self.new ≡ self.old) }
    {
        if is_attached(&self.devices, id) {
            return Err(AttachRefusal::Already);
        }
        if remotes.is_empty() {
            return Err(AttachRefusal::NoPort);
        }
        if self.devices.reserve(1).is_err() {
            return Err(AttachRefusal::NoMemory);
        }
        let about = Attached {
            id,
            remotes: copy_of(remotes),
            total,
            max,
            flush,
        };
        let Ok(device) = Device::new(self.alloc, about, &self.ports, self.life.requests) else {
            return Err(AttachRefusal::NoMemory);
        };
        let number = DeviceNo(self.devices.len() as u32);
        self.devices.push_reserved(device);
        Ok(number)
    }

    /// Why the operation isn't submitted to the device, where memory is there.
    fn refusal(&self, device: DeviceNo, op: &Op) -> Option<SubmitRefusal>
        requires attached { device.0 < length self.now.devices }
        requires op { CanSubmit op.now }
        ensures value { result ≡ submit_refusal self.now device.0 op.now }
        ensures spelled { IfNone result (CanSpell op.now) }
        ensures room { IfNone result (held_at self.now device.0 < most_held) }
    {
        let device = &self.devices[device.0 as usize];
        if let Some(refusal) = op_refusal(&device.about, op) {
            return Some(refusal);
        }
        let held = device.holds.held();
        if held >= MAX_HELD {
            return Some(SubmitRefusal::Backlog { held });
        }
        None
    }

    /// Submits an operation to a device. It gets the next ticket, and is sent by `pull` once it may
    /// be. A refused operation is handed back.
    pub fn submit(&mut self, device: DeviceNo, op: Op) -> Result<Ticket, (SubmitRefusal, Op)>
        requires few { self.old.last_ticket < 2 ^ 64 - 1 }
        requires attached { device.0 < length self.old.devices }
        requires op { CanSubmit op }
        ensures refused { IfSome (submit_refusal self.old device.0 op)
            (λ refusal. result ≡ Err (refusal, op)) }
        ensures no_memory { IfNone (submit_refusal self.old device.0 op)
            (IfErr result (λ e. e ≡ (SubmitRefusal.NoMemory, op))) }
        ensures ticket { IfOk result (λ ticket. ticket.0 ≡ self.old.last_ticket + 1) }
        ensures matches { IfOk result (λ ticket. (log : List Event) → Matches log self.old
            → Matches (Submits ticket device op ∷ log) self.new) }
        ensures same { IfOk result (λ ticket. IsSame self.old self.new
            × (self.new.clock ≡ self.old.clock) × (self.new.last_ticket ≡ ticket.0)
            × (self.new.waiting ≡ self.old.waiting)) }
        ensures no_tag { OnOk result (self.new.flight.last_tag ≡ self.old.flight.last_tag) }
        ensures unchanged { OnErr result (self.new ≡ self.old) }
    {
        if let Some(refusal) = self.refusal(device, &op) {
            return Err((refusal, op));
        }
        let ticket = Ticket(self.last_ticket.0 + 1);
        let Ok(room) = make_room(self.alloc, &mut self.pending, &mut self.done, op.data_len())
        else {
            return Err((SubmitRefusal::NoMemory, op));
        };
        let holds = &mut self.devices[device.0 as usize].holds;
        if holds.enter(ticket, op.kind(), op.span()).is_err() {
            return Err((SubmitRefusal::NoMemory, op));
        }
        self.last_ticket = ticket;
        self.pending.push_back_reserved(Pending {
            ticket,
            device,
            op,
            room,
        });
        Ok(ticket)
    }

    /// The clock goes on to `now`, where that is later, and commands that fly for too long are
    /// given up.
    pub fn advance(&mut self, now: Millis)
        ensures clock { self.new.clock ≡ max self.old.clock now.0 }
        ensures gives_up { (dones : List Done) × (self.new.waiting ≡ self.old.waiting ++ reverse dones)
            × ((log : List Event) → Matches log self.old
            → GaveUpInTurn self.old.dead self.new.clock (Advances now ∷ log) dones
            × All (λ o. is_expired self.old.dead self.new.clock o ≡ false)
            (sent_of (commands (ended dones (Advances now ∷ log))))
            × Matches (ended dones (Advances now ∷ log)) self.new) }
        ensures same { IsSame self.old self.new }
        ensures last { self.new.last_ticket ≡ self.old.last_ticket }
        ensures no_tag { self.new.flight.last_tag ≡ self.old.flight.last_tag }
    {
        self.clock = Millis(self.clock.0.max(now.0));
        'expired: while let Some(ticket) = first_expired(&self.flight, self.clock) {
            let Some(at) = place_of(&self.pending, ticket) else {
                break;
            };
            self.give_up(ticket, at);
        }
    }

    /// Gives up the flying command with a ticket, which is pending at a place.
    fn give_up(&mut self, ticket: Ticket, at: usize)
        requires there { at < length self.old.pending }
        requires flies { IsSome (find (flies_as ticket.0) self.old.flight.commands) }
        ensures { (flying : Flying)
            × (option_map (λ c. c.flying) (find (flies_as ticket.0) self.old.flight.commands) ≡ Some flying)
            × Closes self.old at None (Outcome.GaveUp flying.first (record { 0 = self.old.clock })) self.new }
    {
        let first = self.flight.flying(ticket).first;
        let now = self.clock;
        let command = close(
            &mut self.flight,
            &mut self.devices,
            &mut self.pending,
            at,
            None,
        );
        self.done.push_back_reserved(Done {
            ticket: command.ticket,
            outcome: Outcome::GaveUp { first, now },
        });
    }

    /// Repeats the flying command with a ticket. The path of its last frame is marked first.
    fn repeat(&mut self, ticket: Ticket, out: &mut Frame) -> Option<Sent>
        requires { IsSome (find (flies_as ticket.0) self.old.flight.commands) }
        ensures sent { IfSome result (λ sent. Repeats self.old ticket sent out.new.items self.new) }
        ensures none { IfNone result (place ticket self.old.pending ≡ None) }
        ensures unchanged { IfNone result (self.new ≡ self.old) }
        ensures in_time { InTime self.old }
    {
        let at = place_of(&self.pending, ticket)?;
        let flying = self.flight.flying(ticket);
        let now = self.clock;
        let command = &self.pending[at];
        let missed = Some(flying.path);
        let route = note_sent(&mut self.devices, command.device, ticket, now, missed);
        let op = &command.op;
        write_request(
            op,
            route.flush,
            route.target,
            route.remote,
            route.local,
            flying.tag,
            out,
        );
        let wait = wait_after(route.timeout, flying.sends);
        self.flight.repeat(ticket, now, route.path, wait);
        Some(Sent {
            ticket,
            tag: flying.tag,
            path: route.path,
            again: true,
        })
    }

    /// The clear command with the lowest ticket, where there is room for one more.
    fn clear(&mut self) -> Option<(Ticket, usize)>
        ensures same { self.new ≡ record self.old { devices = self.new.devices } }
        ensures devices { self.new.devices ≡ (if is_full self.old then self.old.devices else map
            (device_at self.old.clock) self.old.devices) }
        ensures some { IfSome result (λ found. (is_full self.old ≡ false)
            × (place found.0 self.old.pending ≡ Some found.1)) }
        ensures lowest { IfSome result (λ found. (life : ℕ) (cs : List HostCommand) → RecallAll life cs 0 self.old.devices
            → IsLowest (all_clear life self.old.clock cs 0 self.old.devices) (Some found.0)) }
        ensures none { IfNone result (is_full self.old ≡ false → (lowest : Option Ticket)
            × ((life : ℕ) (cs : List HostCommand) → RecallAll life cs 0 self.old.devices
            → IsLowest (all_clear life self.old.clock cs 0 self.old.devices) lowest)
            × IfSome lowest (λ ticket. place ticket self.old.pending ≡ None)) }
        ensures stays { (log : List Event) → Matches log self.old → Matches log self.new }
        ensures in_time { InTime self.old }
    {
        if self.flight.is_full(self.clock) {
            return None;
        }
        let ticket = next_clear(&mut self.devices, self.clock)?;
        let at = place_of(&self.pending, ticket)?;
        Some((ticket, at))
    }

    /// Sends the command with a ticket, which is pending at a place, for the first time.
    fn launch(&mut self, ticket: Ticket, at: usize, out: &mut Frame) -> Option<Sent>
        requires { at < length self.old.pending }
        ensures sent { IfSome result
            (λ sent. Launches self.old ticket at sent out.new.items self.new) }
        ensures free { IfSome result (λ sent. (sent_before : List Outstanding) → Recalls self.old.flight sent_before
            → is_taken (live self.old.flight.rest self.old.clock sent_before) sent.tag ≡ false) }
        ensures none { IfNone result (is_full self.old ≡ true) }
        ensures tag { IfSome result
            (λ sent. GivesTag sent.again self.old.flight self.old.clock sent.tag self.new.flight) }
        ensures no_tag { IfNone result (self.new.flight.last_tag ≡ self.old.flight.last_tag) }
        ensures in_time { InTime self.old }
    {
        let now = self.clock;
        let command = &self.pending[at];
        let route = note_sent(&mut self.devices, command.device, ticket, now, None);
        let wait = wait_after(route.timeout, 0);
        let tag = self.flight.launch(ticket, now, route.path, wait)?;
        let op = &command.op;
        write_request(
            op,
            route.flush,
            route.target,
            route.remote,
            route.local,
            tag,
            out,
        );
        Some(Sent {
            ticket,
            tag,
            path: route.path,
            again: false,
        })
    }

    /// Sends the clear command with the lowest ticket for the first time.
    fn start(&mut self, out: &mut Frame) -> Option<Sent>
        ensures next { IfSome result (λ sent. (log : List Event) → Matches log self.old
            → All (λ o. is_due self.old.clock o ≡ false) (sent_of (commands log)) → IsNext self.old (commands log) sent) }
        ensures frame { IfSome result (λ sent. (log : List Event) → Matches log self.old
            → IsFrameOf self.old (commands log) sent out.new.items) }
        ensures path { IfSome result (λ sent. (log : List Event) → Matches log self.old
            → IsOnNextPath self.old log sent) }
        ensures sends { IfSome result (λ sent. (log : List Event) → Matches log self.old
            → Matches (Sends sent.ticket sent.tag sent.path ∷ log) self.new) }
        ensures quiet { IfNone result ((log : List Event) → Matches log self.old
            → All (λ o. is_due self.old.clock o ≡ false) (sent_of (commands log)) → IsQuiet self.old (commands log)) }
        ensures stays { IfNone result ((log : List Event) → Matches log self.old
            → Matches log self.new) }
        ensures same { IsSame self.old self.new × (self.new.clock ≡ self.old.clock)
            × (self.new.last_ticket ≡ self.old.last_ticket)
            × (self.new.waiting ≡ self.old.waiting) }
        ensures tag { IfSome result
            (λ sent. GivesTag sent.again self.old.flight self.old.clock sent.tag self.new.flight) }
        ensures no_tag { IfNone result (self.new.flight.last_tag ≡ self.old.flight.last_tag) }
    {
        let (ticket, at) = self.clear()?;
        self.launch(ticket, at, out)
    }

    /// The frame of a due command that is to be repeated, in `out`: the one that `pull` would give.
    /// It starts no command, so a user that limits what flies repeats while nothing may be started.
    pub fn pull_again(&mut self, out: &mut Frame) -> Option<Sent>
        ensures repeat { IfSome result (λ sent. (log : List Event) → Matches log self.old
            → IsRepeat self.old (commands log) sent) }
        ensures again { IfSome result (λ sent. sent.again ≡ true) }
        ensures frame { IfSome result (λ sent. (log : List Event) → Matches log self.old
            → IsFrameOf self.old (commands log) sent out.new.items) }
        ensures path { IfSome result (λ sent. (log : List Event) → Matches log self.old
            → IsOnNextPath self.old log sent) }
        ensures sends { IfSome result (λ sent. (log : List Event) → Matches log self.old
            → Matches (Sends sent.ticket sent.tag sent.path ∷ log) self.new) }
        ensures none { IfNone result ((log : List Event) → Matches log self.old
            → All (λ o. is_due self.old.clock o ≡ false) (sent_of (commands log))) }
        ensures unchanged { IfNone result (self.new ≡ self.old) }
        ensures same { IsSame self.old self.new × (self.new.clock ≡ self.old.clock)
            × (self.new.last_ticket ≡ self.old.last_ticket)
            × (self.new.waiting ≡ self.old.waiting) }
        ensures no_tag { self.new.flight.last_tag ≡ self.old.flight.last_tag }
    {
        let ticket = first_due(&self.flight, self.clock)?;
        self.repeat(ticket, out)
    }

    /// The frame that is to be sent next, in `out`: a due command is repeated, else the clear
    /// command with the lowest ticket is sent for the first time.
    pub fn pull(&mut self, out: &mut Frame) -> Option<Sent>
        ensures next { IfSome result (λ sent. (log : List Event) → Matches log self.old
            → IsNext self.old (commands log) sent) }
        ensures frame { IfSome result (λ sent. (log : List Event) → Matches log self.old
            → IsFrameOf self.old (commands log) sent out.new.items) }
        ensures path { IfSome result (λ sent. (log : List Event) → Matches log self.old
            → IsOnNextPath self.old log sent) }
        ensures sends { IfSome result (λ sent. (log : List Event) → Matches log self.old
            → Matches (Sends sent.ticket sent.tag sent.path ∷ log) self.new) }
        ensures quiet { IfNone result ((log : List Event) → Matches log self.old
            → IsQuiet self.old (commands log)) }
        ensures stays { IfNone result ((log : List Event) → Matches log self.old
            → Matches log self.new) }
        ensures same { IsSame self.old self.new × (self.new.clock ≡ self.old.clock)
            × (self.new.last_ticket ≡ self.old.last_ticket)
            × (self.new.waiting ≡ self.old.waiting) }
        ensures tag { IfSome result
            (λ sent. GivesTag sent.again self.old.flight self.old.clock sent.tag self.new.flight) }
        ensures no_tag { IfNone result (self.new.flight.last_tag ≡ self.old.flight.last_tag) }
    {
        match self.pull_again(out) {
            Some(sent) => Some(sent),
            None => self.start(out),
        }
    }

    /// Whether a header is that of a version 1 response to a port of this host.
    fn hears(&self, header: &Header) -> bool
        ensures { result ≡ is_response_to self.now header.now }
    {
        header.version == 1 && header.flags & RESPONSE_FLAG != 0 && self.ports.contains(&header.dst)
    }

    /// Whether a response comes from the device of the command that is pending at a place, with the
    /// command of its operation.
    fn is_from(&self, at: usize, header: &Header) -> bool
        requires { at < length self.now.pending }
        ensures { IfSome (slice_get self.now.pending at) (λ p. result
            ≡ is_from (slice_get self.now.devices p.device.0) p.op header.now) }
    {
        let command = &self.pending[at];
        let about = &self.devices[command.device.0 as usize].about;
        about.remotes.contains(&header.src)
            && header.id == about.id
            && header.command == command.op.command()
    }

    /// The path on which a response to the command that is pending at a place came.
    fn path_of(&self, at: usize, header: &Header) -> Option<PathNo>
        requires { at < length self.now.pending }
        ensures pair { IfSome result (λ path. IfSome (slice_get self.now.pending at) (λ p. IfSome (slice_get self.now.devices p.device.0)
            (λ d. pair_of d.paths path.0 ≡ Some (header.now.dst, header.now.src)))) }
        ensures none { IfNone result (IfSome (slice_get self.now.pending at) (λ p. IfSome (slice_get self.now.devices p.device.0)
            (λ d. (q : ℕ) → pair_of d.paths q ≢ Some (header.now.dst, header.now.src)))) }
    {
        let command = &self.pending[at];
        let paths = &self.devices[command.device.0 as usize].paths;
        paths.find(header.dst, header.src)
    }

    /// The response to a pending command that a frame is.
    fn answered(&self, frame: &[u8]) -> Option<Heard>
        ensures there { IfSome result (λ heard. place heard.ticket self.now.pending
            ≡ Some heard.at) }
        ensures flies { IfSome result (λ heard. IsSome
            (find (flies_as heard.ticket.0) self.now.flight.commands)) }
        ensures fills { IfSome result (λ heard. IfSome (slice_get self.now.pending heard.at)
            (λ p. CanFill heard.answer (drop 24 frame.now) (data_len p.op))) }
        ensures header { OnSome result (24 ≤ length frame.now) }
        ensures some { IfSome result (λ heard. (log : List Event) → Matches log self.now
            → (c : HostCommand) × Contains (commands log) c × IfSome (slice_get self.now.pending heard.at) (λ p. p.ticket ≡ c.ticket)
            × (answer_to self.now c frame.now ≡ Some heard.answer) × CameOn self.now c frame.now heard.path) }
        ensures none { IfNone result ((log : List Event) → Matches log self.now
            → All (λ c. answer_to self.now c frame.now ≡ None) (commands log)) }
    {
        let header = read_header(frame)?;
        if !self.hears(&header) {
            return None;
        }
        let ticket = self.flight.match_tag(header.tag)?;
        let at = place_of(&self.pending, ticket)?;
        if !self.is_from(at, &header) {
            return None;
        }
        let path = self.path_of(at, &header)?;
        let answer = read_answer(&self.pending[at].op, &header, &frame[HEADER_LEN..])?;
        Some(Heard {
            ticket,
            at,
            path,
            answer,
        })
    }

    /// Ends a pending command with what the bytes behind the header of its response say.
    fn finish(&mut self, heard: Heard, args: &[u8]) -> Ticket
        requires there { place heard.ticket self.old.pending ≡ Some heard.at }
        requires flies { IsSome (find (flies_as heard.ticket.0) self.old.flight.commands) }
        requires fills { IfSome (slice_get self.old.pending heard.at)
            (λ p. CanFill heard.answer args.now (data_len p.op)) }
        ensures closes { (flying : Flying)
            × (option_map (λ c. c.flying) (find (flies_as heard.ticket.0) self.old.flight.commands) ≡ Some flying)
            × Closes self.old heard.at (Some (record { path = heard.path; trip = trip_from self.old.clock flying })) (outcome_of heard.answer args.now) self.new }
        ensures ticket { IfSome (slice_get self.old.pending heard.at) (λ p. result ≡ p.ticket) }
    {
        let flying = self.flight.flying(heard.ticket);
        let came = Some(Arrival {
            path: heard.path,
            trip: trip_at(self.clock, &flying),
        });
        let command = close(
            &mut self.flight,
            &mut self.devices,
            &mut self.pending,
            heard.at,
            came,
        );
        let ticket = command.ticket;
        self.done.push_back_reserved(Done {
            ticket,
            outcome: heard.answer.into_outcome(args, command.room),
        });
        ticket
    }

    /// Takes a frame that came. A well-formed response to a command that waits for one ends it.
    pub fn receive(&mut self, frame: &[u8]) -> Taken
        ensures taken { (log : List Event) → Matches log self.old
            → Takes self.old frame.now log result self.new }
        ensures same { IsSame self.old self.new × (self.new.clock ≡ self.old.clock)
            × (self.new.last_ticket ≡ self.old.last_ticket) }
        ensures no_tag { self.new.flight.last_tag ≡ self.old.flight.last_tag }
    {
        match self.answered(frame) {
            Some(heard) => Taken::Finished(self.finish(heard, &frame[HEADER_LEN..])),
            None => Taken::Stale,
        }
    }

    /// The time from which on there is something to do, where nothing else happens before.
    fn work_from(&self) -> u128
        ensures work { (log : List Event) → Matches log self.now
            → HasWorkFrom self.now (commands log) result }
    {
        let times = flight_times(&self.flight);
        let start = times.room.max(any_clear_from(&self.devices));
        times.due.min(times.expired).min(start)
    }

    /// The first time, from the clock on, at which a command is due or has to be given up, or one
    /// may be sent for the first time, where neither a frame nor a submission comes before. None
    /// where there is no such time.
    pub fn next_time(&self) -> Option<Millis>
        ensures next { (log : List Event) → Matches log self.now
            → IsNextTime self.now (commands log) result }
    {
        let from = self.work_from();
        if from > u128::from(u64::MAX) {
            return None;
        }
        Some(Millis((from as u64).max(self.clock.0)))
    }

    /// The flying command with the lowest ticket above another, and its sectors.
    fn next_sectors(&self, above: Ticket) -> Option<(Ticket, u32)>
        ensures above { IfSome result (λ found. above.0 < found.0.0) }
        ensures given { IfSome result (λ found. found.0.0 ≤ self.now.last_ticket) }
        ensures some { IfSome result (λ found. (log : List Event) → Matches log self.now
            → IsNextAbove above.0 (commands log) found.0.0 found.1) }
        ensures none { IfNone result ((log : List Event) → Matches log self.now
            → All (λ c. is_flying_above above.0 c ≡ false) (commands log)) }
    {
        let ticket = next_flying(&self.flight, above)?;
        let at = place_of(&self.pending, ticket)?;
        Some((ticket, self.pending[at].op.span().count))
    }

    /// How much flies, by a walk over just that.
    pub fn flying(&self) -> InFlight
        ensures count { (log : List Event) → Matches log self.now → result ≡ flying_of (commands log) }
    {
        let mut commands = 0;
        let mut sectors = 0u64;
        let mut last = Ticket(0);
        'flying: while let Some((ticket, count)) = self.next_sectors(last) {
            commands += 1;
            sectors = sectors.saturating_add(u64::from(count));
            last = ticket;
        }
        InFlight { commands, sectors }
    }

    /// How many commands have no outcome yet: those that wait, and those under way.
    pub fn unfinished(&self) -> u64
        ensures { result ≡ length self.now.pending }
    {
        self.pending.len() as u64
    }

    /// The outcome that came first and wasn't taken yet.
    pub fn take_done(&mut self) -> Option<Done>
        ensures first { self.old.waiting ≡ option_to_list result ++ self.new.waiting }
        ensures none { IfNone result (self.old.waiting ≡ []) }
        ensures same { self.new ≡ record self.old { waiting = self.new.waiting } }
        ensures matches { (log : List Event) → Matches log self.old → Matches log self.new }
    {
        self.done.pop_front()
    }
}
