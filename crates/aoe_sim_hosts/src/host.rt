//! A host and its steps.
ghost use Rattle.std.specs.Prelude.{ℕ, ◌≡◌, ◌≢◌, ◌+◌, ◌<◌, ◌≤◌, ◌^◌, ◌-◌, ◌∷◌, List, [], Option, None, Some, true, is_some, length, position, unwrap_or, IfErr, IfOk, IfSome, IsSomeAnd, OnErr, OnOk};
ghost use Rattle.aoe_base.specs.Sizes.{longest_lifetime};
ghost use Rattle.aoe_history.specs.declared.entry.Entry.{Entry as Happened};
ghost use Rattle.aoe_history.specs.declared.entry.Entry.TheVariants.{Refused, Submitted, Took};
ghost use Rattle.aoe_history.specs.Frames.{arriving};
ghost use Rattle.aoe_history.specs.Groups.{submitted_as, Got, Takes};
ghost use Rattle.aoe_history.specs.Lawful.{IsLawful};
ghost use Rattle.aoe_history.specs.Setup.{HostSetup, Setup};
ghost use Rattle.aoe_sim_hosts.specs.Host.{Awaits, IsSettled};
ghost use Rattle.aoe_initiator.specs.Host.{new_device, new_host, with_device, Matches};
ghost use Rattle.aoe_initiator.specs.HostLaw.{attach_refusal, same_id};
ghost use Rattle.aoe_initiator.specs.HostLog.{Event as LogEvent};
ghost use Rattle.aoe_initiator.specs.Op.{CanSubmit};
ghost use Rattle.aoe_base.specs.Addresses.{IsDistinct};
ghost use Rattle.aoe_history.specs.Run.{is_plain};

use crate::copies::op_copy;
use aoe_base::{DeviceNo, FrameNo, Lifetimes, Millis, NoMemory, Ports, TargetId, Ticket, copy_of};
use aoe_history::{Boxed, Entry, Run};
use aoe_initiator::{FlushCommand, Initiator, Op, SubmitRefusal, Taken, held_law};
use aoe_script::Name;
use std::alloc::Global;
use std::marker::Model;

/// A host in a run. Each step is true of every setup and history in which the host keeps what the
/// history says of it, and says which entries come to it.
#[derive(Drop)]
pub struct SimHost {
    pub(crate) alloc: Global,
    pub(crate) name: Name,

    /// The names of its devices, in the order of attachment.
    pub(crate) ids: Vec<TargetId>,

    pub(crate) core: Initiator,
}

impl Model for SimHost {
    ghost use Rattle.aoe_sim_hosts.specs.Host.{SimHost as Seen};
    ghost use Rattle.aoe_sim_hosts.specs.Ids.{AreIds};

    ghost Value = { Seen };

    ghost view = { λ x. record { name = x.name; core = x.core } };

    ghost invariant = { λ x. AreIds x.ids.items x.core.devices };
}

/// The place of a name.
fn place_of(ids: &[TargetId], dev: TargetId) -> Option<usize>
    ensures { result ≡ position (λ id. same_id id dev) ids.now }
{
    ids.iter().position(|id| *id == dev)
}

/// The entry of what the core answered, with a copy of the operation. There is nothing to record where
/// there is no memory.
fn entry_of(
    host: Name,
    dev: TargetId,
    copy: Boxed<Op>,
    answer: Result<Ticket, (SubmitRefusal, Op)>,
) -> Result<Entry, NoMemory>
    ensures plain { IfOk result (λ entry. is_plain entry ≡ true) }
    ensures taken { IfOk result (λ entry. IfOk answer
        (λ ticket. entry ≡ Submitted host ticket.0 dev copy)) }
    ensures refused { IfOk result (λ entry. IfErr answer
        (λ e. (entry ≡ Refused host e.0) × (e.0 ≢ SubmitRefusal.NoMemory))) }
    ensures memory { OnErr result (IfErr answer (λ e. e.0 ≡ SubmitRefusal.NoMemory)
        × IfOk answer (λ _. ⊥)) }
{
    match answer {
        Ok(ticket) => Ok(Entry::Submitted {
            host,
            ticket: ticket.0,
            dev,
            op: copy,
        }),
        Err((SubmitRefusal::NoMemory, _)) => Err(NoMemory),
        Err((refusal, _)) => Ok(Entry::Refused { host, refusal }),
    }
}

impl SimHost {
    /// A host with these ports, attached to no device. A frame can arrive as long after it was sent
    /// as `life` has it for its kind, at most `room` commands fly or rest, and a command is given up
    /// after `dead`.
    pub fn new(
        alloc: Global,
        name: Name,
        ports: &Ports,
        life: Lifetimes,
        room: u32,
        dead: Millis,
    ) -> Result<SimHost, NoMemory>
        requires port { 0 < length ports.now.items }
        requires differ { IsDistinct ports.now.items }
        requires requests { life.requests.0 ≤ longest_lifetime }
        requires responses { life.responses.0 ≤ longest_lifetime }
        requires some_room { 0 < room }
        requires room { room ≤ 16384 }
        requires dead { 0 < dead.0 }
        ensures value { IfOk result
            (λ x. x ≡ record { name = name; core = new_host ports.now.items life room dead.0 }) }
        ensures matches { IfOk result (λ x. Matches [] x.core) }
    {
        let core = Initiator::new(alloc, ports, life, room, dead)?;
        Ok(SimHost {
            alloc,
            name,
            ids: Vec::new(alloc),
            core,
        })
    }

    /// Attaches a device of `total` sectors that takes at most `max` of them in one command, is
    /// flushed by `flush`, and whose shelf has the ports `remotes`.
    pub fn attach(
        &mut self,
        dev: TargetId,
        remotes: &Ports,
        total: u64,
        max: u32,
        flush: FlushCommand,
    ) -> Result<(), NoMemory>
        requires differ { IsDistinct remotes.now.items }
        requires total { total ≤ 2 ^ 48 }
        requires some { 0 < max }
        requires max { max ≤ 17 }
        requires few { length self.old.core.devices < 2 ^ 32 - 1 }
        requires allowed { attach_refusal dev remotes.now.items self.old.core.devices ≡ None }
        ensures ok { OnOk result (self.new ≡ record self.old {
          core = with_device self.old.core
              (new_device self.old.core.ports dev remotes.now.items total max flush self.old.core.life.requests.0);
        }) }
        ensures matches { OnOk result ((log : List LogEvent) → Matches log self.old.core
            → Matches log self.new.core) }
        ensures err { OnErr result (self.new ≡ self.old) }
    {
        self.ids.reserve(1)?;
        match self.core.attach(dev, remotes, total, max, flush) {
            Ok(_) => {
                self.ids.push_reserved(dev);
                Ok(())
            }
            Err(_) => Err(NoMemory),
        }
    }

    /// The number of the device with a name.
    fn device(&self, dev: TargetId) -> DeviceNo
        requires attached { is_some (position (λ d. same_id d.about.id dev) self.now.core.devices)
            ≡ true }
        ensures place { position (λ d. same_id d.about.id dev) self.now.core.devices
            ≡ Some result.0 }
        ensures inside { result.0 < length self.now.core.devices }
    {
        let place = place_of(&self.ids, dev);
        DeviceNo(place.unwrap_or(0) as u32)
    }

    /// Submits a command. It is taken, or refused.
    pub fn submit(&mut self, run: &mut Run, dev: TargetId, op: Op) -> Result<(), NoMemory>
        requires can { CanSubmit op }
        requires attached { is_some (position (λ d. same_id d.about.id dev) self.old.core.devices)
            ≡ true }
        requires few { self.old.core.last_ticket < 2 ^ 64 - 1 }
        ensures life { run.new.life ≡ run.old.life }
        ensures ok { OnOk result ((s : Setup) (host : HostSetup) → IsSettled s host run.old.entries self.old → IsLawful s run.old.entries
            → (run.new.entries ≡ submitted_as s host run.old.entries self.old.name dev op ∷ run.old.entries)
            × IsLawful s run.new.entries × Awaits s host None run.new.entries self.new) }
        ensures name { OnOk result (self.new.name ≡ self.old.name) }
        ensures tickets { OnOk result (self.new.core.last_ticket ≤ self.old.core.last_ticket + 1) }
        ensures err { OnErr result (run.new ≡ run.old) }
    {
        let copy = Boxed::new(self.alloc, op_copy(self.alloc, &op)?)?;
        let entry = self.enter(dev, op, copy)?;
        run.note(entry)
    }

    /// Hands an operation to the core, and gives the entry of its answer, with a copy of the operation.
    fn enter(&mut self, dev: TargetId, op: Op, copy: Boxed<Op>) -> Result<Entry, NoMemory>
        requires same { copy ≡ op }
        requires can { CanSubmit op }
        requires attached { is_some (position (λ d. same_id d.about.id dev) self.old.core.devices)
            ≡ true }
        requires few { self.old.core.last_ticket < 2 ^ 64 - 1 }
        ensures plain { IfOk result (λ entry. is_plain entry ≡ true) }
        ensures ok { IfOk result (λ entry. (s : Setup) (host : HostSetup) (h : List Happened) → IsSettled s host h self.old → IsLawful s h
            → (entry ≡ submitted_as s host h self.old.name dev op) × IsLawful s (entry ∷ h) × IsSettled s host (entry ∷ h) self.new) }
        ensures name { OnOk result (self.new.name ≡ self.old.name) }
        ensures tickets { OnOk result (self.new.core.last_ticket ≤ self.old.core.last_ticket + 1) }
    {
        held_law();
        let device = self.device(dev);
        let host = copy_of(&self.name);
        let answer = self.core.submit(device, op);
        entry_of(host, dev, copy, answer)
    }

    /// Hands a frame to the core: whether it is stale.
    fn hear(&mut self, frame: &[u8]) -> bool
        ensures heard { (s : Setup) (host : HostSetup) (h : List Happened) (number : ℕ) → IsSettled s host h self.old → IsLawful s h
            → arriving s.life h number ≡ Some frame.now
            → (got : Option Got) × Takes s host self.old.name number frame.now h got (Took self.old.name number result ∷ h)
            × IsLawful s (Took self.old.name number result ∷ h) × Awaits s host got (Took self.old.name number result ∷ h) self.new }
        ensures name { self.new.name ≡ self.old.name }
        ensures tickets { self.new.core.last_ticket ≡ self.old.core.last_ticket }
    {
        match self.core.receive(frame) {
            Taken::Finished(_) => false,
            Taken::Stale => true,
        }
    }

    /// Takes a frame that can be handed over: the response that ends a command, or a stale one.
    pub fn take(&mut self, run: &mut Run, number: FrameNo, frame: &[u8]) -> Result<(), NoMemory>
        ensures life { run.new.life ≡ run.old.life }
        ensures ok { OnOk result ((s : Setup) (host : HostSetup) → IsSettled s host run.old.entries self.old → IsLawful s run.old.entries
            → arriving s.life run.old.entries number.0 ≡ Some frame.now
            → (got : Option Got) × Takes s host self.old.name number.0 frame.now run.old.entries got run.new.entries
            × IsLawful s run.new.entries × Awaits s host got run.new.entries self.new) }
        ensures name { OnOk result (self.new.name ≡ self.old.name) }
        ensures tickets { OnOk result (self.new.core.last_ticket ≡ self.old.core.last_ticket) }
        ensures err { OnErr result (run.new ≡ run.old) }
    {
        let host = copy_of(&self.name);
        let stale = self.hear(frame);
        run.note(Entry::Took {
            host,
            frame: u64::from(number.0),
            stale,
        })
    }
}
