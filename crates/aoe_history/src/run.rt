//! The clock, the network and the history of a run.
ghost use Rattle.std.specs.Prelude.{◌≡◌, ◌+◌, ◌<◌, ◌≤◌, ◌^◌, List, [], ◌∷◌, length, option_map, true, IfErr, IfOk, IfSome, IsOkUnless, OnErr, OnOk, Err};
ghost use Rattle.aoe_base.specs.Sizes.{longest_frame};
ghost use Rattle.aoe_net.specs.Network.{most_frames, total_bytes, IsFull, IsFullBy};
ghost use Rattle.aoe_history.specs.declared.entry.Entry.{Entry};
ghost use Rattle.aoe_history.specs.declared.entry.Entry.TheVariants.{Sent, Injected, Arrived, Crashed, Ticked};
ghost use Rattle.aoe_history.specs.declared.entry.Fate.TheVariants.{Replied};
ghost use Rattle.aoe_history.specs.Frames.{arriving, clock, frames, next_number};
ghost use Rattle.aoe_history.specs.Run.{is_plain, network_of, with_entry, IsWithin};

use crate::{Boxed, Entry, Fate, History};
use aoe_base::{FrameNo, Lifetimes, Millis, NoMemory, TargetId, Ticket};
use aoe_disk::Loss;
use aoe_lists::Lists;
use aoe_net::{FrameBytes, Net, NetLimit, NetRefusal};
use aoe_script::Name;
use aoe_target::Effect;
use std::alloc::Global;
use std::marker::Model;

/// A run so far. Its history says everything: the clock and the network are what it says.
#[derive(Drop)]
pub struct Run {
    alloc: Global,
    life: Lifetimes,
    clock: Millis,
    net: Net,
    history: History,
}

impl Model for Run {
    ghost use Rattle.aoe_history.specs.Run.{Carries, Recorded};

    ghost Value = { Recorded };

    ghost view = { λ r. record { life = r.life; entries = r.history } };

    ghost invariant = { λ r. Carries r.life r.clock.0 r.history r.net };
}

/// A copy of the bytes of a frame, for the history and for the network.
fn twice(alloc: Global, frame: &[u8]) -> Result<(FrameBytes, FrameBytes), NoMemory>
    ensures { IfOk result (λ both. (both.0 ≡ frame.now) × (both.1 ≡ frame.now)) }
{
    let bytes = FrameBytes::of(alloc, frame)?;
    let same = bytes.share()?;
    Ok((bytes, same))
}

/// Takes back what was pushed last.
fn take_back(history: &mut History)
    ensures { (last : Entry) (before : List Entry) → history.old ≡ last ∷ before
        → history.new ≡ before }
{
    let _ = history.pop();
}

impl Run {
    /// A run in which nothing happened yet. A frame can be handed over until it is older than `life`
    /// has it for its kind.
    pub fn new(alloc: Global, life: Lifetimes) -> Run
        ensures { result ≡ record { life = life; entries = [] } }
    {
        Run {
            alloc,
            life,
            clock: Millis(0),
            net: Net::new(alloc, life),
            history: History::new(alloc),
        }
    }

    /// What happened.
    pub fn history(&self) -> &History
        ensures history { result.now ≡ self.now.entries }
        ensures room { IsWithin (frames self.now.entries) }
    {
        &self.history
    }

    /// How much time went by.
    pub fn clock(&self) -> Millis
        ensures { result.0 ≡ clock self.now.entries }
    {
        self.clock
    }

    /// How many frames came into the network: the number of the latest one.
    pub fn frames(&self) -> u32
        ensures count { result ≡ length (frames self.now.entries) }
        ensures bound { result ≤ most_frames }
    {
        self.net.count()
    }

    /// How many bytes they have together.
    pub fn total_bytes(&self) -> u64
        ensures { result ≡ total_bytes (network_of self.now) }
    {
        self.net.total_bytes()
    }

    /// The frame with a number, as long as it can be handed over.
    pub fn fetch(&self, number: FrameNo) -> Option<&[u8]>
        ensures frame { option_map (λ frame. frame.now) result
            ≡ arriving self.now.life self.now.entries number.0 }
        ensures bound { IfSome result (λ frame. length frame.now ≤ longest_frame) }
    {
        self.net.fetch(number, self.clock)
    }

    /// Records an entry that sends no frame and takes no time.
    pub fn note(&mut self, entry: Entry) -> Result<(), NoMemory>
        requires plain { is_plain entry ≡ true }
        ensures ok { OnOk result (self.new ≡ with_entry self.old entry) }
        ensures err { OnErr result (self.new ≡ self.old) }
    {
        self.history.push(entry)
    }

    /// Records that a device lost its power, with the lists that stood on its keep.
    pub fn note_crash(&mut self, dev: TargetId, lists: Lists, mode: Loss) -> Result<(), NoMemory>
        ensures ok { OnOk result (self.new ≡ with_entry self.old (Crashed dev lists mode)) }
        ensures err { OnErr result (self.new ≡ self.old) }
    {
        let lists = Boxed::new(self.alloc, lists)?;
        self.note(Entry::Crashed { dev, lists, mode })
    }

    /// Some milliseconds go by.
    pub fn tick(&mut self, ms: u64) -> Result<(), NoMemory>
        requires fits { clock self.old.entries + ms < 2 ^ 64 }
        ensures ok { OnOk result (self.new ≡ with_entry self.old (Ticked ms)) }
        ensures err { OnErr result (self.new ≡ self.old) }
    {
        self.history.push(Entry::Ticked { ms })?;
        self.clock = Millis(self.clock.0 + ms);
        Ok(())
    }

    /// Refuses a frame that the network has no room for. It asks for no memory, and comes first.
    fn check_room(&self, frame: &[u8]) -> Result<(), NetRefusal>
        ensures room { OnOk result (¬ IsFull (network_of self.now) frame.now) }
        ensures full { IfErr result (λ refusal. (limit : NetLimit)
            × (refusal ≡ NetRefusal.Full limit) × IsFullBy limit (network_of self.now) frame.now) }
    {
        match self.net.full_by(frame) {
            Some(limit) => Err(NetRefusal::Full(limit)),
            None => Ok(()),
        }
    }

    /// Records an entry, and brings the frame that it sends into the network, which has room for it.
    fn bring(&mut self, entry: Entry, frame: FrameBytes) -> Result<(), NoMemory>
        requires len { length frame ≤ longest_frame }
        requires room { ¬ IsFull (network_of self.old) frame }
        requires frames { frames (entry ∷ self.old.entries)
            ≡ record { bytes = frame; birth = clock self.old.entries } ∷ frames self.old.entries }
        requires clock { clock (entry ∷ self.old.entries) ≡ clock self.old.entries }
        ensures ok { OnOk result (self.new ≡ with_entry self.old entry) }
        ensures err { OnErr result (self.new ≡ self.old) }
    {
        self.history.push(entry)?;
        match self.net.keep(self.clock, frame) {
            Ok(_) => Ok(()),
            Err(NoMemory) => {
                take_back(&mut self.history);
                Err(NoMemory)
            }
        }
    }

    /// The number that the next frame will have.
    fn next_number(&self) -> u64
        ensures { result ≡ next_number self.now.entries }
    {
        u64::from(self.net.count()) + 1
    }

    /// A host sends a frame of a command.
    pub fn send(&mut self, host: &Name, ticket: Ticket, frame: &[u8]) -> Result<(), NetRefusal>
        requires len { length frame.now ≤ longest_frame }
        ensures ok { OnOk result (self.new ≡ with_entry self.old
            (Sent host.now ticket.0 (next_number self.old.entries) frame.now)) }
        ensures room { OnOk result (¬ IsFull (network_of self.old) frame.now) }
        ensures full { (limit : NetLimit) → result ≡ Err (NetRefusal.Full limit)
            → IsFullBy limit (network_of self.old) frame.now }
        ensures memory { result ≡ Err NetRefusal.NoMemory
            → ¬ IsFull (network_of self.old) frame.now }
        ensures err { OnErr result (self.new ≡ self.old) }
    {
        self.check_room(frame)?;
        let Ok(host) = host.clone() else {
            return Err(NetRefusal::NoMemory);
        };
        let (bytes, same) = twice(self.alloc, frame)?;
        let entry = Entry::Sent {
            host,
            ticket: ticket.0,
            frame: self.next_number(),
            bytes,
        };
        Ok(self.bring(entry, same)?)
    }

    /// A frame of no station comes into the network.
    pub fn inject(&mut self, frame: &[u8]) -> Result<(), NetRefusal>
        requires len { length frame.now ≤ longest_frame }
        ensures ok { OnOk result (self.new ≡ with_entry self.old
            (Injected (next_number self.old.entries) frame.now)) }
        ensures room { OnOk result (¬ IsFull (network_of self.old) frame.now) }
        ensures full { (limit : NetLimit) → result ≡ Err (NetRefusal.Full limit)
            → IsFullBy limit (network_of self.old) frame.now }
        ensures memory { result ≡ Err NetRefusal.NoMemory
            → ¬ IsFull (network_of self.old) frame.now }
        ensures err { OnErr result (self.new ≡ self.old) }
    {
        self.check_room(frame)?;
        let (bytes, same) = twice(self.alloc, frame)?;
        let entry = Entry::Injected {
            frame: self.next_number(),
            bytes,
        };
        Ok(self.bring(entry, same)?)
    }

    /// A frame came to a target, and this is its reply.
    pub fn reply(
        &mut self,
        dev: TargetId,
        number: FrameNo,
        effect: Effect,
        reply: &[u8],
    ) -> Result<(), NetRefusal>
        requires len { length reply.now ≤ longest_frame }
        ensures ok { OnOk result (self.new ≡ with_entry self.old
            (Arrived dev number.0 (Replied effect (next_number self.old.entries) reply.now))) }
        ensures room { OnOk result (¬ IsFull (network_of self.old) reply.now) }
        ensures full { (limit : NetLimit) → result ≡ Err (NetRefusal.Full limit)
            → IsFullBy limit (network_of self.old) reply.now }
        ensures memory { result ≡ Err NetRefusal.NoMemory
            → ¬ IsFull (network_of self.old) reply.now }
        ensures err { OnErr result (self.new ≡ self.old) }
    {
        self.check_room(reply)?;
        let (bytes, same) = twice(self.alloc, reply)?;
        let fate = Fate::Replied {
            effect,
            frame: self.next_number(),
            bytes,
        };
        let entry = Entry::Arrived {
            dev,
            frame: u64::from(number.0),
            fate,
        };
        Ok(self.bring(entry, same)?)
    }
}
