//! A frame that comes to a shelf.
ghost use Rattle.std.specs.Prelude.{List, ◌≡◌, ◌<◌, Err, IfErr, IfOk, OnErr, OnOk, drop, length, map, true};
ghost use Rattle.aoe_history.specs.declared.entry.Entry.TheVariants.{Arrived};
ghost use Rattle.aoe_history.specs.Frames.{arriving, next_number};
ghost use Rattle.aoe_history.specs.Groups.{ArriveAtEach, ArriveAtSome};
ghost use Rattle.aoe_history.specs.Lawful.{IsLawful};
ghost use Rattle.aoe_history.specs.Setup.{AreSlots, Setup, SlotSetup};
ghost use Rattle.aoe_sim_shelves.specs.Arrival.{noted, stop_at, ComesToSlot, IsReached, IsReplyFull};
ghost use Rattle.aoe_sim_shelves.specs.Shelf.{Serves};
ghost use Rattle.aoe_history.specs.Run.{is_plain, network_of, with_entry, MeetsFull};

use crate::{SimShelf, Stops};
use aoe_base::{FrameNo, NoMemory, TargetId};
use aoe_disk::Loss;
use aoe_frame::Frame;
use aoe_history::{Entry, Fate, Run};
use aoe_net::{NetLimit, NetRefusal};
use aoe_target::{Effect, Heard};

/// What the stop leaves in which a disk failed, where that is why the target replied so.
fn stop_at(stops: Stops, heard: Heard) -> Option<Loss>
    ensures { result ≡ stop_at stops heard }
{
    match heard {
        Heard::Ignored | Heard::Silent => None,
        Heard::Replied { effect } => match effect {
            Effect::WriteFault(_) | Effect::ReadFault | Effect::SyncFault => stops.store,
            Effect::EditFault => stops.keep,
            Effect::None | Effect::Wrote(_) | Effect::Synced | Effect::Edited => None,
        },
    }
}

/// Records an arrival that sends no frame.
fn note(run: &mut Run, dev: TargetId, number: FrameNo, fate: Fate) -> Result<(), NetRefusal>
    requires { is_plain (Arrived dev number.0 fate) ≡ true }
    ensures ok { OnOk result (run.new ≡ with_entry run.old (Arrived dev number.0 fate)) }
    ensures err { OnErr result (run.new ≡ run.old) }
    ensures cause { IfErr result (λ e. e ≡ NetRefusal.NoMemory) }
{
    let entry = Entry::Arrived {
        dev,
        frame: u64::from(number.0),
        fate,
    };
    run.note(entry)?;
    Ok(())
}

/// Records what became of a frame at a target; a reply is brought into the network.
fn take_down(
    run: &mut Run,
    dev: TargetId,
    number: FrameNo,
    heard: Heard,
    stop: Option<Loss>,
    out: &Frame,
) -> Result<(), NetRefusal>
    ensures ok { OnOk result (run.new ≡ with_entry run.old
        (Arrived dev number.0 (noted stop heard (next_number run.old.entries) out.now.items))) }
    ensures err { OnErr result (run.new ≡ run.old) }
    ensures full { (limit : NetLimit) → result ≡ Err (NetRefusal.Full limit)
        → IsReplyFull stop heard limit (network_of run.old) out.now.items }
{
    if stop.is_some() {
        return note(run, dev, number, Fate::Cut);
    }
    match heard {
        Heard::Ignored => note(run, dev, number, Fate::Ignored),
        Heard::Silent => note(run, dev, number, Fate::Silent),
        Heard::Replied { effect } => run.reply(dev, number, effect, out.as_slice()),
    }
}

impl SimShelf {
    /// A frame comes to the target at the slot. Where a disk fails in a stop, this is what is left.
    fn arrive_at(
        &mut self,
        run: &mut Run,
        slot: usize,
        number: FrameNo,
        frame: &[u8],
        out: &mut Frame,
    ) -> Result<Option<Loss>, NetRefusal>
        requires { slot < length self.old.shelf.targets }
        ensures life { run.new.life ≡ run.old.life }
        ensures comes { IfOk result (λ stop. (s : Setup) (slots : List SlotSetup) → IsReached s slots number.0 frame.now run.old.entries self.old
            → ComesToSlot s slots slot number.0 frame.now stop run.old.entries run.new.entries self.new) }
        ensures err { OnErr result (run.new ≡ run.old) }
        ensures full { (limit : NetLimit) → result ≡ Err (NetRefusal.Full limit) → (s : Setup) (slots : List SlotSetup)
            → IsReached s slots number.0 frame.now run.old.entries self.old
            → MeetsFull s (ArriveAtSome number.0 frame.now slots (drop slot slots) run.old.entries) limit run.new.entries }
        ensures count { length self.new.shelf.targets ≡ length self.old.shelf.targets }
        ensures major { self.new.shelf.major ≡ self.old.shelf.major }
        ensures stations { map (λ t. t.station) self.new.shelf.targets
            ≡ map (λ t. t.station) self.old.shelf.targets }
    {
        let dev = self.shelf.id(slot);
        let heard = self.shelf.receive_slot(slot, frame, out);
        let stop = stop_at(self.stops[slot], heard);
        match take_down(run, dev, number, heard, stop, out) {
            Ok(()) => {}
            Err(refusal) => return Err(refusal),
        }
        Ok(stop)
    }

    /// A frame comes to each target in turn, and each reply into the network. Where a disk fails in a
    /// stop, the whole shelf crashes with what the stop leaves, and the frame comes to no later target.
    pub fn arrive(
        &mut self,
        run: &mut Run,
        number: FrameNo,
        frame: &[u8],
        out: &mut Frame,
    ) -> Result<(), NetRefusal>
        ensures life { run.new.life ≡ run.old.life }
        ensures ok { OnOk result ((s : Setup) (slots : List SlotSetup) → AreSlots s slots → Serves slots run.old.entries self.old
            → IsLawful s run.old.entries → arriving s.life run.old.entries number.0 ≡ Some frame.now
            → ArriveAtEach number.0 frame.now slots slots run.old.entries run.new.entries × IsLawful s run.new.entries
            × Serves slots run.new.entries self.new) }
        ensures err { OnErr result ((s : Setup) (slots : List SlotSetup) → AreSlots s slots → Serves slots run.old.entries self.old
            → IsLawful s run.old.entries → arriving s.life run.old.entries number.0 ≡ Some frame.now
            → ArriveAtSome number.0 frame.now slots slots run.old.entries run.new.entries × IsLawful s run.new.entries) }
        ensures full { (limit : NetLimit) → result ≡ Err (NetRefusal.Full limit) → (s : Setup) (slots : List SlotSetup) → AreSlots s slots
            → Serves slots run.old.entries self.old → IsLawful s run.old.entries
            → arriving s.life run.old.entries number.0 ≡ Some frame.now
            → MeetsFull s (ArriveAtSome number.0 frame.now slots slots run.old.entries) limit run.new.entries }
        ensures major { self.new.shelf.major ≡ self.old.shelf.major }
        ensures stations { map (λ t. t.station) self.new.shelf.targets
            ≡ map (λ t. t.station) self.old.shelf.targets }
    {
        'slots: for slot in 0..self.shelf.count() {
            if let Some(how) = self.arrive_at(run, slot, number, frame, out)? {
                return match self.crash(run, how) {
                    Ok(()) => Ok(()),
                    Err(NoMemory) => Err(NetRefusal::NoMemory),
                };
            }
        }
        Ok(())
    }
}
