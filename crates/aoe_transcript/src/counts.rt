//! How much happens in a history.
ghost use Rattle.std.specs.Prelude.{ℕ, ◌≡◌, ◌+◌, ◌≤◌, [], ◌∷◌, List, length, IfOk};
ghost use Rattle.aoe_base.specs.declared.address.TargetId.{TargetId};
ghost use Rattle.aoe_history.specs.declared.entry.Entry.{Entry};
ghost use Rattle.aoe_history.specs.declared.entry.Entry.TheVariants.{Arrived};
ghost use Rattle.aoe_history.specs.Frames.{frames};
ghost use Rattle.aoe_transcript.specs.Counting.{AreBelow, HasSent};
ghost use Rattle.aoe_transcript.specs.Counts.{sends_again, summary_of};

use crate::summary::Summary;
use aoe_base::NoMemory;
use aoe_history::{Entry, Fate, History};
use std::alloc::Global;
use std::collections::HashSet;

/// The commands of which a frame was sent: the name of the host, and the ticket.
type Seen<'a> = HashSet<(&'a [u8], u64)>;

/// Whether the entry sends a frame of a command that was seen. From now on it was.
fn sends_again<'a>(seen: &mut Seen<'a>, entry: &'a Entry) -> Result<bool, NoMemory>
    ensures { IfOk result (λ again. (h : List Entry) → HasSent seen.old h
        → (again ≡ sends_again entry.now h) × HasSent seen.new (entry.now ∷ h)) }
{
    let Entry::Sent { host, ticket, .. } = entry else {
        return Ok(false);
    };
    let is_new = seen.insert((host.as_slice(), *ticket))?;
    Ok(!is_new)
}

/// How many frames come into the network where this becomes of one at a target.
fn replies(fate: &Fate) -> u64
    ensures frames { (dev : TargetId) (frame : ℕ) (h : List Entry)
        → length (frames (Arrived dev frame fate.now ∷ h)) ≡ length (frames h) + result }
    ensures one { result ≤ 1 }
{
    match fate {
        Fate::Replied { .. } => 1,
        Fate::Ignored | Fate::Silent | Fate::Cut => 0,
    }
}

impl Summary {
    /// Nothing happened in the run of a script of `events` events.
    fn new(events: u64) -> Summary
        ensures { result ≡ summary_of events [] }
    {
        Summary {
            events,
            frames: 0,
            sent: 0,
            again: 0,
            arrived: 0,
            done: 0,
            lost: 0,
            crashed: 0,
        }
    }

    /// One thing more happened.
    fn count(&mut self, entry: &Entry, again: bool)
        requires { AreBelow u64.MAX self.old }
        ensures { (events : ℕ) (h : List Entry) → self.old ≡ summary_of events h
            → again ≡ sends_again entry.now h → self.new ≡ summary_of events (entry.now ∷ h) }
    {
        match entry {
            Entry::Sent { .. } => {
                self.frames += 1;
                self.sent += 1;
                self.again += u64::from(again);
            }
            Entry::Injected { .. } => self.frames += 1,
            Entry::Arrived { fate, .. } => {
                self.frames += replies(fate);
                self.arrived += 1;
            }
            Entry::Done { .. } => self.done += 1,
            Entry::Lost { .. } => self.lost += 1,
            Entry::Crashed { .. } => self.crashed += 1,
            Entry::Submitted { .. }
            | Entry::Refused { .. }
            | Entry::Took { .. }
            | Entry::Ticked { .. }
            | Entry::Armed { .. } => {}
        }
    }
}

/// How much happened in the run of a script of `events` events.
pub fn summarize(alloc: Global, events: u64, history: &History) -> Result<Summary, NoMemory>
    ensures { IfOk result (λ counts. counts ≡ summary_of events history.now) }
{
    let mut seen = HashSet::new(alloc);
    let mut counts = Summary::new(events);
    'entries: for i in 0..history.count() {
        let entry = history.entry(i);
        let again = sends_again(&mut seen, entry)?;
        counts.count(entry, again);
    }
    Ok(counts)
}
