//! The turn of a host: what it tells, and what it sends.
ghost use Rattle.std.specs.Prelude.{◌≡◌, Option, Err, List, [], OnErr, OnOk};
ghost use Rattle.aoe_history.specs.declared.entry.Entry.TheVariants.{Done as Finished};
ghost use Rattle.aoe_history.specs.Commands.{commands_of, host_after};
ghost use Rattle.aoe_history.specs.Groups.{Got, SendsSome, Turn, TurnSome};
ghost use Rattle.aoe_history.specs.Lawful.{IsLawful};
ghost use Rattle.aoe_history.specs.Setup.{HostSetup, Setup};
ghost use Rattle.aoe_initiator.specs.declared.outcome.Done.{Done};
ghost use Rattle.aoe_initiator.specs.HostLaw.{IsQuiet};
ghost use Rattle.aoe_sim_hosts.specs.Host.{Awaits, IsSettled};
ghost use Rattle.aoe_sim_hosts.specs.Turns.{HasBegun, HasSent, HasTold, Notes};
ghost use Rattle.aoe_history.specs.Run.{with_entry, MeetsFull};

use crate::host::SimHost;
use aoe_base::{NoMemory, copy_of};
use aoe_frame::Frame;
use aoe_history::{Boxed, Entry, Run};
use aoe_initiator::Done;
use aoe_net::{NetLimit, NetRefusal};

impl SimHost {
    /// Records the outcome of a command.
    fn tell(&self, run: &mut Run, done: Done) -> Result<(), NoMemory>
        ensures ok { OnOk result (run.new ≡ with_entry run.old
            (Finished self.now.name done.ticket.0 done.outcome)) }
        ensures err { OnErr result (run.new ≡ run.old) }
    {
        let outcome = Boxed::new(self.alloc, done.outcome)?;
        run.note(Entry::Done {
            host: copy_of(&self.name),
            ticket: done.ticket.0,
            outcome,
        })
    }

    /// Records the outcomes that wait, in the order in which they came.
    fn tell_all(&mut self, run: &mut Run) -> Result<(), NoMemory>
        ensures life { run.new.life ≡ run.old.life }
        ensures same { self.new
            ≡ record self.old { core = record self.old.core { waiting = self.new.core.waiting } } }
        ensures ok { OnOk result
            (Notes self.old.name self.old.core.waiting [] run.old.entries run.new.entries
            × (self.new.core.waiting ≡ [])) }
        ensures err { OnErr result ((rest : List Done)
            × Notes self.old.name self.old.core.waiting rest run.old.entries run.new.entries) }
    {
        'outcomes: while let Some(done) = self.core.take_done() {
            self.tell(run, done)?;
        }
        Ok(())
    }

    /// The clock goes on to that of the run, and every outcome is told.
    fn catch_up(&mut self, run: &mut Run) -> Result<(), NoMemory>
        ensures life { run.new.life ≡ run.old.life }
        ensures name { self.new.name ≡ self.old.name }
        ensures tickets { self.new.core.last_ticket ≡ self.old.core.last_ticket }
        ensures ok { OnOk result ((s : Setup) (host : HostSetup) (got : Option Got) → Awaits s host got run.old.entries self.old
            → IsLawful s run.old.entries → HasTold s host got run.old.entries run.new.entries self.new) }
        ensures err { OnErr result ((s : Setup) (host : HostSetup) (got : Option Got) → Awaits s host got run.old.entries self.old
            → IsLawful s run.old.entries → HasBegun s host got self.old.name run.old.entries run.new.entries) }
    {
        self.core.advance(run.clock());
        self.tell_all(run)
    }

    /// Sends frames as long as one may be sent.
    fn send_all(&mut self, run: &mut Run, out: &mut Frame) -> Result<(), NetRefusal>
        ensures life { run.new.life ≡ run.old.life }
        ensures name { self.new.name ≡ self.old.name }
        ensures tickets { self.new.core.last_ticket ≡ self.old.core.last_ticket }
        ensures some { (s : Setup) (host : HostSetup) → IsSettled s host run.old.entries self.old → IsLawful s run.old.entries
            → HasSent s self.old.name run.old.entries run.new.entries }
        ensures ok { OnOk result ((s : Setup) (host : HostSetup) → IsSettled s host run.old.entries self.old → IsLawful s run.old.entries
            → IsSettled s host run.new.entries self.new × IsQuiet (host_after s host run.new.entries) (commands_of host run.new.entries)) }
        ensures full { (limit : NetLimit) → result ≡ Err (NetRefusal.Full limit) → (s : Setup) (host : HostSetup) → IsSettled s host run.old.entries self.old
            → IsLawful s run.old.entries → MeetsFull s (SendsSome self.old.name run.old.entries) limit run.new.entries }
    {
        'frames: while let Some(sent) = self.core.pull(out) {
            match run.send(&self.name, sent.ticket, out.as_slice()) {
                Ok(()) => {}
                Err(refusal) => return Err(refusal),
            }
        }
        Ok(())
    }

    /// The turn of the host after an act: the clock goes on to that of the run, every outcome is
    /// told, and frames are sent until none may be. Each stands in `out` as it is sent.
    pub fn turn(&mut self, run: &mut Run, out: &mut Frame) -> Result<(), NetRefusal>
        ensures life { run.new.life ≡ run.old.life }
        ensures name { self.new.name ≡ self.old.name }
        ensures tickets { self.new.core.last_ticket ≡ self.old.core.last_ticket }
        ensures ok { OnOk result ((s : Setup) (host : HostSetup) (got : Option Got) → Awaits s host got run.old.entries self.old
            → IsLawful s run.old.entries → Turn s host got run.old.entries run.new.entries
            × IsLawful s run.new.entries × IsSettled s host run.new.entries self.new) }
        ensures err { OnErr result ((s : Setup) (host : HostSetup) (got : Option Got) → Awaits s host got run.old.entries self.old
            → IsLawful s run.old.entries → TurnSome host got run.old.entries run.new.entries × IsLawful s run.new.entries) }
        ensures full { (limit : NetLimit) → result ≡ Err (NetRefusal.Full limit) → (s : Setup) (host : HostSetup) (got : Option Got) → Awaits s host got run.old.entries self.old
            → IsLawful s run.old.entries → MeetsFull s (TurnSome host got run.old.entries) limit run.new.entries }
    {
        self.catch_up(run)?;
        self.send_all(run, out)
    }
}
