//! The turns of a run, and the four parts of each.
ghost use Rattle.std.specs.Prelude.{◌≡◌, ◌≤◌, ◌<◌, ◌-◌, ◌^◌, length, IfErr, IfOk, IfSome, OnOk};
ghost use Rattle.aoe_io.specs.Link.{turn_of};
ghost use Rattle.aoe_script.specs.Lines.{most_script_bytes};
ghost use Rattle.aoe_script.specs.Print.{script_text};
ghost use Rattle.aoe_live.specs.Lines.{asking, handing, ticks};
ghost use Rattle.aoe_live.specs.Recorder.{IsFresh, IsKept};
ghost use Rattle.aoe_live.specs.Rounds.{or_now, quiet_by, wire, Taken, TurnEnds};
ghost use Rattle.aoe_live.specs.Stations.{stations};
ghost use Rattle.aoe_live.specs.Steps.{links, Blames, Exchanges, Steps};
ghost use Rattle.aoe_live.specs.Tally.{is_over};
ghost use Rattle.aoe_live.specs.Whole.{outside, with_lines, Lives};

use crate::command::command;
use crate::frames::{Sender, newest};
use crate::recorder::Recorder;
use crate::refusal::LiveRefusal;
use crate::stations::named;
use aoe_frame::Frame;
use aoe_io::{Clock, Got, Link};
use aoe_script::Event;

/// The most milliseconds of one line.
const MOST: u64 = 10_000_000;

/// How much time went by since an answer of the clock, where there is one.
fn since(last: Option<u64>, now: u64) -> u64
    requires { IfSome last (λ last. last ≤ now) }
    ensures { result ≡ now - or_now last now }
{
    match last {
        Some(last) => now - last,
        None => 0,
    }
}

/// How many consecutive turns finished no command, after one more.
fn quiet_after(quiet: u32, finishes: bool) -> u32
    requires { quiet < 2 ^ 32 - 1 }
    ensures { result ≡ quiet_by finishes quiet }
{
    if finishes { 0 } else { quiet + 1 }
}

impl Recorder<'_> {
    /// Some milliseconds go by.
    fn pass_time<L: Link>(&mut self, ms: u64, one: &mut L, two: &mut L) -> Result<(), LiveRefusal>
        requires kept { IsKept self.old }
        ensures kept { OnOk result (IsKept self.new) }
        ensures steps { Steps (ticks ms) result self.old self.new
            (links L.turns L.given L.taken one.old two.old)
            (links L.turns L.given L.taken one.new two.new) }
        ensures faults_one { Blames result 0 (L.faults one.old) (L.faults one.new) }
        ensures faults_two { Blames result 1 (L.faults two.old) (L.faults two.new) }
    {
        'ticks: for _ in 0..ms / MOST {
            match self.line(Event::Tick { ms: MOST }, one, two) {
                Ok(()) => {}
                Err(refusal) => return Err(refusal),
            }
        }
        let rest = ms % MOST;
        if rest == 0 {
            return Ok(());
        }
        self.line(Event::Tick { ms: rest }, one, two)
    }

    /// Hands over what a link gave, where it is a frame of this sender that can be handed over.
    fn hand<L: Link>(
        &mut self,
        sender: Sender,
        got: Got,
        frame: &[u8],
        one: &mut L,
        two: &mut L,
    ) -> Result<(), LiveRefusal>
        requires kept { IsKept self.old }
        ensures kept { OnOk result (IsKept self.new) }
        ensures steps { Steps
            (handing sender (turn_of got frame.now) self.old.world.entries) result self.old self.new
            (links L.turns L.given L.taken one.old two.old)
            (links L.turns L.given L.taken one.new two.new) }
        ensures faults_one { Blames result 0 (L.faults one.old) (L.faults one.new) }
        ensures faults_two { Blames result 1 (L.faults two.old) (L.faults two.new) }
    {
        if got != Got::Frame {
            return Ok(());
        }
        let Some(frame) = newest(self.world.history(), sender, frame) else {
            return Ok(());
        };
        let station = named(match sender {
            Sender::Host => b's',
            Sender::Shelf => b'a',
        });
        self.line(Event::Deliver { frame, station }, one, two)
    }

    /// Submits the next command, where there is one and none is open.
    fn ask<L: Link>(&mut self, one: &mut L, two: &mut L) -> Result<(), LiveRefusal>
        requires kept { IsKept self.old }
        ensures kept { OnOk result (IsKept self.new) }
        ensures steps { Steps
            (asking self.old.sectors self.old.commands self.old.tally) result self.old self.new
            (links L.turns L.given L.taken one.old two.old)
            (links L.turns L.given L.taken one.new two.new) }
        ensures faults_one { Blames result 0 (L.faults one.old) (L.faults one.new) }
        ensures faults_two { Blames result 1 (L.faults two.old) (L.faults two.new) }
    {
        let next = self.tally.begun;
        if self.tally.ended != next || next > u64::from(self.commands) {
            return Ok(());
        }
        self.line(command(self.sectors, self.commands, next), one, two)
    }

    /// The second and the third part of a turn: each link is asked once.
    fn exchange<L: Link>(
        &mut self,
        one: &mut L,
        two: &mut L,
        frame: &mut Frame,
    ) -> Result<(), LiveRefusal>
        requires kept { IsKept self.old }
        ensures kept { OnOk result (IsKept self.new) }
        ensures exchanges { Exchanges result self.old self.new
            (links L.turns L.given L.taken one.old two.old)
            (links L.turns L.given L.taken one.new two.new) }
        ensures faults_one { Blames result 0 (L.faults one.old) (L.faults one.new) }
        ensures faults_two { Blames result 1 (L.faults two.old) (L.faults two.new) }
    {
        let Ok(got) = one.recv(frame) else {
            return Err(LiveRefusal::LinkFault { link: 0 });
        };
        match self.hand(Sender::Host, got, frame.as_slice(), one, two) {
            Ok(()) => {}
            Err(refusal) => return Err(refusal),
        }
        let Ok(got) = two.recv(frame) else {
            return Err(LiveRefusal::LinkFault { link: 1 });
        };
        self.hand(Sender::Shelf, got, frame.as_slice(), one, two)
    }

    /// A turn in which so much time goes by: whether it finished a command.
    fn turn<L: Link>(
        &mut self,
        ms: u64,
        turns: u32,
        one: &mut L,
        two: &mut L,
        frame: &mut Frame,
    ) -> Result<bool, LiveRefusal>
        requires kept { IsKept self.old }
        ensures kept { OnOk result (IsKept self.new) }
        ensures taken { IfOk result (λ finishes. Taken self.old.sectors self.old.commands ms finishes self.old.world.entries self.new.world.entries self.old.script.events self.new.script.events
            (wire (L.turns one.old) (L.given one.old) (L.taken one.old)) (wire (L.turns one.new) (L.given one.new) (L.taken one.new))
            (wire (L.turns two.old) (L.given two.old) (L.taken two.old)) (wire (L.turns two.new) (L.given two.new) (L.taken two.new))) }
        ensures ends { IfErr result (λ refusal. TurnEnds self.old.sectors self.old.commands turns ms refusal self.old.script.events self.old.world.entries self.new.world.entries
            (wire (L.turns one.old) (L.given one.old) (L.taken one.old)) (wire (L.turns one.new) (L.given one.new) (L.taken one.new))
            (wire (L.turns two.old) (L.given two.old) (L.taken two.old)) (wire (L.turns two.new) (L.given two.new) (L.taken two.new))) }
        ensures faults_one { Blames result 0 (L.faults one.old) (L.faults one.new) }
        ensures faults_two { Blames result 1 (L.faults two.old) (L.faults two.new) }
        ensures sectors { self.new.sectors ≡ self.old.sectors }
        ensures commands { self.new.commands ≡ self.old.commands }
    {
        let before = self.tally.ended;
        match self.pass_time(ms, one, two) {
            Ok(()) => {}
            Err(refusal) => return Err(refusal),
        }
        if self.tally.gave_up {
            return Err(LiveRefusal::Unanswered { turns });
        }
        match self.exchange(one, two, frame) {
            Ok(()) => {}
            Err(refusal) => return Err(refusal),
        }
        match self.ask(one, two) {
            Ok(()) => Ok(self.tally.ended != before),
            Err(refusal) => Err(refusal),
        }
    }

    /// Whether each command has its outcome, the flush too, and none was given up.
    fn is_over(&self) -> bool
        ensures { result ≡ is_over self.now.commands self.now.tally }
    {
        !self.tally.gave_up
            && self.tally.ended == self.tally.begun
            && self.tally.begun > u64::from(self.commands)
    }

    /// Takes turns until each command has its outcome, or `turns` consecutive ones finished none.
    pub(crate) fn run<L: Link, C: Clock>(
        &mut self,
        turns: u32,
        one: &mut L,
        two: &mut L,
        clock: &mut C,
    ) -> Result<(), LiveRefusal>
        requires fresh { IsFresh self.old }
        requires few { self.old.commands < 2 ^ 32 }
        ensures lives { Lives self.old.sectors self.old.commands turns (with_lines result self.new.script.events)
            (outside (wire (L.turns one.old) (L.given one.old) (L.taken one.old)) (wire (L.turns two.old) (L.given two.old) (L.taken two.old)) (C.answers clock.old))
            (outside (wire (L.turns one.new) (L.given one.new) (L.taken one.new)) (wire (L.turns two.new) (L.given two.new) (L.taken two.new)) (C.answers clock.new)) }
        ensures setups { OnOk result (self.new.script.setups ≡ stations self.old.sectors) }
        ensures short { OnOk result (length (script_text self.new.script) ≤ most_script_bytes) }
        ensures faults_one { Blames result 0 (L.faults one.old) (L.faults one.new) }
        ensures faults_two { Blames result 1 (L.faults two.old) (L.faults two.new) }
    {
        let mut frame = Frame::new();
        let mut last = None;
        let mut quiet = 0;
        'turns: while quiet < turns {
            let now = clock.now();
            let ms = since(last, now);
            let finishes = match self.turn(ms, turns, one, two, &mut frame) {
                Ok(finishes) => finishes,
                Err(refusal) => return Err(refusal),
            };
            if self.is_over() {
                return Ok(());
            }
            last = Some(now);
            quiet = quiet_after(quiet, finishes);
        }
        Err(LiveRefusal::Unanswered { turns })
    }
}
