//! Commands, and which of them keep others back.
ghost use Rattle.std.specs.Prelude.{◌≡◌, ◌+◌, ◌^◌, ◌<◌, ◌≤◌, ◌&&◌, ℕ, false, true, not, nat_le};
ghost use Rattle.aoe_hold.specs.Queue.{blocks, lingers};
ghost use Rattle.aoe_hold.specs.Commands.{comes_first, conflict, finished, has_effect, is_flush, is_past, is_unsent, is_write, rests_on_effects, stage_finished, stage_sent};

use aoe_base::{Millis, Span, Ticket};

/// What a command does, as far as the order of commands goes by it.
#[derive(Clone, Copy, PartialEq, Eq)]
pub enum Kind {
    Read,
    Write,
    Flush,

    /// A change of the device's lists.
    Edit,

    /// What neither changes nor reads what another command changes.
    Other,
}

impl Kind {
    pub fn is_write(self) -> bool
        ensures { result ≡ is_write self }
    {
        matches!(self, Kind::Write)
    }

    pub fn is_flush(self) -> bool
        ensures { result ≡ is_flush self }
    {
        matches!(self, Kind::Flush)
    }

    /// Whether a frame that comes late can still change what the device has.
    fn has_effect(self) -> bool
        ensures { result ≡ has_effect self }
    {
        matches!(self, Kind::Write | Kind::Edit)
    }

    /// Whether the command rests on what earlier ones left.
    fn rests_on_effects(self) -> bool
        ensures { result ≡ rests_on_effects self }
    {
        matches!(self, Kind::Write | Kind::Flush | Kind::Edit)
    }
}

/// How far a command has come. `Flying` and `Finished` have the time of its last send.
#[derive(Clone, Copy, PartialEq, Eq)]
pub enum Stage {
    Unsent,
    Flying(Millis),
    Finished(Millis),
}

impl Stage {
    /// The stage after a send.
    pub fn sent(self, now: Millis) -> Stage
        ensures { result ≡ stage_sent now self }
    {
        match self {
            Stage::Finished(last) => Stage::Finished(last),
            _ => Stage::Flying(now),
        }
    }

    /// The stage after the outcome came.
    pub fn finished(self) -> Stage
        ensures { result ≡ stage_finished self }
    {
        match self {
            Stage::Flying(last) => Stage::Finished(last),
            stage => stage,
        }
    }
}

/// The time from which no frame can arrive that was sent by `last`.
fn expiry(last: Millis, life: Millis) -> u128
    ensures { result ≡ last.0 + life.0 + 1 }
{
    u128::from(last.0) + u128::from(life.0) + 1
}

/// A command that was entered.
#[derive(Clone, Copy, PartialEq, Eq)]
pub struct Command {
    pub ticket: Ticket,
    pub kind: Kind,
    pub span: Span,
    pub stage: Stage,
}

impl Command {
    /// Whether two commands must keep their order.
    pub fn conflicts(&self, other: &Command) -> bool
        ensures { result ≡ conflict self.now other.now }
    {
        match (self.kind, other.kind) {
            (Kind::Flush, Kind::Write) | (Kind::Write, Kind::Flush) | (Kind::Edit, Kind::Edit) =>
                true,
            (Kind::Write, _) | (_, Kind::Write) => self.span.overlaps(&other.span),
            _ => false,
        }
    }

    /// Whether the command was never sent.
    pub fn is_unsent(&self) -> bool
        ensures { result ≡ is_unsent self.now }
    {
        matches!(self.stage, Stage::Unsent)
    }

    /// Whether the command is finished and none of its frames can arrive any more.
    pub fn is_past(&self, life: Millis, now: Millis) -> bool
        ensures { result ≡ is_past life.0 now.0 self.now }
    {
        match self.stage {
            Stage::Finished(last) => now.0.saturating_sub(last.0) > life.0,
            _ => false,
        }
    }

    /// The time before which the command isn't past, and from which on it is.
    pub fn past_from(&self, life: Millis) -> u128
        ensures before { (now : ℕ) → now < result → is_past life.0 now self.now ≡ false }
        ensures from { (now : ℕ) → now < 2 ^ 64 → result ≤ now → is_past life.0 now self.now ≡ true }
    {
        match self.stage {
            Stage::Finished(last) => expiry(last, life),
            _ => u128::MAX,
        }
    }

    /// Whether the command came before a later one in conflict.
    pub fn comes_first(&self, later: &Command) -> bool
        ensures { result ≡ comes_first self.now later.now }
    {
        self.ticket < later.ticket && self.conflicts(later)
    }

    /// Whether the command came before a later one in conflict, and isn't finished.
    pub fn blocks(&self, later: &Command) -> bool
        ensures { result ≡ blocks later.now self.now }
    {
        self.comes_first(later) && !self.is_finished()
    }

    /// Whether the command has its outcome.
    pub fn is_finished(&self) -> bool
        ensures { result ≡ finished self.now.stage }
    {
        matches!(self.stage, Stage::Finished(_))
    }

    /// The time from which no frame of the command can arrive that a later one waits for, once the
    /// command is finished.
    pub fn lingers_until(&self, later: &Command, life: Millis) -> u128
        ensures { (now : ℕ) → lingers life.0 now later.now self.now ≡ not (nat_le result now) }
    {
        match self.stage {
            Stage::Finished(last) if self.lasts_for(later) => expiry(last, life),
            _ => 0,
        }
    }

    /// Whether frames of the command can change what a later one rests on.
    fn lasts_for(&self, later: &Command) -> bool
        ensures { result ≡ (comes_first self.now later.now && has_effect self.now.kind && rests_on_effects later.now.kind) }
    {
        self.comes_first(later) && self.kind.has_effect() && later.kind.rests_on_effects()
    }
}
