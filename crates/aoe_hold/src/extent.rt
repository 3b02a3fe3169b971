//! What the held commands are at most.
ghost use Rattle.std.specs.Prelude.{◌≡◌};
ghost use Rattle.std.specs.BTreeSet.{BTreeSet as Seen};
ghost use Rattle.aoe_hold.specs.declared.keys.Key.{Key as KeyValue};
ghost use Rattle.aoe_hold.specs.Extents.{goes_by_span, kept_extent, no_extent, widened, Covers};

use crate::command::{Command, Kind};
use crate::held::HeldCommands;
use std::marker::Model;

/// A bound of the held commands.
#[derive(Clone, Copy)]
pub struct Extent {
    /// How far the last sector of one lies behind its first.
    reach: u32,

    /// Whether one of them may be a flush.
    flushes: bool,
}

impl Model for Extent {
    ghost use Rattle.aoe_hold.specs.Extents.{Extent};

    ghost Value = { Extent };

    ghost view = { λ e. record { reach = e.reach; flushes = e.flushes } };

    ghost inverse = { λ v. record { reach = v.reach; flushes = v.flushes } };
}

impl Extent {
    /// The extent of no command.
    pub fn new() -> Extent
        ensures { result ≡ no_extent }
    {
        Extent {
            reach: 0,
            flushes: false,
        }
    }

    /// How far the last sector of a command lies behind its first at most.
    pub fn reach(self) -> u32
        ensures { result ≡ self.reach }
    {
        self.reach
    }

    /// The extent of what is still held.
    pub fn kept(self, commands: &HeldCommands) -> Extent
        ensures value { result ≡ kept_extent self commands.now.items }
        ensures covers { (keys : Seen KeyValue) → Covers self keys commands.now.items
            → Covers result keys commands.now.items }
    {
        if commands.is_empty() {
            Extent::new()
        } else {
            self
        }
    }

    /// The extent of one command more.
    pub fn widened(self, command: &Command) -> Extent
        ensures { result ≡ widened self command.now }
    {
        Extent {
            reach: self.reach.max(command.span.count.saturating_sub(1)),
            flushes: self.flushes || command.kind.is_flush(),
        }
    }

    /// Whether a command of this kind conflicts only with such whose span overlaps its own.
    pub fn goes_by_span(&self, kind: Kind) -> bool
        ensures { result ≡ goes_by_span self.now kind }
    {
        match kind {
            Kind::Read | Kind::Other => true,
            Kind::Write => !self.flushes,
            Kind::Flush | Kind::Edit => false,
        }
    }
}
