//! A keep: lists on a disk.
ghost use Rattle.std.specs.Prelude.{◌≡◌, ◌≢◌, ◌≤◌, OnOk, OnErr, IfOk, IfErr, false, is_err};
ghost use Rattle.aoe_disk.specs.Calls.{IsRun};
ghost use Rattle.aoe_keep.specs.Found.{AlwaysFinds, AlwaysFindsFormat, FindsOffered, format_at};
ghost use Rattle.aoe_keep.specs.Keep.{Mounts, IsRefused, KeepsOthers};
ghost use Rattle.aoe_keep.specs.Calls.{MountsBy, RefusesBy, ReplacesBy, StandsBy};

use crate::MountRefusal;
use crate::body::WRITTEN;
use crate::mount::mount;
use crate::mounted::Mounted;
use aoe_base::Failed;
use aoe_disk::{Arm, Armed, Disk};
use aoe_lists::Lists;
use std::marker::Model;

/// The lists of a device, on a disk where they outlive a loss of power.
#[derive(Drop)]
pub struct Keep<D: Disk> {
    mounted: Mounted<D>,
}

impl<D: Disk> Model for Keep<D> {
    ghost use Rattle.aoe_keep.specs.Keep.{Kept, IsAtRest};

    ghost Value = { Kept D };

    ghost view = { λ k. record {
      disk = k.mounted.disk;
      lists = k.mounted.lists;
      place = k.mounted.place;
      is_closed = k.mounted.is_closed;
    } };

    ghost invariant = { λ k. IsAtRest D.state k.mounted };
}

impl<D: Disk> Keep<D> {
    /// The keep of a disk of at least 16 sectors. The disk is synced, then both gates are read and the
    /// bodies behind open ones; nothing else is, and nothing is written.
    pub fn mount(disk: D) -> Result<Keep<D>, (MountRefusal, D)>
        ensures lists { IfOk result (λ keep. Mounts (D.state disk) (D.state keep.disk) keep.lists) }
        ensures finds { IfOk result (λ keep. AlwaysFinds (D.state keep.disk) keep.lists) }
        ensures formats { IfOk result (λ keep. AlwaysFindsFormat (D.state keep.disk)
            (format_at keep.place)) }
        ensures stands { IfOk result (λ keep. StandsBy (D.state disk) keep) }
        ensures refused { IfErr result (λ e. IsRefused D.state disk e.0 e.1) }
        ensures calls { IfOk result (λ keep. MountsBy false (D.state disk) (D.state keep.disk)) }
        ensures refused_calls { IfErr result (λ e. RefusesBy D.state disk e.0 e.1) }
    {
        Ok(Keep {
            mounted: mount(disk)?,
        })
    }

    /// The lists that the keep holds.
    pub fn lists(&self) -> &Lists
        ensures { result.now ≡ self.now.lists }
    {
        &self.mounted.lists
    }

    /// The number of the format in which the lists stand, and 0 where no slot holds them.
    pub fn format(&self) -> u8
        ensures { result ≡ format_at self.now.place }
    {
        match self.mounted.place {
            Some(place) => place.format,
            None => 0,
        }
    }

    /// Makes `next` the lists, by six device calls: from then on every crash finds them. Where one
    /// of the calls fails the lists stay, and a crash finds them, or `next`, or what a crash just
    /// before could find.
    pub fn replace(&mut self, next: &Lists) -> Result<(), Failed>
        ensures lists { OnOk result (self.new.lists ≡ next.now) }
        ensures finds { OnOk result (AlwaysFinds (D.state self.new.disk) next.now) }
        ensures format { OnOk result (AlwaysFindsFormat (D.state self.new.disk) 2) }
        ensures stays { OnErr result (self.new.lists ≡ self.old.lists) }
        ensures offered { OnErr result (FindsOffered (D.state self.old.disk)
            (D.state self.new.disk) self.old.lists next.now) }
        ensures others { KeepsOthers (D.state self.old.disk) (D.state self.new.disk) }
        ensures run { IsRun 6 (is_err result) (D.state self.old.disk) (D.state self.new.disk) }
        ensures calls { ReplacesBy D.state next.now (is_err result) self.old self.new }
    {
        self.mounted.replace(next)
    }

    /// Writes the lists again where they don't stand in the format that is written now: a
    /// [`replace`](Keep::replace) of the present lists. Else it makes no device call.
    pub fn upgrade(&mut self) -> Result<(), Failed>
        ensures lists { self.new.lists ≡ self.old.lists }
        ensures format { OnOk result (format_at self.new.place ≡ 2) }
        ensures same { format_at self.old.place ≡ 2 → (self.new ≡ self.old)
            × (is_err result ≡ false) }
        ensures finds { format_at self.old.place ≢ 2 → OnOk result
            ((AlwaysFinds (D.state self.new.disk) self.old.lists)
            × (AlwaysFindsFormat (D.state self.new.disk) 2)) }
        ensures offered { OnErr result (FindsOffered (D.state self.old.disk)
            (D.state self.new.disk) self.old.lists self.old.lists) }
        ensures others { format_at self.old.place ≢ 2
            → KeepsOthers (D.state self.old.disk) (D.state self.new.disk) }
        ensures run { format_at self.old.place ≢ 2
            → IsRun 6 (is_err result) (D.state self.old.disk) (D.state self.new.disk) }
        ensures calls { format_at self.old.place ≢ 2
            → ReplacesBy D.state self.old.lists (is_err result) self.old self.new }
    {
        if self.format() == WRITTEN {
            return Ok(());
        }
        let lists = self.mounted.lists.copy();
        self.replace(&lists)
    }

    /// The disk.
    pub fn close(self) -> D
        ensures { result ≡ self.disk }
    {
        self.mounted.disk
    }
}

impl<D: Armed> Keep<D> {
    ghost use Rattle.std.specs.Prelude.{◌≡◌, ◌<◌, IfSome};
    ghost use Rattle.aoe_disk.specs.Arming.{number_of, ArmsTo};

    /// Arms the disk, in place of what was armed before.
    pub fn arm(&mut self, arm: Arm)
        requires { 0 < number_of arm }
        ensures rest { self.new ≡ record self.old { disk = self.new.disk } }
        ensures lists { self.new.lists ≡ self.old.lists }
        ensures armed { ArmsTo arm (D.state self.old.disk) (D.state self.new.disk) }
    {
        self.mounted.disk.arm(arm);
    }

    /// Whether the disk reached a stop.
    pub fn is_out(&self) -> bool
        ensures { IfSome (D.state self.now.disk).schedule (λ schedule. result ≡ schedule.out) }
    {
        self.mounted.disk.is_out()
    }
}
