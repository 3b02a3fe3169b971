//! What is wrong with a line, by what stands before it.
ghost use Rattle.std.specs.Prelude.{◌≡◌, ◌≤◌, true, false, not, ◌||◌, ◌&&◌, length, None};
ghost use Rattle.std.specs.List.{list_any};
ghost use Rattle.aoe_base.specs.Addresses.{source_of};
ghost use Rattle.aoe_script.specs.Rules.{are_too_many, attaches, declared_why, event_why, first_of, has_major, is_event, is_full, is_host_named, is_shelf, is_shelf_named, is_slot, is_slot_of, is_taken, marks, named_why, setup_why, unless};

use crate::event::Event;
use crate::refusal::Why;
use crate::setup::{Name, Setup};
use crate::standing::{Kind, any, are_too_many, is_attached, is_full, is_known, is_taken};
use aoe_base::Mac;

/// The first of these causes that holds.
fn first_of(repeat: bool, size: bool, unknown: bool) -> Option<Why>
    ensures { result ≡ first_of repeat size unknown }
{
    if repeat {
        Some(Why::Repeat)
    } else if size {
        Some(Why::Size)
    } else if unknown {
        Some(Why::Unknown)
    } else {
        None
    }
}

/// What stands in the way of a shelf.
fn shelf_why(setups: &[Setup], name: &Name, major: u64, ports: &[Mac]) -> Option<Why>
    ensures { result ≡ first_of (is_taken setups.now name.now ports.now || list_any
        (has_major major) setups.now) (is_full is_shelf setups.now) false }
{
    let repeat = is_taken(setups, name, ports) || any(setups, &Kind::Major(major));
    first_of(repeat, is_full(setups, &Kind::Shelf), false)
}

/// What stands in the way of a slot.
fn slot_why(setups: &[Setup], shelf: &Name, minor: u64, sectors: u64) -> Option<Why>
    ensures { result ≡ first_of (list_any (is_slot shelf.now minor) setups.now)
        (is_full (is_slot_of shelf.now) setups.now || are_too_many setups.now sectors) (not (list_any (is_shelf_named shelf.now) setups.now)) }
{
    let repeat = any(setups, &Kind::Slot(shelf, minor));
    let size = is_full(setups, &Kind::SlotOf(shelf)) || are_too_many(setups, sectors);
    first_of(repeat, size, !any(setups, &Kind::ShelfNamed(shelf)))
}

/// What stands in the way of an attachment.
fn attach_why(setups: &[Setup], host: &Name, shelf: &Name, minor: u64) -> Option<Why>
    ensures { result ≡ first_of (list_any (attaches host.now shelf.now minor) setups.now) false
        (not (list_any (is_host_named host.now) setups.now && list_any (is_slot shelf.now minor) setups.now)) }
{
    let repeat = any(setups, &Kind::Attached(host, shelf, minor));
    let known = any(setups, &Kind::HostNamed(host)) && any(setups, &Kind::Slot(shelf, minor));
    first_of(repeat, false, !known)
}

/// What stands in the way of a mark.
fn readonly_why(setups: &[Setup], shelf: &Name, minor: u64) -> Option<Why>
    ensures { result ≡ first_of (list_any (marks shelf.now minor) setups.now) false
        (not (list_any (is_slot shelf.now minor) setups.now)) }
{
    let repeat = any(setups, &Kind::Marked(shelf, minor));
    first_of(repeat, false, !any(setups, &Kind::Slot(shelf, minor)))
}

impl Setup {
    /// What stands in the way of this declaration behind these.
    fn declared_why(&self, setups: &[Setup]) -> Option<Why>
        ensures { result ≡ declared_why setups.now self.now }
    {
        match self {
            Setup::Life { .. } => first_of(any(setups, &Kind::Life), false, false),
            Setup::Shelf {
                name,
                major,
                ports,
                ..
            } => shelf_why(setups, name, *major, ports.as_slice()),
            Setup::Slot {
                shelf,
                minor,
                sectors,
                ..
            } => slot_why(setups, shelf, *minor, *sectors),
            Setup::Host { name, ports, .. } => first_of(
                is_taken(setups, name, ports.as_slice()),
                is_full(setups, &Kind::Host),
                false,
            ),
            Setup::Attach { host, shelf, minor } => attach_why(setups, host, shelf, *minor),
            Setup::Readonly { shelf, minor } => readonly_why(setups, shelf, *minor),
        }
    }

    /// What is wrong with this setup line behind these, and behind an event line or none.
    #[tactic(auto, unfolding(crate::specs::Rules::setup_why))]
    pub(crate) fn why(&self, setups: &[Setup], behind: bool) -> Option<Why>
        ensures { result ≡ setup_why setups.now behind self.now }
    {
        if !self.is_in_range() {
            return Some(Why::Value);
        }
        if behind {
            return Some(Why::Place);
        }
        self.declared_why(setups)
    }
}

/// The source of a frame (IEEE 802.3).
fn source_of(frame: &[u8]) -> Mac
    requires { 14 ≤ length frame.now }
    ensures { result ≡ source_of frame.now }
{
    Mac([frame[6], frame[7], frame[8], frame[9], frame[10], frame[11]])
}

/// The cause, where it holds.
fn because(holds: bool, why: Why) -> Option<Why>
    ensures { result ≡ unless holds why None }
{
    if holds { Some(why) } else { None }
}

impl Event {
    /// What this event names that doesn't stand, or must not stand.
    fn named_why(&self, setups: &[Setup]) -> Option<Why>
        requires { is_event self.now ≡ true }
        ensures { result ≡ named_why setups.now self.now }
    {
        match self {
            Event::Read { host, dev, .. }
            | Event::Write { host, dev, .. }
            | Event::Flush { host, dev }
            | Event::Identify { host, dev }
            | Event::Config { host, dev, .. }
            | Event::Masks { host, dev, .. }
            | Event::Reserve { host, dev, .. } => because(
                !is_attached(setups, host, dev),
                Why::Unknown,
            ),
            Event::Tick { .. } | Event::Pass { .. } | Event::Skip { .. } | Event::Again => None,
            Event::Deliver { station, .. } => because(
                !any(setups, &Kind::StationNamed(station)),
                Why::Unknown,
            ),
            Event::Inject { bytes } => because(
                any(setups, &Kind::Port(&source_of(bytes.bytes()))),
                Why::Station,
            ),
            Event::Fail { dev, .. } | Event::Stop { dev, .. } => because(
                !is_known(setups, dev),
                Why::Unknown,
            ),
            Event::Crash { shelf, .. } => because(
                !any(setups, &Kind::ShelfNamed(shelf)),
                Why::Unknown,
            ),
        }
    }

    /// What is wrong with this event line behind these setup lines.
    #[tactic(auto, unfolding(crate::specs::Rules::event_why))]
    pub(crate) fn why(&self, setups: &[Setup]) -> Option<Why>
        ensures { result ≡ event_why setups.now self.now }
    {
        if !self.is_in_range() {
            return Some(Why::Value);
        }
        self.named_why(setups)
    }
}
