//! The ranges of words.
ghost use Rattle.std.specs.Prelude.{◌≡◌, ◌==◌, nat_le, length, if◌then◌else◌};
ghost use Rattle.std.specs.List.{list_all};
ghost use Rattle.aoe_lists.specs.Settings.{max_directives};
ghost use Rattle.aoe_script.specs.Rules.{are_ports, is_asked, is_cache, is_device, is_event, is_lifetime, is_limit, is_setup, is_span, is_within};
ghost use Rattle.aoe_base.specs.Addresses.{all_unique, is_individual};

use crate::classes::is_name;
use crate::event::Event;
use crate::setup::{Name, Setup};
use aoe_base::{Blob, LAST_MAJOR, LAST_MINOR, Mac, Ports, TargetId, all_unique};
use aoe_lists::{Dir, MAX_CONFIG, MAX_DIRS};
use arrayvec::ArrayVec;

/// The first sector that has no 48-bit address.
const END_OF_SECTORS: u64 = 281_474_976_710_656;

/// The longest lifetime of a frame, in milliseconds: ten minutes, a limit of this program.
const LONGEST_LIFE: u64 = 600_000;

/// Whether a number is one of these.
fn is_within(least: u64, most: u64, n: u64) -> bool
    ensures { result ≡ is_within least most n }
{
    least <= n && n <= most
}

/// Whether no address is that of a group.
fn are_individual(ports: &[Mac]) -> bool
    ensures { result ≡ list_all is_individual ports.now }
{
    ports.iter().all(|mac| mac.is_individual())
}

/// Whether these can be the addresses of a station.
#[tactic(auto, unfolding(crate::specs::Rules::are_ports))]
fn are_ports(ports: &Ports) -> bool
    ensures { result ≡ are_ports ports.now }
{
    let list = ports.as_slice();
    is_within(1, 4, list.len() as u64) && are_individual(list) && all_unique(list)
}

/// Whether these say how many commands of a host fly and for how long, or neither.
fn is_limit(room: Option<u64>, dead: Option<u64>) -> bool
    ensures { result ≡ is_limit room dead }
{
    match (room, dead) {
        (None, None) => true,
        (Some(room), Some(dead)) => is_within(1, 16384, room) && is_within(1, 10_000_000, dead),
        (None, Some(_)) => false,
        (Some(_), None) => false,
    }
}

/// Whether responses can be handed over for so long, where that is given.
fn is_lifetime(responses: Option<u64>) -> bool
    ensures { result ≡ is_lifetime responses }
{
    match responses {
        Some(ms) => ms <= LONGEST_LIFE,
        None => true,
    }
}

/// Whether a slot can have this: a cache with room for so many sectors, or none.
fn is_cache(room: Option<u64>) -> bool
    ensures { result ≡ is_cache room }
{
    match room {
        Some(room) => is_within(1, 65536, room),
        None => true,
    }
}

/// Whether a device can have this name.
fn is_device(dev: &TargetId) -> bool
    ensures { result ≡ is_device dev.now }
{
    u64::from(dev.major) <= LAST_MAJOR && u64::from(dev.minor) <= LAST_MINOR
}

/// Whether these can be a host and a device.
fn is_asked(host: &Name, dev: &TargetId) -> bool
    ensures { result ≡ is_asked host.now dev.now }
{
    is_name(host) && is_device(dev)
}

/// Whether a command on sectors can have these numbers.
fn is_span(at: u64, count: u64) -> bool
    ensures { result ≡ is_span at count }
{
    at < END_OF_SECTORS && count <= 255
}

/// Whether an action on the config string can have this text: a read has none.
fn has_text(ccmd: u8, text: &Blob) -> bool
    ensures { result ≡ nat_le (length text.now) (if ccmd == 0 then 0 else 1024) }
{
    text.bytes().len() <= if ccmd == 0 { 0 } else { MAX_CONFIG }
}

/// Whether an action on the mask list can have these directives: a read has none.
fn has_dirs(edit: bool, dirs: &ArrayVec<Dir, MAX_DIRS>) -> bool
    ensures { result ≡ is_within (if edit then 1 else 0) (if edit then max_directives else 0)
        (length dirs.now.items) }
{
    if edit {
        is_within(1, MAX_DIRS as u64, dirs.len() as u64)
    } else {
        dirs.len() == 0
    }
}

/// Whether an action on the reserve list can have these addresses: a read has none.
fn has_list(rcmd: u8, list: &ArrayVec<Mac, MAX_DIRS>) -> bool
    ensures { result ≡ nat_le (length list.now.items) (if rcmd == 0 then 0 else max_directives) }
{
    list.len() <= if rcmd == 0 { 0 } else { MAX_DIRS }
}

impl Setup {
    /// Whether each word is in its range.
    pub(crate) fn is_in_range(&self) -> bool
        ensures { result ≡ is_setup self.now }
    {
        match self {
            Setup::Life {
                requests,
                responses,
            } => *requests <= LONGEST_LIFE && is_lifetime(*responses),
            Setup::Shelf {
                name,
                major,
                ports,
                mtu,
            } => is_name(name)
                && *major <= LAST_MAJOR
                && are_ports(ports)
                && is_within(1500, 9000, *mtu),
            Setup::Slot {
                shelf,
                minor,
                sectors,
                room,
            } => is_name(shelf)
                && *minor <= LAST_MINOR
                && is_within(1, 65536, *sectors)
                && is_cache(*room),
            Setup::Host {
                name,
                ports,
                room,
                dead,
            } => is_name(name) && are_ports(ports) && is_limit(*room, *dead),
            Setup::Attach { host, shelf, minor } => {
                is_name(host) && is_name(shelf) && *minor <= LAST_MINOR
            }
            Setup::Readonly { shelf, minor } => is_name(shelf) && *minor <= LAST_MINOR,
        }
    }
}

impl Event {
    /// Whether each word is in its range.
    pub(crate) fn is_in_range(&self) -> bool
        ensures { result ≡ is_event self.now }
    {
        match self {
            Event::Read { host, dev, .. }
            | Event::Write { host, dev, .. }
            | Event::Flush { host, dev }
            | Event::Identify { host, dev }
            | Event::Config { host, dev, .. }
            | Event::Masks { host, dev, .. }
            | Event::Reserve { host, dev, .. }
                if !is_asked(host, dev) => false,
            Event::Read { at, count, .. } | Event::Write { at, count, .. } => is_span(*at, *count),
            Event::Flush { .. } | Event::Identify { .. } | Event::Again => true,
            Event::Config { ccmd, text, .. } => *ccmd <= 4 && has_text(*ccmd, text),
            Event::Masks { edit, dirs, .. } => has_dirs(*edit, dirs),
            Event::Reserve { rcmd, list, .. } => *rcmd <= 2 && has_list(*rcmd, list),
            Event::Tick { ms } => is_within(1, 10_000_000, *ms),
            Event::Deliver { frame, station } => {
                is_within(1, 4_294_967_295, *frame) && is_name(station)
            }
            Event::Pass { n } | Event::Skip { n } => is_within(1, 10_000, *n),
            Event::Inject { bytes } => is_within(14, 9018, bytes.bytes().len() as u64),
            Event::Fail { dev, k, .. } | Event::Stop { dev, k, .. } => {
                is_device(dev) && is_within(1, 1000, *k)
            }
            Event::Crash { shelf, .. } => is_name(shelf),
        }
    }
}
