//! What the arguments of the tools spell.
ghost use Rattle.std.specs.Prelude.{◌≡◌, ◌≤◌, ◌<◌, ◌^◌, option_map, true, IfSome, IsSome};
ghost use Rattle.clap.specs.Words.{found_of, rows_of};
ghost use Rattle.aoe_base.specs.Addresses.{is_individual};
ghost use Rattle.aoe_base.specs.Sizes.{longest_lifetime};
ghost use Rattle.aoe_args.specs.Tools.{CanAsk, CanGet, CanNbd, CanPut, IsDevice, IsSocketPath, asking_of, ccmd_alone, ccmd_with_text, cfg_of, device, discover_of, flush_of, get_of, is_socket_path, lifetime_of, mask_of, nbd_of, put_of, rcmd_alone, rcmd_with_list, reserve_of, sector, sector_count, sector_or_first, socket_path, stat_of};
ghost use Rattle.aoe_args.specs.Values.{link};
ghost use Rattle.aoe_args.specs.Words.{CanRun};

use crate::bounds::{LAST_SECTOR, LIFETIME, MOST_GET_SECTORS, MOST_PATH, TURNS};
use crate::files::part_of;
use crate::link::link;
use crate::lists::{read_dirs, read_macs, read_text};
use crate::values::{
    NBD_PORT, TOOL_PORT, idle_of, is_set, number, number_or, port_or_default, text, texts,
};
use crate::{Asking, Cfg, Discover, Flush, Get, Mask, Nbd, Put, Reserve, Stat, Tool};
use aoe_base::{Mac, TargetId, device_law, read_device, read_number};
use arrayvec::ArrayVec;
use clap::ArgMatches;

/// How many turns a tool listens where nothing is said of it.
const TOOL_TURNS: u32 = 50;

/// How many turns `flush`, `get`, `put` and `nbd` listen where nothing is said of it.
const SECTOR_TURNS: u32 = 5000;

/// How long after it was sent a frame can still arrive where nothing is said of it, in milliseconds.
const DEFAULT_LIFETIME: u32 = 2000;

/// Who asks, where the link is named; `port` asks for `turns` where nothing is said of it.
#[tactic(auto, unfolding(crate::specs::Tools::asking_of))]
fn asking_of(found: &ArgMatches, port: Mac, turns: u32) -> Option<Asking>
    requires port { is_individual port ≡ true }
    requires turns { (1 ≤ turns) × (turns ≤ 1000000) }
    ensures value { result ≡ asking_of port turns (rows_of (found_of found.now)) }
    ensures range { IfSome result CanAsk }
    ensures link { IfSome result (λ asking. IsSome (link (rows_of (found_of found.now)))) }
{
    let _link = link(found)?;
    Some(Asking {
        port: port_or_default(found, "port", port)?,
        turns: number_or(found, "turns", TURNS, turns)?,
    })
}

/// The device that is asked.
fn device_of(found: &ArgMatches) -> Option<TargetId>
    ensures value { result ≡ device (rows_of (found_of found.now)) }
    ensures range { IfSome result IsDevice }
{
    device_law();
    read_device(text(found, "dev")?.as_bytes())
}

/// What the arguments of `discover` ask for.
#[tactic(auto, unfolding(crate::specs::Tools::discover_of))]
pub(crate) fn discover_of(found: &ArgMatches) -> Option<Tool>
    ensures value { result ≡ option_map Tool.Discover (discover_of (rows_of (found_of found.now))) }
    ensures range { IfSome result CanRun }
    ensures link { IfSome result (λ tool. IsSome (link (rows_of (found_of found.now)))) }
{
    Some(Tool::Discover(Discover {
        asking: asking_of(found, TOOL_PORT, TOOL_TURNS)?,
        long: is_set(found, "long"),
    }))
}

/// What the arguments of `stat` ask for.
#[tactic(auto, unfolding(crate::specs::Tools::stat_of))]
pub(crate) fn stat_of(found: &ArgMatches) -> Option<Tool>
    ensures value { result ≡ option_map Tool.Stat (stat_of (rows_of (found_of found.now))) }
    ensures range { IfSome result CanRun }
    ensures link { IfSome result (λ tool. IsSome (link (rows_of (found_of found.now)))) }
{
    Some(Tool::Stat(Stat {
        asking: asking_of(found, TOOL_PORT, TOOL_TURNS)?,
        sectors: is_set(found, "sectors"),
    }))
}

/// The field CCmd of an action of `cfg` that has no text.
fn ccmd_alone(action: &str) -> Option<u8>
    ensures value { result ≡ ccmd_alone action.now }
    ensures range { IfSome result (λ ccmd. ccmd ≤ 4) }
{
    match action {
        "read" => Some(0),
        "clear" => Some(4),
        _ => None,
    }
}

/// The field CCmd of an action of `cfg` that has a text.
pub(crate) fn ccmd_with_text(action: &str) -> Option<u8>
    ensures value { result ≡ ccmd_with_text action.now }
    ensures range { IfSome result (λ ccmd. ccmd ≤ 4) }
{
    match action {
        "test" => Some(1),
        "prefix" => Some(2),
        "set" => Some(3),
        "force" => Some(4),
        _ => None,
    }
}

/// What the arguments of `cfg` ask for.
#[tactic(auto, unfolding(crate::specs::Tools::cfg_of))]
pub(crate) fn cfg_of(found: &ArgMatches) -> Option<Tool>
    ensures value { result ≡ option_map Tool.Cfg (cfg_of (rows_of (found_of found.now))) }
    ensures range { IfSome result CanRun }
    ensures link { IfSome result (λ tool. IsSome (link (rows_of (found_of found.now)))) }
{
    let asking = asking_of(found, TOOL_PORT, TOOL_TURNS)?;
    let id = device_of(found)?;
    let action = text(found, "action")?;
    let (ccmd, text) = match text(found, "text") {
        None => (ccmd_alone(action)?, ArrayVec::new()),
        Some(string) => (ccmd_with_text(action)?, read_text(string.as_bytes())?),
    };
    Some(Tool::Cfg(Cfg {
        asking,
        id,
        ccmd,
        text,
    }))
}

/// What the arguments of `mask` ask for.
#[tactic(auto, unfolding(crate::specs::Tools::mask_of))]
pub(crate) fn mask_of(found: &ArgMatches) -> Option<Tool>
    ensures value { result ≡ option_map Tool.Mask (mask_of (rows_of (found_of found.now))) }
    ensures range { IfSome result CanRun }
    ensures link { IfSome result (λ tool. IsSome (link (rows_of (found_of found.now)))) }
{
    let asking = asking_of(found, TOOL_PORT, TOOL_TURNS)?;
    let id = device_of(found)?;
    let action = text(found, "action")?;
    let dirs = match texts(found, "dirs") {
        None if action == "read" => None,
        Some(words) if action == "edit" => Some(read_dirs(words)?),
        _ => return None,
    };
    Some(Tool::Mask(Mask {
        asking,
        id,
        dirs,
        anyway: is_set(found, "anyway"),
    }))
}

/// The field RCmd of an action of `reserve` that has no addresses.
fn rcmd_alone(action: &str) -> Option<u8>
    ensures value { result ≡ rcmd_alone action.now }
    ensures range { IfSome result (λ rcmd. rcmd ≤ 2) }
{
    match action {
        "read" => Some(0),
        "release" => Some(1),
        _ => None,
    }
}

/// The field RCmd of an action of `reserve` that has addresses.
pub(crate) fn rcmd_with_list(action: &str) -> Option<u8>
    ensures value { result ≡ rcmd_with_list action.now }
    ensures range { IfSome result (λ rcmd. rcmd ≤ 2) }
{
    match action {
        "set" => Some(1),
        "force" => Some(2),
        _ => None,
    }
}

/// What the arguments of `reserve` ask for.
#[tactic(auto, unfolding(crate::specs::Tools::reserve_of))]
pub(crate) fn reserve_of(found: &ArgMatches) -> Option<Tool>
    ensures value { result ≡ option_map Tool.Reserve (reserve_of (rows_of (found_of found.now))) }
    ensures range { IfSome result CanRun }
    ensures link { IfSome result (λ tool. IsSome (link (rows_of (found_of found.now)))) }
{
    let asking = asking_of(found, TOOL_PORT, TOOL_TURNS)?;
    let id = device_of(found)?;
    let action = text(found, "action")?;
    let (rcmd, list) = match texts(found, "macs") {
        None => (rcmd_alone(action)?, ArrayVec::new()),
        Some(words) => (rcmd_with_list(action)?, read_macs(words)?),
    };
    Some(Tool::Reserve(Reserve {
        asking,
        id,
        rcmd,
        list,
    }))
}

/// How long after it was sent a frame can still arrive, at the device or here, in milliseconds.
fn lifetime_of(found: &ArgMatches) -> Option<u32>
    ensures value { result ≡ lifetime_of (rows_of (found_of found.now)) }
    ensures range { IfSome result (λ ms. (1 ≤ ms) × (ms ≤ longest_lifetime)) }
{
    number_or(found, "lifetime", LIFETIME, DEFAULT_LIFETIME)
}

/// What the arguments of `flush` ask for.
#[tactic(auto, unfolding(crate::specs::Tools::flush_of))]
pub(crate) fn flush_of(found: &ArgMatches) -> Option<Tool>
    ensures value { result ≡ option_map Tool.Flush (flush_of (rows_of (found_of found.now))) }
    ensures range { IfSome result CanRun }
    ensures link { IfSome result (λ tool. IsSome (link (rows_of (found_of found.now)))) }
{
    Some(Tool::Flush(Flush {
        asking: asking_of(found, TOOL_PORT, SECTOR_TURNS)?,
        id: device_of(found)?,
        lifetime: lifetime_of(found)?,
    }))
}

/// The first sector.
fn sector(found: &ArgMatches) -> Option<u64>
    ensures value { result ≡ sector (rows_of (found_of found.now)) }
    ensures range { IfSome result (λ at. at < 2 ^ 48) }
{
    number(found, "at", LAST_SECTOR)
}

/// The first sector, where one may be named.
pub(crate) fn sector_or_first(found: &ArgMatches, id: &str) -> Option<u64>
    ensures value { result ≡ sector_or_first id.now (rows_of (found_of found.now)) }
    ensures range { IfSome result (λ at. at < 2 ^ 48) }
{
    match text(found, id) {
        Some(text) => read_number(text.as_bytes(), LAST_SECTOR),
        None => Some(0),
    }
}

/// How many sectors, where a number is named.
pub(crate) fn sector_count(found: &ArgMatches, id: &str) -> Option<Option<u64>>
    ensures value { result ≡ sector_count id.now (rows_of (found_of found.now)) }
    ensures range { IfSome result
        (λ number. IfSome number (λ n. (1 ≤ n) × (n ≤ 2 ^ 48))) }
{
    let Some(text) = text(found, id) else {
        return Some(None);
    };
    match read_number(text.as_bytes(), MOST_GET_SECTORS) {
        Some(count) if count > 0 => Some(Some(count)),
        _ => None,
    }
}

/// What the arguments of `get` ask for.
#[tactic(auto, unfolding(crate::specs::Tools::get_of))]
pub(crate) fn get_of(found: &ArgMatches) -> Option<Get>
    ensures value { result ≡ get_of (rows_of (found_of found.now)) }
    ensures range { IfSome result CanGet }
    ensures link { IfSome result (λ get. IsSome (link (rows_of (found_of found.now)))) }
{
    Some(Get {
        asking: asking_of(found, TOOL_PORT, SECTOR_TURNS)?,
        id: device_of(found)?,
        at: sector_or_first(found, "at")?,
        count: sector_count(found, "length")?,
        lifetime: lifetime_of(found)?,
    })
}

/// What the arguments of `put` ask for.
#[tactic(auto, unfolding(crate::specs::Tools::put_of))]
pub(crate) fn put_of(found: &ArgMatches) -> Option<Put>
    ensures value { result ≡ put_of (rows_of (found_of found.now)) }
    ensures range { IfSome result CanPut }
    ensures link { IfSome result (λ put. IsSome (link (rows_of (found_of found.now)))) }
{
    let _part = part_of(found)?;
    Some(Put {
        asking: asking_of(found, TOOL_PORT, SECTOR_TURNS)?,
        id: device_of(found)?,
        at: sector(found)?,
        lifetime: lifetime_of(found)?,
        verify: is_set(found, "verify"),
        no_flush: is_set(found, "no-flush"),
    })
}

/// Whether a text can be the path of a Unix socket.
pub(crate) fn is_socket_path(text: &[u8]) -> bool
    ensures { result ≡ is_socket_path text.now }
{
    !text.is_empty() && text.len() <= MOST_PATH
}

/// The path of a Unix socket.
pub(crate) fn socket_path<'a>(found: &ArgMatches<'a>) -> Option<&'a str>
    ensures value { option_map (λ path. path.now) result ≡ socket_path (rows_of (found_of found.now)) }
    ensures path { IfSome result (λ path. IsSocketPath path.now) }
{
    let path = text(found, "socket")?;
    if is_socket_path(path.as_bytes()) {
        Some(path)
    } else {
        None
    }
}

/// What the arguments of `nbd` ask for.
#[tactic(auto, unfolding(crate::specs::Tools::nbd_of))]
pub(crate) fn nbd_of(found: &ArgMatches) -> Option<Nbd>
    ensures value { result ≡ nbd_of (rows_of (found_of found.now)) }
    ensures range { IfSome result CanNbd }
    ensures link { IfSome result (λ nbd. IsSome (link (rows_of (found_of found.now)))) }
    ensures socket { IfSome result (λ nbd. IsSome (socket_path (rows_of (found_of found.now)))) }
{
    let _path = socket_path(found)?;
    Some(Nbd {
        asking: asking_of(found, NBD_PORT, SECTOR_TURNS)?,
        id: device_of(found)?,
        lifetime: lifetime_of(found)?,
        read_only: is_set(found, "read-only"),
        flushes: !is_set(found, "no-flush"),
        once: is_set(found, "once"),
        idle: idle_of(found)?,
    })
}
