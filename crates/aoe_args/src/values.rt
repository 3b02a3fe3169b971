//! The values of words and options, as clap found them.
ghost use Rattle.std.specs.Prelude.{◌≡◌, ◌≤◌, [], ◌∷◌, map, option_map, true, IfSome, None, Some};
ghost use Rattle.clap.specs.Words.{all_of, first_of, found_of, rows_of};
ghost use Rattle.aoe_base.specs.Decimal.{number_of};
ghost use Rattle.aoe_base.specs.Addresses.{is_individual};
ghost use Rattle.aoe_args.specs.Values.{default_port, given, given_or, idle_of, is_set, number_within, port_of, ports_of};
ghost use Rattle.aoe_args.specs.Words.{ArePorts};

use crate::bounds::{Bounds, IDLE};
use crate::ports::{read_port, read_ports};
use aoe_base::{Mac, Ports, read_number};
use clap::ArgMatches;

/// The address of a target's port where none is given.
pub(crate) const DEFAULT_PORT: Mac = Mac([2, 0, 0, 0, 0, 1]);

/// The address of a tool's port where none is given.
pub(crate) const TOOL_PORT: Mac = Mac([2, 0, 0, 0, 0, 10]);

/// The address of the port of `nbd` where none is given. The commands of each run have tags from 1 on,
/// so a tool that asked the same device from the same port could take an answer to the one for its own.
pub(crate) const NBD_PORT: Mac = Mac([2, 0, 0, 0, 0, 11]);

/// How many quiet turns end a run where nothing is said of it: none do.
const DEFAULT_IDLE: u32 = 0;

/// The text of a word or an option.
pub(crate) fn text<'a>(found: &ArgMatches<'a>, id: &str) -> Option<&'a str>
    ensures { option_map (λ text. text.now) result
        ≡ first_of id.now (rows_of (found_of found.now)) }
{
    found.get_str(id)
}

/// The texts of words that go to one argument, where there is one.
pub(crate) fn texts<'b, 'a>(found: &'b ArgMatches<'a>, id: &str) -> Option<&'b [&'a str]>
    ensures { option_map (λ texts. map (λ text. text.now) texts.now) result
        ≡ all_of id.now (rows_of (found_of found.now)) }
{
    found.get_strs(id)
}

/// The number up to `most` that a word spells.
pub(crate) fn number(found: &ArgMatches, id: &str, most: u64) -> Option<u64>
    ensures value { result ≡ given id.now (λ text. number_of text most)
        (rows_of (found_of found.now)) }
    ensures bound { IfSome result (λ n. n ≤ most) }
{
    read_number(text(found, id)?.as_bytes(), most)
}

/// The number that a text spells, where it is one of these.
pub(crate) fn number_within(text: &[u8], bounds: Bounds) -> Option<u32>
    ensures value { result ≡ number_within bounds.least bounds.most text.now }
    ensures bounds { IfSome result (λ n. (bounds.least ≤ n) × (n ≤ bounds.most)) }
{
    let number = read_number(text, u64::from(bounds.most))? as u32;
    if number < bounds.least {
        None
    } else {
        Some(number)
    }
}

/// The number that a word spells, where it is one of these.
pub(crate) fn number_from(found: &ArgMatches, id: &str, bounds: Bounds) -> Option<u32>
    ensures value { result ≡ given id.now (number_within bounds.least bounds.most)
        (rows_of (found_of found.now)) }
    ensures bounds { IfSome result (λ n. (bounds.least ≤ n) × (n ≤ bounds.most)) }
{
    number_within(text(found, id)?.as_bytes(), bounds)
}

/// The number of an option, or its default.
pub(crate) fn number_or(found: &ArgMatches, id: &str, bounds: Bounds, default: u32) -> Option<u32>
    requires least { bounds.least ≤ default }
    requires most { default ≤ bounds.most }
    ensures value { result ≡ given_or id.now (number_within bounds.least bounds.most) default
        (rows_of (found_of found.now)) }
    ensures bounds { IfSome result (λ n. (bounds.least ≤ n) × (n ≤ bounds.most)) }
{
    match text(found, id) {
        Some(text) => number_within(text.as_bytes(), bounds),
        None => Some(default),
    }
}

/// The number of an option that needn't be given.
pub(crate) fn number_if_given(found: &ArgMatches, id: &str, bounds: Bounds) -> Option<Option<u32>>
    ensures value { result ≡ given_or id.now
        (λ text. option_map Some (number_within bounds.least bounds.most text)) None
        (rows_of (found_of found.now)) }
    ensures bounds { IfSome result
        (λ number. IfSome number (λ n. (bounds.least ≤ n) × (n ≤ bounds.most))) }
{
    match text(found, id) {
        Some(text) => Some(Some(number_within(text.as_bytes(), bounds)?)),
        None => Some(None),
    }
}

/// How many quiet turns end a run.
pub(crate) fn idle_of(found: &ArgMatches) -> Option<Option<u32>>
    ensures value { result ≡ idle_of (rows_of (found_of found.now)) }
    ensures bounds { IfSome result (λ idle. IfSome idle (λ n. (1 ≤ n) × (n ≤ 1000000))) }
{
    let turns = number_or(found, "idle", IDLE, DEFAULT_IDLE)?;
    Some(if turns == 0 { None } else { Some(turns) })
}

/// Whether an option without a value is given.
pub(crate) fn is_set(found: &ArgMatches, id: &str) -> bool
    ensures { result ≡ is_set id.now (rows_of (found_of found.now)) }
{
    match text(found, id) {
        Some(text) => text == "true",
        None => false,
    }
}

/// The address of a port.
pub(crate) fn port_or_default(found: &ArgMatches, id: &str, default: Mac) -> Option<Mac>
    requires { is_individual default ≡ true }
    ensures value { result ≡ given_or id.now port_of default (rows_of (found_of found.now)) }
    ensures individual { IfSome result (λ port. is_individual port ≡ true) }
{
    match text(found, id) {
        Some(text) => read_port(text.as_bytes()),
        None => Some(default),
    }
}

/// The one default port.
fn default_ports() -> Ports
    ensures { result.items ≡ default_port ∷ [] }
{
    let mut ports = Ports::new();
    ports.push(DEFAULT_PORT);
    ports
}

/// The addresses of ports.
pub(crate) fn ports_or_default(found: &ArgMatches, id: &str) -> Option<Ports>
    ensures value { option_map (λ ports. ports.items) result
        ≡ given_or id.now ports_of (default_port ∷ []) (rows_of (found_of found.now)) }
    ensures ports { IfSome result (λ ports. ArePorts ports.items) }
{
    match text(found, id) {
        Some(text) => read_ports(text.as_bytes()),
        None => Some(default_ports()),
    }
}
