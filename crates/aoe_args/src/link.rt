//! What names a link.
ghost use Rattle.std.specs.Prelude.{◌≡◌, option_map, IfOk, map};
ghost use Rattle.clap.specs.Words.{found_of, rows_of};
ghost use Rattle.aoe_args.specs.Values.{ends_of, link, link_of, two_ends, vxlan_of, words_of};

use crate::PortWords;
use crate::bounds::VXLAN;
use crate::values::{number_if_given, text};
use aoe_base::{Blob, NoMemory};
use clap::ArgMatches;
use std::alloc::Global;

/// The texts that name a link.
#[derive(Clone, Copy)]
pub(crate) enum LinkText<'a> {
    /// Its own address, those of its peers, and the number of its VXLAN, where it has one.
    Udp {
        local: &'a str,
        peers: &'a str,
        vxlan: Option<u32>,
    },

    /// A tap file.
    Tap {
        file: &'a str,
    },
}

/// The number of a VXLAN, where one is given; `None` where it is no such number.
fn vxlan_of(found: &ArgMatches) -> Option<Option<u32>>
    ensures { result ≡ vxlan_of (rows_of (found_of found.now)) }
{
    number_if_given(found, "vxlan", VXLAN)
}

/// The link that these texts name. One over UDP has both ends, and may have a VXLAN; one over a tap
/// file has nothing else.
fn link_of<'a>(
    vxlan: Option<u32>,
    local: Option<&'a str>,
    peers: Option<&'a str>,
    tap: Option<&'a str>,
) -> Option<LinkText<'a>>
    ensures { option_map words_of result ≡ link_of vxlan
        (option_map (λ t. t.now) local.entry) (option_map (λ t. t.now) peers.entry)
        (option_map (λ t. t.now) tap.entry) }
{
    match (local, peers, tap) {
        (Some(local), Some(peers), None) => Some(LinkText::Udp {
            local,
            peers,
            vxlan,
        }),
        (None, None, Some(file)) if vxlan.is_none() => Some(LinkText::Tap { file }),
        _ => None,
    }
}

/// What names a link.
#[tactic(auto, unfolding(crate::specs::Values::link))]
pub(crate) fn link<'a>(found: &ArgMatches<'a>) -> Option<LinkText<'a>>
    ensures { option_map words_of result ≡ link (rows_of (found_of found.now)) }
{
    let vxlan = vxlan_of(found)?;
    link_of(
        vxlan,
        text(found, "local"),
        text(found, "peers"),
        text(found, "tap"),
    )
}

/// The two links of `live` that these texts name.
fn ends_of<'a>(
    vxlan: Option<u32>,
    one: Option<&'a str>,
    two: Option<&'a str>,
    one_tap: Option<&'a str>,
    two_tap: Option<&'a str>,
) -> Option<(LinkText<'a>, LinkText<'a>)>
    ensures { option_map (λ ends. (words_of ends.0, words_of ends.1)) result ≡ ends_of vxlan
        (option_map (λ t. t.now) one.entry) (option_map (λ t. t.now) two.entry)
        (option_map (λ t. t.now) one_tap.entry) (option_map (λ t. t.now) two_tap.entry) }
{
    let first = link_of(vxlan, one, two, one_tap)?;
    let second = link_of(vxlan, two, one, two_tap)?;
    Some((first, second))
}

/// What names the two links of `live`. Over UDP the other end is the peer of each.
#[tactic(auto, unfolding(crate::specs::Values::two_ends))]
pub(crate) fn two_ends<'a>(found: &ArgMatches<'a>) -> Option<(LinkText<'a>, LinkText<'a>)>
    ensures { option_map (λ ends. (words_of ends.0, words_of ends.1)) result
        ≡ two_ends (rows_of (found_of found.now)) }
{
    let vxlan = vxlan_of(found)?;
    ends_of(
        vxlan,
        text(found, "one"),
        text(found, "two"),
        text(found, "one-tap"),
        text(found, "two-tap"),
    )
}

/// Copies of the texts of a link.
fn port_words(alloc: Global, link: LinkText) -> Result<PortWords, NoMemory>
    ensures { IfOk result (λ words. words ≡ words_of link.entry) }
{
    match link {
        LinkText::Udp {
            local,
            peers,
            vxlan,
        } => Ok(PortWords::Udp {
            local: Blob::of(alloc, local.as_bytes())?,
            peers: Blob::of(alloc, peers.as_bytes())?,
            vxlan,
        }),
        LinkText::Tap { file } => Ok(PortWords::Tap {
            file: Blob::of(alloc, file.as_bytes())?,
        }),
    }
}

/// Copies of the texts of links.
pub(crate) fn all_links(alloc: Global, links: &[LinkText]) -> Result<Vec<PortWords>, NoMemory>
    ensures { IfOk result (λ words. words.items ≡ map words_of links.now) }
{
    let mut words = Vec::new(alloc);
    'links: for link in links {
        words.push(port_words(alloc, *link)?)?;
    }
    Ok(words)
}
