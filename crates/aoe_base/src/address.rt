//! Ethernet addresses and the names of devices.
ghost use Rattle.std.specs.Prelude.{◌≡◌, ◌+◌, ◌<◌, ◌==◌, true, length, position, slice_index, IfSome};
ghost use Rattle.std.specs.List.{list_all};
ghost use Rattle.std.specs.Char.{digit_value};
ghost use Rattle.aoe_base.specs.Addresses.{all_unique, is_individual};
ghost use Rattle.aoe_base.specs.Names.{colon_places, device_of, id_of, is_hex_digit, is_mac_text, is_pair_at, mac_of, pair_at, pair_places};

use crate::decimal::read_number;
use arrayvec::ArrayVec;

/// An Ethernet address, its six bytes in the order of the wire.
#[derive(Clone, Copy, Default, PartialEq, Eq, PartialOrd, Ord, Hash)]
pub struct Mac(pub [u8; 6]);

impl Mac {
    /// Whether it is the address of one station, and of no group.
    pub fn is_individual(&self) -> bool
        ensures { result ≡ is_individual self.now }
    {
        self.0[0] % 2 == 0
    }
}

/// The address of all stations.
pub const BROADCAST: Mac = Mac([0xff, 0xff, 0xff, 0xff, 0xff, 0xff]);

/// The addresses of one station, in their order: one to four of them.
pub type Ports = ArrayVec<Mac, 4>;

/// Whether no address stands twice.
pub fn all_unique(list: &[Mac]) -> bool
    ensures { result ≡ all_unique list.now }
{
    match list {
        [first, rest @ ..] => !rest.contains(first) && all_unique(rest),
        [] => true,
    }
}

/// The name of a device: the number of its shelf (AoEr11 "Major") and of its slot there ("Minor").
///
/// In a request 0xffff and 0xff stand for every shelf and every slot; no device has them.
#[derive(Clone, Copy, PartialEq, Eq, PartialOrd, Ord, Hash)]
pub struct TargetId {
    pub major: u16,
    pub minor: u8,
}

/// How many bytes the text of an Ethernet address has.
const MAC_TEXT_LEN: usize = 17;

/// The greatest number of a shelf that a device has: the next is that of all shelves.
pub const LAST_MAJOR: u64 = 65534;

/// The greatest number of a slot that a device has: the next is that of all slots.
pub const LAST_MINOR: u64 = 254;

/// Whether a byte is a lower-case hexadecimal digit.
fn is_hex_digit(byte: u8) -> bool
    ensures { result ≡ is_hex_digit byte }
{
    byte.is_ascii_digit() || (b'a'..=b'f').contains(&byte)
}

/// The value of a lower-case hexadecimal digit.
fn hex_value(digit: u8) -> u8
    requires { is_hex_digit digit ≡ true }
    ensures value { result ≡ digit_value digit }
    ensures bound { result < 16 }
{
    if digit.is_ascii_digit() {
        digit - b'0'
    } else {
        digit - b'a' + 10
    }
}

/// Whether two digits stand at a place.
#[tactic(auto, unfolding(crate::specs::Names::is_pair_at))]
fn is_pair_at(text: &[u8], at: usize) -> bool
    requires { at + 1 < length text.now }
    ensures { result ≡ is_pair_at text.now at }
{
    is_hex_digit(text[at]) && is_hex_digit(text[at + 1])
}

/// The byte that the two digits at a place spell.
#[tactic(auto, unfolding(crate::specs::Names::is_pair_at, crate::specs::Names::pair_at))]
fn pair_at(text: &[u8], at: usize) -> u8
    requires inside { at + 1 < length text.now }
    requires digits { is_pair_at text.now at ≡ true }
    ensures { result ≡ pair_at text.now at }
{
    hex_value(text[at]) * 16 + hex_value(text[at + 1])
}

/// Whether the colons stand in their places.
fn has_colons(text: &[u8]) -> bool
    requires { length text.now ≡ 17 }
    ensures { result ≡ list_all (λ i. slice_index text.now i == 58) colon_places }
{
    text[2] == b':' && text[5] == b':' && text[8] == b':' && text[11] == b':' && text[14] == b':'
}

/// Whether the pairs of digits stand in theirs.
fn has_pairs(text: &[u8]) -> bool
    requires { length text.now ≡ 17 }
    ensures { result ≡ list_all (is_pair_at text.now) pair_places }
{
    is_pair_at(text, 0)
        && is_pair_at(text, 3)
        && is_pair_at(text, 6)
        && is_pair_at(text, 9)
        && is_pair_at(text, 12)
        && is_pair_at(text, 15)
}

/// Whether the text is six pairs of digits with colons between them.
fn is_mac_text(text: &[u8]) -> bool
    ensures { result ≡ is_mac_text text.now }
{
    text.len() == MAC_TEXT_LEN && has_colons(text) && has_pairs(text)
}

/// The address that six two-digit lower-case hexadecimal numbers spell, joined by colons.
#[tactic(auto, unfolding(crate::specs::Names::mac_of))]
pub fn read_mac(text: &[u8]) -> Option<Mac>
    ensures { result ≡ mac_of text.now }
{
    if !is_mac_text(text) {
        return None;
    }
    Some(Mac([
        pair_at(text, 0),
        pair_at(text, 3),
        pair_at(text, 6),
        pair_at(text, 9),
        pair_at(text, 12),
        pair_at(text, 15),
    ]))
}

/// The device of a shelf and a slot.
fn read_id(shelf: &[u8], slot: &[u8]) -> Option<TargetId>
    ensures { result ≡ id_of shelf.now slot.now }
{
    let major = read_number(shelf, LAST_MAJOR)?;
    let minor = read_number(slot, LAST_MINOR)?;
    Some(TargetId {
        major: major as u16,
        minor: minor as u8,
    })
}

/// Where the first point stands.
fn point_of(text: &[u8]) -> Option<usize>
    ensures first { result ≡ position (λ c. c == 46) text.now }
    ensures within { IfSome result (λ i. i < length text.now) }
    ensures point { IfSome result (λ i. slice_index text.now i ≡ 46) }
{
    text.iter().position(|byte| *byte == b'.')
}

/// The device that a text names: `e`, the shelf's number, a point and the slot's number. The
/// numbers have 1 to 20 decimal digits each.
#[tactic(auto, unfolding(crate::specs::Names::device_of))]
pub fn read_device(text: &[u8]) -> Option<TargetId>
    ensures { result ≡ device_of text.now }
{
    if text.is_empty() || text[0] != b'e' {
        return None;
    }
    let point = point_of(text)?;
    read_id(&text[1..point], &text[point + 1..])
}
