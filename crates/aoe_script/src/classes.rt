//! The classes of words, but for lists of addresses.
ghost use Rattle.std.specs.Prelude.{◌≡◌, ◌==◌, ◌&&◌, ◌||◌, ◌≤◌, codes, drop, nat_lt, nat_le, ◌<◌, None, IfSome, if◌then◌else◌, length, option_map, slice_index, take, Some, IfOk, []};
ghost use Rattle.std.specs.List.{list_all};
ghost use Rattle.std.specs.Char.{is_ascii_digit, digit_value};
ghost use Rattle.std.specs.Str.{bytes_eq};
ghost use Rattle.aoe_base.specs.Names.{is_hex_digit};
ghost use Rattle.aoe_script.specs.Classes.{byte_of, bytes_of, ccmd_of, edit_of, is_lower, is_name, mode_of, number, pair, pairs, rcmd_of, which_of};

use crate::cuts::from;
use crate::event::Which;
use crate::listed::listed;
use crate::setup::Name;
use aoe_base::{Blob, NoMemory, put, read_number};
use aoe_disk::Loss;
use std::alloc::Global;

/// Whether a byte is a lower-case letter.
fn is_lower(byte: u8) -> bool
    ensures { result ≡ is_lower byte }
{
    byte.is_ascii_lowercase()
}

/// Whether all bytes are lower-case letters or digits.
fn are_letters(text: &[u8]) -> bool
    ensures { result ≡ list_all (λ c. is_lower c || is_ascii_digit c) text.now }
{
    text.iter()
        .all(|byte| is_lower(*byte) || byte.is_ascii_digit())
}

/// Whether this is a name: a lower-case letter and up to seven lower-case letters or digits.
#[tactic(auto, unfolding(crate::specs::Classes::is_name))]
pub(crate) fn is_name(name: &Name) -> bool
    ensures { result ≡ is_name name.now }
{
    let text = name.as_slice();
    !text.is_empty() && is_lower(text[0]) && are_letters(text)
}

/// The number of up to 64 bits that a word spells.
pub(crate) fn number(text: &[u8]) -> Option<u64>
    ensures { result ≡ number text.now }
{
    read_number(text, u64::MAX)
}

/// The value of a lower-case hexadecimal digit.
fn digit_of(byte: u8) -> Option<u8>
    ensures value { result ≡ (if is_hex_digit byte then Some (digit_value byte) else None) }
    ensures bound { IfSome result (λ d. d < 16) }
{
    match byte {
        b'0'..=b'9' => Some(byte - b'0'),
        b'a'..=b'f' => Some(byte - b'a' + 10),
        _ => None,
    }
}

/// The byte that two digits spell.
fn pair(high: u8, low: u8) -> Option<u8>
    ensures { result ≡ pair high low }
{
    let high = digit_of(high)?;
    let low = digit_of(low)?;
    Some(high * 16 + low)
}

/// The byte that a word of two digits spells.
pub(crate) fn byte_of(text: &[u8]) -> Option<u8>
    ensures { result ≡ byte_of text.now }
{
    match text {
        [high, low] => pair(*high, *low),
        _ => None,
    }
}

/// The bytes that an even number of digits spell.
fn pairs(alloc: Global, text: &[u8]) -> Result<Option<Blob>, NoMemory>
    ensures { IfOk result (λ r. r ≡ pairs text.now) }
{
    let mut bytes = Vec::new(alloc);
    let mut left = text;
    'pairs: while let [high, low, more @ ..] = left {
        let Some(byte) = pair(*high, *low) else {
            return Ok(None);
        };
        put(&mut bytes, &[byte])?;
        left = more;
    }
    if left.is_empty() {
        Ok(Some(Blob::from_vec(bytes)))
    } else {
        Ok(None)
    }
}

/// The bytes that a word spells: an even number of digits, or a hyphen for none.
#[tactic(auto, unfolding(crate::specs::Classes::bytes_of))]
pub(crate) fn bytes_of(alloc: Global, text: &[u8]) -> Result<Option<Blob>, NoMemory>
    ensures { IfOk result (λ r. r ≡ bytes_of text.now) }
{
    if text == b"-".as_slice() {
        return Ok(Some(Blob::of(alloc, &[])?));
    }
    pairs(alloc, text)
}

/// The field CCmd of an action on the config string.
pub(crate) fn ccmd_of(word: &[u8]) -> Option<u8>
    ensures { result ≡ ccmd_of word.now }
{
    listed(
        &[
            (b"read", 0),
            (b"test", 1),
            (b"prefix", 2),
            (b"set", 3),
            (b"force", 4),
        ],
        word,
    )
}

/// The field RCmd of an action on the reserve list.
pub(crate) fn rcmd_of(word: &[u8]) -> Option<u8>
    ensures { result ≡ rcmd_of word.now }
{
    listed(&[(b"read", 0), (b"set", 1), (b"force", 2)], word)
}

/// Whether an action on the mask list edits it.
pub(crate) fn edit_of(word: &[u8]) -> Option<bool>
    ensures { result ≡ edit_of word.now }
{
    listed(&[(b"read", false), (b"edit", true)], word)
}

/// The disk that a word names.
pub(crate) fn which_of(word: &[u8]) -> Option<Which>
    ensures { result ≡ which_of word.now }
{
    listed(&[(b"store", Which::Store), (b"keep", Which::Keep)], word)
}

/// Whether the word begins as a mode that mixes, and goes on.
fn is_mix(word: &[u8]) -> bool
    ensures { result ≡ (nat_lt 4 (length word.now) && bytes_eq (take 4 word.now) (codes "mix:")) }
{
    word.len() > 4 && &word[..4] == b"mix:".as_slice()
}

/// What a loss of power leaves, as a word says it.
pub(crate) fn mode_of(word: &[u8]) -> Option<Loss>
    ensures { result ≡ mode_of word.now }
{
    if word == b"keep".as_slice() {
        Some(Loss::Keep)
    } else if word == b"old".as_slice() {
        Some(Loss::Old)
    } else if word == b"torn".as_slice() {
        Some(Loss::Torn)
    } else if is_mix(word) {
        Some(Loss::Mix(number(from(word, 4))?))
    } else {
        None
    }
}
