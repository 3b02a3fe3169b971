//! Lists of addresses as words, joined by commas.
ghost use Rattle.std.specs.Prelude.{◌≡◌, ◌==◌, ◌≤◌, [], List, ℕ, Option, Some, codes, length, option_map, if◌then◌else◌, IfSome};
ghost use Rattle.std.specs.List.{slice_split};
ghost use Rattle.std.specs.Str.{bytes_eq};
ghost use Rattle.aoe_base.specs.Names.{mac_of};
ghost use Rattle.aoe_base.specs.Texts.{each};
ghost use Rattle.aoe_script.specs.Classes.{at_most, dir_of, dirs_of, list_of, macs_of, ports_of};

use crate::cuts::from;
use aoe_base::{Mac, Ports, read_mac};
use aoe_lists::{Dir, MAX_DIRS};
use arrayvec::ArrayVec;

/// The addresses that the parts of a text spell, where they are [`MAX_DIRS`] at most.
#[tactic(auto, unfolding(crate::specs::Classes::macs_of))]
fn macs_of(text: &[u8]) -> Option<ArrayVec<Mac, MAX_DIRS>>
    ensures { option_map (λ macs. macs.items) result ≡ macs_of text.now }
{
    let mut macs = ArrayVec::new();
    'parts: for part in text.split(|byte| *byte == b',') {
        let mac = read_mac(part)?;
        if macs.is_full() {
            return None;
        }
        macs.push(mac);
    }
    Some(macs)
}

/// The addresses of a station that a word spells, one to four of them.
pub(crate) fn ports_of(text: &[u8]) -> Option<Ports>
    ensures { option_map (λ ports. ports.items) result ≡ ports_of text.now }
{
    let macs = macs_of(text)?;
    let mut ports = Ports::new();
    match ports.try_extend_from_slice(macs.as_slice()) {
        Ok(()) => Some(ports),
        Err(_) => None,
    }
}

/// The addresses that a word spells, or a hyphen for none.
pub(crate) fn list_of(text: &[u8]) -> Option<ArrayVec<Mac, MAX_DIRS>>
    ensures { option_map (λ list. list.items) result ≡ list_of text.now }
{
    if text == b"-".as_slice() {
        return Some(ArrayVec::new());
    }
    macs_of(text)
}

/// The directive that a text spells: `+MAC` or `-MAC`.
fn dir_of(text: &[u8]) -> Option<Dir>
    ensures { result ≡ dir_of text.now }
{
    if text.is_empty() {
        return None;
    }
    let add = match text[0] {
        b'+' => true,
        b'-' => false,
        _ => return None,
    };
    Some(Dir {
        add,
        mac: read_mac(from(text, 1))?,
    })
}

/// The directives that a word spells, joined by commas.
#[tactic(auto, unfolding(crate::specs::Classes::dirs_of))]
pub(crate) fn dirs_of(text: &[u8]) -> Option<ArrayVec<Dir, MAX_DIRS>>
    ensures { option_map (λ dirs. dirs.items) result ≡ dirs_of text.now }
{
    let mut dirs = ArrayVec::new();
    'parts: for part in text.split(|byte| *byte == b',') {
        let dir = dir_of(part)?;
        if dirs.is_full() {
            return None;
        }
        dirs.push(dir);
    }
    Some(dirs)
}
