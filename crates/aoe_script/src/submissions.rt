//! The forms of lines by which hosts ask devices for something.
ghost use Rattle.std.specs.Prelude.{◌≡◌, IfOk, option_map};
ghost use Rattle.aoe_script.specs.Forms.{config_of, config_text, flush_of, has_config_shape, has_masks_shape, has_reserve_shape, identify_of, mask_dirs, masks_of, read_of, reserve_list, reserve_of, write_of};

use crate::classes::{byte_of, bytes_of, ccmd_of, edit_of, rcmd_of};
use crate::event::Event;
use crate::parts::{dirs_of, list_of};
use crate::words::Words;
use aoe_base::{Blob, Mac, NoMemory};
use aoe_lists::{Dir, MAX_DIRS};
use arrayvec::ArrayVec;
use std::alloc::Global;

/// `read HOST DEV AT COUNT`
pub(crate) fn read_of(words: &Words) -> Option<Event>
    ensures { result ≡ read_of words.now }
{
    Some(Event::Read {
        host: words.name(1)?,
        dev: words.device(2)?,
        at: words.number(3)?,
        count: words.number(4)?,
    })
}

/// `write HOST DEV AT COUNT HH`
pub(crate) fn write_of(words: &Words) -> Option<Event>
    ensures { result ≡ write_of words.now }
{
    Some(Event::Write {
        host: words.name(1)?,
        dev: words.device(2)?,
        at: words.number(3)?,
        count: words.number(4)?,
        fill: byte_of(words.at(5))?,
    })
}

/// `flush HOST DEV`
pub(crate) fn flush_of(words: &Words) -> Option<Event>
    ensures { result ≡ flush_of words.now }
{
    Some(Event::Flush {
        host: words.name(1)?,
        dev: words.device(2)?,
    })
}

/// `identify HOST DEV`
pub(crate) fn identify_of(words: &Words) -> Option<Event>
    ensures { result ≡ identify_of words.now }
{
    Some(Event::Identify {
        host: words.name(1)?,
        dev: words.device(2)?,
    })
}

/// The text of an action on the config string: a read has none.
fn config_text(alloc: Global, ccmd: u8, words: &Words) -> Result<Option<Blob>, NoMemory>
    ensures { IfOk result (λ r. r ≡ config_text ccmd words.now) }
{
    if ccmd == 0 {
        return Ok(Some(Blob::of(alloc, &[])?));
    }
    bytes_of(alloc, words.at(4))
}

/// `config HOST DEV read`, or an action with HEX
pub(crate) fn config_of(alloc: Global, words: &Words) -> Result<Option<Event>, NoMemory>
    ensures { IfOk result (λ r. r ≡ config_of words.now) }
{
    let (Some(host), Some(dev), Some(ccmd)) = (words.name(1), words.device(2), ccmd_of(words.at(3)))
    else {
        return Ok(None);
    };
    match config_text(alloc, ccmd, words)? {
        Some(text) => Ok(Some(Event::Config {
            host,
            dev,
            ccmd,
            text,
        })),
        None => Ok(None),
    }
}

/// Whether the action on the config string has its words.
pub(crate) fn has_config_shape(words: &Words) -> bool
    ensures { result ≡ has_config_shape words.now }
{
    match ccmd_of(words.at(3)) {
        Some(ccmd) => words.len() == if ccmd == 0 { 4 } else { 5 },
        None => false,
    }
}

/// The directives of an action on the mask list: a read has none.
fn mask_dirs(edit: bool, words: &Words) -> Option<ArrayVec<Dir, MAX_DIRS>>
    ensures { option_map (λ dirs. dirs.items) result ≡ mask_dirs edit words.now }
{
    if edit {
        dirs_of(words.at(4))
    } else {
        Some(ArrayVec::new())
    }
}

/// `masks HOST DEV read`, or `edit DIRS`
pub(crate) fn masks_of(words: &Words) -> Option<Event>
    ensures { result ≡ masks_of words.now }
{
    let host = words.name(1)?;
    let dev = words.device(2)?;
    let edit = edit_of(words.at(3))?;
    let dirs = mask_dirs(edit, words)?;
    Some(Event::Masks {
        host,
        dev,
        edit,
        dirs,
    })
}

/// Whether the action on the mask list has its words.
pub(crate) fn has_masks_shape(words: &Words) -> bool
    ensures { result ≡ has_masks_shape words.now }
{
    match edit_of(words.at(3)) {
        Some(edit) => words.len() == if edit { 5 } else { 4 },
        None => false,
    }
}

/// The addresses of an action on the reserve list: a read has none.
fn reserve_list(rcmd: u8, words: &Words) -> Option<ArrayVec<Mac, MAX_DIRS>>
    ensures { option_map (λ list. list.items) result ≡ reserve_list rcmd words.now }
{
    if rcmd == 0 {
        Some(ArrayVec::new())
    } else {
        list_of(words.at(4))
    }
}

/// `reserve HOST DEV read`, or an action with LIST
pub(crate) fn reserve_of(words: &Words) -> Option<Event>
    ensures { result ≡ reserve_of words.now }
{
    let host = words.name(1)?;
    let dev = words.device(2)?;
    let rcmd = rcmd_of(words.at(3))?;
    let list = reserve_list(rcmd, words)?;
    Some(Event::Reserve {
        host,
        dev,
        rcmd,
        list,
    })
}

/// Whether the action on the reserve list has its words.
pub(crate) fn has_reserve_shape(words: &Words) -> bool
    ensures { result ≡ has_reserve_shape words.now }
{
    match rcmd_of(words.at(3)) {
        Some(rcmd) => words.len() == if rcmd == 0 { 4 } else { 5 },
        None => false,
    }
}
