//! How words are spelled: each of these adds to a text.
ghost use Rattle.std.specs.Prelude.{◌≡◌, ◌++◌, ◌∷◌, ◌<◌, decimal, OnOk};
ghost use Rattle.aoe_base.specs.Names.{device_text};
ghost use Rattle.aoe_script.specs.Print.{addresses_text, bytes_text, ccmd_text, config_words, dir_text, dirs_text, list_text, lists_words, mark_words, masks_words, mode_text, rcmd_text, reserve_words, spaced, which_text};

use crate::event::Which;
use crate::setup::Name;
use aoe_base::{Blob, Mac, NoMemory, TargetId, put, put_between, put_mac, put_macs, put_pair};
use aoe_disk::Loss;
use aoe_lists::{Dir, Lists, MAX_DIRS};
use arrayvec::ArrayVec;
use itoa::Buffer;

/// Adds a number without leading zeros.
pub fn put_number(out: &mut Vec<u8>, n: u64) -> Result<(), NoMemory>
    ensures { OnOk result (out.new.items ≡ out.old.items ++ decimal n) }
{
    let mut buffer = Buffer::new();
    put(out, buffer.format(n).as_bytes())
}

/// Adds a word and a number behind it.
pub fn put_count(out: &mut Vec<u8>, word: &[u8], n: u64) -> Result<(), NoMemory>
    ensures { OnOk result (out.new.items ≡ out.old.items ++ (word.now ++ 32 ∷ decimal n)) }
{
    put(out, word)?;
    put(out, b" ")?;
    put_number(out, n)
}

/// Adds a word and a name behind it.
pub fn put_named(out: &mut Vec<u8>, word: &[u8], name: &Name) -> Result<(), NoMemory>
    ensures { OnOk result (out.new.items ≡ out.old.items ++ (word.now ++ 32 ∷ name.now.items)) }
{
    put(out, word)?;
    put(out, b" ")?;
    put(out, name.as_slice())
}

/// Adds addresses, or a hyphen for none.
fn put_list(out: &mut Vec<u8>, macs: &[Mac]) -> Result<(), NoMemory>
    ensures { OnOk result (out.new.items ≡ out.old.items ++ list_text macs.now) }
{
    if macs.is_empty() {
        put(out, b"-")
    } else {
        put_macs(out, macs)
    }
}

/// Adds a directive.
fn put_dir(out: &mut Vec<u8>, dir: &Dir) -> Result<(), NoMemory>
    ensures { OnOk result (out.new.items ≡ out.old.items ++ dir_text dir.now) }
{
    let sign = if dir.add { b'+' } else { b'-' };
    put(out, &[sign])?;
    put_mac(out, &dir.mac)
}

/// Adds directives, joined by commas.
fn put_dirs(out: &mut Vec<u8>, dirs: &[Dir]) -> Result<(), NoMemory>
    ensures { OnOk result (out.new.items ≡ out.old.items ++ dirs_text dirs.now) }
{
    'dirs: for (i, dir) in dirs.iter().enumerate() {
        put_between(out, i, b',')?;
        put_dir(out, dir)?;
    }
    Ok(())
}

/// Adds bytes as digits, or a hyphen for none.
pub fn put_bytes(out: &mut Vec<u8>, bytes: &[u8]) -> Result<(), NoMemory>
    ensures { OnOk result (out.new.items ≡ out.old.items ++ bytes_text bytes.now) }
{
    if bytes.is_empty() {
        return put(out, b"-");
    }
    'bytes: for byte in bytes {
        put_pair(out, *byte)?;
    }
    Ok(())
}

/// Adds addresses without colons, joined by commas, or a hyphen for none.
fn put_addresses(out: &mut Vec<u8>, macs: &[Mac]) -> Result<(), NoMemory>
    ensures { OnOk result (out.new.items ≡ out.old.items ++ addresses_text macs.now) }
{
    if macs.is_empty() {
        return put(out, b"-");
    }
    'macs: for (i, mac) in macs.iter().enumerate() {
        put_between(out, i, b',')?;
        put_bytes(out, &mac.0)?;
    }
    Ok(())
}

/// Adds the word of lists with the read-only mark behind a space, where they have it.
fn put_mark(out: &mut Vec<u8>, read_only: bool) -> Result<(), NoMemory>
    ensures { OnOk result (out.new.items ≡ out.old.items ++ spaced (mark_words read_only)) }
{
    if read_only {
        put(out, b" read-only")
    } else {
        Ok(())
    }
}

/// Adds the lists of a device, each behind its name, and their mark behind them, where they have it.
pub fn put_lists(out: &mut Vec<u8>, lists: &Lists) -> Result<(), NoMemory>
    ensures { OnOk result (out.new.items ≡ out.old.items ++ spaced (lists_words lists.now)) }
{
    put(out, b" config ")?;
    put_bytes(out, lists.config.as_slice())?;
    put(out, b" masks ")?;
    put_addresses(out, lists.masks.as_slice())?;
    put(out, b" reserves ")?;
    put_addresses(out, lists.reserves.as_slice())?;
    put_mark(out, lists.read_only)
}

/// Adds the name of a device.
pub fn put_device(out: &mut Vec<u8>, dev: &TargetId) -> Result<(), NoMemory>
    ensures { OnOk result (out.new.items ≡ out.old.items ++ device_text dev.now) }
{
    put(out, b"e")?;
    put_number(out, u64::from(dev.major))?;
    put(out, b".")?;
    put_number(out, u64::from(dev.minor))
}

/// Adds the name of a disk.
pub fn put_which(out: &mut Vec<u8>, which: Which) -> Result<(), NoMemory>
    ensures { OnOk result (out.new.items ≡ out.old.items ++ which_text which) }
{
    match which {
        Which::Store => put(out, b"store"),
        Which::Keep => put(out, b"keep"),
    }
}

/// Adds what a loss of power leaves.
pub(crate) fn put_mode(out: &mut Vec<u8>, mode: Loss) -> Result<(), NoMemory>
    ensures { OnOk result (out.new.items ≡ out.old.items ++ mode_text mode) }
{
    match mode {
        Loss::Keep => put(out, b"keep"),
        Loss::Old => put(out, b"old"),
        Loss::Torn => put(out, b"torn"),
        Loss::Mix(x) => {
            put(out, b"mix:")?;
            put_number(out, x)
        }
    }
}

/// Adds an action on the config string behind a space.
fn put_ccmd(out: &mut Vec<u8>, ccmd: u8) -> Result<(), NoMemory>
    ensures { OnOk result (out.new.items ≡ out.old.items ++ 32 ∷ ccmd_text ccmd) }
{
    match ccmd {
        0 => put(out, b" read"),
        1 => put(out, b" test"),
        2 => put(out, b" prefix"),
        3 => put(out, b" set"),
        4 => put(out, b" force"),
        _ => put_count(out, b"", u64::from(ccmd)),
    }
}

/// Adds an action on the reserve list behind a space.
fn put_rcmd(out: &mut Vec<u8>, rcmd: u8) -> Result<(), NoMemory>
    ensures { OnOk result (out.new.items ≡ out.old.items ++ 32 ∷ rcmd_text rcmd) }
{
    match rcmd {
        0 => put(out, b" read"),
        1 => put(out, b" set"),
        2 => put(out, b" force"),
        _ => put_count(out, b"", u64::from(rcmd)),
    }
}

/// Adds the words of an action on the config string behind those of its device: a read has no text.
pub fn put_config_words(out: &mut Vec<u8>, ccmd: u8, text: &Blob) -> Result<(), NoMemory>
    ensures { OnOk result (out.new.items ≡ out.old.items ++ spaced (config_words ccmd text.now)) }
{
    put_ccmd(out, ccmd)?;
    if ccmd == 0 {
        return Ok(());
    }
    put(out, b" ")?;
    put_bytes(out, text.bytes())
}

/// Adds the words of an action on the mask list behind those of its device.
pub fn put_masks_words(
    out: &mut Vec<u8>,
    edit: bool,
    dirs: &ArrayVec<Dir, MAX_DIRS>,
) -> Result<(), NoMemory>
    ensures { OnOk result (out.new.items ≡ out.old.items
        ++ spaced (masks_words edit dirs.now.items)) }
{
    if !edit {
        return put(out, b" read");
    }
    put(out, b" edit ")?;
    put_dirs(out, dirs.as_slice())
}

/// Adds the words of an action on the reserve list behind those of its device: a read has no list.
pub fn put_reserve_words(
    out: &mut Vec<u8>,
    rcmd: u8,
    list: &ArrayVec<Mac, MAX_DIRS>,
) -> Result<(), NoMemory>
    ensures { OnOk result (out.new.items ≡ out.old.items
        ++ spaced (reserve_words rcmd list.now.items)) }
{
    put_rcmd(out, rcmd)?;
    if rcmd == 0 {
        return Ok(());
    }
    put(out, b" ")?;
    put_list(out, list.as_slice())
}
