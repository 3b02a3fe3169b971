//! How addresses are printed: each of these adds to a text.
ghost use Rattle.std.specs.Prelude.{◌≡◌, ◌++◌, ◌<◌, map, OnOk};
ghost use Rattle.std.specs.Char.{digit_char};
ghost use Rattle.std.specs.List.{join_with_byte};
ghost use Rattle.aoe_base.specs.Names.{mac_text, pair_text};
ghost use Rattle.aoe_base.specs.Texts.{between, macs_text};

use crate::{Mac, NoMemory};

/// Adds bytes.
pub fn put(out: &mut Vec<u8>, bytes: &[u8]) -> Result<(), NoMemory>
    ensures { OnOk result (out.new.items ≡ out.old.items ++ bytes.now) }
{
    out.extend_from_slice(bytes)?;
    Ok(())
}

/// The hexadecimal digit of a value.
fn digit(value: u8) -> u8
    requires { value < 16 }
    ensures { result ≡ digit_char value }
{
    if value < 10 {
        b'0' + value
    } else {
        b'a' + value - 10
    }
}

/// A byte as two hexadecimal digits.
pub fn pair(byte: u8) -> [u8; 2]
    ensures { result ≡ pair_text byte }
{
    [digit(byte / 16), digit(byte % 16)]
}

/// Adds a byte as two hexadecimal digits.
pub fn put_pair(out: &mut Vec<u8>, byte: u8) -> Result<(), NoMemory>
    ensures { OnOk result (out.new.items ≡ out.old.items ++ pair_text byte) }
{
    put(out, &pair(byte))
}

/// Adds what stands before the part at a place: nothing before the first.
pub fn put_between(out: &mut Vec<u8>, i: usize, byte: u8) -> Result<(), NoMemory>
    ensures { OnOk result (out.new.items ≡ out.old.items ++ between byte i) }
{
    if i == 0 { Ok(()) } else { put(out, &[byte]) }
}

/// Adds bytes as pairs of hexadecimal digits, joined by colons.
pub fn put_pairs(out: &mut Vec<u8>, bytes: &[u8]) -> Result<(), NoMemory>
    ensures { OnOk result (out.new.items ≡ out.old.items
        ++ join_with_byte 58 (map pair_text bytes.now)) }
{
    'pairs: for (i, byte) in bytes.iter().enumerate() {
        put_between(out, i, b':')?;
        put_pair(out, *byte)?;
    }
    Ok(())
}

/// Adds an address.
pub fn put_mac(out: &mut Vec<u8>, mac: &Mac) -> Result<(), NoMemory>
    ensures { OnOk result (out.new.items ≡ out.old.items ++ mac_text mac.now) }
{
    put_pairs(out, &mac.0)
}

/// Adds addresses, joined by commas.
pub fn put_macs(out: &mut Vec<u8>, macs: &[Mac]) -> Result<(), NoMemory>
    ensures { OnOk result (out.new.items ≡ out.old.items ++ macs_text macs.now) }
{
    'macs: for (i, mac) in macs.iter().enumerate() {
        put_between(out, i, b',')?;
        put_mac(out, mac)?;
    }
    Ok(())
}
