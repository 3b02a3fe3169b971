//! Whether sectors may be a keep's, for those who open files by names that a user gave.
ghost use Rattle.std.specs.Prelude.{◌≡◌, length};
ghost use Rattle.aoe_keep.specs.Content.{begins_slot, may_hold_keep as may_hold};

use crate::body::{MARK, are_zeros};
use crate::mounted::OPEN;

/// Where the second slot begins.
const SECOND: usize = 4096;

/// How many bytes a gate has.
const GATE: usize = 512;

/// Whether a slot's gate is open, or its body begins as one that was written.
fn begins(slot: &[u8]) -> bool
    requires { length slot.now ≡ 4096 }
    ensures { result ≡ begins_slot slot.now }
{
    let (gate, body) = slot.split_at(GATE);
    gate[0] == OPEN || body.starts_with(&MARK)
}

/// Whether 16 sectors may be a keep's: those of a new one are zeros, and in one that was written a
/// gate is open or a body begins with `AoEK`. Of other data neither is likely. A keep whose first
/// change was cut short may have neither; nothing of it was acknowledged.
pub fn may_hold_keep(image: &[u8]) -> bool
    requires { length image.now ≡ 8192 }
    ensures { result ≡ may_hold image.now }
{
    let (first, second) = image.split_at(SECOND);
    begins(first) || begins(second) || are_zeros(image)
}
