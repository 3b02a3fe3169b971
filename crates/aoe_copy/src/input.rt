//! The sectors that a source gives up to its end.
ghost use Rattle.std.specs.Prelude.{◌≡◌, ◌≤◌, Err};
ghost use Rattle.aoe_base.specs.Faults.{Blamed};
ghost use Rattle.aoe_copy.specs.Input.{Reads};

use crate::end::CopyRefusal;
use aoe_base::{Blob, SECTOR_LEN};
use aoe_io::{InputRefusal, Source, read_up_to};
use aoe_tools::ToolRefusal;
use std::alloc::Global;

/// The bytes of an input that are read before anything is sent, 16 MiB at most.
const LONGEST_INPUT: usize = 16_777_216;

/// What a source gave.
#[derive(Drop)]
pub(crate) enum Input {
    /// All of it: whole sectors, 32,768 at most.
    Sectors(Blob),

    /// More than 16,777,216 bytes, and at most 65,536 more than these. There may be more after
    /// them.
    Longer(Blob),
}

/// Reads the source to its end, where that isn't too far: the sectors that it gives, or the front of
/// them.
pub(crate) fn read_input<S: Source>(alloc: Global, source: &mut S) -> Result<Input, CopyRefusal>
    ensures reads { Reads result (S.left source.old) (S.left source.new) }
    ensures count { S.faults source.old ≤ S.faults source.new }
    ensures source { Blamed (result ≡ Err CopyRefusal.SourceFault) (S.faults source.old)
        (S.faults source.new) }
{
    let input = match read_up_to(alloc, source, LONGEST_INPUT) {
        Ok(input) => input,
        Err(InputRefusal::NoMemory) => return Err(CopyRefusal::Tool(ToolRefusal::NoMemory)),
        Err(InputRefusal::Fault) => return Err(CopyRefusal::SourceFault),
    };
    let len = input.len();
    if len > LONGEST_INPUT {
        return Ok(Input::Longer(Blob::from_vec(input)));
    }
    let rest = len % SECTOR_LEN;
    if rest != 0 {
        let offset = (len - rest) as u64;
        return Err(CopyRefusal::Stream { offset });
    }
    Ok(Input::Sectors(Blob::from_vec(input)))
}
