//! Copies of what a host asks.
ghost use Rattle.std.specs.Prelude.{◌≡◌, IfOk};

use aoe_base::{Blob, NoMemory, copy_of};
use aoe_initiator::Op;
use std::alloc::Global;

/// The same operation, for the history.
pub(crate) fn op_copy(alloc: Global, op: &Op) -> Result<Op, NoMemory>
    ensures { IfOk result (λ copy. copy ≡ op.now) }
{
    match op {
        Op::Read(span) => Ok(Op::Read(*span)),
        Op::Write { at, bytes } => {
            let bytes = Blob::of(alloc, bytes.bytes())?;
            Ok(Op::Write { at: *at, bytes })
        }
        Op::Flush => Ok(Op::Flush),
        Op::Identify => Ok(Op::Identify),
        Op::Config { ccmd, text } => {
            let text = Blob::of(alloc, text.bytes())?;
            Ok(Op::Config { ccmd: *ccmd, text })
        }
        Op::Masks { edit, dirs } => Ok(Op::Masks {
            edit: *edit,
            dirs: copy_of(dirs),
        }),
        Op::Reserve { rcmd, list } => Ok(Op::Reserve {
            rcmd: *rcmd,
            list: copy_of(list),
        }),
    }
}
