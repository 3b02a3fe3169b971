//! What an event line asks of a host.
ghost use Rattle.std.specs.Prelude.{◌≡◌, ◌<◌, ◌*◌, true, replicate, IfOk, IfSome};
ghost use Rattle.aoe_history.specs.Asks.{op_of};
ghost use Rattle.aoe_initiator.specs.Op.{CanSubmit};
ghost use Rattle.aoe_script.specs.Rules.{is_event};

use aoe_base::{Blob, NoMemory, Span, copy_of};
use aoe_initiator::Op;
use aoe_script::Event;
use std::alloc::Global;

/// The bytes of a write of `count` sectors: every one is the same.
fn filled(alloc: Global, count: u64, fill: u8) -> Result<Blob, NoMemory>
    requires { count < 256 }
    ensures { IfOk result (λ bytes. bytes ≡ replicate (512 * count) fill) }
{
    match Vec::from_elem(alloc, fill, 512 * count as usize) {
        Ok(bytes) => Ok(Blob::from_vec(bytes)),
        Err(_) => Err(NoMemory),
    }
}

/// The operation that an event line submits, where it submits one.
pub(crate) fn op_of(alloc: Global, event: &Event) -> Result<Option<Op>, NoMemory>
    requires range { is_event event.now ≡ true }
    ensures op { IfOk result (λ op. op ≡ op_of event.now) }
    ensures can { IfOk result (λ op. IfSome op CanSubmit) }
{
    match event {
        Event::Read { at, count, .. } => Ok(Some(Op::Read(Span {
            at: *at,
            count: *count as u32,
        }))),
        Event::Write {
            at,
            count,
            fill,
            ..
        } => {
            let bytes = filled(alloc, *count, *fill)?;
            Ok(Some(Op::Write { at: *at, bytes }))
        }
        Event::Flush { .. } => Ok(Some(Op::Flush)),
        Event::Identify { .. } => Ok(Some(Op::Identify)),
        Event::Config { ccmd, text, .. } => {
            let text = Blob::of(alloc, text.bytes())?;
            Ok(Some(Op::Config { ccmd: *ccmd, text }))
        }
        Event::Masks { edit, dirs, .. } => Ok(Some(Op::Masks {
            edit: *edit,
            dirs: copy_of(dirs),
        })),
        Event::Reserve { rcmd, list, .. } => Ok(Some(Op::Reserve {
            rcmd: *rcmd,
            list: copy_of(list),
        })),
        Event::Tick { .. }
        | Event::Deliver { .. }
        | Event::Pass { .. }
        | Event::Skip { .. }
        | Event::Again
        | Event::Inject { .. }
        | Event::Fail { .. }
        | Event::Stop { .. }
        | Event::Crash { .. } => Ok(None),
    }
}
