//! The one frame that asks for an operation.
ghost use Rattle.std.specs.Prelude.{◌≡◌, ◌+◌, ◌*◌, ◌≤◌, ◌<◌, ◌^◌, ◌++◌, Some, length};
ghost use Rattle.arrayvec.specs.ArrayVec.{array_vec_len};
ghost use Rattle.aoe_base.specs.Sizes.{longest_frame};
ghost use Rattle.aoe_ata.specs.Args.{args_bytes};
ghost use Rattle.aoe_ata.specs.Command.{code_of};
ghost use Rattle.aoe_frame.specs.Header.{head};
ghost use Rattle.aoe_lists.specs.Settings.{max_directives};
ghost use Rattle.aoe_initiator.specs.Request.{arguments, config_bytes, flush_registers, mask_bytes, registers_of, request, request_header, reserve_bytes, write_bytes, CanSpell};

use crate::op::{FlushCommand, Op};
use aoe_ata::{AFLAG_EXTENDED, AFLAG_WRITE, AtaArgs, CommandCode, write_args};
use aoe_base::{Mac, SECTOR_LEN, Span, TargetId, append};
use aoe_frame::{Frame, Header, pad, write_header};
use aoe_lists::Dir;

/// DCmd: the address is added (AoEr11, "MAC Mask List").
const DIR_ADD: u8 = 1;

/// DCmd: the address is deleted (AoEr11, "MAC Mask List").
const DIR_DELETE: u8 = 2;

/// The registers of a command on these sectors.
fn registers(aflags: u8, code: CommandCode, span: Span) -> AtaArgs
    requires { span.count < 2 ^ 8 }
    ensures { result ≡ registers_of aflags (code_of code) span }
{
    AtaArgs {
        aflags,
        feature: 0,
        count: span.count as u8,
        code: code.code(),
        lba: span.at,
    }
}

/// Appends the registers of a command on these sectors.
fn append_registers(aflags: u8, code: CommandCode, span: Span, out: &mut Frame)
    requires address { span.at < 2 ^ 48 }
    requires count { span.count < 2 ^ 8 }
    requires room { array_vec_len out.old + 12 ≤ longest_frame }
    ensures bytes { out.new.items ≡ out.old.items
        ++ args_bytes (registers_of aflags (code_of code) span) }
    ensures len { length out.new.items ≡ length out.old.items + 12 }
{
    write_args(&registers(aflags, code, span), out);
}

/// Appends the arguments of a query config request with a string of at most 1024 bytes.
pub fn append_config_args(ccmd: u8, text: &[u8], out: &mut Frame)
    requires text { length text.now ≤ 1024 }
    requires room { array_vec_len out.old + 8 + length text.now ≤ longest_frame }
    ensures { out.new.items ≡ out.old.items ++ config_bytes ccmd text.now }
{
    append(out, &[0, 0, 0, 0, 0, ccmd]);
    append(out, &(text.len() as u16).to_be_bytes());
    append(out, text);
}

/// Appends the arguments of a mask list request.
pub fn append_mask_args(edit: bool, dirs: &[Dir], out: &mut Frame)
    requires few { length dirs.now ≤ max_directives }
    requires room { array_vec_len out.old + 4 + 8 * length dirs.now ≤ longest_frame }
    ensures { out.new.items ≡ out.old.items ++ mask_bytes edit dirs.now }
{
    append(out, &[0, u8::from(edit), 0, dirs.len() as u8]);
    'dirs: for dir in dirs {
        append(out, &[0, if dir.add { DIR_ADD } else { DIR_DELETE }]);
        append(out, &dir.mac.0);
    }
}

/// Appends the arguments of a reserve request.
pub fn append_reserve_args(rcmd: u8, list: &[Mac], out: &mut Frame)
    requires few { length list.now ≤ max_directives }
    requires room { array_vec_len out.old + 2 + 6 * length list.now ≤ longest_frame }
    ensures { out.new.items ≡ out.old.items ++ reserve_bytes rcmd list.now }
{
    append(out, &[rcmd, list.len() as u8]);
    'addresses: for address in list {
        append(out, &address.0);
    }
}

/// Appends the registers of a write and its sectors.
fn append_write(at: u64, bytes: &[u8], out: &mut Frame)
    requires address { at < 2 ^ 48 }
    requires few { length bytes.now ≤ 8704 }
    requires room { array_vec_len out.old + 12 + length bytes.now ≤ longest_frame }
    ensures { out.new.items ≡ out.old.items ++ write_bytes at bytes.now }
{
    let span = Span {
        at,
        count: (bytes.len() / SECTOR_LEN) as u32,
    };
    append_registers(
        AFLAG_EXTENDED | AFLAG_WRITE,
        CommandCode::WriteSectorsExt,
        span,
        out,
    );
    append(out, bytes);
}

/// Appends the registers of a flush, which has no sector.
fn append_flush(flush: FlushCommand, out: &mut Frame)
    requires { array_vec_len out.old + 12 ≤ longest_frame }
    ensures { out.new.items ≡ out.old.items ++ args_bytes (flush_registers flush) }
{
    let nowhere = Span { at: 0, count: 0 };
    match flush {
        FlushCommand::Cache => append_registers(0, CommandCode::FlushCache, nowhere, out),
        FlushCommand::CacheExt => {
            append_registers(AFLAG_EXTENDED, CommandCode::FlushCacheExt, nowhere, out);
        }
    }
}

/// Appends what stands behind the header.
fn append_arguments(op: &Op, flush: FlushCommand, out: &mut Frame)
    requires spelled { CanSpell op.now }
    requires room { length out.old.items ≡ 24 }
    ensures { out.new.items ≡ out.old.items ++ arguments flush op.now }
{
    match op {
        Op::Read(span) => {
            append_registers(AFLAG_EXTENDED, CommandCode::ReadSectorsExt, *span, out);
        }
        Op::Write { at, bytes } => append_write(*at, bytes.bytes(), out),
        Op::Flush => append_flush(flush, out),
        Op::Identify => {
            let page = Span { at: 0, count: 1 };
            append_registers(0, CommandCode::IdentifyDevice, page, out);
        }
        Op::Config { ccmd, text } => append_config_args(*ccmd, text.bytes(), out),
        Op::Masks { edit, dirs } => append_mask_args(*edit, dirs.as_slice(), out),
        Op::Reserve { rcmd, list } => append_reserve_args(*rcmd, list.as_slice(), out),
    }
}

/// Makes `out` the frame that asks the device `id` for the operation, from the port `local` of
/// the host to the port `remote` of the device. Only a flush goes by `flush`.
#[tactic(auto, unfolding(crate::specs::Request::request))]
pub fn write_request(
    op: &Op,
    flush: FlushCommand,
    id: TargetId,
    remote: Mac,
    local: Mac,
    tag: u32,
    out: &mut Frame,
)
    requires { CanSpell op.now }
    ensures bytes { out.new.items ≡ request flush op.now id remote local tag }
    ensures read { head out.new.items ≡ Some (request_header op.now id remote local tag) }
{
    let header = Header {
        dst: remote,
        src: local,
        version: 1,
        flags: 0,
        error: 0,
        id,
        command: op.command(),
        tag,
    };
    write_header(&header, out);
    append_arguments(op, flush, out);
    pad(out);
}
