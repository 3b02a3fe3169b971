//! The frames that tools send. None is a flush, so that any flush command makes them what they are.
ghost use Rattle.std.specs.Prelude.{◌≡◌, ◌≤◌, length};
ghost use Rattle.aoe_base.specs.Addresses.{broadcast};
ghost use Rattle.aoe_frame.specs.Header.{header_bytes};
ghost use Rattle.aoe_initiator.specs.declared.op.FlushCommand.TheVariants.{CacheExt};
ghost use Rattle.aoe_initiator.specs.declared.op.Op.TheVariants as op;
ghost use Rattle.aoe_initiator.specs.Request.{request};
ghost use Rattle.aoe_lists.specs.Settings.{max_directives};

use aoe_base::{BROADCAST, Mac, TargetId};
use aoe_frame::{Frame, Header, pad, write_header};
use aoe_initiator::{append_config_args, append_mask_args, append_reserve_args};
use aoe_lists::Dir;

/// Makes `out` the header of a request to all stations.
fn begin(command: u8, id: TargetId, port: Mac, tag: u32, out: &mut Frame)
    ensures bytes { out.new.items ≡ header_bytes (record { dst = broadcast; src = port; version = 1; flags = 0; error = 0; id = id; command = command; tag = tag }) }
    ensures len { length out.new.items ≡ 24 }
{
    let header = Header {
        dst: BROADCAST,
        src: port,
        version: 1,
        flags: 0,
        error: 0,
        id,
        command,
        tag,
    };
    write_header(&header, out);
}

/// Makes `out` the query config request to a device.
#[tactic(auto, unfolding(aoe_initiator::specs::Request::request))]
pub(crate) fn config_request(
    ccmd: u8,
    text: &[u8],
    id: TargetId,
    port: Mac,
    tag: u32,
    out: &mut Frame,
)
    requires { length text.now ≤ 1024 }
    ensures { out.new.items ≡ request CacheExt (op.Config ccmd text.now) id broadcast port tag }
{
    begin(1, id, port, tag, out);
    append_config_args(ccmd, text, out);
    pad(out);
}

/// Makes `out` the mask list request to a device: an edit by these directives, or a read.
#[tactic(auto, unfolding(aoe_initiator::specs::Request::request))]
pub(crate) fn mask_request(
    edit: bool,
    dirs: &[Dir],
    id: TargetId,
    port: Mac,
    tag: u32,
    out: &mut Frame,
)
    requires { length dirs.now ≤ max_directives }
    ensures { out.new.items ≡ request CacheExt (op.Masks edit
        (record { items = dirs.now })) id broadcast port tag }
{
    begin(2, id, port, tag, out);
    append_mask_args(edit, dirs, out);
    pad(out);
}

/// Makes `out` the reserve request to a device.
#[tactic(auto, unfolding(aoe_initiator::specs::Request::request))]
pub(crate) fn reserve_request(
    rcmd: u8,
    list: &[Mac],
    id: TargetId,
    port: Mac,
    tag: u32,
    out: &mut Frame,
)
    requires { length list.now ≤ max_directives }
    ensures { out.new.items ≡ request CacheExt (op.Reserve rcmd
        (record { items = list.now })) id broadcast port tag }
{
    begin(3, id, port, tag, out);
    append_reserve_args(rcmd, list, out);
    pad(out);
}
