//! Options of the handshake, and the answers to them.
ghost use Rattle.std.specs.Prelude.{◌≡◌, ◌==◌, ◌+◌, ◌≤◌, ◌++◌, [], length, replicate, IfSome, None, if◌then◌else◌};
ghost use Rattle.std.specs.Int.{w32, to_be_bytes};
ghost use Rattle.arrayvec.specs.ArrayVec.{array_vec_len};
ghost use Rattle.aoe_nbd.specs.Options.{ack, answer_of, event_of, export_answer, flags_of, go_event, info_error, infos, is_name, list_answer, name_len, option_head_of, reply_front, reply_to, size_and_flags};

use crate::bytes::array_at;
use crate::export::MAX_DATA;
use crate::{Export, HandshakeEvent};
use aoe_base::append;
use arrayvec::ArrayVec;

/// IHAVEOPT, the magic number of an option.
const OPTION_MAGIC: u64 = 0x4948_4156_454f_5054;

/// How many bytes an option has in front of its data.
pub const OPTION_HEAD_LEN: usize = 16;

/// The most bytes of an option's data that are read.
pub const MAX_OPTION: u32 = 8192;

/// The options that are known.
const EXPORT_NAME: u32 = 1;

const ABORT: u32 = 2;

const LIST: u32 = 3;

const INFO: u32 = 6;

const GO: u32 = 7;

/// The types of replies to them.
const ACK: u32 = 1;

const SERVER: u32 = 2;

const INFO_REPLY: u32 = 3;

const ERR_UNSUP: u32 = 0x8000_0001;

const ERR_INVALID: u32 = 0x8000_0003;

const ERR_UNKNOWN: u32 = 0x8000_0006;

/// The answer to an option.
pub type OptionReply = ArrayVec<u8, 134>;

/// What the first 16 bytes of an option say.
#[derive(Clone, Copy, PartialEq, Eq)]
pub struct OptionHead {
    pub code: u32,

    /// How many bytes of data stand behind it.
    pub len: u32,
}

/// The head of the option that stands at the front, or `None` where there are fewer than 16 bytes
/// or another magic number.
pub fn read_option_head(bytes: &[u8]) -> Option<OptionHead>
    ensures { result ≡ option_head_of bytes.now }
{
    if bytes.len() < OPTION_HEAD_LEN
        || u64::from_be_bytes(array_at::<8>(bytes, 0)) != OPTION_MAGIC
    {
        return None;
    }
    Some(OptionHead {
        code: u32::from_be_bytes(array_at::<4>(bytes, 8)),
        len: u32::from_be_bytes(array_at::<4>(bytes, 12)),
    })
}

/// What a reply has in front of `len` bytes of data.
fn reply_front(code: u32, kind: u32, len: u32) -> [u8; 20]
    ensures { result ≡ reply_front code kind len }
{
    let [a, b, c, d] = code.to_be_bytes();
    let [e, f, g, h] = kind.to_be_bytes();
    let [i, j, k, l] = len.to_be_bytes();
    [
        0x00, 0x03, 0xe8, 0x89, 0x04, 0x55, 0x65, 0xa9, a, b, c, d, e, f, g, h, i, j, k, l,
    ]
}

/// Appends what a reply has in front of `len` bytes of data.
fn put_reply_front(code: u32, kind: u32, len: u32, out: &mut OptionReply)
    requires { array_vec_len out.old + 20 ≤ 134 }
    ensures { out.new.items ≡ out.old.items ++ reply_front code kind len }
{
    append(out, &reply_front(code, kind, len));
}

/// Appends a reply with this data.
fn put_reply(code: u32, kind: u32, payload: &[u8], out: &mut OptionReply)
    requires { array_vec_len out.old + 20 + length payload.now ≤ 134 }
    ensures { out.new.items ≡ out.old.items ++ reply_to code kind payload.now }
{
    put_reply_front(code, kind, payload.len() as u32, out);
    append(out, payload);
}

/// The transmission flags of an export.
fn flags_of(export: &Export) -> u16
    ensures { result ≡ flags_of export.now }
{
    let read_only = if export.read_only { 2 } else { 0 };
    let flushes = if export.flushes { 12 } else { 0 };
    1 + read_only + flushes
}

/// Appends the size of an export, and its transmission flags.
fn put_size_and_flags(export: &Export, out: &mut OptionReply)
    requires { array_vec_len out.old + 10 ≤ 134 }
    ensures { out.new.items ≡ out.old.items ++ size_and_flags export.now }
{
    append(out, &export.size.to_be_bytes());
    append(out, &flags_of(export).to_be_bytes());
}

/// Whether the name is served: the empty one and the export's own are.
fn is_name(export: &Export, name: &[u8]) -> bool
    ensures { result ≡ is_name export.now name.now }
{
    name.is_empty() || name == export.name.as_slice()
}

/// How long the name is that INFO and GO ask for, or `None` where the lengths of their data
/// disagree.
fn name_len(payload: &[u8]) -> Option<usize>
    ensures len { result ≡ name_len payload.now }
    ensures inside { IfSome result (λ n. n + 6 ≤ length payload.now) }
{
    if payload.len() < 4 {
        return None;
    }
    let len = u32::from_be_bytes(array_at::<4>(payload, 0)) as usize;
    if len + 6 > payload.len() {
        return None;
    }
    let infos = u16::from_be_bytes(array_at::<2>(payload, len + 4)) as usize;
    (payload.len() == len + 6 + 2 * infos).then_some(len)
}

/// The error that INFO and GO get, or `None`.
fn info_error(export: &Export, payload: &[u8]) -> Option<u32>
    ensures { result ≡ info_error export.now payload.now }
{
    let Some(len) = name_len(payload) else {
        return Some(ERR_INVALID);
    };
    if is_name(export, &payload[4..len + 4]) {
        None
    } else {
        Some(ERR_UNKNOWN)
    }
}

/// Appends what EXPORT_NAME gets for a name that is served.
fn put_export(export: &Export, no_zeroes: bool, out: &mut OptionReply)
    requires { array_vec_len out.old ≡ 0 }
    ensures { out.new.items ≡ out.old.items ++ size_and_flags export.now
        ++ (if no_zeroes then [] else replicate 124 0) }
{
    put_size_and_flags(export, out);
    if !no_zeroes {
        append(out, &[0; 124]);
    }
}

/// Appends what LIST gets that has no data.
fn put_list(export: &Export, out: &mut OptionReply)
    requires { array_vec_len out.old ≡ 0 }
    ensures { out.new.items ≡ out.old.items
        ++ reply_to 3 2 (to_be_bytes w32 (length export.now.name.items) ++ export.now.name.items)
        ++ ack 3 }
{
    let name = export.name.as_slice();
    let len = name.len() as u32;
    put_reply_front(LIST, SERVER, 4 + len, out);
    append(out, &len.to_be_bytes());
    append(out, name);
    put_reply(LIST, ACK, &[], out);
}

/// Appends what INFO and GO get that aren't refused.
fn put_infos(export: &Export, code: u32, out: &mut OptionReply)
    requires { array_vec_len out.old ≡ 0 }
    ensures { out.new.items ≡ out.old.items ++ infos export.now code None }
{
    put_reply_front(code, INFO_REPLY, 12, out);
    append(out, &[0, 0]);
    put_size_and_flags(export, out);
    put_reply_front(code, INFO_REPLY, 14, out);
    append(out, &[0, 3]);
    append(out, &512u32.to_be_bytes());
    append(out, &4096u32.to_be_bytes());
    append(out, &MAX_DATA.to_be_bytes());
    put_reply(code, ACK, &[], out);
}

/// What comes of EXPORT_NAME.
fn answer_export_name(
    export: &Export,
    no_zeroes: bool,
    name: &[u8],
    out: &mut OptionReply,
) -> HandshakeEvent
    requires { out.old.items ≡ [] }
    ensures event { result ≡ (if is_name export.now name.now then HandshakeEvent.Begins
        else HandshakeEvent.Unknown) }
    ensures out { out.new.items ≡ export_answer export.now no_zeroes name.now }
{
    if !is_name(export, name) {
        return HandshakeEvent::Unknown;
    }
    put_export(export, no_zeroes, out);
    HandshakeEvent::Begins
}

/// What comes of LIST.
fn answer_list(export: &Export, payload: &[u8], out: &mut OptionReply) -> HandshakeEvent
    requires { out.old.items ≡ [] }
    ensures event { result ≡ HandshakeEvent.Answered }
    ensures out { out.new.items ≡ list_answer export.now payload.now }
{
    if payload.is_empty() {
        put_list(export, out);
    } else {
        put_reply(LIST, ERR_INVALID, &[], out);
    }
    HandshakeEvent::Answered
}

/// What comes of INFO and GO, as `begins` says.
fn answer_info(export: &Export, code: u32, payload: &[u8], out: &mut OptionReply) -> HandshakeEvent
    requires { out.old.items ≡ [] }
    ensures event { result ≡ (if code == 7 then go_event (info_error export.now payload.now)
        else HandshakeEvent.Answered) }
    ensures out { out.new.items ≡ infos export.now code (info_error export.now payload.now) }
{
    match info_error(export, payload) {
        Some(error) => {
            put_reply(code, error, &[], out);
            HandshakeEvent::Answered
        }
        None => {
            put_infos(export, code, out);
            if code == GO {
                HandshakeEvent::Begins
            } else {
                HandshakeEvent::Answered
            }
        }
    }
}

/// What comes of an option, and makes `out` the answer to it, which is empty then.
pub fn answer(
    export: &Export,
    no_zeroes: bool,
    code: u32,
    payload: &[u8],
    out: &mut OptionReply,
) -> HandshakeEvent
    requires { out.old.items ≡ [] }
    ensures event { result ≡ event_of export.now (record { code = code; payload = payload.now }) }
    ensures out { out.new.items
        ≡ answer_of export.now no_zeroes (record { code = code; payload = payload.now }) }
{
    match code {
        EXPORT_NAME => answer_export_name(export, no_zeroes, payload, out),
        ABORT => {
            put_reply(ABORT, ACK, &[], out);
            HandshakeEvent::Leaves
        }
        LIST => answer_list(export, payload, out),
        INFO | GO => answer_info(export, code, payload, out),
        _ => {
            put_reply(code, ERR_UNSUP, &[], out);
            HandshakeEvent::Answered
        }
    }
}
