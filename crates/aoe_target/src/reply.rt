//! The bytes of replies.
ghost use Rattle.std.specs.Prelude.{◌≡◌, ◌^◌, ◌≤◌, ◌++◌, ◌+◌, Some, None, take, length, slice_range};
ghost use Rattle.std.specs.Option.{option_map};
ghost use Rattle.aoe_frame.specs.Header.{fields, header_bytes, padded, reply_header};
ghost use Rattle.aoe_base.specs.Refusal.{code_of_error};
ghost use Rattle.aoe_ata.specs.Args.{args_bytes};
ghost use Rattle.aoe_ata.specs.Reply.{reply_of};
ghost use Rattle.aoe_ata.specs.declared.reply.AtaOutcome.{AtaOutcome};
ghost use Rattle.aoe_target.specs.Reply.{reply_head, reply_port, spelled, step_reply, ata_reply, data_reply, identity};

use crate::Station;
use aoe_ata::{
    ARGS_LEN, AtaArgs, AtaOutcome, args_array, identify_page, reply_args, serial_number,
};
use aoe_base::AoeError;
use aoe_frame::{Frame, HEADER_LEN, HeaderView, MIN_FRAME, put_turned, stretch};

/// Where the data of a reply stand.
pub(crate) const DATA_AT: usize = HEADER_LEN + ARGS_LEN;

/// The most arguments of a reply that has no more than the least length.
const MAX_SHORT: usize = MIN_FRAME - HEADER_LEN;

/// Writes the header of a reply of a shelf with several ports over a place of 24 bytes.
#[cold]
#[inline(never)]
fn put_head_of(station: &Station, header: &HeaderView<'_>, code: Option<u8>, out: &mut [u8])
    requires { length out.old ≡ 24 }
    ensures { out.new ≡ header_bytes (reply_header header.now station.now.id
        (reply_port station.now header.now) code) }
{
    put_turned(header, station.id, &station.reply_port(header), code, out);
}

/// Writes the header of a reply over a place of 24 bytes.
#[inline(always)]
fn put_head(station: &Station, header: &HeaderView<'_>, error: Option<AoeError>, out: &mut [u8])
    requires { length out.old ≡ 24 }
    ensures { out.new ≡ reply_head station.now header.now error }
{
    let code = match error {
        Some(error) => Some(error.code()),
        None => None,
    };
    match station.only_port() {
        Some(port) => put_turned(header, station.id, &port, code, out),
        None => put_head_of(station, &header.copy(), code, out),
    }
}

/// Writes a reply of the least length over a place of as many bytes.
#[inline(always)]
fn put_short(
    station: &Station,
    header: &HeaderView<'_>,
    error: Option<AoeError>,
    args: &[u8],
    out: &mut [u8],
)
    requires args { length args.now ≤ 36 }
    requires place { length out.old ≡ 60 }
    ensures { out.new ≡ padded (reply_head station.now header.now error ++ args.now) }
{
    let (head, rest) = out.split_at_mut(HEADER_LEN);
    let (rest, _) = rest.split_at_mut(MAX_SHORT);
    put_head(station, header, error, head);
    rest.copy_from_slice(&[0; MAX_SHORT]);
    rest[..args.len()].copy_from_slice(args);
}

/// Writes a reply that needs no padding over a place that it fills.
#[inline(never)]
fn put_long(
    station: &Station,
    header: &HeaderView<'_>,
    error: Option<AoeError>,
    args: &[u8],
    out: &mut [u8],
)
    requires args { 36 ≤ length args.now }
    requires place { length out.old ≡ 24 + length args.now }
    ensures { out.new ≡ padded (reply_head station.now header.now error ++ args.now) }
{
    let (head, rest) = out.split_at_mut(HEADER_LEN);
    put_head(station, header, error, head);
    rest.copy_from_slice(args);
}

/// Makes `out` the reply with these arguments.
#[inline(always)]
#[tactic(auto, unfolding(crate::specs::Reply::spelled))]
pub(crate) fn reply(
    station: &Station,
    header: &HeaderView<'_>,
    error: Option<AoeError>,
    args: &[u8],
    out: &mut Frame,
)
    requires { length args.now ≤ 2048 }
    ensures { out.new.items ≡ spelled station.now header.now error args.now }
{
    if args.len() <= MAX_SHORT {
        stretch(out, MIN_FRAME);
        put_short(station, header, error, args, out.as_mut_slice());
    } else {
        stretch(out, HEADER_LEN + args.len());
        put_long(station, header, error, args, out.as_mut_slice());
    }
}

/// The part of a request that an error reply repeats: bytes 24 to 59.
fn repeated(frame: &[u8]) -> &[u8]
    requires { 24 ≤ length frame.now }
    ensures bytes { result.now ≡ slice_range frame.now 24 60 }
    ensures short { length result.now ≤ 36 }
{
    &frame[HEADER_LEN..frame.len().min(MIN_FRAME)]
}

/// Makes `out` the reply that bears an error and repeats the arguments of the request.
#[cold]
#[inline(never)]
pub(crate) fn refuse(
    station: &Station,
    header: &HeaderView<'_>,
    frame: &[u8],
    error: AoeError,
    out: &mut Frame,
)
    requires { 24 ≤ length frame.now }
    ensures { out.new.items ≡ spelled station.now header.now (Some error)
        (slice_range frame.now 24 60) }
{
    reply(station, header, Some(error), repeated(frame), out);
}

/// Makes `out` the reply of a step of the lists. One that bears an error repeats the arguments of the
/// request, but for the error that tells the config string.
pub(crate) fn reply_step(
    station: &Station,
    header: &HeaderView<'_>,
    frame: &[u8],
    error: Option<AoeError>,
    args: &[u8],
    out: &mut Frame,
)
    requires header { header.now ≡ fields frame.now }
    requires len { 24 ≤ length frame.now }
    requires room { length args.now ≤ 2048 }
    ensures { out.new.items ≡ step_reply station.now frame.now error args.now }
{
    match error {
        None | Some(AoeError::ConfigStringPresent) => reply(station, header, error, args, out),
        Some(error) => refuse(station, &header.copy(), frame, error, out),
    }
}

/// Writes what a reply to an ATA command has before its data over the first 36 bytes of a place.
#[inline(always)]
pub(crate) fn put_front(
    station: &Station,
    header: &HeaderView<'_>,
    args: &AtaArgs,
    outcome: AtaOutcome,
    out: &mut [u8],
)
    requires { 36 ≤ length out.old }
    ensures front { take 36 out.new ≡ reply_head station.now header.now None
        ++ args_bytes (reply_of args.now outcome) }
    ensures len { length out.new ≡ length out.old }
{
    let (head, rest) = out.split_at_mut(HEADER_LEN);
    let (registers, _) = rest.split_at_mut(ARGS_LEN);
    put_head(station, header, None, head);
    registers.copy_from_slice(&args_array(&reply_args(args, outcome)));
}

/// Makes `out` the reply to an ATA command that has no data.
#[inline(always)]
pub(crate) fn reply_ata(
    station: &Station,
    header: &HeaderView<'_>,
    args: &AtaArgs,
    outcome: AtaOutcome,
    out: &mut Frame,
)
    ensures { out.new.items ≡ ata_reply station.now header.now args.now outcome }
{
    let registers = args_array(&reply_args(args, outcome));
    reply(station, header, None, &registers, out);
}

/// Makes `out` the reply with these registers, in a function of its own for what comes less often.
#[cold]
#[inline(never)]
fn reply_registers(
    station: &Station,
    header: &HeaderView<'_>,
    registers: [u8; ARGS_LEN],
    out: &mut Frame,
)
    ensures { out.new.items ≡ spelled station.now header.now None registers }
{
    reply(station, header, None, &registers, out);
}

/// The same as [`reply_ata`], for what comes less often.
#[inline(always)]
pub(crate) fn reply_apart(
    station: &Station,
    header: &HeaderView<'_>,
    args: &AtaArgs,
    outcome: AtaOutcome,
    out: &mut Frame,
)
    ensures { out.new.items ≡ ata_reply station.now header.now args.now outcome }
{
    let registers = args_array(&reply_args(args, outcome));
    reply_registers(station, &header.copy(), registers, out);
}

/// Makes `out` the reply with the identify page.
#[cold]
#[inline(never)]
#[tactic(auto, unfolding(crate::specs::Reply::spelled))]
pub(crate) fn reply_page(station: &Station, header: &HeaderView<'_>, args: AtaArgs, out: &mut Frame)
    requires { station.now.sectors ≤ 2 ^ 40 }
    ensures { out.new.items ≡ data_reply station.now header.now args (identity station.now) }
{
    let mut page = [0; 512];
    identify_page(station.sectors, &serial_number(station.id), &mut page);
    let mut told = [0; ARGS_LEN + 512];
    told[..ARGS_LEN].copy_from_slice(&args_array(&reply_args(&args, AtaOutcome::Done)));
    told[ARGS_LEN..].copy_from_slice(&page);
    reply(station, header, None, &told, out);
}
