//! What a target does with the arguments of an ATA command, before it calls its device.
ghost use Rattle.std.specs.Prelude.{◌≡◌, ◌+◌, ◌*◌, ◌^◌, ◌<◌, ◌≤◌, IfOk, length, nat_le};
ghost use Rattle.aoe_ata.specs.Decision.{is_taken, answer_of, decision, CanServe, written};

use crate::args::{ARGS_LEN, AtaArgs, read_args};
use crate::command::{AtaCommand, classify};
use aoe_base::{AoeError, SECTOR_LEN, Span};

/// What is answered to registers that are taken. The last four call the device.
#[derive(Clone, Copy, PartialEq, Eq, Hash)]
pub enum AtaAnswer {
    /// ABRT, since the command isn't known.
    Abort,
    /// IDNF, since a sector isn't within the device.
    NotFound,
    /// The identify page.
    Page,
    /// The power mode.
    Mode,
    /// The sectors, once they are read.
    Give(Span),
    /// No data, once the data behind the registers is written to the sectors.
    Put(Span),
    /// No data, once the sectors are read.
    Verify(Span),
    /// No data, once the device is synced.
    Sync,
}

/// Registers that are taken, and what is answered to them.
#[derive(Clone, Copy, PartialEq, Eq, Hash)]
pub struct AtaDecision {
    pub args: AtaArgs,
    pub answer: AtaAnswer,
}

/// How many bytes the sectors have.
fn data_len(span: Span) -> usize
    ensures { result ≡ 512 * span.count }
{
    SECTOR_LEN * span.count as usize
}

/// Whether a command has at most `max` sectors, and a write its data among the `room` bytes behind
/// the registers.
#[inline(always)]
fn takes(command: &AtaCommand, max: u8, room: usize) -> bool
    ensures { result ≡ is_taken max room command.now }
{
    match *command {
        AtaCommand::Read(span) | AtaCommand::Verify(span) => span.count <= u32::from(max),
        AtaCommand::Write(span) => span.count <= u32::from(max) && data_len(span) <= room,
        AtaCommand::Flush | AtaCommand::Identify | AtaCommand::PowerMode | AtaCommand::Unknown => {
            true
        }
    }
}

/// Whether the sectors are within a device of `total` sectors.
fn is_within(span: Span, total: u64) -> bool
    ensures { result ≡ nat_le (span.at + span.count) total }
{
    span.at <= total && u64::from(span.count) <= total - span.at
}

/// What a device of `total` sectors answers.
#[inline(always)]
fn answer(command: &AtaCommand, total: u64) -> AtaAnswer
    ensures { result ≡ answer_of total command.now }
{
    match *command {
        AtaCommand::Read(span) if is_within(span, total) => AtaAnswer::Give(span),
        AtaCommand::Write(span) if is_within(span, total) => AtaAnswer::Put(span),
        AtaCommand::Verify(span) if is_within(span, total) => AtaAnswer::Verify(span),
        AtaCommand::Read(_) | AtaCommand::Write(_) | AtaCommand::Verify(_) => AtaAnswer::NotFound,
        AtaCommand::Flush => AtaAnswer::Sync,
        AtaCommand::Identify => AtaAnswer::Page,
        AtaCommand::PowerMode => AtaAnswer::Mode,
        AtaCommand::Unknown => AtaAnswer::Abort,
    }
}

/// What a device of `total` sectors, with at most `max` sectors in one command, answers to the
/// bytes of a frame from byte 24 on. `BadArgument` is the error of bytes that aren't taken: too few
/// for the registers, more sectors than `max`, or a write with less data than its sectors have.
#[tactic(auto, unfolding(crate::specs::Decision::decision))]
#[inline(always)]
pub fn decide(total: u64, max: u8, bytes: &[u8]) -> Result<AtaDecision, AoeError>
    ensures decision { result ≡ decision total max bytes.now }
    ensures address { IfOk result (λ d. d.args.lba < 2 ^ 48) }
    ensures can_serve { IfOk result (λ d. CanServe total max bytes.now d.answer) }
{
    let Some(args) = read_args(bytes) else {
        return Err(AoeError::BadArgument);
    };
    let command = classify(&args);
    if !takes(&command, max, bytes.len() - ARGS_LEN) {
        return Err(AoeError::BadArgument);
    }
    Ok(AtaDecision {
        args,
        answer: answer(&command, total),
    })
}

/// The data of a write: as many bytes behind the registers as its sectors have.
pub fn put_data(bytes: &[u8], span: Span) -> &[u8]
    requires { 12 + 512 * span.count ≤ length bytes.now }
    ensures data { result.now ≡ written bytes.now span }
    ensures len { length result.now ≡ 512 * span.count }
{
    &bytes[ARGS_LEN..ARGS_LEN + data_len(span)]
}
