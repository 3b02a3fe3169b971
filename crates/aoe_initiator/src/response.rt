//! What a response says of its command.
ghost use Rattle.std.specs.Prelude.{◌≡◌, ◌≤◌, IfSome, length};
ghost use Rattle.aoe_initiator.specs.Op.{data_len};
ghost use Rattle.aoe_initiator.specs.Response.{answer, ata_answer, ata_success, config_len, data_if, is_failure, mask_len, outcome_of, reserve_len, success, told, CanFill};

use crate::op::Op;
use crate::outcome::Outcome;
use aoe_ata::{ARGS_LEN, STATUS_DF, STATUS_ERR};
use aoe_base::{Blob, SECTOR_LEN, append};
use aoe_frame::{ERROR_FLAG, Header};
use aoe_lists::{Args, MAX_CONFIG};

/// What a well-formed response says.
#[derive(Clone, Copy, PartialEq, Eq)]
pub enum Answer {
    /// Behind the registers are `len` bytes of data: sectors or the identify page.
    Data { len: usize },

    /// The sectors are written.
    Written,

    /// What was written before is on the medium.
    Flushed,

    /// The `len` bytes behind the header tell of the lists.
    Told { len: usize },

    /// The registers of status and error, where the status shows a failure.
    AtaError { status: u8, error: u8 },

    /// The field Error of the header.
    AoeError(u8),
}

/// Whether a status shows that the command failed: its bit ERR or its bit DF.
fn is_failure(status: u8) -> bool
    ensures { result ≡ is_failure status }
{
    status & STATUS_ERR != 0 || status & STATUS_DF != 0
}

/// `len` bytes of data, where they are there.
fn data_if(len: usize, there: usize) -> Option<Answer>
    ensures { result ≡ data_if len there }
{
    if len > there {
        return None;
    }
    Some(Answer::Data { len })
}

/// What the response to a command that didn't fail says, by the number of bytes behind its
/// registers.
fn ata_success(op: &Op, there: usize) -> Option<Answer>
    ensures { result ≡ ata_success op.now there }
{
    match op {
        Op::Read(span) => data_if(SECTOR_LEN * span.count as usize, there),
        Op::Write { .. } => Some(Answer::Written),
        Op::Flush => Some(Answer::Flushed),
        Op::Identify => data_if(SECTOR_LEN, there),
        Op::Config { .. } | Op::Masks { .. } | Op::Reserve { .. } => None,
    }
}

/// What the registers of a response say, and the bytes behind them.
fn ata_answer(op: &Op, args: &[u8]) -> Option<Answer>
    ensures { result ≡ ata_answer op.now args.now }
{
    if args.len() < ARGS_LEN {
        return None;
    }
    let (status, error) = (args[3], args[1]);
    if is_failure(status) {
        return Some(Answer::AtaError { status, error });
    }
    ata_success(op, args.len() - ARGS_LEN)
}

/// How long the arguments of a query config response are.
pub fn config_args_len(args: &[u8]) -> Option<usize>
    ensures len { result ≡ config_len args.now }
    ensures most { IfSome result (λ len. len ≤ 2048) }
{
    if args.len() < 8 {
        return None;
    }
    let len = usize::from(u16::from_be_bytes([args[6], args[7]]));
    if len > MAX_CONFIG {
        return None;
    }
    Some(8 + len)
}

/// How long the arguments of a mask list response are.
pub fn mask_args_len(args: &[u8]) -> Option<usize>
    ensures len { result ≡ mask_len args.now }
    ensures most { IfSome result (λ len. len ≤ 2048) }
{
    if args.len() < 4 {
        return None;
    }
    Some(4 + 8 * usize::from(args[3]))
}

/// How long the arguments of a reserve response are.
pub fn reserve_args_len(args: &[u8]) -> Option<usize>
    ensures len { result ≡ reserve_len args.now }
    ensures most { IfSome result (λ len. len ≤ 2048) }
{
    if args.len() < 2 {
        return None;
    }
    Some(2 + 6 * usize::from(args[1]))
}

/// The arguments, where they are all there.
fn told(len: Option<usize>, args: &[u8]) -> Option<Answer>
    ensures { result ≡ told len args.now }
{
    let len = len?;
    if len > args.len() {
        return None;
    }
    Some(Answer::Told { len })
}

/// What a response without an error says.
fn read_success(op: &Op, args: &[u8]) -> Option<Answer>
    ensures value { result ≡ success op.now args.now }
    ensures here { IfSome result (λ answer. CanFill answer args.now (data_len op.now)) }
{
    match op {
        Op::Read(_) | Op::Write { .. } | Op::Flush | Op::Identify => ata_answer(op, args),
        Op::Config { .. } => told(config_args_len(args), args),
        Op::Masks { .. } => told(mask_args_len(args), args),
        Op::Reserve { .. } => told(reserve_args_len(args), args),
    }
}

/// What a response says, by its header and the bytes from byte 24 on, or `None` where it isn't
/// well formed for the operation.
#[tactic(auto, unfolding(crate::specs::Response::answer))]
pub fn read_answer(op: &Op, header: &Header, args: &[u8]) -> Option<Answer>
    ensures value { result ≡ answer op.now header.now args.now }
    ensures here { IfSome result (λ answer. CanFill answer args.now (data_len op.now)) }
{
    if header.flags & ERROR_FLAG != 0 {
        return Some(Answer::AoeError(header.error));
    }
    read_success(op, args)
}

impl Answer {
    /// The outcome, with its data in `room`, which has as many bytes. No memory is taken.
    pub(crate) fn into_outcome(self, args: &[u8], room: Blob) -> Outcome
        requires { CanFill self args.now (length room) }
        ensures { result ≡ outcome_of self args.now }
    {
        match self {
            Answer::Data { len } => {
                let mut data = room;
                data.fill(&args[ARGS_LEN..ARGS_LEN + len]);
                Outcome::Read(data)
            }
            Answer::Written => Outcome::Written,
            Answer::Flushed => Outcome::Flushed,
            Answer::Told { len } => {
                let mut told = Args::new();
                append(&mut told, &args[..len]);
                Outcome::Told(told)
            }
            Answer::AtaError { status, error } => Outcome::AtaError { status, error },
            Answer::AoeError(error) => Outcome::AoeError(error),
        }
    }
}
