//! The reserve list (AoEr11, "Reserve / Release", command 3).
//!
//! | Byte | Size | Field |
//! |---|---|---|
//! | 0 | 1 | RCmd |
//! | 1 | 1 | NMacs |
//! | 2 | 6 each | addresses |
ghost use Rattle.std.specs.Prelude.{◌≡◌, ◌≢◌, ◌≤◌, IfSome, List, true, length};
ghost use Rattle.std.specs.Option.{option_map};
ghost use Rattle.aoe_lists.specs.Addresses.{first_places};
ghost use Rattle.aoe_lists.specs.Reserves.{addresses, reserve_answer, reserve_args, reserve_code, reserve_command_of, reserve_result, reserve_request, reserve_set};
ghost use Rattle.aoe_lists.specs.Settings.{max_addresses};
ghost use Rattle.aoe_lists.specs.Step.{step_with, success_of};
ghost use Rattle.aoe_base.specs.Addresses.{all_unique, holds};

use crate::args::pieces;
use crate::{AddressList, Answer, Args, Lists, MAX_ADDRESSES, may_use};
use aoe_base::{AoeError, Mac, append};

/// What is done with the reserve list, by the request's field RCmd.
#[derive(Clone, Copy, PartialEq, Eq)]
pub enum ReserveCommand {
    /// 0: reads it.
    Read,

    /// 1: sets it, where it is empty or has the source.
    Set,

    /// 2: sets it in any case.
    ForceSet,
}

/// How many bytes stand before the addresses.
const ADDRESSES_AT: usize = 2;

impl ReserveCommand {
    /// The command of a value of RCmd.
    fn of(code: u8) -> Option<ReserveCommand>
        ensures { result ≡ reserve_command_of code }
    {
        match code {
            0 => Some(ReserveCommand::Read),
            1 => Some(ReserveCommand::Set),
            2 => Some(ReserveCommand::ForceSet),
            _ => None,
        }
    }

    /// Its value of RCmd.
    pub fn code(self) -> u8
        ensures { result ≡ reserve_code self }
    {
        match self {
            ReserveCommand::Read => 0,
            ReserveCommand::Set => 1,
            ReserveCommand::ForceSet => 2,
        }
    }
}

/// The command of a request and its addresses, where the request has both. A read has no address,
/// and its count isn't looked at.
fn read_request(bytes: &[u8]) -> Option<(ReserveCommand, &[[u8; 6]])>
    ensures request { option_map (λ r. (r.0, addresses r.1.now)) result
        ≡ reserve_request bytes.now }
    ensures bound { IfSome result (λ r. length r.1.now ≤ max_addresses) }
{
    if bytes.len() < ADDRESSES_AT {
        return None;
    }
    let command = ReserveCommand::of(bytes[0])?;
    let rest = &bytes[ADDRESSES_AT..];
    if command == ReserveCommand::Read {
        return Some((command, pieces(rest, 0)));
    }
    let count = usize::from(bytes[1]);
    if count > MAX_ADDRESSES || 6 * count > rest.len() {
        return None;
    }
    Some((command, pieces(rest, count)))
}

/// Makes `list` the given addresses, without the later copies of each.
fn first_of_each(given: &[[u8; 6]], list: &mut AddressList)
    requires { length given.now ≤ max_addresses }
    ensures value { list.new.items ≡ first_places (addresses given.now) }
    ensures once { all_unique list.new.items ≡ true }
{
    list.clear();
    for six in given {
        let address = Mac(*six);
        if !list.contains(&address) {
            list.push(address);
        }
    }
}

/// Makes `args` those of a reply with the list.
fn write_args(command: ReserveCommand, reserves: &AddressList, args: &mut Args)
    ensures { args.new.items ≡ reserve_args command reserves.now.items }
{
    args.clear();
    append(args, &[command.code(), reserves.len() as u8]);
    for address in reserves.as_slice() {
        append(args, &address.0);
    }
}

/// Makes the given addresses the list.
fn set(
    lists: &Lists,
    command: ReserveCommand,
    given: &[[u8; 6]],
    next: &mut Lists,
    args: &mut Args,
) -> Answer
    requires { length given.now ≤ max_addresses }
    ensures { step_with result args.new.items next.new
        ≡ reserve_set lists.now command (addresses given.now) }
{
    next.take(lists);
    first_of_each(given, &mut next.reserves);
    write_args(command, &next.reserves, args);
    if next.reserves == lists.reserves {
        return Answer::Reply(None);
    }
    Answer::Change
}

/// What a command does with its addresses.
fn act(
    lists: &Lists,
    source: Mac,
    command: ReserveCommand,
    given: &[[u8; 6]],
    next: &mut Lists,
    args: &mut Args,
) -> Answer
    requires { length given.now ≤ max_addresses }
    ensures { step_with result args.new.items next.new
        ≡ reserve_result lists.now source command (addresses given.now) }
{
    match command {
        ReserveCommand::Read => {
            write_args(command, &lists.reserves, args);
            Answer::Reply(None)
        }
        ReserveCommand::Set if !may_use(lists, source) => {
            args.clear();
            Answer::Reply(Some(AoeError::TargetIsReserved))
        }
        ReserveCommand::Set | ReserveCommand::ForceSet => set(lists, command, given, next, args),
    }
}

/// What a reserve request comes to. `bytes` are those of its frame from byte 24 on. `args` takes the
/// arguments of the reply, and `next` the lists that the request makes; what they held before
/// doesn't matter, and where there is none of it they may hold anything.
#[tactic(auto, unfolding(crate::specs::Reserves::reserve_answer))]
pub fn reserve_step(
    lists: &Lists,
    source: Mac,
    bytes: &[u8],
    next: &mut Lists,
    args: &mut Args,
) -> Answer
    ensures answer { step_with result args.new.items next.new
        ≡ reserve_answer lists.now source bytes.now }
    ensures changes { result ≡ Answer.Change → next.new ≢ lists.now }
{
    match read_request(bytes) {
        Some((command, given)) => act(lists, source, command, given, next, args),
        None => {
            args.clear();
            Answer::Reply(Some(AoeError::BadArgument))
        }
    }
}

/// A law: a set reserves the device for the given stations and no others, and names none twice.
pub fn reserves_are_the_given_stations()
    ensures given { (list : List Mac) (a : Mac) → holds (first_places list) a ≡ holds list a }
    ensures once { (list : List Mac) → all_unique (first_places list) ≡ true }
{}
