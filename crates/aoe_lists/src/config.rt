//! The config string (AoEr11, "Query Config Information", command 1).
//!
//! | Byte | Size | Field |
//! |---|---|---|
//! | 0 | 2 | buffer count |
//! | 2 | 2 | firmware version |
//! | 4 | 1 | sector count |
//! | 5 | 1 | AoE version (high 4 bits), CCmd (low 4 bits) |
//! | 6 | 2 | length of the string |
//! | 8 | | string |
ghost use Rattle.std.specs.Prelude.{◌≡◌, ◌≢◌, ◌+◌, ◌≤◌, [], ◌∷◌, ◌++◌, IfSome, IsSome, Some, length};
ghost use Rattle.std.specs.Int.{w16, to_be_bytes};
ghost use Rattle.std.specs.Option.{option_map};
ghost use Rattle.aoe_lists.specs.Config.{config_answer, config_args, config_code, config_command_of, config_result, config_request};
ghost use Rattle.aoe_lists.specs.Settings.{max_config};
ghost use Rattle.aoe_lists.specs.Step.{reply_of, step_with, success_of};

use crate::lists::refill;
use crate::{Answer, Args, Lists, MAX_CONFIG};
use aoe_base::{AoeError, append};

/// What a device says of itself in each config reply.
#[derive(Clone, Copy, PartialEq, Eq)]
pub struct Facts {
    /// How many requests the device can hold while it works.
    pub buffers: u16,

    /// The version of its firmware.
    pub firmware: u16,

    /// The most sectors of one ATA command.
    pub max: u8,
}

/// What is done with the config string, by the request's field CCmd.
#[derive(Clone, Copy, PartialEq, Eq)]
pub enum ConfigCommand {
    /// 0: reads it.
    Read,

    /// 1: is answered only where it equals the argument.
    Test,

    /// 2: is answered only where it begins with the argument.
    TestPrefix,

    /// 3: sets it where it is empty. A set of the string that stands succeeds too, so that a host may
    /// repeat its request.
    Set,

    /// 4: sets it in any case.
    ForceSet,
}

/// The version of AoE in the high bits of byte 5.
const AOE_VERSION: u8 = 1;

/// How many bytes stand before the string.
const STRING_AT: usize = 8;

impl ConfigCommand {
    /// The command of a value of CCmd.
    fn of(code: u8) -> Option<ConfigCommand>
        ensures { result ≡ config_command_of code }
    {
        match code {
            0 => Some(ConfigCommand::Read),
            1 => Some(ConfigCommand::Test),
            2 => Some(ConfigCommand::TestPrefix),
            3 => Some(ConfigCommand::Set),
            4 => Some(ConfigCommand::ForceSet),
            _ => None,
        }
    }

    /// Its value of CCmd.
    pub fn code(self) -> u8
        ensures { result ≡ config_code self }
    {
        match self {
            ConfigCommand::Read => 0,
            ConfigCommand::Test => 1,
            ConfigCommand::TestPrefix => 2,
            ConfigCommand::Set => 3,
            ConfigCommand::ForceSet => 4,
        }
    }
}

/// The command of a request and its string, where the request has both. A read has no string, and
/// its length isn't looked at.
fn read_request(bytes: &[u8]) -> Option<(ConfigCommand, &[u8])>
    ensures request { option_map (λ r. (r.0, r.1.now)) result ≡ config_request bytes.now }
    ensures bound { IfSome result (λ r. length r.1.now ≤ max_config) }
{
    if bytes.len() < STRING_AT {
        return None;
    }
    let command = ConfigCommand::of(bytes[5] % 16)?;
    if command == ConfigCommand::Read {
        return Some((command, &[]));
    }
    let len = usize::from(u16::from_be_bytes([bytes[6], bytes[7]]));
    let rest = &bytes[STRING_AT..];
    if len > MAX_CONFIG || len > rest.len() {
        return None;
    }
    Some((command, &rest[..len]))
}

/// The bytes in front of a string of this length in the arguments of a reply.
#[inline(always)]
fn front(facts: &Facts, command: ConfigCommand, len: u16) -> [u8; 8]
    ensures { result ≡ to_be_bytes w16 facts.now.buffers ++ to_be_bytes w16 facts.now.firmware
        ++ (facts.now.max ∷ (16 + config_code command) ∷ []) ++ to_be_bytes w16 len }
{
    let [buffers_high, buffers_low] = facts.buffers.to_be_bytes();
    let [firmware_high, firmware_low] = facts.firmware.to_be_bytes();
    let version_command = AOE_VERSION * 16 + command.code();
    let [len_high, len_low] = len.to_be_bytes();
    [
        buffers_high,
        buffers_low,
        firmware_high,
        firmware_low,
        facts.max,
        version_command,
        len_high,
        len_low,
    ]
}

/// Makes `args` those of a reply, with the string that stands after the request.
fn write_args(facts: &Facts, command: ConfigCommand, string: &[u8], args: &mut Args)
    requires { length string.now ≤ max_config }
    ensures { args.new.items ≡ config_args facts.now command string.now }
{
    args.clear();
    append(args, &front(facts, command, string.len() as u16));
    append(args, string);
}

/// Replies with the string, and leaves it.
fn reply(
    facts: &Facts,
    command: ConfigCommand,
    error: Option<AoeError>,
    string: &[u8],
    args: &mut Args,
) -> Answer
    requires { length string.now ≤ max_config }
    ensures answer { result ≡ Answer.Reply error }
    ensures args { args.new.items ≡ config_args facts.now command string.now }
{
    write_args(facts, command, string, args);
    Answer::Reply(error)
}

/// Sets the string.
fn set(
    lists: &Lists,
    facts: &Facts,
    command: ConfigCommand,
    string: &[u8],
    next: &mut Lists,
    args: &mut Args,
) -> Answer
    requires { length string.now ≤ max_config }
    ensures { step_with result args.new.items next.new ≡ success_of lists.now
        (record lists.now { config = string.now }) (config_args facts.now command string.now) }
{
    write_args(facts, command, string, args);
    if string == lists.config.as_slice() {
        return Answer::Reply(None);
    }
    next.take(lists);
    refill(&mut next.config, string);
    Answer::Change
}

/// What a command does with its string.
fn act(
    lists: &Lists,
    facts: &Facts,
    command: ConfigCommand,
    string: &[u8],
    next: &mut Lists,
    args: &mut Args,
) -> Answer
    requires { length string.now ≤ max_config }
    ensures { step_with result args.new.items next.new
        ≡ config_result lists.now facts.now command string.now }
{
    let current = lists.config.as_slice();
    match command {
        ConfigCommand::Read => reply(facts, command, None, current, args),
        ConfigCommand::Test if current == string => reply(facts, command, None, current, args),
        ConfigCommand::TestPrefix if current.starts_with(string) => {
            reply(facts, command, None, current, args)
        }
        ConfigCommand::Test | ConfigCommand::TestPrefix => Answer::Silent,
        ConfigCommand::Set if !current.is_empty() && current != string => {
            let error = Some(AoeError::ConfigStringPresent);
            reply(facts, command, error, current, args)
        }
        ConfigCommand::Set | ConfigCommand::ForceSet => {
            set(lists, facts, command, string, next, args)
        }
    }
}

/// The arguments of the reply to a request that reads an empty string, and `None` for any other
/// request. They are what [`config_step`] writes, without a step.
#[inline(always)]
pub fn empty_config_args(lists: &Lists, facts: &Facts, bytes: &[u8]) -> Option<[u8; 8]>
    ensures args { IfSome result (λ args. config_answer lists.now facts.now bytes.now
        ≡ reply_of args) }
    ensures told { lists.now.config ≡ [] → config_request bytes.now ≡ Some (ConfigCommand.Read, [])
        → IsSome result }
{
    if !lists.config.is_empty() || bytes.len() < STRING_AT || bytes[5] % 16 != 0 {
        return None;
    }
    Some(front(facts, ConfigCommand::Read, 0))
}

/// What a query config request comes to. `bytes` are those of its frame from byte 24 on. `args`
/// takes the arguments of the reply, and `next` the lists that the request makes; what they held
/// before doesn't matter, and where there is none of it they may hold anything.
#[tactic(auto, unfolding(crate::specs::Config::config_answer))]
pub fn config_step(
    lists: &Lists,
    facts: &Facts,
    bytes: &[u8],
    next: &mut Lists,
    args: &mut Args,
) -> Answer
    ensures answer { step_with result args.new.items next.new
        ≡ config_answer lists.now facts.now bytes.now }
    ensures changes { result ≡ Answer.Change → next.new ≢ lists.now }
{
    match read_request(bytes) {
        Some((command, string)) => act(lists, facts, command, string, next, args),
        None => {
            args.clear();
            Answer::Reply(Some(AoeError::BadArgument))
        }
    }
}
