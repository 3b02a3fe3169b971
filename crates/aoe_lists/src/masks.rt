//! The mask list (AoEr11, "MAC Mask List", command 2).
//!
//! | Byte | Size | Field |
//! |---|---|---|
//! | 0 | 1 | reserved |
//! | 1 | 1 | MCmd |
//! | 2 | 1 | MError |
//! | 3 | 1 | Dir Count |
//! | 4 | 8 each | directives: reserved, DCmd, address |
ghost use Rattle.std.specs.Prelude.{◌≡◌, ◌≢◌, ◌≤◌, ◌*◌, ◌++◌, Ok, Err, true, MatchResult, OnErr, length, map};
ghost use Rattle.std.specs.Option.{option_map};
ghost use Rattle.aoe_lists.specs.Addresses.{without};
ghost use Rattle.aoe_lists.specs.Masks.{directive_of, after_directive, after_directives, mask_answer, mask_args, mask_code, mask_command_of, mask_result, mask_edit, mask_error_code, mask_failure, mask_request};
ghost use Rattle.aoe_lists.specs.Step.{step_with, success_of};
ghost use Rattle.aoe_base.specs.Addresses.{all_unique};

use crate::args::pieces;
use crate::{AddressList, Answer, Args, Lists};
use aoe_base::{AoeError, Mac, append};

/// Why a mask edit was refused, as its reply's field MError says.
#[derive(Clone, Copy, Debug, PartialEq, Eq)]
pub enum MaskError {
    /// 1: no reason is given. No edit here ends with it.
    Unspecified,

    /// 2: a directive has an unknown DCmd.
    BadDirective,

    /// 3: the list has no room for an address.
    ListFull,
}

/// One change of a mask list, by its field DCmd.
#[derive(Clone, Copy, PartialEq, Eq)]
pub enum Directive {
    /// 0: does nothing.
    Nothing,

    /// 1: adds the address at the end, where it isn't in the list.
    Add(Mac),

    /// 2: takes the address out.
    Delete(Mac),

    /// Any other value.
    Unknown,
}

/// What is done with the mask list, by the request's field MCmd.
#[derive(Clone, Copy, PartialEq, Eq)]
pub enum MaskCommand {
    /// 0: reads it.
    Read,

    /// 1: applies the directives.
    Edit,
}

/// How many bytes stand before the directives.
const DIRECTIVES_AT: usize = 4;

impl MaskCommand {
    /// The command of a value of MCmd.
    fn of(code: u8) -> Option<MaskCommand>
        ensures { result ≡ mask_command_of code }
    {
        match code {
            0 => Some(MaskCommand::Read),
            1 => Some(MaskCommand::Edit),
            _ => None,
        }
    }

    /// Its value of MCmd.
    pub fn code(self) -> u8
        ensures { result ≡ mask_code self }
    {
        match self {
            MaskCommand::Read => 0,
            MaskCommand::Edit => 1,
        }
    }
}

impl MaskError {
    /// Its value of MError.
    pub fn code(self) -> u8
        ensures { result ≡ mask_error_code self }
    {
        match self {
            MaskError::Unspecified => 1,
            MaskError::BadDirective => 2,
            MaskError::ListFull => 3,
        }
    }
}

/// The command of a request and its directives, where the request has both. A read has no
/// directive, and its count isn't looked at.
fn read_request(bytes: &[u8]) -> Option<(MaskCommand, &[[u8; 8]])>
    ensures { option_map (λ r. (r.0, map directive_of r.1.now)) result ≡ mask_request bytes.now }
{
    if bytes.len() < DIRECTIVES_AT {
        return None;
    }
    let rest = &bytes[DIRECTIVES_AT..];
    match MaskCommand::of(bytes[1])? {
        MaskCommand::Read => Some((MaskCommand::Read, pieces(rest, 0))),
        MaskCommand::Edit => {
            let count = usize::from(bytes[3]);
            if 8 * count > rest.len() {
                return None;
            }
            Some((MaskCommand::Edit, pieces(rest, count)))
        }
    }
}

/// The directive that eight bytes say.
fn read_directive(bytes: &[u8; 8]) -> Directive
    ensures { result ≡ directive_of bytes.now }
{
    let [_, command, a, b, c, d, e, f] = *bytes;
    let address = Mac([a, b, c, d, e, f]);
    match command {
        0 => Directive::Nothing,
        1 => Directive::Add(address),
        2 => Directive::Delete(address),
        _ => Directive::Unknown,
    }
}

/// Adds an address at the end, where it isn't in the list.
fn add(masks: &mut AddressList, address: Mac) -> Result<(), MaskError>
    ensures applied { MatchResult result
        (λ _. after_directive masks.old.items (Directive.Add address) ≡ Ok masks.new.items)
        (λ e. after_directive masks.old.items (Directive.Add address) ≡ Err e) }
    ensures refused { OnErr result (masks.new.items ≡ masks.old.items) }
{
    if masks.contains(&address) {
        return Ok(());
    }
    match masks.try_push(address) {
        Ok(()) => Ok(()),
        Err(_) => Err(MaskError::ListFull),
    }
}

/// Takes an address out; the others close up.
fn delete(masks: &mut AddressList, address: Mac)
    ensures { masks.new.items ≡ without masks.old.items address }
{
    masks.retain(|mask| *mask != address);
}

/// Applies one directive, or says why it can't be applied.
fn apply(masks: &mut AddressList, directive: Directive) -> Result<(), MaskError>
    ensures applied { MatchResult result
        (λ _. after_directive masks.old.items directive ≡ Ok masks.new.items)
        (λ e. after_directive masks.old.items directive ≡ Err e) }
    ensures refused { OnErr result (masks.new.items ≡ masks.old.items) }
{
    match directive {
        Directive::Nothing => Ok(()),
        Directive::Add(address) => add(masks, address),
        Directive::Delete(address) => {
            delete(masks, address);
            Ok(())
        }
        Directive::Unknown => Err(MaskError::BadDirective),
    }
}

/// Applies directives in their order, up to the first that can't be applied.
fn edit(masks: &mut AddressList, directives: &[[u8; 8]]) -> Result<(), MaskError>
    requires { all_unique masks.old.items ≡ true }
    ensures once { all_unique masks.new.items ≡ true }
    ensures applied { let changes = map directive_of directives.now in MatchResult result
        (λ _. after_directives masks.old.items changes ≡ Ok masks.new.items)
        (λ e. after_directives masks.old.items changes ≡ Err e) }
{
    for bytes in directives {
        apply(masks, read_directive(bytes))?;
    }
    Ok(())
}

/// Makes `args` those of a reply with the list.
fn write_args(command: MaskCommand, masks: &AddressList, args: &mut Args)
    ensures { args.new.items ≡ mask_args command masks.now.items }
{
    args.clear();
    append(args, &[0, command.code(), 0, masks.len() as u8]);
    for mask in masks.as_slice() {
        append(args, &[0, 0]);
        append(args, &mask.0);
    }
}

/// Makes `args` those of a reply to an edit that is refused.
fn write_failure(error: MaskError, args: &mut Args)
    ensures { args.new.items ≡ mask_failure error }
{
    args.clear();
    append(args, &[0, MaskCommand::Edit.code(), error.code(), 0]);
}

/// Makes the masks of `next` the list, whose other parts are there.
fn set(lists: &Lists, next: &Lists, args: &mut Args) -> Answer
    requires { next.now ≡ record lists.now { masks = next.now.masks } }
    ensures { step_with result args.new.items next.now ≡ success_of lists.now
        (record lists.now { masks = next.now.masks }) (mask_args MaskCommand.Edit next.now.masks) }
{
    write_args(MaskCommand::Edit, &next.masks, args);
    if next.masks == lists.masks {
        return Answer::Reply(None);
    }
    Answer::Change
}

/// Edits the list: all directives are applied, or none. They are tried on the masks of `next`.
fn change(lists: &Lists, directives: &[[u8; 8]], next: &mut Lists, args: &mut Args) -> Answer
    ensures { step_with result args.new.items next.new ≡ mask_edit lists.now
        (after_directives lists.now.masks (map directive_of directives.now)) }
{
    next.take(lists);
    match edit(&mut next.masks, directives) {
        Ok(()) => set(lists, next, args),
        Err(error) => {
            write_failure(error, args);
            Answer::Reply(None)
        }
    }
}

/// What a command does with its directives.
fn act(
    lists: &Lists,
    command: MaskCommand,
    directives: &[[u8; 8]],
    next: &mut Lists,
    args: &mut Args,
) -> Answer
    ensures { step_with result args.new.items next.new
        ≡ mask_result lists.now command (map directive_of directives.now) }
{
    match command {
        MaskCommand::Read => {
            write_args(command, &lists.masks, args);
            Answer::Reply(None)
        }
        MaskCommand::Edit => change(lists, directives, next, args),
    }
}

/// What a mask list request comes to. `bytes` are those of its frame from byte 24 on. `args` takes
/// the arguments of the reply, and `next` the lists that the request makes; what they held before
/// doesn't matter, and where there is none of it they may hold anything.
#[tactic(auto, unfolding(crate::specs::Masks::mask_answer))]
pub fn mask_step(lists: &Lists, bytes: &[u8], next: &mut Lists, args: &mut Args) -> Answer
    ensures answer { step_with result args.new.items next.new ≡ mask_answer lists.now bytes.now }
    ensures changes { result ≡ Answer.Change → next.new ≢ lists.now }
{
    match read_request(bytes) {
        Some((command, directives)) => act(lists, command, directives, next, args),
        None => {
            args.clear();
            Answer::Reply(Some(AoeError::BadArgument))
        }
    }
}
