//! What a target does with a frame: the checks in their order, of which the first that applies
//! decides.
ghost use Rattle.std.specs.Prelude.{◌≡◌, ◌≤◌, IfSome, drop, is_some, length};
ghost use Rattle.aoe_frame.specs.Header.{fields, head};
ghost use Rattle.aoe_lists.specs.Settings.{admits, may_use};
ghost use Rattle.aoe_lists.specs.Step.{step_with};
ghost use Rattle.aoe_target.specs.Admission.{AdmitsAs};
ghost use Rattle.aoe_target.specs.Verdict.{ata_verdict, judged, list_command_of, list_step, marked, CanAct};

use crate::Station;
use crate::admission::Admission;
use crate::scratch::Scratch;
use aoe_ata::{AtaDecision, decide};
use aoe_base::{AoeError, Mac};
use aoe_frame::{HEADER_LEN, HeaderView};
use aoe_lists::{
    Answer, Lists, admits, answers_all, config_step, mask_step, may_use, reserve_step, serves_all,
};

/// The command "ATA" (AoEr11, "Command").
const ATA: u8 = 0;

/// The command "Query Config Information".
const QUERY_CONFIG: u8 = 1;

/// The command "MAC Mask List".
const MASK_LIST: u8 = 2;

/// The command "Reserve / Release".
const RESERVE_RELEASE: u8 = 3;

/// The one version of the protocol.
const AOE_VERSION: u8 = 1;

/// The part of the lists that a request reads or changes.
#[derive(Clone, Copy, PartialEq, Eq, Hash)]
pub enum ListCommand {
    Config,
    Masks,
    Reserves,
}

/// What a target does with a frame.
#[derive(Clone, Copy, PartialEq, Eq, Hash)]
pub enum Verdict {
    /// Nothing: it isn't for this target.
    Ignored,

    /// Nothing: the target doesn't answer its source.
    Silent,

    /// The reply bears an error and repeats the arguments.
    Refused(AoeError),

    /// What the step of the lists says.
    Lists(ListCommand),

    /// What is decided on an ATA command.
    Ata(AtaDecision),
}

/// The header of a frame, where it has one.
#[inline(always)]
pub(crate) fn header_of(frame: &[u8]) -> Option<HeaderView<'_>>
    ensures there { is_some result ≡ is_some (head frame.now) }
    ensures fields { IfSome result (λ h. h ≡ fields frame.now) }
    ensures len { IfSome result (λ h. 24 ≤ length frame.now) }
{
    HeaderView::of(frame)
}

/// The bytes behind the header of a frame.
#[inline(always)]
pub(crate) fn args_of(frame: &[u8]) -> &[u8]
    requires { 24 ≤ length frame.now }
    ensures { result.now ≡ drop 24 frame.now }
{
    &frame[HEADER_LEN..]
}

/// Whether the target answers the source of a frame. Where it answers every station, the source isn't
/// read. An admission by these lists finds it sooner.
#[inline(always)]
fn is_admitted(lists: &Lists, admission: Option<&Admission>, header: &HeaderView<'_>) -> bool
    requires { IfSome admission (λ a. AdmitsAs a.now lists.now) }
    ensures { result ≡ admits lists.now header.now.src }
{
    answers_all(lists)
        || match admission {
            Some(admission) => admission.masks.lets_in(header.src()),
            None => admits(lists, header.src()),
        }
}

/// Whether the target does ATA commands of the source of a frame.
#[inline(always)]
fn is_served(lists: &Lists, admission: Option<&Admission>, header: &HeaderView<'_>) -> bool
    requires { IfSome admission (λ a. AdmitsAs a.now lists.now) }
    ensures { result ≡ may_use lists.now header.now.src }
{
    serves_all(lists)
        || match admission {
            Some(admission) => admission.reserves.lets_in(header.src()),
            None => may_use(lists, header.src()),
        }
}

/// What a target does with an ATA command, but for a read-only mark.
#[inline(always)]
fn judge_ata(
    station: &Station,
    lists: &Lists,
    admission: Option<&Admission>,
    header: &HeaderView<'_>,
    args: &[u8],
) -> Verdict
    requires { IfSome admission (λ a. AdmitsAs a.now lists.now) }
    ensures verdict { marked lists.now.read_only result
        ≡ ata_verdict station.now lists.now header.now.src args.now }
    ensures can_act { CanAct station.now args.now result }
{
    if !is_served(lists, admission, header) {
        return Verdict::Refused(AoeError::TargetIsReserved);
    }
    match decide(station.sectors, station.max, args) {
        Ok(decision) => Verdict::Ata(decision),
        Err(error) => Verdict::Refused(error),
    }
}

/// The part of the lists that a command is about, where it is one of those.
#[inline(never)]
fn list_command(command: u8) -> Option<ListCommand>
    ensures { result ≡ list_command_of command }
{
    match command {
        QUERY_CONFIG => Some(ListCommand::Config),
        MASK_LIST => Some(ListCommand::Masks),
        RESERVE_RELEASE => Some(ListCommand::Reserves),
        _ => None,
    }
}

/// What a target does with a frame that has this header and these bytes behind it, but for a read-only
/// mark, which is looked at where a write would be done.
#[inline(always)]
pub(crate) fn judge(
    station: &Station,
    lists: &Lists,
    admission: Option<&Admission>,
    header: &HeaderView<'_>,
    args: &[u8],
) -> Verdict
    requires { IfSome admission (λ a. AdmitsAs a.now lists.now) }
    ensures verdict { marked lists.now.read_only result
        ≡ judged station.now lists.now header.now args.now }
    ensures can_act { CanAct station.now args.now result }
{
    if !station.hears(header) {
        return Verdict::Ignored;
    }
    if !is_admitted(lists, admission, header) {
        return Verdict::Silent;
    }
    if header.version() != AOE_VERSION {
        return Verdict::Refused(AoeError::UnsupportedVersion);
    }
    if header.command() == ATA {
        return judge_ata(station, lists, admission, header, args);
    }
    match list_command(header.command()) {
        Some(command) => Verdict::Lists(command),
        None => Verdict::Refused(AoeError::UnrecognizedCommand),
    }
}

/// What a request comes to that reads or changes the lists. The arguments of its reply and the lists
/// that it makes stand in `scratch`.
#[inline(always)]
pub(crate) fn step(
    station: &Station,
    lists: &Lists,
    source: Mac,
    args: &[u8],
    command: ListCommand,
    scratch: &mut Scratch,
) -> Answer
    ensures { step_with result scratch.new.args.items scratch.new.next
        ≡ list_step station.now lists.now source args.now command }
{
    let Scratch { next, args: told } = scratch;
    match command {
        ListCommand::Config => config_step(lists, &station.facts(), args, next, told),
        ListCommand::Masks => mask_step(lists, args, next, told),
        ListCommand::Reserves => reserve_step(lists, source, args, next, told),
    }
}
