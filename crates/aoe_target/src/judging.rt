//! The shelf law's judging alone, without a store and without a keep: the verdict on a frame, what a
//! step of the lists comes to, and the reply that stands for a verdict and an effect.
//!
//! A target judges by the same code. What has only the frames of a wire, as an audit, judges by it what
//! a target may have replied.
ghost use Rattle.std.specs.Prelude.{◌≡◌, ◌≢◌, ◌≤◌, ◌^◌, ℕ, List, Some, true, drop, is_some, length};
ghost use Rattle.aoe_frame.specs.Header.{fields, head};
ghost use Rattle.aoe_lists.specs.Step.{step_with};
ghost use Rattle.aoe_target.specs.Device.{State};
ghost use Rattle.aoe_target.specs.Front.{data_front};
ghost use Rattle.aoe_target.specs.Law.{Allows, replied, step_of};
ghost use Rattle.aoe_target.specs.Reply.{ata_reply, data_reply, identity, repeated, spelled, step_reply};
ghost use Rattle.aoe_target.specs.Verdict.{CanAct, marked, verdict};
ghost use Rattle.aoe_target.specs.declared.heard.Effect.{Effect};
ghost use Rattle.aoe_target.specs.declared.station.Station.{Station as AnyStation};
ghost use Rattle.aoe_target.specs.declared.verdict.Verdict.{Verdict as AnyVerdict};

pub use crate::scratch::Scratch;
use crate::verdict::{args_of, header_of, judge, step};
use crate::{ListCommand, Station, Verdict, reply};
use aoe_ata::{AtaAnswer, AtaArgs, AtaDecision, AtaOutcome};
use aoe_base::AoeError;
use aoe_frame::{Frame, HeaderView, stretch};
use aoe_lists::{Answer, Lists};

/// What a target with these lists does with a frame.
#[tactic(auto, unfolding(crate::specs::Verdict::verdict))]
pub fn verdict_on(station: &Station, lists: &Lists, frame: &[u8]) -> Verdict
    ensures verdict { result ≡ verdict station.now lists.now frame.now }
    ensures can_act { CanAct station.now (drop 24 frame.now) result }
    ensures heard { result ≢ Verdict.Ignored → is_some (head frame.now) ≡ true }
{
    match header_of(frame) {
        Some(header) => {
            let verdict = judge(station, lists, None, &header, args_of(frame));
            with_mark(lists.read_only, verdict)
        }
        None => Verdict::Ignored,
    }
}

/// What is done with a frame by a device that may be read-only, which aborts a write within it.
fn with_mark(read_only: bool, verdict: Verdict) -> Verdict
    ensures { result ≡ marked read_only verdict }
{
    match verdict {
        Verdict::Ata(
            AtaDecision {
                args,
                answer: AtaAnswer::Put(_),
            },
        ) if read_only => Verdict::Ata(AtaDecision {
            args,
            answer: AtaAnswer::Abort,
        }),
        _ => verdict,
    }
}

/// What a request comes to that reads or changes the lists. The arguments of its reply and the lists
/// that it makes stand in `scratch`.
pub fn list_answer(
    station: &Station,
    lists: &Lists,
    frame: &[u8],
    command: ListCommand,
    scratch: &mut Scratch,
) -> Answer
    requires { is_some (head frame.now) ≡ true }
    ensures { step_with result scratch.new.args.items scratch.new.next
        ≡ step_of station.now lists.now frame.now command }
{
    let header = head_of(frame);
    step(
        station,
        lists,
        header.src(),
        args_of(frame),
        command,
        scratch,
    )
}

/// The header of a frame that has one.
fn head_of(frame: &[u8]) -> HeaderView<'_>
    requires { is_some (head frame.now) ≡ true }
    ensures fields { result ≡ fields frame.now }
    ensures len { 24 ≤ length frame.now }
{
    match header_of(frame) {
        Some(header) => header,
        None => unreachable!(),
    }
}

/// Makes `out` the reply that bears an error and repeats the arguments of the request.
pub fn put_refusal(station: &Station, frame: &[u8], error: AoeError, out: &mut Frame)
    requires { is_some (head frame.now) ≡ true }
    ensures { out.new.items
        ≡ spelled station.now (fields frame.now) (Some error) (repeated frame.now) }
{
    reply::refuse(station, &head_of(frame), frame, error, out);
}

/// Makes `out` the reply to a request that reads or changes the lists, with or without an error, and
/// with the arguments that its step gave.
pub fn put_step(
    station: &Station,
    frame: &[u8],
    error: Option<AoeError>,
    args: &[u8],
    out: &mut Frame,
)
    requires header { is_some (head frame.now) ≡ true }
    requires room { length args.now ≤ 2048 }
    ensures { out.new.items ≡ step_reply station.now frame.now error args.now }
{
    reply::reply_step(station, &head_of(frame), frame, error, args, out);
}

/// Makes `out` the reply to an ATA command that has no data.
pub fn put_ata(
    station: &Station,
    frame: &[u8],
    args: &AtaArgs,
    outcome: AtaOutcome,
    out: &mut Frame,
)
    requires { is_some (head frame.now) ≡ true }
    ensures { out.new.items ≡ ata_reply station.now (fields frame.now) args.now outcome }
{
    reply::reply_ata(station, &head_of(frame), args, outcome, out);
}

/// Makes `out` what a reply with sectors has before these: its header and its registers.
pub fn put_front(station: &Station, frame: &[u8], args: &AtaArgs, out: &mut Frame)
    requires { is_some (head frame.now) ≡ true }
    ensures front { out.new.items ≡ data_front station.now (fields frame.now) args.now }
    ensures len { length out.new.items ≡ 36 }
{
    stretch(out, reply::DATA_AT);
    let header = head_of(frame);
    reply::put_front(station, &header, args, AtaOutcome::Done, out.as_mut_slice());
}

/// Makes `out` the reply with the identify page.
pub fn put_page(station: &Station, frame: &[u8], args: AtaArgs, out: &mut Frame)
    requires header { is_some (head frame.now) ≡ true }
    requires size { station.now.sectors ≤ 2 ^ 40 }
    ensures { out.new.items ≡ data_reply station.now (fields frame.now) args (identity station.now) }
{
    reply::reply_page(station, &head_of(frame), args, out);
}

/// A law: a reply tells what became of its request, since the shelf law allows no two effects with the
/// same reply.
pub fn a_reply_has_one_effect()
    ensures { (station : AnyStation) (k : State) (f : List ℕ) (v : AnyVerdict) (e d : Effect)
        (reply : List ℕ) → Allows station k f v (replied e reply)
        → Allows station k f v (replied d reply) → e ≡ d }
{}
