//! The loop of every request: it is sent, and a response is waited for.
ghost use Rattle.std.specs.Prelude.{◌≡◌, ◌≢◌, ◌≤◌, ◌<◌, ◌-◌, ◌^◌, Err, IfErr, IfOk, IfSome, None, OnErr, OnOk, is_err, true};
ghost use Rattle.aoe_base.specs.Faults.{Blamed};
ghost use Rattle.aoe_tools.specs.Asking.{CanRead};
ghost use Rattle.aoe_tools.specs.Listening.{asked_by, Listens, TakesTurn};
ghost use Rattle.aoe_tools.specs.One.{mask_refusal, refusal_of};
ghost use Rattle.aoe_tools.specs.LookUp.{unless_refusing, with_args, Asks};
ghost use Rattle.aoe_io.specs.Link.{Added};

use crate::end::{Refusal, ToolRefusal};
use crate::question::{Question, Reply, Subject};
use crate::wait::Wait;
use aoe_base::Failed;
use aoe_frame::{Frame, HEADER_LEN};
use aoe_initiator::Answer;
use aoe_io::{Got, Link};

/// Sends a request, where it is time.
fn send_due<L: Link>(request: &Frame, wait: Wait, link: &mut L) -> Result<(), Failed>
    ensures took { OnOk result (Added (L.taken link.old) (L.taken link.new)
        (asked_by request.now.items wait)) }
    ensures err { OnErr result (L.taken link.new ≡ L.taken link.old) }
    ensures given { L.given link.new ≡ L.given link.old }
    ensures turns { L.turns link.new ≡ L.turns link.old }
    ensures count { L.faults link.old ≤ L.faults link.new }
    ensures link { Blamed (is_err result ≡ true) (L.faults link.old) (L.faults link.new) }
{
    if !wait.is_due {
        return Ok(());
    }
    link.send(request.as_slice())
}

/// Sends a request, where it is time, and takes one turn of the link: the response that it brings,
/// where it counts. `frame` holds it then.
fn take_turn<L: Link>(
    question: &Question,
    request: &Frame,
    wait: &mut Wait,
    link: &mut L,
    frame: &mut Frame,
) -> Result<Option<Reply>, Failed>
    requires { wait.old.turns < 2 ^ 32 - 1 }
    ensures turn { TakesTurn result question.now request.now.items wait.old wait.new
        frame.new.items (L.turns link.old) (L.turns link.new) (L.given link.old)
        (L.given link.new) (L.taken link.old) (L.taken link.new) }
    ensures here { IfOk result (λ reply. IfSome reply (λ r. CanRead r.answer frame.new.items)) }
    ensures count { L.faults link.old ≤ L.faults link.new }
    ensures link { Blamed (is_err result ≡ true) (L.faults link.old) (L.faults link.new) }
{
    match send_due(request, *wait, link) {
        Ok(()) => {}
        Err(Failed) => return Err(Failed),
    }
    match link.recv(frame) {
        Ok(Got::Frame) => {
            *wait = wait.after_frame();
            Ok(question.reply(frame.as_slice()))
        }
        Ok(Got::Quiet) => {
            *wait = wait.after_silence();
            Ok(None)
        }
        Ok(Got::Ended) => {
            *wait = wait.after_silence();
            Ok(None)
        }
        Err(Failed) => Err(Failed),
    }
}

/// Waits for the next response that counts, until the request has waited for `limit` turns. `frame`
/// holds the response.
pub(crate) fn listen<L: Link>(
    question: &Question,
    request: &Frame,
    limit: u32,
    wait: &mut Wait,
    link: &mut L,
    frame: &mut Frame,
) -> Result<Option<Reply>, Failed>
    requires { wait.old.turns ≤ limit }
    ensures listens { Listens result question.now request.now.items limit wait.old wait.new frame.new.items (L.turns link.old) (L.turns link.new) (L.given link.old) (L.given link.new) (L.taken link.old) (L.taken link.new) }
    ensures here { IfOk result (λ reply. IfSome reply (λ r. CanRead r.answer frame.new.items)) }
    ensures within { wait.new.turns ≤ limit }
    ensures count { L.faults link.old ≤ L.faults link.new }
    ensures link { Blamed (is_err result ≡ true) (L.faults link.old) (L.faults link.new) }
{
    'turns: while wait.turns < limit {
        match take_turn(question, request, wait, link, frame) {
            Ok(None) => {}
            Ok(Some(reply)) => return Ok(Some(reply)),
            Err(Failed) => return Err(Failed),
        }
    }
    Ok(None)
}

/// What the field MError of a mask list response says, where the device refused.
fn mask_refusal(subject: Subject, args: &[u8]) -> Option<Refusal>
    ensures { result ≡ mask_refusal subject args.now }
{
    match subject {
        Subject::Masks => match args.get(2) {
            Some(error) if *error != 0 => Some(Refusal::Mask(*error)),
            _ => None,
        },
        Subject::Config | Subject::Reserve | Subject::Page => None,
    }
}

/// How a response refuses.
fn refusal_of(subject: Subject, answer: Answer, args: &[u8]) -> Option<Refusal>
    ensures { result ≡ refusal_of subject answer args.now }
{
    match answer {
        Answer::AoeError(error) => Some(Refusal::Aoe(error)),
        Answer::AtaError { status, error } => Some(Refusal::Ata { status, error }),
        Answer::Told { .. } => mask_refusal(subject, args),
        Answer::Data { .. } | Answer::Written | Answer::Flushed => None,
    }
}

/// A response, where it doesn't refuse.
fn unless_refused(subject: Subject, reply: Reply, args: &[u8]) -> Result<Reply, ToolRefusal>
    ensures accepted { IfOk result (λ r. (r ≡ reply)
        × (refusal_of subject reply.answer args.now ≡ None)) }
    ensures refused { IfErr result (λ e. unless_refusing (refusal_of subject reply.answer args.now)
        (record { reply = reply; args = args.now }) ≡ Err e) }
    ensures untold { result ≢ Err ToolRefusal.LinkFault }
{
    match refusal_of(subject, reply.answer, args) {
        Some(refusal) => Err(ToolRefusal::Refused(refusal)),
        None => Ok(reply),
    }
}

/// Asks until the first response that counts, which `frame` holds then.
pub(crate) fn ask<L: Link>(
    question: &Question,
    request: &Frame,
    turns: u32,
    link: &mut L,
    frame: &mut Frame,
) -> Result<Reply, ToolRefusal>
    ensures asks { Asks (with_args frame.new.items result) question.now request.now.items turns
        (record { turns = L.turns link.old; given = L.given link.old; taken = L.taken link.old })
        (record { turns = L.turns link.new; given = L.given link.new; taken = L.taken link.new }) }
    ensures here { IfOk result (λ r. CanRead r.answer frame.new.items) }
    ensures count { L.faults link.old ≤ L.faults link.new }
    ensures link { Blamed (result ≡ Err ToolRefusal.LinkFault) (L.faults link.old)
        (L.faults link.new) }
{
    let mut wait = Wait::new();
    match listen(question, request, turns, &mut wait, link, frame) {
        Ok(Some(reply)) => unless_refused(question.subject, reply, &frame[HEADER_LEN..]),
        Ok(None) => Err(ToolRefusal::Unanswered { turns }),
        Err(Failed) => Err(ToolRefusal::LinkFault),
    }
}
