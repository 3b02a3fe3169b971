//! The tool that finds the devices and asks them for their pages.
ghost use Rattle.std.specs.Prelude.{◌≡◌, ◌≤◌, ◌<◌, ◌-◌, ◌^◌, Err, IfSome, length, is_err, true};
ghost use Rattle.aoe_base.specs.Faults.{Blamed};
ghost use Rattle.aoe_initiator.specs.Response.{CanFill};
ghost use Rattle.aoe_initiator.specs.declared.op.FlushCommand.TheVariants.{CacheExt};
ghost use Rattle.aoe_initiator.specs.declared.op.Op.TheVariants as op;
ghost use Rattle.aoe_initiator.specs.Request.{request};
ghost use Rattle.aoe_tools.specs.Page.{known_by, state_by};
ghost use Rattle.aoe_tools.specs.Runs.{RunsStat, told};
ghost use Rattle.aoe_tools.specs.Visits.{AsksPage, VisitsAll, VisitsOne, first_port};

use crate::asking::listen;
use crate::end::ToolRefusal;
use crate::finding::find;
use crate::found::{Found, Known, Seen, State};
use crate::page::total_in;
use crate::question::{Ask, Question, Subject};
use crate::wait::Wait;
use aoe_base::{BROADCAST, Failed, Mac};
use aoe_frame::{Frame, HEADER_LEN};
use aoe_initiator::{Answer, FlushCommand, Op, write_request};
use aoe_io::{Clock, Link};
use std::alloc::Global;

/// The error of a device that other stations reserve (AoEr11, "Error").
const IS_RESERVED: u8 = 6;

/// The state of a device by its response.
fn state_by(total: Option<u64>, answer: Answer) -> State
    ensures { result ≡ state_by total answer }
{
    match (total, answer) {
        (Some(_), _) => State::Up,
        (None, Answer::AoeError(IS_RESERVED)) => State::Reserved,
        (None, _) => State::Error,
    }
}

/// What a response says of its device.
fn known_by(answer: Answer, args: &[u8]) -> Known
    requires { CanFill answer args.now 512 }
    ensures { result ≡ known_by answer args.now }
{
    let total = total_in(answer, args);
    let state = state_by(total, answer);
    Known { total, state }
}

/// The port that answered first.
fn first_port(ports: &[Mac]) -> Mac
    ensures { result ≡ first_port ports.now }
{
    match ports.first() {
        Some(port) => *port,
        None => BROADCAST,
    }
}

/// Makes `out` the request for the page of a device.
fn page_request(seen: &Seen, port: Mac, tag: u32, out: &mut Frame)
    ensures { out.new.items ≡ request CacheExt op.Identify seen.now.id
        (first_port seen.now.ports.items) port tag }
{
    let remote = first_port(seen.ports.as_slice());
    write_request(
        &Op::Identify,
        FlushCommand::CacheExt,
        seen.id,
        remote,
        port,
        tag,
        out,
    );
}

/// Sends a request for a page, and waits for the first response that counts.
fn ask_page<L: Link>(
    question: &Question,
    request: &Frame,
    turns: u32,
    link: &mut L,
) -> Result<Known, Failed>
    ensures run { AsksPage result question.now request.now.items turns (L.turns link.old)
        (L.turns link.new) (L.given link.old) (L.given link.new) (L.taken link.old)
        (L.taken link.new) }
    ensures count { L.faults link.old ≤ L.faults link.new }
    ensures link { Blamed (is_err result ≡ true) (L.faults link.old) (L.faults link.new) }
{
    let mut frame = Frame::new();
    let mut wait = Wait::new();
    match listen(question, request, turns, &mut wait, link, &mut frame) {
        Ok(Some(reply)) => Ok(known_by(reply.answer, &frame[HEADER_LEN..])),
        Ok(None) => Ok(Known {
            total: None,
            state: State::Silent,
        }),
        Err(Failed) => Err(Failed),
    }
}

/// Asks device `i` for its page, and notes what it says.
fn visit<L: Link>(
    first: u64,
    i: usize,
    ask: &Ask,
    found: &mut Found,
    link: &mut L,
) -> Result<(), Failed>
    requires there { i < length found.old }
    requires number { i < 2 ^ 64 - 1 }
    ensures run { VisitsOne result first ask.now.port ask.now.turns i found.old found.new
        (L.turns link.old) (L.turns link.new) (L.given link.old) (L.given link.new)
        (L.taken link.old) (L.taken link.new) }
    ensures count { L.faults link.old ≤ L.faults link.new }
    ensures link { Blamed (is_err result ≡ true) (L.faults link.old) (L.faults link.new) }
{
    let seen = found.device(i);
    let question = ask.question(Subject::Page, Some(seen.id), first, i as u64 + 1);
    let mut request = Frame::new();
    page_request(seen, ask.port, question.tag, &mut request);
    match ask_page(&question, &request, ask.turns, link) {
        Ok(known) => {
            found.learn(i, known);
            Ok(())
        }
        Err(Failed) => Err(Failed),
    }
}

/// Asks the devices for their pages, one after the other.
fn visit_all<L: Link>(first: u64, ask: &Ask, found: &mut Found, link: &mut L) -> Result<(), Failed>
    ensures run { VisitsAll result first ask.now.port ask.now.turns found.old found.new
        (L.turns link.old) (L.turns link.new) (L.given link.old) (L.given link.new)
        (L.taken link.old) (L.taken link.new) }
    ensures count { L.faults link.old ≤ L.faults link.new }
    ensures link { Blamed (is_err result ≡ true) (L.faults link.old) (L.faults link.new) }
{
    'devices: for i in 0..found.count() {
        match visit(first, i, ask, found, link) {
            Ok(()) => {}
            Err(Failed) => return Err(Failed),
        }
    }
    Ok(())
}

/// Finds the devices, and then asks each for its page, at the port that answered first, until its
/// response comes.
pub fn stat<L: Link, C: Clock>(
    alloc: Global,
    ask: &Ask,
    link: &mut L,
    clock: &mut C,
) -> Result<Found, ToolRefusal>
    ensures run { RunsStat result ask.now
        (told C.least C.answers L.turns L.given L.taken clock.old clock.new link.old link.new) }
    ensures count { L.faults link.old ≤ L.faults link.new }
    ensures link { Blamed (result ≡ Err ToolRefusal.LinkFault) (L.faults link.old)
        (L.faults link.new) }
{
    let first = clock.now();
    let mut found = match find(alloc, first, ask, link) {
        Ok(found) => found,
        Err(refusal) => return Err(refusal),
    };
    match visit_all(first, ask, &mut found, link) {
        Ok(()) => Ok(found),
        Err(Failed) => Err(ToolRefusal::LinkFault),
    }
}
