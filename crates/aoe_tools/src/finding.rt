//! The tool that asks which devices there are.
ghost use Rattle.std.specs.Prelude.{◌≡◌, ◌≤◌, Err};
ghost use Rattle.aoe_base.specs.Faults.{Blamed};
ghost use Rattle.aoe_tools.specs.Discovery.{Discovers, finding_question, finding_request, unless_none};
ghost use Rattle.aoe_tools.specs.Runs.{RunsDiscovery, told};

use crate::asking::listen;
use crate::end::ToolRefusal;
use crate::found::Found;
use crate::lists::args_of;
use crate::question::{Ask, Question, Subject};
use crate::request::config_request;
use crate::wait::Wait;
use aoe_base::{Failed, NoMemory, TargetId};
use aoe_frame::{Frame, HEADER_LEN};
use aoe_io::{Clock, Link};
use std::alloc::Global;

/// Every device (AoEr11, "Major" and "Minor").
const EVERYONE: TargetId = TargetId {
    major: 0xffff,
    minor: 0xff,
};

/// The devices, where there are any.
fn unless_none(found: Found, turns: u32) -> Result<Found, ToolRefusal>
    ensures { result ≡ unless_none turns found }
{
    if found.count() == 0 {
        return Err(ToolRefusal::Unanswered { turns });
    }
    Ok(found)
}

/// Takes all turns, and notes who answers.
fn find_all<L: Link>(
    alloc: Global,
    question: &Question,
    request: &Frame,
    turns: u32,
    link: &mut L,
) -> Result<Found, ToolRefusal>
    ensures run { Discovers result question.now request.now.items turns (L.turns link.old)
        (L.turns link.new) (L.given link.old) (L.given link.new) (L.taken link.old)
        (L.taken link.new) }
    ensures count { L.faults link.old ≤ L.faults link.new }
    ensures link { Blamed (result ≡ Err ToolRefusal.LinkFault) (L.faults link.old)
        (L.faults link.new) }
{
    let mut found = Found::new(alloc);
    let mut frame = Frame::new();
    let mut wait = Wait::new();
    'responses: loop {
        let reply = match listen(question, request, turns, &mut wait, link, &mut frame) {
            Ok(Some(reply)) => reply,
            Ok(None) => break,
            Err(Failed) => return Err(ToolRefusal::LinkFault),
        };
        let args = args_of(reply, &frame[HEADER_LEN..]);
        match found.note(reply.id, reply.source, args) {
            Ok(()) => {}
            Err(NoMemory) => return Err(ToolRefusal::NoMemory),
        }
    }
    unless_none(found, turns)
}

/// Asks every device for its config string, in all of the turns, and notes who answers. `first` is
/// the clock's first answer.
pub(crate) fn find<L: Link>(
    alloc: Global,
    first: u64,
    ask: &Ask,
    link: &mut L,
) -> Result<Found, ToolRefusal>
    ensures run { Discovers result (finding_question first ask.now.port)
        (finding_request first ask.now.port) ask.now.turns (L.turns link.old) (L.turns link.new)
        (L.given link.old) (L.given link.new) (L.taken link.old) (L.taken link.new) }
    ensures count { L.faults link.old ≤ L.faults link.new }
    ensures link { Blamed (result ≡ Err ToolRefusal.LinkFault) (L.faults link.old)
        (L.faults link.new) }
{
    let question = ask.question(Subject::Config, None, first, 0);
    let mut request = Frame::new();
    config_request(0, b"", EVERYONE, ask.port, question.tag, &mut request);
    find_all(alloc, &question, &request, ask.turns, link)
}

/// Asks every device for its config string, in all of the turns, and gives those that answer, each
/// with the string of its latest response.
pub fn discover<L: Link, C: Clock>(
    alloc: Global,
    ask: &Ask,
    link: &mut L,
    clock: &mut C,
) -> Result<Found, ToolRefusal>
    ensures run { RunsDiscovery result ask.now
        (told C.least C.answers L.turns L.given L.taken clock.old clock.new link.old link.new) }
    ensures count { L.faults link.old ≤ L.faults link.new }
    ensures link { Blamed (result ≡ Err ToolRefusal.LinkFault) (L.faults link.old)
        (L.faults link.new) }
{
    find(alloc, clock.now(), ask, link)
}
