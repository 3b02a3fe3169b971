//! The device that a copy goes to: where it is, and how long it is.
ghost use Rattle.std.specs.Prelude.{◌≡◌, ◌≤◌, ◌<◌, ◌^◌, Err, IfOk, Result};
ghost use Rattle.aoe_base.specs.Faults.{Blamed};
ghost use Rattle.aoe_tools.specs.Asking.{Response};
ghost use Rattle.aoe_tools.specs.declared.end.ToolRefusal.{ToolRefusal as Refused};
ghost use Rattle.aoe_tools.specs.LookUp.{config_frame, config_question, look_up_turns, max_of, page_facts, page_frame, page_question, port_in, Asks, Finds};

use crate::asking::ask;
use crate::end::ToolRefusal;
use crate::page::{flush_in, total_in};
use crate::question::{Ask, Subject};
use crate::request::config_request;
use aoe_base::{Mac, TargetId};
use aoe_frame::{Frame, HEADER_LEN};
use aoe_initiator::{FlushCommand, Op, write_request};
use aoe_io::Link;

/// How many turns a request of a look-up waits at most: three seconds on a link where nothing comes,
/// since a turn waits 10 ms there.
const LOOK_UP_TURNS: u32 = 300;

/// A device that answered.
#[derive(Clone, Copy, PartialEq, Eq)]
pub struct Device {
    /// The address that it answered from.
    pub port: Mac,

    /// How many sectors a command has at most.
    pub max: u32,

    /// How many sectors the device has.
    pub total: u64,

    /// The command by which it is flushed.
    pub flush: FlushCommand,
}

/// How many sectors a command has at most, by the arguments of a query config response: as many as
/// the device says (AoEr11, "Query Config Information", Sector Count), but one at least, and no more
/// than `most`.
fn max_of(args: &[u8], most: u32) -> u32
    requires { 0 < most }
    ensures value { result ≡ max_of most args.now }
    ensures some { 0 < result }
    ensures few { result ≤ most }
{
    match args.get(4) {
        Some(count) if *count > 1 => most.min(u32::from(*count)),
        _ => 1,
    }
}

/// How many turns a request of a look-up waits.
fn turns_of(ask_by: &Ask) -> u32
    ensures { result ≡ look_up_turns ask_by.now }
{
    ask_by.turns.min(LOOK_UP_TURNS)
}

/// Asks a device where it is, and how many sectors it takes in one command.
fn find_port<L: Link>(
    ask_by: &Ask,
    id: TargetId,
    first: u64,
    most: u32,
    link: &mut L,
) -> Result<(Mac, u32), ToolRefusal>
    requires { 0 < most }
    ensures asks { (r : Result Response Refused) × Asks r (config_question ask_by.now id first) (config_frame ask_by.now id first) (look_up_turns ask_by.now) (record { turns = L.turns link.old; given = L.given link.old; taken = L.taken link.old }) (record { turns = L.turns link.new; given = L.given link.new; taken = L.taken link.new })
        × (result ≡ port_in most r) }
    ensures max { IfOk result (λ found. (0 < found.1) × (found.1 ≤ most)) }
    ensures count { L.faults link.old ≤ L.faults link.new }
    ensures link { Blamed (result ≡ Err ToolRefusal.LinkFault) (L.faults link.old)
        (L.faults link.new) }
{
    let question = ask_by.question(Subject::Config, Some(id), first, 0);
    let mut request = Frame::new();
    config_request(0, b"", id, ask_by.port, question.tag, &mut request);
    let mut frame = Frame::new();
    match ask(&question, &request, turns_of(ask_by), link, &mut frame) {
        Ok(reply) => Ok((reply.source, max_of(&frame[HEADER_LEN..], most))),
        Err(refusal) => Err(refusal),
    }
}

/// Asks a device at a port how many sectors it has, none where its page declares no number, and by
/// which command it is flushed.
fn find_page<L: Link>(
    ask_by: &Ask,
    id: TargetId,
    remote: Mac,
    first: u64,
    link: &mut L,
) -> Result<(u64, FlushCommand), ToolRefusal>
    ensures asks { (r : Result Response Refused) × Asks r (page_question ask_by.now id first) (page_frame ask_by.now id first remote) (look_up_turns ask_by.now) (record { turns = L.turns link.old; given = L.given link.old; taken = L.taken link.old }) (record { turns = L.turns link.new; given = L.given link.new; taken = L.taken link.new })
        × (result ≡ page_facts r) }
    ensures bound { IfOk result (λ found. found.0 < 2 ^ 48) }
    ensures count { L.faults link.old ≤ L.faults link.new }
    ensures link { Blamed (result ≡ Err ToolRefusal.LinkFault) (L.faults link.old)
        (L.faults link.new) }
{
    let question = ask_by.question(Subject::Page, Some(id), first, 1);
    let mut request = Frame::new();
    write_request(
        &Op::Identify,
        FlushCommand::CacheExt,
        id,
        remote,
        ask_by.port,
        question.tag,
        &mut request,
    );
    let mut frame = Frame::new();
    match ask(&question, &request, turns_of(ask_by), link, &mut frame) {
        Ok(reply) => {
            let args = &frame[HEADER_LEN..];
            let total = total_in(reply.answer, args).unwrap_or(0);
            Ok((total, flush_in(reply.answer, args)))
        }
        Err(refusal) => Err(refusal),
    }
}

/// Finds a device: where it is, how long, and by which command it is flushed. A command to it has at most `most` sectors. Each of the
/// two requests waits as many turns as `ask_by` says, but no more than 300.
pub fn look_up<L: Link>(
    ask_by: &Ask,
    id: TargetId,
    first: u64,
    most: u32,
    link: &mut L,
) -> Result<Device, ToolRefusal>
    requires { 0 < most }
    ensures finds { Finds result ask_by.now id first most
        (record { turns = L.turns link.old; given = L.given link.old; taken = L.taken link.old })
        (record { turns = L.turns link.new; given = L.given link.new; taken = L.taken link.new }) }
    ensures max { IfOk result (λ d. (0 < d.max) × (d.max ≤ most)) }
    ensures total { IfOk result (λ d. d.total < 2 ^ 48) }
    ensures count { L.faults link.old ≤ L.faults link.new }
    ensures link { Blamed (result ≡ Err ToolRefusal.LinkFault) (L.faults link.old)
        (L.faults link.new) }
{
    let (port, max) = match find_port(ask_by, id, first, most, link) {
        Ok(found) => found,
        Err(refusal) => return Err(refusal),
    };
    match find_page(ask_by, id, port, first, link) {
        Ok((total, flush)) => Ok(Device {
            port,
            max,
            total,
            flush,
        }),
        Err(refusal) => Err(refusal),
    }
}
