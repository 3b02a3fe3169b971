//! The tools that ask one device for a list, or change it.
ghost use Rattle.std.specs.Prelude.{◌≡◌, ◌≤◌, Err, length, option_copied};
ghost use Rattle.aoe_base.specs.Faults.{Blamed};
ghost use Rattle.aoe_initiator.specs.Response.{CanFill};
ghost use Rattle.aoe_lists.specs.Settings.{max_directives};
ghost use Rattle.aoe_tools.specs.One.{AsksOne, args_of, edits_by, told_len};
ghost use Rattle.aoe_tools.specs.Runs.{AsksMasks, EditsGuarded, RunsConfig, RunsMasks, RunsReserves, told};

use crate::asking::ask;
use crate::end::ToolRefusal;
use crate::guard::held_back;
use crate::question::{Ask, Question, Reply, Subject};
use crate::request::{config_request, mask_request, reserve_request};
use aoe_base::{Mac, TargetId, append};
use aoe_frame::{Frame, HEADER_LEN};
use aoe_initiator::Answer;
use aoe_io::{Clock, Link};
use aoe_lists::{Args, Dir};

/// How many bytes of arguments an answer has.
fn told_len(answer: Answer) -> usize
    ensures { result ≡ told_len answer }
{
    match answer {
        Answer::Told { len } => len,
        Answer::Data { .. }
        | Answer::Written
        | Answer::Flushed
        | Answer::AtaError { .. }
        | Answer::AoeError(_) => 0,
    }
}

/// The arguments of a response.
pub(crate) fn args_of(reply: Reply, args: &[u8]) -> Args
    requires { CanFill reply.answer args.now 512 }
    ensures { result ≡ args_of (record { reply = reply; args = args.now }) }
{
    let mut told = Args::new();
    append(&mut told, &args[..told_len(reply.answer)]);
    told
}

/// Asks until the first response that counts, and gives its arguments.
fn ask_one<L: Link>(
    question: &Question,
    request: &Frame,
    turns: u32,
    link: &mut L,
) -> Result<Args, ToolRefusal>
    ensures run { AsksOne result question.now request.now.items turns (L.turns link.old)
        (L.turns link.new) (L.given link.old) (L.given link.new) (L.taken link.old)
        (L.taken link.new) }
    ensures count { L.faults link.old ≤ L.faults link.new }
    ensures link { Blamed (result ≡ Err ToolRefusal.LinkFault) (L.faults link.old)
        (L.faults link.new) }
{
    let mut frame = Frame::new();
    match ask(question, request, turns, link, &mut frame) {
        Ok(reply) => Ok(args_of(reply, &frame[HEADER_LEN..])),
        Err(refusal) => Err(refusal),
    }
}

/// Reads, tests or sets the config string of a device: `ccmd` is the field CCmd, and the arguments
/// are those of the response. Takes no memory.
pub fn cfg<L: Link, C: Clock>(
    ask: &Ask,
    id: TargetId,
    ccmd: u8,
    text: &[u8],
    link: &mut L,
    clock: &mut C,
) -> Result<Args, ToolRefusal>
    requires command { ccmd ≤ 4 }
    requires text { length text.now ≤ 1024 }
    ensures run { RunsConfig result ccmd text.now id ask.now
        (told C.least C.answers L.turns L.given L.taken clock.old clock.new link.old link.new) }
    ensures count { L.faults link.old ≤ L.faults link.new }
    ensures link { Blamed (result ≡ Err ToolRefusal.LinkFault) (L.faults link.old)
        (L.faults link.new) }
{
    let question = ask.question(Subject::Config, Some(id), clock.now(), 0);
    let mut request = Frame::new();
    config_request(ccmd, text, id, ask.port, question.tag, &mut request);
    ask_one(&question, &request, ask.turns, link)
}

/// Asks for the mask list of a device, or for an edit of it, as request number `i` of a tool.
fn ask_masks<L: Link>(
    ask_by: &Ask,
    id: TargetId,
    dirs: Option<&[Dir]>,
    first: u64,
    i: u64,
    link: &mut L,
) -> Result<Args, ToolRefusal>
    requires { length (edits_by (option_copied dirs)).1 ≤ max_directives }
    ensures run { AsksMasks result (option_copied dirs.entry) id ask_by.now first i
        (record { turns = L.turns link.old; given = L.given link.old; taken = L.taken link.old })
        (record { turns = L.turns link.new; given = L.given link.new; taken = L.taken link.new }) }
    ensures count { L.faults link.old ≤ L.faults link.new }
    ensures link { Blamed (result ≡ Err ToolRefusal.LinkFault) (L.faults link.old)
        (L.faults link.new) }
{
    let question = ask_by.question(Subject::Masks, Some(id), first, i);
    let mut request = Frame::new();
    match dirs {
        Some(dirs) => mask_request(true, dirs, id, ask_by.port, question.tag, &mut request),
        None => mask_request(false, &[], id, ask_by.port, question.tag, &mut request),
    }
    ask_one(&question, &request, ask_by.turns, link)
}

/// Reads the mask list of a device, and edits it unless that would shut out the port that asks, or add a
/// group.
fn edit_guarded<L: Link>(
    ask_by: &Ask,
    id: TargetId,
    dirs: &[Dir],
    first: u64,
    link: &mut L,
) -> Result<Args, ToolRefusal>
    requires { length dirs.now ≤ max_directives }
    ensures run { EditsGuarded result dirs.now id ask_by.now first
        (record { turns = L.turns link.old; given = L.given link.old; taken = L.taken link.old })
        (record { turns = L.turns link.new; given = L.given link.new; taken = L.taken link.new }) }
    ensures count { L.faults link.old ≤ L.faults link.new }
    ensures link { Blamed (result ≡ Err ToolRefusal.LinkFault) (L.faults link.old)
        (L.faults link.new) }
{
    let list = match ask_masks(ask_by, id, None, first, 0, link) {
        Ok(list) => list,
        Err(refusal) => return Err(refusal),
    };
    match held_back(ask_by.port, dirs, &list) {
        Some(refusal) => Err(ToolRefusal::Refused(refusal)),
        None => ask_masks(ask_by, id, Some(dirs), first, 1, link),
    }
}

/// Reads the mask list of a device, or edits it by directives. Unless `anyway` is set the list is read
/// before an edit, and the edit isn't sent where it would shut out the port that asks, or add a group's
/// address. Takes no memory.
pub fn mask<L: Link, C: Clock>(
    ask: &Ask,
    id: TargetId,
    dirs: Option<&[Dir]>,
    anyway: bool,
    link: &mut L,
    clock: &mut C,
) -> Result<Args, ToolRefusal>
    requires { length (edits_by (option_copied dirs)).1 ≤ max_directives }
    ensures run { RunsMasks result (option_copied dirs.entry) anyway id ask.now
        (told C.least C.answers L.turns L.given L.taken clock.old clock.new link.old link.new) }
    ensures count { L.faults link.old ≤ L.faults link.new }
    ensures link { Blamed (result ≡ Err ToolRefusal.LinkFault) (L.faults link.old)
        (L.faults link.new) }
{
    let first = clock.now();
    match dirs {
        Some(dirs) if !anyway => edit_guarded(ask, id, dirs, first, link),
        dirs => ask_masks(ask, id, dirs, first, 0, link),
    }
}

/// Reads or sets the reserve list of a device: `rcmd` is the field RCmd. Takes no memory.
pub fn reserve<L: Link, C: Clock>(
    ask: &Ask,
    id: TargetId,
    rcmd: u8,
    list: &[Mac],
    link: &mut L,
    clock: &mut C,
) -> Result<Args, ToolRefusal>
    requires command { rcmd ≤ 2 }
    requires few { length list.now ≤ max_directives }
    ensures run { RunsReserves result rcmd list.now id ask.now
        (told C.least C.answers L.turns L.given L.taken clock.old clock.new link.old link.new) }
    ensures count { L.faults link.old ≤ L.faults link.new }
    ensures link { Blamed (result ≡ Err ToolRefusal.LinkFault) (L.faults link.old)
        (L.faults link.new) }
{
    let question = ask.question(Subject::Reserve, Some(id), clock.now(), 0);
    let mut request = Frame::new();
    reserve_request(rcmd, list, id, ask.port, question.tag, &mut request);
    ask_one(&question, &request, ask.turns, link)
}
