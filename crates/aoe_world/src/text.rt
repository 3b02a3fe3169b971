//! The text of a script, read from a source to its end.
ghost use Rattle.std.specs.Prelude.{◌≡◌, ◌≢◌, ◌≤◌, ◌+◌, None, Err, IfErr, IfOk, OnOk};
ghost use Rattle.aoe_base.specs.Faults.{Rose};
ghost use Rattle.aoe_script.specs.Lines.{refusal, script_of};
ghost use Rattle.aoe_world.specs.Replay.{refused_as, IsRead, IsRefusedAs, Unread};

use crate::end::{ReplayEnd, ReplayLimit};
use aoe_io::{InputRefusal, Source, read_up_to};
use aoe_script::{LONGEST_TEXT, Script, ScriptRefusal, read_script};
use std::alloc::Global;

/// The text that the source gives up to its end, or more bytes than a script has.
pub fn read_text<S: Source>(alloc: Global, source: &mut S) -> Result<Vec<u8>, ReplayEnd>
    ensures read { IfOk result (λ text. IsRead (S.left source.old) (S.left source.new) text.items) }
    ensures unread { IfErr result (λ end. Unread end (S.left source.old) (S.left source.new)) }
    ensures count { S.faults source.old ≤ S.faults source.new }
    ensures source_fault { result ≡ Err ReplayEnd.SourceFault
        → Rose (S.faults source.old) (S.faults source.new) }
    ensures no_fault { OnOk result (S.faults source.new ≡ S.faults source.old) }
    ensures untold { IfErr result (λ end. end ≢ ReplayEnd.SourceFault
        → S.faults source.new ≡ S.faults source.old) }
    ensures one_fault { S.faults source.new ≤ S.faults source.old + 1 }
{
    match read_up_to(alloc, source, LONGEST_TEXT) {
        Ok(text) => Ok(text),
        Err(InputRefusal::NoMemory) => Err(ReplayEnd::NoMemory),
        Err(InputRefusal::Fault) => Err(ReplayEnd::SourceFault),
    }
}

/// How a replay ends whose text is refused.
fn refused_as(refusal: ScriptRefusal) -> ReplayEnd
    ensures { result ≡ refused_as refusal }
{
    match refusal {
        ScriptRefusal::NoMemory => ReplayEnd::NoMemory,
        ScriptRefusal::BadLine { line, why } => ReplayEnd::Script { line, why },
        ScriptRefusal::TooMany => ReplayEnd::Limit(ReplayLimit::Events),
        ScriptRefusal::TooLong => ReplayEnd::Limit(ReplayLimit::ScriptBytes),
    }
}

/// The script that a text spells, or how the replay ends.
pub fn script_in(alloc: Global, text: &[u8]) -> Result<Script, ReplayEnd>
    ensures script { IfOk result (λ script. script ≡ script_of text.now) }
    ensures good { IfOk result (λ _. refusal text.now ≡ None) }
    ensures refused { IfErr result (λ end. IsRefusedAs end text.now) }
{
    match read_script(alloc, text) {
        Ok(script) => Ok(script),
        Err(refusal) => Err(refused_as(refusal)),
    }
}
