//! What became of frames and of commands.
ghost use Rattle.std.specs.Prelude.{◌≡◌, ◌++◌, ◌∷◌, [], decimal, OnOk};
ghost use Rattle.aoe_base.specs.Names.{pair_text};
ghost use Rattle.aoe_script.specs.Print.{spaced};
ghost use Rattle.aoe_transcript.specs.Print.{effect_words, fate_words, outcome_words};

use crate::runs::put_runs;
use aoe_base::{NoMemory, Span, put, put_pair};
use aoe_history::Fate;
use aoe_initiator::Outcome;
use aoe_script::spelling::{put_bytes, put_count};
use aoe_target::Effect;

/// Adds a word and sectors.
fn put_span(out: &mut Vec<u8>, word: &[u8], span: Span) -> Result<(), NoMemory>
    ensures { OnOk result (out.new.items ≡ out.old.items
        ++ (word.now ++ spaced (decimal span.at ∷ decimal span.count ∷ []))) }
{
    put_count(out, word, span.at)?;
    put_count(out, b"", u64::from(span.count))
}

/// Adds the words of an effect, each behind a space.
fn put_effect(out: &mut Vec<u8>, effect: Effect) -> Result<(), NoMemory>
    ensures { OnOk result (out.new.items ≡ out.old.items ++ spaced (effect_words effect)) }
{
    match effect {
        Effect::None => put(out, b" none"),
        Effect::Wrote(span) => put_span(out, b" wrote", span),
        Effect::Synced => put(out, b" synced"),
        Effect::Edited => put(out, b" edited"),
        Effect::WriteFault(span) => put_span(out, b" write-fault", span),
        Effect::ReadFault => put(out, b" read-fault"),
        Effect::SyncFault => put(out, b" sync-fault"),
        Effect::EditFault => put(out, b" edit-fault"),
    }
}

/// Adds the words of what became of a frame, each behind a space.
pub(crate) fn put_fate(out: &mut Vec<u8>, fate: &Fate) -> Result<(), NoMemory>
    ensures { OnOk result (out.new.items ≡ out.old.items ++ spaced (fate_words fate.now)) }
{
    match fate {
        Fate::Ignored => put(out, b" ignored"),
        Fate::Silent => put(out, b" silent"),
        Fate::Cut => put(out, b" cut"),
        Fate::Replied { effect, frame, .. } => {
            put_effect(out, *effect)?;
            put_count(out, b" reply", *frame)
        }
    }
}

/// Adds the registers of status and error.
fn put_registers(out: &mut Vec<u8>, status: u8, error: u8) -> Result<(), NoMemory>
    ensures { OnOk result (out.new.items ≡ out.old.items
        ++ spaced (pair_text status ∷ pair_text error ∷ [])) }
{
    put(out, b" ")?;
    put_pair(out, status)?;
    put(out, b" ")?;
    put_pair(out, error)
}

/// Adds the words of what became of a command, each behind a space.
pub(crate) fn put_outcome(out: &mut Vec<u8>, outcome: &Outcome) -> Result<(), NoMemory>
    ensures { OnOk result (out.new.items ≡ out.old.items ++ spaced (outcome_words outcome.now)) }
{
    match outcome {
        Outcome::Read(data) => {
            put(out, b" read ")?;
            put_runs(out, data.bytes())
        }
        Outcome::Written => put(out, b" written"),
        Outcome::Flushed => put(out, b" flushed"),
        Outcome::Told(args) => {
            put(out, b" told ")?;
            put_bytes(out, args.as_slice())
        }
        Outcome::AtaError { status, error } => {
            put(out, b" ata")?;
            put_registers(out, *status, *error)
        }
        Outcome::AoeError(code) => put_count(out, b" aoe", u64::from(*code)),
        Outcome::GaveUp { .. } => put(out, b" gave-up"),
    }
}
