//! The lines of what hosts were asked for.
ghost use Rattle.std.specs.Prelude.{◌≡◌, ◌++◌, ◌∷◌, ◌/◌, [], codes, decimal, length, slice_index, OnOk};
ghost use Rattle.aoe_base.specs.Names.{device_text, pair_text};
ghost use Rattle.aoe_script.specs.Print.{event_words, spaced, spelled};
ghost use Rattle.aoe_transcript.specs.Print.{asking, refusal_words, submit_words, HasCause};

use aoe_base::{Blob, NoMemory, SECTOR_LEN, Span, TargetId, put, put_pair};
use aoe_initiator::{Op, SubmitRefusal};
use aoe_script::Name;
use aoe_script::spelling::{
    put_config_words, put_count, put_device, put_masks_words, put_named, put_reserve_words,
};

/// Adds a word and a device, each behind a space.
fn put_asked(out: &mut Vec<u8>, word: &[u8], dev: &TargetId) -> Result<(), NoMemory>
    ensures { OnOk result (out.new.items ≡ out.old.items
        ++ spaced (word.now ∷ device_text dev.now ∷ [])) }
{
    put(out, b" ")?;
    put(out, word)?;
    put(out, b" ")?;
    put_device(out, dev)
}

/// Adds the words of sectors that are read.
fn put_read(out: &mut Vec<u8>, dev: &TargetId, span: Span) -> Result<(), NoMemory>
    ensures { OnOk result (out.new.items ≡ out.old.items ++ spaced (codes "read" ∷ device_text dev.now ∷ decimal span.at ∷ decimal span.count ∷ [])) }
{
    put_asked(out, b"read", dev)?;
    put_count(out, b"", span.at)?;
    put_count(out, b"", u64::from(span.count))
}

/// Adds the words of sectors that are written.
fn put_write(out: &mut Vec<u8>, dev: &TargetId, at: u64, bytes: &Blob) -> Result<(), NoMemory>
    ensures { OnOk result (out.new.items ≡ out.old.items
        ++ spaced (codes "write" ∷ device_text dev.now ∷ decimal at ∷ decimal
        (length bytes.now / 512) ∷ pair_text (slice_index bytes.now 0) ∷ [])) }
{
    let bytes = bytes.bytes();
    put_asked(out, b"write", dev)?;
    put_count(out, b"", at)?;
    put_count(out, b"", (bytes.len() / SECTOR_LEN) as u64)?;
    put(out, b" ")?;
    put_pair(out, if bytes.is_empty() { 0 } else { bytes[0] })
}

/// Adds the line of a submission, without its end.
pub(crate) fn put_submitted(
    out: &mut Vec<u8>,
    host: &Name,
    ticket: u64,
    dev: &TargetId,
    op: &Op,
) -> Result<(), NoMemory>
    ensures { OnOk result (out.new.items ≡ out.old.items
        ++ spelled (submit_words ticket (event_words (asking host.now dev.now op.now)))) }
{
    put_named(out, b"submit", host)?;
    put_count(out, b"", ticket)?;
    match op {
        Op::Read(span) => put_read(out, dev, *span),
        Op::Write { at, bytes } => put_write(out, dev, *at, bytes),
        Op::Flush => put_asked(out, b"flush", dev),
        Op::Identify => put_asked(out, b"identify", dev),
        Op::Config { ccmd, text } => {
            put_asked(out, b"config", dev)?;
            put_config_words(out, *ccmd, text)
        }
        Op::Masks { edit, dirs } => {
            put_asked(out, b"masks", dev)?;
            put_masks_words(out, *edit, dirs)
        }
        Op::Reserve { rcmd, list } => {
            put_asked(out, b"reserve", dev)?;
            put_reserve_words(out, *rcmd, list)
        }
    }
}

/// Adds the words of a refusal, each behind a space.
pub(crate) fn put_refusal(out: &mut Vec<u8>, refusal: SubmitRefusal) -> Result<(), NoMemory>
    requires { HasCause refusal }
    ensures { OnOk result (out.new.items ≡ out.old.items ++ spaced (refusal_words refusal)) }
{
    match refusal {
        SubmitRefusal::Empty => put(out, b" empty"),
        SubmitRefusal::TooLong { max } => put_count(out, b" too-long", u64::from(max)),
        SubmitRefusal::OutOfRange => put(out, b" out-of-range"),
        SubmitRefusal::Backlog { held } => put_count(out, b" backlog", u64::from(held)),
        SubmitRefusal::NoMemory => unreachable!(),
    }
}
