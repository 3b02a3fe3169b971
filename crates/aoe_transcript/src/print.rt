//! The text of what happened.
ghost use Rattle.std.specs.Prelude.{◌≡◌, ◌++◌, ◌∷◌, [], codes, decimal, if◌then◌else◌, IfOk, OnOk};
ghost use Rattle.aoe_base.specs.Names.{device_text};
ghost use Rattle.aoe_script.specs.Print.{lists_words, spelled, which_text};
ghost use Rattle.aoe_transcript.specs.Print.{armed_text, entry_text, entry_words, fate_words, outcome_words, refusal_words, CanPrint, HasCause};

use crate::outcome::{put_fate, put_outcome};
use crate::submission::{put_refusal, put_submitted};
use aoe_base::{Blob, NoMemory, TargetId, put};
use aoe_history::{Entry, Fate};
use aoe_initiator::{Outcome, SubmitRefusal};
use aoe_lists::Lists;
use aoe_script::spelling::{put_count, put_device, put_lists, put_named, put_which};
use aoe_script::{Name, Which};
use std::alloc::Global;

/// Adds a word, a host and a number.
fn put_of_host(out: &mut Vec<u8>, word: &[u8], host: &Name, n: u64) -> Result<(), NoMemory>
    ensures { OnOk result (out.new.items ≡ out.old.items
        ++ spelled (word.now ∷ host.now.items ∷ decimal n ∷ [])) }
{
    put_named(out, word, host)?;
    put_count(out, b"", n)
}

/// Adds a word and a device.
fn put_of_device(out: &mut Vec<u8>, word: &[u8], dev: &TargetId) -> Result<(), NoMemory>
    ensures { OnOk result (out.new.items ≡ out.old.items
        ++ spelled (word.now ∷ device_text dev.now ∷ [])) }
{
    put(out, word)?;
    put(out, b" ")?;
    put_device(out, dev)
}

/// Adds the line of a disk that is armed, without its end.
fn put_armed(
    out: &mut Vec<u8>,
    dev: &TargetId,
    which: Which,
    k: u64,
    stops: bool,
) -> Result<(), NoMemory>
    ensures { OnOk result (out.new.items ≡ out.old.items ++ spelled (codes "armed" ∷ device_text dev.now ∷ which_text which ∷ armed_text stops ∷ decimal k ∷ [])) }
{
    put_of_device(out, b"armed", dev)?;
    put(out, b" ")?;
    put_which(out, which)?;
    if stops {
        put_count(out, b" stop", k)
    } else {
        put_count(out, b" fail", k)
    }
}

/// Adds the line of a slot that lost its power, without its end.
fn put_crashed(out: &mut Vec<u8>, dev: &TargetId, lists: &Lists) -> Result<(), NoMemory>
    ensures { OnOk result (out.new.items ≡ out.old.items
        ++ spelled (codes "crashed" ∷ device_text dev.now ∷ lists_words lists.now)) }
{
    put_of_device(out, b"crashed", dev)?;
    put_lists(out, lists)
}

/// Adds the line of a frame that a host was handed, without its end.
fn put_took(out: &mut Vec<u8>, host: &Name, frame: u64, stale: bool) -> Result<(), NoMemory>
    ensures { OnOk result (out.new.items ≡ out.old.items ++ spelled (codes "took" ∷ host.now.items ∷ decimal frame ∷ (if stale then codes "stale" ∷ [] else []))) }
{
    put_of_host(out, b"took", host, frame)?;
    if stale { put(out, b" stale") } else { Ok(()) }
}

/// Adds the line of a refusal, without its end.
fn put_refused(out: &mut Vec<u8>, host: &Name, refusal: SubmitRefusal) -> Result<(), NoMemory>
    requires { HasCause refusal }
    ensures { OnOk result (out.new.items ≡ out.old.items
        ++ spelled (codes "refuse" ∷ host.now.items ∷ refusal_words refusal)) }
{
    put_named(out, b"refuse", host)?;
    put_refusal(out, refusal)
}

/// Adds the line of a command that ended, without its end.
fn put_done(out: &mut Vec<u8>, host: &Name, ticket: u64, outcome: &Outcome) -> Result<(), NoMemory>
    ensures { OnOk result (out.new.items ≡ out.old.items
        ++ spelled (codes "done" ∷ host.now.items ∷ decimal ticket ∷ outcome_words outcome.now)) }
{
    put_of_host(out, b"done", host, ticket)?;
    put_outcome(out, outcome)
}

/// Adds the line of a frame that a host sent, without its end.
fn put_sent(out: &mut Vec<u8>, host: &Name, ticket: u64, frame: u64) -> Result<(), NoMemory>
    ensures { OnOk result (out.new.items ≡ out.old.items
        ++ spelled (codes "sent" ∷ host.now.items ∷ decimal ticket ∷ decimal frame ∷ [])) }
{
    put_of_host(out, b"sent", host, ticket)?;
    put_count(out, b"", frame)
}

/// Adds the line of a frame that came to a target, without its end.
fn put_arrived(out: &mut Vec<u8>, dev: &TargetId, frame: u64, fate: &Fate) -> Result<(), NoMemory>
    ensures { OnOk result (out.new.items ≡ out.old.items
        ++ spelled (codes "arrive" ∷ device_text dev.now ∷ decimal frame ∷ fate_words fate.now)) }
{
    put_of_device(out, b"arrive", dev)?;
    put_count(out, b"", frame)?;
    put_fate(out, fate)
}

/// Adds the line of an entry, without its end.
fn put_entry(out: &mut Vec<u8>, entry: &Entry) -> Result<(), NoMemory>
    requires { CanPrint entry.now }
    ensures { OnOk result (out.new.items ≡ out.old.items ++ spelled (entry_words entry.now)) }
{
    match entry {
        Entry::Submitted {
            host,
            ticket,
            dev,
            op,
        } => put_submitted(out, host, *ticket, dev, op.get()),
        Entry::Refused { host, refusal } => put_refused(out, host, *refusal),
        Entry::Sent {
            host,
            ticket,
            frame,
            ..
        } => put_sent(out, host, *ticket, *frame),
        Entry::Injected { frame, .. } => put_count(out, b"inject", *frame),
        Entry::Arrived { dev, frame, fate } => put_arrived(out, dev, *frame, fate),
        Entry::Took { host, frame, stale } => put_took(out, host, *frame, *stale),
        Entry::Done {
            host,
            ticket,
            outcome,
        } => put_done(out, host, *ticket, outcome.get()),
        Entry::Ticked { ms } => put_count(out, b"tick", *ms),
        Entry::Lost { frame } => put_count(out, b"lost", *frame),
        Entry::Armed {
            dev,
            which,
            k,
            mode,
        } => put_armed(out, dev, *which, *k, mode.is_some()),
        Entry::Crashed { dev, lists, .. } => put_crashed(out, dev, lists.get()),
    }
}

/// Adds the line of an entry.
pub(crate) fn put_line(out: &mut Vec<u8>, entry: &Entry) -> Result<(), NoMemory>
    requires { CanPrint entry.now }
    ensures { OnOk result (out.new.items ≡ out.old.items ++ entry_text entry.now) }
{
    put_entry(out, entry)?;
    put(out, b"\n")
}

/// The line of an entry.
pub fn print_entry(alloc: Global, entry: &Entry) -> Result<Blob, NoMemory>
    requires { CanPrint entry.now }
    ensures { IfOk result (λ text. text ≡ entry_text entry.now) }
{
    let mut out = Vec::new(alloc);
    put_line(&mut out, entry)?;
    Ok(Blob::from_vec(out))
}
