//! The text of a script.
ghost use Rattle.std.specs.Prelude.{◌≡◌, ◌≤◌, ◌∷◌, ◌++◌, drop, length, true, IfOk, None, OnOk};
ghost use Rattle.aoe_base.specs.Names.{device_text};
ghost use Rattle.aoe_script.specs.Lines.{most_script_bytes, refusal, script_of, IsScript};
ghost use Rattle.aoe_script.specs.Print.{event_words, is_submission, optional_word, script_text, setup_words, spaced, spelled};
ghost use Rattle.aoe_script.specs.Spelling.{word_text, words_text};

use crate::event::{Event, Which};
use crate::laws::printed_script_reads_back;
use crate::script::Script;
use crate::setup::{Name, Setup};
use crate::spelling::{
    put_bytes, put_config_words, put_count, put_device, put_masks_words, put_mode, put_number,
    put_reserve_words, put_which,
};
use aoe_base::{Blob, NoMemory, Ports, TargetId, put, put_macs, put_pair};
use aoe_disk::Loss;
use std::alloc::Global;

/// A word of a line, behind the first.
#[derive(Clone, Copy)]
enum Word<'a> {
    Name(&'a Name),
    Number(u64),
    Device(&'a TargetId),
    Ports(&'a Ports),
    Byte(u8),
    Bytes(&'a Blob),
    Disk(Which),
    Mode(Loss),
}

/// Adds a word.
fn put_word(out: &mut Vec<u8>, word: &Word) -> Result<(), NoMemory>
    ensures { OnOk result (out.new.items ≡ out.old.items ++ word_text word.now) }
{
    match word {
        Word::Name(name) => put(out, name.as_slice()),
        Word::Number(n) => put_number(out, *n),
        Word::Device(dev) => put_device(out, dev),
        Word::Ports(ports) => put_macs(out, ports.as_slice()),
        Word::Byte(byte) => put_pair(out, *byte),
        Word::Bytes(bytes) => put_bytes(out, bytes.bytes()),
        Word::Disk(which) => put_which(out, *which),
        Word::Mode(mode) => put_mode(out, *mode),
    }
}

/// Adds words, each behind a space.
fn put_rest(out: &mut Vec<u8>, words: &[Word]) -> Result<(), NoMemory>
    ensures { OnOk result (out.new.items ≡ out.old.items ++ words_text words.now) }
{
    'words: for word in words {
        put(out, b" ")?;
        put_word(out, word)?;
    }
    Ok(())
}

/// Adds a first word, and others behind it.
fn put_words(out: &mut Vec<u8>, first: &[u8], words: &[Word]) -> Result<(), NoMemory>
    ensures { OnOk result (out.new.items ≡ out.old.items ++ (first.now ++ words_text words.now)) }
{
    put(out, first)?;
    put_rest(out, words)
}

/// Adds a number behind a space, where there is one.
fn put_optional(out: &mut Vec<u8>, n: Option<u64>) -> Result<(), NoMemory>
    ensures { OnOk result (out.new.items ≡ out.old.items ++ spaced (optional_word n)) }
{
    match n {
        Some(n) => put_count(out, b"", n),
        None => Ok(()),
    }
}

/// Adds a setup line, without its end.
fn put_setup(out: &mut Vec<u8>, setup: &Setup) -> Result<(), NoMemory>
    ensures { OnOk result (out.new.items ≡ out.old.items ++ spelled (setup_words setup.now)) }
{
    match setup {
        Setup::Life {
            requests,
            responses,
        } => {
            put_words(out, b"life", &[Word::Number(*requests)])?;
            put_optional(out, *responses)
        }
        Setup::Shelf {
            name,
            major,
            ports,
            mtu,
        } => put_words(
            out,
            b"shelf",
            &[
                Word::Name(name),
                Word::Number(*major),
                Word::Ports(ports),
                Word::Number(*mtu),
            ],
        ),
        Setup::Slot {
            shelf,
            minor,
            sectors,
            room,
        } => {
            put_words(
                out,
                b"slot",
                &[
                    Word::Name(shelf),
                    Word::Number(*minor),
                    Word::Number(*sectors),
                ],
            )?;
            put_optional(out, *room)
        }
        Setup::Host {
            name,
            ports,
            room,
            dead,
        } => {
            put_words(out, b"host", &[Word::Name(name), Word::Ports(ports)])?;
            put_optional(out, *room)?;
            put_optional(out, *dead)
        }
        Setup::Attach { host, shelf, minor } => {
            put_words(
                out,
                b"attach",
                &[Word::Name(host), Word::Name(shelf), Word::Number(*minor)],
            )
        }
        Setup::Readonly { shelf, minor } => {
            put_words(out, b"readonly", &[Word::Name(shelf), Word::Number(*minor)])
        }
    }
}

/// How a submission begins: its first word, its host and its device.
fn beginning(event: &Event) -> (&[u8], &Name, &TargetId)
    requires { is_submission event.now ≡ true }
    ensures { event_words event.now
        ≡ result.0.now ∷ result.1.now.items ∷ device_text result.2.now ∷ drop 3
        (event_words event.now) }
{
    match event {
        Event::Read { host, dev, .. } => (b"read", host, dev),
        Event::Write { host, dev, .. } => (b"write", host, dev),
        Event::Flush { host, dev } => (b"flush", host, dev),
        Event::Identify { host, dev } => (b"identify", host, dev),
        Event::Config { host, dev, .. } => (b"config", host, dev),
        Event::Masks { host, dev, .. } => (b"masks", host, dev),
        Event::Reserve { host, dev, .. } => (b"reserve", host, dev),
        _ => unreachable!(),
    }
}

/// Adds the words of a submission behind its device.
fn put_details(out: &mut Vec<u8>, event: &Event) -> Result<(), NoMemory>
    requires { is_submission event.now ≡ true }
    ensures { OnOk result (out.new.items ≡ out.old.items
        ++ spaced (drop 3 (event_words event.now))) }
{
    match event {
        Event::Read { at, count, .. } => put_rest(out, &[Word::Number(*at), Word::Number(*count)]),
        Event::Write {
            at,
            count,
            fill,
            ..
        } => put_rest(
            out,
            &[Word::Number(*at), Word::Number(*count), Word::Byte(*fill)],
        ),
        Event::Config { ccmd, text, .. } => put_config_words(out, *ccmd, text),
        Event::Masks { edit, dirs, .. } => put_masks_words(out, *edit, dirs),
        Event::Reserve { rcmd, list, .. } => put_reserve_words(out, *rcmd, list),
        _ => Ok(()),
    }
}

/// Adds a submission, without its end.
fn put_submission(out: &mut Vec<u8>, event: &Event) -> Result<(), NoMemory>
    requires { is_submission event.now ≡ true }
    ensures { OnOk result (out.new.items ≡ out.old.items ++ spelled (event_words event.now)) }
{
    let (first, host, dev) = beginning(event);
    put_words(out, first, &[Word::Name(host), Word::Device(dev)])?;
    put_details(out, event)
}

/// Adds an event line, without its end.
fn put_event(out: &mut Vec<u8>, event: &Event) -> Result<(), NoMemory>
    ensures { OnOk result (out.new.items ≡ out.old.items ++ spelled (event_words event.now)) }
{
    match event {
        Event::Tick { ms } => put_count(out, b"tick", *ms),
        Event::Deliver { frame, station } => {
            put_words(
                out,
                b"deliver",
                &[Word::Number(*frame), Word::Name(station)],
            )
        }
        Event::Pass { n } => put_count(out, b"pass", *n),
        Event::Skip { n } => put_count(out, b"skip", *n),
        Event::Again => put(out, b"again"),
        Event::Inject { bytes } => put_words(out, b"inject", &[Word::Bytes(bytes)]),
        Event::Fail { dev, which, k } => {
            put_words(
                out,
                b"fail",
                &[Word::Device(dev), Word::Disk(*which), Word::Number(*k)],
            )
        }
        Event::Stop {
            dev,
            which,
            k,
            mode,
        } => put_words(
            out,
            b"stop",
            &[
                Word::Device(dev),
                Word::Disk(*which),
                Word::Number(*k),
                Word::Mode(*mode),
            ],
        ),
        Event::Crash { shelf, mode } => {
            put_words(out, b"crash", &[Word::Name(shelf), Word::Mode(*mode)])
        }
        _ => put_submission(out, event),
    }
}

/// Adds a script: one line for each setup line and each event.
fn put_script(out: &mut Vec<u8>, script: &Script) -> Result<(), NoMemory>
    ensures script { IsScript script.now }
    ensures text { OnOk result (out.new.items ≡ out.old.items ++ script_text script.now) }
{
    'setups: for i in 0..script.setups() {
        put_setup(out, script.setup(i))?;
        put(out, b"\n")?;
    }
    'events: for i in 0..script.count() {
        put_event(out, script.event(i))?;
        put(out, b"\n")?;
    }
    Ok(())
}

/// The text of a script: one line for each setup line and each event, whose words single spaces
/// part. It reads back, unless it is longer than a text may be.
pub fn print_script(alloc: Global, script: &Script) -> Result<Blob, NoMemory>
    ensures text { IfOk result (λ text. text ≡ script_text script.now) }
    ensures reads { IfOk result (λ text. script_of text ≡ script.now) }
    ensures accepted { IfOk result (λ text. length text ≤ most_script_bytes → refusal text ≡ None) }
{
    printed_script_reads_back();
    let mut out = Vec::new(alloc);
    put_script(&mut out, script)?;
    Ok(Blob::from_vec(out))
}
