ghost use Rattle.aoe_transcript.specs.Print.{CanPrint, HasCause};

use crate::checks::holds;
use aoe_base::{Blob, Mac, NoMemory, TargetId};
use aoe_disk::Loss;
use aoe_history::{Boxed, Entry};
use aoe_initiator::SubmitRefusal;
use aoe_lists::Lists;
use aoe_script::Name;
use aoe_transcript::print_entry;
use std::alloc::Global;
use std::process::Abort;

const DEV: TargetId = TargetId { major: 1, minor: 0 };

const MAC: Mac = Mac([2, 0, 0, 0, 0, 0x0b]);

fn named(letter: u8) -> Name {
    let mut name = Name::new();
    name.push(letter);
    name
}

fn host() -> Name {
    named(b'a')
}

/// The line of an entry.
fn line_of(alloc: Global, entry: Entry) -> Result<Blob, NoMemory>
    requires { CanPrint entry }
{
    print_entry(alloc, &entry)
}

/// Whether a text is this one.
fn is(printed: &Result<Blob, NoMemory>, text: &str) -> bool {
    match printed {
        Ok(printed) => printed.bytes() == text.as_bytes(),
        Err(NoMemory) => false,
    }
}

/// What is printed is this text.
fn prints(rt: &impl Abort, printed: Result<Blob, NoMemory>, text: &str) {
    holds(rt, is(&printed, text), text);
}

fn refused(alloc: Global, refusal: SubmitRefusal) -> Result<Blob, NoMemory>
    requires { HasCause refusal }
{
    line_of(
        alloc,
        Entry::Refused {
            host: host(),
            refusal,
        },
    )
}

fn crashed(alloc: Global, lists: Lists) -> Result<Blob, NoMemory> {
    let lists = Boxed::new(alloc, lists)?;
    line_of(
        alloc,
        Entry::Crashed {
            dev: DEV,
            lists,
            mode: Loss::Old,
        },
    )
}

/// Lists with a config string and a mask, and with the read-only mark or without it.
fn some_lists(read_only: bool) -> Lists {
    let mut lists = Lists::new();
    let _ = lists.config.try_extend_from_slice(b"ab");
    lists.masks.push(MAC);
    lists.read_only = read_only;
    lists
}

#[test]
fn prints_a_full_backlog(rt: HostRuntime) {
    let alloc = rt.alloc();
    let backlog = SubmitRefusal::Backlog { held: 65_536 };
    prints(&rt, refused(alloc, backlog), "refuse a backlog 65536\n");
}

#[test]
fn prints_the_lists_of_a_crash(rt: HostRuntime) {
    let alloc = rt.alloc();
    let listed = "crashed e1.0 config 6162 masks 02000000000b reserves -\n";
    prints(&rt, crashed(alloc, some_lists(false)), listed);
    let marked = "crashed e1.0 config 6162 masks 02000000000b reserves - read-only\n";
    prints(&rt, crashed(alloc, some_lists(true)), marked);
}
