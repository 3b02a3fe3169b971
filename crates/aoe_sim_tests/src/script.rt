use crate::checks::holds;
use aoe_base::{Blob, NoMemory, TargetId};
use aoe_script::{Event, Script, ScriptRefusal, Setup, Which, Why, print_script, read_script};
use std::alloc::{AllocError, Global};
use std::process::Abort;
use std::test::Fail;

/// A shelf with a slot and a host that is attached to it.
const START: &str =
    "life 2000\nshelf s 1 02:00:00:00:00:01 1500\nslot s 0 16\nhost a 02:00:00:00:00:0a\nattach a s 0\n";

/// A line of this number is bad, for this cause.
fn bad(line: u32, why: Why) -> ScriptRefusal {
    ScriptRefusal::BadLine { line, why }
}

/// A text behind these setup lines.
fn behind(alloc: Global, text: &str) -> Result<String, AllocError> {
    format!(in alloc; "{START}{text}")
}

/// What a text spells, without what is proved of it.
fn read(alloc: Global, text: &str) -> Result<Script, ScriptRefusal> {
    read_script(alloc, text.as_bytes())
}

/// The script that a text behind the setup lines spells.
fn script_behind(alloc: Global, text: &str) -> Result<Script, Fail> {
    let whole = behind(alloc, text)?;
    Ok(read(alloc, whole.as_str())?)
}

/// Why a text behind them spells no script.
fn refusal_of(alloc: Global, text: &str) -> Result<Option<ScriptRefusal>, AllocError> {
    let whole = behind(alloc, text)?;
    Ok(read(alloc, whole.as_str()).err())
}

/// Whether the first bad line of a text behind them has this number, and is bad for this cause.
fn is_bad(alloc: Global, text: &str, line: u32, why: Why) -> Result<bool, AllocError> {
    Ok(refusal_of(alloc, text)? == Some(bad(line, why)))
}

/// Of each text behind them, this line is the first that is bad, for this cause.
fn judges(rt: &impl Abort, alloc: Global, cases: &[(&str, u32, Why)]) -> Result<(), Fail> {
    for (text, line, why) in cases {
        holds(rt, is_bad(alloc, text, *line, *why)?, text);
    }
    Ok(())
}

/// Whether a script has so many setup lines and events.
fn has(script: &Script, setups: usize, events: usize) -> bool {
    script.setups() == setups && script.count() == events
}

/// Lines behind those of the start, and the first that is bad.
const JUDGED: [(&str, u32, Why); 30] = [
    ("bogus", 6, Why::Word),
    ("life 1 2 3", 6, Why::Word),
    ("read a e1.0 0", 6, Why::Word),
    ("fail e1.0 disk 1", 6, Why::Word),
    ("x #", 6, Why::Word),
    ("again\r\r\n", 6, Why::Word),
    ("tick 1\nbogus\ntick 0", 7, Why::Word),
    ("tick x", 6, Why::Value),
    ("tick 1\r", 6, Why::Value),
    ("life 600001", 6, Why::Value),
    ("life 1 600001", 6, Why::Value),
    ("life 1 x", 6, Why::Value),
    ("shelf t 2 03:00:00:00:00:02 1500", 6, Why::Value),
    ("read a e1.0 281474976710656 1", 6, Why::Value),
    ("slot t 0 262129", 6, Why::Value),
    ("tick 1\nslot s 1 0", 7, Why::Value),
    ("readonly s 255", 6, Why::Value),
    ("tick 1\nslot s 1 16", 7, Why::Place),
    (
        "tick 1\n\n# nothing\nhost a 02:00:00:00:00:0a",
        9,
        Why::Place,
    ),
    ("life 1", 6, Why::Repeat),
    ("life 600000 0", 6, Why::Repeat),
    ("shelf a 2 02:00:00:00:00:02 1500", 6, Why::Repeat),
    ("host b 02:00:00:00:00:01", 6, Why::Repeat),
    ("readonly s 0\nreadonly s 0", 7, Why::Repeat),
    ("attach b s 0", 6, Why::Unknown),
    ("readonly s 1\nslot s 1 16", 6, Why::Unknown),
    ("slot s 1 16\nidentify a e1.1", 7, Why::Unknown),
    ("deliver 1 t", 6, Why::Unknown),
    ("inject ffffffffffff02000000000a88a2", 6, Why::Station),
    ("inject ffffffffffff02000000000188a2", 6, Why::Station),
];

#[test]
fn judges_lines_by_those_before_them(rt: HostRuntime) -> Result<(), Fail> {
    judges(&rt, rt.alloc(), &JUDGED)
}

/// Whether an event can't stand at the end of a script, for this cause.
fn is_refused(script: &mut Script, event: Event, refusal: ScriptRefusal) -> bool {
    script.push(event) == Err(refusal)
}

/// A fault of a device that no line declares.
fn fault_of_none() -> Event {
    Event::Fail {
        dev: TargetId { major: 1, minor: 1 },
        which: Which::Store,
        k: 1,
    }
}

/// A frame that is too short.
fn short_frame(alloc: Global) -> Result<Event, NoMemory> {
    let bytes = Blob::of(alloc, b"short")?;
    Ok(Event::Inject { bytes })
}

/// Whether a script takes an event, and then refuses two for their causes.
fn takes_one_of_three(alloc: Global, script: &mut Script) -> Result<bool, Fail> {
    let short = short_frame(alloc)?;
    script.push(Event::Again)?;
    Ok(
        has(script, 5, 2)
            && is_refused(script, fault_of_none(), bad(8, Why::Unknown))
            && is_refused(script, short, bad(8, Why::Value)),
    )
}

/// Whether a script has the setup lines, a tick, and an event behind it.
fn begins_with_tick(script: &Script) -> bool {
    script.setups() == 5
        && script.count() == 2
        && matches!(script.event(0), Event::Tick { ms: 5 })
        && *script.setup(0)
            == Setup::Life {
                requests: 2000,
                responses: None,
            }
}

#[test]
fn pushes_events(rt: HostRuntime) -> Result<(), Fail> {
    let mut script = script_behind(rt.alloc(), "tick 5\n")?;
    let pushed = takes_one_of_three(rt.alloc(), &mut script)?;
    assert!(rt; pushed && begins_with_tick(&script));
    Ok(())
}

/// A text with a line of each kind, as scripts are printed.
const PRINTED: &str =
    "life 2000 500\nshelf s 1 02:00:00:00:00:01,02:00:00:00:00:02 1500\nslot s 0 16\nslot s 7 9 4\nhost a 02:00:00:00:00:0a\nhost b 02:00:00:00:00:0b 5 600\nattach a s 0\nreadonly s 7\n\
    read a e1.0 281474976710655 255\nwrite a e1.0 0 0 5a\nflush a e1.0\nidentify a e1.0\nconfig a e1.0 read\nconfig a e1.0 test -\nconfig a e1.0 force 00ff\n\
    masks a e1.0 read\nmasks a e1.0 edit +02:00:00:00:00:0a,-ff:ff:ff:ff:ff:ff\nreserve a e1.0 read\nreserve a e1.0 set -\nreserve a e1.0 force 02:00:00:00:00:0a,02:00:00:00:00:0b\n\
    tick 1\ndeliver 3 b\npass 10\nskip 1\nagain\ninject ffffffffffff02000000000c88a2\nfail e1.7 store 1000\nstop e1.0 keep 1 mix:18446744073709551615\ncrash s torn\n";

/// Whether the script that a text spells is printed as that text.
fn is_printed_back(alloc: Global, text: &str) -> Result<bool, Fail> {
    let script = read(alloc, text)?;
    let printed = print_script(alloc, &script)?;
    Ok(printed.bytes() == text.as_bytes())
}

#[test]
fn prints_what_it_read(rt: HostRuntime) -> Result<(), Fail> {
    let same = is_printed_back(rt.alloc(), PRINTED)?;
    assert!(rt; same);
    Ok(())
}

/// Whether this is the text of a refusal.
fn is_told(alloc: Global, refusal: ScriptRefusal, text: &str) -> Result<bool, AllocError> {
    let told = format!(in alloc; "{refusal}")?;
    Ok(told.as_str() == text)
}

#[test]
fn says_why_a_script_is_refused(rt: HostRuntime) -> Result<(), Fail> {
    let cases = [
        (ScriptRefusal::NoMemory, "no memory"),
        (bad(7, Why::Word), "line 7 is bad"),
        (ScriptRefusal::TooMany, "too many events"),
        (ScriptRefusal::TooLong, "too many bytes"),
    ];
    for (refusal, text) in &cases {
        holds(&rt, is_told(rt.alloc(), *refusal, text)?, text);
    }
    Ok(())
}
