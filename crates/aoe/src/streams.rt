//! What a command reads and writes as bytes: the standard streams, or of a copy files that are named.
use crate::tell_refused;
use aoe_args::{Command, CommandLine, InputFile};
use aoe_system::{FilePart, Flow, PartRefusal, Reader, Writer, say};

/// The exit status of a file that can't be used.
const UNUSABLE: u8 = 5;

/// What is read and what is written.
#[derive(Drop)]
pub struct Streams {
    pub reader: Reader,
    pub writer: Writer,
}

/// Says that a file has fewer sectors than are asked for, and gives the exit status.
fn tell_short(rt: &HostRuntime, input: &InputFile, sectors: u64) -> u8 {
    let name = &input.name;
    let needed = input.skip.saturating_add(input.count.unwrap_or(0));
    if let Ok(text) = format!(in rt.alloc();
        "aoe: {name} has {sectors} sectors, {needed} needed\n"
    ) {
        say(rt, text.as_bytes());
    }
    UNUSABLE
}

/// Opens what is read: standard input, or the part of a file that is named; the exit status where it can't
/// be opened, which is said.
fn open_reader(rt: &HostRuntime, input: &Option<InputFile>) -> Result<Reader, u8> {
    let Some(input) = input else {
        return Ok(Reader::Standard(rt.stdin()));
    };
    match FilePart::open(rt, input.name.as_str(), input.skip, input.count) {
        Ok(part) => Ok(Reader::Part(part)),
        Err(PartRefusal::File(refusal)) => Err(tell_refused(rt, input.name.as_bytes(), refusal)),
        Err(PartRefusal::Short { sectors }) => Err(tell_short(rt, input, sectors)),
    }
}

/// Opens what is written: standard output, or the file of this name; the exit status where it can't be
/// opened, which is said.
fn open_writer(rt: &HostRuntime, output: &Option<String>) -> Result<Writer, u8> {
    let Some(name) = output else {
        return Ok(Writer::Standard(rt.stdout()));
    };
    match Writer::create(rt, name.as_str()) {
        Ok(writer) => Ok(writer),
        Err(refusal) => Err(tell_refused(rt, name.as_bytes(), refusal)),
    }
}

impl Streams {
    /// Opens the streams of a command line; the exit status where one can't be opened, which is said. The flow
    /// is told how many sectors `put` has to copy, where that is known.
    pub fn open(rt: &HostRuntime, line: &CommandLine, flow: &Flow) -> Result<Streams, u8> {
        let reader = open_reader(rt, &line.input)?;
        if matches!(line.command, Command::Put(_))
            && let Some(sectors) = reader.sectors(rt)
        {
            flow.plan(sectors);
        }
        let writer = open_writer(rt, &line.output)?;
        Ok(Streams { reader, writer })
    }
}
