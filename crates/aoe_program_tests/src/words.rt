mod accepted;
mod refused;
mod slips;

use aoe_args::{
    Alone, Answer, Asking, Audit, Cfg, Command, CommandLine, Discover, Flush, Get, InputFile, Live,
    Mask, Mirror, Nbd, PortKinds, PortWords, Put, Reserve, Serve, SlipText, Soak, Stat, Switch,
    Tool, meant, read_words, slip_of,
};
use aoe_base::{Blob, Mac, NoMemory, Ports, TargetId};
use aoe_lists::Dir;
use aoe_vlan::PortKind;
use arrayvec::ArrayVec;
use std::alloc::{AllocError, Global};
use std::process::Abort;
use std::test::Fail;

/// The ends of a link, as every tool is told them.
const ENDS: &str = " --local 0.0.0.0:1 --peers 10.0.0.1:1";

/// The words that single spaces part. Two spaces have an empty word between them.
fn words_of(alloc: Global, line: &str) -> Result<Vec<String>, AllocError> {
    let mut words = Vec::new(alloc);
    for word in line.split(' ') {
        words.push(String::from_str(alloc, word)?)?;
    }
    Ok(words)
}

/// What these words spell, without what is proved of it.
fn read(alloc: Global, words: &[String]) -> Result<Option<CommandLine>, NoMemory> {
    read_words(alloc, words)
}

/// What a line spells.
fn read_line(alloc: Global, line: &str) -> Result<Option<CommandLine>, Fail> {
    let words = words_of(alloc, line)?;
    Ok(read(alloc, words.as_slice())?)
}

/// Adds these bytes, and a space in front of them where others stand.
fn add_part(joined: &mut Vec<u8>, bytes: &[u8]) -> Result<(), AllocError> {
    if !joined.is_empty() {
        joined.extend_from_slice(b" ")?;
    }
    joined.extend_from_slice(bytes)
}

/// Adds the names of files.
fn add_files(files: &[String], joined: &mut Vec<u8>) -> Result<(), Fail> {
    for name in files {
        add_part(joined, name.as_bytes())?;
    }
    Ok(())
}

/// Adds a link over UDP.
fn add_udp(
    alloc: Global,
    local: &Blob,
    peers: &Blob,
    vxlan: Option<u32>,
    joined: &mut Vec<u8>,
) -> Result<(), Fail> {
    add_part(joined, local.bytes())?;
    joined.extend_from_slice(b">")?;
    joined.extend_from_slice(peers.bytes())?;
    if let Some(vni) = vxlan {
        let text = format!(in alloc; "#{vni}")?;
        joined.extend_from_slice(text.as_bytes())?;
    }
    Ok(())
}

/// Adds links, each as `local>peers`, with `#` and the number of its VXLAN, or as the name of its tap
/// file.
fn add_links(alloc: Global, links: &[PortWords], joined: &mut Vec<u8>) -> Result<(), Fail> {
    for link in links {
        match link {
            PortWords::Udp {
                local,
                peers,
                vxlan,
            } => add_udp(alloc, local, peers, *vxlan, joined)?,
            PortWords::Tap { file } => add_part(joined, file.bytes())?,
        }
    }
    Ok(())
}

/// Adds a name that needn't be there, behind its mark.
fn add_name(mark: &[u8], name: &Option<String>, joined: &mut Vec<u8>) -> Result<(), Fail> {
    if let Some(name) = name {
        add_part(joined, mark)?;
        joined.extend_from_slice(name.as_bytes())?;
    }
    Ok(())
}

/// Adds what is said of a mirror one of whose files is gone: the side that is there, and MARK.
fn add_alone(alloc: Global, alone: &Option<Alone>, joined: &mut Vec<u8>) -> Result<(), Fail> {
    if let Some(alone) = alone {
        let text = format!(in alloc; "{}:", alone.side)?;
        add_part(joined, text.as_bytes())?;
        joined.extend_from_slice(alone.mark.as_bytes())?;
    }
    Ok(())
}

/// Adds the part of a file that is read, as `name+skip` and `*count` where there is a number.
fn add_input(alloc: Global, input: &Option<InputFile>, joined: &mut Vec<u8>) -> Result<(), Fail> {
    if let Some(input) = input {
        let text = format!(in alloc; "<{}+{}", input.name, input.skip)?;
        add_part(joined, text.as_bytes())?;
        if let Some(count) = input.count {
            let text = format!(in alloc; "*{count}")?;
            joined.extend_from_slice(text.as_bytes())?;
        }
    }
    Ok(())
}

/// What a line opens, its files and then its links, its socket behind an at sign, the file whose coming
/// ends the run behind an exclamation mark, the file that is written behind `>`, the part that is read of
/// one behind `<`, whether it is told how far the run has come, the side of a
/// mirror that is there with its MARK, and whether the other side may lead.
fn opened(alloc: Global, line: &str) -> Result<Vec<u8>, Fail> {
    let mut joined = Vec::new(alloc);
    if let Some(read) = read_line(alloc, line)? {
        add_files(read.files.as_slice(), &mut joined)?;
        add_links(alloc, read.links.as_slice(), &mut joined)?;
        add_name(b"@", &read.socket, &mut joined)?;
        add_name(b"!", &read.stop, &mut joined)?;
        add_name(b">", &read.output, &mut joined)?;
        add_input(alloc, &read.input, &mut joined)?;
        if read.is_told {
            add_part(&mut joined, b"told")?;
        }
        add_alone(alloc, &read.alone, &mut joined)?;
        if read.lead_other {
            add_part(&mut joined, b"other")?;
        }
    }
    Ok(joined)
}

/// A line that begins so, with a piece so many times behind it.
fn long_line(alloc: Global, begin: &str, piece: &str, count: u32) -> Result<String, AllocError> {
    let mut line = String::from_str(alloc, begin)?;
    for _ in 0..count {
        line.push_str(piece)?;
    }
    Ok(line)
}

/// Whether a line with this end spells a command.
fn spells(alloc: Global, line: &str, end: &str, command: &Command) -> Result<bool, Fail> {
    let whole = long_line(alloc, line, end, 1)?;
    let read = read_line(alloc, whole.as_str())?;
    Ok(read.is_some_and(|read| read.command == *command))
}

/// Each line spells the command beside it, with the same end behind all of them.
fn reads(rt: &impl Abort, alloc: Global, end: &str, cases: &[(&str, Command)]) -> Result<(), Fail> {
    for (line, command) in cases {
        let spelled = spells(alloc, line, end, command)?;
        assert!(rt; spelled, "{line}");
    }
    Ok(())
}

/// Whether a line with this end spells nothing.
fn is_refused(alloc: Global, line: &str, end: &str) -> Result<bool, Fail> {
    let whole = long_line(alloc, line, end, 1)?;
    Ok(read_line(alloc, whole.as_str())?.is_none())
}

/// Each line spells nothing, with the same end behind all of them.
fn refuses(rt: &impl Abort, alloc: Global, end: &str, lines: &[&str]) -> Result<(), Fail> {
    for line in lines {
        let refused = is_refused(alloc, line, end)?;
        assert!(rt; refused, "{line}");
    }
    Ok(())
}

/// Each line opens what stands beside it.
fn opens(rt: &impl Abort, alloc: Global, cases: &[(&str, &str)]) -> Result<(), Fail> {
    for (line, names) in cases {
        let opened = opened(alloc, line)?;
        assert!(rt; opened.as_slice() == names.as_bytes(), "{line}");
    }
    Ok(())
}

/// A station's address that ends so.
fn mac(last: u8) -> Mac {
    Mac([2, 0, 0, 0, 0, last])
}

/// A list of ports.
fn ports(macs: &[Mac]) -> Ports {
    let mut ports = Ports::new();
    let _ = ports.try_extend_from_slice(macs);
    ports
}

/// What `answer` asks for, or `capture`.
fn over_stream(id: TargetId, port: Mac, mtu: u32, cache: u32, captures: bool) -> Command {
    Command::Answer(Answer {
        id,
        port,
        mtu,
        cache,
        captures,
        durable: false,
    })
}

/// What `answer` asks for.
fn answer(major: u16, minor: u8, port: Mac, mtu: u32, cache: u32) -> Command {
    over_stream(TargetId { major, minor }, port, mtu, cache, false)
}

/// What `capture` asks for.
fn capture(major: u16, minor: u8, port: Mac, mtu: u32, cache: u32) -> Command {
    over_stream(TargetId { major, minor }, port, mtu, cache, true)
}

/// What `serve` asks for.
fn serve(
    shelf: u16,
    slots: u8,
    macs: &[Mac],
    mtu: u32,
    cache: u32,
    frames: Option<u32>,
    idle: Option<u32>,
) -> Command {
    Command::Serve(Serve {
        shelf,
        slot: 0,
        slots,
        ports: ports(macs),
        mtu,
        cache,
        durable: false,
        frames,
        idle,
    })
}

/// What `mirror` asks for, over a link or a stream.
fn mirror(major: u16, minor: u8, port: Mac, mtu: u32, link: Option<Option<u32>>) -> Command {
    Command::Mirror(Mirror {
        id: TargetId { major, minor },
        port,
        mtu,
        is_served: link.is_some(),
        idle: link.flatten(),
    })
}

/// What `mirror` asks for over a link, where one of its files is gone.
fn serve_alone(shelf: u16, slot: u8, port: Mac, mtu: u32, idle: Option<u32>) -> Command {
    Command::Serve(Serve {
        shelf,
        slot,
        slots: 1,
        ports: ports(&[port]),
        mtu,
        cache: 0,
        durable: false,
        frames: None,
        idle,
    })
}

/// What `audit` asks for.
fn audit(major: u16, minor: u8, macs: &[Mac], mtu: u32, sectors: u64) -> Command {
    Command::Audit(Audit {
        id: TargetId { major, minor },
        ports: ports(macs),
        mtu,
        sectors,
    })
}

/// What `live` asks for.
fn live(sectors: u32, count: u32, turns: u32) -> Command {
    Command::Live(Live {
        sectors,
        count,
        turns,
    })
}

/// What `soak` asks for.
fn soak(seed: u16, count: u32) -> Command {
    Command::Soak(Soak { seed, count })
}

/// A trunk of these VLANs.
fn trunk(vids: &[u16]) -> PortKind {
    let mut numbers = ArrayVec::new();
    let _ = numbers.try_extend_from_slice(vids);
    PortKind::Trunk(numbers)
}

/// What `switch` asks for, of two ports.
fn switch(first: PortKind, second: PortKind) -> Command {
    let mut ports = PortKinds::new();
    ports.push(first);
    ports.push(second);
    Command::Switch(Switch { ports })
}

/// Who asks where nothing is said of it.
fn asking() -> Asking {
    Asking {
        port: mac(10),
        turns: 50,
    }
}

/// What `discover` asks for.
fn discover(asking: Asking, long: bool) -> Command {
    Command::Ask(Tool::Discover(Discover { asking, long }))
}

/// What `stat` asks for.
fn stat(asking: Asking, sectors: bool) -> Command {
    Command::Ask(Tool::Stat(Stat { asking, sectors }))
}

/// The device that the tools ask.
fn device() -> TargetId {
    TargetId { major: 1, minor: 2 }
}

/// What `cfg` asks of the device.
fn cfg(ccmd: u8, string: &[u8]) -> Command {
    let mut text = ArrayVec::new();
    let _ = text.try_extend_from_slice(string);
    Command::Ask(Tool::Cfg(Cfg {
        asking: asking(),
        id: device(),
        ccmd,
        text,
    }))
}

/// What `mask` asks of the device.
fn mask(edit: Option<&[Dir]>) -> Command {
    let dirs = match edit {
        Some(edit) => {
            let mut dirs = ArrayVec::new();
            let _ = dirs.try_extend_from_slice(edit);
            Some(dirs)
        }
        None => None,
    };
    Command::Ask(Tool::Mask(Mask {
        asking: asking(),
        id: device(),
        dirs,
        anyway: false,
    }))
}

/// What `reserve` asks of the device.
fn reserve(rcmd: u8, macs: &[Mac]) -> Command {
    let mut list = ArrayVec::new();
    let _ = list.try_extend_from_slice(macs);
    Command::Ask(Tool::Reserve(Reserve {
        asking: asking(),
        id: device(),
        rcmd,
        list,
    }))
}

/// Who asks for so many turns.
fn asking_for(turns: u32) -> Asking {
    Asking {
        port: mac(10),
        turns,
    }
}

/// What `flush` asks of the device.
fn flush(lifetime: u32) -> Command {
    Command::Ask(Tool::Flush(Flush {
        asking: asking_for(5000),
        id: device(),
        lifetime,
    }))
}

/// What `get` asks of the device.
fn get(at: u64, count: Option<u64>, turns: u32, lifetime: u32) -> Command {
    Command::Get(Get {
        asking: asking_for(turns),
        id: device(),
        at,
        count,
        lifetime,
    })
}

/// What `put` asks of the device.
fn put(at: u64, turns: u32, lifetime: u32, verify: bool, no_flush: bool) -> Command {
    Command::Put(Put {
        asking: asking_for(turns),
        id: device(),
        at,
        lifetime,
        verify,
        no_flush,
    })
}

/// What `nbd` asks for where nothing is said of it.
fn nbd() -> Nbd {
    Nbd {
        asking: Asking {
            port: mac(11),
            turns: 5000,
        },
        id: device(),
        lifetime: 2000,
        read_only: false,
        flushes: true,
        once: false,
        idle: None,
    }
}

#[test]
fn names_files_and_links(rt: HostRuntime) -> Result<(), Fail> {
    let cases = [
        ("replay", ""),
        ("soak 7 2000", ""),
        ("answer 1 --mtu 1500 0 disk keep", "disk keep"),
        ("capture 1 --mtu 1500 0 disk keep", "disk keep"),
        ("audit 1 --mtu 1500 0 16 keep", "keep"),
        (
            "serve 1 d0 k0 --local 0.0.0.0:1 d1 --peers 10.0.0.1:1 k1",
            "d0 k0 d1 k1 0.0.0.0:1>10.0.0.1:1",
        ),
        (
            "serve 1 d k --local x --stop /run/aoe/stop --peers y",
            "d k x>y !/run/aoe/stop",
        ),
        (
            "live 16 10 --one 127.0.0.1:1 --two 127.0.0.1:2",
            "127.0.0.1:1>127.0.0.1:2 127.0.0.1:2>127.0.0.1:1",
        ),
        ("discover --tap /dev/tap7", "/dev/tap7"),
        (
            "put e1.0 0 --vxlan 16777215 --local 0.0.0.0:1 --peers 10.0.0.1:1",
            "0.0.0.0:1>10.0.0.1:1#16777215",
        ),
        ("get e1.0 --progress --local x --peers y", "x>y told"),
        ("put --progress e1.0 0 --tap y --verify", "y told"),
        ("live 16 10 --one a --two b --vxlan 0", "a>b#0 b>a#0"),
        ("live 16 10 --one-tap a --two-tap b", "a b"),
        (
            "nbd e1.0 --socket /run/aoe/e1.0 --tap t",
            "t @/run/aoe/e1.0",
        ),
        (
            "nbd --stop s --socket=u e1.0 --local x --peers y",
            "x>y @u !s",
        ),
    ];
    opens(&rt, rt.alloc(), &cases)
}

#[test]
fn names_the_files_of_a_mirror(rt: HostRuntime) -> Result<(), Fail> {
    let cases = [
        ("mirror 1 0 one two mark keep", "one two mark keep"),
        (
            "mirror 1 0 one two mark keep --lead-other",
            "one two mark keep other",
        ),
        ("mirror 1 0 - two mark keep", "two keep 1:mark"),
        ("mirror 1 0 one - mark keep", "one keep 0:mark"),
        (
            "mirror --lead-other 1 0 --mtu 1500 one - mark keep",
            "one keep 0:mark other",
        ),
        (
            "mirror 1 0 one two mark keep --tap t --stop s",
            "one two mark keep t !s",
        ),
        (
            "mirror 1 0 - two mark keep --local x --vxlan 7 --peers y --stop s",
            "two keep x>y#7 !s 1:mark",
        ),
        ("mirror --check one two mark", "one two mark"),
        ("mirror one two mark --check", "one two mark"),
    ];
    opens(&rt, rt.alloc(), &cases)
}
