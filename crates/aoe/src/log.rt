//! What a service's log gets on standard error, where the environment asks for it or that is a terminal.
use aoe_args::{Command, PortWords};
use aoe_base::{Mac, put_macs};
use aoe_disk::Disk;
use aoe_keep::Keep;
use aoe_system::{FileDisk, FileLog, Until, Wire, say};
use aoe_wire::WireLink;
use std::alloc::AllocError;
use std::env;
use std::io::IsTerminal;

/// The variable of the environment that asks for it by the value 1, and by another has none.
const ASKED: &str = "AOE_LOG";

/// The log of a run. Its first line is gathered while files and links are opened. What it has no memory for
/// isn't said.
#[derive(Drop)]
pub struct Log {
    rt: HostRuntime,
    line: Vec<u8>,
}

impl Log {
    /// None where none is asked for. Of a shelf that is served a terminal asks, too.
    pub fn asked(rt: &HostRuntime, is_served: bool) -> Option<Log> {
        let is_asked = match env::var(rt, ASKED) {
            Ok(value) => value.as_str() == "1",
            Err(_) => is_served && rt.stderr().is_terminal(),
        };
        if !is_asked {
            return None;
        }
        Some(Log {
            rt: *rt,
            line: Vec::new(rt.alloc()),
        })
    }

    fn add(&mut self, text: &[u8]) {
        let _ = self.line.extend_from_slice(text);
    }

    fn add_text(&mut self, text: Result<String, AllocError>) {
        if let Ok(text) = text {
            self.add(text.as_bytes());
        }
    }

    /// Adds a keep's lists, where it can be mounted, and gives its disk back.
    fn add_keep(&mut self, disk: FileDisk, name: &str) -> FileDisk {
        let rt = self.rt;
        match Keep::mount(disk) {
            Ok(keep) => {
                let (masks, reserves) = (keep.lists().masks.len(), keep.lists().reserves.len());
                self.add_text(format!(in rt.alloc(); " {name} {masks} masks {reserves} reserves;"));
                keep.close()
            }
            Err((_, disk)) => {
                self.add_text(format!(in rt.alloc(); " {name} without lists;"));
                disk
            }
        }
    }

    /// Adds a file, and gives it back. Each of its failed calls is said.
    pub fn watch(&mut self, mut disk: FileDisk, name: &str, is_keep: bool) -> FileDisk {
        let rt = self.rt;
        if let Ok(name) = format!(in rt.alloc(); "{name}") {
            disk.log_to(FileLog::new(&rt, name));
        }
        if is_keep {
            return self.add_keep(disk, name);
        }
        let sectors = disk.sectors();
        self.add_text(format!(in rt.alloc(); " {name} {sectors} sectors,"));
        disk
    }

    /// Adds what carries the frames.
    fn add_link(&mut self, words: &PortWords) {
        let rt = self.rt;
        match words {
            PortWords::Udp {
                local,
                peers,
                vxlan,
            } => {
                self.add(b" ");
                self.add(local.bytes());
                self.add(b" to ");
                self.add(peers.bytes());
                if let Some(vni) = vxlan {
                    self.add_text(format!(in rt.alloc(); " in VXLAN {vni}"));
                }
            }
            PortWords::Tap { file } => {
                self.add(b" ");
                self.add(file.bytes());
            }
        }
    }

    /// Says the shelf that a command serves over a link, where it does: its files, its ports and its link.
    pub fn start(&mut self, command: &Command, ends: &[PortWords]) {
        match command {
            Command::Serve(asked) => self.start_shelf(asked.shelf, asked.ports.as_slice(), ends),
            Command::Mirror(asked) if asked.is_served => {
                self.start_shelf(asked.id.major, &[asked.port], ends);
            }
            _ => {}
        }
    }

    fn start_shelf(&mut self, shelf: u16, ports: &[Mac], ends: &[PortWords]) {
        let rt = self.rt;
        if let Ok(text) = format!(in rt.alloc(); "aoe: shelf {shelf}:") {
            say(&rt, text.as_bytes());
        }
        self.add(b" ports ");
        let _ = put_macs(&mut self.line, ports);
        self.add(b";");
        'ends: for words in ends {
            self.add_link(words);
        }
        self.add(b"\n");
        say(&rt, self.line.as_slice());
    }

    /// Says what came of the shelf.
    pub fn end(&self, disks: &[Option<FileDisk>], link: &Until<WireLink<Wire>>) {
        let mut failed = 0u64;
        'disks: for disk in disks.iter().flatten() {
            failed = failed.saturating_add(disk.faults());
        }
        let (came, sent) = (link.came(), link.sent());
        if let Ok(text) = format!(in self.rt.alloc();
            "aoe: {came} frames came, {sent} were sent, {failed} calls of files failed\n"
        ) {
            say(&self.rt, text.as_bytes());
        }
    }
}
