//! A file that ends a run, and a link that ends once it is there. It tells nothing of what it gives and takes.
ghost use Rattle.std.specs.Prelude.{None};

use crate::flow::Flow;
use aoe_base::Failed;
use aoe_frame::Frame;
use aoe_io::{Got, Link};
use std::fs;

/// How many frames come at most before the file is looked for again.
const FRAMES: u32 = 1000;

/// A file whose coming ends a run, where there is a name for one.
#[derive(Drop)]
pub struct StopFile {
    rt: HostRuntime,
    name: Option<String>,
}

impl StopFile {
    pub fn new(rt: &HostRuntime, name: Option<String>) -> StopFile {
        StopFile { rt: *rt, name }
    }

    /// Whether the file is there. Where that can't be found out, it isn't.
    pub fn is_there(&self) -> bool {
        match &self.name {
            Some(name) => fs::exists(&self.rt, name.as_str()).unwrap_or(false),
            None => false,
        }
    }
}

/// A link that has ended once a file of this name is there, whatever still comes on it; where there is
/// no name, the link itself. The file is looked for before the first turn, behind each turn that brought
/// no frame, and behind so many frames. A turn that brought none is told.
#[derive(Drop)]
pub struct Until<'a, L: Link> {
    link: L,
    stop: StopFile,
    flow: &'a Flow,
    before_look: u32,
    turns: u64,
    came: u64,
    sent: u64,
}

impl<'a, L: Link> Until<'a, L> {
    pub fn new(rt: &HostRuntime, link: L, stop: Option<String>, flow: &'a Flow) -> Until<'a, L> {
        Until {
            link,
            stop: StopFile::new(rt, stop),
            flow,
            before_look: 0,
            turns: 0,
            came: 0,
            sent: 0,
        }
    }

    /// What it is over.
    pub fn link(&self) -> &L {
        &self.link
    }

    /// How many frames came.
    pub fn came(&self) -> u64 {
        self.came
    }

    /// How many frames were sent.
    pub fn sent(&self) -> u64 {
        self.sent
    }
}

impl<L: Link> Link for Until<'_, L> {
    ghost given = { λ _. None };

    ghost taken = { λ _. None };

    ghost coming = { λ _. None };

    ghost turns = { λ l. l.turns };

    ghost faults = { λ l. L.faults l.link };

    fn send(&mut self, frame: &[u8]) -> Result<(), Failed> {
        self.sent = self.sent.saturating_add(1);
        self.link.send(frame)
    }

    fn recv(&mut self, out: &mut Frame) -> Result<Got, Failed> {
        if self.before_look == 0 && self.stop.is_there() {
            self.turns = self.turns.saturating_add(1);
            return Ok(Got::Ended);
        }
        let got = match self.link.recv(out) {
            Ok(got) => got,
            Err(Failed) => return Err(Failed),
        };
        self.turns = self.turns.saturating_add(1);
        self.before_look = match got {
            Got::Frame if self.before_look == 0 => FRAMES - 1,
            Got::Frame => self.before_look - 1,
            Got::Quiet | Got::Ended => 0,
        };
        match got {
            Got::Frame => self.came = self.came.saturating_add(1),
            Got::Quiet => self.flow.quiet(self.came, self.sent),
            Got::Ended => {}
        }
        Ok(got)
    }
}
