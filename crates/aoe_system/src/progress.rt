//! How far the copying at the start of a mirror has come, for whoever sits before a terminal.
use aoe_base::SECTOR_LEN;
use std::io::{IsTerminal, Write};
use std::time::{Clock, Duration};

/// How often it is said, in seconds.
const PERIOD: u64 = 1;

/// Watches the calls of one side. The copying writes runs of sectors, each at or behind the end of the one
/// before it, and syncs each. A run that can't be copied isn't written, or not synced, and the next one is
/// written all the same. What else is called shows that this side isn't copied to any more.
#[derive(Drop)]
pub struct Progress {
    rt: HostRuntime,

    /// The first sector behind the runs that were tried.
    tried: u64,

    /// The sectors that were written and not synced.
    written: u64,

    /// The sectors that were synced.
    synced: u64,

    /// The time at which it is said next.
    due: Duration,
    is_said: bool,
}

impl Progress {
    /// None where standard error is no terminal, or the system tells no time.
    pub fn on_terminal(rt: &HostRuntime) -> Option<Progress> {
        if !rt.stderr().is_terminal() {
            return None;
        }
        Some(Progress {
            rt: *rt,
            tried: 0,
            written: 0,
            synced: 0,
            due: rt
                .monotonic()
                .ok()?
                .saturating_add(Duration::from_secs(PERIOD)),
            is_said: false,
        })
    }

    /// Whether a write of these bytes from sector `at` on goes on with the copying.
    pub fn goes_on(&mut self, at: u64, piece: &[u8]) -> bool {
        let is_next = at >= self.tried;
        if is_next {
            self.written = (piece.len() / SECTOR_LEN) as u64;
            self.tried = at.saturating_add(self.written);
        }
        is_next
    }

    /// A call failed, so what was written isn't copied.
    pub fn fails(&mut self) {
        self.written = 0;
    }

    /// Whether a sync goes on with the copying of so many sectors in all. What it ends is said.
    pub fn is_synced(&mut self, sectors: u64) -> bool {
        if self.written == 0 {
            return false;
        }
        self.synced = self.synced.saturating_add(self.written);
        self.written = 0;
        self.say_in_time(sectors);
        self.tried < sectors
    }

    /// Says it once a period.
    fn say_in_time(&mut self, sectors: u64) {
        if let Ok(time) = self.rt.monotonic()
            && self.due <= time
        {
            self.due = time.saturating_add(Duration::from_secs(PERIOD));
            self.is_said = true;
            self.say(sectors);
        }
    }

    fn say(&self, sectors: u64) {
        let copied = self.synced;
        if let Ok(text) = format!(in self.rt.alloc();
            "\raoe: copied {copied} of {sectors} sectors"
        ) {
            let _ = self.rt.stderr().write_all(text.as_bytes());
        }
    }

    /// Ends the line, where there is one.
    pub fn close(self, sectors: u64) {
        if self.is_said {
            self.say(sectors);
            let _ = self.rt.stderr().write_all(b"\n");
        }
    }
}
