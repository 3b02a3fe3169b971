//! What is said on standard error.
use std::io;
use std::io::Write;

/// Says a text on standard error.
pub fn say(rt: &HostRuntime, text: &[u8]) {
    let mut stderr = rt.stderr();
    let _ = stderr.write_all(text);
}

/// Says the failed calls of a file.
#[derive(Drop)]
pub struct FileLog {
    rt: HostRuntime,
    name: String,
}

impl FileLog {
    /// Of the file with this name.
    pub fn new(rt: &HostRuntime, name: String) -> FileLog {
        FileLog { rt: *rt, name }
    }

    /// Says that a call failed, and why; or that it wasn't made, since a sync failed before it.
    pub fn say(&self, call: &str, why: Option<&io::Error>) {
        let name = self.name.as_str();
        let text = match why {
            Some(error) => format!(in self.rt.alloc(); "aoe: {name}: {call} failed: {error}\n"),
            None => format!(in self.rt.alloc();
                "aoe: {name}: {call} wasn't made, since a sync failed\n"
            ),
        };
        if let Ok(text) = text {
            say(&self.rt, text.as_bytes());
        }
    }
}

/// Says which clients come and go.
#[derive(Drop)]
pub struct ClientLog {
    rt: HostRuntime,
    came: u64,
}

impl ClientLog {
    /// Before the first client.
    pub fn new(rt: &HostRuntime) -> ClientLog {
        ClientLog { rt: *rt, came: 0 }
    }

    /// The next client came.
    pub(crate) fn came(&mut self) {
        self.came = self.came.saturating_add(1);
        self.tell("came");
    }

    /// Says how many clients came.
    pub(crate) fn tell_end(&self) {
        let came = self.came;
        if let Ok(text) = format!(in self.rt.alloc(); "aoe: {came} clients were served\n") {
            say(&self.rt, text.as_bytes());
        }
    }

    /// Says what became of the client that came last.
    pub(crate) fn tell(&self, what: &str) {
        let number = self.came;
        if let Ok(text) = format!(in self.rt.alloc(); "aoe: client {number} {what}\n") {
            say(&self.rt, text.as_bytes());
        }
    }
}
