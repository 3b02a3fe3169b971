//! How far a copy has come, for whoever waits for it. It decides nothing.
use aoe_base::SECTOR_LEN;
use std::cell::Cell;
use std::fs;
use std::io::{IsTerminal, Write};
use std::time::{Clock, Duration};

/// How often it is said, in milliseconds.
const PERIOD: u64 = 1000;

/// Bytes a millisecond that make a megabyte a second.
const MEGABYTE_RATE: u64 = 1000;

/// What standard input is, and how much of it was read before this program began.
const INPUT: &str = "/dev/stdin";

const INPUT_PLACE: &str = "/proc/self/fdinfo/0";

/// Where it is said.
#[derive(Clone, Copy, PartialEq, Eq)]
enum Place {
    Nowhere,

    /// On one line of a terminal, again and again.
    Terminal,

    /// Each time on a line of its own.
    Lines,
}

/// What is known of a copy, by the copy itself and by its link.
#[derive(Drop)]
pub struct Flow {
    rt: HostRuntime,
    place: Place,

    /// How many sectors there are in all, where that is known.
    sectors: Cell<Option<u64>>,

    /// How many of them, from the first one on, are copied.
    reached: Cell<u64>,

    /// The time at which it began.
    begin: Duration,

    /// The time at which it is said next.
    due: Cell<Duration>,

    /// How many bytes were said last; 0 where nothing was.
    said: Cell<usize>,

    /// How many frames had come when the link was last quiet behind one, how many had been sent, and when
    /// that was.
    came: Cell<u64>,
    sent: Cell<u64>,
    heard: Cell<Duration>,
}

impl Flow {
    /// Of what is no copy: nothing is said.
    pub fn nowhere(rt: &HostRuntime) -> Flow {
        Flow::at(rt, Place::Nowhere, Duration::from_millis(0))
    }

    /// Of a copy. It is said where standard error is a terminal, and else by lines where that is asked for; and
    /// nowhere where the system tells no time.
    pub fn new(rt: &HostRuntime, is_asked: bool) -> Flow {
        let Ok(begin) = rt.monotonic() else {
            return Flow::nowhere(rt);
        };
        let place = if rt.stderr().is_terminal() {
            Place::Terminal
        } else if is_asked {
            Place::Lines
        } else {
            Place::Nowhere
        };
        Flow::at(rt, place, begin)
    }

    fn at(rt: &HostRuntime, place: Place, begin: Duration) -> Flow {
        Flow {
            rt: *rt,
            place,
            sectors: Cell::new(None),
            reached: Cell::new(0),
            begin,
            due: Cell::new(begin.saturating_add(Duration::from_millis(PERIOD))),
            said: Cell::new(0),
            came: Cell::new(0),
            sent: Cell::new(0),
            heard: Cell::new(begin),
        }
    }

    /// How many sectors, from the first one on, are copied.
    pub fn reached(&self) -> u64 {
        self.reached.get()
    }

    /// So many sectors are to be copied in all.
    pub fn plan(&self, sectors: u64) {
        self.sectors.set(Some(sectors));
    }

    /// So many sectors, from the first one on, are copied. It is said once a period.
    pub fn reach(&self, sectors: u64) {
        self.reached.set(sectors);
        self.say_in_time();
    }

    /// Whether it is to be said again at a time. Then it is said next a period later.
    fn is_due(&self, time: Duration) -> bool {
        let is_due = self.due.get() <= time;
        if is_due {
            self.due
                .set(time.saturating_add(Duration::from_millis(PERIOD)));
        }
        is_due
    }

    /// Says a text: on a terminal over what stands there, and else on a line of its own.
    fn say(&self, text: &str) {
        let blanks = self.said.get().saturating_sub(text.len());
        let line = match self.place {
            Place::Nowhere => return,
            Place::Terminal => format!(in self.rt.alloc(); "\r{text}{:blanks$}", ""),
            Place::Lines => format!(in self.rt.alloc(); "{text}\n"),
        };
        if let Ok(line) = line {
            self.said.set(text.len());
            let _ = self.rt.stderr().write_all(line.as_bytes());
        }
    }

    /// Says how far it is at a time.
    fn say_speed(&self, time: Duration) {
        let copied = self.reached.get();
        let spent = time.saturating_sub(self.begin).as_millis().max(1);
        let rate = (u128::from(copied) * SECTOR_LEN as u128 / spent).max(1);
        let (speed, unit) = if rate < u128::from(MEGABYTE_RATE) {
            (rate, "KB")
        } else {
            (rate / u128::from(MEGABYTE_RATE), "MB")
        };
        let text = match self.sectors.get() {
            Some(all) => {
                let left = u128::from(all.saturating_sub(copied)) * SECTOR_LEN as u128;
                let seconds = left / rate / u128::from(PERIOD);
                format!(in self.rt.alloc();
                    "aoe: copied {copied} of {all} sectors, {speed} {unit} a second, {seconds} seconds left"
                )
            }
            None => format!(in self.rt.alloc();
                "aoe: copied {copied} sectors, {speed} {unit} a second"
            ),
        };
        if let Ok(text) = text {
            self.say(text.as_str());
        }
    }

    /// Says once a period how far it is.
    fn say_in_time(&self) {
        if self.place != Place::Nowhere
            && let Ok(time) = self.rt.monotonic()
            && self.is_due(time)
        {
            self.say_speed(time);
        }
    }

    /// Says that no answer came for so many seconds.
    fn say_silence(&self, seconds: u64) {
        let copied = self.reached.get();
        let text = match self.sectors.get() {
            _ if self.came.get() == 0 => format!(in self.rt.alloc(); "aoe: no answer yet"),
            Some(all) => format!(in self.rt.alloc();
                "aoe: copied {copied} of {all} sectors, no answer for {seconds} seconds"
            ),
            None => format!(in self.rt.alloc();
                "aoe: copied {copied} sectors, no answer for {seconds} seconds"
            ),
        };
        if let Ok(text) = text {
            self.say(text.as_str());
        }
    }

    /// The link is quiet, and so many frames came on it and were sent. Where frames were sent behind the last
    /// one that came, something is to be answered.
    #[cold]
    #[inline(never)]
    pub fn quiet(&self, came: u64, sent: u64) {
        if self.place == Place::Nowhere {
            return;
        }
        let Ok(time) = self.rt.monotonic() else {
            return;
        };
        if came != self.came.get() {
            self.came.set(came);
            self.sent.set(sent);
            self.heard.set(time);
            return;
        }
        let seconds = time.saturating_sub(self.heard.get()).as_secs();
        if sent != self.sent.get() && seconds > 0 && self.is_due(time) {
            self.say_silence(seconds);
        }
    }

    /// Says how far the copy came, and ends the line, where there is one.
    pub fn close(&self) {
        if self.said.get() == 0 {
            return;
        }
        if self.reached.get() > 0
            && let Ok(time) = self.rt.monotonic()
        {
            self.say_speed(time);
        }
        if self.place == Place::Terminal {
            let _ = self.rt.stderr().write_all(b"\n");
        }
    }
}

/// How many bytes of standard input were read before, where it tells.
fn input_place(rt: &HostRuntime) -> Option<u64> {
    let told = fs::read_to_string(rt, INPUT_PLACE).ok()?;
    let place = told.as_str().split('\n').next()?.strip_prefix("pos:")?;
    place.trim().parse::<u64>().ok()
}

/// How many whole sectors standard input has left, where it is a file.
pub(crate) fn input_sectors(rt: &HostRuntime) -> Option<u64> {
    let input = fs::metadata(rt, INPUT).ok()?;
    if !input.file_type().is_file() {
        return None;
    }
    Some(input.len().saturating_sub(input_place(rt)?) / SECTOR_LEN as u64)
}
