//! A poll of the system as a bell, and who waits for a link's frames. It tells nothing of its waits.
ghost use Rattle.std.specs.Prelude.{◌≡◌, None};

use aoe_base::Millis;
use aoe_clients::Bell;
use mio::unix::SourceFd;
use mio::{Events, Interest, Poll, Registry, Token};
use std::cell::Cell;
use std::io;
use std::io::ErrorKind;
use std::os::fd::{AsRawFd, RawFd};
use std::time::Duration;

/// What is waited for: the link, the listener and its client.
const SOURCES: usize = 3;

/// The names of the sources. Nothing looks at them: each side is asked for what it has.
const LINK: Token = Token(0);

pub(crate) const LISTENER: Token = Token(1);

pub(crate) const CLIENT: Token = Token(2);

/// Who waits for the frames of a link: its medium, and from its first wait on a bell.
#[derive(Drop)]
pub struct Waiter {
    is_bell: Cell<bool>,
}

impl Waiter {
    /// The medium.
    pub fn medium() -> Waiter {
        Waiter {
            is_bell: Cell::new(false),
        }
    }

    /// Whether it is the bell.
    pub(crate) fn is_bell(&self) -> bool {
        self.is_bell.get()
    }
}

/// A bell over the descriptors of a link, a listener and its client. It rings once for what becomes ready:
/// a side has to be asked until it has nothing, or be asked again before the next wait.
#[derive(Drop)]
pub struct PollBell<'a> {
    waiting: Option<Waiting>,
    waiter: &'a Waiter,
}

/// What waits.
#[derive(Drop)]
struct Waiting {
    poll: Poll,
    events: Events,
}

impl<'a> PollBell<'a> {
    /// A bell for a link, whose medium asks the waiter whether to wait for frames.
    pub fn new(
        rt: &HostRuntime,
        link: &impl AsRawFd,
        waiter: &'a Waiter,
    ) -> io::Result<PollBell<'a>> {
        let poll = Poll::new(rt)?;
        let link = link.as_raw_fd();
        poll.registry()
            .register(&mut SourceFd(&link), LINK, Interest::READABLE)?;
        let events = Events::with_capacity(rt.alloc(), SOURCES)?;
        Ok(PollBell {
            waiting: Some(Waiting { poll, events }),
            waiter,
        })
    }

    /// One that doesn't wait.
    pub fn still(waiter: &'a Waiter) -> PollBell<'a> {
        PollBell {
            waiting: None,
            waiter,
        }
    }

    /// What enters further descriptors.
    pub(crate) fn registry(&self) -> io::Result<Registry> {
        match &self.waiting {
            Some(waiting) => waiting.poll.registry().try_clone(),
            None => Err(io::Error::from(ErrorKind::Unsupported)),
        }
    }
}

/// Lets a bell ring for what becomes ready at a descriptor.
pub(crate) fn enter(registry: &Registry, descriptor: RawFd, name: Token) -> io::Result<()> {
    registry.register(&mut SourceFd(&descriptor), name, Interest::READABLE)
}

impl Bell for PollBell<'_> {
    ghost waits = { λ _. None };

    /// Where the system can't wait, it doesn't.
    fn wait(&mut self, most: Millis) {
        self.waiter.is_bell.set(true);
        if let Some(waiting) = &mut self.waiting {
            let most = Duration::from_millis(most.0);
            let _ = waiting.poll.poll(&mut waiting.events, Some(most));
        }
    }
}
