//! The clients of a Unix socket. It tells nothing of what they say.
ghost use Rattle.std.specs.Prelude.{◌≡◌, ◌≢◌, ◌↔◌, ◌<◌, ◌≤◌, ◌+◌, None, Ok, IfOk, IsErrAnd, OnErr, OnOk, false, is_some, length, true};
ghost use Rattle.std.specs.IoError.{error_kind};
ghost use Rattle.aoe_base.specs.Faults.{Rose};
ghost use Rattle.aoe_clients.specs.Clients.{IfBytes, stays};

use crate::bell::{CLIENT, LISTENER, PollBell, enter};
use crate::log::ClientLog;
use crate::streams::{read_through, write_through};
use aoe_base::Failed;
use aoe_clients::{Clients, Moved};
use mio::unix::SourceFd;
use mio::{Interest, Registry};
use std::io::ErrorKind;
use std::os::fd::AsRawFd;
use std::os::unix::fs::{FileTypeExt, MetadataExt};
use std::os::unix::net::{UnixListener, UnixStream};
use std::{fs, io};

/// How often a call that a signal interrupts is made again: as often as std does for files.
const TRIES: u64 = u64::MAX;

/// Why nobody can be awaited at a name.
#[derive(Drop)]
pub enum SocketRefusal {
    /// No socket can be bound to it.
    Unbound(io::Error),

    /// It names something that is no socket.
    Kind,

    /// Somebody listens there.
    InUse,
}

impl From<io::Error> for SocketRefusal {
    fn from(error: io::Error) -> SocketRefusal {
        SocketRefusal::Unbound(error)
    }
}

/// Removes the socket of this name where nobody listens at it.
fn remove_dead(rt: &HostRuntime, name: &str) -> Result<(), SocketRefusal> {
    if !fs::symlink_metadata(rt, name)?.file_type().is_socket() {
        return Err(SocketRefusal::Kind);
    }
    // One of mio waits for nothing, also where the queue of who listens is full.
    match mio::net::UnixStream::connect(rt, name) {
        Ok(_) => Err(SocketRefusal::InUse),
        Err(error) => match error.kind() {
            ErrorKind::ConnectionRefused => Ok(fs::remove_file(rt, name)?),
            ErrorKind::WouldBlock => Err(SocketRefusal::InUse),
            _ => Err(SocketRefusal::Unbound(error)),
        },
    }
}

/// Listens at a name, in the place of who listened there before and does no more.
fn listen(rt: &HostRuntime, name: &str) -> Result<UnixListener, SocketRefusal> {
    match UnixListener::bind(rt, name) {
        Err(error) if error.kind() == ErrorKind::AddrInUse => remove_dead(rt, name)?,
        answer => return Ok(answer?),
    }
    Ok(UnixListener::bind(rt, name)?)
}

/// The file of a socket, which is removed at the end, unless the name is another's by then.
struct SocketFile {
    rt: HostRuntime,
    name: String,
    device: u64,
    inode: u64,
}

impl SocketFile {
    /// Of the socket that was just bound to this name.
    fn new(rt: &HostRuntime, name: String) -> io::Result<SocketFile> {
        let metadata = fs::symlink_metadata(rt, name.as_str())?;
        Ok(SocketFile {
            rt: *rt,
            name,
            device: metadata.dev(),
            inode: metadata.ino(),
        })
    }

    /// Whether the name is still that of the socket.
    fn is_there(&self) -> bool {
        match fs::symlink_metadata(&self.rt, self.name.as_str()) {
            Ok(metadata) => metadata.dev() == self.device && metadata.ino() == self.inode,
            Err(_) => false,
        }
    }
}

impl Drop for SocketFile {
    fn drop(self) {
        if self.is_there() {
            let _ = fs::remove_file(&self.rt, self.name.as_str());
        }
        let SocketFile {
            rt: _,
            name: _,
            device: _,
            inode: _,
        } = self;
    }
}

/// What an answer of a connection comes to. One that fails is a client that left.
fn moved_of(answer: io::Result<usize>) -> Moved
    ensures bytes { IfBytes result (λ n. (0 < n) × (answer ≡ Ok n)) }
    ensures nothing { result ≡ Moved.Nothing
        ↔ IsErrAnd answer (λ e. error_kind e ≡ ErrorKind.WouldBlock) }
{
    match answer {
        Ok(0) => Moved::Left,
        Ok(count) => Moved::Bytes(count),
        Err(error) if error.kind() == ErrorKind::WouldBlock => Moved::Nothing,
        Err(_) => Moved::Left,
    }
}

/// A client that was accepted.
#[derive(Drop)]
struct Client {
    stream: UnixStream,

    /// Whether the bell rings for room, too.
    wants_room: bool,
}

impl Client {
    /// Lets the bell ring for room as well, or no longer. Where that fails the wait just ends later.
    fn want_room(&mut self, registry: &Registry, wants_room: bool) {
        if wants_room == self.wants_room {
            return;
        }
        let interest = if wants_room {
            Interest::READABLE | Interest::WRITABLE
        } else {
            Interest::READABLE
        };
        let descriptor = self.stream.as_raw_fd();
        let _ = registry.reregister(&mut SourceFd(&descriptor), CLIENT, interest);
        self.wants_room = wants_room;
    }
}

/// The next client that waits, where one does, as one that a bell rings for.
fn next_of(listener: &UnixListener, registry: &Registry) -> io::Result<Option<Client>> {
    'tries: for _ in 0..TRIES {
        let stream = match listener.accept() {
            Ok((stream, _)) => stream,
            Err(error) => match error.kind() {
                ErrorKind::Interrupted | ErrorKind::ConnectionAborted => continue 'tries,
                ErrorKind::WouldBlock => return Ok(None),
                _ => return Err(error),
            },
        };
        stream.set_nonblocking(true)?;
        enter(registry, stream.as_raw_fd(), CLIENT)?;
        return Ok(Some(Client {
            stream,
            wants_room: false,
        }));
    }
    Ok(None)
}

/// A socket that is listened at.
#[derive(Drop)]
struct Socket {
    listener: UnixListener,
    registry: Registry,
    file: SocketFile,
}

impl Socket {
    fn listen(rt: &HostRuntime, name: String, bell: &PollBell) -> Result<Socket, SocketRefusal> {
        let listener = listen(rt, name.as_str())?;
        let file = SocketFile::new(rt, name)?;
        listener.set_nonblocking(true)?;
        let registry = bell.registry()?;
        enter(&registry, listener.as_raw_fd(), LISTENER)?;
        Ok(Socket {
            listener,
            registry,
            file,
        })
    }
}

/// The clients of a Unix socket, one after another. The others wait in the system's queue.
#[derive(Drop)]
pub struct UnixClients {
    socket: Option<Socket>,
    client: Option<Client>,
    faults: u64,
    log: Option<ClientLog>,
}

impl UnixClients {
    /// Listens at a name. A socket that is there and at which nobody listens is removed before. The
    /// bell rings for each client and for what it says. The file is removed once this is dropped.
    pub fn listen(
        rt: &HostRuntime,
        name: String,
        bell: &PollBell,
    ) -> Result<UnixClients, SocketRefusal>
        ensures faults { IfOk result (λ clients. ⟦<UnixClients as Clients>⟧.faults clients ≡ 0) }
        ensures nobody { IfOk result
            (λ clients. ⟦<UnixClients as Clients>⟧.connected clients ≡ false) }
    {
        let socket = Socket::listen(rt, name, bell)?;
        Ok(UnixClients {
            socket: Some(socket),
            client: None,
            faults: 0,
            log: None,
        })
    }

    /// Of no socket: nobody ever comes.
    pub fn nobody() -> UnixClients
        ensures faults { ⟦<UnixClients as Clients>⟧.faults result ≡ 0 }
        ensures nobody { ⟦<UnixClients as Clients>⟧.connected result ≡ false }
    {
        UnixClients {
            socket: None,
            client: None,
            faults: 0,
            log: None,
        }
    }

    /// From now on each client that comes and goes is said.
    pub fn log_to(&mut self, log: ClientLog)
        ensures faults { ⟦<UnixClients as Clients>⟧.faults self.new
            ≡ ⟦<UnixClients as Clients>⟧.faults self.old }
        ensures connected { ⟦<UnixClients as Clients>⟧.connected self.new
            ≡ ⟦<UnixClients as Clients>⟧.connected self.old }
    {
        self.log = Some(log);
    }

    /// Says how many clients came, where there is a log.
    pub fn tell_end(&self) {
        if let Some(log) = &self.log {
            log.tell_end();
        }
    }

    /// The client goes on being there.
    fn keep(&mut self, mut client: Client, wants_room: bool)
        ensures faults { self.new.faults ≡ self.old.faults }
        ensures connected { is_some self.new.client ≡ true }
    {
        if let Some(socket) = &self.socket {
            client.want_room(&socket.registry, wants_room);
        }
        self.client = Some(client);
    }

    /// Says that the client is there no more, where there is a log.
    fn tell_gone(&self, how: &str) {
        if let Some(log) = &self.log {
            log.tell(how);
        }
    }
}

impl Clients for UnixClients {
    ghost told = { λ _. None };

    ghost coming = { λ _. None };

    ghost connected = { λ c. is_some c.client };

    ghost faults = { λ c. c.faults };

    fn is_connected(&self) -> bool {
        self.client.is_some()
    }

    fn accept(&mut self) -> Result<bool, Failed> {
        let Some(socket) = &self.socket else {
            return Ok(false);
        };
        match next_of(&socket.listener, &socket.registry) {
            Ok(Some(client)) => {
                self.client = Some(client);
                if let Some(log) = &mut self.log {
                    log.came();
                }
                Ok(true)
            }
            Ok(None) => Ok(false),
            Err(_) => {
                self.faults = self.faults.saturating_add(1);
                Err(Failed)
            }
        }
    }

    fn read(&mut self, out: &mut [u8]) -> Moved {
        let Some(mut client) = self.client.take() else {
            return Moved::Left;
        };
        let wants_room = client.wants_room;
        match moved_of(read_through(&mut client.stream, out)) {
            Moved::Bytes(count) => {
                self.keep(client, wants_room);
                Moved::Bytes(count)
            }
            Moved::Nothing => {
                self.keep(client, wants_room);
                Moved::Nothing
            }
            Moved::Left => {
                self.tell_gone("left");
                Moved::Left
            }
        }
    }

    fn write(&mut self, piece: &[u8]) -> Moved {
        let Some(mut client) = self.client.take() else {
            return Moved::Left;
        };
        match moved_of(write_through(&mut client.stream, piece)) {
            Moved::Bytes(count) => {
                self.keep(client, false);
                Moved::Bytes(count)
            }
            Moved::Nothing => {
                self.keep(client, true);
                Moved::Nothing
            }
            Moved::Left => {
                self.tell_gone("left");
                Moved::Left
            }
        }
    }

    fn close(&mut self) {
        self.client = None;
        self.tell_gone("was closed");
    }
}
