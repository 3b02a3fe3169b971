//! What the errors of a socket mean.
ghost use Rattle.std.specs.Prelude.{◌≡◌, ◌≢◌, ◌↔◌, IsTrue};
ghost use Rattle.std.specs.IoError.{error_kind, raw_os_error};
ghost use Rattle.aoe_udp.specs.Errors.{is_loss, is_lost_sending, is_silence};
ghost use Rattle.aoe_wire.specs.declared.medium.Given.{Given as Gives};

use aoe_wire::Given;
use std::io;
use std::io::ErrorKind;
use thiserror::Error;

/// The number of the error by which Linux says that it has no room for what is sent, ENOBUFS.
const NO_BUFFERS: i32 = 105;

/// What an error of the socket means.
#[derive(Clone, Copy)]
pub(crate) enum Trouble {
    /// Nothing came as long as a call waits.
    Silence,

    /// A signal came.
    Interrupted,

    /// The other end isn't there: what was sent to it is lost.
    Lost,

    Fault,
}

/// What an error of this kind means.
pub(crate) fn trouble_of(kind: ErrorKind) -> Trouble
    ensures silence { result ≡ Trouble.Silence ↔ IsTrue (is_silence kind) }
    ensures interrupted { result ≡ Trouble.Interrupted ↔ (kind ≡ ErrorKind.Interrupted) }
    ensures lost { result ≡ Trouble.Lost ↔ IsTrue (is_loss kind) }
{
    match kind {
        ErrorKind::WouldBlock | ErrorKind::TimedOut => Trouble::Silence,
        ErrorKind::Interrupted => Trouble::Interrupted,
        ErrorKind::ConnectionRefused | ErrorKind::HostUnreachable | ErrorKind::NetworkUnreachable =>
            Trouble::Lost,
        _ => Trouble::Fault,
    }
}

/// What an error of a call that sends to one peer means. Where the machine keeps a frame from a
/// peer (EPERM, EACCES), can't send to its address (EINVAL) or has no room for it (EAGAIN, ENOMEM,
/// ENOBUFS), or the interface is down (ENETDOWN), that frame is lost.
pub(crate) fn given_of(error: &io::Error) -> Given
    ensures sent { result ≢ Given.Sent }
    ensures interrupted { result ≡ Given.Interrupted
        ↔ (error_kind error.now ≡ ErrorKind.Interrupted) }
    ensures lost { result ≡ Given.Lost
        ↔ IsTrue (is_lost_sending (error_kind error.now) (raw_os_error error.now)) }
{
    match error.kind() {
        ErrorKind::PermissionDenied
        | ErrorKind::InvalidInput
        | ErrorKind::WouldBlock
        | ErrorKind::OutOfMemory
        | ErrorKind::NetworkDown => Given::Lost,
        ErrorKind::Uncategorized if error.raw_os_error() == Some(NO_BUFFERS) => Given::Lost,
        kind => match trouble_of(kind) {
            Trouble::Interrupted => Given::Interrupted,
            Trouble::Lost => Given::Lost,
            Trouble::Silence | Trouble::Fault => Given::Fault,
        },
    }
}

/// Why a medium isn't opened.
#[derive(Clone, Copy, Debug, PartialEq, Eq, Error)]
pub enum OpenRefusal {
    #[error("no memory")]
    NoMemory,

    /// The texts of the peers are no addresses.
    #[error("no addresses of peers")]
    Peers,

    /// The text of the local address is none.
    #[error("no local address")]
    Local,

    /// No socket is bound to the local address: the number of the system's error, where it has one.
    #[error("no local socket")]
    Unbound(Option<i32>),

    /// An address of a peer stands twice.
    #[error("a peer is named twice")]
    Repeated,

    /// The local address is of IPv4 and one of a peer of IPv6, or the other way round.
    #[error("ends of two families")]
    Families,

    /// The number of the network has more than 24 bits.
    #[error("no number of a network")]
    Vxlan,
}

/// Why no socket was bound.
pub(crate) fn refusal(error: &io::Error) -> OpenRefusal
    ensures memory { result ≡ OpenRefusal.NoMemory
        ↔ (error_kind error.now ≡ ErrorKind.OutOfMemory) }
    ensures other { result ≢ OpenRefusal.NoMemory
        → result ≡ OpenRefusal.Unbound (raw_os_error error.now) }
{
    match error.kind() {
        ErrorKind::OutOfMemory => OpenRefusal::NoMemory,
        _ => OpenRefusal::Unbound(error.raw_os_error()),
    }
}
