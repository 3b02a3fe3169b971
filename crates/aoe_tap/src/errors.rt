//! What the errors of a tap file mean.
ghost use Rattle.std.specs.Prelude.{◌≡◌, ◌≢◌, ◌↔◌, IsTrue};
ghost use Rattle.std.specs.IoError.{error_kind, raw_os_error};
ghost use Rattle.aoe_tap.specs.Errors.{is_lost_writing};

use aoe_wire::Given;
use std::alloc::AllocError;
use std::fs::TryLockError;
use std::io;
use std::io::ErrorKind;
use thiserror::Error;

/// The number of the error by which Linux says that it has no room for what is sent, ENOBUFS.
const NO_BUFFERS: i32 = 105;

/// What an error of a call that reads means.
#[derive(Clone, Copy)]
pub(crate) enum Trouble {
    /// Nothing is there.
    Empty,

    /// A signal came.
    Interrupted,

    Fault,
}

/// What an error of this kind means.
pub(crate) fn trouble_of(kind: ErrorKind) -> Trouble
    ensures empty { result ≡ Trouble.Empty ↔ (kind ≡ ErrorKind.WouldBlock) }
    ensures interrupted { result ≡ Trouble.Interrupted ↔ (kind ≡ ErrorKind.Interrupted) }
{
    match kind {
        ErrorKind::WouldBlock => Trouble::Empty,
        ErrorKind::Interrupted => Trouble::Interrupted,
        _ => Trouble::Fault,
    }
}

/// What an error of a call that writes a frame means. Where the interface takes none of this length
/// (EINVAL) or has no room (EAGAIN, ENOBUFS, ENOMEM), or is down (ENETDOWN), the frame is lost.
pub(crate) fn given_of(error: &io::Error) -> Given
    ensures sent { result ≢ Given.Sent }
    ensures interrupted { result ≡ Given.Interrupted
        ↔ (error_kind error.now ≡ ErrorKind.Interrupted) }
    ensures lost { result ≡ Given.Lost
        ↔ IsTrue (is_lost_writing (error_kind error.now) (raw_os_error error.now)) }
{
    match error.kind() {
        ErrorKind::Interrupted => Given::Interrupted,
        ErrorKind::InvalidInput
        | ErrorKind::WouldBlock
        | ErrorKind::OutOfMemory
        | ErrorKind::NetworkDown => Given::Lost,
        ErrorKind::Uncategorized if error.raw_os_error() == Some(NO_BUFFERS) => Given::Lost,
        _ => Given::Fault,
    }
}

/// Why a tap file isn't opened.
#[derive(Clone, Copy, Debug, PartialEq, Eq, Error)]
pub enum OpenRefusal {
    #[error("no memory")]
    NoMemory,

    /// It can't be opened for reading and writing, or can't be waited for: the number of the system's
    /// error, where it has one.
    #[error("no tap file")]
    Unopened(Option<i32>),

    /// It is no character device.
    #[error("no device")]
    Kind,

    /// Another program has locked it.
    #[error("in use")]
    InUse,
}

impl From<AllocError> for OpenRefusal {
    fn from(_: AllocError) -> OpenRefusal {
        OpenRefusal::NoMemory
    }
}

impl From<io::Error> for OpenRefusal {
    fn from(error: io::Error) -> OpenRefusal {
        OpenRefusal::Unopened(error.raw_os_error())
    }
}

impl From<TryLockError> for OpenRefusal {
    fn from(error: TryLockError) -> OpenRefusal {
        match error {
            TryLockError::WouldBlock => OpenRefusal::InUse,
            TryLockError::Error(error) => OpenRefusal::from(error),
        }
    }
}
