//! Replies, and the errors that outcomes become.
ghost use Rattle.std.specs.Prelude.{◌≡◌};
ghost use Rattle.aoe_desk.specs.Requests.{error_of, flush_error};

use aoe_base::Blob;
use aoe_initiator::Outcome;
use aoe_nbd::NbdError;

/// A reply to a request.
#[derive(Drop)]
pub struct Reply {
    /// What the client knows its request by.
    pub handle: u64,

    /// Why the request wasn't carried out, if it wasn't.
    pub error: Option<NbdError>,

    /// The sectors of a read that was carried out, and nothing otherwise.
    pub payload: Blob,

    /// How many bytes its request holds at the desk until it is written.
    pub room: u32,
}

/// The error that the outcome of a part becomes which wasn't read or written.
pub(crate) fn error_of(outcome: &Outcome) -> NbdError
    ensures { result ≡ error_of outcome.now }
{
    match outcome {
        Outcome::AoeError(6) => NbdError::NotPermitted,
        Outcome::AoeError(_)
        | Outcome::AtaError { .. }
        | Outcome::GaveUp { .. }
        | Outcome::Read(_)
        | Outcome::Written
        | Outcome::Flushed
        | Outcome::Told(_) => NbdError::Failed,
    }
}

/// The error that the outcome of a flush becomes, or `None` where it was done.
pub(crate) fn flush_error(outcome: &Outcome) -> Option<NbdError>
    ensures { result ≡ flush_error outcome.now }
{
    match outcome {
        Outcome::Flushed => None,
        Outcome::AoeError(_)
        | Outcome::AtaError { .. }
        | Outcome::GaveUp { .. }
        | Outcome::Read(_)
        | Outcome::Written
        | Outcome::Told(_) => Some(error_of(outcome)),
    }
}
