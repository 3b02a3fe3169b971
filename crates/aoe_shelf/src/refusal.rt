//! Why a shelf takes no further target.
use thiserror::Error;

/// Why a target wasn't added.
#[derive(Clone, Copy, Debug, PartialEq, Eq, Error)]
pub enum ShelfRefusal {
    /// The shelf has 16 targets.
    #[error("the shelf is full")]
    Full,
    /// A target of the shelf has that minor.
    #[error("the minor is taken")]
    Repeated,
}
