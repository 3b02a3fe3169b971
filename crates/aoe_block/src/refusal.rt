//! Why a block isn't made.

/// Why a block isn't made.
#[derive(Clone, Copy, Debug, PartialEq, Eq)]
pub enum BlockRefusal {
    NoMemory,

    /// The range isn't within the device.
    OutOfRange,
}
