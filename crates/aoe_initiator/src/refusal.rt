//! Why a host refuses.

/// Why a device isn't attached.
#[derive(Clone, Copy, Debug, PartialEq, Eq)]
pub enum AttachRefusal {
    NoMemory,

    /// The device is attached.
    Already,

    /// The device has no port.
    NoPort,
}

/// Why a command isn't submitted.
#[derive(Clone, Copy, Debug, PartialEq, Eq)]
pub enum SubmitRefusal {
    NoMemory,

    /// The range isn't within the device.
    OutOfRange,

    /// More sectors than the device takes in one command.
    TooLong { max: u32 },

    /// The most commands that may wait at a device for their first send wait there.
    Backlog { held: u32 },

    /// No sector.
    Empty,
}
