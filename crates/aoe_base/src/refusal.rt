//! The errors that a reply can bear.
ghost use Rattle.std.specs.Prelude.{◌≡◌};
ghost use Rattle.aoe_base.specs.Refusal.{code_of_error};

/// Why a target refuses a request (AoEr11, "Error").
#[derive(Clone, Copy, Debug, PartialEq, Eq, Hash)]
pub enum AoeError {
    /// 1: the command code is unknown.
    UnrecognizedCommand,
    /// 2: an argument is missing or has a value that the command doesn't take.
    BadArgument,
    /// 3: the device can't do what was asked for now.
    DeviceUnavailable,
    /// 4: another config string is set.
    ConfigStringPresent,
    /// 5: the version isn't 1.
    UnsupportedVersion,
    /// 6: the target is reserved by other stations.
    TargetIsReserved,
}

impl AoeError {
    /// The code in the header's field "Error".
    pub fn code(self) -> u8
        ensures { result ≡ code_of_error self }
    {
        match self {
            AoeError::UnrecognizedCommand => 1,
            AoeError::BadArgument => 2,
            AoeError::DeviceUnavailable => 3,
            AoeError::ConfigStringPresent => 4,
            AoeError::UnsupportedVersion => 5,
            AoeError::TargetIsReserved => 6,
        }
    }
}
