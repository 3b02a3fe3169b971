//! The errors that a reply can bear.
ghost use Rattle.std.specs.Prelude.{◌≡◌};
ghost use Rattle.aoe_nbd.specs.Errors.{number_of};

/// Why a request isn't carried out (NBD protocol, "Error values").
#[derive(Clone, Copy, Debug, PartialEq, Eq)]
pub enum NbdError {
    /// 1, EPERM: the export can only be read, or others reserve the target.
    NotPermitted,

    /// 5, EIO: the target didn't carry it out.
    Failed,

    /// 12, ENOMEM: there was no memory for it.
    NoMemory,

    /// 22, EINVAL: it can't be carried out as it is spelled.
    Invalid,

    /// 28, ENOSPC: a write past the end.
    NoSpace,
}

impl NbdError {
    /// The number in a reply.
    pub fn number(self) -> u32
        ensures { result ≡ number_of self }
    {
        match self {
            NbdError::NotPermitted => 1,
            NbdError::Failed => 5,
            NbdError::NoMemory => 12,
            NbdError::Invalid => 22,
            NbdError::NoSpace => 28,
        }
    }
}
