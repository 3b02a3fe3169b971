//! Times, and the numbers that things are known by.

/// A time, or a length of time, in whole milliseconds.
#[derive(Clone, Copy, Default, PartialEq, Eq, PartialOrd, Ord, Hash)]
pub struct Millis(pub u64);

/// A command of a host: the number of its submission there, from 1.
#[derive(Clone, Copy, PartialEq, Eq, PartialOrd, Ord, Hash)]
pub struct Ticket(pub u64);

/// A pair of a local and a remote port: `local * remotes + remote`, both from 0.
#[derive(Clone, Copy, PartialEq, Eq, PartialOrd, Ord, Hash)]
pub struct PathNo(pub u32);

/// A device of a host: the number of its attachment there, from 0.
#[derive(Clone, Copy, PartialEq, Eq, PartialOrd, Ord, Hash)]
pub struct DeviceNo(pub u32);

/// A frame of a network: the number of its sending there, from 1.
#[derive(Clone, Copy, PartialEq, Eq, PartialOrd, Ord, Hash)]
pub struct FrameNo(pub u32);

/// How long a frame can arrive after it was sent, by its kind.
#[derive(Clone, Copy, PartialEq, Eq)]
pub struct Lifetimes {
    pub requests: Millis,
    pub responses: Millis,
}
