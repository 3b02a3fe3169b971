//! Setup lines: what stands before anything happens.
use aoe_base::Ports;
use arrayvec::ArrayVec;

/// The name of a shelf or a host: a lower-case letter and up to seven lower-case letters or digits.
pub type Name = ArrayVec<u8, 8>;

/// A setup line. Each field is the word of that line.
#[derive(Drop, PartialEq, Eq)]
pub enum Setup {
    /// How long a request can be handed over, in milliseconds, and how long a response, where that
    /// is given: as long as a request otherwise.
    Life {
        requests: u64,
        responses: Option<u64>,
    },

    /// A shelf with its number, its addresses and the mtu that it announces.
    Shelf {
        name: Name,
        major: u64,
        ports: Ports,
        mtu: u64,
    },

    /// A slot of a shelf, of this many sectors. Where a room is given, its store is a write-behind
    /// cache that holds so many sectors at most.
    Slot {
        shelf: Name,
        minor: u64,
        sectors: u64,
        room: Option<u64>,
    },

    /// A host with its addresses, and how many commands fly at most and for how long, where that
    /// is given: either both are or neither is.
    Host {
        name: Name,
        ports: Ports,
        room: Option<u64>,
        dead: Option<u64>,
    },

    /// A device that a host knows.
    Attach {
        host: Name,
        shelf: Name,
        minor: u64,
    },

    /// A slot that takes no writes: its lists have the read-only mark before anything happens.
    Readonly {
        shelf: Name,
        minor: u64,
    },
}
