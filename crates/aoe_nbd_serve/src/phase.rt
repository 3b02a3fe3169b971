//! What comes next of a client, and how it ended.
use aoe_nbd::{Handshake, Transmission};

/// How the conversation with a client ended.
#[derive(Clone, Copy, Debug, PartialEq, Eq)]
pub enum Ended {
    /// Nothing more was read of it, and each of its requests is answered.
    Done,

    /// It left without a word.
    Closed,

    /// It said what is no request.
    BadRequest,

    /// It said what is no option, asked for another export, or took too long for its handshake.
    BadOption,

    /// Nothing more was read of it, and it didn't take what was left for it in time.
    Late,
}

/// What comes next of a client.
#[derive(Drop)]
pub(crate) enum Phase {
    Handshake(Handshake),
    Transmission(Transmission),

    /// Nothing: it ends once all is written, or the time is up.
    Leaving,

    /// Nothing: it is closed at once.
    BadOption,
    BadRequest,
}
