//! What a host is made with where its user has no reason for other numbers.
use aoe_base::{Lifetimes, Millis};

/// How long a frame can arrive. This program's own choice: twice the second that IEEE 802.1D-1998
/// (table 8-2) recommends as the longest that a bridge holds a frame, and short enough to wait for.
pub const LIFETIMES: Lifetimes = Lifetimes {
    requests: Millis(2000),
    responses: Millis(2000),
};

/// After how long a command without an answer is given up: three minutes, as Linux's driver does by
/// default (its parameter aoe_deadsecs).
pub const DEAD: Millis = Millis(180_000);

/// How many commands fly or rest at most: more than a host has under way at once, in little memory.
pub const ROOM: u32 = 4096;

/// The most that a host can have flying or resting. What copies a disk takes it, since its commands
/// follow one another without a pause, and each rests for the sum of the lifetimes.
pub const MOST_ROOM: u32 = 131_072;
