//! A network that keeps each frame that was sent on it and hands it over, any number of times and
//! in any order, until its lifetime is over: that of a request, or that of a response.
//!
//! 1. [`Net::new`] with these lifetimes.
//! 2. [`Net::send`] with each frame, which gets the next number; or [`Net::full_by`], and where
//!    there is room, [`Net::keep`] with bytes that somebody else has too.
//! 3. [`Net::fetch`] returns the frame of a number as long as it can be handed over.
//!
//! It is full at 200,000 frames or 536,870,912 bytes, which expired frames count among: their
//! numbers stay theirs. It knows no stations, and chooses neither which frame comes nor when.
//!
//! Promised: `Net::fetch` returns the frame of a number exactly while its age is at most the
//! lifetime of its kind (`deliverable`, `lifetime`). `Net::send` and `Net::keep` put a frame under
//! the next number, or leave the network as it was. `send` says that the network is full exactly
//! where one of the two limits is met, and by which (`IsFullBy`), also where there is no memory.
//! `newest_equal` returns the greatest number with these bytes. Owners of shared bytes see the same
//! bytes.
//!
//! Only tested: the texts of a refusal (net.rt of `aoe_sim_tests`). `tests/limits` tries runs that
//! come exactly to the limits. Nothing shows that shared bytes are in memory once.
#![tactic(auto)]

mod frame_bytes;
mod net;
mod refusal;

pub use frame_bytes::FrameBytes;
pub use net::{MAX_BYTES, MAX_FRAMES, Net};
pub use refusal::{NetLimit, NetRefusal};
