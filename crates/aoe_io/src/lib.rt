//! What comes in and goes out: sources and sinks of bytes, links of frames and clocks, in memory
//! too, and the stream of frames.
//!
//! [`Source`], [`Sink`], [`Link`] and [`Clock`] are traits, which a program implements over its
//! files, sockets and time. Each counts its failed calls, and may tell contracts what it holds or
//! tell nothing. [`MemSource`], [`MemSink`], [`MemLink`] and [`SetClock`] tell all, and fail where
//! a test says. [`JoinedLink`] is one of two links in memory that bring each other's frames.
//!
//! On a stream each frame is preceded by its length: [`next_frame`] takes one, [`front_frame`]
//! finds the one that a source has read ahead as a whole, and [`give_frame`] writes one.
//! [`give_all`] writes bytes to their end, [`fill_from`] and [`fill_frame`] read as many as asked
//! for, and [`read_up_to`] reads a source to its end.
//!
//! Nothing is read ahead but by the source itself, and no call is made again after a failure.
//!
//! Promised: `next_frame` takes one whole frame of the stream, or says that the source is at its
//! end, or refuses the stream at the byte where it breaks (`IsBroken`); a stream begins with one
//! frame only (`stream_begins_with_one_frame`). `give_frame` and `give_all` write all, or a front
//! if they fail; `read_up_to` reads to the end or past the limit. Each call's fault comes only if
//! the object's count rose, by one at most. A clock never goes back. What `MemSource`, `MemSink`,
//! `MemLink` and `SetClock` answer and leave is exactly `read_of`, `write_of`, `recv_of` with
//! `send_of`, and `ticked`.
//!
//! Only tested: that an end of a `JoinedLink` brings what the other took, that no call is made
//! after one that failed, and the texts of refusals (`aoe_program_tests`, streams). No clause says
//! that nothing is read ahead.
#![tactic(auto)]

mod clocks;
mod input;
mod joined_link;
mod links;
mod mem_link;
mod memory;
mod outside;
mod stream;

pub use clocks::{Clock, SetClock};
pub use input::{InputRefusal, read_up_to};
pub use joined_link::JoinedLink;
pub use links::{Got, Link};
pub use mem_link::MemLink;
pub use memory::{MemSink, MemSource};
pub use outside::{Sink, Source};
pub use stream::{
    Next, StreamRefusal, fill_frame, fill_from, frame_begins_no_broken_stream, front_frame,
    give_all, give_frame, next_frame, stream_begins_with_one_frame,
};
