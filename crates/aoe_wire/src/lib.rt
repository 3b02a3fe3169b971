//! A link over a medium: what a socket and a tap file have in common.
//!
//! A [`Medium`] is what carries frames, a socket or a file of the system: each call takes what is
//! there, or gives a frame to one peer, and says what the call came to, [`Taken`] or [`Given`]. A
//! [`WireLink`] over it is a `Link` (`aoe_io`): a turn of `recv` takes until a frame comes, nothing
//! comes as long as a call waits, or the medium fails; `send` gives a frame to every peer, once.
//!
//! A medium may tell contracts what its calls came to. A real one tells nothing, and what it does
//! with the bytes is said by no contract. [`is_frame`] says which bytes are a frame of AoE, and
//! [`time_of`] reads the clock for a medium.
//!
//! Promised: over a medium that shows its calls, `recv` makes the calls of one turn (`IsTurn`): it
//! ends at a frame, at silence, at a fault, 10 ms after the first thing that was dropped, or where
//! the clock can't be read then. `send` gives the frame to each peer in order, or up to the first
//! fault (`GivesEach`); only an interrupted call is made again. `recv` sends nothing, and `send`
//! takes nothing. An Err raised the count of faults, by one at most, and an Ok left it. `is_frame`
//! is `is_aoe`.
//!
//! Only tested: the turns and sends of `UdpMedium` and `TapMedium`, which show no calls
//! (tests/datagrams, tests/wire, tests/adapters). `time_of` has no clause.
#![tactic(auto)]

mod link;
mod medium;
mod send;
mod turn;

pub use link::WireLink;
pub use medium::{Given, Medium, Taken, is_frame, time_of};
