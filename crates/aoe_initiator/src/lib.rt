//! The host's side of ATA over Ethernet, without sockets and without a clock: which frame a host
//! may send next, and which response ends a command.
//!
//! A host is an `Initiator`. It is made by `new`, and `attach` tells it of each device. From then
//! on its user calls, in any order and as often as there is cause:
//!
//! 1. `submit` with an operation for a device. It gets a ticket, or is handed back with the reason.
//! 2. `advance` with the time. Commands that nobody answered for too long end then.
//! 3. `pull` until it gives nothing, and sends each frame that it gives. After each of the other
//!    calls there may be more to send.
//! 4. `receive` with each frame that comes.
//! 5. `take_done` until it gives nothing: the commands that ended, each with its outcome.
//!
//! A user that limits what flies asks `flying` how much it is, and calls `pull_again` in the place
//! of `pull` while it wants no command started: repeats aren't held up then. One that sleeps asks
//! `next_time` until when it may.
//!
//! Only `new`, `attach` and `submit` take memory. Commands at one device that conflict keep their
//! order (`aoe_hold`), frames that aren't answered are repeated (`aoe_flight`), and each goes on
//! the next path that answers (`aoe_paths`).
//!
//! A user without a reason for other numbers takes [`LIFETIMES`], [`ROOM`] and [`DEAD`].
//!
//! A host doesn't find devices: its user says which there are, how long they are, how many sectors
//! they take in one command, and by which command they are flushed. It doesn't split what is longer, and it doesn't ask again
//! what a device refused.
//!
//! Promised: the host law, for every log that a host matches (`Matches`). `pull` returns what may
//! be sent next (`IsNext`), with the bytes of its operation (`IsFrameOf`), on the next path
//! (`IsOnNextPath`), and nothing only where nothing may be sent (`IsQuiet`). `pull_again` returns
//! the repeats among these (`IsRepeat`). `next_time` is the first time at which something is due,
//! expired or may be started (`IsNextTime`), `flying` what flies (`flying_of`). `receive` ends a
//! command exactly where the frame is a well-formed response to one that flies, with the outcome
//! that it says (`Takes`). `advance` gives up just the commands that flew for too long
//! (`GaveUpInTurn`). `submit` and `attach` refuse only for `submit_refusal`, `attach_refusal` or
//! want of memory, and then change nothing.
//!
//! Only tested: nothing. `aoe_host_tests` (`initiator`) has worked runs with repeats, on one path
//! and on two. That the other calls take no memory is neither promised nor tested.
#![tactic(auto)]

mod counted;
mod defaults;
mod device;
mod initiator;
mod law;
mod op;
mod outcome;
mod pending;
mod refusal;
mod request;
mod response;
mod step;
mod wait;

pub use aoe_lists::{Dir, MAX_DIRS};
pub use defaults::{DEAD, LIFETIMES, MOST_ROOM, ROOM};
pub use device::Attached;
pub use initiator::{Initiator, MAX_HELD};
pub use law::held_law;
pub use op::{FlushCommand, Op};
pub use outcome::{Done, Outcome};
pub use refusal::{AttachRefusal, SubmitRefusal};
pub use request::{append_config_args, append_mask_args, append_reserve_args, write_request};
pub use response::{Answer, config_args_len, mask_args_len, read_answer, reserve_args_len};
pub use step::{InFlight, Sent, Taken};
