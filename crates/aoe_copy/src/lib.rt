//! Copies of any length out of a device and into one, and the flush of a device.
//!
//! - [`get`] reads sectors part by part and gives them to a sink (`aoe_io`) in order, each as soon as
//!   all before it are there.
//! - [`put`] writes what a source gives, part by part, and flushes the device once all parts are
//!   acknowledged, where that is asked for. It can then read each sector again and compare it.
//! - [`flush`] does the flush alone.
//!
//! Each is one call with [`Terms`], which say who copies, how long it waits, how long frames are on
//! their way, and how many sectors a command has at most. It finds the device by `look_up` of
//! `aoe_tools`, and makes a host of its own (`aoe_block`), which repeats what isn't answered. Up to 8
//! commands are under way. The first command has ticket 1, the next one 2, and so on, and each is of
//! the sectors after those of the one before it. A [`Watch`] is told how far a copy has come.
//!
//! `put` reads the first 16,777,216 bytes before it sends anything, so an input of no more that isn't
//! whole sectors, or is too long for the device, sends no write. What follows is read as commands are
//! acknowledged, and what a copy holds doesn't grow with it. Where the sectors are read again this is
//! done part by part, 1,928 commands of 17 sectors at a time: a part is read, written and flushed, and
//! then the same host reads its sectors and compares them with what it sent, which it still holds.
//!
//! Where `get` breaks off the sink has a front of the sectors, so that the same call with a later
//! first sector goes on from there. What a `put` that broke off wrote isn't flushed.
//!
//! Promised: the clock is looked at once in each turn, first of all; a turn of the link comes only
//! while the copy isn't over, and not after as many quiet ones as `Terms` say (`AreSteps`,
//! `ReadLaw`, `PutLaw`). However `get` ends, its commands are reads one after the other, at most 8
//! of them not yet given to the sink, which took a front of the sectors, each from a response to the
//! command with its ticket (`copied_law`, `Ends`). `put` writes the input part by part in order, at
//! most 8 commands without an outcome. Ok says that the parts are the whole input, that none was
//! refused or given up, and with a flush that each was acknowledged before it, and then the flush
//! (`put_law`, `IsWritten`, `EndsBy`); with `verify` each part ended so, and all its sectors came back
//! equal before the next was sent (`AreChecked`); `Differs` names the first that didn't
//! (`IsCompared`). `flush` is a `put` of nothing (`Flushes`).
//!
//! Only tested: what a [`Watch`] is told and where a copy broke off (`aoe_host_tests`, `copies`;
//! `tests/tools`). No clause bounds its memory, or the tags of more than 4,294,967,295 commands.
#![tactic(auto)]

mod again;
mod copy;
mod copying;
mod end;
mod feed;
mod flying;
mod input;
mod into;
mod law;
mod nothing;
mod plan;
mod putting;
mod terms;
mod watch;
mod window;

pub use copy::get;
pub use end::CopyRefusal;
pub use into::{flush, put};
pub use law::{copied_law, put_law};
pub use terms::Terms;
pub use watch::Watch;
