//! The registers of ATA over Ethernet, both ways, what a request asks of a device, and the page
//! that a device tells of itself.
//!
//! For a target: [`decide`] says what a device of that size does with the bytes behind the header,
//! as an [`AtaDecision`]. The caller reads, writes ([`put_data`] returns the data) or syncs, and
//! [`reply_args`] returns the registers of what came of it. [`identify_page`] makes the page.
//!
//! For a host: [`write_args`] makes the registers of a request; [`read_args`], [`is_failed`] and
//! [`read_identify`] read those of a reply.
//!
//! It calls no device and knows no list of stations. What a device doesn't know ends with ABRT:
//! there is no DMA, no SMART, and no address by cylinder, head and sector.
//!
//! Promised: registers with an address below 2^48 read back (`args_read_back`) and have one
//! spelling where the reserved bytes are 0 (`args_spelling_is_one`). `decide` is `decision`:
//! BadArgument for too few bytes, more sectors than `max`, or a write with less data than its
//! sectors have; what else it lets the device be called with is one to `max` sectors within the
//! device (`CanServe`). `reply_args` is `reply_of`, and `is_failed` holds exactly where ERR or DF
//! is set. `identify_page` makes `page`, which declares its number of sectors (`page_reads_back`);
//! `read_identify` is `declared`, and `serial_number` the device's name.
//!
//! Only tested: worked registers, answers and two pages byte by byte, and the bits of status and
//! error register (`aoe_program_tests`, ata).
#![tactic(auto)]

mod args;
mod command;
mod decision;
mod identify;
mod reply;
mod serial;

pub use args::{
    AFLAG_ASYNC, AFLAG_DEVICE, AFLAG_EXTENDED, AFLAG_WRITE, ARGS_LEN, AtaArgs, aflags_law,
    args_array, args_read_back, args_spelling_is_one, read_args, write_args,
};
pub use command::{AtaCommand, CommandCode, classify};
pub use decision::{AtaAnswer, AtaDecision, decide, put_data};
pub use identify::{identify_page, page_reads_back, read_identify};
pub use reply::{
    AtaOutcome, ERROR_ABRT, ERROR_IDNF, ERROR_UNC, STATUS_DF, STATUS_DRDY, STATUS_DRQ, STATUS_ERR,
    is_failed, reply_args,
};
pub use serial::serial_number;
