//! What a device keeps for its hosts (a config string and two lists of addresses), and the written
//! answers to the requests that read and change it.
//!
//! [`admits`] and [`may_use`] say what a station may do. [`config_step`], [`mask_step`] and
//! [`reserve_step`] take the lists and a request's bytes, and make the arguments of the reply; with
//! [`Answer::Change`] they also make the lists that the request asks for.
//!
//! A step changes no list by itself: the caller keeps the next ones first (`aoe_keep`), and then
//! they are the present ones. No call takes memory.
//!
//! Promised: for any bytes the answer of `config_step`, `mask_step` and `reserve_step` is
//! `config_answer`, `mask_answer` and `reserve_answer`. It is a Change exactly where a request
//! succeeds and makes other lists; a mask edit is done whole or not at all (`mask_edit`). The
//! reserves that are set are the given addresses, each once (`reserves_are_the_given_stations`).
//! `admits` and `may_use` hold exactly where the list is empty or has the station, and a
//! `SortedList` lets in the same stations as its list. `empty_config_args` has the arguments that
//! `config_step` writes for a read of an empty string.
//!
//! Only tested: the codes of four commands and errors (`aoe_shelf_tests`, lists), a reservation
//! taken by force (there, target), whole requests (tests/streams). No clause says that no call
//! takes memory, or how long a search takes.
#![tactic(auto)]

mod answer;
mod args;
mod config;
mod dir;
mod lists;
mod masks;
mod reserves;
mod sorted;

pub use answer::Answer;
pub use args::{Args, MAX_ARGS};
pub use config::{ConfigCommand, Facts, config_step, empty_config_args};
pub use dir::{Dir, MAX_DIRS};
pub use lists::{
    AddressList, Lists, MAX_ADDRESSES, MAX_CONFIG, admits, answers_all, may_use,
    same_settings_is_equality, serves_all,
};
pub use masks::{Directive, MaskCommand, MaskError, mask_step};
pub use reserves::{ReserveCommand, reserve_step, reserves_are_the_given_stations};
pub use sorted::SortedList;
