//! What the setup lines of a script declare: hosts and slots that a history can speak of, and that
//! nothing is wrong with them.
//!
//! It has laws alone, and no code that runs: `aoe_world` makes the stations, and cites
//! [`layout_law`] and [`events_law`].
//!
//! Promised: the setup lines of every script declare a setup (`setup_of`, `IsSetup`): each station
//! has a name and addresses of its own, hosts are attached to slots that are there, and all numbers
//! are in their ranges (`layout_law`). An event line with which nothing is wrong after them speaks
//! of what they declare, `CanCome` (`events_law`). A worked setup is the expected one
//! (`worked_layout`).
//!
//! Only tested: nothing.
#![tactic(auto)]

mod laws;

pub use laws::{events_law, layout_law, worked_layout};
