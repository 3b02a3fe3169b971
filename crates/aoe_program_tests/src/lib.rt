//! Tests of what the program stands on and of what it reads and writes, by public calls: numbers, the
//! registers of ATA, streams, links, and the arguments.
//!
//! They stand beside the crates, since a crate with tests inside it is proved once more with them.
//!
//! Promised: nothing of its own. It tries `aoe_base`, `aoe_ata`, `aoe_io`, `aoe_udp` with
//! `aoe_wire`, `aoe_pcap`, `aoe_vlan`, `aoe_nbd`, `aoe_clients`, `aoe_desk`, `aoe_nbd_serve` and
//! `aoe_args`.
//!
//! Only tested: worked registers, answers and pages, streams and capture files that break off,
//! joined links, datagrams over the loopback, frames through a switch, a conversation with a client of
//! NBD, clients in memory, their requests at a desk, a server of one, lines that spell a command or
//! none, and what is said of those that spell none.
#![tactic(auto)]

#[cfg(test)]
mod ata;
#[cfg(test)]
mod base;
#[cfg(test)]
mod checks;
#[cfg(test)]
mod clients;
#[cfg(test)]
mod desk;
#[cfg(test)]
mod nbd;
#[cfg(test)]
mod nbd_serve;
#[cfg(test)]
mod pcap;
#[cfg(test)]
mod streams;
#[cfg(test)]
mod udp;
#[cfg(test)]
mod vlan;
#[cfg(test)]
mod words;
