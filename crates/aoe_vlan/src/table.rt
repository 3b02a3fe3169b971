//! The stations of a VLAN.
ghost use Rattle.std.specs.Prelude.{◌≡◌, [], IfOk};
ghost use Rattle.aoe_vlan.specs.Tables.{found, moved};

use aoe_base::{Mac, NoMemory};
use indexmap::IndexMap;
use std::alloc::Global;
use std::marker::Model;

/// The most addresses that are learnt of a VLAN.
const MAX_STATIONS: usize = 256;

/// The addresses that were learnt of a VLAN, each with the number of its port.
#[derive(Drop)]
pub(crate) struct Table {
    vid: u16,
    stations: IndexMap<Mac, u8>,
}

impl Model for Table {
    ghost use Rattle.std.specs.Prelude.{◌≤◌, ◌+◌, length};
    ghost use Rattle.aoe_vlan.specs.Tables as tables;
    ghost use Rattle.indexmap.specs.IndexMap.{spare};

    ghost Value = { tables.Table };

    ghost view = { λ t. record { vid = t.vid; stations = t.stations.entries } };

    ghost invariant = { λ t. 256 ≤ length t.stations.entries + spare t.stations };
}

impl Table {
    /// A table of no address, which takes memory for as many as it can have.
    pub(crate) fn new(alloc: Global, vid: u16) -> Result<Table, NoMemory>
        ensures { IfOk result (λ table. table ≡ record { vid = vid; stations = [] }) }
    {
        let stations = IndexMap::with_capacity(alloc, MAX_STATIONS)?;
        Ok(Table { vid, stations })
    }

    /// The number of the VLAN.
    pub(crate) fn vid(&self) -> u16
        ensures { result ≡ self.now.vid }
    {
        self.vid
    }

    /// The port of an address.
    pub(crate) fn find(&self, address: &Mac) -> Option<u8>
        ensures { result ≡ found self.now.stations address.now }
    {
        self.stations.get(address).copied()
    }

    /// Learns that an address stands at a port.
    pub(crate) fn learn(&mut self, address: Mac, port: u8)
        ensures { self.new ≡ record self.old { stations = moved self.old.stations address port } }
    {
        if let Some(index) = self.stations.get_index_of(&address) {
            self.stations[index] = port;
        } else if self.stations.len() < MAX_STATIONS {
            let _ = self.stations.insert(address, port).unwrap();
        }
    }
}
