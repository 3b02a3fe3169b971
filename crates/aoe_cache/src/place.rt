//! One place of a buffer.
ghost use Rattle.std.specs.Prelude.{◌≡◌, ◌≤◌, ◌+◌, ◌-◌, ◌*◌, length};
ghost use Rattle.aoe_disk.specs.State.{with_piece};

use aoe_base::{NoMemory, SECTOR_LEN};
use std::alloc::Global;
use std::marker::Model;

/// A sector's number and its bytes, as contracts see a place.
#[derive(Drop)]
pub struct HeldSector {
    pub at: u64,
    pub bytes: [u8; 512],
}

/// A sector's number, and its bytes in an allocation of their own, so that a buffer that is put in
/// order reads the numbers where they stand and moves none of the bytes.
#[derive(Drop)]
pub(crate) struct Place {
    at: u64,
    bytes: Box<[u8; 512]>,
}

impl Model for Place {
    ghost use Rattle.aoe_cache.specs.declared.place.HeldSector.{HeldSector};

    ghost Value = { HeldSector };

    ghost view = { λ p. record { at = p.at; bytes = p.bytes.value } };
}

impl Place {
    /// A place that no sector was put to.
    pub(crate) fn new(alloc: Global) -> Result<Place, NoMemory> {
        match Box::new(alloc, [0; 512]) {
            Ok(bytes) => Ok(Place { at: 0, bytes }),
            Err(_) => Err(NoMemory),
        }
    }

    /// The number of its sector.
    pub(crate) fn at(&self) -> u64
        ensures { result ≡ self.now.at }
    {
        self.at
    }

    /// The bytes of its sector.
    pub(crate) fn bytes(&self) -> &[u8]
        ensures value { result.now ≡ self.now.bytes }
        ensures whole { length result.now ≡ 512 }
    {
        &*self.bytes
    }

    /// Lays its sector over those from sector `at` on.
    pub(crate) fn lay_over(&self, at: u64, out: &mut [u8])
        requires from { at ≤ self.now.at }
        requires room { 512 * (self.now.at - at) + 512 ≤ length out.old }
        ensures { out.new ≡ with_piece out.old (512 * (self.now.at - at)) self.now.bytes }
    {
        let start = SECTOR_LEN * (self.at - at) as usize;
        out[start..start + SECTOR_LEN].copy_from_slice(self.bytes());
    }

    /// Puts a sector in the place of what stood there.
    pub(crate) fn put(&mut self, at: u64, bytes: &[u8])
        requires { length bytes.now ≡ 512 }
        ensures { self.new ≡ record { at = at; bytes = bytes.now } }
    {
        self.at = at;
        self.bytes.copy_from_slice(bytes);
    }
}
