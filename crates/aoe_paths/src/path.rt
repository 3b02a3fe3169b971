//! One path: whether an answer on it was missed, and the last round trips.
ghost use Rattle.std.specs.Prelude.{◌≡◌, ◌≤◌, [], false, length, true, All, Contains, IfNone, IfOk, IfSome};
ghost use Rattle.aoe_paths.specs.Path.{after_trip, new_path};
ghost use Rattle.aoe_paths.specs.Timeout.{timeout_of};

use aoe_base::{Millis, NoMemory};
use circular_buffer::HeapCircularBuffer;
use std::alloc::Global;
use std::marker::Model;

/// How many round trips of a path are kept: this host's own choice.
pub const KEPT_TRIPS: usize = 8;

/// How long an answer is waited for on a path without a round trip (RFC 6298, 2.1).
pub const FIRST_TIMEOUT: Millis = Millis(1000);

/// How many times the greatest round trip an answer is waited for: this host's own choice.
pub const TRIPS_PER_TIMEOUT: u64 = 4;

/// The least timeout of a path with a round trip: this host's own choice, below the second of RFC 6298
/// (2.4), since both ends are on one Ethernet.
pub const MIN_TIMEOUT: Millis = Millis(100);

/// The greatest timeout: the least maximum that RFC 6298 allows (2.5).
pub const MAX_TIMEOUT: Millis = Millis(60_000);

/// A path: a mark, and the round trips that its timeout goes by.
#[derive(Drop)]
pub struct Path {
    /// No answer came since one was missed.
    missed: bool,

    /// The last round trips, the latest first.
    trips: HeapCircularBuffer<Millis>,
}

impl Model for Path {
    ghost use Rattle.std.specs.Prelude.{◌≡◌, ◌≤◌, length, map};
    ghost use Rattle.aoe_paths.specs.Path.{PathState};

    ghost Value = { PathState };

    ghost view = { λ path. record { missed = path.missed; trips = map (λ trip. trip.0) path.trips.items } };

    ghost invariant = { λ path. (path.trips.capacity ≡ 8) × (length path.trips.items ≤ 8) };
}

impl Path {
    /// A path without a mark and a trip, with room for all trips that it will keep.
    pub fn new(alloc: Global) -> Result<Path, NoMemory>
        ensures { IfOk result (λ path. path ≡ new_path) }
    {
        let trips = HeapCircularBuffer::with_capacity(alloc, KEPT_TRIPS)?;
        Ok(Path {
            missed: false,
            trips,
        })
    }

    /// Whether the path is marked.
    pub fn is_missed(&self) -> bool
        ensures { result ≡ self.now.missed }
    {
        self.missed
    }

    /// Marks the path.
    pub fn miss(&mut self)
        ensures { self.new ≡ record self.old { missed = true } }
    {
        self.missed = true;
    }

    /// Takes the mark away, and keeps the round trip where it is known.
    pub fn answer(&mut self, trip: Option<Millis>)
        ensures { self.new ≡ record { missed = false; trips = after_trip self.old.trips trip } }
    {
        self.missed = false;
        if let Some(trip) = trip {
            self.trips.push_front(trip);
        }
    }

    fn greatest_trip(&self) -> Option<u64>
        ensures all { IfSome result (λ greatest. All (λ trip. trip ≤ greatest) self.now.trips) }
        ensures one { IfSome result (λ greatest. Contains self.now.trips greatest) }
        ensures none { IfNone result (self.now.trips ≡ []) }
        ensures kept { length self.now.trips ≤ 8 }
    {
        self.trips.iter().map(|trip| trip.0).max()
    }

    /// How long an answer is waited for.
    pub fn timeout(&self) -> Millis
        ensures { result.0 ≡ timeout_of self.now.trips }
    {
        match self.greatest_trip() {
            Some(greatest) => {
                let timeout = greatest.saturating_mul(TRIPS_PER_TIMEOUT);
                Millis(timeout.clamp(MIN_TIMEOUT.0, MAX_TIMEOUT.0))
            }
            None => FIRST_TIMEOUT,
        }
    }
}
