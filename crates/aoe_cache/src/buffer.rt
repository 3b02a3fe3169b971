//! The sectors that a store holds back.
ghost use Rattle.std.specs.Prelude.{◌≡◌, ◌≤◌, ◌<◌, ◌+◌, ◌*◌, ◌/◌, ◌^◌, ◌++◌, ◌↔◌, ℕ, List, [], IfOk, IfSome, IsTrue, length, nat_eq, option_map, take, drop};
ghost use Rattle.std.specs.List.{IsDistinct};
ghost use Rattle.indexmap.specs.IndexSet.{IsUnique, insert_index, insert_key, spare};
ghost use Rattle.aoe_cache.specs.Held.{IsAscending, held_for, held_of, laid_over, numbers_of, ordered, placed, with_written};
ghost use Rattle.aoe_cache.specs.Down.{IsJoined, bytes_of, first_of};
ghost use Rattle.aoe_cache.specs.Cache.{AreWhole, HasRoom, IsBuffer, IsInOrder, IsIndexed};

use crate::place::Place;
use aoe_base::{NoMemory, SECTOR_LEN};
use indexmap::IndexSet;
use std::alloc::Global;

/// The most sectors that are joined in one device write.
pub const MOST_JOINED: usize = 64;

/// Sectors, each once, in room that was taken before.
///
/// A table gives the place of a sector by its number. The places come in the order in which their
/// sectors were first put, until `sort` puts them in the order of the sectors for a writing down:
/// between it and `keep_first` the table knows nothing of them.
#[derive(Drop)]
pub(crate) struct Buffer {
    // Those that hold a sector, and behind them those that hold none.
    places: Vec<Place>,

    // The numbers of the sectors, each at the index of its place.
    numbers: IndexSet<u64>,
}

impl Buffer {
    /// An empty buffer with this many places.
    pub(crate) fn new(alloc: Global, places: usize) -> Result<Buffer, NoMemory>
        ensures room { IfOk result (λ buffer. length buffer.places.items ≡ places) }
        ensures held { IfOk result (λ buffer. held_of buffer ≡ []) }
        ensures indexed { IfOk result IsIndexed }
    {
        let numbers = IndexSet::with_capacity(alloc, places)?;
        let mut all = Vec::with_capacity(alloc, places)?;
        'places: for _ in 0..places {
            let Ok(()) = all.push(Place::new(alloc)?) else {
                return Err(NoMemory);
            };
        }
        Ok(Buffer {
            places: all,
            numbers,
        })
    }

    /// How many sectors it holds.
    pub(crate) fn len(&self) -> usize
        ensures { result ≡ length self.now.numbers.keys }
    {
        self.numbers.len()
    }

    // The place of a sector that it holds.
    fn get(&self, sector: u64) -> Option<&Place>
        requires { IsIndexed self.now }
        ensures held { option_map (λ p. p.now.bytes) result ≡ held_for (held_of self.now) sector }
        ensures number { IfSome result (λ p. p.now.at ≡ sector) }
    {
        let index = self.numbers.get_index_of(&sector)?;
        Some(&self.places[index])
    }

    // How many sectors it holds once `count` sectors from `at` on were put.
    fn len_with(&self, at: u64, count: usize) -> usize
        requires buffer { IsBuffer (2 ^ 40) self.now }
        requires range { at + count ≤ 2 ^ 40 }
        ensures { (piece : List ℕ) → result ≡ length
            (with_written at count piece (held_of self.now)) }
    {
        let mut len = self.numbers.len();
        'sectors: for i in 0..count {
            if !self.numbers.contains(&(at + i as u64)) {
                len += 1;
            }
        }
        len
    }

    /// Whether it holds at most `room` sectors once `count` sectors from `at` on were put.
    pub(crate) fn fits(&self, at: u64, count: usize, room: usize) -> bool
        requires buffer { IsBuffer (2 ^ 40) self.now }
        requires range { at + count ≤ 2 ^ 40 }
        ensures { (piece : List ℕ) → IsTrue result
            ↔ (length (with_written at count piece (held_of self.now)) ≤ room) }
    {
        self.numbers.len() + count <= room || self.len_with(at, count) <= room
    }

    // The index of the place for a sector: its own, or the next that holds none.
    fn place_for(&mut self, at: u64) -> usize
        requires has { HasRoom self.old }
        requires once { IsUnique nat_eq self.old.numbers }
        requires free { length
            (insert_key nat_eq self.old.numbers.keys at) ≤ length self.old.places.items }
        ensures index { result ≡ insert_index nat_eq self.old.numbers at }
        ensures within { result < length self.new.numbers.keys }
        ensures numbers { self.new.numbers.keys ≡ insert_key nat_eq self.old.numbers.keys at }
        ensures once { IsUnique nat_eq self.new.numbers }
        ensures has { HasRoom self.new }
        ensures places { self.new.places ≡ self.old.places }
    {
        match self.numbers.get_index_of(&at) {
            Some(index) => index,
            None => self.numbers.insert_full(at).unwrap().0,
        }
    }

    // Puts one sector.
    fn put_one(&mut self, at: u64, bytes: &[u8])
        requires indexed { IsIndexed self.old }
        requires whole { length bytes.now ≡ 512 }
        requires room { length (with_written at 1 bytes.now
            (held_of self.old)) ≤ length self.old.places.items }
        ensures indexed { IsIndexed self.new }
        ensures held { held_of self.new ≡ with_written at 1 bytes.now (held_of self.old) }
        ensures places { length self.new.places.items ≡ length self.old.places.items }
    {
        let index = self.place_for(at);
        self.places[index].put(at, bytes);
    }

    /// Puts the sectors of a piece, each in the place of what stood for it before.
    pub(crate) fn put(&mut self, at: u64, piece: &[u8])
        requires indexed { IsIndexed self.old }
        requires whole { 512 * (length piece.now / 512) ≡ length piece.now }
        requires range { at + length piece.now / 512 ≤ 2 ^ 40 }
        requires room { length (with_written at (length piece.now / 512) piece.now (held_of self.old))
            ≤ length self.old.places.items }
        ensures indexed { IsIndexed self.new }
        ensures held { held_of self.new ≡ with_written at (length piece.now / 512) piece.now
            (held_of self.old) }
        ensures places { length self.new.places.items ≡ length self.old.places.items }
    {
        'sectors: for i in 0..piece.len() / SECTOR_LEN {
            let start = SECTOR_LEN * i;
            self.put_one(at + i as u64, &piece[start..start + SECTOR_LEN]);
        }
    }

    /// Lays its sectors over those from `at` on, which were read into `out`.
    pub(crate) fn lay_over(&self, at: u64, out: &mut [u8])
        requires buffer { IsBuffer (2 ^ 40) self.now }
        requires whole { 512 * (length out.old / 512) ≡ length out.old }
        requires range { at + length out.old / 512 ≤ 2 ^ 40 }
        ensures { (bytes : List ℕ) → 512 * at + length out.old ≤ length bytes
            → out.old ≡ take (length out.old) (drop (512 * at) bytes)
            → out.new ≡ take (length out.old) (drop (512 * at) (laid_over bytes (held_of self.now))) }
    {
        if self.numbers.is_empty() {
            return;
        }
        'sectors: for i in 0..out.len() / SECTOR_LEN {
            if let Some(place) = self.get(at + i as u64) {
                place.lay_over(at, out);
            }
        }
    }

    /// Puts its places in the order of their sectors.
    pub(crate) fn sort(&mut self)
        requires { IsIndexed self.old }
        ensures placed { placed self.new ≡ held_of self.old }
        ensures has { HasRoom self.new }
        ensures places { length self.new.places.items ≡ length self.old.places.items }
    {
        let held = self.numbers.len();
        sort_first(&mut self.places, held);
    }

    /// The number of the sector at place `from`.
    pub(crate) fn first_from(&self, from: usize) -> u64
        requires used { length self.now.numbers.keys ≤ length self.now.places.items }
        requires some { from < length self.now.numbers.keys }
        ensures { result ≡ first_of (drop from (placed self.now)) }
    {
        self.places[from].at()
    }

    /// How many sectors from place `from` on are joined in one device write.
    pub(crate) fn run_from(&self, from: usize) -> usize
        requires order { IsInOrder (2 ^ 40) from self.now }
        requires some { from < length self.now.numbers.keys }
        ensures { IsJoined result (drop from (placed self.now)) }
    {
        let held = self.numbers.len();
        let first = self.places[from].at();
        let mut count = 1;
        'adjacent: while count < MOST_JOINED
            && from + count < held
            && self.places[from + count].at() == first + count as u64
        {
            count += 1;
        }
        count
    }

    /// The bytes of the sector at place `from`.
    pub(crate) fn bytes_at(&self, from: usize) -> &[u8]
        requires used { length self.now.numbers.keys ≤ length self.now.places.items }
        requires some { from < length self.now.numbers.keys }
        ensures bytes { result.now ≡ bytes_of (take 1 (drop from (placed self.now))) }
        ensures whole { length result.now ≡ 512 }
    {
        self.places[from].bytes()
    }

    /// Joins the bytes of `count` sectors from place `from` on.
    pub(crate) fn gather(&self, from: usize, count: usize, out: &mut [u8])
        requires used { length self.now.numbers.keys ≤ length self.now.places.items }
        requires some { from + count ≤ length self.now.numbers.keys }
        requires room { 512 * count ≤ length out.old }
        ensures { take (512 * count) out.new ≡ bytes_of (take count (drop from (placed self.now))) }
    {
        'sectors: for i in 0..count {
            let start = SECTOR_LEN * i;
            out[start..start + SECTOR_LEN].copy_from_slice(self.places[from + i].bytes());
        }
    }

    /// Moves the `count` sectors from place `from` on down to place `to`, and what stood there up.
    pub(crate) fn move_down(&mut self, from: usize, count: usize, to: usize)
        requires used { length self.old.numbers.keys ≤ length self.old.places.items }
        requires some { from + count ≤ length self.old.numbers.keys }
        requires down { to ≤ from }
        ensures numbers { self.new.numbers ≡ self.old.numbers }
        ensures places { length self.new.places.items ≡ length self.old.places.items }
        ensures moved { take (to + count) (placed self.new)
            ≡ take to (placed self.old) ++ take count (drop from (placed self.old)) }
        ensures rest { drop (from + count) (placed self.new)
            ≡ drop (from + count) (placed self.old) }
    {
        'sectors: for i in 0..count {
            self.places.swap(to + i, from + i);
        }
    }

    /// Keeps the sectors of the first `held` places alone, which are in order, and makes the table
    /// anew of them.
    pub(crate) fn keep_first(&mut self, held: usize)
        requires held { held ≤ length self.old.places.items }
        requires order { IsAscending 0 (take held self.old.places.items) }
        requires room { length self.old.places.items ≤ length self.old.numbers.keys + spare self.old.numbers }
        ensures indexed { IsIndexed self.new }
        ensures held { held_of self.new ≡ take held self.old.places.items }
        ensures places { self.new.places ≡ self.old.places }
    {
        self.numbers.truncate(0);
        'places: for i in 0..held {
            let _ = self.numbers.insert(self.places[i].at()).unwrap();
        }
    }

    /// Lets go of all its sectors.
    pub(crate) fn clear(&mut self)
        requires has { HasRoom self.old }
        ensures indexed { IsIndexed self.new }
        ensures held { held_of self.new ≡ [] }
        ensures places { length self.new.places.items ≡ length self.old.places.items }
    {
        self.keep_first(0);
    }
}

// Puts the first `held` places in the order of their sectors.
fn sort_first(places: &mut [Place], held: usize)
    requires held { held ≤ length places.old }
    requires once { IsDistinct nat_eq (numbers_of (take held places.old)) }
    requires whole { AreWhole (take held places.old) }
    ensures first { take held places.new ≡ ordered (take held places.old) }
    ensures length { length places.new ≡ length places.old }
{
    places[..held].sort_unstable_by_key(|place| place.at());
}
