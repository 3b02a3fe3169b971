//! A config string, the mask list, the reserve list and the read-only mark of one device.
ghost use Rattle.std.specs.Prelude.{◌≡◌, ◌⊎◌, ◌↔◌, ◌≤◌, [], true, IsTrue, Contains, length};
ghost use Rattle.aoe_lists.specs.Settings.{Settings, admits as is_admitted, empty_settings, may_use as is_user, same_settings};

use aoe_base::{Mac, copy_of};
use arrayvec::ArrayVec;
use std::marker::Model;

/// The most addresses that a mask list or a reserve list has.
pub const MAX_ADDRESSES: usize = 180;

/// The most bytes that a config string has (AoEr11, "Query Config Information").
pub const MAX_CONFIG: usize = 1024;

/// A mask list or a reserve list, in the order in which the addresses came.
pub type AddressList = ArrayVec<Mac, MAX_ADDRESSES>;

/// What a device keeps: a string and two lists for its hosts, and the mark of its owner. No address
/// stands twice in a list.
#[derive(Default, Drop, PartialEq, Eq)]
pub struct Lists {
    /// The config string: bytes of which the device knows no meaning.
    pub config: ArrayVec<u8, MAX_CONFIG>,

    /// The stations that are answered; every station where it is empty.
    pub masks: AddressList,

    /// The stations whose ATA commands are done; those of every station where it is empty.
    pub reserves: AddressList,

    /// Whether writes are refused. No request of a host changes it.
    pub read_only: bool,
}

impl Model for Lists {
    ghost use Rattle.std.specs.Prelude.{◌≡◌, true};
    ghost use Rattle.aoe_lists.specs.Settings.{Settings};
    ghost use Rattle.aoe_base.specs.Addresses.{all_unique};

    ghost Value = { Settings };

    ghost view = { λ l. record { config = l.config.items; masks = l.masks.items; reserves = l.reserves.items; read_only = l.read_only } };

    ghost invariant = { λ l. (all_unique l.masks.items ≡ true) × (all_unique l.reserves.items ≡ true) };

    ghost inverse = { λ s. record {
      config = record { items = s.config };
      masks = record { items = s.masks };
      reserves = record { items = s.reserves };
      read_only = s.read_only;
    } };
}

/// Makes `list` these items, for which it has room.
pub(crate) fn refill<T: Copy + Default + Drop, const N: usize>(
    list: &mut ArrayVec<T, N>,
    items: &[T],
)
    requires { length items.now ≤ N }
    ensures { list.new.items ≡ items.now }
{
    list.clear();
    let _ = list.try_extend_from_slice(items);
}

impl Lists {
    /// The lists of a new device: no config string and no address, and it may be written.
    pub fn new() -> Self
        ensures { result ≡ empty_settings }
    {
        Lists {
            config: ArrayVec::new(),
            masks: ArrayVec::new(),
            reserves: ArrayVec::new(),
            read_only: false,
        }
    }

    /// Makes these lists the others, which takes no memory.
    pub(crate) fn take(&mut self, other: &Lists)
        ensures { self.new ≡ other.now }
    {
        refill(&mut self.config, other.config.as_slice());
        refill(&mut self.masks, other.masks.as_slice());
        refill(&mut self.reserves, other.reserves.as_slice());
        self.read_only = other.read_only;
    }

    /// A copy, which takes no memory.
    pub fn copy(&self) -> Self
        ensures { result ≡ self.now }
    {
        Lists {
            config: copy_of(&self.config),
            masks: copy_of(&self.masks),
            reserves: copy_of(&self.reserves),
            read_only: self.read_only,
        }
    }

    /// A copy with the read-only mark set or clear.
    pub fn marked(&self, read_only: bool) -> Self
        ensures { result ≡ record self.now { read_only = read_only } }
    {
        let mut lists = self.copy();
        lists.read_only = read_only;
        lists
    }
}

/// Whether every station is answered: the mask list is empty.
#[inline(always)]
pub fn answers_all(lists: &Lists) -> bool
    ensures means { IsTrue result ↔ (lists.now.masks ≡ []) }
    ensures all { result ≡ true → (source : Mac) → is_admitted lists.now source ≡ true }
{
    lists.masks.is_empty()
}

/// Whether every station's ATA commands are done: the reserve list is empty.
#[inline(always)]
pub fn serves_all(lists: &Lists) -> bool
    ensures means { IsTrue result ↔ (lists.now.reserves ≡ []) }
    ensures all { result ≡ true → (source : Mac) → is_user lists.now source ≡ true }
{
    lists.reserves.is_empty()
}

/// Whether a station is answered at all: the mask list is empty or has it.
#[cold]
#[inline(never)]
pub fn admits(lists: &Lists, source: Mac) -> bool
    ensures value { result ≡ is_admitted lists.now source }
    ensures means { IsTrue result ↔ ((lists.now.masks ≡ []) ⊎ Contains lists.now.masks source) }
{
    lists.masks.is_empty() || lists.masks.contains(&source)
}

/// Whether a station's ATA commands are done: the reserve list is empty or has it.
#[cold]
#[inline(never)]
pub fn may_use(lists: &Lists, source: Mac) -> bool
    ensures value { result ≡ is_user lists.now source }
    ensures means { IsTrue result ↔ ((lists.now.reserves ≡ [])
        ⊎ Contains lists.now.reserves source) }
{
    lists.reserves.is_empty() || lists.reserves.contains(&source)
}

/// A law: what the steps compare lists by is equality.
pub fn same_settings_is_equality()
    ensures { (one other : Settings) → (same_settings one other ≡ true) ↔ (one ≡ other) }
{}
