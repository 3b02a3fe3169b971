//! A list of addresses in an order in which one is found by halving.
ghost use Rattle.std.specs.Prelude.{◌≡◌, IsPermutation, IsSorted};
ghost use Rattle.aoe_lists.specs.Settings.{LetInTheSame, is_open_to};

use crate::AddressList;
use crate::lists::refill;
use aoe_base::Mac;
use std::marker::Model;

/// The addresses of a mask list or a reserve list, sorted, so that eight looks find one of them.
#[derive(Drop)]
pub struct SortedList {
    addresses: AddressList,
}

impl Model for SortedList {
    ghost use Rattle.std.specs.Prelude.{IsSorted, List};
    ghost use Rattle.aoe_base.specs.declared.address.Mac.{Mac};

    ghost Value = { List Mac };

    ghost view = { λ s. s.addresses.items };

    ghost invariant = { λ s. IsSorted ⟦<Mac as Ord>⟧.cmp s.addresses.items };
}

/// Puts the addresses of a list in order.
fn sort(list: &mut AddressList)
    ensures addresses { IsPermutation list.old.items list.new.items }
    ensures sorted { IsSorted ⟦<Mac as Ord>⟧.cmp list.new.items }
{
    list.as_mut_slice().sort_unstable();
}

impl SortedList {
    /// The addresses of a list.
    pub fn of(list: &AddressList) -> Self
        ensures addresses { IsPermutation list.now.items result }
        ensures lets_in { LetInTheSame result list.now.items }
    {
        let mut addresses = AddressList::new();
        refill(&mut addresses, list.as_slice());
        sort(&mut addresses);
        SortedList { addresses }
    }

    /// Whether a station is let in by a list with these addresses: it is empty or has the station.
    #[cold]
    #[inline(never)]
    pub fn lets_in(&self, address: Mac) -> bool
        ensures { result ≡ is_open_to self.now address }
    {
        self.addresses.is_empty() || self.addresses.as_slice().binary_search(&address).is_ok()
    }
}
