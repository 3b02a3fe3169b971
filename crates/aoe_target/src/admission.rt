//! Whom the lists of a target let in.
ghost use Rattle.aoe_lists.specs.Settings.{admits as is_admitted, may_use as is_user};
ghost use Rattle.aoe_target.specs.Admission.{AdmitsAs};
ghost use Rattle.std.specs.Prelude.{◌≡◌};

use aoe_base::Mac;
use aoe_lists::{Lists, SortedList};

/// The mask list and the reserve list in an order in which a station is found by halving.
#[derive(Drop)]
pub struct Admission {
    pub masks: SortedList,
    pub reserves: SortedList,
}

impl Admission {
    /// By these lists.
    pub(crate) fn of(lists: &Lists) -> Self
        ensures { AdmitsAs result lists.now }
    {
        Admission {
            masks: SortedList::of(&lists.masks),
            reserves: SortedList::of(&lists.reserves),
        }
    }
}
