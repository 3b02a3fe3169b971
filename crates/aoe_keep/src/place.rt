//! Where the present lists stand, and where the next ones go.
ghost use Rattle.std.specs.Prelude.{◌≡◌, ◌≤◌, ◌<◌};
ghost use Rattle.aoe_keep.specs.Found.{next_turn};
ghost use Rattle.aoe_keep.specs.Stages.{spare, turn_after, is_unplaced, next_place};

/// The slot that holds the present lists, with the turn of its body and the number of its format.
#[derive(Clone, Copy)]
pub(crate) struct Place {
    pub(crate) slot: u8,
    pub(crate) turn: u8,
    pub(crate) format: u8,
}

/// The turn that follows another: 0, 1 and 2 go round.
pub(crate) fn turn_following(turn: u8) -> u8
    ensures turn { result ≡ next_turn turn }
    ensures small { result < 3 }
{
    ((u16::from(turn) + 1) % 3) as u8
}

/// The slot that the next lists go to.
pub(crate) fn spare_slot(place: Option<Place>) -> u8
    ensures slot { result ≡ spare place }
    ensures small { result ≤ 1 }
{
    match place {
        Some(Place { slot: 0, .. }) => 1,
        _ => 0,
    }
}

/// The turn that the next lists get.
pub(crate) fn spare_turn(place: Option<Place>) -> u8
    ensures turn { result ≡ turn_after place }
    ensures small { result < 3 }
{
    match place {
        Some(place) => turn_following(place.turn),
        None => 0,
    }
}
