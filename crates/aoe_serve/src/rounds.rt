//! One frame for every slot of a shelf.
ghost use Rattle.std.specs.Prelude.{◌≡◌, ◌<◌, length};
ghost use Rattle.aoe_target.specs.Law.{Fate};
ghost use Rattle.aoe_target.specs.Receive.{fate_of};
ghost use Rattle.aoe_serve.specs.Arrivals.{reply_of};
ghost use Rattle.aoe_serve.specs.Rounds.{Round, TakesOn};
ghost use Rattle.aoe_serve.specs.Answering.{MeetsAt};
ghost use Rattle.aoe_serve.specs.Slots.{slots_of};

use crate::outlet::Outlet;
use aoe_base::Failed;
use aoe_disk::Disk;
use aoe_frame::{Frame, MAX_FRAME};
use aoe_shelf::Shelf;
use aoe_store::Store;
use aoe_target::Heard;

/// Gives the reply to a frame to the outlet, where there is one, unless that failed before.
#[inline(always)]
fn give<By, O: Outlet<By>>(
    heard: Heard,
    reply: &Frame,
    outlet: &mut O,
    given: Result<(), Failed>,
) -> Result<(), Failed>
    ensures { TakesOn O.took given result outlet.old outlet.new
        (reply_of (fate_of heard reply.now.items)) }
{
    match given {
        Ok(()) => {}
        Err(Failed) => return Err(Failed),
    }
    match heard {
        Heard::Replied { .. } => outlet.give(reply),
        Heard::Ignored | Heard::Silent => Ok(()),
    }
}

/// Hands a frame to one slot, and gives the reply to the outlet, unless that failed before.
#[inline(always)]
fn meet<S: Store, D: Disk, By, O: Outlet<By>>(
    shelf: &mut Shelf<S, D>,
    slot: usize,
    frame: &[u8],
    reply: &mut Frame,
    outlet: &mut O,
    given: Result<(), Failed>,
) -> Result<(), Failed>
    requires { slot < length shelf.old.targets }
    ensures meets { (fate : Fate) × MeetsAt slot (slots_of S.lasts S.state D.state shelf.old.targets) (slots_of S.lasts S.state D.state shelf.new.targets) frame.now fate
        × TakesOn O.took given result outlet.old outlet.new (reply_of fate) }
    ensures len { length shelf.new.targets ≡ length shelf.old.targets }
    ensures rest { shelf.new ≡ record shelf.old { targets = shelf.new.targets } }
{
    let heard = shelf.receive_slot(slot, frame, reply);
    prove!(reply.len() <= MAX_FRAME);
    give::<By, O>(heard, reply, outlet, given)
}

/// Hands a frame to every slot in turn, and gives the replies to the outlet. Where that fails, or did
/// before, it is given no more, and the slots that are left get the frame all the same.
#[inline(always)]
pub(crate) fn round<S: Store, D: Disk, By, O: Outlet<By>>(
    shelf: &mut Shelf<S, D>,
    frame: &[u8],
    reply: &mut Frame,
    outlet: &mut O,
    so_far: Result<(), Failed>,
) -> Result<(), Failed>
    ensures round { Round (TakesOn O.took so_far result outlet.old outlet.new) frame.now
        (slots_of S.lasts S.state D.state shelf.old.targets) (slots_of S.lasts S.state D.state shelf.new.targets) }
    ensures rest { shelf.new ≡ record shelf.old { targets = shelf.new.targets } }
{
    let mut given = so_far;
    'slots: for slot in 0..shelf.count() {
        given = meet::<S, D, By, O>(shelf, slot, frame, reply, outlet, given);
    }
    given
}
