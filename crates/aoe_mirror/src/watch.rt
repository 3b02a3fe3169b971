//! Who is told what becomes of a mirror while it runs.
ghost use Rattle.std.specs.Prelude.{◌≡◌, ◌≤◌, [], ◌∷◌, List, Option};
ghost use Rattle.std.specs.Option.{option_to_list};
ghost use Rattle.aoe_mirror.specs.Mirror.{pair};
ghost use Rattle.aoe_mirror.specs.Watching.{Hears, TellsChanges, new_lead, new_state, standing_of};
ghost use Rattle.aoe_mirror.specs.declared.watch.MirrorEvent.{MirrorEvent};

use crate::Mirror;
use aoe_disk::Disk;

/// What becomes of a mirror. Each comes once for a change, not for each call that fails.
#[derive(Clone, Copy, Debug, PartialEq, Eq)]
pub enum MirrorEvent {
    /// The other side failed, and this one leads from now on.
    Leads(u8),

    /// This side follows, and has old sectors from now on: it failed, or couldn't be copied to.
    Behind(u8),

    /// This side follows, and has all sectors again.
    Whole(u8),
}

/// Whoever is told what becomes of a mirror.
pub trait MirrorWatch {
    // What it was told, the latest first, where it shows that.
    ghost told: { Self → Option (List MirrorEvent) };

    fn tell(&mut self, event: MirrorEvent)
        ensures { Hears (event ∷ []) (told self.old) (told self.new) };
}

/// Which side of a mirror leads, 0 or 1, and whether the other has all sectors.
#[derive(Clone, Copy)]
pub struct Standing {
    pub lead: u8,
    pub is_whole: bool,
}

impl Standing {
    /// How a mirror stands now.
    pub fn of<D: Disk>(mirror: &Mirror<D>) -> Standing
        ensures standing { result ≡ standing_of (pair D.state mirror.now) }
        ensures one { result.lead ≤ 1 }
    {
        Standing {
            lead: mirror.lead(),
            is_whole: mirror.stale() == 0,
        }
    }
}

/// Whether the lead changed, and then which side leads.
fn new_lead(before: Standing, after: Standing) -> Option<MirrorEvent>
    ensures { result ≡ new_lead before after }
{
    if before.lead == after.lead {
        return None;
    }
    Some(MirrorEvent::Leads(after.lead))
}

/// Whether the side that follows has old sectors now and had none, or has all of them again. It has
/// old ones where the lead changed.
fn new_state(before: Standing, after: Standing) -> Option<MirrorEvent>
    requires { after.lead ≤ 1 }
    ensures { result ≡ new_state before after }
{
    let was_whole = before.is_whole && before.lead == after.lead;
    match (was_whole, after.is_whole) {
        (true, false) => Some(MirrorEvent::Behind(1 - after.lead)),
        (false, true) => Some(MirrorEvent::Whole(1 - after.lead)),
        (true, true) | (false, false) => None,
    }
}

/// Tells what there is to tell.
fn tell_some<W: MirrorWatch>(watch: &mut W, event: Option<MirrorEvent>)
    ensures { Hears (option_to_list event) (W.told watch.old) (W.told watch.new) }
{
    if let Some(event) = event {
        watch.tell(event);
    }
}

/// Tells what led from one standing to another.
fn tell_change<W: MirrorWatch>(watch: &mut W, before: Standing, after: Standing)
    requires sides { (before.lead ≤ 1) × (after.lead ≤ 1) }
    ensures { TellsChanges before after (W.told watch.old) (W.told watch.new) }
{
    tell_some(watch, new_lead(before, after));
    tell_some(watch, new_state(before, after));
}

/// Tells the watch how a mirror stands, where that isn't as it was told.
pub fn note<D: Disk, W: MirrorWatch>(mirror: &Mirror<D>, watch: &mut W, standing: &mut Standing)
    requires { standing.old.lead ≤ 1 }
    ensures tells { TellsChanges standing.old standing.new (W.told watch.old) (W.told watch.new) }
    ensures standing { standing.new ≡ standing_of (pair D.state mirror.now) }
{
    let now = Standing::of(mirror);
    tell_change(watch, *standing, now);
    *standing = now;
}
