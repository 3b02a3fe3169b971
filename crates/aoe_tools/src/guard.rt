//! Which edits of a mask list are sent: those that leave the station that asks in, and add no group.
ghost use Rattle.std.specs.Prelude.{◌≡◌, ◌≤◌, ◌<◌, ◌+◌, List, false, length, map, Ok};
ghost use Rattle.aoe_base.specs.declared.address.Mac.{Mac as Address};
ghost use Rattle.aoe_lists.specs.Masks.{after_directives};
ghost use Rattle.aoe_lists.specs.Settings.{max_directives};
ghost use Rattle.aoe_lists.specs.declared.dir.Dir.{Dir as Change};
ghost use Rattle.aoe_tools.specs.Guard.{added_group, changed, directive_by, edited, held_back, mac_in, masks_in};
ghost use Rattle.aoe_tools.specs.Text.{pieces};

use crate::end::Refusal;
use crate::text::pieces;
use aoe_base::Mac;
use aoe_lists::{Args, Dir};
use arrayvec::ArrayVec;

/// The most addresses of a list that was read and then edited: as many as a response and a request have
/// room for.
const MOST_EDITED: usize = 320;

/// A mask list, as an edit makes it.
type Edited = ArrayVec<Mac, MOST_EDITED>;

/// The address of a directive.
#[tactic(auto, using(crate::proofs::GuardLemmas::last_six))]
fn mac_in(dir: &[u8; 8]) -> Mac
    ensures { result ≡ mac_in dir.now }
{
    let [_, _, a, b, c, d, e, f] = *dir;
    Mac([a, b, c, d, e, f])
}

/// The directives that a response has in its arguments.
fn dirs_in(args: &[u8]) -> &[[u8; 8]]
    requires { length args.now ≤ 2048 }
    ensures dirs { result.now ≡ pieces 8 4 args.now }
    ensures few { length result.now ≤ 256 }
{
    pieces::<8>(args, 4)
}

/// The list that a response has in its arguments.
fn masks_in(args: &Args) -> Edited
    ensures list { result.items ≡ masks_in args.now.items }
    ensures few { length result.items ≤ 256 }
{
    let mut list = Edited::new();
    let dirs = dirs_in(args.as_slice());
    'dirs: for dir in dirs {
        list.push(mac_in(dir));
    }
    list
}

/// Takes an address out.
fn delete(list: &mut Edited, mac: Mac)
    ensures change { list.new.items ≡ changed list.old.items (record { add = false; mac = mac }) }
    ensures few { length list.new.items ≤ length list.old.items }
{
    list.retain(|other| *other != mac);
}

/// Makes of a list what a directive makes of it.
fn apply(list: &mut Edited, dir: Dir)
    requires { length list.old.items < 320 }
    ensures change { list.new.items ≡ changed list.old.items dir }
    ensures few { length list.new.items ≤ length list.old.items + 1 }
{
    if !dir.add {
        delete(list, dir.mac);
    } else if !list.contains(&dir.mac) {
        list.push(dir.mac);
    }
}

/// The list that an edit makes of the one that was read.
fn edited(args: &Args, dirs: &[Dir]) -> Edited
    requires { length dirs.now ≤ max_directives }
    ensures { result.items ≡ edited (masks_in args.now.items) dirs.now }
{
    let mut list = masks_in(args);
    'dirs: for dir in dirs {
        apply(&mut list, *dir);
    }
    list
}

/// The first address of a group that an edit adds.
fn added_group(dirs: &[Dir]) -> Option<Mac>
    ensures { result ≡ added_group dirs.now }
{
    'dirs: for dir in dirs {
        if dir.add && !dir.mac.is_individual() {
            return Some(dir.mac);
        }
    }
    None
}

/// Why an edit of the list that was read isn't sent from a port.
pub(crate) fn held_back(port: Mac, dirs: &[Dir], args: &Args) -> Option<Refusal>
    requires { length dirs.now ≤ max_directives }
    ensures { result ≡ held_back port dirs.now (masks_in args.now.items) }
{
    if let Some(group) = added_group(dirs) {
        let mac = group.0;
        return Some(Refusal::Group { mac });
    }
    let list = edited(args, dirs);
    if list.is_empty() || list.contains(&port) {
        None
    } else {
        let port = port.0;
        Some(Refusal::LocksOut { port })
    }
}

/// A law: the list that an edit makes, by which it is sent or not, is the one that a shelf of this program
/// makes.
pub fn edits_as_a_shelf()
    ensures { (list next : List Address) (dirs : List Change)
        → after_directives list (map directive_by dirs) ≡ Ok next → edited list dirs ≡ next }
{}
