//! The forms of setup lines.
ghost use Rattle.std.specs.Prelude.{◌≡◌};
ghost use Rattle.aoe_script.specs.Forms.{attach_of, host_of, life_of, optional_number, readonly_of, shelf_of, slot_of};

use crate::parts::ports_of;
use crate::setup::Setup;
use crate::words::Words;

/// The number at a place, or none where the line ends before it.
fn optional_number(words: &Words, i: usize) -> Option<Option<u64>>
    ensures { result ≡ optional_number words.now i }
{
    if words.len() <= i {
        return Some(None);
    }
    Some(Some(words.number(i)?))
}

/// `life MS`, or `life REQUESTS RESPONSES`
pub(crate) fn life_of(words: &Words) -> Option<Setup>
    ensures { result ≡ life_of words.now }
{
    Some(Setup::Life {
        requests: words.number(1)?,
        responses: optional_number(words, 2)?,
    })
}

/// `shelf NAME MAJOR PORTS MTU`
pub(crate) fn shelf_of(words: &Words) -> Option<Setup>
    ensures { result ≡ shelf_of words.now }
{
    Some(Setup::Shelf {
        name: words.name(1)?,
        major: words.number(2)?,
        ports: ports_of(words.at(3))?,
        mtu: words.number(4)?,
    })
}

/// `slot NAME MINOR SECTORS`, or with `ROOM` behind it
pub(crate) fn slot_of(words: &Words) -> Option<Setup>
    ensures { result ≡ slot_of words.now }
{
    Some(Setup::Slot {
        shelf: words.name(1)?,
        minor: words.number(2)?,
        sectors: words.number(3)?,
        room: optional_number(words, 4)?,
    })
}

/// `host NAME PORTS`, or with `ROOM DEAD` behind it
pub(crate) fn host_of(words: &Words) -> Option<Setup>
    ensures { result ≡ host_of words.now }
{
    Some(Setup::Host {
        name: words.name(1)?,
        ports: ports_of(words.at(2))?,
        room: optional_number(words, 3)?,
        dead: optional_number(words, 4)?,
    })
}

/// `attach HOST SHELF MINOR`
pub(crate) fn attach_of(words: &Words) -> Option<Setup>
    ensures { result ≡ attach_of words.now }
{
    Some(Setup::Attach {
        host: words.name(1)?,
        shelf: words.name(2)?,
        minor: words.number(3)?,
    })
}

/// `readonly SHELF MINOR`
pub(crate) fn readonly_of(words: &Words) -> Option<Setup>
    ensures { result ≡ readonly_of words.now }
{
    Some(Setup::Readonly {
        shelf: words.name(1)?,
        minor: words.number(2)?,
    })
}
