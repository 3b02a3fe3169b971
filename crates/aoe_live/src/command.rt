//! The commands of the host.
ghost use Rattle.std.specs.Prelude.{◌≡◌, ◌≤◌};
ghost use Rattle.aoe_live.specs.Stations.{command};

use crate::stations::{DEVICE, named};
use aoe_script::Event;

/// Command `i` of `count`, from 0: a write of a sector or a read of what was written last, and the
/// flush behind all of them.
pub(crate) fn command(sectors: u64, count: u32, i: u64) -> Event
    requires { 1 ≤ sectors }
    ensures { result ≡ command sectors count i }
{
    let (host, dev) = (named(b'a'), DEVICE);
    if i == u64::from(count) {
        return Event::Flush { host, dev };
    }
    if i % 2 == 0 {
        Event::Write {
            host,
            dev,
            at: i % sectors,
            count: 1,
            fill: (i % 256) as u8,
        }
    } else {
        Event::Read {
            host,
            dev,
            at: (i - 1) % sectors,
            count: 1,
        }
    }
}
