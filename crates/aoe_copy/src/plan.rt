//! Which sectors are copied, and by how many in one command.
ghost use Rattle.std.specs.Prelude.{◌≡◌, ◌+◌, ◌≤◌, ◌<◌, IfNone, IfSome};
ghost use Rattle.aoe_copy.specs.Plan.{plan_of, wanted};

use aoe_tools::Device;

/// What is copied out of a device.
#[derive(Clone, Copy)]
pub(crate) struct Plan {
    /// The first sector.
    pub(crate) at: u64,

    /// How many there are.
    pub(crate) count: u64,

    /// The most sectors of a command.
    pub(crate) max: u32,
}

/// A copy of so many sectors of a device from `at` on, or of all; `None` where it doesn't have them.
pub(crate) fn plan_of(device: &Device, at: u64, count: Option<u64>) -> Option<Plan>
    ensures some { IfSome result (λ p. (p ≡ plan_of device.now at count)
        × (at + wanted device.now at count ≤ device.now.total)) }
    ensures none { IfNone result (device.now.total < at + wanted device.now at count) }
{
    if at > device.total {
        return None;
    }
    let left = device.total - at;
    let count = count.unwrap_or(left);
    if count > left {
        return None;
    }
    Some(Plan {
        at,
        count,
        max: device.max,
    })
}
