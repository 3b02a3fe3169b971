//! Bytes of a frame that several owners have in one place.
ghost use Rattle.std.specs.Prelude.{◌≡◌, IfOk};

use aoe_base::NoMemory;
use std::alloc::Global;
use std::marker::Model;
use std::rc::RcSlice;

/// The bytes of a frame, which contracts see as the list of its bytes. A second owner has them in
/// the same place.
#[derive(Drop)]
pub struct FrameBytes {
    held: RcSlice<u8>,
}

impl Model for FrameBytes {
    ghost use Rattle.std.specs.Prelude.{List, ℕ};
    ghost use Rattle.std.specs.Rc.{rc_slice_items};

    ghost Value = { List ℕ };

    ghost view = { λ b. rc_slice_items b.held };
}

impl FrameBytes {
    /// A copy of the bytes.
    pub fn of(alloc: Global, bytes: &[u8]) -> Result<FrameBytes, NoMemory>
        ensures { IfOk result (λ copy. copy ≡ bytes.now) }
    {
        let held = RcSlice::from_slice(alloc, bytes)?;
        Ok(FrameBytes { held })
    }

    /// The same bytes for one more owner.
    pub fn share(&self) -> Result<FrameBytes, NoMemory>
        ensures { IfOk result (λ same. same ≡ self.now) }
    {
        let held = self.held.clone()?;
        Ok(FrameBytes { held })
    }

    /// The bytes.
    pub fn bytes(&self) -> &[u8]
        ensures { result.now ≡ self.now }
    {
        self.held.as_slice()
    }
}
