//! An input without a byte.
ghost use Rattle.std.specs.Prelude.{◌≡◌, ◌<◌, ◌≤◌, ◌+◌, ℕ, List, Option, Some, [], take, length, IfOk, OnErr, OnOk};
ghost use Rattle.aoe_base.specs.Faults.{Rose};
ghost use Rattle.aoe_io.specs.Bytes.{Gave, IsEnded};

use aoe_base::Failed;
use aoe_io::Source;

/// A source that has ended.
#[derive(Drop)]
pub(crate) struct Nothing;

impl Source for Nothing {
    ghost left = { λ _. Some [] };

    ghost faults = { λ _. 0 };

    ghost buffered = { λ _. [] };

    fn buffer(&self) -> &[u8] {
        &[]
    }

    fn consume(&mut self, count: usize) {}

    fn read(&mut self, buf: &mut [u8]) -> Result<usize, Failed> {
        Ok(0)
    }
}
