//! Sectors of a device.
ghost use Rattle.std.specs.Prelude.{◌≡◌, IsTrue, ◌↔◌};
ghost use Rattle.aoe_base.specs.Spans.{overlap, Overlap};

/// How many bytes a sector has (AoEr11, "ATA command": data comes in sectors of 512 bytes).
pub const SECTOR_LEN: usize = 512;

/// The `count` sectors of 512 bytes from the logical block address `at` on.
#[derive(Clone, Copy, PartialEq, Eq, Hash)]
pub struct Span {
    pub at: u64,
    pub count: u32,
}

impl Span {
    /// Whether a sector lies in both spans.
    pub fn overlaps(&self, other: &Span) -> bool
        ensures shared { IsTrue result ↔ (Overlap self.now other.now) }
        ensures test { result ≡ overlap self.now other.now }
    {
        let first = self.at.max(other.at);
        first - self.at < u64::from(self.count) && first - other.at < u64::from(other.count)
    }
}
