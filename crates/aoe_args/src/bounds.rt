//! The numbers that words and options take.
ghost use Rattle.std.specs.Prelude.{◌≡◌};

/// The numbers that a word or an option takes.
#[derive(Clone, Copy)]
pub(crate) struct Bounds {
    pub(crate) least: u32,
    pub(crate) most: u32,
}

impl Bounds {
    /// The least of them and the greatest.
    pub(crate) fn ends(self) -> (u64, u64)
        ensures { result ≡ (self.least, self.most) }
    {
        (u64::from(self.least), u64::from(self.most))
    }
}

/// What an Ethernet frame carries: an ordinary frame, to a jumbo frame.
pub(crate) const MTU: Bounds = Bounds {
    least: 1500,
    most: 9000,
};

/// How many sectors a slot buffers: none, to 32 mebibytes.
pub(crate) const CACHE: Bounds = Bounds {
    least: 0,
    most: 65_536,
};

/// How many frames `serve` takes.
pub(crate) const FRAMES: Bounds = Bounds {
    least: 1,
    most: u32::MAX,
};

/// How many turns without a frame end `serve`, or without a client `nbd`, where 0 says that none do.
pub(crate) const IDLE: Bounds = Bounds {
    least: 0,
    most: 1_000_000,
};

/// How many turns a tool listens, or `live` goes on without an end of a command.
pub(crate) const TURNS: Bounds = Bounds {
    least: 1,
    most: 1_000_000,
};

/// How long after it was sent a frame can still arrive, in milliseconds: ten minutes at most.
pub(crate) const LIFETIME: Bounds = Bounds {
    least: 1,
    most: 600_000,
};

/// The number of a VXLAN: it has 24 bits (RFC 7348, section 5).
pub(crate) const VXLAN: Bounds = Bounds {
    least: 0,
    most: 0xff_ffff,
};

/// How many commands a script of `soak` has.
pub(crate) const SOAK_COMMANDS: Bounds = Bounds {
    least: 1,
    most: 16_000,
};

/// How many sectors the disk of `live` has: 32 mebibytes at most.
pub(crate) const LIVE_SECTORS: Bounds = Bounds {
    least: 1,
    most: 65_536,
};

/// How many commands `live` submits before its flush.
pub(crate) const LIVE_COMMANDS: Bounds = Bounds {
    least: 1,
    most: 10_000,
};

/// The most sectors that `get` reads: as many as a device can have whose sectors have numbers of 48 bits.
pub(crate) const MOST_GET_SECTORS: u64 = 1 << 48;

/// The greatest number that picks a script of `soak`.
pub(crate) const LAST_SEED: u64 = 65_535;

/// The last sector that a command can name: it has 48 bits (AoEr11, "ATA command").
pub(crate) const LAST_SECTOR: u64 = 0xffff_ffff_ffff;

/// The most sectors that the disk of a captured target has.
pub(crate) const MOST_CAPTURED_SECTORS: u64 = 1 << 40;

/// The most bytes of the path of a Unix socket: its address has 108, and the last is a zero (unix(7),
/// "sun_path").
pub(crate) const MOST_PATH: usize = 107;
