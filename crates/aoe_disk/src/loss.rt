//! What a loss of power leaves of sectors that are loose.
ghost use Rattle.std.specs.Prelude.{◌≡◌, ◌≤◌, ◌+◌, ◌*◌, ◌^◌, length};
ghost use Rattle.aoe_disk.specs.State.{with_piece, sector};
ghost use Rattle.aoe_disk.specs.Loss.{torn, left_of, IsLeft};

use crate::bytes::{spoil_at, write_at};
use aoe_base::SECTOR_LEN;

/// What a loss of power leaves of each sector that is loose.
#[derive(Clone, Copy, PartialEq, Eq)]
pub enum Loss {
    /// Its bytes as they were last written.
    Keep,
    /// Its bytes of the last sync.
    Old,
    /// Its first 256 bytes as they were last written, and its last 256 of the last sync.
    Torn,
    /// One of four by the sector's number: `Mix(x)` takes for sector s the choice (x + s) mod 4,
    /// where the sum wraps: 0 as `Keep`, 1 as `Old`, 2 as `Torn`, 3 every byte 0xEE.
    Mix(u64),
}

/// The first half of the sector stays, and the second is as it was settled.
fn tear(now: &mut [u8], settled: &[u8])
    requires now { length now.old ≡ 512 }
    requires settled { length settled.now ≡ 512 }
    ensures { now.new ≡ torn now.old settled.now }
{
    write_at(now, SECTOR_LEN / 2, &settled[SECTOR_LEN / 2..]);
}

/// What becomes of sector `s`, which is loose.
fn lose(now: &mut [u8], settled: &[u8], how: Loss, s: u64)
    requires now { length now.old ≡ 512 }
    requires settled { length settled.now ≡ 512 }
    ensures { now.new ≡ left_of how s now.old settled.now }
{
    match how {
        Loss::Keep => {}
        Loss::Old => now.copy_from_slice(settled),
        Loss::Torn => tear(now, settled),
        Loss::Mix(x) => {
            let choice = x.wrapping_add(s) % 4;
            match choice {
                0 => {}
                1 => now.copy_from_slice(settled),
                2 => tear(now, settled),
                _ => spoil_at(now, 0),
            }
        }
    }
}

/// What becomes of sector `s` of the whole image, where it is loose.
fn lose_at(now: &mut [u8], settled: &[u8], how: Loss, s: usize)
    requires now { 512 * s + 512 ≤ length now.old }
    requires settled { 512 * s + 512 ≤ length settled.now }
    ensures { now.new ≡ with_piece now.old (512 * s)
        (left_of how s (sector now.old s) (sector settled.now s)) }
{
    let start = SECTOR_LEN * s;
    let end = start + SECTOR_LEN;
    lose(&mut now[start..end], &settled[start..end], how, s as u64);
}

/// What becomes of an image of which some sectors are loose.
pub fn lose_loose(now: &mut [u8], settled: &[u8], loose: &[bool], how: Loss)
    requires now { length now.old ≡ 512 * length loose.now }
    requires settled { length settled.now ≡ 512 * length loose.now }
    requires bound { length loose.now ≤ 2 ^ 40 }
    ensures { IsLeft how now.old settled.now loose.now now.new }
{
    'sectors: for s in 0..loose.len() {
        if loose[s] {
            lose_at(now, settled, how, s);
        }
    }
}
