//! Sectors in a list of bytes, and their marks.
ghost use Rattle.std.specs.Prelude.{◌≡◌, ◌≤◌, ◌+◌, ◌*◌, ◌^◌, length};
ghost use Rattle.aoe_disk.specs.State.{with_piece, with_marks, spoiled_sector};
ghost use Rattle.aoe_disk.specs.Memory.{AgreesWhereKept};

use aoe_base::SECTOR_LEN;

/// Every byte of a sector that lost what it held.
const SPOILED: u8 = 0xee;

/// Puts the piece in the place of the bytes from `start` on.
pub fn write_at(bytes: &mut [u8], start: usize, piece: &[u8])
    requires { start + length piece.now ≤ length bytes.old }
    ensures { bytes.new ≡ with_piece bytes.old start piece.now }
{
    bytes[start..start + piece.len()].copy_from_slice(piece);
}

/// Spoils the sector that begins at `start`.
pub fn spoil_at(bytes: &mut [u8], start: usize)
    requires { start + 512 ≤ length bytes.old }
    ensures { bytes.new ≡ with_piece bytes.old start spoiled_sector }
{
    bytes[start..start + SECTOR_LEN].fill(SPOILED);
}

/// Marks `count` sectors from `first` on.
pub fn mark(loose: &mut [bool], first: usize, count: usize)
    requires { first + count ≤ length loose.old }
    ensures { loose.new ≡ with_marks loose.old first count }
{
    loose[first..first + count].fill(true);
}

/// Copies the sectors that are loose to the settled image. The others agree already.
pub fn settle_loose(settled: &mut [u8], now: &[u8], loose: &[bool])
    requires now { length now.now ≡ 512 * length loose.now }
    requires settled { length settled.old ≡ 512 * length loose.now }
    requires bound { length loose.now ≤ 2 ^ 40 }
    requires agrees { AgreesWhereKept loose.now now.now settled.old }
    ensures { settled.new ≡ now.now }
{
    'sectors: for s in 0..loose.len() {
        if loose[s] {
            let start = SECTOR_LEN * s;
            write_at(settled, start, &now[start..start + SECTOR_LEN]);
        }
    }
}
