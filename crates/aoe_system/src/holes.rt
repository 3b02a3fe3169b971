//! What a copy writes: standard output, or a file that is named, where sectors of zeros become holes. It
//! tells nothing of content.
ghost use Rattle.std.specs.Prelude.{◌≡◌, ◌<◌, ◌≤◌, drop, length, not, take, true};
ghost use Rattle.aoe_system.specs.Named.{are_zeros};

use crate::files::FileRefusal;
use aoe_base::SECTOR_LEN;
use std::fs::{File, OpenFile, OpenOptions};
use std::io;
use std::io::{Stdout, Write};
use std::os::unix::fs::{FileExt, FileTypeExt};

/// What is at the front of a piece: so many bytes, all of them zeros or not.
#[derive(Clone, Copy)]
struct Front {
    len: usize,
    is_hole: bool,
}

/// Whether all bytes are zeros.
fn are_zeros(bytes: &[u8]) -> bool
    ensures { result ≡ are_zeros bytes.now }
{
    bytes.iter().all(|byte| *byte == 0)
}

/// The sectors at the front of a piece that hold only zeros, or else those before the first that does. The
/// last sector can be short.
fn front_of(piece: &[u8]) -> Front
    ensures within { result.len ≤ length piece.now }
    ensures some { 0 < length piece.now → 0 < result.len }
    ensures hole { result.is_hole ≡ true → are_zeros (take result.len piece.now) ≡ true }
    ensures kind { result.is_hole ≡ are_zeros (take 512 piece.now) }
    ensures end { result.len < length piece.now
        → are_zeros (take 512 (drop result.len piece.now)) ≡ not result.is_hole }
{
    let mut len = SECTOR_LEN.min(piece.len());
    let is_hole = are_zeros(&piece[..len]);
    'sectors: while len < piece.len() {
        let next = piece.len().min(len + SECTOR_LEN);
        if are_zeros(&piece[len..next]) != is_hole {
            break 'sectors;
        }
        len = next;
    }
    Front { len, is_hole }
}

/// A file that is written from its beginning on, and has a hole for sectors of zeros. Its length is that of
/// what it took. It is locked until it is dropped.
#[derive(Drop)]
pub struct HoledFile {
    file: File,
    len: u64,
}

impl Write for HoledFile {
    /// In a function of its own, so that what writes frames to standard output has no code of files in its loop.
    #[cold]
    #[inline(never)]
    fn write(&mut self, piece: &[u8]) -> io::Result<usize> {
        let front = front_of(piece);
        let count = if front.is_hole {
            self.file
                .set_len(self.len.saturating_add(front.len as u64))?;
            front.len
        } else {
            self.file.write_at(&piece[..front.len], self.len)?
        };
        self.len = self.len.saturating_add(count as u64);
        Ok(count)
    }

    fn flush(&mut self) -> io::Result<()> {
        Ok(())
    }
}

/// Standard output; a file; or a device or pipe, which has no holes.
#[derive(Drop)]
pub enum Writer {
    Standard(Stdout),
    File(HoledFile),
    Device(File),
}

impl Writer {
    /// Makes the file of this name, or empties it, and locks it, so that none is written that is served.
    pub fn create(rt: &HostRuntime, name: &str) -> Result<Writer, FileRefusal> {
        let file = OpenOptions::new().write(true).create(true).open(rt, name)?;
        let kind = file.metadata()?.file_type();
        if kind.is_file() || kind.is_block_device() {
            file.try_lock()?;
        }
        if !kind.is_file() {
            return Ok(Writer::Device(file));
        }
        file.set_len(0)?;
        Ok(Writer::File(HoledFile { file, len: 0 }))
    }
}

impl Write for Writer {
    fn write(&mut self, piece: &[u8]) -> io::Result<usize> {
        match self {
            Writer::Standard(stdout) => stdout.write(piece),
            Writer::File(file) => file.write(piece),
            Writer::Device(file) => file.write(piece),
        }
    }

    fn flush(&mut self) -> io::Result<()> {
        Ok(())
    }
}
