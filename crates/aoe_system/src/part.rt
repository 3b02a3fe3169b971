//! What a copy reads: standard input, or a part of a file that is named. It tells nothing of content.
ghost use Rattle.std.specs.Prelude.{◌≡◌};
ghost use Rattle.aoe_system.specs.Named.{part_of};

use crate::files::FileRefusal;
use crate::flow::input_sectors;
use aoe_base::SECTOR_LEN;
use std::fs::File;
use std::io::{ErrorKind, Read, Seek, SeekFrom, Stdin, Take};
use std::os::unix::fs::FileTypeExt;
use std::{fs, io};

/// Bytes of a file, from one on.
#[derive(Clone, Copy)]
struct Part {
    at: u64,
    bytes: u64,
}

/// Of a file of so many bytes, `count` sectors behind the first `skip`, or without a count all that comes
/// behind them; none where it has fewer.
fn part_of(bytes: u64, skip: u64, count: Option<u64>) -> Option<Part>
    ensures { result ≡ part_of bytes skip count }
{
    let least = skip.checked_add(count.unwrap_or(0))?;
    if least > bytes / SECTOR_LEN as u64 {
        return None;
    }
    let at = skip * SECTOR_LEN as u64;
    Some(Part {
        at,
        bytes: match count {
            Some(count) => count * SECTOR_LEN as u64,
            None => bytes - at,
        },
    })
}

/// Why no part of a file can be read.
#[derive(Drop)]
pub enum PartRefusal {
    /// The file can't be opened for reading, is no file and no block device, or is in use.
    File(FileRefusal),

    /// It has so many sectors, fewer than are asked for.
    Short { sectors: u64 },
}

impl From<FileRefusal> for PartRefusal {
    fn from(refusal: FileRefusal) -> PartRefusal {
        PartRefusal::File(refusal)
    }
}

/// A part of a file or a block device, which is locked against whoever writes it, until it is dropped.
#[derive(Drop)]
pub struct FilePart {
    part: Take<File>,
}

/// Opens a file or a block device for reading, and says how many bytes it has.
fn open_sized(rt: &HostRuntime, name: &str) -> Result<(File, u64), FileRefusal> {
    // Before it is opened, since that of a pipe waits for who writes it.
    let kind = fs::metadata(rt, name)?.file_type();
    if !kind.is_file() && !kind.is_block_device() {
        return Err(FileRefusal::Kind);
    }
    let mut file = File::open(rt, name)?;
    file.try_lock_shared()?;
    let bytes = file.seek(SeekFrom::End(0))?;
    Ok((file, bytes))
}

impl FilePart {
    /// `count` sectors behind the first `skip` of a file, or without a count all that comes behind them.
    pub fn open(
        rt: &HostRuntime,
        name: &str,
        skip: u64,
        count: Option<u64>,
    ) -> Result<FilePart, PartRefusal> {
        let (mut file, bytes) = open_sized(rt, name)?;
        let Some(part) = part_of(bytes, skip, count) else {
            let sectors = bytes / SECTOR_LEN as u64;
            return Err(PartRefusal::Short { sectors });
        };
        match file.seek(SeekFrom::Start(part.at)) {
            Ok(_) => Ok(FilePart {
                part: file.take(part.bytes),
            }),
            Err(error) => Err(PartRefusal::File(FileRefusal::Unopened(error))),
        }
    }

    /// How many whole sectors are left of it.
    pub fn sectors(&self) -> u64 {
        self.part.limit() / SECTOR_LEN as u64
    }
}

impl Read for FilePart {
    /// A file that ended before the part did fails: it was made shorter meanwhile.
    fn read(&mut self, buf: &mut [u8]) -> io::Result<usize> {
        let count = self.part.read(buf)?;
        if count == 0 && !buf.is_empty() && self.part.limit() > 0 {
            return Err(io::Error::from(ErrorKind::UnexpectedEof));
        }
        Ok(count)
    }
}

/// Standard input, or a part of a file.
#[derive(Drop)]
pub enum Reader {
    Standard(Stdin),
    Part(FilePart),
}

impl Reader {
    /// How many whole sectors are left of it, where it tells.
    pub fn sectors(&self, rt: &HostRuntime) -> Option<u64> {
        match self {
            Reader::Standard(_) => input_sectors(rt),
            Reader::Part(part) => Some(part.sectors()),
        }
    }
}

impl Read for Reader {
    fn read(&mut self, buf: &mut [u8]) -> io::Result<usize> {
        match self {
            Reader::Standard(stdin) => stdin.read(buf),
            Reader::Part(part) => part.read(buf),
        }
    }
}
