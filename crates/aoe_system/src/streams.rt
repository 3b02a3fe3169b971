//! A reader as a source, and a writer as a sink. They tell nothing of what they give and take.
ghost use Rattle.std.specs.Prelude.{◌≡◌, ◌≢◌, ◌<◌, ◌≤◌, ◌+◌, ◌^◌, IfErr, IfOk, None, OnErr, OnOk, length};
ghost use Rattle.std.specs.Io.{ReadsAtMost, WritesAtMost};
ghost use Rattle.std.specs.Io.Buffered.{reader_buffer};
ghost use Rattle.std.specs.Io.KnownBytes.{WriteAppends};
ghost use Rattle.std.specs.IoError.{error_kind};
ghost use Rattle.aoe_base.specs.Faults.{Rose};

use aoe_base::Failed;
use aoe_io::{Sink, Source};
use std::io;
use std::io::{BufRead, BufReader, ErrorKind, Read, Write};

/// How often a call that a signal interrupts is made again: as often as std does for files.
const TRIES: u64 = u64::MAX;

/// Reads as the reader does, and again where a signal interrupts it.
pub(crate) fn read_through<R: Read>(reader: &mut R, buf: &mut [u8]) -> io::Result<usize>
    ensures bound { ReadsAtMost result buf.new }
    ensures len { length buf.new ≡ length buf.old }
    ensures retried { IfErr result (λ e. error_kind e ≢ ErrorKind.Interrupted) }
{
    'tries: for _ in 0..TRIES {
        match reader.read(buf) {
            Err(error) if error.kind() == ErrorKind::Interrupted => {}
            answer => return answer,
        }
    }
    Err(io::Error::from(ErrorKind::TimedOut))
}

/// Writes as the writer does, and again where a signal interrupts it.
#[tactic(auto, using(crate::proofs::StreamLemmas::keeps_on, crate::proofs::StreamLemmas::writes_on))]
pub(crate) fn write_through<W: Write>(writer: &mut W, piece: &[u8]) -> io::Result<usize>
    ensures bound { WritesAtMost result piece.now }
    ensures bytes { WriteAppends (W.contents writer.old) (W.contents writer.new) result piece.now }
    ensures retried { IfErr result (λ e. error_kind e ≢ ErrorKind.Interrupted) }
{
    'tries: for _ in 0..TRIES {
        match writer.write(piece) {
            Err(error) if error.kind() == ErrorKind::Interrupted => {}
            answer => return answer,
        }
    }
    Err(io::Error::from(ErrorKind::TimedOut))
}

/// A reader with what was read ahead of it, which counts its faults.
#[derive(Drop)]
pub struct Input<R: Read> {
    reader: BufReader<R>,
    faults: u64,
}

impl<R: Read> Input<R> {
    pub fn new(reader: BufReader<R>) -> Input<R>
        ensures { result.faults ≡ 0 }
    {
        Input { reader, faults: 0 }
    }

    /// Reads where less is left of what was read ahead. It stands apart, so that `read` is inlined.
    #[cold]
    #[inline(never)]
    fn read_on(&mut self, buf: &mut [u8]) -> Result<usize, Failed>
        ensures within { IfOk result (λ n. n ≤ length buf.old) }
        ensures count { self.old.faults ≤ self.new.faults }
        ensures cause { OnErr result (Rose self.old.faults self.new.faults) }
        ensures no_fault { OnOk result (self.new.faults ≡ self.old.faults) }
        ensures one_fault { self.new.faults ≤ self.old.faults + 1 }
    {
        match read_through(&mut self.reader, buf) {
            Ok(n) => Ok(n),
            Err(_) => {
                self.faults = self.faults.saturating_add(1);
                Err(Failed)
            }
        }
    }
}

impl<R: Read> Source for Input<R> {
    ghost left = { λ _. None };

    ghost faults = { λ s. s.faults };

    ghost buffered = { λ s. reader_buffer s.reader };

    #[inline(always)]
    fn buffer(&self) -> &[u8] {
        self.reader.buffer()
    }

    #[inline(always)]
    fn consume(&mut self, count: usize) {
        self.reader.consume(count);
    }

    #[inline(always)]
    fn read(&mut self, buf: &mut [u8]) -> Result<usize, Failed> {
        let ahead = self.reader.buffer();
        let count = buf.len();
        if count <= ahead.len() {
            buf.copy_from_slice(&ahead[..count]);
            self.reader.consume(count);
            return Ok(count);
        }
        // Arms of its own: a result handed on as it came would be joined with the one above, and the
        // caller would look at both.
        match self.read_on(buf) {
            Ok(n) => Ok(n),
            Err(Failed) => Err(Failed),
        }
    }
}

/// A writer that counts its faults. Nothing is held back: what a call took, the writer has.
#[derive(Drop)]
pub struct Output<W> {
    writer: W,
    faults: u64,
}

impl<W: Write> Output<W> {
    pub fn new(writer: W) -> Output<W>
        ensures { result.faults ≡ 0 }
    {
        Output { writer, faults: 0 }
    }

    /// Writes once more where a signal interrupted the call, and else counts its fault. It stands apart,
    /// so that `write` is inlined.
    #[cold]
    #[inline(never)]
    #[tactic(auto, using(crate::proofs::StreamLemmas::none_taken))]
    fn write_on(&mut self, piece: &[u8], is_interrupted: bool) -> Result<usize, Failed>
        ensures some { IfOk result (λ n. 0 < n) }
        ensures within { IfOk result (λ n. n ≤ length piece.now) }
        ensures bytes { WriteAppends (W.contents self.old.writer) (W.contents self.new.writer)
            result piece.now }
        ensures count { self.old.faults ≤ self.new.faults }
        ensures cause { OnErr result (Rose self.old.faults self.new.faults) }
        ensures no_fault { OnOk result (self.new.faults ≡ self.old.faults) }
        ensures one_fault { self.new.faults ≤ self.old.faults + 1 }
    {
        if is_interrupted
            && let Ok(n) = write_through(&mut self.writer, piece)
            && n > 0
        {
            return Ok(n);
        }
        self.faults = self.faults.saturating_add(1);
        Err(Failed)
    }
}

impl<W: Write> Sink for Output<W> {
    ghost held = { λ _. None };

    ghost faults = { λ s. s.faults };

    #[inline(always)]
    #[tactic(auto, using(crate::proofs::StreamLemmas::none_taken, crate::proofs::StreamLemmas::writes_on))]
    fn write(&mut self, piece: &[u8]) -> Result<usize, Failed>
        requires { 0 < length piece.now }
        ensures some { IfOk result (λ n. 0 < n) }
        ensures within { IfOk result (λ n. n ≤ length piece.now) }
        ensures bytes { WriteAppends (W.contents self.old.writer) (W.contents self.new.writer)
            result piece.now }
        ensures count { self.old.faults ≤ self.new.faults }
        ensures cause { OnErr result (Rose self.old.faults self.new.faults) }
        ensures no_fault { OnOk result (self.new.faults ≡ self.old.faults) }
        ensures one_fault { self.new.faults ≤ self.old.faults + 1 }
    {
        let is_interrupted = match self.writer.write(piece) {
            Ok(n) if n > 0 => return Ok(n),
            Ok(_) => false,
            Err(error) => error.kind() == ErrorKind::Interrupted,
        };
        // Arms of its own, as in `read`.
        match self.write_on(piece, is_interrupted) {
            Ok(n) => Ok(n),
            Err(Failed) => Err(Failed),
        }
    }
}
