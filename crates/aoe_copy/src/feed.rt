//! The bytes that a copy into a device has left to read.
ghost use Rattle.std.specs.Prelude.{◌≡◌, ◌≢◌, ◌<◌, ◌≤◌, ◌+◌, ◌++◌, [], length, take, Err, IfErr, IfOk, OnErr, OnOk};
ghost use Rattle.aoe_base.specs.Faults.{Blamed, Rose};
ghost use Rattle.aoe_io.specs.Bytes.{GaveSome, IsEnded};
ghost use Rattle.aoe_copy.specs.Feed.{ahead, Feeds, IsFeed, IsPiece};

use crate::end::CopyRefusal;
use aoe_base::{Blob, Failed, SECTOR_LEN};
use aoe_io::{Source, fill_from};
use aoe_tools::ToolRefusal;
use std::alloc::Global;

/// What is left of an input: of its front, which was read before, and then of the source.
#[derive(Drop)]
pub(crate) struct Feed<'a> {
    front: &'a [u8],

    /// How many bytes of the front were used.
    used: usize,
}

impl<'a> Feed<'a> {
    /// An input with this front.
    pub(crate) fn new(front: &'a [u8]) -> Feed<'a>
        ensures front { result.front.now ≡ front.now }
        ensures used { result.used ≡ 0 }
    {
        Feed { front, used: 0 }
    }

    /// Fills the front of `out` with what is left of the front, and says how many bytes of it.
    fn take_front(&mut self, out: &mut [u8]) -> usize
        requires { IsFeed self.old }
        ensures fit { IsFeed self.new }
        ensures within { result ≤ length out.old }
        ensures took { ahead self.old ≡ take result out.new ++ ahead self.new }
        ensures short { result < length out.old → ahead self.new ≡ [] }
    {
        let left = &self.front[self.used..];
        let n = left.len().min(out.len());
        out[..n].copy_from_slice(&left[..n]);
        self.used += n;
        n
    }

    /// Fills `out` with what is left, and says how many bytes of it: fewer than all only where the
    /// input ends.
    pub(crate) fn fill<S: Source>(
        &mut self,
        source: &mut S,
        out: &mut [u8],
    ) -> Result<usize, Failed>
        requires fit { IsFeed self.old }
        ensures fit { IsFeed self.new }
        ensures within { IfOk result (λ n. n ≤ length out.old) }
        ensures fed { IfOk result (λ n. Feeds (S.left source.old) (S.left source.new)
            (ahead self.old) (ahead self.new) (take n out.new)) }
        ensures short { IfOk result (λ n. n < length out.old
            → IsEnded (S.left source.new) × (ahead self.new ≡ [])) }
        ensures failed { OnErr result (GaveSome (S.left source.old) (S.left source.new)) }
        ensures count { S.faults source.old ≤ S.faults source.new }
        ensures cause { OnErr result (Rose (S.faults source.old) (S.faults source.new)) }
        ensures no_fault { OnOk result (S.faults source.new ≡ S.faults source.old) }
        ensures one_fault { S.faults source.new ≤ S.faults source.old + 1 }
    {
        let n = self.take_front(out);
        if n == out.len() {
            return Ok(n);
        }
        match fill_from(source, &mut out[n..]) {
            Ok(more) => Ok(n + more),
            Err(Failed) => Err(Failed),
        }
    }

    /// The next bytes, as many as are wanted, or fewer where the input ends: the whole sectors, and how
    /// many bytes are behind them. Room for them is asked for before they are read.
    pub(crate) fn piece<S: Source>(
        &mut self,
        alloc: Global,
        source: &mut S,
        want: usize,
    ) -> Result<(Blob, usize), CopyRefusal>
        requires fit { IsFeed self.old }
        requires some { 0 < want }
        ensures fit { OnOk result (IsFeed self.new) }
        ensures piece { IfOk result (λ r. IsPiece want (S.left source.old) (S.left source.new)
            (ahead self.old) (ahead self.new) r.0 r.1) }
        ensures failed { OnErr result (GaveSome (S.left source.old) (S.left source.new)) }
        ensures memory { IfErr result (λ e. e ≢ CopyRefusal.SourceFault
            → (e ≡ CopyRefusal.Tool ToolRefusal.NoMemory)
            × (S.left source.new ≡ S.left source.old)) }
        ensures count { S.faults source.old ≤ S.faults source.new }
        ensures source { Blamed (result ≡ Err CopyRefusal.SourceFault) (S.faults source.old)
            (S.faults source.new) }
    {
        let mut piece = match Vec::from_elem(alloc, 0u8, want) {
            Ok(piece) => piece,
            Err(_) => return Err(CopyRefusal::Tool(ToolRefusal::NoMemory)),
        };
        let n = match self.fill(source, piece.as_mut_slice()) {
            Ok(n) => n,
            Err(Failed) => return Err(CopyRefusal::SourceFault),
        };
        let rest = n % SECTOR_LEN;
        piece.truncate(n - rest);
        Ok((Blob::from_vec(piece), rest))
    }
}
