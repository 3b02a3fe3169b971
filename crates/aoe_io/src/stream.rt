//! The stream of frames: each a length of two bytes, big-endian, and so many bytes.
ghost use Rattle.std.specs.Prelude.{ℕ, List, [], ◌≢◌, ◌≡◌, ◌+◌, ◌<◌, ◌≤◌, ◌++◌, length, take, drop, IfNone, IfOk, OnOk, OnErr, IfSome, Ok, None, true, false};
ghost use Rattle.aoe_base.specs.Faults.{Rose};
ghost use Rattle.aoe_base.specs.Sizes.{longest_frame};
ghost use Rattle.aoe_io.specs.Bytes.{Gave, GaveSome, Took, TookSome, IsEnded};
ghost use Rattle.std.specs.Int.{w16, to_be_bytes};
ghost use Rattle.aoe_io.specs.Stream.{framed, IsFrame, IsLength, IsBroken};

use crate::{Sink, Source};
use aoe_base::Failed;
use aoe_frame::{Frame, MAX_FRAME, MIN_FRAME, stretch};
use thiserror::Error;

/// The least length of a frame on the stream: two addresses and a type.
const SHORTEST: usize = 14;

/// The longest piece that a frame and its length go out in together: one of Ethernet's least length
/// does.
const FRONT: usize = 64;

/// What came next on the stream.
#[derive(Clone, Copy, PartialEq, Eq)]
pub enum Next {
    Frame,
    End,
}

/// Why no frame came from the stream.
#[derive(Clone, Copy, Debug, PartialEq, Eq, Error)]
pub enum StreamRefusal {
    #[error("source fault")]
    SourceFault,
    /// The frame at this byte offset is truncated, or its length isn't 14 to 9018.
    #[error("bad stream at byte {offset}")]
    Stream { offset: u64 },
}

/// Fills `out` piece by piece, where the first piece of the source wasn't all of it.
#[cold]
#[inline(never)]
fn fill_on<S: Source>(source: &mut S, out: &mut [u8]) -> Result<usize, Failed>
    ensures within { IfOk result (λ n. n ≤ length out.old) }
    ensures gave { IfOk result (λ n. Gave (S.left source.old) (S.left source.new)
        (take n out.new)) }
    ensures short { IfOk result (λ n. n < length out.old → IsEnded (S.left source.new)) }
    ensures taken { OnErr result (GaveSome (S.left source.old) (S.left source.new)) }
    ensures count { S.faults source.old ≤ S.faults source.new }
    ensures cause { OnErr result (Rose (S.faults source.old) (S.faults source.new)) }
    ensures no_fault { OnOk result (S.faults source.new ≡ S.faults source.old) }
    ensures one_fault { S.faults source.new ≤ S.faults source.old + 1 }
{
    let mut done = 0;
    'pieces: while done < out.len() {
        match source.read(&mut out[done..]) {
            Ok(0) => return Ok(done),
            Ok(n) => done += n,
            Err(Failed) => return Err(Failed),
        }
    }
    Ok(done)
}

/// Fills `out` from the source, and says how many bytes of it: fewer than all only where the input
/// ends. The first call stands in front of the loop for further pieces, since it mostly gives all.
#[inline(always)]
pub fn fill_from<S: Source>(source: &mut S, out: &mut [u8]) -> Result<usize, Failed>
    requires { 0 < length out.old }
    ensures within { IfOk result (λ n. n ≤ length out.old) }
    ensures gave { IfOk result (λ n. Gave (S.left source.old) (S.left source.new)
        (take n out.new)) }
    ensures short { IfOk result (λ n. n < length out.old → IsEnded (S.left source.new)) }
    ensures taken { OnErr result (GaveSome (S.left source.old) (S.left source.new)) }
    ensures count { S.faults source.old ≤ S.faults source.new }
    ensures cause { OnErr result (Rose (S.faults source.old) (S.faults source.new)) }
    ensures no_fault { OnOk result (S.faults source.new ≡ S.faults source.old) }
    ensures one_fault { S.faults source.new ≤ S.faults source.old + 1 }
{
    let done = match source.read(out) {
        Ok(n) => n,
        Err(Failed) => return Err(Failed),
    };
    if done == 0 || done == out.len() {
        return Ok(done);
    }
    match fill_on(source, &mut out[done..]) {
        Ok(n) => Ok(done + n),
        Err(Failed) => Err(Failed),
    }
}

/// Takes the length of the next frame, or `None` where the input ends before it.
#[inline(always)]
fn read_length<S: Source>(source: &mut S, offset: u64) -> Result<Option<usize>, StreamRefusal>
    ensures length { IfOk result (λ came. IfSome came IsLength) }
    ensures gave { IfOk result (λ came. IfSome came
        (λ n. Gave (S.left source.old) (S.left source.new) (to_be_bytes w16 n))) }
    ensures end { result ≡ Ok None → IsEnded (S.left source.old)
        × (S.left source.new ≡ S.left source.old) }
    ensures stream { (at : ℕ) → result ≡ Err (StreamRefusal.Stream at)
        → (at ≡ offset) × IfSome (S.left source.old) IsBroken }
    ensures source_fault { result ≡ Err StreamRefusal.SourceFault
        → Rose (S.faults source.old) (S.faults source.new) }
    ensures no_fault { result ≢ Err StreamRefusal.SourceFault
        → S.faults source.new ≡ S.faults source.old }
    ensures one_fault { S.faults source.new ≤ S.faults source.old + 1 }
    ensures taken { OnErr result (GaveSome (S.left source.old) (S.left source.new)) }
    ensures count { S.faults source.old ≤ S.faults source.new }
{
    let mut prefix = [0u8; 2];
    match fill_from(source, &mut prefix) {
        Ok(0) => return Ok(None),
        Ok(1) => return Err(StreamRefusal::Stream { offset }),
        Ok(_) => {}
        Err(Failed) => return Err(StreamRefusal::SourceFault),
    }
    let [high, low] = prefix;
    let length = usize::from(high) * 256 + usize::from(low);
    if length < SHORTEST || length > MAX_FRAME {
        return Err(StreamRefusal::Stream { offset });
    }
    Ok(Some(length))
}

/// Makes `out` the next `count` bytes of the source: false where the input ends before, and then `out`
/// may hold any bytes, as after a failure.
#[inline(always)]
pub fn fill_frame<S: Source>(source: &mut S, count: usize, out: &mut Frame) -> Result<bool, Failed>
    requires some { 0 < count }
    requires room { count ≤ longest_frame }
    ensures length { result ≡ Ok true → length out.new.items ≡ count }
    ensures gave { result ≡ Ok true → Gave (S.left source.old) (S.left source.new) out.new.items }
    ensures short { result ≡ Ok false → IfSome (S.left source.old) (λ left. length left < count) }
    ensures taken { GaveSome (S.left source.old) (S.left source.new) }
    ensures count { S.faults source.old ≤ S.faults source.new }
    ensures cause { OnErr result (Rose (S.faults source.old) (S.faults source.new)) }
    ensures no_fault { OnOk result (S.faults source.new ≡ S.faults source.old) }
    ensures one_fault { S.faults source.new ≤ S.faults source.old + 1 }
{
    stretch(out, count);
    match fill_from(source, out.as_mut_slice()) {
        Ok(n) => Ok(n == count),
        Err(Failed) => Err(Failed),
    }
}

/// Makes `out` the next frame of a stream of which `offset` bytes were taken. After a refusal what
/// was taken stays taken, and `out` may hold any bytes.
#[inline(always)]
pub fn next_frame<S: Source>(
    source: &mut S,
    offset: u64,
    out: &mut Frame,
) -> Result<Next, StreamRefusal>
    ensures frame { result ≡ Ok Next.Frame → IsFrame out.new.items
        × Gave (S.left source.old) (S.left source.new) (framed out.new.items) }
    ensures end { result ≡ Ok Next.End → IsEnded (S.left source.old)
        × (S.left source.new ≡ S.left source.old) }
    ensures stream { (at : ℕ) → result ≡ Err (StreamRefusal.Stream at)
        → (at ≡ offset) × IfSome (S.left source.old) IsBroken }
    ensures source_fault { result ≡ Err StreamRefusal.SourceFault
        → Rose (S.faults source.old) (S.faults source.new) }
    ensures no_fault { result ≢ Err StreamRefusal.SourceFault
        → S.faults source.new ≡ S.faults source.old }
    ensures one_fault { S.faults source.new ≤ S.faults source.old + 1 }
    ensures taken { OnErr result (GaveSome (S.left source.old) (S.left source.new)) }
    ensures count { S.faults source.old ≤ S.faults source.new }
{
    let length = match read_length(source, offset) {
        Ok(Some(length)) => length,
        Ok(None) => return Ok(Next::End),
        Err(refusal) => return Err(refusal),
    };
    match fill_frame(source, length, out) {
        Ok(true) => Ok(Next::Frame),
        Ok(false) => Err(StreamRefusal::Stream { offset }),
        Err(Failed) => Err(StreamRefusal::SourceFault),
    }
}

/// The frame at the front of a stream, where all of its bytes are among these.
#[inline(always)]
pub fn front_frame(bytes: &[u8]) -> Option<&[u8]>
    ensures frame { IfSome result (λ frame. IsFrame frame.now) }
    ensures front { IfSome result (λ frame. framed frame.now
        ≡ take (2 + length frame.now) bytes.now) }
    ensures within { IfSome result (λ frame. 2 + length frame.now ≤ length bytes.now) }
    ensures none { IfNone result (bytes.now ≢ [] → IsBroken bytes.now) }
{
    let [high, low, rest @ ..] = bytes else {
        return None;
    };
    let length = usize::from(*high) * 256 + usize::from(*low);
    if length < SHORTEST || length > MAX_FRAME {
        return None;
    }
    rest.get(..length)
}

/// Writes all of the bytes piece by piece, where the sink didn't take them at once.
#[cold]
#[inline(never)]
fn give_on<K: Sink>(sink: &mut K, bytes: &[u8]) -> Result<(), Failed>
    ensures all { OnOk result (Took (K.held sink.old) (K.held sink.new) bytes.now) }
    ensures some { OnErr result (TookSome (K.held sink.old) (K.held sink.new) bytes.now) }
    ensures count { K.faults sink.old ≤ K.faults sink.new }
    ensures cause { OnErr result (Rose (K.faults sink.old) (K.faults sink.new)) }
    ensures no_fault { OnOk result (K.faults sink.new ≡ K.faults sink.old) }
    ensures one_fault { K.faults sink.new ≤ K.faults sink.old + 1 }
{
    let mut done = 0;
    'pieces: while done < bytes.len() {
        match sink.write(&bytes[done..]) {
            Ok(n) => done += n,
            Err(Failed) => return Err(Failed),
        }
    }
    Ok(())
}

/// Writes all of the bytes. Where the sink fails it has taken a part of them, from the front on and
/// not all, and it is asked for no more.
#[inline(always)]
pub fn give_all<K: Sink>(sink: &mut K, bytes: &[u8]) -> Result<(), Failed>
    ensures all { OnOk result (Took (K.held sink.old) (K.held sink.new) bytes.now) }
    ensures some { OnErr result (TookSome (K.held sink.old) (K.held sink.new) bytes.now) }
    ensures count { K.faults sink.old ≤ K.faults sink.new }
    ensures cause { OnErr result (Rose (K.faults sink.old) (K.faults sink.new)) }
    ensures no_fault { OnOk result (K.faults sink.new ≡ K.faults sink.old) }
    ensures one_fault { K.faults sink.new ≤ K.faults sink.old + 1 }
{
    if bytes.is_empty() {
        return Ok(());
    }
    let done = match sink.write(bytes) {
        Ok(n) => n,
        Err(Failed) => return Err(Failed),
    };
    if done == bytes.len() {
        return Ok(());
    }
    match give_on(sink, &bytes[done..]) {
        Ok(()) => Ok(()),
        Err(Failed) => Err(Failed),
    }
}

/// Writes a short frame behind its length, in one piece.
#[inline(always)]
fn give_short<K: Sink>(sink: &mut K, frame: &[u8]) -> Result<(), Failed>
    requires { length frame.now ≤ 62 }
    ensures all { OnOk result (Took (K.held sink.old) (K.held sink.new) (framed frame.now)) }
    ensures some { OnErr result (TookSome (K.held sink.old) (K.held sink.new) (framed frame.now)) }
    ensures count { K.faults sink.old ≤ K.faults sink.new }
    ensures cause { OnErr result (Rose (K.faults sink.old) (K.faults sink.new)) }
    ensures no_fault { OnOk result (K.faults sink.new ≡ K.faults sink.old) }
    ensures one_fault { K.faults sink.new ≤ K.faults sink.old + 1 }
{
    let len = frame.len();
    let mut piece = [0; FRONT];
    piece[..2].copy_from_slice(&(len as u16).to_be_bytes());
    piece[2..2 + len].copy_from_slice(frame);
    give_all(sink, &piece[..2 + len])
}

/// Writes a frame on the stream. The length of a short frame goes out together with it, and that of
/// a long one in front of it, so that no byte of it is copied.
#[inline(always)]
pub fn give_frame<K: Sink>(sink: &mut K, frame: &[u8]) -> Result<(), Failed>
    requires { length frame.now ≤ longest_frame }
    ensures all { OnOk result (Took (K.held sink.old) (K.held sink.new) (framed frame.now)) }
    ensures some { OnErr result (TookSome (K.held sink.old) (K.held sink.new) (framed frame.now)) }
    ensures count { K.faults sink.old ≤ K.faults sink.new }
    ensures cause { OnErr result (Rose (K.faults sink.old) (K.faults sink.new)) }
    ensures no_fault { OnOk result (K.faults sink.new ≡ K.faults sink.old) }
    ensures one_fault { K.faults sink.new ≤ K.faults sink.old + 1 }
{
    // Most short frames have the least length, for which the copy needs no call.
    if frame.len() == MIN_FRAME {
        return give_short(sink, frame);
    }
    if frame.len() <= FRONT - 2 {
        return give_short(sink, frame);
    }
    match give_all(sink, &(frame.len() as u16).to_be_bytes()) {
        Ok(()) => {}
        Err(Failed) => return Err(Failed),
    }
    match give_all(sink, frame) {
        Ok(()) => Ok(()),
        Err(Failed) => Err(Failed),
    }
}

/// A law: bytes that begin with a frame aren't at an end and aren't broken, so that each answer of
/// `next_frame` comes exactly where its clause holds.
pub fn frame_begins_no_broken_stream()
    ensures { (f rest : List ℕ) → IsFrame f → (framed f ++ rest ≢ [])
        × (IsBroken (framed f ++ rest) → ⊥) }
{}

/// A law: bytes are the stream of frames in one way only, since no two frames begin them.
pub fn stream_begins_with_one_frame()
    ensures { (f g rest other : List ℕ) → IsFrame f → IsFrame g
        → framed f ++ rest ≡ framed g ++ other → (f ≡ g) × (rest ≡ other) }
{}
