//! A run of a switch over a stream: each frame stands behind one byte with the number of its port
//! and two bytes, big-endian, with its length.
ghost use Rattle.std.specs.Prelude.{◌≡◌, ◌<◌, ◌≤◌, ◌+◌, List, ◌∷◌, All, Err, IfErr, IfOk, IfSome, Ok, OnErr, OnOk, false, length, map, slice_get, take, true};
ghost use Rattle.std.specs.Int.{w16, to_be_bytes};
ghost use Rattle.aoe_base.specs.Faults.{Blamed, Rose};
ghost use Rattle.aoe_io.specs.Bytes.{Gave, GaveSome, Took, TookSome};
ghost use Rattle.aoe_vlan.specs.Tag.{is_frame};
ghost use Rattle.aoe_vlan.specs.Switched.{Passing, carries_at, formed_at, passing};
ghost use Rattle.aoe_vlan.specs.Tables.{HasLearnt};
ghost use Rattle.aoe_vlan.specs.Running.{Ends, IsPiece, Ran, StopsAt, Turned, given_bytes, piece, pieces};

use crate::switch::Switch;
use crate::tag::{MAX_TAGGED, MIN_BARE};
use aoe_base::Failed;
use aoe_io::{Sink, Source, fill_from, give_all};
use arrayvec::ArrayVec;

/// How a run of a switch ended.
#[derive(Clone, Copy, PartialEq, Eq)]
pub enum SwitchEnd {
    /// The source was read to its end.
    Ended,

    /// The source failed.
    SourceFault,

    /// The sink failed.
    SinkFault,

    /// The frame whose port stands at this byte offset is truncated, its port isn't there, or its
    /// length isn't 14 to 9022.
    Stream { offset: u64 },

    /// 4,294,967,295 frames came, the most of a run.
    Limit,
}

/// How many bytes stand in front of a frame.
const FRONT_LEN: usize = 3;

/// A frame and what stands in front of it.
pub(crate) type Piece = ArrayVec<u8, 9025>;

/// What stands in front of a frame.
#[derive(Clone, Copy)]
struct Front {
    port: u8,
    length: usize,
}

/// Takes the port and the length of the next frame.
fn read_front<S: Source>(source: &mut S, ports: usize, offset: u64) -> Result<Front, SwitchEnd>
    ensures port { IfOk result (λ front. front.port < ports) }
    ensures long { IfOk result (λ front. 14 ≤ front.length) }
    ensures short { IfOk result (λ front. front.length ≤ 9022) }
    ensures gave { IfOk result (λ front. Gave (S.left source.old) (S.left source.new)
        (front.port ∷ to_be_bytes w16 front.length)) }
    ensures stops { IfErr result
        (λ end. StopsAt end ports offset (S.left source.old) (S.left source.new)) }
    ensures source_fault { result ≡ Err SwitchEnd.SourceFault
        → Rose (S.faults source.old) (S.faults source.new) }
    ensures no_fault { (result ≡ Err SwitchEnd.SourceFault → ⊥)
        → S.faults source.new ≡ S.faults source.old }
    ensures one_fault { S.faults source.new ≤ S.faults source.old + 1 }
    ensures count { S.faults source.old ≤ S.faults source.new }
{
    let mut bytes = [0; FRONT_LEN];
    match fill_from(source, &mut bytes) {
        Ok(0) => return Err(SwitchEnd::Ended),
        Ok(count) if count < FRONT_LEN => return Err(SwitchEnd::Stream { offset }),
        Ok(_) => {}
        Err(Failed) => return Err(SwitchEnd::SourceFault),
    }
    let [port, high, low] = bytes;
    let length = usize::from(high) * 256 + usize::from(low);
    if usize::from(port) >= ports || length < MIN_BARE || length > MAX_TAGGED {
        return Err(SwitchEnd::Stream { offset });
    }
    Ok(Front { port, length })
}

/// Fills the front of the buffer with the next `count` bytes of the source: false where the input
/// ends before.
fn fill_buffer<S: Source>(source: &mut S, count: usize, buffer: &mut [u8]) -> Result<bool, Failed>
    requires some { 0 < count }
    requires room { count ≤ length buffer.old }
    ensures gave { result ≡ Ok true
        → Gave (S.left source.old) (S.left source.new) (take count buffer.new) }
    ensures short { result ≡ Ok false → IfSome (S.left source.old) (λ left. length left < count) }
    ensures taken { GaveSome (S.left source.old) (S.left source.new) }
    ensures count { S.faults source.old ≤ S.faults source.new }
    ensures cause { OnErr result (Rose (S.faults source.old) (S.faults source.new)) }
    ensures no_fault { OnOk result (S.faults source.new ≡ S.faults source.old) }
    ensures one_fault { S.faults source.new ≤ S.faults source.old + 1 }
{
    match fill_from(source, &mut buffer[..count]) {
        Ok(n) => Ok(n == count),
        Err(Failed) => Err(Failed),
    }
}

/// Fills the front of the buffer with the next frame, and says at which port it came in and how many
/// bytes it has.
fn read_piece<S: Source>(
    source: &mut S,
    ports: usize,
    offset: u64,
    buffer: &mut [u8],
) -> Result<Front, SwitchEnd>
    requires { length buffer.old ≡ 9022 }
    ensures piece { IfOk result
        (λ front. IsPiece ports (passing front.port (take front.length buffer.new))) }
    ensures gave { IfOk result (λ front. Gave (S.left source.old) (S.left source.new)
        (piece (passing front.port (take front.length buffer.new)))) }
    ensures within { IfOk result (λ front. front.length ≤ 9022) }
    ensures stops { IfErr result
        (λ end. StopsAt end ports offset (S.left source.old) (S.left source.new)) }
    ensures source_fault { result ≡ Err SwitchEnd.SourceFault
        → Rose (S.faults source.old) (S.faults source.new) }
    ensures no_fault { (result ≡ Err SwitchEnd.SourceFault → ⊥)
        → S.faults source.new ≡ S.faults source.old }
    ensures one_fault { S.faults source.new ≤ S.faults source.old + 1 }
    ensures count { S.faults source.old ≤ S.faults source.new }
{
    let front = match read_front(source, ports, offset) {
        Ok(front) => front,
        Err(end) => return Err(end),
    };
    match fill_buffer(source, front.length, buffer) {
        Ok(true) => Ok(front),
        Ok(false) => Err(SwitchEnd::Stream { offset }),
        Err(Failed) => Err(SwitchEnd::SourceFault),
    }
}

/// Writes a frame of the VLAN as each of these ports gives it.
fn give_each<K: Sink>(
    switch: &Switch,
    vid: u16,
    ports: &[u8],
    frame: &[u8],
    out: &mut Piece,
    sink: &mut K,
) -> Result<(), Failed>
    requires ports { All (λ q. carries_at vid (slice_get switch.now.ports q) ≡ true) ports.now }
    requires frame { is_frame frame.now ≡ true }
    ensures all { OnOk result (Took (K.held sink.old) (K.held sink.new) (pieces (map
        (λ q. passing q (formed_at (slice_get switch.now.ports q) vid frame.now)) ports.now))) }
    ensures some { OnErr result (TookSome (K.held sink.old) (K.held sink.new) (pieces (map
        (λ q. passing q (formed_at (slice_get switch.now.ports q) vid frame.now)) ports.now))) }
    ensures count { K.faults sink.old ≤ K.faults sink.new }
    ensures cause { OnErr result (Rose (K.faults sink.old) (K.faults sink.new)) }
    ensures no_fault { OnOk result (K.faults sink.new ≡ K.faults sink.old) }
    ensures one_fault { K.faults sink.new ≤ K.faults sink.old + 1 }
{
    'ports: for q in ports {
        switch.put_piece(*q, vid, frame, out);
        match give_all(sink, out.as_slice()) {
            Ok(()) => {}
            Err(Failed) => return Err(Failed),
        }
    }
    Ok(())
}

/// Takes a frame that came in at a port, and writes it as each port gives it to which it goes.
fn give<K: Sink>(
    switch: &mut Switch,
    port: u8,
    frame: &[u8],
    out: &mut Piece,
    sink: &mut K,
) -> Result<(), Failed>
    requires { port < length switch.old.ports }
    ensures learnt { (before : List Passing) → HasLearnt switch.old before
        → HasLearnt switch.new (passing port frame.now ∷ before) }
    ensures same_ports { switch.new.ports ≡ switch.old.ports }
    ensures all { (before : List Passing) → HasLearnt switch.old before
        → OnOk result (Took (K.held sink.old) (K.held sink.new)
        (given_bytes switch.old.ports before (passing port frame.now))) }
    ensures some { (before : List Passing) → HasLearnt switch.old before
        → OnErr result (TookSome (K.held sink.old) (K.held sink.new)
        (given_bytes switch.old.ports before (passing port frame.now))) }
    ensures count { K.faults sink.old ≤ K.faults sink.new }
    ensures cause { OnErr result (Rose (K.faults sink.old) (K.faults sink.new)) }
    ensures no_fault { OnOk result (K.faults sink.new ≡ K.faults sink.old) }
    ensures one_fault { K.faults sink.new ≤ K.faults sink.old + 1 }
{
    let going = switch.take(usize::from(port), frame);
    let Some(vid) = going.vid else {
        return Ok(());
    };
    give_each(switch, vid, going.ports.as_slice(), frame, out, sink)
}

/// Takes one frame of the source, in front of which `offset` bytes stood, writes what it gives, and
/// says how many bytes the frame has. An error is the end of the run.
fn turn<S: Source, K: Sink>(
    switch: &mut Switch,
    source: &mut S,
    sink: &mut K,
    offset: u64,
    buffer: &mut [u8],
    out: &mut Piece,
) -> Result<usize, SwitchEnd>
    requires { length buffer.old ≡ 9022 }
    ensures within { IfOk result (λ length. length ≤ 9022) }
    ensures turned { (before : List Passing) → HasLearnt switch.old before
        → IfOk result (λ length. Turned length switch.old switch.new before
        (S.left source.old) (S.left source.new) (K.held sink.old) (K.held sink.new)) }
    ensures ends { (before : List Passing) → HasLearnt switch.old before
        → IfErr result (λ end. Ends end offset switch.old switch.new before
        (S.left source.old) (S.left source.new) (K.held sink.old) (K.held sink.new)) }
    ensures same_ports { switch.new.ports ≡ switch.old.ports }
    ensures source_count { S.faults source.old ≤ S.faults source.new }
    ensures sink_count { K.faults sink.old ≤ K.faults sink.new }
    ensures source_blame { Blamed (result ≡ Err SwitchEnd.SourceFault) (S.faults source.old)
        (S.faults source.new) }
    ensures sink_blame { Blamed (result ≡ Err SwitchEnd.SinkFault) (K.faults sink.old)
        (K.faults sink.new) }
{
    let front = match read_piece(source, switch.count(), offset, buffer) {
        Ok(front) => front,
        Err(end) => return Err(end),
    };
    match give(switch, front.port, &buffer[..front.length], out, sink) {
        Ok(()) => Ok(front.length),
        Err(Failed) => Err(SwitchEnd::SinkFault),
    }
}

/// Runs the switch over the frames of the source's stream, and writes what each gives on the sink's
/// before the next is read, until the source ends or one of them fails. Takes no memory.
pub fn run<S: Source, K: Sink>(switch: &mut Switch, source: &mut S, sink: &mut K) -> SwitchEnd
    ensures run { (before : List Passing) → HasLearnt switch.old before
        → Ran result switch.old switch.new before
        (S.left source.old) (S.left source.new) (K.held sink.old) (K.held sink.new) }
    ensures same_ports { switch.new.ports ≡ switch.old.ports }
    ensures source_count { S.faults source.old ≤ S.faults source.new }
    ensures sink_count { K.faults sink.old ≤ K.faults sink.new }
    ensures source_blame { Blamed (result ≡ SwitchEnd.SourceFault) (S.faults source.old)
        (S.faults source.new) }
    ensures sink_blame { Blamed (result ≡ SwitchEnd.SinkFault) (K.faults sink.old)
        (K.faults sink.new) }
{
    let mut buffer = [0; MAX_TAGGED];
    let mut out = Piece::new();
    let mut offset = 0u64;
    'frames: for count in 0..u32::MAX {
        match turn(switch, source, sink, offset, &mut buffer, &mut out) {
            Ok(length) => offset += (FRONT_LEN + length) as u64,
            Err(end) => return end,
        }
    }
    SwitchEnd::Limit
}
