//! The loop of `answer` and `capture`: a frame from the source, its replies to the sink.
ghost use Rattle.std.specs.Prelude.{◌≡◌, ◌≤◌, ◌++◌, [], length, Err, IfErr, IfOk, OnErr, OnOk, is_err, true};
ghost use Rattle.aoe_base.specs.Faults.{Blamed};
ghost use Rattle.aoe_base.specs.Sizes.{longest_frame};
ghost use Rattle.aoe_io.specs.Bytes.{Took, TookSome};
ghost use Rattle.aoe_pcap.specs.Capture.{head_bytes, written_head};
ghost use Rattle.aoe_serve.specs.Rounds.{Round, SinkTook};
ghost use Rattle.aoe_serve.specs.Answering.{Answered, Ends, Turned};
ghost use Rattle.aoe_serve.specs.Slots.{slots_of};
ghost use Rattle.aoe_serve.specs.Written.{noted, written};

use crate::outlet::{AsRecords, AsStream, give_record};
use crate::rounds::round;
use aoe_base::Failed;
use aoe_disk::Disk;
use aoe_frame::Frame;
use aoe_io::{Next, Sink, Source, StreamRefusal, front_frame, give_all, next_frame};
use aoe_pcap::write_head;
use aoe_shelf::Shelf;
use aoe_store::Store;

/// What a run writes of the frames that come.
#[derive(Clone, Copy, PartialEq, Eq)]
pub enum Format {
    /// The replies, as a stream.
    Replies,

    /// A capture file of each frame, and behind it of the replies to it.
    Capture,
}

/// How the frames of a run of `answer` or `capture` ended.
#[derive(Clone, Copy, PartialEq, Eq)]
pub enum AnswerEnd {
    /// The source was read to its end.
    Ended,

    /// The source failed.
    SourceFault,

    /// The sink failed.
    SinkFault,

    /// The frame at this byte offset is truncated, or its length isn't 14 to 9018.
    Stream { offset: u64 },

    /// 4,294,967,295 frames came, the most that a run answers.
    Limit,
}

/// Writes the header of a capture file.
fn give_head<K: Sink>(sink: &mut K) -> Result<(), Failed>
    ensures all { OnOk result (Took (K.held sink.old) (K.held sink.new) (head_bytes written_head)) }
    ensures some { OnErr result (TookSome (K.held sink.old) (K.held sink.new)
        (head_bytes written_head)) }
    ensures count { K.faults sink.old ≤ K.faults sink.new }
    ensures blame { Blamed (is_err result ≡ true) (K.faults sink.old) (K.faults sink.new) }
{
    let mut head = Frame::new();
    write_head(&mut head);
    give_all(sink, head.as_slice())
}

/// Writes what stands in front of all frames.
fn begin<K: Sink>(format: Format, sink: &mut K) -> Result<(), Failed>
    ensures all { OnOk result (Took (K.held sink.old) (K.held sink.new) (written format [])) }
    ensures some { OnErr result (TookSome (K.held sink.old) (K.held sink.new) (written format [])) }
    ensures count { K.faults sink.old ≤ K.faults sink.new }
    ensures blame { Blamed (is_err result ≡ true) (K.faults sink.old) (K.faults sink.new) }
{
    match format {
        Format::Replies => Ok(()),
        Format::Capture => give_head(sink),
    }
}

/// Writes what stands for a frame in front of the replies to it.
fn note<K: Sink>(format: Format, frame: &[u8], sink: &mut K) -> Result<(), Failed>
    requires { length frame.now ≤ longest_frame }
    ensures { SinkTook format result (K.held sink.old) (K.held sink.new) (K.faults sink.old) (K.faults sink.new)
        (noted format frame.now) }
{
    match format {
        Format::Replies => Ok(()),
        Format::Capture => give_record(sink, frame),
    }
}

/// Hands a frame to every slot in turn, and writes what stands for it and the replies. Where the sink
/// fails it is given no more, and the slots that are left get the frame all the same.
#[inline(always)]
fn hand<S: Store, D: Disk, K: Sink>(
    format: Format,
    shelf: &mut Shelf<S, D>,
    frame: &[u8],
    reply: &mut Frame,
    sink: &mut K,
) -> Result<(), Failed>
    requires { length frame.now ≤ longest_frame }
    ensures round { Round (λ given. SinkTook format result (K.held sink.old) (K.held sink.new) (K.faults sink.old) (K.faults sink.new)
        (noted format frame.now ++ given)) frame.now
        (slots_of S.lasts S.state D.state shelf.old.targets) (slots_of S.lasts S.state D.state shelf.new.targets) }
    ensures rest { shelf.new ≡ record shelf.old { targets = shelf.new.targets } }
{
    let noted = note(format, frame, sink);
    match format {
        Format::Replies => round::<S, D, AsStream, K>(shelf, frame, reply, sink, noted),
        Format::Capture => round::<S, D, AsRecords, K>(shelf, frame, reply, sink, noted),
    }
}

/// The turn of a frame that the source has not read ahead as a whole: its parts come together in
/// `request` first.
#[cold]
#[inline(never)]
fn gathered_turn<S: Store, D: Disk, R: Source, K: Sink>(
    format: Format,
    shelf: &mut Shelf<S, D>,
    source: &mut R,
    sink: &mut K,
    offset: u64,
    request: &mut Frame,
    reply: &mut Frame,
) -> Result<usize, AnswerEnd>
    ensures turned { IfOk result (λ taken. Turned format taken (R.left source.old) (R.left source.new) (K.held sink.old) (K.held sink.new)
        (slots_of S.lasts S.state D.state shelf.old.targets) (slots_of S.lasts S.state D.state shelf.new.targets)) }
    ensures ends { IfErr result (λ end. Ends format end offset (R.left source.old) (R.left source.new) (K.held sink.old) (K.held sink.new)
        (slots_of S.lasts S.state D.state shelf.old.targets) (slots_of S.lasts S.state D.state shelf.new.targets)) }
    ensures rest { shelf.new ≡ record shelf.old { targets = shelf.new.targets } }
    ensures source_count { R.faults source.old ≤ R.faults source.new }
    ensures sink_count { K.faults sink.old ≤ K.faults sink.new }
    ensures source_blame { Blamed (result ≡ Err AnswerEnd.SourceFault) (R.faults source.old)
        (R.faults source.new) }
    ensures sink_blame { Blamed (result ≡ Err AnswerEnd.SinkFault) (K.faults sink.old)
        (K.faults sink.new) }
{
    match next_frame(source, offset, request) {
        Ok(Next::Frame) => {}
        Ok(Next::End) => return Err(AnswerEnd::Ended),
        Err(StreamRefusal::SourceFault) => return Err(AnswerEnd::SourceFault),
        Err(StreamRefusal::Stream { offset }) => return Err(AnswerEnd::Stream { offset }),
    }
    match hand(format, shelf, request.as_slice(), reply, sink) {
        Ok(()) => Ok(2 + request.len()),
        Err(Failed) => Err(AnswerEnd::SinkFault),
    }
}

/// Takes one frame of the source, in front of which `offset` bytes stood, and writes it and the replies
/// to it. Says how many bytes it and its length have. An error is the end of the run.
///
/// A frame that the source has read ahead is answered where it lies, and not copied.
#[inline(always)]
fn turn<S: Store, D: Disk, R: Source, K: Sink>(
    format: Format,
    shelf: &mut Shelf<S, D>,
    source: &mut R,
    sink: &mut K,
    offset: u64,
    request: &mut Frame,
    reply: &mut Frame,
) -> Result<usize, AnswerEnd>
    ensures turned { IfOk result (λ taken. Turned format taken (R.left source.old) (R.left source.new) (K.held sink.old) (K.held sink.new)
        (slots_of S.lasts S.state D.state shelf.old.targets) (slots_of S.lasts S.state D.state shelf.new.targets)) }
    ensures ends { IfErr result (λ end. Ends format end offset (R.left source.old) (R.left source.new) (K.held sink.old) (K.held sink.new)
        (slots_of S.lasts S.state D.state shelf.old.targets) (slots_of S.lasts S.state D.state shelf.new.targets)) }
    ensures rest { shelf.new ≡ record shelf.old { targets = shelf.new.targets } }
    ensures source_count { R.faults source.old ≤ R.faults source.new }
    ensures sink_count { K.faults sink.old ≤ K.faults sink.new }
    ensures source_blame { Blamed (result ≡ Err AnswerEnd.SourceFault) (R.faults source.old)
        (R.faults source.new) }
    ensures sink_blame { Blamed (result ≡ Err AnswerEnd.SinkFault) (K.faults sink.old)
        (K.faults sink.new) }
{
    let Some(frame) = front_frame(source.buffer()) else {
        return gathered_turn(format, shelf, source, sink, offset, request, reply);
    };
    let taken = 2 + frame.len();
    let given = hand(format, shelf, frame, reply, sink);
    source.consume(taken);
    match given {
        Ok(()) => Ok(taken),
        Err(Failed) => Err(AnswerEnd::SinkFault),
    }
}

/// Answers the frames of the source's stream, and writes on the sink what the format says.
pub(crate) fn answer_as<S: Store, D: Disk, R: Source, K: Sink>(
    format: Format,
    shelf: &mut Shelf<S, D>,
    source: &mut R,
    sink: &mut K,
) -> AnswerEnd
    ensures run { Answered format result (R.left source.old) (R.left source.new) (K.held sink.old) (K.held sink.new)
        (slots_of S.lasts S.state D.state shelf.old.targets) (slots_of S.lasts S.state D.state shelf.new.targets) }
    ensures rest { shelf.new ≡ record shelf.old { targets = shelf.new.targets } }
    ensures source_count { R.faults source.old ≤ R.faults source.new }
    ensures sink_count { K.faults sink.old ≤ K.faults sink.new }
    ensures source_blame { Blamed (result ≡ AnswerEnd.SourceFault) (R.faults source.old)
        (R.faults source.new) }
    ensures sink_blame { Blamed (result ≡ AnswerEnd.SinkFault) (K.faults sink.old)
        (K.faults sink.new) }
{
    match begin(format, sink) {
        Ok(()) => {}
        Err(Failed) => return AnswerEnd::SinkFault,
    }
    let mut request = Frame::new();
    let mut reply = Frame::new();
    let mut offset = 0u64;
    'frames: for count in 0..u32::MAX {
        match turn(
            format,
            shelf,
            source,
            sink,
            offset,
            &mut request,
            &mut reply,
        ) {
            Ok(taken) => offset += taken as u64,
            Err(end) => return end,
        }
    }
    AnswerEnd::Limit
}

/// Answers the frames of the source's stream on the sink's, until the source ends or one of them
/// fails: each frame goes to every slot in turn. Where the sink fails, the slots behind still get the
/// frame, and no further frame is read. Takes no memory.
pub fn answer<S: Store, D: Disk, R: Source, K: Sink>(
    shelf: &mut Shelf<S, D>,
    source: &mut R,
    sink: &mut K,
) -> AnswerEnd
    ensures run { Answered Format.Replies result (R.left source.old) (R.left source.new) (K.held sink.old) (K.held sink.new)
        (slots_of S.lasts S.state D.state shelf.old.targets) (slots_of S.lasts S.state D.state shelf.new.targets) }
    ensures rest { shelf.new ≡ record shelf.old { targets = shelf.new.targets } }
    ensures source_count { R.faults source.old ≤ R.faults source.new }
    ensures sink_count { K.faults sink.old ≤ K.faults sink.new }
    ensures source_blame { Blamed (result ≡ AnswerEnd.SourceFault) (R.faults source.old)
        (R.faults source.new) }
    ensures sink_blame { Blamed (result ≡ AnswerEnd.SinkFault) (K.faults sink.old)
        (K.faults sink.new) }
{
    answer_as(Format::Replies, shelf, source, sink)
}

/// Answers the frames of the source's stream as [`answer`] does, and writes a capture file (`aoe_pcap`)
/// of the frames and the replies: its header, before the first frame is read, and then the record of
/// each frame and those of the replies to it. A frame that the sink failed to take still goes to every
/// slot. Takes no memory.
pub fn capture<S: Store, D: Disk, R: Source, K: Sink>(
    shelf: &mut Shelf<S, D>,
    source: &mut R,
    sink: &mut K,
) -> AnswerEnd
    ensures run { Answered Format.Capture result (R.left source.old) (R.left source.new) (K.held sink.old) (K.held sink.new)
        (slots_of S.lasts S.state D.state shelf.old.targets) (slots_of S.lasts S.state D.state shelf.new.targets) }
    ensures rest { shelf.new ≡ record shelf.old { targets = shelf.new.targets } }
    ensures source_count { R.faults source.old ≤ R.faults source.new }
    ensures sink_count { K.faults sink.old ≤ K.faults sink.new }
    ensures source_blame { Blamed (result ≡ AnswerEnd.SourceFault) (R.faults source.old)
        (R.faults source.new) }
    ensures sink_blame { Blamed (result ≡ AnswerEnd.SinkFault) (K.faults sink.old)
        (K.faults sink.new) }
{
    answer_as(Format::Capture, shelf, source, sink)
}
