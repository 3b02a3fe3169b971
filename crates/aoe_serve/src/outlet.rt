//! What takes the replies of a shelf.
ghost use Rattle.std.specs.Prelude.{◌≡◌, ◌≤◌, ◌∷◌, ◌++◌, ℕ, List, [], length, Ok, Err};
ghost use Rattle.aoe_base.specs.Sizes.{longest_frame};
ghost use Rattle.aoe_base.specs.declared.failure.Failed.{Failed};
ghost use Rattle.aoe_serve.specs.Rounds.{LinkTook, Outcome, SinkTook};
ghost use Rattle.aoe_serve.specs.declared.over_stream.Format.TheVariants.{Capture, Replies};
ghost use Rattle.aoe_serve.specs.OutletLaws.{link_more, link_none, link_over, sink_more, sink_none, sink_over};

use aoe_base::Failed;
use aoe_frame::Frame;
use aoe_io::{Link, Sink, give_all, give_frame};
use aoe_pcap::{RecordBytes, write_record};

/// What takes replies, as `By` says: a sink their stream or their records in a capture file, a link the
/// frames, a queue as many as it has room for.
pub(crate) trait Outlet<By> {
    // How these replies were taken, in this order: all of them, or where it failed a part.
    ghost took: { Outcome → Self → Self → List (List ℕ) → Type 0 };

    /// Takes a reply.
    fn give(&mut self, reply: &Frame) -> Result<(), Failed>
        ensures { took result self.old self.new (reply.now.items ∷ []) };

    // Where there is no reply all are taken.
    ghost none: { (a : Self) → took (Ok tt) a a [] };

    // Further replies come behind those that were taken.
    ghost more: { (result : Outcome) (a b c : Self) (xs ys : List (List ℕ)) → took (Ok tt) a b xs → took result b c ys → took result a c (xs ++ ys) };

    // Where it failed, a part of further replies is none of them.
    ghost over: { (failed : Failed) (a b : Self) (xs ys : List (List ℕ)) → took (Err failed) a b xs → took (Err failed) a b (xs ++ ys) };
}

/// The replies go out as a stream.
pub(crate) struct AsStream;

impl<K: Sink> Outlet<AsStream> for K {
    ghost took = { λ result a b replies. SinkTook Replies result (K.held a) (K.held b) (K.faults a) (K.faults b) replies };

    #[inline(always)]
    fn give(&mut self, reply: &Frame) -> Result<(), Failed> {
        give_frame(self, reply.as_slice())
    }

    ghost none = { λ a. sink_none Replies (K.held a) (K.faults a) };

    ghost more = { λ result a b c xs ys one two. sink_more Replies result _ _ _ _ _ _ xs ys one two };

    ghost over = { λ failed a b xs ys one. sink_over Replies failed _ _ _ _ xs ys one };
}

/// Writes the record of a frame in a capture file.
pub(crate) fn give_record<K: Sink>(sink: &mut K, frame: &[u8]) -> Result<(), Failed>
    requires { length frame.now ≤ longest_frame }
    ensures { SinkTook Capture result (K.held sink.old) (K.held sink.new) (K.faults sink.old) (K.faults sink.new)
        (frame.now ∷ []) }
{
    let mut record = RecordBytes::new();
    write_record(frame, &mut record);
    give_all(sink, record.as_slice())
}

/// The replies go out as the records of a capture file.
pub(crate) struct AsRecords;

impl<K: Sink> Outlet<AsRecords> for K {
    ghost took = { λ result a b replies. SinkTook Capture result (K.held a) (K.held b) (K.faults a) (K.faults b) replies };

    fn give(&mut self, reply: &Frame) -> Result<(), Failed> {
        give_record(self, reply.as_slice())
    }

    ghost none = { λ a. sink_none Capture (K.held a) (K.faults a) };

    ghost more = { λ result a b c xs ys one two. sink_more Capture result _ _ _ _ _ _ xs ys one two };

    ghost over = { λ failed a b xs ys one. sink_over Capture failed _ _ _ _ xs ys one };
}

/// The replies go out frame by frame.
pub(crate) struct AsFrames;

impl<L: Link> Outlet<AsFrames> for L {
    ghost took = { λ result a b replies.
        LinkTook result (L.taken a) (L.taken b) (L.given a) (L.given b) (L.turns a) (L.turns b) (L.faults a) (L.faults b) replies };

    fn give(&mut self, reply: &Frame) -> Result<(), Failed> {
        self.send(reply.as_slice())
    }

    ghost none = { λ a. link_none (L.taken a) (L.given a) (L.turns a) (L.faults a) };

    ghost more = { λ result a b c xs ys one two. link_more result _ _ _ _ _ _ _ _ _ _ _ _ xs ys one two };

    ghost over = { λ failed a b xs ys one. link_over failed _ _ _ _ _ _ _ _ xs ys one };
}
