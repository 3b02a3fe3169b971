//! The records of a file, judged one after the other.
ghost use Rattle.std.specs.Prelude.{List, ◌≡◌, ◌≢◌, ◌≤◌, [], ◌∷◌, length, Ok, Err, None, IfErr, IfOk, IfSome};
ghost use Rattle.aoe_base.specs.Faults.{Blamed};
ghost use Rattle.aoe_io.specs.Bytes.{IsEnded};
ghost use Rattle.aoe_audit.specs.Auditing.{HasHeard};
ghost use Rattle.aoe_lists.specs.Settings.{Settings};
ghost use Rattle.aoe_pcap.specs.Capture.{Packet, frame_of, kind, longest_captured};
ghost use Rattle.aoe_pcap_audit.specs.Records.{IsWithin, captured_bytes, captured_of, heard, is_end, is_whole, most_captured};
ghost use Rattle.aoe_pcap_audit.specs.Ends.{EndsAt, IsBehind, IsLeftBy, Judges, Passes, RecordCame, StopsOn, refused, unread};

use crate::stop::{AuditStop, Summary};
use aoe_audit::{Audit, AuditRefusal};
use aoe_frame::Frame;
use aoe_io::Source;
use aoe_pcap::{Head, PcapRefusal, Record, next_record, read_head};

/// The most records of a file.
const MAX_RECORDS: u32 = 200_000;

/// The most bytes that the records of a file have together.
const MAX_CAPTURED: u32 = 536_870_912;

/// Why the audit of a file ends that isn't read on.
fn unread(refusal: PcapRefusal) -> AuditStop
    ensures { result ≡ unread refusal }
{
    match refusal {
        PcapRefusal::SourceFault => AuditStop::SourceFault,
        PcapRefusal::BadHeader => AuditStop::BadHeader,
        PcapRefusal::BadRecord { number } => AuditStop::BadRecord { number },
    }
}

/// Why the audit of a file ends whose records were refused.
fn refused(refusal: AuditRefusal) -> AuditStop
    ensures { result ≡ refused refusal }
{
    match refusal {
        AuditRefusal::NoMemory => AuditStop::NoMemory,
        AuditRefusal::Finding { number, kind } => AuditStop::Finding { number, kind },
    }
}

/// Whether all of a record's frame was captured.
fn is_whole(came: Record) -> bool
    ensures { result ≡ is_whole came }
{
    match came {
        Record::Whole => true,
        Record::Short | Record::Long { .. } | Record::End => false,
    }
}

/// Whether the file ends in place of a record.
fn is_end(came: Record) -> bool
    ensures { result ≡ is_end came }
{
    match came {
        Record::End => true,
        Record::Whole | Record::Short | Record::Long { .. } => false,
    }
}

/// How many bytes of a record were captured, which has this frame.
fn captured_of(came: Record, frame: &Frame) -> u32
    ensures { result ≡ captured_of came frame.now.items }
{
    match came {
        Record::Long { captured } => captured,
        Record::Whole | Record::Short | Record::End => frame.len() as u32,
    }
}

/// Judges a record: how many bytes were captured by then, where as many were before it.
fn judge_record(
    audit: &mut Audit,
    number: u32,
    came: Record,
    frame: &Frame,
    captured: u32,
) -> Result<u32, AuditStop>
    requires few { captured ≤ most_captured }
    requires fits { captured_of came frame.now.items ≤ longest_captured }
    ensures few { IfOk result (λ total. total ≤ most_captured) }
    ensures station { audit.new.station ≡ audit.old.station }
    ensures judged { (lists : Settings) (ps : List Packet) (p : Packet)
        → IsBehind lists audit.old number captured ps → came ≡ kind (length p.captured) p.original
        → frame.now.items ≡ frame_of p.captured → IfOk result (λ total. IsWithin (p ∷ ps)
        × HasHeard lists audit.new (heard (p ∷ ps)) × (total ≡ captured_bytes (p ∷ ps))) }
    ensures stops { (lists : Settings) (ps : List Packet) (p : Packet)
        → IsBehind lists audit.old number captured ps → came ≡ kind (length p.captured) p.original
        → frame.now.items ≡ frame_of p.captured
        → IfErr result (λ stop. StopsOn stop audit.old.station lists ps p) }
    ensures no_fault { result ≢ Err AuditStop.SourceFault }
    ensures unwritten { result ≢ Err AuditStop.SinkFault }
{
    let captured = captured + captured_of(came, frame);
    if number > MAX_RECORDS {
        return Err(AuditStop::Records);
    }
    if captured > MAX_CAPTURED {
        return Err(AuditStop::CaptureBytes);
    }
    match audit.feed(number, frame.as_slice(), is_whole(came)) {
        Ok(()) => Ok(captured),
        Err(refusal) => Err(refused(refusal)),
    }
}

/// Reads the record of this number and judges it: how many bytes were captured by then, where as many
/// were before it, or `None` at the end of the file.
fn turn<S: Source>(
    audit: &mut Audit,
    source: &mut S,
    head: &Head,
    number: u32,
    captured: u32,
    frame: &mut Frame,
) -> Result<Option<u32>, AuditStop>
    requires { captured ≤ most_captured }
    ensures few { IfOk result (λ came. IfSome came (λ total. total ≤ most_captured)) }
    ensures station { audit.new.station ≡ audit.old.station }
    ensures came { (lists : Settings) (ps : List Packet)
        → IsBehind lists audit.old number captured ps → IfOk result (λ came. IfSome came
        (RecordCame lists audit.new head.now.big ps (S.left source.old) (S.left source.new))) }
    ensures end { result ≡ Ok None → IsEnded (S.left source.old)
        × (S.left source.new ≡ S.left source.old) × (audit.new ≡ audit.old) }
    ensures stops { (lists : Settings) (ps : List Packet)
        → IsBehind lists audit.old number captured ps
        → IfErr result (λ stop. EndsAt stop audit.old.station lists head.now.big ps
        (S.left source.old) (S.left source.new)) }
    ensures unwritten { result ≢ Err AuditStop.SinkFault }
    ensures source_count { S.faults source.old ≤ S.faults source.new }
    ensures source_blame { Blamed (result ≡ Err AuditStop.SourceFault) (S.faults source.old)
        (S.faults source.new) }
{
    let came = match next_record(source, head, number, frame) {
        Ok(came) => came,
        Err(refusal) => return Err(unread(refusal)),
    };
    if is_end(came) {
        return Ok(None);
    }
    match judge_record(audit, number, came, frame, captured) {
        Ok(total) => Ok(Some(total)),
        Err(stop) => Err(stop),
    }
}

/// Ends the audit of a file that has so many records.
fn conclude(audit: Audit, records: u32) -> Result<Summary, AuditStop>
    ensures passes { (lists : Settings) (ps : List Packet) → HasHeard lists audit (heard ps)
        → IsWithin ps → records ≡ length ps
        → IfOk result (Passes audit.station lists (heard ps)) }
    ensures left { (lists : Settings) (ps : List Packet) → HasHeard lists audit (heard ps)
        → IfErr result (λ stop. IsLeftBy stop audit.station lists (heard ps)) }
    ensures no_fault { result ≢ Err AuditStop.SourceFault }
    ensures unwritten { result ≢ Err AuditStop.SinkFault }
{
    match audit.finish() {
        Ok(verdict) => Ok(Summary {
            records,
            requests: verdict.requests,
            replies: verdict.replies,
            faults: verdict.faults,
        }),
        Err(refusal) => Err(refused(refusal)),
    }
}

/// Audits a capture file, from its header on: reads the source to its end and hands each record to the
/// audit, which was fed with none. Nothing is said of what the file has behind the record at which it
/// stops. Time is linear in the file's length.
pub fn judge_capture<S: Source>(mut audit: Audit, source: &mut S) -> Result<Summary, AuditStop>
    ensures run { (lists : Settings) → HasHeard lists audit [] → Judges result audit.station lists
        (S.left source.old) (S.left source.new) }
    ensures unwritten { result ≢ Err AuditStop.SinkFault }
    ensures source_count { S.faults source.old ≤ S.faults source.new }
    ensures source_blame { Blamed (result ≡ Err AuditStop.SourceFault) (S.faults source.old)
        (S.faults source.new) }
{
    let head = match read_head(source) {
        Ok(head) => head,
        Err(refusal) => return Err(unread(refusal)),
    };
    let mut frame = Frame::new();
    let mut captured = 0;
    'records: for count in 0..=MAX_RECORDS {
        match turn(&mut audit, source, &head, count + 1, captured, &mut frame) {
            Ok(Some(total)) => captured = total,
            Ok(None) => return conclude(audit, count),
            Err(stop) => return Err(stop),
        }
    }
    Err(AuditStop::Records)
}
