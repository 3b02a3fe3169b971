//! What the audit of a shelf's capture comes to.
ghost use Rattle.std.specs.Prelude.{List, ℕ, ◌≡◌, ◌≢◌, ◌⊎◌, [], ◌∷◌, Err, Ok, Option, Result, Some};
ghost use Rattle.aoe_pcap_audit.specs.Capturing.{AreFew, AreOthers, IsOnWire, IsTold};
ghost use Rattle.aoe_pcap_audit.specs.Ends.{Audits};
ghost use Rattle.aoe_pcap_audit.specs.declared.stop.AuditStop.{AuditStop as AnyStop};
ghost use Rattle.aoe_serve.specs.Answering.{Answered};
ghost use Rattle.aoe_serve.specs.Arrivals.{frames};
ghost use Rattle.aoe_serve.specs.Slots.{Slot};
ghost use Rattle.aoe_serve.specs.Written.{exchanges};

use crate::stop::AuditStop;
use aoe_audit::a_judged_capture_is_judged_at_each_record;
use aoe_serve::{AnswerEnd, Format};

/// A law: what a run of `capture` wrote over one slot passes, where that run ended well, no frame that it
/// read came from a port of the shelf, and the file isn't longer than may be audited. The audit is of
/// the slot's device, with the lists that its keep had when the run began, and neither its source nor
/// its sink fails.
pub fn captures_pass()
    ensures { (slot : Slot) (after : List Slot) (left left' : Option (List ℕ)) (bytes : List ℕ)
        (run : Answered Format.Capture AnswerEnd.Ended left left' (Some []) (Some bytes) (slot ∷ []) after)
        → IsOnWire slot.station → IsTold slot → AreOthers slot.station (frames run.arrivals)
        → AreFew (exchanges run.arrivals) → (result : Result (Unit {0}) AnyStop)
        (rest held held' : Option (List ℕ))
        → Audits result slot.station slot.device.lists (Some bytes) rest held held'
        → result ≢ Err AuditStop.SourceFault → result ≢ Err AuditStop.SinkFault
        → (result ≡ Ok tt) ⊎ (result ≡ Err AuditStop.NoMemory) }
{
    a_judged_capture_is_judged_at_each_record();
}
