//! The audit of a capture file: whether what a device replied on its wire is what the shelf law allows.
//!
//! [`audit_capture`] takes an [`Audit`](aoe_audit::Audit), which knows the device, and a source with a
//! capture file (`aoe_pcap`). It hands each record to the audit, and writes a line with its counts where
//! each reply is a written answer and none is missing; else an [`AuditStop`] says why not.
//! [`judge_capture`] is the same without the line.
//!
//! What `aoe_serve`'s `capture` writes of a shelf's wire passes: [`captures_pass`].
//!
//! Records are read one after the other, and no length that a file claims takes memory: it is taken for
//! the requests that wait and for the sectors that became known, as in `aoe_audit`.
//!
//! Promised: Ok says that the source was read to its end, that its bytes are a capture file within
//! the limits, and that one history explains it, with these counts (`FilePasses`). Any other end is
//! one that `Judges` has; want of memory hides no finding. `audit_capture` writes `line` where a file passes, a front of it where
//! the sink fails, and else nothing (`Audits`). A fault of source or sink is told only if its count
//! rose. What `capture` wrote over one slot passes, if its run ended well, no frame came from a
//! port of the shelf, the file is within the limits, and neither memory, source nor sink fails: law
//! `captures_pass`.
//!
//! Only tested: files with bytes changed or cut off (`serve` of aoe_shelf_tests), captures of
//! tcpdump, tshark and QEMU, the limits, and a file that comes slowly (`tests/audit`). No clause says
//! how much memory is taken.
#![tactic(auto)]

mod judging;
mod laws;
mod line;
mod stop;

pub use judging::judge_capture;
pub use laws::captures_pass;
pub use line::audit_capture;
pub use stop::{AuditStop, Summary};
