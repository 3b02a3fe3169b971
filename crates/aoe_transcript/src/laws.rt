//! Laws of the definitions.
ghost use Rattle.std.specs.Prelude.{◌≡◌, ℕ, All, List, Some};
ghost use Rattle.arrayvec.specs.ArrayVec.{ArrayVec};
ghost use Rattle.aoe_base.specs.declared.address.TargetId.{TargetId};
ghost use Rattle.aoe_history.specs.Asks.{op_of};
ghost use Rattle.aoe_history.specs.Lawful.{IsLawful};
ghost use Rattle.aoe_history.specs.Setup.{Setup};
ghost use Rattle.aoe_history.specs.declared.entry.Entry.{Entry};
ghost use Rattle.aoe_initiator.specs.declared.op.Op.{Op};
ghost use Rattle.aoe_transcript.specs.Print.{asking, CanPrint, IsAsked, IsFromLine};
ghost use Rattle.aoe_transcript.specs.Runs.{longest_runs, AreRunsOf};

/// The runs of bytes are these bytes again, and none could be longer.
pub fn runs_are_longest()
    ensures { (bytes : List ℕ) → AreRunsOf bytes (longest_runs bytes) }
{}

/// The event line that stands in the line of a submission asks for what was submitted.
pub fn submitted_lines_ask()
    ensures { (host : ArrayVec ℕ) (dev : TargetId) (op : Op) → IsAsked op
        → op_of (asking host dev op) ≡ Some op }
{}

/// A lawful history can be printed if all that was submitted is what event lines ask for. The host
/// law alone doesn't say so: it takes a write whose bytes differ, a read of a list or of the config
/// string beside which one is given, and an edit without directives.
pub fn lawful_histories_print()
    ensures { (s : Setup) (h : List Entry) → IsLawful s h → All IsFromLine h → All CanPrint h }
{}
