//! What the definition of a judged capture comes to.
ghost use Rattle.std.specs.Prelude.{◌≡◌, ◌++◌, List, []};
ghost use Rattle.aoe_lists.specs.Settings.{Settings};
ghost use Rattle.aoe_target.specs.History.{Met};
ghost use Rattle.aoe_target.specs.declared.station.Station.{Station as AnyStation};
ghost use Rattle.aoe_audit.specs.Captured.{Packet};
ghost use Rattle.aoe_audit.specs.Judged.{Explains, IsJudged, IsJudgedSoFar};

/// A law: one history at most explains a capture, since a reply tells what became of its request.
pub fn one_history_explains_a_capture()
    ensures { (station : AnyStation) (lists : Settings) (c : List Packet) (g h : List Met)
        → Explains station lists c [] g → Explains station lists c [] h → g ≡ h }
{}

/// A law: a capture that is judged is judged so far at each of its records. So where a reply leaves it
/// judged no longer, it isn't judged, whatever came behind.
pub fn a_judged_capture_is_judged_at_each_record()
    ensures { (station : AnyStation) (lists : Settings) (more c : List Packet)
        → IsJudged station lists (more ++ c) → IsJudgedSoFar station lists c }
{}
