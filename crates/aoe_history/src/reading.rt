//! What hosts read, in every lawful history.
ghost use Rattle.std.specs.Prelude.{List};
ghost use Rattle.aoe_history.specs.declared.entry.Entry.{Entry};
ghost use Rattle.aoe_history.specs.Lawful.{IsLawful};
ghost use Rattle.aoe_history.specs.Reading.{HasReadLaw};
ghost use Rattle.aoe_history.specs.Setup.{IsSetup, Setup};

/// A law: every lawful history keeps the read law. Whatever is lost, repeated, delayed or crashes, a
/// host that alone wrote to a sector reads from it the value of its last acknowledged write, or of a
/// later one, unless a fault, or a crash without a flush, left the sector in doubt.
pub fn read_law()
    ensures { (s : Setup) (h : List Entry) → IsSetup s → IsLawful s h → HasReadLaw s h }
{}
