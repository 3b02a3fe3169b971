//! What follows from the steps of a copy.
ghost use Rattle.std.specs.Prelude.{◌≡◌, ◌+◌, ◌≤◌, ◌++◌, Bool, List, map};
ghost use Rattle.aoe_block.specs.Answered.{as_asked, IsStart};
ghost use Rattle.aoe_block.specs.Steps.{asked, log_of, new_start, open_of, AreSteps, GoesOn, Patience, Start};
ghost use Rattle.aoe_initiator.specs.Host.{Host};
ghost use Rattle.aoe_initiator.specs.HostLog.{commands};
ghost use Rattle.aoe_copy.specs.declared.plan.Plan.{Plan};
ghost use Rattle.aoe_copy.specs.declared.putting.Stage.{Stage};
ghost use Rattle.aoe_copy.specs.Law.{reads, IsFront};
ghost use Rattle.aoe_copy.specs.PutLaw.{writes, AreParts, IsWritten};
ghost use Rattle.aoe_copy.specs.PutSteps.{pieces, stage_of, PutLaw, PutStep};
ghost use Rattle.aoe_copy.specs.Steps.{given, ReadLaw, ReadStep};
ghost use Rattle.aoe_copy.specs.Window.{most_open};

/// A law: however a copy ends, the commands that it submitted are reads of the sectors one after
/// the other, each with the next ticket, of which no more than a window weren't given to the sink yet;
/// and what the sink took is the bytes of the responses to the first of them, in their order.
pub fn copied_law()
    ensures asked { (b : Start) (p : Plan) (w : Patience) (steps : List ReadStep)
        → AreSteps (ReadLaw b p) b w steps
        → map as_asked (commands (log_of b steps)) ≡ map as_asked (commands b.log) ++ reads b p (asked steps) }
    ensures window { (b : Start) (p : Plan) (w : Patience) (steps : List ReadStep)
        → AreSteps (ReadLaw b p) b w steps → asked steps ≤ given steps + most_open }
    ensures front { (b : Start) → IsStart b → (p : Plan) (w : Patience) (steps : List ReadStep)
        → AreSteps (ReadLaw b p) b w steps → IsFront b p steps }
{}

/// A law: however a copy into a device ends, the commands that it submitted are writes of the parts of
/// what was read, one after the other, each with the next ticket, and perhaps a flush after them; each
/// part but the last has as many sectors as a command may have, and no more than a window of commands
/// are under way. Where the flush was submitted, no command was refused or given up, and none is under
/// way, each write was acknowledged before the flush was submitted, and the flush then, each by a
/// response to the command with its ticket.
pub fn put_law()
    ensures asked { (b : Start) (p : Plan) (flush : Bool) (w : Patience) (steps : List PutStep)
        → AreSteps (PutLaw b p flush) b w steps
        → map as_asked (commands (log_of b steps)) ≡ map as_asked (commands b.log) ++ writes b p steps }
    ensures parts { (b : Start) (p : Plan) (flush : Bool) (w : Patience) (steps : List PutStep)
        → AreSteps (PutLaw b p flush) b w steps → AreParts p (pieces steps) }
    ensures window { (base : Host) (p : Plan) (flush : Bool) (w : Patience) (steps : List PutStep)
        → AreSteps (PutLaw (new_start base) p flush) (new_start base) w steps
        → open_of (new_start base) steps ≤ most_open }
    ensures written { (base : Host) (p : Plan) (flush : Bool) (w : Patience) (steps : List PutStep)
        → AreSteps (PutLaw (new_start base) p flush) (new_start base) w steps
        → GoesOn steps → stage_of steps ≡ Stage.Flushing → open_of (new_start base) steps ≡ 0
        → IsWritten (new_start base) steps }
{}
