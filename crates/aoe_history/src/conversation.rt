//! What a request asks of the target that hears it, and what its response tells of what the target
//! did.
ghost use Rattle.std.specs.Prelude.{ℕ, ◌≡◌, ◌%◌, ◌^◌, ◌<◌, ◌==◌, true, List, length, drop, Some};
ghost use Rattle.aoe_base.specs.declared.address.Mac.{Mac};
ghost use Rattle.aoe_base.specs.declared.address.TargetId.{TargetId};
ghost use Rattle.aoe_ata.specs.declared.decision.AtaDecision.{AtaDecision};
ghost use Rattle.aoe_ata.specs.Decision.{written};
ghost use Rattle.aoe_frame.specs.Header.{fields, Fits};
ghost use Rattle.aoe_initiator.specs.declared.op.FlushCommand.{FlushCommand};
ghost use Rattle.aoe_initiator.specs.declared.op.Op.{Op};
ghost use Rattle.aoe_initiator.specs.declared.op.Op.TheVariants.{Write};
ghost use Rattle.aoe_initiator.specs.declared.response.Answer.{Answer};
ghost use Rattle.aoe_initiator.specs.Op.{command_of, span_of};
ghost use Rattle.aoe_initiator.specs.Request.{request, request_header, CanSpell};
ghost use Rattle.aoe_initiator.specs.Response.{answer};
ghost use Rattle.aoe_lists.specs.Settings.{Settings};
ghost use Rattle.aoe_target.specs.declared.heard.Effect.{Effect};
ghost use Rattle.aoe_target.specs.declared.station.Station.{Station};
ghost use Rattle.aoe_target.specs.declared.verdict.Verdict.TheVariants.{Ata};
ghost use Rattle.aoe_target.specs.Device.{State};
ghost use Rattle.aoe_target.specs.Law.{replied, Allows};
ghost use Rattle.aoe_target.specs.Verdict.{as_marked, verdict};
ghost use Rattle.aoe_history.specs.Conversation.{asked_for, CanReply, HasSectors, TellsTruly};

/// A law: a target that takes a request as an ATA command does what the operation asks for, with
/// the data of a write, unless it is read-only and that is a write. A flush is one by either command.
pub fn requests_are_understood()
    ensures answer { (flush : FlushCommand) (op : Op) (id : TargetId) (remote local : Mac) (tag : ℕ) (station : Station) (lists : Settings) (d : AtaDecision)
        → CanSpell op → HasSectors op → Fits (request_header op id remote local tag)
        → verdict station lists (request flush op id remote local tag) ≡ Ata d
        → d.answer ≡ as_marked lists.read_only (asked_for station.sectors op) }
    ensures data { (flush : FlushCommand) (at : ℕ) (bytes : List ℕ) (id : TargetId) (remote local : Mac) (tag : ℕ)
        → at < 2 ^ 48 → length bytes % 512 ≡ 0 → Fits (request_header (Write at bytes) id remote local tag)
        → written (drop 24 (request flush (Write at bytes) id remote local tag)) (span_of (Write at bytes)) ≡ bytes }
{}

/// A law: whatever became of a request by the shelf law, what its host reads in the reply is what
/// the target did.
pub fn responses_tell_truly()
    ensures { (flush : FlushCommand) (op : Op) (id : TargetId) (remote local : Mac) (tag : ℕ) (station : Station) (k : State) (e : Effect) (reply : List ℕ) (a : Answer)
        → (command_of op == 0) ≡ true → CanSpell op → HasSectors op → Fits (request_header op id remote local tag)
        → CanReply station (request_header op id remote local tag)
        → Allows station k (request flush op id remote local tag) (verdict station k.lists (request flush op id remote local tag)) (replied e reply)
        → answer op (fields reply) (drop 24 reply) ≡ Some a → TellsTruly op k e reply a }
{}
