//! What lawful histories say of a host's commands and frames.
ghost use Rattle.std.specs.Prelude.{ℕ, ◌≡◌, ◌≤◌, ◌<◌, true, false, List, Some, is_some, Contains};
ghost use Rattle.aoe_base.specs.declared.sectors.Span.{Span};
ghost use Rattle.aoe_ata.specs.declared.decision.AtaDecision.{AtaDecision};
ghost use Rattle.aoe_frame.specs.Header.{is_response};
ghost use Rattle.aoe_hold.specs.Commands.{has_effect, is_gone, rests_on_effects};
ghost use Rattle.aoe_initiator.specs.declared.op.Op.TheVariants.{Flush, Read};
ghost use Rattle.aoe_initiator.specs.HostLog.{Sending};
ghost use Rattle.aoe_initiator.specs.Op.{kind_of};
ghost use Rattle.aoe_lists.specs.Settings.{Settings};
ghost use Rattle.aoe_net.specs.Network.{numbered, SentFrame};
ghost use Rattle.aoe_target.specs.declared.verdict.Verdict.TheVariants.{Ata};
ghost use Rattle.aoe_target.specs.Sectors.{in_span};
ghost use Rattle.aoe_target.specs.Verdict.{verdict};
ghost use Rattle.aoe_history.specs.declared.entry.Entry.{Entry};
ghost use Rattle.aoe_history.specs.Commands.{commands_of, submission, tickets, writes, Submission};
ghost use Rattle.aoe_history.specs.CommandView.{in_conflict, is_active, is_live, sends_of, view, views, was_done, AsksAt, IsAskable, IsSentFor, IsUnderstood};
ghost use Rattle.aoe_history.specs.Frames.{arriving, clock, frames};
ghost use Rattle.aoe_history.specs.Lawful.{HasHost};
ghost use Rattle.aoe_history.specs.Reading.{is_from};
ghost use Rattle.aoe_history.specs.Setup.{HostSetup, Setup, SlotSetup};

/// A law: in every lawful history the commands of a host are what the history says of them. What is
/// submitted has room in a frame, and is for a device of the host's. Only what was submitted is sent,
/// and only what was sent is done. Of two commands in conflict the later one is sent only once the
/// earlier one is done, and where it rests on effects, only once no frame of an earlier write or edit
/// can arrive any more. No two commands that fly or rest have one tag.
pub fn host_commands_law()
    ensures commands { (s : Setup) (host : HostSetup) (h : List Entry) → HasHost s host h
        → commands_of host h ≡ views host h }
    ensures askable { (s : Setup) (host : HostSetup) (h : List Entry) → HasHost s host h → (c : ℕ) (x : Submission)
        → submission host h c ≡ Some x → IsAskable host x }
    ensures sent_once_submitted { (s : Setup) (host : HostSetup) (h : List Entry) → HasHost s host h → (c : ℕ) (x : Sending)
        → sends_of host h c ≡ Some x → (0 < c) × (c ≤ tickets host h) }
    ensures sent_by_now { (s : Setup) (host : HostSetup) (h : List Entry) → HasHost s host h → (c : ℕ) (x : Sending)
        → sends_of host h c ≡ Some x → x.last.0 ≤ clock h }
    ensures done_once_sent { (s : Setup) (host : HostSetup) (h : List Entry) → HasHost s host h → (c : ℕ)
        → was_done host h c ≡ true → is_some (sends_of host h c) ≡ true }
    ensures in_order { (s : Setup) (host : HostSetup) (h : List Entry) → HasHost s host h → (c d : ℕ)
        → is_some (sends_of host h c) ≡ true → 0 < d → d < c → in_conflict host h d c ≡ true → was_done host h d ≡ true }
    ensures earlier_gone { (s : Setup) (host : HostSetup) (h : List Entry) → HasHost s host h → (c d : ℕ) (x y : Sending)
        → sends_of host h c ≡ Some x → sends_of host h d ≡ Some y → d < c → in_conflict host h d c ≡ true
        → has_effect (kind_of (view host h d).op) ≡ true → rests_on_effects (kind_of (view host h c).op) ≡ true
        → is_gone s.life.requests.0 (clock h) y.last.0 ≡ true }
    ensures tags_differ { (s : Setup) (host : HostSetup) (h : List Entry) → HasHost s host h → (c d : ℕ) (x y : Sending)
        → sends_of host h c ≡ Some x → sends_of host h d ≡ Some y
        → is_live s.life host h c x ≡ true → is_live s.life host h d y ≡ true → x.tag ≡ y.tag → c ≡ d }
{}

/// A law: in every lawful history a frame in the network whose source is a port of the host is the
/// request of one of the host's commands that were sent, with its tag, and so it lives as long as
/// requests do. While it can arrive, the command flies, or it is done and a frame of it can still
/// arrive. Only the slot that the command is for takes it as an ATA command, and is told what the
/// command asks.
pub fn host_frames_law()
    ensures requests { (s : Setup) (host : HostSetup) (h : List Entry) → HasHost s host h → (number : ℕ) (frame : SentFrame)
        → numbered (frames h) number ≡ Some frame → is_from host frame.bytes ≡ true → IsSentFor host h frame }
    ensures active { (s : Setup) (host : HostSetup) (h : List Entry) → HasHost s host h → (number : ℕ) (frame : SentFrame)
        → numbered (frames h) number ≡ Some frame → arriving s.life h number ≡ Some frame.bytes
        → (x : IsSentFor host h frame) → is_active s.life host h x.ticket x.sending ≡ true }
    ensures kind { (s : Setup) (host : HostSetup) (h : List Entry) → HasHost s host h → (frame : SentFrame)
        → IsSentFor host h frame → is_response frame.bytes ≡ false }
    ensures understood { (s : Setup) (host : HostSetup) (h : List Entry) → HasHost s host h
        → (slot : SlotSetup) → Contains s.slots slot → (frame : SentFrame) (lists : Settings) (d : AtaDecision) → (x : IsSentFor host h frame)
        → verdict slot.station lists frame.bytes ≡ Ata d → (asked : Submission) → submission host h x.ticket ≡ Some asked
        → IsUnderstood slot lists.read_only asked frame.bytes d.answer }
{}

/// A law: in every lawful history, of a host's writes of one sector at most one is under way: it
/// flies, or a frame of it can still arrive. None is while a flush of the slot flies, and none flies
/// beside a read of the sector.
pub fn host_writes_law()
    ensures one_write { (s : Setup) (host : HostSetup) (h : List Entry) → HasHost s host h
        → (slot : SlotSetup) (sector c d : ℕ) (x y : Sending) (v w : List ℕ)
        → sends_of host h c ≡ Some x → sends_of host h d ≡ Some y
        → is_active s.life host h c x ≡ true → is_active s.life host h d y ≡ true
        → writes slot (submission host h c) sector ≡ Some v → writes slot (submission host h d) sector ≡ Some w → c ≡ d }
    ensures none_beside_flush { (s : Setup) (host : HostSetup) (h : List Entry) → HasHost s host h
        → (slot : SlotSetup) (sector c d : ℕ) (x y : Sending) (w : List ℕ)
        → sends_of host h c ≡ Some x → sends_of host h d ≡ Some y
        → was_done host h c ≡ false → is_active s.life host h d y ≡ true
        → AsksAt slot (submission host h c) Flush → writes slot (submission host h d) sector ≡ Some w → ⊥ }
    ensures none_beside_read { (s : Setup) (host : HostSetup) (h : List Entry) → HasHost s host h
        → (slot : SlotSetup) (span : Span) (sector c d : ℕ) (x y : Sending) (w : List ℕ)
        → sends_of host h c ≡ Some x → sends_of host h d ≡ Some y
        → was_done host h c ≡ false → was_done host h d ≡ false
        → AsksAt slot (submission host h c) (Read span) → in_span span sector ≡ true
        → writes slot (submission host h d) sector ≡ Some w → ⊥ }
{}
