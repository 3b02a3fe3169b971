//! Worked histories: what the definitions say of them, and what wrong hosts and shelves would have
//! done in them.
ghost use Rattle.std.specs.Prelude.{ℕ, ◌≡◌, true, false, List, [], ◌∷◌, length, Option, Some, None};
ghost use Rattle.aoe_disk.specs.declared.loss.Loss.{Loss};
ghost use Rattle.aoe_disk.specs.declared.loss.Loss.TheVariants.{Keep, Old, Torn, Mix};
ghost use Rattle.aoe_initiator.specs.declared.step.Sent as step;
ghost use Rattle.aoe_initiator.specs.HostLaw.{IsNext, IsQuiet};
ghost use Rattle.aoe_lists.specs.Settings.{empty_settings};
ghost use Rattle.aoe_target.specs.declared.heard.Effect.{Effect};
ghost use Rattle.aoe_target.specs.declared.heard.Effect.TheVariants.{None as NoEffect, Wrote, WriteFault};
ghost use Rattle.aoe_history.specs.declared.entry.Entry.TheVariants.{Sent, Arrived, Took, Ticked, Lost, Crashed};
ghost use Rattle.aoe_history.specs.declared.entry.Fate.{Fate};
ghost use Rattle.aoe_history.specs.declared.entry.Fate.TheVariants.{Replied};
ghost use Rattle.aoe_history.specs.Cases.{almost_waited, armed, beside_submitted, central_acts, central_case, crashed_write, failed_write, flush_sent, forged_response, giving_up, kept_out, late_acknowledgement, masked_out, read_after_crash, read_frame, refusal_after_effect, reserved, second_submitted, stale_response, stopped_flush, write_due, write_sent, write_submitted};
ghost use Rattle.aoe_history.specs.Commands.{commands_of, host_after};
ghost use Rattle.aoe_history.specs.Example.{a, device, full, host_a, host_b, setup, setup_with, show, slot, span};
ghost use Rattle.aoe_history.specs.Frames.{clock, frames};
ghost use Rattle.aoe_history.specs.Groups.{Enters, Follows, Got, Hand, Shelf};
ghost use Rattle.aoe_history.specs.Lawful.{IsLawful, MayCome};
ghost use Rattle.aoe_history.specs.PathCases.{almost_grown, due, grown, measured, missed, other_submitted, path_case, read_on, two_host, two_paths};
ghost use Rattle.aoe_history.specs.Reading.{allowed, alone, safe, spoiled};
ghost use Rattle.aoe_history.specs.Setup.{IsSetup};
ghost use Rattle.aoe_history.specs.Slots.{known_after, marked_after, zero_sector};

/// A law: each entry of the worked histories could come after those before it.
pub fn worked_histories()
    ensures central { IsLawful setup central_case }
    ensures follows { Follows setup central_acts [] central_case }
    ensures late { IsLawful setup late_acknowledgement }
    ensures stale { IsLawful setup stale_response }
    ensures refusal { IsLawful (setup_with None (host_a ∷ host_b ∷ [])) refusal_after_effect }
    ensures gave_up { IsLawful setup giving_up }
    ensures fault { IsLawful setup failed_write }
    ensures stopped { IsLawful setup (stopped_flush Keep) }
    ensures stopped_old { IsLawful setup (stopped_flush Old) }
    ensures stopped_torn { IsLawful setup (stopped_flush Torn) }
    ensures stopped_mixed { IsLawful setup (stopped_flush (Mix 0)) }
    ensures stored { IsLawful setup (read_after_crash (full 0x5a)) }
    ensures cached { IsLawful (setup_with (Some 8) (host_a ∷ [])) (read_after_crash zero_sector) }
    ensures paths { IsLawful two_paths path_case }
    ensures measured { IsLawful two_paths measured }
{}

/// A law: their setup of one host is one, with one path or with two, and what the worked histories
/// say of time, frames and sectors.
pub fn worked_values()
    ensures is_setup { IsSetup setup }
    ensures paths { IsSetup two_paths }
    ensures clock { clock central_case ≡ 2001 }
    ensures frames { length (frames central_case) ≡ 6 }
    ensures known { known_after slot central_case 3 ≡ Some (full 0x5a) }
    ensures unmarked { marked_after slot central_case 3 ≡ false }
    ensures alone { alone host_a slot central_case 3 ≡ true }
    ensures safe { safe host_a slot central_case 3 ≡ true }
    ensures allowed { allowed host_a slot central_case 3 ≡ Some (full 0x5a ∷ []) }
    ensures late { allowed host_a slot late_acknowledgement 3 ≡ None }
    ensures spoiled { spoiled host_a slot late_acknowledgement 3 ≡ true }
    ensures written { allowed host_a slot stale_response 0 ≡ Some (full 0x22 ∷ []) }
    ensures unanswered { allowed host_a slot giving_up 0 ≡ Some (full 0x01 ∷ zero_sector ∷ []) }
    ensures fault { allowed host_a slot failed_write 0 ≡ None }
{}

/// A law: what wrong hosts would have done may not come: a flush as soon as the write before it is
/// acknowledged; a second write of a sector while a frame of the first can arrive; a tag again
/// while a response to its last command can come; a response from any source; nothing sent while a
/// command is clear; nothing repeated.
pub fn wrong_hosts()
    ensures flush { (number : ℕ) (bytes : List ℕ)
        → MayCome setup almost_waited (Sent a 2 number bytes) → ⊥ }
    ensures write { (number : ℕ) (bytes : List ℕ)
        → MayCome setup second_submitted (Sent a 2 number bytes) → ⊥ }
    ensures tag { (sent : step.Sent) → sent.ticket.0 ≡ 2 → sent.tag ≡ 1
        → IsNext (host_after setup host_a beside_submitted) (commands_of host_a beside_submitted) sent → ⊥ }
    ensures source { MayCome setup forged_response (Took a 2 false) → ⊥ }
    ensures silent { IsQuiet (host_after setup host_a write_submitted)
        (commands_of host_a write_submitted) → ⊥ }
    ensures repeat { IsQuiet (host_after setup host_a write_due) (commands_of host_a write_due)
        → ⊥ }
{}

/// A law: what hosts that choose paths wrongly would have done may not come: the next command on the
/// path of the one before it, though there are two; a repeat on the path whose answer was missed;
/// another command on that path, which is marked; where only a command that was sent twice has been
/// answered, so that no trip is known, nothing repeated after 1000 milliseconds, and something
/// before; a second repeat less than 2000 milliseconds after the first one, and none after 2000.
pub fn wrong_paths()
    ensures one_path { (number tag : ℕ) → MayCome two_paths other_submitted
        (Sent a 2 number (read_on 0 1 tag)) → ⊥ }
    ensures same_path { (number tag : ℕ) → MayCome two_paths due (Sent a 1 number (read_on 0 0 tag))
        → ⊥ }
    ensures unmarked { (number tag : ℕ) → MayCome two_paths missed
        (Sent a 2 number (read_on 0 1 tag)) → ⊥ }
    ensures trip { IsQuiet (host_after two_paths two_host (Ticked 1000 ∷ measured))
        (commands_of two_host (Ticked 1000 ∷ measured)) → ⊥ }
    ensures last_trip { (number : ℕ) (bytes : List ℕ)
        → MayCome two_paths (Ticked 999 ∷ measured) (Sent a 2 number bytes) → ⊥ }
    ensures steady { (number : ℕ) (bytes : List ℕ)
        → MayCome two_paths almost_grown (Sent a 1 number bytes) → ⊥ }
    ensures slow { IsQuiet (host_after two_paths two_host grown) (commands_of two_host grown) → ⊥ }
{}

/// A law: what wrong shelves would have done may not come: a flush acknowledged without a sync; a
/// write done though another host has the reservation; an answer to a station outside the mask
/// list; empty lists after a crash, though a reservation was acknowledged; a fault before the call
/// that the disk was armed for, and none in it; a store with a cache that writes through, and one
/// without that doesn't.
pub fn wrong_shelves()
    ensures flush { (reply : List ℕ) → MayCome setup flush_sent
        (Arrived device 3 (Replied NoEffect 4 reply)) → ⊥ }
    ensures reserves { (reply : List ℕ) → MayCome (setup_with None (host_a ∷ host_b ∷ [])) kept_out
        (Arrived device 5 (Replied (Wrote (span 0)) 6 reply)) → ⊥ }
    ensures masks { (effect : Effect) (reply : List ℕ)
        → MayCome (setup_with None (host_a ∷ host_b ∷ [])) masked_out (Arrived device 3 (Replied effect 4 reply)) → ⊥ }
    ensures lists { (how : Loss) → MayCome (setup_with None (host_a ∷ host_b ∷ [])) reserved
        (Crashed device empty_settings how) → ⊥ }
    ensures early { (reply : List ℕ) → MayCome setup (armed 2)
        (Arrived device 1 (Replied (WriteFault (span 0)) 2 reply)) → ⊥ }
    ensures never { (reply : List ℕ) → MayCome setup (armed 1)
        (Arrived device 1 (Replied (Wrote (span 0)) 2 reply)) → ⊥ }
    ensures cached { MayCome (setup_with (Some 8) (host_a ∷ [])) crashed_write
        (Arrived device 3 (Replied NoEffect 4 (show (read_frame 2) (full 0x5a)))) → ⊥ }
    ensures stored { MayCome setup crashed_write
        (Arrived device 3 (Replied NoEffect 4 (show (read_frame 2) zero_sector))) → ⊥ }
{}

/// A law: what a wrong network would have done may not come: a frame handed over after its
/// lifetime, and a frame dropped within it.
pub fn wrong_networks()
    ensures expired { (fate : Fate) → MayCome setup flush_sent (Arrived device 1 fate) → ⊥ }
    ensures dropped { (got : Option Got) → Enters setup write_sent (Hand 1 (Shelf 1)) got
        (Lost 1 ∷ write_sent) → ⊥ }
{}
